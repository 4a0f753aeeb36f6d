//! How a node begins to copy a response.
ghost use Rattle.std.specs.Prelude.{◌+◌, ◌<◌, ◌^◌, ◌≡◌, ◌≤◌, IfErr, IfSome, None, OnErr, OnOk, vec_capacity};
ghost use Rattle.iox_model.specs.declared.call.Call.TheVariants.{SendCopy};
ghost use Rattle.iox_model.specs.declared.call.WireCall.TheVariants.{Port};
ghost use Rattle.iox_model.specs.declared.kind.Role.TheVariants.{Server};
ghost use Rattle.iox_wire_begins.specs.Plans.{most_ways, port_of};
ghost use Rattle.iox_wire_begins.specs.WirePlans.{HandleStands, IsWirePlan};
ghost use Rattle.iox_wire_begins.specs.HandleCalls.{refusal_in};
ghost use Rattle.iox_wire_begins.specs.Terms.{IsSettingWith};
ghost use Rattle.iox_wire_begins.specs.Begins.{refusal_at};
ghost use Rattle.iox_wire_begins.specs.Tables.{Setting, entry_at};
ghost use Rattle.iox_wire_nodes.specs.declared.call_at.CallAt.TheVariants.{CopiesResponse};
ghost use Rattle.iox_wire_nodes.specs.Begins.{IsUnderWay};
ghost use Rattle.iox_wire_nodes.specs.Calls.{payload_with};
ghost use Rattle.iox_wire_nodes.specs.Nodes.{seat_in};
ghost use Rattle.iox_wire_begins.specs.ListRooms.{HasRoomToCopy};
ghost use Rattle.iox_wire_nodes.specs.Rooms.{KeepsRooms};

use super::StoredNode;
use super::elements::elements_in;
use crate::call_at::CallAt;
use iox_model::kind::Role;
use iox_wire_begins::{
    Asked, BeginError, Stop, WireTerms, WordMap, begin_response_copy, client_place, server_place,
};

impl StoredNode {
    /// Begins to copy a response of these words to the received request of that number, which is no
    /// port's. What it lists in `stops` is of no use later.
    pub fn begin_copy_on_handle(
        &mut self,
        map: &WordMap,
        terms: &WireTerms,
        number: u64,
        role: Role,
        words: &[u64],
        stops: &mut Vec<Stop>,
    ) -> Result<(), BeginError>
        requires plan { IsWirePlan map.now terms.now }
        requires next { terms.now.first_number + self.old.seat.seat.handles_made < 2 ^ 64 }
        requires no_port { port_of map.now number ≡ None }
        requires handle { IfSome (entry_at number self.old.seat.seat.table)
            (HandleStands map.now self.old.seat.seat.desks) }
        requires list { most_ways map.now ≤ vec_capacity stops.old }
        requires rooms { HasRoomToCopy map.now self.old.copies_response.lends }
        ensures begun { (p : Setting) → IsSettingWith map.now terms.now p → OnOk result
            (IsUnderWay p self.old (Port (SendCopy number (payload_with p role words.now)))
            self.new) }
        ensures refused { (p : Setting) → IsSettingWith map.now terms.now p → IfErr result
            (λ error. refusal_at p (seat_in self.old)
            (Port (SendCopy number (payload_with p role words.now))) ≡ refusal_in error) }
        ensures at { OnOk result (self.new.at ≡ CopiesResponse) }
        ensures role { OnOk result (role ≡ Server) }
        ensures unchanged { OnErr result (self.new ≡ self.old) }
        ensures list { vec_capacity stops.new ≡ vec_capacity stops.old }
        ensures rooms { OnOk result (KeepsRooms self.old self.new) }
    {
        let request = self.name_handle(map, Asked::SendCopy(role), number)?;
        // only what this promises is wanted
        let _plan = map.plan();
        let client = client_place(map, request.client, request.lane);
        let server = server_place(map, request.port);
        let next = self.next_number(terms);
        let elements = elements_in(map, terms, role, words);
        begin_response_copy(
            map,
            terms,
            &mut self.seat,
            &mut self.copying_server,
            request,
            client,
            server,
            elements,
            words,
            next,
            stops,
        );
        self.at = CallAt::CopiesResponse;
        Ok(())
    }
}
