//! How a node begins a copy: loan, write and send in one call.
ghost use Rattle.std.specs.Prelude.{◌≡◌, ◌+◌, ◌<◌, ◌≤◌, ◌^◌, IfErr, OnErr, OnOk, length};
ghost use Rattle.iox_model.specs.declared.call.Call.TheVariants.{SendCopy};
ghost use Rattle.iox_model.specs.declared.call.WireCall.TheVariants.{Port};
ghost use Rattle.iox_model.specs.declared.kind.Role.TheVariants.{Client};
ghost use Rattle.iox_wire_begins.specs.ListRooms.{ListsHaveRoom, HasRoomToCopy};
ghost use Rattle.iox_wire_begins.specs.Plans.{most_ways, number_at};
ghost use Rattle.iox_wire_begins.specs.WirePlans.{IsWirePlan};
ghost use Rattle.iox_wire_begins.specs.HandleCalls.{refusal_in};
ghost use Rattle.iox_wire_begins.specs.Terms.{IsSettingWith};
ghost use Rattle.iox_wire_begins.specs.Begins.{refusal_at};
ghost use Rattle.iox_wire_begins.specs.Tables.{Setting};
ghost use Rattle.iox_wire_nodes.specs.declared.call_at.CallAt.TheVariants.{CopiesRequest};
ghost use Rattle.iox_wire_nodes.specs.Begins.{IsUnderWay};
ghost use Rattle.iox_wire_nodes.specs.Calls.{payload_with};
ghost use Rattle.iox_wire_nodes.specs.Nodes.{seat_in};
ghost use Rattle.iox_wire_nodes.specs.Rooms.{KeepsRooms};

use super::StoredNode;
use super::elements::elements_in;
use crate::call_at::CallAt;
use iox_model::kind::Role;
use iox_wire_begins::{Asked, BeginError, Lists, WireTerms, WordMap, begin_request_copy};

impl StoredNode {
    /// Begins to copy a message of these words at the port at an index, which has that number. What
    /// is listed is of no use later.
    pub fn begin_copy_at_port(
        &mut self,
        map: &WordMap,
        terms: &WireTerms,
        number: u64,
        port: usize,
        role: Role,
        words: &[u64],
        lists: &mut Lists,
    ) -> Result<(), BeginError>
        requires plan { IsWirePlan map.now terms.now }
        requires next { terms.now.first_number + self.old.seat.seat.handles_made < 2 ^ 64 }
        requires within { port < length map.now.ports.items }
        requires there { number_at map.now port ≡ number }
        requires lists { ListsHaveRoom map.now lists.old }
        requires rooms { HasRoomToCopy map.now self.old.copies_request.lends }
        requires servers { most_ways map.now ≤ self.old.copies_request.sends.room }
        ensures begun { (p : Setting) → IsSettingWith map.now terms.now p → OnOk result
            (IsUnderWay p self.old (Port (SendCopy number (payload_with p role words.now)))
            self.new) }
        ensures refused { (p : Setting) → IsSettingWith map.now terms.now p → IfErr result
            (λ error. refusal_at p (seat_in self.old)
            (Port (SendCopy number (payload_with p role words.now))) ≡ refusal_in error) }
        ensures at { OnOk result (self.new.at ≡ CopiesRequest) }
        ensures role { OnOk result (role ≡ Client) }
        ensures unchanged { OnErr result (self.new ≡ self.old) }
        ensures lists { ListsHaveRoom map.now lists.new }
        ensures rooms { OnOk result (KeepsRooms self.old self.new) }
    {
        self.name_at_port(map, terms, Asked::SendCopy(role), number, port)?;
        // only what this promises is wanted
        let _plan = map.plan();
        let next = self.next_number(terms);
        let elements = elements_in(map, terms, role, words);
        begin_request_copy(
            map,
            terms,
            &mut self.seat,
            &mut self.copying_client,
            port,
            elements,
            words,
            next,
            lists,
        );
        self.at = CallAt::CopiesRequest;
        Ok(())
    }
}
