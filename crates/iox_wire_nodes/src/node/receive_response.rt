//! How a node begins to receive a response.
ghost use Rattle.std.specs.Prelude.{◌+◌, ◌<◌, ◌^◌, ◌≡◌, ◌≤◌, IfErr, IfSome, None, OnErr, OnOk, vec_capacity};
ghost use Rattle.iox_model.specs.declared.call.Call.TheVariants.{Receive};
ghost use Rattle.iox_model.specs.declared.call.WireCall.TheVariants.{Port};
ghost use Rattle.iox_wire_begins.specs.Plans.{most_ways, port_of};
ghost use Rattle.iox_wire_begins.specs.WirePlans.{HandleStands, IsWirePlan};
ghost use Rattle.iox_wire_begins.specs.HandleCalls.{refusal_in};
ghost use Rattle.iox_wire_begins.specs.Terms.{IsSettingWith};
ghost use Rattle.iox_wire_begins.specs.Begins.{refusal_at};
ghost use Rattle.iox_wire_begins.specs.Tables.{Setting, entry_at};
ghost use Rattle.iox_wire_nodes.specs.declared.call_at.CallAt.TheVariants.{Receives};
ghost use Rattle.iox_wire_nodes.specs.Begins.{IsUnderWay};
ghost use Rattle.iox_wire_nodes.specs.Nodes.{seat_in};
ghost use Rattle.iox_wire_nodes.specs.Rooms.{KeepsRooms};

use super::StoredNode;
use crate::call_at::CallAt;
use iox_wire_begins::{
    Asked, BeginError, Source, WireTerms, WordMap, begin_response_receive, client_place,
};

impl StoredNode {
    /// Begins to receive a response of the pending response of that number, which is no port's.
    /// What it lists in `sources` is of no use later.
    pub fn begin_receive_on_handle(
        &mut self,
        map: &WordMap,
        terms: &WireTerms,
        number: u64,
        sources: &mut Vec<Source>,
    ) -> Result<(), BeginError>
        requires plan { IsWirePlan map.now terms.now }
        requires next { terms.now.first_number + self.old.seat.seat.handles_made < 2 ^ 64 }
        requires no_port { port_of map.now number ≡ None }
        requires handle { IfSome (entry_at number self.old.seat.seat.table)
            (HandleStands map.now self.old.seat.seat.desks) }
        requires list { most_ways map.now ≤ vec_capacity sources.old }
        requires room { most_ways map.now ≤ self.old.receives.room }
        ensures begun { (p : Setting) → IsSettingWith map.now terms.now p
            → OnOk result (IsUnderWay p self.old (Port (Receive number)) self.new) }
        ensures refused { (p : Setting) → IsSettingWith map.now terms.now p
            → IfErr result (λ error.
            refusal_at p (seat_in self.old) (Port (Receive number)) ≡ refusal_in error) }
        ensures at { OnOk result (self.new.at ≡ Receives) }
        ensures unchanged { OnErr result (self.new ≡ self.old) }
        ensures list { vec_capacity sources.new ≡ vec_capacity sources.old }
        ensures rooms { OnOk result (KeepsRooms self.old self.new) }
    {
        let pending = self.name_handle(map, Asked::Receive, number)?;
        let client = client_place(map, pending.port, pending.lane);
        let next = self.next_number(terms);
        begin_response_receive(
            map,
            &self.seat,
            &mut self.receiving,
            pending,
            client,
            terms.fire_and_forget,
            next,
            sources,
        );
        self.at = CallAt::Receives;
        Ok(())
    }
}
