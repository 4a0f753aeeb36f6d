//! How a node begins a loan.
ghost use Rattle.std.specs.Prelude.{◌+◌, ◌<◌, ◌^◌, ◌≡◌, ◌≤◌, IfErr, IfSome, None, OnErr, OnOk, length, vec_capacity};
ghost use Rattle.iox_model.specs.declared.call.Call.TheVariants.{Loan};
ghost use Rattle.iox_model.specs.declared.call.WireCall.TheVariants.{Port};
ghost use Rattle.iox_wire_begins.specs.Plans.{most_ways, number_at, port_of};
ghost use Rattle.iox_wire_begins.specs.WirePlans.{HandleStands, IsWirePlan};
ghost use Rattle.iox_wire_begins.specs.HandleCalls.{refusal_in};
ghost use Rattle.iox_wire_begins.specs.Terms.{IsSettingWith};
ghost use Rattle.iox_wire_begins.specs.Begins.{refusal_at};
ghost use Rattle.iox_wire_begins.specs.Tables.{Setting, entry_at};
ghost use Rattle.iox_wire_nodes.specs.declared.call_at.CallAt.TheVariants.{Lends};
ghost use Rattle.iox_wire_nodes.specs.Begins.{IsUnderWay};
ghost use Rattle.iox_wire_nodes.specs.Nodes.{seat_in};
ghost use Rattle.iox_wire_begins.specs.ListRooms.{HasRoomToLend};
ghost use Rattle.iox_wire_nodes.specs.Rooms.{KeepsRooms};

use super::StoredNode;
use crate::call_at::CallAt;
use iox_wire_begins::{
    Asked, BeginError, Stop, WireTerms, WordMap, begin_request_loan, begin_response_loan,
    server_place,
};

impl StoredNode {
    /// Begins the loan of a request of so many elements at the port at an index, which has that
    /// number. What it lists in `stops` is of no use later.
    pub fn begin_loan_at_port(
        &mut self,
        map: &WordMap,
        terms: &WireTerms,
        number: u64,
        port: usize,
        elements: u64,
        stops: &mut Vec<Stop>,
    ) -> Result<(), BeginError>
        requires plan { IsWirePlan map.now terms.now }
        requires next { terms.now.first_number + self.old.seat.seat.handles_made < 2 ^ 64 }
        requires within { port < length map.now.ports.items }
        requires there { number_at map.now port ≡ number }
        requires list { most_ways map.now ≤ vec_capacity stops.old }
        requires rooms { HasRoomToLend map.now self.old.lends }
        ensures begun { (p : Setting) → IsSettingWith map.now terms.now p
            → OnOk result (IsUnderWay p self.old (Port (Loan number elements)) self.new) }
        ensures refused { (p : Setting) → IsSettingWith map.now terms.now p
            → IfErr result (λ error. refusal_at p (seat_in self.old)
            (Port (Loan number elements)) ≡ refusal_in error) }
        ensures at { OnOk result (self.new.at ≡ Lends) }
        ensures unchanged { OnErr result (self.new ≡ self.old) }
        ensures list { vec_capacity stops.new ≡ vec_capacity stops.old }
        ensures rooms { OnOk result (KeepsRooms self.old self.new) }
    {
        self.name_at_port(map, terms, Asked::Loan(elements), number, port)?;
        // only what this promises is wanted
        let _plan = map.plan();
        let next = self.next_number(terms);
        begin_request_loan(
            map,
            terms,
            &mut self.seat,
            &mut self.lending,
            port,
            elements,
            next,
            stops,
        );
        self.at = CallAt::Lends;
        Ok(())
    }

    /// Begins the loan of a response of so many elements to the received request of that number,
    /// which is no port's. What it lists in `stops` is of no use later.
    pub fn begin_loan_on_handle(
        &mut self,
        map: &WordMap,
        terms: &WireTerms,
        number: u64,
        elements: u64,
        stops: &mut Vec<Stop>,
    ) -> Result<(), BeginError>
        requires plan { IsWirePlan map.now terms.now }
        requires next { terms.now.first_number + self.old.seat.seat.handles_made < 2 ^ 64 }
        requires no_port { port_of map.now number ≡ None }
        requires handle { IfSome (entry_at number self.old.seat.seat.table)
            (HandleStands map.now self.old.seat.seat.desks) }
        requires list { most_ways map.now ≤ vec_capacity stops.old }
        requires rooms { HasRoomToLend map.now self.old.lends }
        ensures begun { (p : Setting) → IsSettingWith map.now terms.now p
            → OnOk result (IsUnderWay p self.old (Port (Loan number elements)) self.new) }
        ensures refused { (p : Setting) → IsSettingWith map.now terms.now p
            → IfErr result (λ error. refusal_at p (seat_in self.old)
            (Port (Loan number elements)) ≡ refusal_in error) }
        ensures at { OnOk result (self.new.at ≡ Lends) }
        ensures unchanged { OnErr result (self.new ≡ self.old) }
        ensures list { vec_capacity stops.new ≡ vec_capacity stops.old }
        ensures rooms { OnOk result (KeepsRooms self.old self.new) }
    {
        let request = self.name_handle(map, Asked::Loan(elements), number)?;
        let server = server_place(map, request.port);
        let next = self.next_number(terms);
        begin_response_loan(
            map,
            terms,
            &mut self.seat,
            &mut self.lending,
            request,
            server,
            elements,
            next,
            stops,
        );
        self.at = CallAt::Lends;
        Ok(())
    }
}
