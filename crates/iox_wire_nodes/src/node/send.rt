//! How a node begins to send a loan.
ghost use Rattle.std.specs.Prelude.{◌≡◌, ◌⊎◌, ◌≤◌, IfErr, IfSome, None, OnErr, OnOk, false, true};
ghost use Rattle.std.specs.Prelude.{vec_capacity};
ghost use Rattle.iox_model.specs.declared.call.Call.TheVariants.{Send};
ghost use Rattle.iox_model.specs.declared.call.WireCall.TheVariants.{Port};
ghost use Rattle.iox_model.specs.Handles.{is_request_loan, is_response_loan};
ghost use Rattle.iox_wire_begins.specs.Plans.{most_ways, port_of};
ghost use Rattle.iox_wire_begins.specs.WirePlans.{HandleStands, IsWirePlan};
ghost use Rattle.iox_wire_begins.specs.HandleCalls.{refusal_in};
ghost use Rattle.iox_wire_begins.specs.Terms.{IsSettingWith};
ghost use Rattle.iox_wire_begins.specs.Begins.{begins_at_entry, is_busy, refusal_at};
ghost use Rattle.iox_wire_begins.specs.Tables.{Setting, entry_at};
ghost use Rattle.iox_wire_nodes.specs.declared.call_at.CallAt.TheVariants.{SendsRequest};
ghost use Rattle.iox_wire_nodes.specs.declared.call_at.CallAt.TheVariants.{SendsResponse};
ghost use Rattle.iox_wire_nodes.specs.Begins.{IsAtOnce, IsUnderWay, sent_at};
ghost use Rattle.iox_wire_nodes.specs.Nodes.{seat_in};
ghost use Rattle.iox_wire_nodes.specs.Rooms.{KeepsRooms};

use super::StoredNode;
use crate::call_at::CallAt;
use iox_model::kind::Kind;
use iox_wire_begins::{
    Asked, BeginError, Entry, Target, WireTerms, WordMap, begin_request_send, begin_response_send,
    client_place, server_place,
};

impl StoredNode {
    /// Begins to send the loan of that number, which is no port's. What it lists in `targets` is of
    /// no use later.
    pub fn begin_send(
        &mut self,
        map: &WordMap,
        terms: &WireTerms,
        number: u64,
        targets: &mut Vec<Target>,
    ) -> Result<(), BeginError>
        requires plan { IsWirePlan map.now terms.now }
        requires no_port { port_of map.now number ≡ None }
        requires handle { IfSome (entry_at number self.old.seat.seat.table)
            (HandleStands map.now self.old.seat.seat.desks) }
        requires list { most_ways map.now ≤ vec_capacity targets.old }
        requires room { most_ways map.now ≤ self.old.requests.room }
        ensures begun { (p : Setting) → IsSettingWith map.now terms.now p
            → OnOk result (IsUnderWay p self.old (Port (Send number)) self.new) }
        ensures refused { (p : Setting) → IsSettingWith map.now terms.now p
            → IfErr result (λ error.
            refusal_at p (seat_in self.old) (Port (Send number)) ≡ refusal_in error) }
        ensures at { OnOk result
            (self.new.at ≡ sent_at (entry_at number self.old.seat.seat.table)) }
        ensures sends { OnOk result
            ((self.new.at ≡ SendsRequest) ⊎ (self.new.at ≡ SendsResponse)) }
        ensures unchanged { OnErr result (self.new ≡ self.old) }
        ensures list { vec_capacity targets.new ≡ vec_capacity targets.old }
        ensures rooms { OnOk result (KeepsRooms self.old self.new) }
    {
        let loan = self.name_handle(map, Asked::Send, number)?;
        if is_request(loan.kind) {
            self.send_request(map, terms, loan, targets);
            return Ok(());
        }
        self.send_response(map, terms, loan);
        Ok(())
    }

    /// Begins to send a loaned request.
    fn send_request(
        &mut self,
        map: &WordMap,
        terms: &WireTerms,
        loan: Entry,
        targets: &mut Vec<Target>,
    )
        requires rests { is_busy (seat_in self.old).local ≡ false }
        requires own { seat_in self.old ≡ self.old.seat.seat }
        requires plan { IsWirePlan map.now terms.now }
        requires kind { is_request_loan loan.kind ≡ true }
        requires handle { HandleStands map.now self.old.seat.seat.desks loan }
        requires list { most_ways map.now ≤ vec_capacity targets.old }
        requires room { most_ways map.now ≤ self.old.requests.room }
        ensures begun { (p : Setting) → IsSettingWith map.now terms.now p
            → IsAtOnce p self.old (begins_at_entry p (seat_in self.old) (Send 0) loan) self.new }
        ensures at { self.new.at ≡ SendsRequest }
        ensures list { vec_capacity targets.new ≡ vec_capacity targets.old }
        ensures rooms { KeepsRooms self.old self.new }
    {
        let client = client_place(map, loan.port, loan.lane);
        begin_request_send(
            map,
            terms,
            &self.seat,
            &mut self.requesting,
            loan,
            client,
            targets,
        );
        self.at = CallAt::SendsRequest;
    }

    /// Begins to send a loaned response.
    fn send_response(&mut self, map: &WordMap, terms: &WireTerms, loan: Entry)
        requires rests { is_busy (seat_in self.old).local ≡ false }
        requires own { seat_in self.old ≡ self.old.seat.seat }
        requires plan { IsWirePlan map.now terms.now }
        requires kind { is_response_loan loan.kind ≡ true }
        requires handle { HandleStands map.now self.old.seat.seat.desks loan }
        ensures begun { (p : Setting) → IsSettingWith map.now terms.now p
            → IsAtOnce p self.old (begins_at_entry p (seat_in self.old) (Send 0) loan) self.new }
        ensures at { self.new.at ≡ SendsResponse }
        ensures rooms { KeepsRooms self.old self.new }
    {
        let client = client_place(map, loan.client, loan.lane);
        let server = server_place(map, loan.port);
        begin_response_send(
            map,
            terms,
            &self.seat,
            &mut self.responding,
            loan,
            client,
            server,
        );
        self.at = CallAt::SendsResponse;
    }
}

/// Whether a handle of that kind is a loaned request.
fn is_request(kind: Kind) -> bool
    ensures { result ≡ is_request_loan kind }
{
    matches!(kind, Kind::RequestMut | Kind::RequestMutUninit)
}
