//! The copy of a request continues from its loan to its send.
ghost use Rattle.std.specs.Prelude.{◌≡◌};

use super::CopyingClient;
use crate::at::{CopierAt, CopyLent, CopyReply};
use crate::told::request_sent;
use iox_wire_locals::Entry;
use iox_wire_seats::StoredSeat;

impl CopyingClient {
    ghost use Rattle.std.specs.Prelude.{◌≡◌, ◌+◌, ◌<◌, ◌^◌, false, is_none, true};
    ghost use Rattle.iox_model.specs.Handles.{is_request_loan};
    ghost use Rattle.iox_wire_locals.specs.Begins.{is_busy};
    ghost use Rattle.iox_wire_locals.specs.NewLoans.{entry_in};
    ghost use Rattle.iox_wire_seats.specs.Aims.{HasRoomForHint, KeepsRoom};
    ghost use Rattle.iox_wire_seats.specs.Desks.{MayGiveUp};
    ghost use Rattle.iox_wire_seats.specs.Lends.{MayLend};
    ghost use Rattle.iox_wire_request_sends.specs.Orders.{loan_of};
    ghost use Rattle.iox_wire_request_sends.specs.Aims.{IsOneStep};
    ghost use Rattle.iox_wire_copies.specs.Copiers.{IsLending, IsSending};
    ghost use Rattle.iox_wire_copies.specs.CopyCalls.{Answers, FindsUsed, GoesOn, IsSameCall};
    ghost use Rattle.iox_wire_copies.specs.CopyCalls.{MayEndCall, SendsItsLoan, SendsTo, StaysAimed};

    /// An access of its loan. Once that is made, it is sent.
    #[inline(always)]
    pub(super) fn lend_on(&mut self, seat: &mut StoredSeat, seen: u64) -> Option<CopyReply>
        requires there { IsLending self.old.at }
        requires accesses { seat.old.seat.accesses + 1 < 2 ^ 64 }
        requires rests { is_busy seat.old.seat.local ≡ false }
        requires may { MayEndCall seat.old self.old }
        requires finds { FindsUsed seat.old self.old seen }
        ensures next { GoesOn seat.old self.old seen seat.new self.new }
        ensures over { Answers seat.old self.old seen result }
        ensures aimed { StaysAimed seat.old self.old seat.new self.new }
        ensures busy { is_busy self.new.local ≡ is_none result }
        ensures same { IsSameCall self.old self.new }
        ensures loan { SendsItsLoan self.new }
        ensures step { IsOneStep seat.old seat.new }
    {
        match self.lends.go_on(seat, seen) {
            None => {
                // only what this promises is wanted
                self.lends.place();
                None
            }
            Some(CopyLent::Refused(refusal)) => {
                self.at = CopierAt::Rest;
                Some(CopyReply::Refused(refusal))
            }
            Some(CopyLent::Made) => {
                self.at = CopierAt::Rest;
                let loan = self.lends.loan();
                self.send(seat, loan)
            }
        }
    }

    /// Begins to send the loan that it made. Without an access to make it is over.
    #[inline(always)]
    fn send(&mut self, seat: &mut StoredSeat, loan: Entry) -> Option<CopyReply>
        requires lends { is_busy self.old.lends.local ≡ false }
        requires sends { is_busy self.old.sends.local ≡ false }
        requires rests { is_busy seat.old.seat.local ≡ false }
        requires kind { is_request_loan loan.kind ≡ true }
        requires request { HasRoomForHint loan }
        requires made { loan ≡ entry_in (loan_of self.old.lends.lending.order) loan.slot }
        requires may { MayLend seat.old loan.number loan.port }
        requires held { MayGiveUp loan seat.old.seat.desks }
        ensures next { SendsTo seat.old.seat self.old.sends loan seat.new self.new result }
        ensures busy { is_busy self.new.local ≡ is_none result }
        ensures same { IsSameCall self.old self.new }
        ensures loan { SendsItsLoan self.new }
        ensures accesses { seat.new.seat.accesses ≡ seat.old.seat.accesses }
        ensures room { KeepsRoom seat.old seat.new }
        ensures rests { is_busy seat.new.seat.local ≡ false }
    {
        self.sends.start(seat, loan, true);
        self.at = CopierAt::Sends;
        if !self.sends.is_ending() {
            return None;
        }
        match self.sends.tell(seat) {
            None => None,
            Some(reply) => {
                self.at = CopierAt::Rest;
                Some(request_sent(reply))
            }
        }
    }

    /// An access of its send.
    #[inline(always)]
    pub(super) fn send_on(&mut self, seat: &mut StoredSeat, seen: u64) -> Option<CopyReply>
        requires there { IsSending self.old.at }
        requires accesses { seat.old.seat.accesses + 1 < 2 ^ 64 }
        requires rests { is_busy seat.old.seat.local ≡ false }
        requires may { MayEndCall seat.old self.old }
        requires finds { FindsUsed seat.old self.old seen }
        ensures next { GoesOn seat.old self.old seen seat.new self.new }
        ensures over { Answers seat.old self.old seen result }
        ensures aimed { StaysAimed seat.old self.old seat.new self.new }
        ensures busy { is_busy self.new.local ≡ is_none result }
        ensures same { IsSameCall self.old self.new }
        ensures loan { SendsItsLoan self.new }
        ensures step { IsOneStep seat.old seat.new }
    {
        match self.sends.go_on(seat, seen) {
            None => None,
            Some(reply) => {
                self.at = CopierAt::Rest;
                Some(request_sent(reply))
            }
        }
    }
}
