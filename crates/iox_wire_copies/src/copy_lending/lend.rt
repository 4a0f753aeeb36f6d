//! The loan of a copy gets back and takes a slot.
ghost use Rattle.std.specs.Prelude.{◌≡◌};

use super::CopyLending;
use crate::at::{CopyAt, CopyLent};
use iox_wire_request_sends::LendReply;
use iox_wire_seats::StoredSeat;

impl CopyLending {
    ghost use Rattle.std.specs.Prelude.{◌≡◌, ◌+◌, ◌<◌, ◌^◌, false, is_none};
    ghost use Rattle.iox_wire_locals.specs.Begins.{is_busy};
    ghost use Rattle.iox_wire_seats.specs.Aims.{KeepsRoom};
    ghost use Rattle.iox_wire_seats.specs.Lends.{MayLend};
    ghost use Rattle.iox_wire_request_sends.specs.WireLoansAims.{GetsBackUsed, IsLoanAt, is_storing};
    ghost use Rattle.iox_wire_copies.specs.CopyAims.{GoesOn, HoldsMade, IsLending, IsLoanOfOrder};
    ghost use Rattle.iox_wire_copies.specs.CopyAims.{IsMadeAt, IsSameCopy, KeepsPeers, MayLendMade};
    ghost use Rattle.iox_wire_copies.specs.CopyAims.{StaysAimed};

    /// An access of the loan before it stores. If the loan is over it is refused.
    #[inline(always)]
    pub(super) fn lend_on(&mut self, seat: &mut StoredSeat, seen: u64) -> Option<CopyLent>
        requires there { IsLending self.old.at }
        requires before { is_storing self.old.lending.local ≡ false }
        requires loan { IsLoanAt self.old.lending.order self.old.lending.local }
        requires rests { is_busy seat.old.seat.local ≡ false }
        requires accesses { seat.old.seat.accesses + 1 < 2 ^ 64 }
        requires may { MayLend seat.old self.old.lending.order.number
            self.old.lending.order.port }
        requires used { GetsBackUsed seat.old.seat self.old.local }
        ensures next { GoesOn seat.old self.old seen seat.new self.new result }
        ensures aimed { StaysAimed seat.old self.old seat.new self.new }
        ensures made { IsLoanOfOrder self.new result }
        ensures stored { IsMadeAt self.old.local result }
        ensures held { HoldsMade seat.old self.old seat.new self.new result }
        ensures busy { is_busy self.new.local ≡ is_none result }
        ensures accesses { seat.new.seat.accesses ≡ seat.old.seat.accesses + 1 }
        ensures room { KeepsRoom seat.old seat.new }
        ensures rests { is_busy seat.new.seat.local ≡ false }
        ensures may { MayLendMade seat.new self.new.lending.order result }
        ensures peers { KeepsPeers seat.old self.old seat.new }
        ensures same { IsSameCopy self.old self.new }
    {
        match self.lending.go_on(seat, seen) {
            None => None,
            Some(LendReply::Handle(_)) => unreachable!(),
            Some(LendReply::Refused(refusal)) => {
                self.at = CopyAt::Rest;
                Some(CopyLent::Refused(refusal))
            }
        }
    }
}
