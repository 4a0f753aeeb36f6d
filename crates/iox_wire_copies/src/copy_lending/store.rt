//! The loan of a copy stores the words of its message.
ghost use Rattle.std.specs.Prelude.{◌≡◌};

use super::CopyLending;
use crate::at::{CopyAt, CopyLent};
use iox_wire_seats::StoredSeat;

impl CopyLending {
    ghost use Rattle.std.specs.Prelude.{◌≡◌, ◌+◌, ◌<◌, ◌^◌, ℕ, false, is_none, length};
    ghost use Rattle.iox_wire_locals.specs.Begins.{is_busy};
    ghost use Rattle.iox_wire_seats.specs.Keeps.{counted};
    ghost use Rattle.iox_wire_request_sends.specs.WireLoansAims.{HasNextWord, IsLoanAt, IsStoring};
    ghost use Rattle.iox_wire_copies.specs.CopyAims.{GoesOn, HoldsMade, IsLending, IsLoanOfOrder};
    ghost use Rattle.iox_wire_copies.specs.CopyAims.{IsMadeAt, IsSameCopy, IsWriting, StaysAimed};

    /// A word in front of the payload is stored. With the last it continues with the payload, and
    /// without one it is over.
    #[inline(always)]
    pub(super) fn store_on(&mut self, seat: &mut StoredSeat) -> Option<CopyLent>
        requires there { IsLending self.old.at }
        requires storing { IsStoring self.old.lending.local }
        requires loan { IsLoanAt self.old.lending.order self.old.lending.local }
        requires accesses { seat.old.seat.accesses + 1 < 2 ^ 64 }
        ensures seat { seat.new ≡ counted seat.old }
        ensures next { (seen : ℕ) → GoesOn seat.old self.old seen seat.new self.new result }
        ensures aimed { StaysAimed seat.old self.old seat.new self.new }
        ensures made { IsLoanOfOrder self.new result }
        ensures stored { IsMadeAt self.old.local result }
        ensures held { HoldsMade seat.old self.old seat.new self.new result }
        ensures busy { is_busy self.new.local ≡ is_none result }
        ensures same { IsSameCopy self.old self.new }
    {
        seat.count_access();
        let Some(loan) = self.lending.store_ahead() else {
            return None;
        };
        self.loan = loan;
        if self.payload.len() == 0 {
            self.at = CopyAt::Rest;
            return Some(CopyLent::Made);
        }
        self.place = self.places.place(self.slots, loan.slot);
        self.next = 0;
        self.at = CopyAt::Writes;
        None
    }

    /// A word of the payload is stored. With the last it is over.
    #[inline(always)]
    pub(super) fn write_on(&mut self, seat: &mut StoredSeat) -> Option<CopyLent>
        requires there { IsWriting self.old.at }
        requires accesses { seat.old.seat.accesses + 1 < 2 ^ 64 }
        ensures seat { seat.new ≡ counted seat.old }
        ensures next { (seen : ℕ) → GoesOn seat.old self.old seen seat.new self.new result }
        ensures aimed { StaysAimed seat.old self.old seat.new self.new }
        ensures made { IsLoanOfOrder self.new result }
        ensures stored { IsMadeAt self.old.local result }
        ensures held { HoldsMade seat.old self.old seat.new self.new result }
        ensures busy { is_busy self.new.local ≡ is_none result }
        ensures same { IsSameCopy self.old self.new }
    {
        seat.count_access();
        self.next += 1;
        if self.next < self.payload.len() {
            return None;
        }
        self.at = CopyAt::Rest;
        Some(CopyLent::Made)
    }
}
