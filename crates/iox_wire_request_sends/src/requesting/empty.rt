//! The send of a request gets back what was returned, server by server.
ghost use Rattle.std.specs.Prelude.{◌≡◌};

use super::Requesting;
use crate::at::RequestReply;
use iox_steps::QueueEvent;
use iox_wire_seats::StoredSeat;

impl Requesting {
    ghost use Rattle.std.specs.Prelude.{◌≡◌, ◌+◌, ◌<◌, ◌^◌, ℕ, IfSome, false, is_none};
    ghost use Rattle.iox_wire_locals.specs.Begins.{is_busy};
    ghost use Rattle.iox_wire_request_sends.specs.Aims.{Answers, FindsUsed, GoesOn, IsEmptying};
    ghost use Rattle.iox_wire_request_sends.specs.Aims.{IsOneStep, IsSameSend, IsToldBy, LoanMayEnd};
    ghost use Rattle.iox_wire_request_sends.specs.Aims.{StaysAimed};

    /// An access of a pop of what returned.
    #[inline(always)]
    pub(super) fn empty_on(&mut self, seat: &mut StoredSeat, seen: u64) -> Option<RequestReply>
        requires there { IsEmptying self.old.local }
        requires accesses { seat.old.seat.accesses + 1 < 2 ^ 64 }
        requires rests { is_busy seat.old.seat.local ≡ false }
        requires may { LoanMayEnd seat.old self.old }
        requires finds { FindsUsed seat.old self.old seen }
        ensures next { GoesOn seat.old self.old seen seat.new self.new }
        ensures over { Answers seat.old self.old seen result }
        ensures aimed { StaysAimed seat.old self.old seat.new self.new }
        ensures busy { is_busy self.new.local ≡ is_none result }
        ensures told { IfSome result (IsToldBy self.new.copied) }
        ensures same { IsSameSend self.old self.new }
        ensures step { IsOneStep seat.old seat.new }
    {
        seat.count_access();
        match self.popper.advance(self.site, seen) {
            QueueEvent::HandOut(slot) => {
                seat.get_back(self.loan.port, self.way(), slot);
                self.popper.pop();
                None
            }
            QueueEvent::SeesEmpty => self.empty_next(seat),
            _ => None,
        }
    }
}
