//! The send of a request looks which servers are full, where their queues do not overflow.
ghost use Rattle.std.specs.Prelude.{◌≡◌};

use super::Requesting;
use crate::at::{RequestAt, RequestReply};
use iox_steps::QueueEvent;
use iox_wire_seats::StoredSeat;

impl Requesting {
    ghost use Rattle.std.specs.Prelude.{◌≡◌, ◌+◌, ◌<◌, ◌^◌, ℕ, IfSome, false, is_none};
    ghost use Rattle.iox_wire_locals.specs.Begins.{is_busy};
    ghost use Rattle.iox_wire_request_sends.specs.Aims.{Answers, GoesOn, IsLooking};
    ghost use Rattle.iox_wire_request_sends.specs.Aims.{IsOneStep, IsSameSend, IsToldBy, LoanMayEnd};
    ghost use Rattle.iox_wire_request_sends.specs.Aims.{StaysAimed};

    /// An access of a look at fullness.
    #[inline(always)]
    pub(super) fn look_on(&mut self, seat: &mut StoredSeat, seen: u64) -> Option<RequestReply>
        requires there { IsLooking self.old.local }
        requires accesses { seat.old.seat.accesses + 1 < 2 ^ 64 }
        requires rests { is_busy seat.old.seat.local ≡ false }
        requires may { LoanMayEnd seat.old self.old }
        ensures next { GoesOn seat.old self.old seen seat.new self.new }
        ensures over { Answers seat.old self.old seen result }
        ensures aimed { StaysAimed seat.old self.old seat.new self.new }
        ensures busy { is_busy self.new.local ≡ is_none result }
        ensures told { IfSome result (IsToldBy self.new.copied) }
        ensures same { IsSameSend self.old self.new }
        ensures step { IsOneStep seat.old seat.new }
    {
        seat.count_access();
        match self.pusher.advance(self.site, seen) {
            QueueEvent::SeesFull => {
                // at this server it looks no more
                self.at = RequestAt::Opens;
                self.full.push_reserved(self.target.server);
                self.look_next(seat)
            }
            QueueEvent::SeesRoom => self.look_next(seat),
            _ => None,
        }
    }
}
