//! The send of a response looks whether the client is full, where its queue does not overflow.
ghost use Rattle.std.specs.Prelude.{◌≡◌};

use super::Responding;
use crate::at::{RespondAt, RespondReply};
use iox_steps::QueueEvent;
use iox_wire_seats::StoredSeat;

impl Responding {
    ghost use Rattle.std.specs.Prelude.{◌≡◌, ◌+◌, ◌<◌, ◌^◌, false, is_none};
    ghost use Rattle.iox_wire_locals.specs.Begins.{is_busy};
    ghost use Rattle.iox_wire_seats.specs.Aims.{KeepsRoom};
    ghost use Rattle.iox_wire_seats.specs.Desks.{IsUsed};
    ghost use Rattle.iox_wire_sends.specs.Aims.{Answers, GoesOn, IsLooking, IsSameSend};
    ghost use Rattle.iox_wire_sends.specs.Aims.{MayCountMade};

    /// An access of a look at fullness.
    #[inline(always)]
    pub(super) fn look_on(&mut self, seat: &mut StoredSeat, seen: u64) -> Option<RespondReply>
        requires there { IsLooking self.old.local }
        requires accesses { seat.old.seat.accesses + 1 < 2 ^ 64 }
        requires rests { is_busy seat.old.seat.local ≡ false }
        requires used { IsUsed self.old.loan.port self.old.loan.slot seat.old.seat.desks }
        requires counts { MayCountMade seat.old self.old }
        ensures next { GoesOn seat.old self.old seen seat.new self.new }
        ensures over { Answers seat.old self.old seen result }
        ensures busy { is_busy self.new.local ≡ is_none result }
        ensures same { IsSameSend self.old self.new }
        ensures accesses { seat.new.seat.accesses ≡ seat.old.seat.accesses + 1 }
        ensures rests { is_busy seat.new.seat.local ≡ false }
        ensures room { KeepsRoom seat.old seat.new }
    {
        seat.count_access();
        match self.pusher.advance(self.terms.messages, seen) {
            QueueEvent::SeesFull => {
                if self.terms.fails {
                    return self.fail(seat);
                }
                self.finish(seat)
            }
            QueueEvent::SeesRoom => {
                self.pusher.push(self.loan.slot);
                self.at = RespondAt::Pushes;
                None
            }
            _ => None,
        }
    }
}
