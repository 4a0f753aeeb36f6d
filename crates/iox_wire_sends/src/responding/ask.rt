//! The send of a response asks whether the request is still named, and gets back what it can.
ghost use Rattle.std.specs.Prelude.{◌≡◌};

use super::Responding;
use crate::at::{RespondAt, RespondReply};
use iox_steps::QueueEvent;
use iox_wire_seats::{StoredSeat, is_named};

impl Responding {
    ghost use Rattle.std.specs.Prelude.{◌≡◌, ◌+◌, ◌<◌, ◌^◌, false, is_none};
    ghost use Rattle.iox_wire_locals.specs.Begins.{is_busy};
    ghost use Rattle.iox_wire_seats.specs.Aims.{KeepsRoom};
    ghost use Rattle.iox_wire_seats.specs.Desks.{IsUsed};
    ghost use Rattle.iox_wire_sends.specs.Aims.{Answers, FindsUsed, GoesOn, IsAsking, IsEmptying};
    ghost use Rattle.iox_wire_sends.specs.Aims.{IsSameSend, MayCountMade};

    /// It sees the request state.
    #[inline(always)]
    pub(super) fn ask_on(&mut self, seat: &mut StoredSeat, seen: u64) -> Option<RespondReply>
        requires there { IsAsking self.old.local }
        requires accesses { seat.old.seat.accesses + 1 < 2 ^ 64 }
        requires rests { is_busy seat.old.seat.local ≡ false }
        requires used { IsUsed self.old.loan.port self.old.loan.slot seat.old.seat.desks }
        requires counts { MayCountMade seat.old self.old }
        ensures next { GoesOn seat.old self.old seen seat.new self.new }
        ensures over { Answers seat.old self.old seen result }
        ensures busy { is_busy self.new.local ≡ is_none result }
        ensures same { IsSameSend self.old self.new }
        ensures accesses { seat.new.seat.accesses ≡ seat.old.seat.accesses + 1 }
        ensures rests { is_busy seat.new.seat.local ≡ false }
        ensures room { KeepsRoom seat.old seat.new }
    {
        seat.count_access();
        if is_named(seen, self.loan.request) {
            self.popper.pop();
            self.at = RespondAt::Empties;
            return None;
        }
        self.finish(seat)
    }

    /// An access of a pop of what returned.
    #[inline(always)]
    pub(super) fn empty_on(&mut self, seat: &mut StoredSeat, seen: u64) -> Option<RespondReply>
        requires there { IsEmptying self.old.local }
        requires accesses { seat.old.seat.accesses + 1 < 2 ^ 64 }
        requires rests { is_busy seat.old.seat.local ≡ false }
        requires used { IsUsed self.old.loan.port self.old.loan.slot seat.old.seat.desks }
        requires counts { MayCountMade seat.old self.old }
        requires finds { FindsUsed seat.old self.old seen }
        ensures next { GoesOn seat.old self.old seen seat.new self.new }
        ensures over { Answers seat.old self.old seen result }
        ensures busy { is_busy self.new.local ≡ is_none result }
        ensures same { IsSameSend self.old self.new }
        ensures accesses { seat.new.seat.accesses ≡ seat.old.seat.accesses + 1 }
        ensures rests { is_busy seat.new.seat.local ≡ false }
        ensures room { KeepsRoom seat.old seat.new }
    {
        seat.count_access();
        match self.popper.advance(self.terms.returning, seen) {
            QueueEvent::HandOut(slot) => {
                seat.get_back(self.loan.port, self.way(), slot);
                self.popper.pop();
            }
            QueueEvent::SeesEmpty => {
                if self.terms.overflow {
                    self.pusher.push(self.loan.slot);
                    self.at = RespondAt::Pushes;
                } else {
                    self.pusher.look();
                    self.at = RespondAt::Looks;
                }
            }
            _ => {}
        }
        None
    }
}
