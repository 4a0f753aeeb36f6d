//! The send of a response delivers, and gets back what that pushes out.
ghost use Rattle.std.specs.Prelude.{◌≡◌};

use super::Responding;
use crate::at::{RespondAt, RespondReply};
use iox_steps::QueueEvent;
use iox_wire_seats::StoredSeat;

impl Responding {
    ghost use Rattle.std.specs.Prelude.{◌≡◌, ◌+◌, ◌<◌, ◌^◌, false, is_none};
    ghost use Rattle.iox_wire_locals.specs.Begins.{is_busy};
    ghost use Rattle.iox_wire_seats.specs.Aims.{KeepsRoom};
    ghost use Rattle.iox_wire_seats.specs.Desks.{IsUsed};
    ghost use Rattle.iox_wire_sends.specs.Aims.{Answers, FindsUsed, GoesOn, IsEvicting};
    ghost use Rattle.iox_wire_sends.specs.Aims.{IsGettingBack, IsPushing, IsSameSend};
    ghost use Rattle.iox_wire_sends.specs.Aims.{MayCountMade};

    /// An access of the push.
    #[inline(always)]
    pub(super) fn push_on(&mut self, seat: &mut StoredSeat, seen: u64) -> Option<RespondReply>
        requires there { IsPushing self.old.local }
        requires accesses { seat.old.seat.accesses + 1 < 2 ^ 64 }
        requires rests { is_busy seat.old.seat.local ≡ false }
        requires used { IsUsed self.old.loan.port self.old.loan.slot seat.old.seat.desks }
        requires counts { MayCountMade seat.old self.old }
        requires finds { FindsUsed seat.old self.old seen }
        ensures next { GoesOn seat.old self.old seen seat.new self.new }
        ensures over { Answers seat.old self.old seen result }
        ensures busy { is_busy self.new.local ≡ is_none result }
        ensures same { IsSameSend self.old self.new }
        ensures accesses { seat.new.seat.accesses ≡ seat.old.seat.accesses + 1 }
        ensures rests { is_busy seat.new.seat.local ≡ false }
        ensures room { KeepsRoom seat.old seat.new }
    {
        seat.count_access();
        let QueueEvent::Publish(slot) = self.pusher.advance(self.terms.messages, seen) else {
            return None;
        };
        seat.deliver(self.loan.port, self.way(), slot);
        if self.pusher.is_at_rest() {
            return self.finish(seat);
        }
        self.at = RespondAt::Evicts;
        None
    }

    /// It pushes the oldest out, unless the client took that.
    #[inline(always)]
    pub(super) fn evict_on(&mut self, seat: &mut StoredSeat, seen: u64) -> Option<RespondReply>
        requires there { IsEvicting self.old.local }
        requires accesses { seat.old.seat.accesses + 1 < 2 ^ 64 }
        requires rests { is_busy seat.old.seat.local ≡ false }
        requires used { IsUsed self.old.loan.port self.old.loan.slot seat.old.seat.desks }
        requires counts { MayCountMade seat.old self.old }
        ensures next { GoesOn seat.old self.old seen seat.new self.new }
        ensures over { Answers seat.old self.old seen result }
        ensures busy { is_busy self.new.local ≡ is_none result }
        ensures same { IsSameSend self.old self.new }
        ensures accesses { seat.new.seat.accesses ≡ seat.old.seat.accesses + 1 }
        ensures rests { is_busy seat.new.seat.local ≡ false }
        ensures room { KeepsRoom seat.old seat.new }
    {
        seat.count_access();
        if let QueueEvent::Evict = self.pusher.advance(self.terms.messages, seen) {
            self.at = RespondAt::GetsBack;
            return None;
        }
        self.finish(seat)
    }

    /// It learns what it pushed out.
    #[inline(always)]
    pub(super) fn get_back_on(&mut self, seat: &mut StoredSeat, seen: u64) -> Option<RespondReply>
        requires there { IsGettingBack self.old.local }
        requires accesses { seat.old.seat.accesses + 1 < 2 ^ 64 }
        requires rests { is_busy seat.old.seat.local ≡ false }
        requires used { IsUsed self.old.loan.port self.old.loan.slot seat.old.seat.desks }
        requires counts { MayCountMade seat.old self.old }
        requires finds { FindsUsed seat.old self.old seen }
        ensures next { GoesOn seat.old self.old seen seat.new self.new }
        ensures over { Answers seat.old self.old seen result }
        ensures busy { is_busy self.new.local ≡ is_none result }
        ensures same { IsSameSend self.old self.new }
        ensures accesses { seat.new.seat.accesses ≡ seat.old.seat.accesses + 1 }
        ensures rests { is_busy seat.new.seat.local ≡ false }
        ensures room { KeepsRoom seat.old seat.new }
    {
        seat.count_access();
        let QueueEvent::Learn(slot) = self.pusher.advance(self.terms.messages, seen) else {
            return None;
        };
        seat.get_back(self.loan.port, self.way(), slot);
        self.finish(seat)
    }
}
