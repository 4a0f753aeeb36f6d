//! A receive gives back what does not fit, and pops again.
ghost use Rattle.std.specs.Prelude.{◌≡◌};

use super::Receiving;
use crate::at::{ReceiveAt, ReceiveReply};
use iox_steps::QueueEvent;
use iox_wire_seats::StoredSeat;

impl Receiving {
    ghost use Rattle.std.specs.Prelude.{◌≡◌, ◌+◌, ◌<◌, ◌^◌, true};
    ghost use Rattle.iox_steps.specs.declared.pop.Pop.TheVariants.{LoadsRead};
    ghost use Rattle.iox_steps.specs.declared.push.Push.TheVariants.{LoadsWrite};
    ghost use Rattle.iox_steps.specs.declared.side.Popping.TheVariants.{Pops};
    ghost use Rattle.iox_steps.specs.declared.side.Pushing.TheVariants.{Pushes};
    ghost use Rattle.iox_wire_locals.specs.declared.local.Local.TheVariants.{ReceivePops};
    ghost use Rattle.iox_wire_locals.specs.declared.local.Local.TheVariants.{ReceiveReturns};
    ghost use Rattle.iox_wire_seats.specs.Keeps.{counted};
    ghost use Rattle.iox_wire_receives.specs.Aims.{Answers, GoesOn, MayTakeOneMore, IsOnSameWay};
    ghost use Rattle.iox_wire_receives.specs.Aims.{IsOnWay, IsReturning, StaysAimed};
    ghost use Rattle.iox_wire_receives.specs.Sources.{messages_at, returning_at, ways_of};

    /// Pops again where it took what did not fit.
    pub(super) fn pop_again(&mut self)
        requires { IsOnWay self.old.local }
        ensures local { self.new.local
            ≡ ReceivePops self.old.visit self.old.source.way true (Pops LoadsRead)
            (ways_of self.old.left) self.old.waiting }
        ensures site { self.new.site ≡ messages_at self.old.terms self.old.source }
        ensures same { IsOnSameWay self.old self.new }
    {
        self.again = true;
        self.site = self.terms.messages(self.source);
        self.popper.pop();
        self.at = ReceiveAt::Pops;
    }

    /// Gives back what it took.
    pub(super) fn give_back(&mut self)
        requires { IsOnWay self.old.local }
        ensures local { self.new.local
            ≡ ReceiveReturns self.old.visit self.old.source.way self.old.slot (Pushes
            (LoadsWrite self.old.slot)) (ways_of self.old.left) self.old.waiting }
        ensures site { self.new.site ≡ returning_at self.old.terms self.old.source }
        ensures same { IsOnSameWay self.old self.new }
    {
        self.site = self.terms.returning(self.source);
        self.pusher.push(self.slot);
        self.at = ReceiveAt::Returns;
    }

    /// An access of the push that gives back.
    #[inline(always)]
    pub(super) fn return_on(&mut self, seat: &mut StoredSeat, seen: u64) -> Option<ReceiveReply>
        requires there { IsReturning self.old.local }
        requires accesses { seat.old.seat.accesses + 1 < 2 ^ 64 }
        requires counts { MayTakeOneMore seat.old.seat self.old.local }
        ensures next { GoesOn seat.old self.old seen seat.new self.new }
        ensures over { Answers seat.old self.old seen result }
        ensures aimed { StaysAimed seat.old self.old seat.new self.new }
        ensures seat { seat.new ≡ counted seat.old }
        ensures counts { MayTakeOneMore seat.new.seat self.new.local }
        ensures terms { self.new.terms ≡ self.old.terms }
        ensures ways { self.new.room ≡ self.old.room }
    {
        seat.count_access();
        if let QueueEvent::Publish(_) = self.pusher.advance(self.site, seen) {
            self.pop_again();
        }
        None
    }
}
