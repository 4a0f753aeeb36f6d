//! A receive looks where it is at the borrow limit, and pops elsewhere.
ghost use Rattle.std.specs.Prelude.{◌≡◌};

use super::Receiving;
use crate::at::{ReceiveAt, ReceiveReply};
use crate::source::part_of;
use iox_steps::QueueEvent;
use iox_wire_seats::StoredSeat;

impl Receiving {
    ghost use Rattle.std.specs.Prelude.{◌≡◌, ◌+◌, ◌<◌, ◌^◌};
    ghost use Rattle.iox_wire_receives.specs.Aims.{Answers, GoesOn, MayTakeOneMore, IsLooking};
    ghost use Rattle.iox_wire_receives.specs.Aims.{IsPopping, StaysAimed};
    ghost use Rattle.iox_wire_seats.specs.Keeps.{counted};

    /// An access of a look at emptiness.
    #[inline(always)]
    pub(super) fn look_on(&mut self, seat: &mut StoredSeat, seen: u64) -> Option<ReceiveReply>
        requires there { IsLooking self.old.local }
        requires accesses { seat.old.seat.accesses + 1 < 2 ^ 64 }
        ensures next { GoesOn seat.old self.old seen seat.new self.new }
        ensures over { Answers seat.old self.old seen result }
        ensures aimed { StaysAimed seat.old self.old seat.new self.new }
        ensures seat { seat.new ≡ counted seat.old }
        ensures counts { MayTakeOneMore seat.new.seat self.new.local }
        ensures terms { self.new.terms ≡ self.old.terms }
        ensures ways { self.new.room ≡ self.old.room }
    {
        seat.count_access();
        match self.popper.advance(self.site, seen) {
            QueueEvent::SeesWaiting => {
                self.waiting = true;
                self.visit_next(seat)
            }
            QueueEvent::SeesEmpty => self.visit_next(seat),
            _ => None,
        }
    }

    /// An access of a pop.
    #[inline(always)]
    pub(super) fn pop_on(&mut self, seat: &mut StoredSeat, seen: u64) -> Option<ReceiveReply>
        requires there { IsPopping self.old.local }
        requires accesses { seat.old.seat.accesses + 1 < 2 ^ 64 }
        requires counts { MayTakeOneMore seat.old.seat self.old.local }
        ensures next { GoesOn seat.old self.old seen seat.new self.new }
        ensures over { Answers seat.old self.old seen result }
        ensures aimed { StaysAimed seat.old self.old seat.new self.new }
        ensures seat { seat.new ≡ counted seat.old }
        ensures counts { MayTakeOneMore seat.new.seat self.new.local }
        ensures terms { self.new.terms ≡ self.old.terms }
        ensures ways { self.new.room ≡ self.old.room }
    {
        seat.count_access();
        match self.popper.advance(self.site, seen) {
            QueueEvent::HandOut(slot) => {
                let source = self.source;
                self.slot = slot;
                self.header.clear();
                self.place = part_of(source.region, slot, source.slots, source.slot_words);
                self.at = ReceiveAt::Loads;
                None
            }
            QueueEvent::SeesEmpty => self.visit_next(seat),
            _ => None,
        }
    }
}
