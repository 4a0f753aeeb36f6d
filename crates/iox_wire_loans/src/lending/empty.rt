//! A loan gets back what was returned, way by way, and then takes a slot.
ghost use Rattle.std.specs.Prelude.{◌≡◌};

use super::Lending;
use crate::at::{LendAt, LendReply};
use iox_steps::{QueueEvent, QueueKind, Site};
use iox_wire_locals::CallRefusal;
use iox_wire_seats::StoredSeat;

impl Lending {
    ghost use Rattle.std.specs.Bool.{OnFalse, OnTrue};
    ghost use Rattle.std.specs.Prelude.{◌≡◌, ◌+◌, ◌<◌, ◌^◌, [], None, false, is_none, length, option_map, true};
    ghost use Rattle.iox_steps.specs.declared.site.QueueKind.TheVariants.{Index};
    ghost use Rattle.iox_wire_locals.specs.Begins.{is_busy};
    ghost use Rattle.iox_wire_locals.specs.Courses.{loaning, placed, takes_slot};
    ghost use Rattle.iox_wire_locals.specs.Known.{free_slots};
    ghost use Rattle.iox_wire_locals.specs.Tables.{Setting};
    ghost use Rattle.iox_wire_seats.specs.Aims.{KeepsRoom, QueuesInMemory};
    ghost use Rattle.iox_wire_seats.specs.Lends.{MayLend};
    ghost use Rattle.iox_wire_seats.specs.Seats.{ways_of};
    ghost use Rattle.iox_wire_loans.specs.Aims.{Answers, FitsSlots, GetsBackUsed, GoesOn, IsAimed};
    ghost use Rattle.iox_wire_loans.specs.Aims.{IsEmptying, IsNoHandle, IsSameLoan, IsStoring, Knows};
    ghost use Rattle.iox_wire_loans.specs.Aims.{LeavesSeat, StaysAimed, TellsOfSlot, after, answered};
    ghost use Rattle.iox_wire_loans.specs.Lenders.{AreReturning};
    ghost use Rattle.iox_wire_loans.specs.Loans.{reply_in};
    ghost use Rattle.iox_wire_loans.specs.Orders.{loan_of};

    /// Takes the first free slot, whose words it stores then, if one is free.
    pub(super) fn take_slot(&mut self, seat: &mut StoredSeat) -> bool
        requires rests { is_busy seat.old.seat.local ≡ false }
        requires fits { FitsSlots self.old.words self.old.places }
        ensures taken { OnTrue result (placed seat.new.seat self.new.local
            ≡ takes_slot seat.old.seat (loan_of self.old.order)
            (free_slots seat.old.seat self.old.order.port)) }
        ensures stores { OnTrue result (IsStoring self.new.local) }
        ensures busy { OnTrue result (is_busy self.new.local ≡ true) }
        ensures dry { OnFalse result (free_slots seat.old.seat self.old.order.port ≡ []) }
        ensures unchanged { OnFalse result (self.new ≡ self.old) }
        ensures seat_unchanged { OnFalse result (seat.new ≡ seat.old) }
        ensures aimed { (p : Setting) → Knows p seat.old.seat self.old
            → TellsOfSlot p self.new.local
            → OnTrue result (IsAimed p seat.new.seat self.new) }
        ensures leaves { LeavesSeat seat.old seat.new }
        ensures same { IsSameLoan self.old self.new }
    {
        let order = self.order;
        let Some(slot) = seat.pick(order.port, order.serial, order.lane) else {
            return false;
        };
        self.slot = slot;
        self.first = self.places.header_place(slot);
        self.user = self.places.user_place(slot);
        self.next = 0;
        self.at = LendAt::Stores;
        true
    }

    /// Goes on to the next way. Without one it takes a slot, or is over, refused.
    #[inline(always)]
    pub(super) fn empty_next(&mut self, seat: &mut StoredSeat) -> Option<LendReply>
        requires rests { is_busy seat.old.seat.local ≡ false }
        requires fits { FitsSlots self.old.words self.old.places }
        requires within { QueuesInMemory Index self.old.room self.old.left }
        ensures next { (p : Setting) → placed seat.new.seat self.new.local
            ≡ after p (loaning seat.old.seat (loan_of self.old.order) (ways_of self.old.left)) }
        ensures over { (p : Setting) → answered p (loaning seat.old.seat (loan_of self.old.order)
            (ways_of self.old.left))
            ≡ option_map reply_in result }
        ensures aimed { (p : Setting) → Knows p seat.old.seat self.old
            → AreReturning p self.old.room self.old.left
            → TellsOfSlot p self.new.local → IsAimed p seat.new.seat self.new }
        ensures busy { is_busy self.new.local ≡ is_none result }
        ensures visits { 0 < length self.old.left → result ≡ None }
        ensures refused { IsNoHandle result }
        ensures leaves { LeavesSeat seat.old seat.new }
        ensures same { IsSameLoan self.old self.new }
    {
        let Some(stop) = self.left.next() else {
            if self.take_slot(seat) {
                return None;
            }
            self.at = LendAt::Rest;
            return Some(LendReply::Refused(CallRefusal::OutOfMemory));
        };
        self.way = stop.way;
        self.site = Site {
            kind: QueueKind::Index,
            base: stop.place,
            capacity: self.room,
        };
        self.popper.pop();
        self.at = LendAt::Empties;
        None
    }

    /// An access of a pop of what was returned.
    #[inline(always)]
    pub(super) fn empty_on(&mut self, seat: &mut StoredSeat, seen: u64) -> Option<LendReply>
        requires there { IsEmptying self.old.local }
        requires rests { is_busy seat.old.seat.local ≡ false }
        requires accesses { seat.old.seat.accesses + 1 < 2 ^ 64 }
        requires may { MayLend seat.old self.old.order.number self.old.order.port }
        requires used { GetsBackUsed seat.old.seat self.old.local }
        ensures next { GoesOn seat.old self.old seen seat.new self.new }
        ensures over { Answers seat.old self.old seen result }
        ensures aimed { StaysAimed seat.old self.old seat.new self.new }
        ensures busy { is_busy self.new.local ≡ is_none result }
        ensures accesses { seat.new.seat.accesses ≡ seat.old.seat.accesses + 1 }
        ensures room { KeepsRoom seat.old seat.new }
        ensures rests { is_busy seat.new.seat.local ≡ false }
        ensures may { MayLend seat.new self.new.order.number self.new.order.port }
        ensures refused { IsNoHandle result }
        ensures same { IsSameLoan self.old self.new }
    {
        seat.count_access();
        match self.popper.advance(self.site, seen) {
            QueueEvent::HandOut(slot) => {
                seat.get_back(self.order.port, self.way, slot);
                self.popper.pop();
                None
            }
            QueueEvent::SeesEmpty => self.empty_next(seat),
            _ => None,
        }
    }
}
