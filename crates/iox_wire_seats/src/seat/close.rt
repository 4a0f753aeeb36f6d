//! The release of what a port of the node lent or sent.
ghost use Rattle.std.specs.Prelude.{◌≡◌};

use super::StoredSeat;
use crate::at::{At, SeatReply};
use crate::stops::Stop;
use iox_wire_locals::Entry;

impl StoredSeat {
    ghost use Rattle.std.specs.Prelude.{◌≡◌, ◌+◌, ◌<◌, ◌≤◌, ◌^◌, length, false};
    ghost use Rattle.iox_model.specs.declared.kind.Kind.TheVariants.{PendingResponse};
    ghost use Rattle.iox_model.specs.Handles.{is_received, same_kind};
    ghost use Rattle.iox_wire_locals.specs.Tables.{Setting};
    ghost use Rattle.iox_wire_locals.specs.ReceiveCourses.{closing, releasing};
    ghost use Rattle.iox_wire_seats.specs.Aims.{Answers, AreStates, GoesOn, IsAimed, IsClosing};
    ghost use Rattle.iox_wire_seats.specs.Aims.{HasSameRooms, KeepsRoom, StaysAimed};
    ghost use Rattle.iox_wire_seats.specs.Desks.{MayGiveUp};
    ghost use Rattle.iox_wire_seats.specs.Seats.{ways_of};

    /// Begins the release of a loan, which has no word to access.
    pub fn release_loan(&mut self, loan: Entry)
        requires own { is_received loan.kind ≡ false }
        requires unsent { same_kind loan.kind PendingResponse ≡ false }
        requires held { MayGiveUp loan self.old.seat.desks }
        ensures begun { (p : Setting) → self.new.seat ≡ releasing p self.old.seat loan }
        ensures aimed { (p : Setting) → IsAimed p self.new }
        ensures accesses { self.new.seat.accesses ≡ self.old.seat.accesses }
        ensures room { self.new.room ≡ self.old.room }
        ensures rooms { HasSameRooms self.old self.new }
    {
        self.entry = loan;
        self.at = At::DropsOwn;
    }

    /// Begins the release of a pending response, which closes the request states of these ways.
    pub fn release_pending(&mut self, pending: Entry, stops: &[Stop])
        requires fits { length stops.now ≤ self.old.ways_room }
        requires kind { pending.kind ≡ PendingResponse }
        requires held { MayGiveUp pending self.old.seat.desks }
        ensures begun { self.new.seat
            ≡ closing self.old.seat pending (ways_of stops.now) }
        ensures aimed { (p : Setting) → AreStates p stops.now → IsAimed p self.new }
        ensures accesses { self.new.seat.accesses ≡ self.old.seat.accesses }
        ensures room { self.new.room ≡ self.old.room }
        ensures rooms { HasSameRooms self.old self.new }
    {
        self.left.fill(stops);
        self.entry = pending;
        match self.left.next() {
            Some(stop) => {
                self.way = stop.way;
                self.state = stop.place;
                self.at = At::ReleaseCloses;
            }
            None => self.at = At::DropsOwn,
        }
    }

    /// A request state is closed, or none was left.
    #[inline(always)]
    pub(super) fn close_on(&mut self, seen: u64) -> Option<SeatReply>
        requires there { IsClosing self.old.seat.local }
        requires accesses { self.old.seat.accesses + 1 < 2 ^ 64 }
        ensures next { GoesOn self.old seen self.new }
        ensures over { Answers self.old seen result self.new }
        ensures aimed { StaysAimed self.old self.new }
        ensures accesses { self.new.seat.accesses ≡ self.old.seat.accesses + 1 }
        ensures room { KeepsRoom self.old self.new }
    {
        self.accesses += 1;
        if let At::ReleaseCloses = self.at {
            if let Some(stop) = self.left.next() {
                self.way = stop.way;
                self.state = stop.place;
                return None;
            }
        }
        self.desks.give_up(self.entry);
        self.entries.remove(self.entry);
        self.at = At::Idle;
        Some(SeatReply::Done)
    }
}
