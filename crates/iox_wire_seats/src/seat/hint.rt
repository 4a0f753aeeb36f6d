//! A hint that no more responses are wanted.
ghost use Rattle.std.specs.Prelude.{◌≡◌};

use super::StoredSeat;
use super::ask::is_shown;
use crate::at::{At, SeatReply};
use crate::stops::Stop;
use iox_wire_locals::Entry;

impl StoredSeat {
    ghost use Rattle.std.specs.Prelude.{◌≡◌, ◌+◌, ◌<◌, ◌≤◌, ◌^◌, length};
    ghost use Rattle.iox_wire_locals.specs.Tables.{Setting};
    ghost use Rattle.iox_wire_locals.specs.ReceiveCourses.{hinting};
    ghost use Rattle.iox_wire_seats.specs.Aims.{Answers, AreStates, GoesOn, HasRoomForHint, IsAimed};
    ghost use Rattle.iox_wire_seats.specs.Aims.{HasSameRooms, IsHinting, KeepsRoom, StaysAimed};
    ghost use Rattle.iox_wire_seats.specs.Seats.{ways_of};

    /// Begins to give a hint to the entry's request, on these ways.
    pub fn hint(&mut self, entry: Entry, stops: &[Stop])
        requires fits { length stops.now ≤ self.old.ways_room }
        requires hint { HasRoomForHint entry }
        ensures begun { self.new.seat
            ≡ hinting self.old.seat entry (ways_of stops.now) }
        ensures aimed { (p : Setting) → AreStates p stops.now → IsAimed p self.new }
        ensures accesses { self.new.seat.accesses ≡ self.old.seat.accesses }
        ensures room { self.new.room ≡ self.old.room }
        ensures rooms { HasSameRooms self.old self.new }
    {
        self.left.fill(stops);
        self.entry = entry;
        match self.left.next() {
            Some(stop) => {
                self.way = stop.way;
                self.state = stop.place;
                self.at = At::Hints;
            }
            None => self.at = At::TellsDone,
        }
    }

    /// A request state is seen, or its hint is given.
    #[inline(always)]
    pub(super) fn hint_on(&mut self, seen: u64) -> Option<SeatReply>
        requires there { IsHinting self.old.seat.local }
        requires accesses { self.old.seat.accesses + 1 < 2 ^ 64 }
        ensures next { GoesOn self.old seen self.new }
        ensures over { Answers self.old seen result self.new }
        ensures aimed { StaysAimed self.old self.new }
        ensures accesses { self.new.seat.accesses ≡ self.old.seat.accesses + 1 }
        ensures room { KeepsRoom self.old self.new }
    {
        self.accesses += 1;
        if let At::Hints = self.at {
            let request = self.entry.request;
            if is_shown(seen, request, false) && !is_shown(seen, request, true) {
                self.at = At::HintExchanges;
                return None;
            }
        }
        match self.left.next() {
            Some(stop) => {
                self.way = stop.way;
                self.state = stop.place;
                self.at = At::Hints;
                None
            }
            None => {
                self.at = At::Idle;
                Some(SeatReply::Done)
            }
        }
    }
}
