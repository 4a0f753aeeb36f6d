//! Questions about a request: whether its peer is connected, and whether a hint was given.
ghost use Rattle.std.specs.Prelude.{◌≡◌};
ghost use Rattle.iox_wire_locals.specs.Locals.{state_told};
ghost use Rattle.iox_wire_seats.specs.Aims.{shows};

use super::StoredSeat;
use super::release::is_named;
use crate::at::{At, SeatReply};
use crate::stops::Stop;
use iox_wire_locals::Entry;

impl StoredSeat {
    ghost use Rattle.std.specs.Prelude.{◌≡◌, ◌+◌, ◌<◌, ◌≤◌, ◌^◌, length};
    ghost use Rattle.iox_wire_locals.specs.Tables.{Setting};
    ghost use Rattle.iox_wire_locals.specs.ReceiveCourses.{checking};
    ghost use Rattle.iox_wire_seats.specs.Aims.{Answers, AreStates, GoesOn, IsAimed, IsChecking};
    ghost use Rattle.iox_wire_seats.specs.Aims.{HasSameRooms, KeepsRoom, StaysAimed};
    ghost use Rattle.iox_wire_seats.specs.Seats.{ways_of};

    /// Begins to look for a request state that names the entry's request, with a hint if that is
    /// asked, on these ways.
    pub fn check(&mut self, entry: Entry, hinted: bool, stops: &[Stop])
        requires fits { length stops.now ≤ self.old.ways_room }
        ensures begun { self.new.seat
            ≡ checking self.old.seat entry hinted (ways_of stops.now) }
        ensures aimed { (p : Setting) → AreStates p stops.now → IsAimed p self.new }
        ensures accesses { self.new.seat.accesses ≡ self.old.seat.accesses }
        ensures room { self.new.room ≡ self.old.room }
        ensures rooms { HasSameRooms self.old self.new }
    {
        self.left.fill(stops);
        self.entry = entry;
        self.flag = hinted;
        match self.left.next() {
            Some(stop) => {
                self.way = stop.way;
                self.state = stop.place;
                self.at = At::Checks;
            }
            None => {
                self.flag = false;
                self.at = At::TellsAnswer;
            }
        }
    }

    /// A request state is seen.
    #[inline(always)]
    pub(super) fn check_on(&mut self, seen: u64) -> Option<SeatReply>
        requires there { IsChecking self.old.seat.local }
        requires accesses { self.old.seat.accesses + 1 < 2 ^ 64 }
        ensures next { GoesOn self.old seen self.new }
        ensures over { Answers self.old seen result self.new }
        ensures aimed { StaysAimed self.old self.new }
        ensures accesses { self.new.seat.accesses ≡ self.old.seat.accesses + 1 }
        ensures room { KeepsRoom self.old self.new }
    {
        self.accesses += 1;
        if is_shown(seen, self.entry.request, self.flag) {
            self.at = At::Idle;
            return Some(SeatReply::Answer(true));
        }
        match self.left.next() {
            Some(stop) => {
                self.way = stop.way;
                self.state = stop.place;
                None
            }
            None => {
                self.at = At::Idle;
                Some(SeatReply::Answer(false))
            }
        }
    }
}

/// Whether a request state, as its word tells it, names that request, with a hint if that is asked.
#[inline(always)]
pub(super) fn is_shown(word: u64, request: u64, hinted: bool) -> bool
    ensures { result ≡ shows (state_told word) request hinted }
{
    is_named(word, request) && (!hinted || word > 1 << 63)
}
