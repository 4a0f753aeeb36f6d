//! The read of a message.
ghost use Rattle.std.specs.Prelude.{◌≡◌, ◌<◌};

use super::StoredSeat;
use crate::at::{At, SeatReply};
use crate::message_places::MessagePlaces;
use iox_wire_locals::Entry;

impl StoredSeat {
    ghost use Rattle.std.specs.Prelude.{◌≡◌, ◌+◌, ◌<◌, ◌≤◌, ◌^◌, None, length};
    ghost use Rattle.iox_wire_locals.specs.Tables.{Setting};
    ghost use Rattle.iox_wire_locals.specs.Begins.{reads};
    ghost use Rattle.iox_wire_seats.specs.Aims.{Answers, AreInMemory, GoesOn, IsAimed, IsReading};
    ghost use Rattle.iox_wire_seats.specs.Aims.{HasSameRooms, KeepsRoom, StandAt, StaysAimed};

    /// Begins to read the message of a handle: so many words, which stand there, and for which
    /// there is room.
    pub fn read(&mut self, entry: Entry, message: MessagePlaces, count: usize)
        requires memory { AreInMemory message count }
        requires fits { count ≤ self.old.words_room }
        ensures begun { (p : Setting) → StandAt p entry message count
            → self.new.seat ≡ reads p self.old.seat entry }
        ensures aimed { (p : Setting) → StandAt p entry message count → IsAimed p self.new }
        ensures accesses { self.new.seat.accesses ≡ self.old.seat.accesses }
        ensures room { self.new.room ≡ self.old.room }
        ensures rooms { HasSameRooms self.old self.new }
    {
        self.words.clear();
        self.entry = entry;
        self.message = message;
        self.count = count;
        self.at = if count == 0 {
            At::TellsWords
        } else {
            At::Reads
        };
    }

    /// A word of the message is loaded.
    #[inline(always)]
    pub(super) fn read_on(&mut self, seen: u64) -> Option<SeatReply>
        requires there { IsReading self.old.seat.local }
        requires accesses { self.old.seat.accesses + 1 < 2 ^ 64 }
        ensures next { GoesOn self.old seen self.new }
        ensures over { Answers self.old seen result self.new }
        ensures goes { length self.old.words + 1 < self.old.count → result ≡ None }
        ensures aimed { StaysAimed self.old self.new }
        ensures accesses { self.new.seat.accesses ≡ self.old.seat.accesses + 1 }
        ensures room { KeepsRoom self.old self.new }
    {
        self.accesses += 1;
        self.words.push_reserved(seen);
        if self.words.len() < self.count {
            return None;
        }
        self.at = At::Idle;
        Some(SeatReply::Words)
    }
}
