//! The write of a payload.
ghost use Rattle.std.specs.Bool.{OnTrue};
ghost use Rattle.std.specs.Option.{option_map_or};
ghost use Rattle.std.specs.Prelude.{◌≡◌, ◌==◌, ◌<◌, Some, false};

use super::{NO_PLACES, StoredSeat};
use crate::at::{At, SeatReply};
use crate::message_places::MessagePlaces;
use iox_wire_locals::{CallRefusal, Entry};

impl StoredSeat {
    ghost use Rattle.std.specs.Prelude.{◌≡◌, ◌+◌, ◌<◌, ◌≤◌, ◌^◌, Some, length};
    ghost use Rattle.iox_wire_locals.specs.Tables.{Setting};
    ghost use Rattle.iox_wire_locals.specs.Begins.{writes};
    ghost use Rattle.iox_wire_seats.specs.Aims.{Answers, GoesOn, IsAimed, IsPayloadAt, IsWriting};
    ghost use Rattle.iox_wire_seats.specs.Aims.{HasSameRooms, KeepsRoom, StaysAimed};

    /// Begins to write the payload of a loan, which begins with that word. It is refused if the
    /// words are not those of as many elements as the loan has; else there is room for them.
    pub fn write(&mut self, loan: Entry, payload: usize, elements: Option<u64>, words: &[u64])
        requires memory { elements ≡ Some loan.elements → payload + length words.now < 2 ^ 64 }
        requires fits { elements ≡ Some loan.elements → length words.now ≤ self.old.words_room }
        ensures begun { self.new.seat ≡ writes self.old.seat loan elements words.now }
        ensures aimed { (p : Setting) → IsPayloadAt p loan payload (length words.now)
            → IsAimed p self.new }
        ensures accesses { self.new.seat.accesses ≡ self.old.seat.accesses }
        ensures room { self.new.room ≡ self.old.room }
        ensures rooms { HasSameRooms self.old self.new }
    {
        if !is_as_many(elements, loan.elements) {
            self.refusal = CallRefusal::WrongLength;
            self.at = At::Refuses;
            return;
        }
        self.words.clear();
        if self.words.extend_from_slice(words).is_err() {
            unreachable!();
        }
        self.entry = loan;
        self.message = MessagePlaces {
            payload,
            ..NO_PLACES
        };
        self.count = words.len();
        self.next = 0;
        self.at = if words.len() == 0 {
            At::Fills
        } else {
            At::Writes
        };
    }

    /// A word of the payload is stored.
    #[inline(always)]
    pub(super) fn write_on(&mut self, seen: u64) -> Option<SeatReply>
        requires there { IsWriting self.old.seat.local }
        requires accesses { self.old.seat.accesses + 1 < 2 ^ 64 }
        ensures next { GoesOn self.old seen self.new }
        ensures over { Answers self.old seen result self.new }
        ensures aimed { StaysAimed self.old self.new }
        ensures accesses { self.new.seat.accesses ≡ self.old.seat.accesses + 1 }
        ensures room { KeepsRoom self.old self.new }
    {
        self.accesses += 1;
        self.next += 1;
        if self.next < self.count {
            return None;
        }
        self.at = At::Idle;
        Some(SeatReply::Done)
    }
}

/// Whether so many elements are told, and they are that many.
fn is_as_many(elements: Option<u64>, count: u64) -> bool
    ensures many { OnTrue result (elements ≡ Some count) }
    ensures told { result ≡ option_map_or (λ k. k == count) elements false }
{
    match elements {
        Some(told) => told == count,
        None => false,
    }
}
