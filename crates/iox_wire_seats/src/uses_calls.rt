//! Callers of whole calls, proved only from the clauses.
ghost use Rattle.std.specs.Prelude.{ℕ, ◌≡◌, ◌+◌, ◌<◌, ◌≤◌, ◌^◌, None, Some, false, length, option_map};
ghost use Rattle.iox_model.specs.declared.call.Call.TheVariants.{HasHint, HasRequests, HasResponse};
ghost use Rattle.iox_model.specs.declared.call.Call.TheVariants.{IsConnected, Read, Release, SetHint, Write};
ghost use Rattle.iox_model.specs.declared.kind.Kind.TheVariants.{PendingResponse};
ghost use Rattle.iox_model.specs.Commands.{Call, Payload};
ghost use Rattle.iox_wire_locals.specs.Begins.{begins_at, begins_at_entry, reads, ways_for, writes};
ghost use Rattle.iox_wire_locals.specs.ReceiveCourses.{checking, hinting, seeking, states_for};
ghost use Rattle.iox_wire_seats.specs.Desks.{MayGiveUp};
ghost use Rattle.iox_wire_locals.specs.Steps.{next, tells};
ghost use Rattle.iox_wire_locals.specs.Tables.{Setting};
ghost use Rattle.iox_wire_seats.specs.Aims.{AreInMemory, AreQueues, AreStates, HasRoomForHint};
ghost use Rattle.iox_wire_seats.specs.Aims.{IsPayloadAt, QueuesInMemory, StandAt};
ghost use Rattle.iox_wire_seats.specs.Seats.{reply_with, ways_of};

use crate::at::SeatReply;
use crate::message_places::MessagePlaces;
use crate::seat::StoredSeat;
use crate::stops::Stop;
use iox_steps::Site;
use iox_wire_locals::{CallRefusal, Entry};

/// A read begins, and loads a word.
pub fn read_by_one_step(
    seat: &mut StoredSeat,
    entry: Entry,
    message: MessagePlaces,
    count: usize,
    seen: u64,
) -> Option<SeatReply>
    requires fits { count ≤ seat.old.words_room }
    requires memory { AreInMemory message count }
    requires accesses { seat.old.seat.accesses + 1 < 2 ^ 64 }
    ensures next { (p : Setting) → StandAt p entry message count
        → seat.new.seat ≡ next p (reads p seat.old.seat entry) seen }
    ensures told { (p : Setting) → StandAt p entry message count
        → tells p (reads p seat.old.seat entry) seen
        ≡ option_map (reply_with seat.new.words) result }
{
    seat.read(entry, message, count);
    seat.go_on(seen)
}

/// A write begins, and stores a word.
pub fn write_by_one_step(
    seat: &mut StoredSeat,
    loan: Entry,
    payload: usize,
    word: &[u64],
) -> Option<SeatReply>
    requires fits { length word.now ≤ seat.old.words_room }
    requires memory { payload + length word.now < 2 ^ 64 }
    requires accesses { seat.old.seat.accesses + 1 < 2 ^ 64 }
    ensures { (p : Setting) → IsPayloadAt p loan payload (length word.now)
        → seat.new.seat
        ≡ next p (writes seat.old.seat loan (Some loan.elements) word.now) 0 }
{
    seat.write(loan, payload, Some(loan.elements), word);
    seat.go_on(0)
}

/// A question begins, and sees a request state.
pub fn check_by_one_step(
    seat: &mut StoredSeat,
    entry: Entry,
    stops: &[Stop],
    seen: u64,
) -> Option<SeatReply>
    requires fits { length stops.now ≤ seat.old.ways_room }
    requires accesses { seat.old.seat.accesses + 1 < 2 ^ 64 }
    ensures { (p : Setting) → AreStates p stops.now → seat.new.seat
        ≡ next p (checking seat.old.seat entry false (ways_of stops.now)) seen }
{
    seat.check(entry, false, stops);
    seat.go_on(seen)
}

/// A hint begins, and sees a request state.
pub fn hint_by_one_step(
    seat: &mut StoredSeat,
    entry: Entry,
    stops: &[Stop],
    seen: u64,
) -> Option<SeatReply>
    requires fits { length stops.now ≤ seat.old.ways_room }
    requires hint { HasRoomForHint entry }
    requires accesses { seat.old.seat.accesses + 1 < 2 ^ 64 }
    ensures { (p : Setting) → AreStates p stops.now → seat.new.seat
        ≡ next p (hinting seat.old.seat entry (ways_of stops.now)) seen }
{
    seat.hint(entry, stops);
    seat.go_on(seen)
}

/// A look for messages begins, and makes its first access.
pub fn seek_by_one_step(
    seat: &mut StoredSeat,
    queue: Site,
    stops: &[Stop],
    seen: u64,
) -> Option<SeatReply>
    requires fits { length stops.now ≤ seat.old.ways_room }
    requires memory { QueuesInMemory queue.kind queue.capacity stops.now }
    requires accesses { seat.old.seat.accesses + 1 < 2 ^ 64 }
    ensures { (p : Setting) → AreQueues p queue.kind queue.capacity stops.now
        → seat.new.seat ≡ next p (seeking seat.old.seat (ways_of stops.now)) seen }
{
    seat.seek(queue, stops);
    seat.go_on(seen)
}

/// A read begins as the definitions begin it.
pub fn read_begins(seat: &mut StoredSeat, entry: Entry, message: MessagePlaces, count: usize)
    requires fits { count ≤ seat.old.words_room }
    requires memory { AreInMemory message count }
    ensures { (p : Setting) → (n : ℕ) → StandAt p entry message count
        → seat.new.seat ≡ begins_at_entry p seat.old.seat (Read n) entry }
{
    seat.read(entry, message, count)
}

/// So does a write.
pub fn write_begins(
    seat: &mut StoredSeat,
    loan: Entry,
    payload: usize,
    elements: Option<u64>,
    words: &[u64],
)
    requires fits { length words.now ≤ seat.old.words_room }
    requires memory { payload + length words.now < 2 ^ 64 }
    ensures { (p : Setting) → (n : ℕ) → (y : Payload) → y.elements ≡ elements → y.words ≡ words.now
        → seat.new.seat ≡ begins_at_entry p seat.old.seat (Write n y) loan }
{
    seat.write(loan, payload, elements, words)
}

/// So does the question whether a server still has the request.
pub fn is_connected_begins(seat: &mut StoredSeat, entry: Entry, stops: &[Stop])
    requires fits { length stops.now ≤ seat.old.ways_room }
    ensures { (p : Setting) → (n : ℕ) → ways_of stops.now ≡ states_for p seat.old.seat entry
        → seat.new.seat ≡ begins_at_entry p seat.old.seat (IsConnected n) entry }
{
    seat.check(entry, false, stops)
}

/// And whether a hint was given.
pub fn has_hint_begins(seat: &mut StoredSeat, entry: Entry, stops: &[Stop])
    requires fits { length stops.now ≤ seat.old.ways_room }
    ensures { (p : Setting) → (n : ℕ) → ways_of stops.now ≡ states_for p seat.old.seat entry
        → seat.new.seat ≡ begins_at_entry p seat.old.seat (HasHint n) entry }
{
    seat.check(entry, true, stops)
}

/// So does a hint.
pub fn set_hint_begins(seat: &mut StoredSeat, entry: Entry, stops: &[Stop])
    requires fits { length stops.now ≤ seat.old.ways_room }
    requires hint { HasRoomForHint entry }
    ensures { (p : Setting) → (n : ℕ) → ways_of stops.now ≡ states_for p seat.old.seat entry
        → seat.new.seat ≡ begins_at_entry p seat.old.seat (SetHint n) entry }
{
    seat.hint(entry, stops)
}

/// So does the question whether a response waits.
pub fn has_response_begins(seat: &mut StoredSeat, entry: Entry, queue: Site, stops: &[Stop])
    requires fits { length stops.now ≤ seat.old.ways_room }
    requires memory { QueuesInMemory queue.kind queue.capacity stops.now }
    ensures { (p : Setting) → (n : ℕ) → ways_of stops.now ≡ ways_for p seat.old.seat entry
        → seat.new.seat ≡ begins_at_entry p seat.old.seat (HasResponse n) entry }
{
    seat.seek(queue, stops)
}

/// So does the release of a pending response.
pub fn release_begins(seat: &mut StoredSeat, pending: Entry, stops: &[Stop])
    requires fits { length stops.now ≤ seat.old.ways_room }
    requires kind { pending.kind ≡ PendingResponse }
    requires held { MayGiveUp pending seat.old.seat.desks }
    ensures { (p : Setting) → (n : ℕ) → ways_of stops.now ≡ states_for p seat.old.seat pending
        → seat.new.seat ≡ begins_at_entry p seat.old.seat (Release n) pending }
{
    seat.release_pending(pending, stops)
}

/// A call that names nothing begins as the definitions begin it.
pub fn unknown_number_begins(seat: &mut StoredSeat)
    ensures { (p : Setting) → (call : Call)
        → seat.new.seat ≡ begins_at p seat.old.seat call None None }
{
    seat.refuse(CallRefusal::UnknownNumber);
}

/// So does one that a handle does not have.
pub fn wrong_kind_begins(seat: &mut StoredSeat, entry: Entry)
    ensures { (p : Setting) → (n : ℕ)
        → seat.new.seat ≡ begins_at_entry p seat.old.seat (HasRequests n) entry }
{
    seat.refuse(CallRefusal::WrongKind);
}
