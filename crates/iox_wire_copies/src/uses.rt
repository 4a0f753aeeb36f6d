//! Callers, proved only from the clauses.
ghost use Rattle.std.specs.Prelude.{ℕ, ◌≡◌, ◌+◌, ◌<◌, ◌≤◌, ◌^◌, Some};
ghost use Rattle.std.specs.Prelude.{false, length, true};
ghost use Rattle.iox_model.specs.declared.call.Call.TheVariants.{SendCopy};
ghost use Rattle.iox_model.specs.Commands.{Payload};
ghost use Rattle.iox_model.specs.Loans.{request_ways, response_ways};
ghost use Rattle.iox_model.specs.States.{Port};
ghost use Rattle.iox_steps.specs.declared.site.QueueKind.TheVariants.{Index};
ghost use Rattle.iox_wire_words.specs.Programs.{program_access};
ghost use Rattle.iox_wire_locals.specs.declared.seat.Seat.{Seat};
ghost use Rattle.iox_wire_locals.specs.Begins.{begins_at_entry, begins_at_port, is_busy};
ghost use Rattle.iox_wire_locals.specs.Courses.{placed};
ghost use Rattle.iox_wire_locals.specs.Known.{known};
ghost use Rattle.iox_wire_locals.specs.Lendings.{next_handle};
ghost use Rattle.iox_wire_locals.specs.Locals.{program_of};
ghost use Rattle.iox_wire_locals.specs.Steps.{next};
ghost use Rattle.iox_wire_locals.specs.Tables.{Setting, state_in};
ghost use Rattle.iox_wire_seats.specs.Aims.{IsInMemory, QueuesInMemory};
ghost use Rattle.iox_wire_seats.specs.Seats.{ways_of};
ghost use Rattle.iox_wire_request_sends.specs.WireLoansAims.{TellsOfSlot};
ghost use Rattle.iox_wire_request_sends.specs.Lenders.{AreReturning, HasClientLimits, LenderIsTold, HasServerLimits, IsWhole};
ghost use Rattle.iox_wire_request_sends.specs.Targets.{AreWithin};
ghost use Rattle.iox_wire_copies.specs.CopyCalls.{FindsUsed, IsAimed, MayEndCall};
ghost use Rattle.iox_wire_copies.specs.Copies.{ArePayloads};
ghost use Rattle.iox_wire_copies.specs.Payloads.{SlotsHold};
ghost use Rattle.iox_wire_copies.specs.ResponseCopies as responses;

use crate::at::{CopyReply, ResponseCopyReply};
use crate::copying_client::CopyingClient;
use crate::copying_server::CopyingServer;
use crate::payload_places::PayloadPlaces;
use iox_steps::Access;
use iox_wire_locals::Entry;
use iox_wire_request_sends::{Lender, RequestTerms, Target};
use iox_wire_seats::{Stop, StoredSeat};
use iox_wire_sends::ResponseTerms;

/// A client's copy begins as the definitions begin it.
pub fn copy_begins(
    copying: &mut CopyingClient,
    seat: &mut StoredSeat,
    lender: &Lender<'_>,
    places: PayloadPlaces,
    number: u64,
    elements: Option<u64>,
    words: &[u64],
    stops: &[Stop],
)
    requires rests { is_busy copying.old.local ≡ false }
    requires seat { is_busy seat.old.seat.local ≡ false }
    requires whole { IsWhole lender.now }
    requires within { QueuesInMemory Index lender.now.room stops.now }
    requires room { SlotsHold lender.now.places places }
    requires fits { (k : ℕ) → elements ≡ Some k → k ≤ lender.now.longest
        → length words.now ≤ places.room }
    requires ways { length stops.now ≤ copying.old.lends.lending.ways_room }
    requires words { lender.now.places.slot_words ≤ copying.old.lends.lending.words_room }
    requires payload { lender.now.places.slot_words ≤ copying.old.lends.payload_room }
    ensures begun { (p : Setting) → (n : ℕ) → (y : Payload) → (q : Port)
        → q ≡ p.port lender.now.port → LenderIsTold p lender.now → HasClientLimits p lender.now
        → number ≡ next_handle p seat.old.seat
        → ways_of stops.now
        ≡ request_ways (known p seat.old.seat) (p.port lender.now.port).node lender.now.port
        → placed seat.new.seat copying.new.local
        ≡ begins_at_port p seat.old.seat
        (SendCopy n (record y { elements = elements; words = words.now })) q }
{
    copying.begin(seat, lender, places, number, elements, words, stops)
}

/// What it asks for is what its place asks for.
pub fn access_of_a_copy(copying: &CopyingClient) -> Access
    ensures { (p : Setting) → (x : Seat) → IsAimed p x copying.now → result
        ≡ program_access p.layout (program_of p copying.now.local) }
{
    copying.asks()
}

/// One access is one step of the node.
pub fn copied_by_one_step(
    copying: &mut CopyingClient,
    seat: &mut StoredSeat,
    seen: u64,
) -> Option<CopyReply>
    requires busy { is_busy copying.old.local ≡ true }
    requires accesses { seat.old.seat.accesses + 1 < 2 ^ 64 }
    requires rests { is_busy seat.old.seat.local ≡ false }
    requires may { MayEndCall seat.old copying.old }
    requires finds { FindsUsed seat.old copying.old seen }
    ensures next { (p : Setting) → IsAimed p seat.old.seat copying.old
        → placed seat.new.seat copying.new.local
        ≡ next p (placed seat.old.seat copying.old.local) seen }
    ensures accesses { seat.new.seat.accesses ≡ seat.old.seat.accesses + 1 }
{
    copying.go_on(seat, seen)
}

/// One copy may follow another, to other servers: what is over is at rest.
pub fn next_copy_is_prepared(
    copying: &mut CopyingClient,
    terms: RequestTerms,
    targets: &[Target],
) -> bool
    requires within { AreWithin terms targets.now }
    requires fits { length targets.now ≤ copying.old.sends.room }
    ensures { copying.new.lends ≡ copying.old.lends }
{
    if copying.is_busy() {
        return false;
    }
    copying.prepare(terms, targets);
    true
}

/// A server's copy begins as the definitions begin it.
pub fn response_copy_begins(
    copying: &mut CopyingServer,
    seat: &mut StoredSeat,
    lender: &Lender<'_>,
    places: PayloadPlaces,
    request: Entry,
    terms: ResponseTerms,
    number: u64,
    elements: Option<u64>,
    words: &[u64],
    stops: &[Stop],
)
    requires rests { is_busy copying.old.local ≡ false }
    requires seat { is_busy seat.old.seat.local ≡ false }
    requires whole { IsWhole lender.now }
    requires within { QueuesInMemory Index lender.now.room stops.now }
    requires room { SlotsHold lender.now.places places }
    requires fits { (k : ℕ) → elements ≡ Some k → k ≤ lender.now.longest
        → length words.now ≤ places.room }
    requires messages { IsInMemory terms.messages }
    requires returning { IsInMemory terms.returning }
    requires ways { length stops.now ≤ copying.old.lends.lending.ways_room }
    requires words { lender.now.places.slot_words ≤ copying.old.lends.lending.words_room }
    requires payload { lender.now.places.slot_words ≤ copying.old.lends.payload_room }
    ensures begun { (p : Setting) → (n : ℕ) → (y : Payload)
        → LenderIsTold p lender.now → HasServerLimits p lender.now
        → request.port ≡ lender.now.port → number ≡ next_handle p seat.old.seat
        → ways_of stops.now
        ≡ response_ways (known p seat.old.seat) (p.port lender.now.port).node lender.now.port
        → placed seat.new.seat copying.new.local
        ≡ begins_at_entry p seat.old.seat
        (SendCopy n (record y { elements = elements; words = words.now })) request }
    ensures aimed { (p : Setting) → LenderIsTold p lender.now → HasServerLimits p lender.now
        → request.port ≡ lender.now.port → number ≡ next_handle p seat.old.seat
        → AreReturning p lender.now.room stops.now
        → ArePayloads p lender.now.port lender.now.places places
        → responses.KnowsWay p (state_in request) terms
        → TellsOfSlot p copying.new.local
        → responses.IsAimed p seat.new.seat copying.new }
{
    copying.begin(
        seat, lender, places, request, terms, number, elements, words, stops,
    )
}

/// What it asks for is what its place asks for.
pub fn access_of_a_response_copy(copying: &CopyingServer) -> Access
    ensures { (p : Setting) → (x : Seat) → responses.IsAimed p x copying.now → result
        ≡ program_access p.layout (program_of p copying.now.local) }
{
    copying.asks()
}

/// One access is one step of the node.
pub fn response_copied_by_one_step(
    copying: &mut CopyingServer,
    seat: &mut StoredSeat,
    seen: u64,
) -> Option<ResponseCopyReply>
    requires busy { is_busy copying.old.local ≡ true }
    requires accesses { seat.old.seat.accesses + 1 < 2 ^ 64 }
    requires rests { is_busy seat.old.seat.local ≡ false }
    requires may { responses.MayEndCall seat.old copying.old }
    requires finds { responses.FindsUsed seat.old copying.old seen }
    ensures next { (p : Setting) → responses.IsAimed p seat.old.seat copying.old
        → placed seat.new.seat copying.new.local
        ≡ next p (placed seat.old.seat copying.old.local) seen }
    ensures accesses { seat.new.seat.accesses ≡ seat.old.seat.accesses + 1 }
{
    copying.go_on(seat, seen)
}
