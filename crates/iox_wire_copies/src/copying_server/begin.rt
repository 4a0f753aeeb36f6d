//! How the copy of a response begins.
ghost use Rattle.std.specs.Prelude.{◌≡◌};

use super::CopyingServer;
use crate::at::CopierAt;
use crate::payload_places::PayloadPlaces;
use iox_wire_locals::Entry;
use iox_wire_request_sends::Lender;
use iox_wire_seats::{Stop, StoredSeat};
use iox_wire_sends::ResponseTerms;

impl CopyingServer {
    ghost use Rattle.std.specs.Prelude.{ℕ, ◌≡◌, ◌≤◌, Some, false, length, true};
    ghost use Rattle.iox_model.specs.Loans.{response_ways};
    ghost use Rattle.iox_steps.specs.declared.site.QueueKind.TheVariants.{Index};
    ghost use Rattle.iox_wire_locals.specs.Begins.{is_busy};
    ghost use Rattle.iox_wire_locals.specs.Courses.{placed};
    ghost use Rattle.iox_wire_locals.specs.Known.{known};
    ghost use Rattle.iox_wire_locals.specs.Lendings.{copies_response, next_handle};
    ghost use Rattle.iox_wire_locals.specs.Tables.{Setting, state_in};
    ghost use Rattle.iox_wire_seats.specs.Aims.{IsInMemory, QueuesInMemory};
    ghost use Rattle.iox_wire_seats.specs.Lends.{MayLend};
    ghost use Rattle.iox_wire_seats.specs.Seats.{Placed, ways_of};
    ghost use Rattle.iox_wire_request_sends.specs.WireLoansAims.{IsOrdered, LeavesSeat, TellsOfSlot};
    ghost use Rattle.iox_wire_request_sends.specs.Lenders.{AreReturning, LenderIsTold, HasServerLimits, IsWhole};
    ghost use Rattle.iox_wire_request_sends.specs.Orders.{IsResponse};
    ghost use Rattle.iox_wire_copies.specs.Copiers.{MayBeMade};
    ghost use Rattle.iox_wire_copies.specs.Copies.{ArePayloads};
    ghost use Rattle.iox_wire_copies.specs.CopyAims.{HasSameRooms};
    ghost use Rattle.iox_wire_copies.specs.ResponseCopies.{IsAimed, KnowsWay};
    ghost use Rattle.iox_wire_copies.specs.Payloads.{SlotsHold};

    /// Begins to copy a response of these words to a request that the server received, on a way
    /// that is told so: it gets back on these ways first. Without a number of elements the words
    /// are not of whole elements. No copy may be under way.
    pub fn begin(
        &mut self,
        seat: &mut StoredSeat,
        lender: &Lender<'_>,
        places: PayloadPlaces,
        request: Entry,
        terms: ResponseTerms,
        number: u64,
        elements: Option<u64>,
        words: &[u64],
        stops: &[Stop],
    )
        requires rests { is_busy self.old.local ≡ false }
        requires seat { is_busy seat.old.seat.local ≡ false }
        requires whole { IsWhole lender.now }
        requires within { QueuesInMemory Index lender.now.room stops.now }
        requires room { SlotsHold lender.now.places places }
        requires fits { (k : ℕ) → elements ≡ Some k → k ≤ lender.now.longest
            → length words.now ≤ places.room }
        requires messages { IsInMemory terms.messages }
        requires returning { IsInMemory terms.returning }
        requires ways { length stops.now ≤ self.old.lends.lending.ways_room }
        requires words { lender.now.places.slot_words ≤ self.old.lends.lending.words_room }
        requires payload { lender.now.places.slot_words ≤ self.old.lends.payload_room }
        ensures begun { (p : Setting) → LenderIsTold p lender.now → HasServerLimits p lender.now
            → request.port ≡ lender.now.port → number ≡ next_handle p seat.old.seat
            → ways_of stops.now
            ≡ response_ways (known p seat.old.seat) (p.port lender.now.port).node lender.now.port
            → placed seat.new.seat self.new.local
            ≡ copies_response p seat.old.seat request elements words.now }
        ensures aimed { (p : Setting) → LenderIsTold p lender.now → HasServerLimits p lender.now
            → request.port ≡ lender.now.port → number ≡ next_handle p seat.old.seat
            → AreReturning p lender.now.room stops.now
            → ArePayloads p lender.now.port lender.now.places places
            → KnowsWay p (state_in request) terms
            → TellsOfSlot p self.new.local
            → IsAimed p seat.new.seat self.new }
        ensures ordered { (k : ℕ) → elements ≡ Some k
            → IsOrdered self.new.lends.lending number lender.now.port }
        ensures response { (k : ℕ) → elements ≡ Some k
            → IsResponse self.new.lends.lending.order request }
        ensures may { (x : Placed) → MayLend x number lender.now.port
            → MayBeMade x self.new.at self.new.lends.lending.order self.new.sends.loan }
        ensures busy { is_busy self.new.local ≡ true }
        ensures told { (k : ℕ) → elements ≡ Some k → self.new.sends.terms ≡ terms }
        ensures leaves { LeavesSeat seat.old seat.new }
        ensures rooms { HasSameRooms self.old.lends self.new.lends }
    {
        let Some(count) = elements else {
            self.at = CopierAt::Refuses;
            return;
        };
        self.lends
            .lend_response(seat, lender, places, request, number, count, words, stops);
        self.sends.prepare(terms);
        self.at = CopierAt::Lends;
    }
}
