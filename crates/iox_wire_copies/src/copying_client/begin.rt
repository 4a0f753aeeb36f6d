//! How the copy of a request begins.
ghost use Rattle.std.specs.Prelude.{◌≡◌};

use super::CopyingClient;
use crate::at::CopierAt;
use crate::payload_places::PayloadPlaces;
use iox_wire_request_sends::{Lender, RequestTerms, Target};
use iox_wire_seats::{Stop, StoredSeat};

impl CopyingClient {
    ghost use Rattle.std.specs.Prelude.{ℕ, ◌≡◌, ◌≤◌, Some, false, length, true};
    ghost use Rattle.iox_model.specs.Loans.{request_ways};
    ghost use Rattle.iox_steps.specs.declared.site.QueueKind.TheVariants.{Index};
    ghost use Rattle.iox_wire_locals.specs.declared.local.Local.TheVariants.{Idle};
    ghost use Rattle.iox_wire_locals.specs.Begins.{is_busy};
    ghost use Rattle.iox_wire_locals.specs.Courses.{placed};
    ghost use Rattle.iox_wire_locals.specs.Known.{free_lanes, known};
    ghost use Rattle.iox_wire_locals.specs.Lendings.{copies_request, first_lane, next_handle};
    ghost use Rattle.iox_wire_locals.specs.Tables.{Setting};
    ghost use Rattle.iox_wire_seats.specs.Aims.{QueuesInMemory};
    ghost use Rattle.iox_wire_seats.specs.Lends.{MayLend};
    ghost use Rattle.iox_wire_seats.specs.Seats.{Placed, ways_of};
    ghost use Rattle.iox_wire_request_sends.specs.WireLoansAims.{IsOrdered, LeavesSeat};
    ghost use Rattle.iox_wire_request_sends.specs.Lenders.{AreReturning, HasClientLimits, LenderIsTold, IsWhole};
    ghost use Rattle.iox_wire_request_sends.specs.Targets.{AreWithin};
    ghost use Rattle.iox_wire_copies.specs.Copiers.{MayBeMade};
    ghost use Rattle.iox_wire_copies.specs.Copies.{ArePayloads};
    ghost use Rattle.iox_wire_copies.specs.CopyAims.{HasSameRooms};
    ghost use Rattle.iox_wire_copies.specs.CopyCalls.{IsAimed, KnowsServersOnLane, TellsOfSlotAndLane};
    ghost use Rattle.iox_wire_copies.specs.Payloads.{SlotsHold};

    /// Is told about the servers to which it sends. No copy may be under way.
    pub fn prepare(&mut self, terms: RequestTerms, targets: &[Target])
        requires rests { is_busy self.old.local ≡ false }
        requires within { AreWithin terms targets.now }
        requires fits { length targets.now ≤ self.old.sends.room }
        ensures terms { self.new.sends.terms ≡ terms }
        ensures targets { self.new.sends.targets ≡ targets.now }
        ensures rests { is_busy self.new.local ≡ false }
        ensures lends { self.new.lends ≡ self.old.lends }
        ensures room { self.new.sends.room ≡ self.old.sends.room }
    {
        self.sends.prepare(terms, targets)
    }

    /// Begins to copy a request of these words, to the servers that it was told about: it gets back
    /// on these ways first. Without a number of elements the words are not of whole elements. Where
    /// the client has no free lane it need be told about no server. No copy may be under way.
    pub fn begin(
        &mut self,
        seat: &mut StoredSeat,
        lender: &Lender<'_>,
        places: PayloadPlaces,
        number: u64,
        elements: Option<u64>,
        words: &[u64],
        stops: &[Stop],
    )
        requires rests { is_busy self.old.local ≡ false }
        requires seat { is_busy seat.old.seat.local ≡ false }
        requires whole { IsWhole lender.now }
        requires within { QueuesInMemory Index lender.now.room stops.now }
        requires room { SlotsHold lender.now.places places }
        requires fits { (k : ℕ) → elements ≡ Some k → k ≤ lender.now.longest
            → length words.now ≤ places.room }
        requires ways { length stops.now ≤ self.old.lends.lending.ways_room }
        requires words { lender.now.places.slot_words ≤ self.old.lends.lending.words_room }
        requires payload { lender.now.places.slot_words ≤ self.old.lends.payload_room }
        ensures begun { (p : Setting) → LenderIsTold p lender.now → HasClientLimits p lender.now
            → number ≡ next_handle p seat.old.seat
            → ways_of stops.now
            ≡ request_ways (known p seat.old.seat) (p.port lender.now.port).node lender.now.port
            → placed seat.new.seat self.new.local
            ≡ copies_request p seat.old.seat (p.port lender.now.port) elements words.now }
        ensures aimed { (p : Setting) → LenderIsTold p lender.now → HasClientLimits p lender.now
            → number ≡ next_handle p seat.old.seat → AreReturning p lender.now.room stops.now
            → ArePayloads p lender.now.port lender.now.places places
            → ways_of stops.now
            ≡ request_ways (known p seat.old.seat) (p.port lender.now.port).node lender.now.port
            → KnowsServersOnLane p seat.old.seat lender.now.port
            (first_lane lender.now.pool (free_lanes seat.old.seat lender.now.port)) self.old.sends
            → TellsOfSlotAndLane p self.new.local
            → IsAimed p seat.new.seat self.new }
        ensures ordered { (k : ℕ) → elements ≡ Some k
            → IsOrdered self.new.lends.lending number lender.now.port }
        ensures may { (x : Placed) → MayLend x number lender.now.port
            → MayBeMade x self.new.at self.new.lends.lending.order self.new.sends.loan }
        ensures busy { is_busy self.new.local ≡ true }
        ensures told { self.new.sends ≡ self.old.sends }
        ensures leaves { LeavesSeat seat.old seat.new }
        ensures rooms { HasSameRooms self.old.lends self.new.lends }
    {
        let Some(count) = elements else {
            self.at = CopierAt::Refuses;
            return;
        };
        self.lends
            .lend_request(seat, lender, places, number, count, words, stops);
        // only what this promises is wanted
        self.lends.place();
        self.at = CopierAt::Lends;
    }
}
