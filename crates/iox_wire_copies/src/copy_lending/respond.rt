//! How the loan of a copied response begins.
ghost use Rattle.std.specs.Prelude.{◌≡◌};

use super::CopyLending;
use super::begin::replace;
use crate::at::CopyAt;
use crate::payload_places::PayloadPlaces;
use iox_wire_locals::Entry;
use iox_wire_request_sends::Lender;
use iox_wire_seats::{Stop, StoredSeat};

impl CopyLending {
    ghost use Rattle.std.specs.Prelude.{◌≡◌, ◌≤◌, false, length, true};
    ghost use Rattle.iox_model.specs.Loans.{response_ways};
    ghost use Rattle.iox_steps.specs.declared.site.QueueKind.TheVariants.{Index};
    ghost use Rattle.iox_wire_locals.specs.Begins.{is_busy};
    ghost use Rattle.iox_wire_locals.specs.Courses.{placed};
    ghost use Rattle.iox_wire_locals.specs.Known.{known};
    ghost use Rattle.iox_wire_locals.specs.Lendings.{lends_response, next_handle};
    ghost use Rattle.iox_wire_locals.specs.Tables.{Setting};
    ghost use Rattle.iox_wire_seats.specs.Aims.{QueuesInMemory};
    ghost use Rattle.iox_wire_seats.specs.Seats.{ways_of};
    ghost use Rattle.iox_wire_request_sends.specs.WireLoansAims.{IsOrdered, LeavesSeat, TellsOfSlot};
    ghost use Rattle.iox_wire_request_sends.specs.Lenders.{AreReturning, LenderIsTold, HasServerLimits, IsWhole};
    ghost use Rattle.iox_wire_request_sends.specs.Orders.{IsResponse};
    ghost use Rattle.iox_wire_copies.specs.Copies.{ArePayloads};
    ghost use Rattle.iox_wire_copies.specs.CopyAims.{HasSameRooms, IsAimed};
    ghost use Rattle.iox_wire_copies.specs.Payloads.{SlotsHold};

    /// Begins the loan of a copy by a server to a request that it received, which gets back on
    /// these ways first. What was under way would be lost.
    pub fn lend_response(
        &mut self,
        seat: &mut StoredSeat,
        lender: &Lender<'_>,
        places: PayloadPlaces,
        request: Entry,
        number: u64,
        elements: u64,
        words: &[u64],
        stops: &[Stop],
    )
        requires rests { is_busy self.old.local ≡ false }
        requires seat { is_busy seat.old.seat.local ≡ false }
        requires whole { IsWhole lender.now }
        requires within { QueuesInMemory Index lender.now.room stops.now }
        requires room { SlotsHold lender.now.places places }
        requires fits { elements ≤ lender.now.longest → length words.now ≤ places.room }
        requires ways { length stops.now ≤ self.old.lending.ways_room }
        requires words { lender.now.places.slot_words ≤ self.old.lending.words_room }
        requires payload { lender.now.places.slot_words ≤ self.old.payload_room }
        ensures begun { (p : Setting) → LenderIsTold p lender.now → HasServerLimits p lender.now
            → request.port ≡ lender.now.port → number ≡ next_handle p seat.old.seat
            → ways_of stops.now
            ≡ response_ways (known p seat.old.seat) (p.port lender.now.port).node lender.now.port
            → placed seat.new.seat self.new.local
            ≡ lends_response p seat.old.seat request elements words.now true }
        ensures aimed { (p : Setting) → LenderIsTold p lender.now → HasServerLimits p lender.now
            → number ≡ next_handle p seat.old.seat → AreReturning p lender.now.room stops.now
            → ArePayloads p lender.now.port lender.now.places places
            → TellsOfSlot p self.new.local
            → IsAimed p seat.new.seat self.new }
        ensures ordered { IsOrdered self.new.lending number lender.now.port }
        ensures response { IsResponse self.new.lending.order request }
        ensures slots { self.new.slots ≡ lender.now.places }
        ensures busy { is_busy self.new.local ≡ true }
        ensures leaves { LeavesSeat seat.old seat.new }
        ensures rooms { HasSameRooms self.old self.new }
    {
        // what is longer than any response is refused
        let kept = if elements <= lender.longest {
            words.len()
        } else {
            0
        };
        self.lending
            .lend_response(seat, lender, request, number, elements, stops);
        replace(&mut self.payload, &words[..kept]);
        self.slots = lender.places;
        self.places = places;
        self.at = CopyAt::Lends;
    }
}
