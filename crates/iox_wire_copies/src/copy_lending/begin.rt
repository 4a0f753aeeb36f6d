//! How the loan of a copy begins.
ghost use Rattle.std.specs.Prelude.{◌≡◌, ◌≤◌, length, vec_capacity};

use super::CopyLending;
use crate::at::CopyAt;
use crate::payload_places::PayloadPlaces;
use iox_wire_request_sends::Lender;
use iox_wire_seats::{Stop, StoredSeat};

impl CopyLending {
    ghost use Rattle.std.specs.Prelude.{◌≡◌, ◌≤◌, false, length, true};
    ghost use Rattle.iox_model.specs.Loans.{request_ways};
    ghost use Rattle.iox_steps.specs.declared.site.QueueKind.TheVariants.{Index};
    ghost use Rattle.iox_wire_locals.specs.Begins.{is_busy};
    ghost use Rattle.iox_wire_locals.specs.Courses.{placed};
    ghost use Rattle.iox_wire_locals.specs.Known.{free_lanes, known};
    ghost use Rattle.iox_wire_locals.specs.Lendings.{first_lane, lends_request, next_handle};
    ghost use Rattle.iox_wire_locals.specs.Tables.{Setting};
    ghost use Rattle.iox_wire_seats.specs.Aims.{QueuesInMemory};
    ghost use Rattle.iox_wire_seats.specs.Seats.{ways_of};
    ghost use Rattle.iox_wire_request_sends.specs.WireLoansAims.{IsOrdered, LeavesSeat, TellsOfSlot};
    ghost use Rattle.iox_wire_request_sends.specs.Lenders.{AreReturning, HasClientLimits, LenderIsTold, IsWhole};
    ghost use Rattle.iox_wire_request_sends.specs.Orders.{IsRequest};
    ghost use Rattle.iox_wire_copies.specs.Copies.{ArePayloads};
    ghost use Rattle.iox_wire_copies.specs.CopyAims.{HasSamePeers, HasSameRooms, IsAimed};
    ghost use Rattle.iox_wire_copies.specs.Payloads.{SlotsHold};

    /// Begins the loan of a copy by a client, which gets back on these ways first. What was under
    /// way would be lost.
    pub fn lend_request(
        &mut self,
        seat: &mut StoredSeat,
        lender: &Lender<'_>,
        places: PayloadPlaces,
        number: u64,
        elements: u64,
        words: &[u64],
        stops: &[Stop],
    )
        requires rests { is_busy self.old.local ≡ false }
        requires seat { is_busy seat.old.seat.local ≡ false }
        requires whole { IsWhole lender.now }
        requires within { QueuesInMemory Index lender.now.room stops.now }
        requires room { SlotsHold lender.now.places places }
        requires fits { elements ≤ lender.now.longest → length words.now ≤ places.room }
        requires ways { length stops.now ≤ self.old.lending.ways_room }
        requires words { lender.now.places.slot_words ≤ self.old.lending.words_room }
        requires payload { lender.now.places.slot_words ≤ self.old.payload_room }
        ensures begun { (p : Setting) → LenderIsTold p lender.now → HasClientLimits p lender.now
            → number ≡ next_handle p seat.old.seat
            → ways_of stops.now
            ≡ request_ways (known p seat.old.seat) (p.port lender.now.port).node lender.now.port
            → placed seat.new.seat self.new.local
            ≡ lends_request p seat.old.seat (p.port lender.now.port) elements words.now true }
        ensures aimed { (p : Setting) → LenderIsTold p lender.now → HasClientLimits p lender.now
            → number ≡ next_handle p seat.old.seat → AreReturning p lender.now.room stops.now
            → ArePayloads p lender.now.port lender.now.places places
            → TellsOfSlot p self.new.local
            → IsAimed p seat.new.seat self.new }
        ensures peers { (p : Setting) → LenderIsTold p lender.now → HasClientLimits p lender.now
            → number ≡ next_handle p seat.old.seat
            → ways_of stops.now
            ≡ request_ways (known p seat.old.seat) (p.port lender.now.port).node lender.now.port
            → HasSamePeers seat.old.seat seat.new.seat }
        ensures ordered { IsOrdered self.new.lending number lender.now.port }
        ensures request { IsRequest self.new.lending.order
            (first_lane lender.now.pool (free_lanes seat.old.seat lender.now.port)) }
        ensures slots { self.new.slots ≡ lender.now.places }
        ensures busy { is_busy self.new.local ≡ true }
        ensures leaves { LeavesSeat seat.old seat.new }
        ensures rooms { HasSameRooms self.old self.new }
    {
        // what is longer than any request is refused
        let kept = if elements <= lender.longest {
            words.len()
        } else {
            0
        };
        self.lending
            .lend_request(seat, lender, number, elements, stops);
        replace(&mut self.payload, &words[..kept]);
        self.slots = lender.places;
        self.places = places;
        self.at = CopyAt::Lends;
    }
}

/// Those are the words of the payload now.
pub(super) fn replace(payload: &mut Vec<u64>, words: &[u64])
    requires { length words.now ≤ vec_capacity payload.old }
    ensures items { payload.new.items ≡ words.now }
    ensures capacity { vec_capacity payload.old ≤ vec_capacity payload.new }
{
    payload.clear();
    if payload.extend_from_slice(words).is_err() {
        unreachable!();
    }
}
