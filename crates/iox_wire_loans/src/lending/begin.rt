//! How a loan begins.
ghost use Rattle.std.specs.Prelude.{◌≡◌, ◌+◌, ◌≤◌, vec_capacity};
ghost use Rattle.iox_wire_loans.specs.Lenders.{IsWhole};
ghost use Rattle.iox_wire_loans.specs.Orders.{words_of};

use super::Lending;
use crate::at::LendAt;
use crate::lender::Lender;
use crate::order::Order;
use crate::slot_places::SlotPlaces;
use iox_model::kind::{Kind, Role};
use iox_wire_locals::{CallRefusal, Entry};
use iox_wire_seats::{Stop, StoredSeat};

impl Lending {
    ghost use Rattle.std.specs.Prelude.{◌≡◌, ◌+◌, ◌≤◌, [], false, length, true};
    ghost use Rattle.iox_model.specs.Loans.{request_ways, response_ways};
    ghost use Rattle.iox_steps.specs.declared.site.QueueKind.TheVariants.{Index};
    ghost use Rattle.iox_wire_locals.specs.Begins.{is_busy};
    ghost use Rattle.iox_wire_locals.specs.Courses.{loaning, placed};
    ghost use Rattle.iox_wire_locals.specs.Known.{free_lanes, known};
    ghost use Rattle.iox_wire_locals.specs.Lendings.{first_lane, lends_request, lends_response, next_handle};
    ghost use Rattle.iox_wire_locals.specs.NewLoans.{loan_words};
    ghost use Rattle.iox_wire_locals.specs.Tables.{Setting};
    ghost use Rattle.iox_wire_locals.specs.declared.local.Ending.TheVariants.{Refuses};
    ghost use Rattle.iox_wire_locals.specs.declared.local.Local.TheVariants.{Ends};
    ghost use Rattle.iox_wire_seats.specs.Aims.{QueuesInMemory};
    ghost use Rattle.iox_wire_seats.specs.Seats.{ways_of};
    ghost use Rattle.iox_wire_loans.specs.Aims.{HasSameRooms, IsAimed, IsOrdered, LeavesSeat, TellsOfSlot};
    ghost use Rattle.iox_wire_loans.specs.Lenders.{AreReturning, AreSlots, HasClientLimits, LenderIsTold};
    ghost use Rattle.iox_wire_loans.specs.Lenders.{HasServerLimits};
    ghost use Rattle.iox_wire_loans.specs.Orders.{IsRequest, IsResponse, loan_of};

    /// Begins the loan of a request by a client, which gets back on these ways first. What was
    /// under way would be lost.
    pub fn lend_request(
        &mut self,
        seat: &mut StoredSeat,
        lender: &Lender<'_>,
        number: u64,
        elements: u64,
        stops: &[Stop],
    )
        requires rests { is_busy self.old.local ≡ false }
        requires seat { is_busy seat.old.seat.local ≡ false }
        requires whole { IsWhole lender.now }
        requires within { QueuesInMemory Index lender.now.room stops.now }
        requires fits { length stops.now ≤ self.old.ways_room }
        requires words { lender.now.places.slot_words ≤ self.old.words_room }
        ensures begun { (p : Setting) → LenderIsTold p lender.now → HasClientLimits p lender.now
            → number ≡ next_handle p seat.old.seat
            → ways_of stops.now
            ≡ request_ways (known p seat.old.seat) (p.port lender.now.port).node lender.now.port
            → placed seat.new.seat self.new.local
            ≡ lends_request p seat.old.seat (p.port lender.now.port) elements [] false }
        ensures aimed { (p : Setting) → LenderIsTold p lender.now → HasClientLimits p lender.now
            → number ≡ next_handle p seat.old.seat → AreReturning p lender.now.room stops.now
            → TellsOfSlot p self.new.local
            → IsAimed p seat.new.seat self.new }
        ensures ordered { IsOrdered self.new number lender.now.port }
        ensures request { IsRequest self.new.order
            (first_lane lender.now.pool (free_lanes seat.old.seat lender.now.port)) }
        ensures places { self.new.places ≡ lender.now.places }
        ensures busy { is_busy self.new.local ≡ true }
        ensures leaves { LeavesSeat seat.old seat.new }
        ensures rooms { HasSameRooms self.old self.new }
    {
        let port = lender.port;
        let loans = seat.loans(port);
        let order = Order {
            number,
            kind: Kind::RequestMut,
            port,
            client: port,
            lane: seat.first_lane(port, lender.pool),
            request: loans % (1 << 62),
            serial: loans,
            elements,
        };
        match lender.request_refusal(seat, elements) {
            Some(refusal) => self.refuse(order, lender.places, refusal),
            None => self.begin(seat, lender, order, stops),
        }
    }

    /// Begins the loan of a response by a server to a request that it received, which gets back on
    /// these ways first. What was under way would be lost.
    pub fn lend_response(
        &mut self,
        seat: &mut StoredSeat,
        lender: &Lender<'_>,
        request: Entry,
        number: u64,
        elements: u64,
        stops: &[Stop],
    )
        requires rests { is_busy self.old.local ≡ false }
        requires seat { is_busy seat.old.seat.local ≡ false }
        requires whole { IsWhole lender.now }
        requires within { QueuesInMemory Index lender.now.room stops.now }
        requires fits { length stops.now ≤ self.old.ways_room }
        requires words { lender.now.places.slot_words ≤ self.old.words_room }
        ensures begun { (p : Setting) → LenderIsTold p lender.now → HasServerLimits p lender.now
            → request.port ≡ lender.now.port → number ≡ next_handle p seat.old.seat
            → ways_of stops.now
            ≡ response_ways (known p seat.old.seat) (p.port lender.now.port).node lender.now.port
            → placed seat.new.seat self.new.local
            ≡ lends_response p seat.old.seat request elements [] false }
        ensures aimed { (p : Setting) → LenderIsTold p lender.now → HasServerLimits p lender.now
            → number ≡ next_handle p seat.old.seat → AreReturning p lender.now.room stops.now
            → TellsOfSlot p self.new.local
            → IsAimed p seat.new.seat self.new }
        ensures ordered { IsOrdered self.new number lender.now.port }
        ensures response { IsResponse self.new.order request }
        ensures places { self.new.places ≡ lender.now.places }
        ensures busy { is_busy self.new.local ≡ true }
        ensures leaves { LeavesSeat seat.old seat.new }
        ensures rooms { HasSameRooms self.old self.new }
    {
        let port = lender.port;
        let order = Order {
            number,
            kind: Kind::ResponseMut,
            port,
            client: request.client,
            lane: request.lane,
            request: request.request,
            serial: seat.loans(port),
            elements,
        };
        match lender.response_refusal(seat, request, elements) {
            Some(refusal) => self.refuse(order, lender.places, refusal),
            None => self.begin(seat, lender, order, stops),
        }
    }

    /// Begins a loan that is refused.
    fn refuse(&mut self, order: Order, places: SlotPlaces, refusal: CallRefusal)
        ensures local { self.new.local ≡ Ends (Refuses refusal) }
        ensures order { self.new.order ≡ order }
        ensures places { self.new.places ≡ places }
        ensures rooms { HasSameRooms self.old self.new }
    {
        self.order = order;
        self.places = places;
        self.refusal = refusal;
        self.at = LendAt::Refuses;
    }

    /// Begins a loan that is not refused by the node's own tables.
    fn begin(&mut self, seat: &mut StoredSeat, lender: &Lender<'_>, order: Order, stops: &[Stop])
        requires rests { is_busy self.old.local ≡ false }
        requires seat { is_busy seat.old.seat.local ≡ false }
        requires whole { IsWhole lender.now }
        requires within { QueuesInMemory Index lender.now.room stops.now }
        requires fits { length stops.now ≤ self.old.ways_room }
        requires words { lender.now.places.slot_words ≤ self.old.words_room }
        ensures begun { (p : Setting) → placed seat.new.seat self.new.local
            ≡ loaning seat.old.seat (loan_of order) (ways_of stops.now) }
        ensures aimed { (p : Setting) → order.number ≡ next_handle p seat.old.seat
            → words_of lender.now.role lender.now.ids.now lender.now.user.now order
            ≡ loan_words p (loan_of order)
            → AreSlots p order.port lender.now.places
            → AreReturning p lender.now.room stops.now
            → TellsOfSlot p self.new.local
            → IsAimed p seat.new.seat self.new }
        ensures ordered { self.new.order ≡ order }
        ensures places { self.new.places ≡ lender.now.places }
        ensures busy { is_busy self.new.local ≡ true }
        ensures leaves { LeavesSeat seat.old seat.new }
        ensures rooms { HasSameRooms self.old self.new }
    {
        self.left.fill(stops);
        fill_words(&mut self.words, lender, order);
        self.order = order;
        self.room = lender.room;
        self.places = lender.places;
        self.at = LendAt::Refuses;
        self.refusal = CallRefusal::OutOfMemory;
        if stops.len() == 0 {
            self.take_slot(seat);
        } else {
            self.empty_next(seat);
        }
    }
}

/// Stores the words of a loan's message, in their order.
fn fill_words(words: &mut Vec<u64>, lender: &Lender<'_>, order: Order)
    requires whole { IsWhole lender.now }
    requires room { lender.now.places.header + lender.now.places.user ≤ vec_capacity words.old }
    ensures words { words.new.items
        ≡ words_of lender.now.role lender.now.ids.now lender.now.user.now order }
    ensures capacity { vec_capacity words.old ≤ vec_capacity words.new }
{
    words.clear();
    if words.extend_from_slice(lender.ids).is_err() {
        unreachable!();
    }
    if let Role::Client = lender.role {
        words.push_reserved(order.lane);
    }
    words.push_reserved(order.request);
    words.push_reserved(order.elements);
    if words.extend_from_slice(lender.user).is_err() {
        unreachable!();
    }
}
