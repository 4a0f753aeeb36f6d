//! How loans begin.
ghost use Rattle.std.specs.Prelude.{ℕ, ◌≡◌, ◌≤◌, false, vec_capacity};
ghost use Rattle.iox_model.specs.declared.call.Call.TheVariants.{Loan};
ghost use Rattle.iox_model.specs.declared.kind.Role.TheVariants.{Client, Server};
ghost use Rattle.iox_wire_handle_calls.specs.Plans.{IsPortAt, most_ways, number_at};
ghost use Rattle.iox_wire_begins.specs.WirePlans.{IsWirePlan};
ghost use Rattle.iox_wire_lenders.specs.Terms.{IsSettingWith};
ghost use Rattle.iox_wire_handle_calls.specs.LoansAims.{HasSameRooms, IsAimed, IsOrdered, LeavesSeat};
ghost use Rattle.iox_wire_handle_calls.specs.LoansAims.{TellsOfSlot};
ghost use Rattle.iox_wire_begins.specs.ListRooms.{HasRoomToLend};
ghost use Rattle.iox_wire_handle_calls.specs.Begins.{begins_at_entry, begins_at_port, is_busy};
ghost use Rattle.iox_wire_handle_calls.specs.Courses.{placed};
ghost use Rattle.iox_wire_handle_calls.specs.Lendings.{next_handle};
ghost use Rattle.iox_wire_handle_calls.specs.Tables.{Setting};

use iox_wire_handle_calls::{
    Entry, Lending, Stop, StoredSeat, WordMap, list_request_returns, list_response_returns,
};
use iox_wire_lenders::{WireTerms, make_lender};

/// Begins the loan of a request of so many elements by the client at an index, whose handle will
/// have that number. No loan may be under way. What it lists in `stops` is of no use later.
pub fn begin_request_loan(
    map: &WordMap,
    terms: &WireTerms,
    seat: &mut StoredSeat,
    lending: &mut Lending,
    client: usize,
    elements: u64,
    number: u64,
    stops: &mut Vec<Stop>,
)
    requires rests { is_busy lending.old.local ≡ false }
    requires seat { is_busy seat.old.seat.local ≡ false }
    requires client { IsPortAt map.now Client client }
    requires plan { IsWirePlan map.now terms.now }
    requires list { most_ways map.now ≤ vec_capacity stops.old }
    requires rooms { HasRoomToLend map.now lending.old }
    ensures begun { (p : Setting) → (n : ℕ) → IsSettingWith map.now terms.now p
        → number ≡ next_handle p seat.old.seat
        → placed seat.new.seat lending.new.local
        ≡ begins_at_port p seat.old.seat (Loan n elements) (p.port (number_at map.now client)) }
    ensures aimed { (p : Setting) → IsSettingWith map.now terms.now p
        → number ≡ next_handle p seat.old.seat
        → TellsOfSlot p lending.new.local
        → IsAimed p seat.new.seat lending.new }
    ensures ordered { IsOrdered lending.new number (number_at map.now client) }
    ensures leaves { LeavesSeat seat.old seat.new }
    ensures list { vec_capacity stops.new ≡ vec_capacity stops.old }
    ensures rooms { HasSameRooms lending.old lending.new }
{
    // only what this promises is wanted
    let _plan = map.plan();
    let room = list_request_returns(map, seat, client, stops);
    let lender = make_lender(map, terms, client, room);
    lending.lend_request(seat, &lender, number, elements, stops)
}

/// Begins the loan of a response of so many elements to a request that the server at an index
/// received, whose handle will have that number. No loan may be under way. What it lists in `stops`
/// is of no use later.
pub fn begin_response_loan(
    map: &WordMap,
    terms: &WireTerms,
    seat: &mut StoredSeat,
    lending: &mut Lending,
    request: Entry,
    server: usize,
    elements: u64,
    number: u64,
    stops: &mut Vec<Stop>,
)
    requires rests { is_busy lending.old.local ≡ false }
    requires seat { is_busy seat.old.seat.local ≡ false }
    requires server { IsPortAt map.now Server server }
    requires own { request.port ≡ number_at map.now server }
    requires plan { IsWirePlan map.now terms.now }
    requires list { most_ways map.now ≤ vec_capacity stops.old }
    requires rooms { HasRoomToLend map.now lending.old }
    ensures begun { (p : Setting) → (n : ℕ) → IsSettingWith map.now terms.now p
        → number ≡ next_handle p seat.old.seat
        → placed seat.new.seat lending.new.local
        ≡ begins_at_entry p seat.old.seat (Loan n elements) request }
    ensures aimed { (p : Setting) → IsSettingWith map.now terms.now p
        → number ≡ next_handle p seat.old.seat
        → TellsOfSlot p lending.new.local
        → IsAimed p seat.new.seat lending.new }
    ensures ordered { IsOrdered lending.new number (number_at map.now server) }
    ensures leaves { LeavesSeat seat.old seat.new }
    ensures list { vec_capacity stops.new ≡ vec_capacity stops.old }
    ensures rooms { HasSameRooms lending.old lending.new }
{
    // only what this promises is wanted
    let _plan = map.plan();
    let room = list_response_returns(map, seat, server, stops);
    let lender = make_lender(map, terms, server, room);
    lending.lend_response(seat, &lender, request, number, elements, stops)
}
