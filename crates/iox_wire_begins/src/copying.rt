//! How copies begin: loan, write and send in one call.
ghost use Rattle.std.specs.Prelude.{ℕ, ◌≡◌, ◌*◌, ◌≤◌, Some, false, length, vec_capacity};
ghost use Rattle.iox_model.specs.declared.kind.Role.TheVariants.{Client};
ghost use Rattle.iox_wire_handle_calls.specs.WayIndex.TheVariants.{Responses};
ghost use Rattle.iox_wire_handle_calls.specs.Plans.{IsPortAt, IsWayAt, most_ways, number_at, way_at};
ghost use Rattle.iox_wire_begins.specs.ListRooms.{ListsHaveRoom, HasRoomToCopy};
ghost use Rattle.iox_wire_handle_calls.specs.CopyAims.{HasSameRooms};
ghost use Rattle.iox_wire_begins.specs.WirePlans.{IsWirePlan};
ghost use Rattle.iox_wire_handle_calls.specs.Copiers.{MayBeMade};
ghost use Rattle.iox_wire_handle_calls.specs.CopyCalls as requests;
ghost use Rattle.iox_wire_handle_calls.specs.ResponseCopies as responses;
ghost use Rattle.iox_wire_lenders.specs.Terms.{IsSettingWith};
ghost use Rattle.iox_wire_handle_calls.specs.LoansAims.{LeavesSeat, TellsOfSlot};
ghost use Rattle.iox_wire_handle_calls.specs.Begins.{is_busy};
ghost use Rattle.iox_wire_handle_calls.specs.Courses.{placed};
ghost use Rattle.iox_wire_handle_calls.specs.Known.{free_lanes};
ghost use Rattle.iox_wire_handle_calls.specs.Lendings.{copies_request, copies_response};
ghost use Rattle.iox_wire_handle_calls.specs.Lendings.{first_lane, next_handle};
ghost use Rattle.iox_wire_handle_calls.specs.Lends.{MayLend};
ghost use Rattle.iox_wire_handle_calls.specs.Seats.{Placed};
ghost use Rattle.iox_wire_handle_calls.specs.Tables.{Setting, state_in};
ghost use Rattle.iox_wire_handle_calls.specs.PlannedSlots.{element_words};
ghost use Rattle.iox_wire_handle_calls.specs.Visits.{pool_of};

use crate::lists::Lists;
use crate::told::{request_terms, response_terms};
use iox_wire_handle_calls::{
    CopyingClient, CopyingServer, Entry, Stop, StoredSeat, Target, WordMap, list_request_returns,
    list_response_returns, list_targets, payload_places,
};
use iox_wire_lenders::{WireTerms, make_lender};

/// Tells a copy of the servers to which the client at an index sends a request on its first free
/// lane. Where it has none nothing is told. What it lists is of no use later.
fn tell_servers(
    map: &WordMap,
    terms: &WireTerms,
    seat: &StoredSeat,
    copying: &mut CopyingClient,
    client: usize,
    targets: &mut Vec<Target>,
)
    requires rests { is_busy copying.old.local ≡ false }
    requires client { IsPortAt map.now Client client }
    requires plan { IsWirePlan map.now terms.now }
    requires list { most_ways map.now ≤ vec_capacity targets.old }
    requires room { most_ways map.now ≤ copying.old.sends.room }
    ensures knows { (p : Setting) → IsSettingWith map.now terms.now p
        → requests.KnowsServersOnLane p seat.now.seat (number_at map.now client)
        (first_lane (pool_of map.now (number_at map.now client))
        (free_lanes seat.now.seat (number_at map.now client))) copying.new.sends }
    ensures rests { is_busy copying.new.local ≡ false }
    ensures list { vec_capacity targets.new ≡ vec_capacity targets.old }
    ensures lends { copying.new.lends ≡ copying.old.lends }
    ensures room { copying.new.sends.room ≡ copying.old.sends.room }
{
    let plan = map.plan();
    let at = plan.ports[client];
    let lane = seat.first_lane(at.number, at.pool as u64);
    if lane >= at.pool as u64 {
        return;
    }
    let own = request_terms(map, terms, client);
    let told = list_targets(map, seat, client, lane, own, targets);
    copying.prepare(told, targets);
}

/// Begins to copy a request of these words, of so many elements, by the client at an index, on its
/// first free lane. Where it has none the loan finds no free slot. Its pending response will have
/// that number. No copy may be under way. What is listed is of no use later.
pub fn begin_request_copy(
    map: &WordMap,
    terms: &WireTerms,
    seat: &mut StoredSeat,
    copying: &mut CopyingClient,
    client: usize,
    elements: Option<u64>,
    words: &[u64],
    number: u64,
    lists: &mut Lists,
)
    requires rests { is_busy copying.old.local ≡ false }
    requires seat { is_busy seat.old.seat.local ≡ false }
    requires client { IsPortAt map.now Client client }
    requires plan { IsWirePlan map.now terms.now }
    requires lists { ListsHaveRoom map.now lists.old }
    requires whole { (k : ℕ) → elements ≡ Some k
        → length words.now ≡ k * element_words map.now client }
    requires rooms { HasRoomToCopy map.now copying.old.lends }
    requires targets { most_ways map.now ≤ copying.old.sends.room }
    ensures begun { (p : Setting) → IsSettingWith map.now terms.now p
        → number ≡ next_handle p seat.old.seat
        → placed seat.new.seat copying.new.local
        ≡ copies_request p seat.old.seat (p.port (number_at map.now client)) elements words.now }
    ensures aimed { (p : Setting) → IsSettingWith map.now terms.now p
        → number ≡ next_handle p seat.old.seat
        → requests.TellsOfSlotAndLane p copying.new.local
        → requests.IsAimed p seat.new.seat copying.new }
    ensures may { (x : Placed) → MayLend x number (number_at map.now client)
        → MayBeMade x copying.new.at copying.new.lends.lending.order copying.new.sends.loan }
    ensures leaves { LeavesSeat seat.old seat.new }
    ensures lists { ListsHaveRoom map.now lists.new }
    ensures rooms { HasSameRooms copying.old.lends copying.new.lends }
    ensures targets { copying.new.sends.room ≡ copying.old.sends.room }
{
    // only what this promises is wanted
    let _plan = map.plan();
    tell_servers(map, terms, seat, copying, client, &mut lists.targets);
    let room = list_request_returns(map, seat, client, &mut lists.stops);
    let lender = make_lender(map, terms, client, room);
    let places = payload_places(map, client);
    copying.begin(seat, &lender, places, number, elements, words, &lists.stops)
}

/// Begins to copy a response of these words, of so many elements, to a request that the server at
/// an index received on a lane of the client at another. No copy may be under way. What it lists in
/// `stops` is of no use later.
pub fn begin_response_copy(
    map: &WordMap,
    terms: &WireTerms,
    seat: &mut StoredSeat,
    copying: &mut CopyingServer,
    request: Entry,
    client: usize,
    server: usize,
    elements: Option<u64>,
    words: &[u64],
    number: u64,
    stops: &mut Vec<Stop>,
)
    requires rests { is_busy copying.old.local ≡ false }
    requires seat { is_busy seat.old.seat.local ≡ false }
    requires way { IsWayAt map.now (Responses client server request.lane) }
    requires own { state_in request ≡ way_at map.now (Responses client server request.lane) }
    requires plan { IsWirePlan map.now terms.now }
    requires list { most_ways map.now ≤ vec_capacity stops.old }
    requires whole { (k : ℕ) → elements ≡ Some k
        → length words.now ≡ k * element_words map.now server }
    requires rooms { HasRoomToCopy map.now copying.old.lends }
    ensures begun { (p : Setting) → IsSettingWith map.now terms.now p
        → number ≡ next_handle p seat.old.seat
        → placed seat.new.seat copying.new.local
        ≡ copies_response p seat.old.seat request elements words.now }
    ensures aimed { (p : Setting) → IsSettingWith map.now terms.now p
        → number ≡ next_handle p seat.old.seat
        → TellsOfSlot p copying.new.local
        → responses.IsAimed p seat.new.seat copying.new }
    ensures may { (x : Placed) → MayLend x number (number_at map.now server)
        → MayBeMade x copying.new.at copying.new.lends.lending.order copying.new.sends.loan }
    ensures leaves { LeavesSeat seat.old seat.new }
    ensures list { vec_capacity stops.new ≡ vec_capacity stops.old }
    ensures rooms { HasSameRooms copying.old.lends copying.new.lends }
{
    // only what this promises is wanted
    let _plan = map.plan();
    let told = response_terms(map, terms, client, server, request.lane);
    let room = list_response_returns(map, seat, server, stops);
    let lender = make_lender(map, terms, server, room);
    let places = payload_places(map, server);
    copying.begin(
        seat, &lender, places, request, told, number, elements, words, stops,
    )
}
