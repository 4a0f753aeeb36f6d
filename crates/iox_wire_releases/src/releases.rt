//! How the release of a handle begins.
ghost use Rattle.std.specs.Prelude.{◌≡◌, ◌<◌, ◌≤◌, true, vec_capacity};
ghost use Rattle.iox_model.specs.declared.call.Call.TheVariants.{Release};
ghost use Rattle.iox_model.specs.declared.call.WireCall.TheVariants.{Port};
ghost use Rattle.iox_model.specs.declared.kind.Kind.TheVariants.{ActiveRequest, PendingResponse};
ghost use Rattle.iox_model.specs.declared.kind.Kind.TheVariants.{Response};
ghost use Rattle.iox_model.specs.Maps.{has_number};
ghost use Rattle.iox_word_map.specs.WordMaps.{IsResponseWay};
ghost use Rattle.iox_word_places.specs.Plans.{most_ways, sizes_of};
ghost use Rattle.iox_wire_locals.specs.Begins.{begin};
ghost use Rattle.iox_wire_locals.specs.ReceiveCourses.{releasing};
ghost use Rattle.iox_wire_locals.specs.Tables.{Setting, state_in, way_in};
ghost use Rattle.iox_wire_layouts.specs.PlansOf.{IsSettingOf};
ghost use Rattle.iox_wire_seats.specs.Aims.{HasSameRooms, IsAimed};
ghost use Rattle.iox_wire_seats.specs.Desks.{MayGiveUp};
ghost use Rattle.iox_wire_releases.specs.Released.{MayRelease, MayReleaseNumber};

use crate::places::{client_place, place_of, server_place};
use crate::states::list_states;
use iox_model::kind::Kind;
use iox_wire_locals::{CallRefusal, Entry};
use iox_wire_seats::{Stop, StoredSeat};
use iox_word_places::WordMap;

/// Begins the release of what that number names. That of a port is refused, and so is that of
/// nothing. Only that of a pending response lists anything in `stops`, which is of no use later.
pub fn begin_release(map: &WordMap, seat: &mut StoredSeat, number: u64, stops: &mut Vec<Stop>)
    requires home { MayReleaseNumber map.now number seat.old.seat }
    requires list { most_ways map.now ≤ vec_capacity stops.old }
    requires rooms { most_ways map.now ≤ seat.old.ways_room }
    ensures begun { (p : Setting) → IsSettingOf map.now p → seat.new.seat
        ≡ begin p seat.old.seat (Port (Release number)) }
    ensures aimed { (p : Setting) → IsSettingOf map.now p → IsAimed p seat.new }
    ensures accesses { seat.new.seat.accesses ≡ seat.old.seat.accesses }
    ensures room { seat.new.room ≡ seat.old.room }
    ensures rooms { HasSameRooms seat.old seat.new }
    ensures list { vec_capacity stops.new ≡ vec_capacity stops.old }
{
    if place_of(map, number).is_some() {
        seat.refuse(CallRefusal::WrongKind);
        return;
    }
    match seat.entry(number) {
        Some(entry) => release(map, seat, entry, stops),
        None => seat.refuse(CallRefusal::UnknownNumber),
    }
}

/// Begins the release of a handle.
fn release(map: &WordMap, seat: &mut StoredSeat, entry: Entry, stops: &mut Vec<Stop>)
    requires home { MayRelease map.now entry seat.old.seat.desks }
    requires list { most_ways map.now ≤ vec_capacity stops.old }
    requires rooms { most_ways map.now ≤ seat.old.ways_room }
    ensures begun { (p : Setting) → IsSettingOf map.now p → seat.new.seat
        ≡ releasing p seat.old.seat entry }
    ensures aimed { (p : Setting) → IsSettingOf map.now p → IsAimed p seat.new }
    ensures accesses { seat.new.seat.accesses ≡ seat.old.seat.accesses }
    ensures room { seat.new.room ≡ seat.old.room }
    ensures rooms { HasSameRooms seat.old seat.new }
    ensures list { vec_capacity stops.new ≡ vec_capacity stops.old }
{
    match entry.kind {
        Kind::Response => release_response(map, seat, entry),
        Kind::ActiveRequest => release_request(map, seat, entry),
        Kind::PendingResponse => release_pending(map, seat, entry, stops),
        _ => seat.release_loan(entry),
    }
}

/// Begins the release of a pending response: it closes its request state with each server that the
/// node did not forget.
fn release_pending(map: &WordMap, seat: &mut StoredSeat, pending: Entry, stops: &mut Vec<Stop>)
    requires kind { pending.kind ≡ PendingResponse }
    requires client { has_number pending.port (sizes_of map.now).clients ≡ true }
    requires lane { pending.lane < (sizes_of map.now).lanes pending.port }
    requires held { MayGiveUp pending seat.old.seat.desks }
    requires list { most_ways map.now ≤ vec_capacity stops.old }
    requires rooms { most_ways map.now ≤ seat.old.ways_room }
    ensures begun { (p : Setting) → IsSettingOf map.now p → seat.new.seat
        ≡ releasing p seat.old.seat pending }
    ensures aimed { (p : Setting) → IsSettingOf map.now p → IsAimed p seat.new }
    ensures accesses { seat.new.seat.accesses ≡ seat.old.seat.accesses }
    ensures room { seat.new.room ≡ seat.old.room }
    ensures rooms { HasSameRooms seat.old seat.new }
    ensures list { vec_capacity stops.new ≡ vec_capacity stops.old }
{
    let client = client_place(map, pending.port, pending.lane);
    list_states(map, seat, client, pending.lane, stops);
    seat.release_pending(pending, stops)
}

/// Begins the release of a response: it is given back to its server.
fn release_response(map: &WordMap, seat: &mut StoredSeat, response: Entry)
    requires kind { response.kind ≡ Response }
    requires home { IsResponseWay (sizes_of map.now) (way_in response) }
    ensures begun { (p : Setting) → IsSettingOf map.now p
        → seat.new.seat ≡ releasing p seat.old.seat response }
    ensures aimed { (p : Setting) → IsSettingOf map.now p → IsAimed p seat.new }
    ensures accesses { seat.new.seat.accesses ≡ seat.old.seat.accesses }
    ensures room { seat.new.room ≡ seat.old.room }
    ensures rooms { HasSameRooms seat.old seat.new }
{
    let client = client_place(map, response.port, response.lane);
    let server = server_place(map, response.sender);
    seat.release_response(map, response, client, server);
}

/// Begins the release of an active request: it is given back to its client, and its state closed.
fn release_request(map: &WordMap, seat: &mut StoredSeat, request: Entry)
    requires kind { request.kind ≡ ActiveRequest }
    requires home { IsResponseWay (sizes_of map.now) (state_in request) }
    ensures begun { (p : Setting) → IsSettingOf map.now p
        → seat.new.seat ≡ releasing p seat.old.seat request }
    ensures aimed { (p : Setting) → IsSettingOf map.now p → IsAimed p seat.new }
    ensures accesses { seat.new.seat.accesses ≡ seat.old.seat.accesses }
    ensures room { seat.new.room ≡ seat.old.room }
    ensures rooms { HasSameRooms seat.old seat.new }
{
    let client = client_place(map, request.client, request.lane);
    let server = server_place(map, request.port);
    seat.release_request(map, request, client, server);
}
