//! The request states at which a handle looks.
ghost use Rattle.std.specs.Prelude.{◌≡◌, ◌==◌, ◌<◌, ◌≤◌, filter, length, map as each, true};
ghost use Rattle.std.specs.Prelude.{vec_capacity};
ghost use Rattle.iox_model.specs.declared.kind.Role.TheVariants.{Client, Server};
ghost use Rattle.iox_model.specs.Messages.{response_way};
ghost use Rattle.iox_model.specs.Peers.{others};
ghost use Rattle.iox_word_map.specs.WordMaps.{IsResponseWay};
ghost use Rattle.iox_wire_ways.specs.WayIndex.TheVariants.{Responses};
ghost use Rattle.iox_wire_ways.specs.Plans.{IsPortAt, IsWayAt, most_ways, number_at, sizes_of};
ghost use Rattle.iox_wire_ways.specs.Known.{known};
ghost use Rattle.iox_wire_ways.specs.ReceiveCourses.{states_for};
ghost use Rattle.iox_wire_ways.specs.Tables.{Setting, state_in};
ghost use Rattle.iox_wire_ways.specs.PlansOf.{IsSettingOf};
ghost use Rattle.iox_wire_releases.specs.StatesOf.{state_stop};
ghost use Rattle.iox_wire_ways.specs.Stop.{Stop};
ghost use Rattle.iox_wire_ways.specs.Aims.{AreStates};
ghost use Rattle.iox_wire_ways.specs.Seats.{ways_of};
ghost use Rattle.iox_wire_stops.specs.OwnStates.{HasStates, has_states, is_client_left};
ghost use Rattle.iox_wire_ways.specs.Visits.{made_at};

use iox_model::kind::{Kind, Role};
use iox_model::way::Way;
use iox_wire_releases::{client_place, list_states, server_place};
use iox_wire_ways::{Entry, PlanPort, Stop, StoredSeat, WordMap};

/// Whether a port is the client of that number, and the node did not forget it.
fn is_left(seat: &StoredSeat, client: u64, port: PlanPort) -> bool
    ensures { result ≡ is_client_left client seat.now.seat.forgot port }
{
    matches!(port.role, Role::Client) && !seat.has_forgotten(port.node) && port.number == client
}

/// Where the request state of a server stands with a lane of the client at an index.
fn state_with(map: &WordMap, server: usize, lane: u64, client: usize) -> Stop
    requires { IsWayAt map.now (Responses client server lane) }
    ensures { result ≡ state_stop map.now client lane server }
{
    let ports = &map.plan().ports;
    let way = Way {
        sender: ports[server].number,
        receiver: ports[client].number,
        lane,
    };
    let place = map.state(client, server, lane as usize);
    Stop { way, place }
}

/// Where the request state of a received request stands with the client at an index, if that is its
/// client and the node did not forget it.
fn state_at(
    map: &WordMap,
    seat: &StoredSeat,
    request: Entry,
    server: usize,
    index: usize,
) -> Option<Stop>
    requires home { IsResponseWay (sizes_of map.now) (state_in request) }
    requires server { IsPortAt map.now Server server }
    requires within { index < length map.now.ports.items }
    ensures { result ≡ made_at Stop map.now (is_client_left request.client seat.now.seat.forgot)
        (λ client. state_stop map.now client request.lane server) index }
{
    if is_left(seat, request.client, map.plan().ports[index]) {
        return Some(state_with(map, server, request.lane, index));
    }
    None
}

/// Lists where the request state of a received request stands, if the node did not forget its
/// client. What was listed before is lost. There is room for it.
fn list_own_state(
    map: &WordMap,
    seat: &StoredSeat,
    request: Entry,
    server: usize,
    stops: &mut Vec<Stop>,
)
    requires home { IsResponseWay (sizes_of map.now) (state_in request) }
    requires server { IsPortAt map.now Server server }
    requires list { most_ways map.now ≤ vec_capacity stops.old }
    ensures ways { (p : Setting) → IsSettingOf map.now p → ways_of stops.new.items
        ≡ each (λ client. response_way client request.lane (number_at map.now server))
        (filter (λ client. client == request.client)
        (others (known p seat.now.seat) seat.now.seat.node Client)) }
    ensures places { (p : Setting) → IsSettingOf map.now p → AreStates p stops.new.items }
    ensures few { length stops.new.items ≤ most_ways map.now }
    ensures list { vec_capacity stops.new ≡ vec_capacity stops.old }
{
    stops.clear();
    for index in 0..map.plan().ports.len() {
        if let Some(stop) = state_at(map, seat, request, server, index) {
            stops.push_reserved(stop);
        }
    }
}

/// Lists where the request states stand at which a handle looks: a pending response at those with
/// all servers that its node did not forget, an active request at its own. What was listed
/// before is lost. There is room for them.
pub fn list_states_of(map: &WordMap, seat: &StoredSeat, handle: Entry, stops: &mut Vec<Stop>)
    requires states { HasStates map.now handle }
    requires kind { has_states handle.kind ≡ true }
    requires list { most_ways map.now ≤ vec_capacity stops.old }
    ensures ways { (p : Setting) → IsSettingOf map.now p
        → ways_of stops.new.items ≡ states_for p seat.now.seat handle }
    ensures places { (p : Setting) → IsSettingOf map.now p → AreStates p stops.new.items }
    ensures few { length stops.new.items ≤ most_ways map.now }
    ensures list { vec_capacity stops.new ≡ vec_capacity stops.old }
{
    match handle.kind {
        Kind::PendingResponse => {
            let client = client_place(map, handle.port, handle.lane);
            list_states(map, seat, client, handle.lane, stops);
        }
        Kind::ActiveRequest => {
            let server = server_place(map, handle.port);
            list_own_state(map, seat, handle, server, stops);
        }
        _ => unreachable!(),
    }
}
