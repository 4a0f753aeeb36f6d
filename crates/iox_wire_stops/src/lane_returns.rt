//! Where the responses of a server return to it.
ghost use Rattle.std.specs.Prelude.{◌≡◌, ◌+◌, ◌<◌, ◌≤◌, ◌++◌, length, vec_capacity, vec_len};
ghost use Rattle.iox_model.specs.declared.kind.Role.TheVariants.{Client, Server};
ghost use Rattle.iox_model.specs.Loans.{response_ways};
ghost use Rattle.iox_steps.specs.declared.site.QueueKind.TheVariants.{Index};
ghost use Rattle.iox_wire_ways.specs.WayIndex.TheVariants.{Responses};
ghost use Rattle.iox_wire_ways.specs.Plans.{IsPortAt, IsWayAt, most_ways, number_at};
ghost use Rattle.iox_wire_ways.specs.Plans.{returning_room};
ghost use Rattle.iox_wire_ways.specs.PlansOf.{IsSettingOf};
ghost use Rattle.iox_wire_ways.specs.Lenders.{AreReturning};
ghost use Rattle.iox_wire_ways.specs.Known.{known};
ghost use Rattle.iox_wire_ways.specs.Tables.{Setting};
ghost use Rattle.iox_wire_ways.specs.Aims.{QueuesInMemory};
ghost use Rattle.iox_wire_ways.specs.Seats.{ways_of};
ghost use Rattle.iox_wire_stops.specs.LaneReturns.{client_stops, lane_stop, stops_at};
ghost use Rattle.iox_wire_ways.specs.Visits.{is_other, pool_of};

use iox_model::kind::Role;
use iox_model::way::Way;
use iox_wire_ways::{PlanPort, Stop, StoredSeat, WayIndex, WordMap};

/// A way on which messages return, and for how many there is room.
#[derive(Clone, Copy)]
struct LaneReturn {
    stop: Stop,
    room: usize,
}

/// Whether a port is a client that the node did not forget.
fn is_client_left(seat: &StoredSeat, port: PlanPort) -> bool
    ensures { result ≡ is_other Client seat.now.seat.forgot port }
{
    matches!(port.role, Role::Client) && !seat.has_forgotten(port.node)
}

/// Where a server's responses return on a lane of a client.
fn return_on(map: &WordMap, server: usize, client: usize, lane: usize) -> LaneReturn
    requires { IsWayAt map.now (Responses client server lane) }
    ensures stop { result.stop ≡ lane_stop map.now server client lane }
    ensures room { result.room ≡ returning_room map.now.limits Server }
{
    let ports = &map.plan().ports;
    let way = Way {
        sender: ports[server].number,
        receiver: ports[client].number,
        lane: lane as u64,
    };
    let site = map.returning_queue(WayIndex::Responses {
        client,
        server,
        lane,
    });
    LaneReturn {
        stop: Stop {
            way,
            place: site.base,
        },
        room: site.capacity,
    }
}

/// Lists in addition where the responses of the server at an index return on the lanes of the
/// client at another. It is told how many may return on the ways that are listed, and says so.
/// There is room for them.
fn list_lanes(
    map: &WordMap,
    server: usize,
    client: usize,
    room: usize,
    stops: &mut Vec<Stop>,
) -> usize
    requires client { IsPortAt map.now Client client }
    requires server { IsPortAt map.now Server server }
    requires list { vec_len stops.old + pool_of map.now (number_at map.now client)
        ≤ vec_capacity stops.old }
    ensures stops { stops.new.items ≡ stops.old.items ++ client_stops map.now server client }
    ensures room { (0 < length stops.old.items → room ≡ returning_room map.now.limits Server)
        → 0 < length stops.new.items → result ≡ returning_room map.now.limits Server }
    ensures many { vec_len stops.new
        ≡ vec_len stops.old + pool_of map.now (number_at map.now client) }
    ensures list { vec_capacity stops.new ≡ vec_capacity stops.old }
{
    let mut told = room;
    for lane in 0..map.plan().ports[client].pool {
        let back = return_on(map, server, client, lane);
        told = back.room;
        stops.push_reserved(back.stop);
    }
    told
}

/// Does so if the client is one that the node did not forget, and the port there a client.
fn list_port(
    map: &WordMap,
    seat: &StoredSeat,
    server: usize,
    index: usize,
    room: usize,
    stops: &mut Vec<Stop>,
) -> usize
    requires server { IsPortAt map.now Server server }
    requires within { index < length map.now.ports.items }
    requires list { vec_len stops.old + pool_of map.now (number_at map.now index)
        ≤ vec_capacity stops.old }
    ensures stops { stops.new.items ≡ stops.old.items
        ++ stops_at map.now (is_other Client seat.now.seat.forgot)
        (client_stops map.now server) index }
    ensures room { (0 < length stops.old.items → room ≡ returning_room map.now.limits Server)
        → 0 < length stops.new.items → result ≡ returning_room map.now.limits Server }
    ensures many { vec_len stops.new
        ≤ vec_len stops.old + pool_of map.now (number_at map.now index) }
    ensures list { vec_capacity stops.new ≡ vec_capacity stops.old }
{
    if is_client_left(seat, map.plan().ports[index]) {
        return list_lanes(map, server, index, room, stops);
    }
    room
}

/// Lists where the responses of the server at an index return, on all lanes of all clients that the
/// node did not forget, and says how many may return on each of these ways. What was listed before
/// is lost. There is room for them.
pub fn list_response_returns(
    map: &WordMap,
    seat: &StoredSeat,
    server: usize,
    stops: &mut Vec<Stop>,
) -> usize
    requires server { IsPortAt map.now Server server }
    requires list { most_ways map.now ≤ vec_capacity stops.old }
    ensures ways { (p : Setting) → IsSettingOf map.now p → ways_of stops.new.items
        ≡ response_ways (known p seat.now.seat)
        (p.port (number_at map.now server)).node (number_at map.now server) }
    ensures places { (p : Setting) → IsSettingOf map.now p
        → AreReturning p result stops.new.items }
    ensures within { QueuesInMemory Index result stops.new.items }
    ensures few { length stops.new.items ≤ most_ways map.now }
    ensures list { vec_capacity stops.new ≡ vec_capacity stops.old }
{
    // only what this promises is wanted
    let _total = map.total();
    let mut room = 0;
    stops.clear();
    for index in 0..map.plan().ports.len() {
        room = list_port(map, seat, server, index, room, stops);
    }
    room
}
