//! Where the requests of a client return to it.
ghost use Rattle.std.specs.Prelude.{◌≡◌, ◌<◌, ◌≤◌, IfSome, length, option_map, vec_capacity};
ghost use Rattle.iox_model.specs.declared.kind.Role.TheVariants.{Client, Server};
ghost use Rattle.iox_model.specs.Loans.{request_ways};
ghost use Rattle.iox_steps.specs.declared.site.QueueKind.TheVariants.{Index};
ghost use Rattle.iox_wire_messages.specs.WayIndex.TheVariants.{Requests};
ghost use Rattle.iox_wire_messages.specs.Plans.{IsPortAt, IsWayAt, most_ways, number_at, returning_room};
ghost use Rattle.iox_wire_messages.specs.PlansOf.{IsSettingOf};
ghost use Rattle.iox_wire_copies.specs.Lenders.{AreReturning};
ghost use Rattle.iox_wire_messages.specs.Known.{known};
ghost use Rattle.iox_wire_messages.specs.Tables.{Setting};
ghost use Rattle.iox_wire_messages.specs.Stop.{Stop};
ghost use Rattle.iox_wire_messages.specs.Aims.{QueuesInMemory};
ghost use Rattle.iox_wire_messages.specs.Seats.{ways_of};
ghost use Rattle.iox_wire_ways.specs.Visits.{is_other, made_at, returning_stop};

use iox_model::kind::Role;
use iox_model::way::Way;
use iox_wire_messages::{PlanPort, Stop, StoredSeat, WayIndex, WordMap};

/// A way on which messages return, and for how many there is room.
#[derive(Clone, Copy)]
struct Return {
    stop: Stop,
    room: usize,
}

/// Whether a port is a server that the node did not forget.
pub(crate) fn is_server_left(seat: &StoredSeat, port: PlanPort) -> bool
    ensures { result ≡ is_other Server seat.now.seat.forgot port }
{
    matches!(port.role, Role::Server) && !seat.has_forgotten(port.node)
}

/// Where a client's requests return from the server at an index.
fn return_from(map: &WordMap, client: usize, server: usize) -> Return
    requires { IsWayAt map.now (Requests client server) }
    ensures stop { result.stop ≡ returning_stop map.now client server }
    ensures room { result.room ≡ returning_room map.now.limits Client }
{
    let ports = &map.plan().ports;
    let way = Way {
        sender: ports[client].number,
        receiver: ports[server].number,
        lane: 0,
    };
    let site = map.returning_queue(WayIndex::Requests { client, server });
    Return {
        stop: Stop {
            way,
            place: site.base,
        },
        room: site.capacity,
    }
}

/// It, if that is a server that the node did not forget.
fn return_at(map: &WordMap, seat: &StoredSeat, client: usize, index: usize) -> Option<Return>
    requires client { IsPortAt map.now Client client }
    requires within { index < length map.now.ports.items }
    ensures stop { option_map (λ r. r.stop) result ≡ made_at Stop map.now
        (is_other Server seat.now.seat.forgot) (returning_stop map.now client) index }
    ensures room { IfSome result (λ r. r.room ≡ returning_room map.now.limits Client) }
{
    if is_server_left(seat, map.plan().ports[index]) {
        return Some(return_from(map, client, index));
    }
    None
}

/// Lists where the requests of the client at an index return, from each server that the node did
/// not forget, and says how many may return on each of these ways. What was listed before is lost.
/// There is room for them.
pub fn list_request_returns(
    map: &WordMap,
    seat: &StoredSeat,
    client: usize,
    stops: &mut Vec<Stop>,
) -> usize
    requires client { IsPortAt map.now Client client }
    requires list { most_ways map.now ≤ vec_capacity stops.old }
    ensures ways { (p : Setting) → IsSettingOf map.now p → ways_of stops.new.items
        ≡ request_ways (known p seat.now.seat)
        (p.port (number_at map.now client)).node (number_at map.now client) }
    ensures places { (p : Setting) → IsSettingOf map.now p
        → AreReturning p result stops.new.items }
    ensures within { QueuesInMemory Index result stops.new.items }
    ensures few { length stops.new.items ≤ most_ways map.now }
    ensures list { vec_capacity stops.new ≡ vec_capacity stops.old }
{
    // only what this promises is wanted
    let _total = map.total();
    let mut room = 0;
    stops.clear();
    for index in 0..map.plan().ports.len() {
        if let Some(back) = return_at(map, seat, client, index) {
            room = back.room;
            stops.push_reserved(back.stop);
        }
    }
    room
}
