//! The request states of a client's lane with all servers.
ghost use Rattle.std.specs.Prelude.{◌≡◌, ◌<◌, ◌≤◌, length, map as each, vec_capacity};
ghost use Rattle.iox_model.specs.declared.kind.Role.TheVariants.{Server};
ghost use Rattle.iox_model.specs.Messages.{response_way};
ghost use Rattle.iox_model.specs.Peers.{others};
ghost use Rattle.iox_word_places.specs.declared.way_index.WayIndex.TheVariants.{Responses};
ghost use Rattle.iox_word_places.specs.Plans.{IsLaneAt, IsPlan, IsWayAt, layout_of, number_at};
ghost use Rattle.iox_word_places.specs.Plans.{most_ways, way_at};
ghost use Rattle.iox_wire_words.specs.Programs.{state_place};
ghost use Rattle.iox_wire_locals.specs.Known.{known};
ghost use Rattle.iox_wire_locals.specs.Tables.{Setting};
ghost use Rattle.iox_wire_layouts.specs.PlansOf.{IsSettingOf};
ghost use Rattle.iox_wire_seats.specs.Aims.{AreStates};
ghost use Rattle.iox_wire_seats.specs.Seats.{ways_of};
ghost use Rattle.iox_wire_releases.specs.StatesOf.{is_left as stays, stop_with as stop_there};

use iox_model::kind::Role;
use iox_model::way::Way;
use iox_wire_seats::{Stop, StoredSeat};
use iox_word_places::{PlanPort, WordMap};

/// Whether a port is a server that the node did not forget.
fn is_left(seat: &StoredSeat, port: PlanPort) -> bool
    ensures { result ≡ stays seat.now.seat.forgot port }
{
    matches!(port.role, Role::Server) && !seat.has_forgotten(port.node)
}

/// Where the request state of a client's lane with the server at an index stands.
fn state_with(map: &WordMap, client: usize, lane: u64, index: usize) -> Stop
    requires { IsWayAt map.now (Responses client index lane) }
    ensures way { result.way ≡ way_at map.now (Responses client index lane) }
    ensures place { result.place
        ≡ state_place (layout_of map.now) (way_at map.now (Responses client index lane)) }
{
    let ports = &map.plan().ports;
    let way = Way {
        sender: ports[index].number,
        receiver: ports[client].number,
        lane,
    };
    let place = map.state(client, index, lane as usize);
    Stop { way, place }
}

/// It, if that is a server that the node did not forget.
fn stop_with(
    map: &WordMap,
    seat: &StoredSeat,
    client: usize,
    lane: u64,
    index: usize,
) -> Option<Stop>
    requires lane { IsLaneAt map.now client lane }
    requires within { index < length map.now.ports.items }
    ensures { result ≡ stop_there map.now seat.now.seat.forgot client lane index }
{
    if is_left(seat, map.plan().ports[index]) {
        return Some(state_with(map, client, lane, index));
    }
    None
}

/// Lists where the request states of a lane of the client at an index stand, one with each server
/// that the node did not forget. What was listed before is lost. There is room for them.
pub fn list_states(
    map: &WordMap,
    seat: &StoredSeat,
    client: usize,
    lane: u64,
    stops: &mut Vec<Stop>,
)
    requires lane { IsLaneAt map.now client lane }
    requires list { most_ways map.now ≤ vec_capacity stops.old }
    ensures ways { (p : Setting) → IsSettingOf map.now p → ways_of stops.new.items
        ≡ each (response_way (number_at map.now client) lane)
        (others (known p seat.now.seat) seat.now.seat.node Server) }
    ensures places { (p : Setting) → IsSettingOf map.now p → AreStates p stops.new.items }
    ensures few { length stops.new.items ≤ most_ways map.now }
    ensures list { vec_capacity stops.new ≡ vec_capacity stops.old }
{
    stops.clear();
    for index in 0..map.plan().ports.len() {
        if let Some(stop) = stop_with(map, seat, client, lane, index) {
            stops.push_reserved(stop);
        }
    }
}
