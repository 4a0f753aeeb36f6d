//! Which port has a number.
ghost use Rattle.std.specs.Prelude.{◌≡◌, ◌<◌, IfSome, None, length};
ghost use Rattle.iox_wire_stops.specs.Plans.{number_at, port_of};

use iox_wire_stops::{WordMap, place_of};

/// Where the port of that number stands in the plan's list, if there is one.
pub fn find_port(map: &WordMap, number: u64) -> Option<usize>
    ensures within { IfSome result (λ place. place < length map.now.ports.items) }
    ensures there { IfSome result (λ place. number_at map.now place ≡ number) }
    ensures none { result ≡ None → port_of map.now number ≡ None }
{
    place_of(map, number)
}
