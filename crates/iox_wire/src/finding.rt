//! Which port has a number.
ghost use Rattle.std.specs.Prelude.{◌≡◌, ◌<◌, ◌==◌, IfSome, None, length, position};
ghost use Rattle.iox_wire_weaves.specs.Plans.{number_at, port_of};

use iox_wire_weaves::{PlanPort, WordMap};

/// Where the port of that number stands in a list, if there is one.
fn place_in(ports: &[PlanPort], number: u64) -> Option<usize>
    ensures { result ≡ position (λ p. p.number == number) ports.now }
{
    ports.iter().position(|port| port.number == number)
}

/// Where the port of that number stands in the plan's list, if there is one.
pub(crate) fn find_port(map: &WordMap, number: u64) -> Option<usize>
    ensures within { IfSome result (λ place. place < length map.now.ports.items) }
    ensures there { IfSome result (λ place. number_at map.now place ≡ number) }
    ensures none { result ≡ None → port_of map.now number ≡ None }
{
    place_in(&map.plan().ports, number)
}
