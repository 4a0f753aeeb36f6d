//! Where a port stands in a plan.
ghost use Rattle.std.specs.Prelude.{◌≡◌, ◌<◌, ◌==◌, IfSome, length};
ghost use Rattle.std.specs.List.{position};
ghost use Rattle.iox_wire_stops.specs.Plans.{IsSlotAt, number_at};
ghost use Rattle.iox_wire_handle_calls.specs.PlacedHandles.{HasSlot};

use iox_wire_stops::{PlanPort, WirePlan};

/// Where the port of that number stands among these.
#[inline]
fn place_of(ports: &[PlanPort], number: u64) -> Option<usize>
    ensures first { result ≡ position (λ q. q.number == number) ports.now }
    ensures within { IfSome result (λ place. place < length ports.now) }
{
    ports.iter().position(|port| port.number == number)
}

/// Where the port of that number stands in the plan's list, which has that slot.
#[inline]
pub fn port_with_slot(plan: &WirePlan, number: u64, slot: u64) -> usize
    requires { HasSlot plan.now number slot }
    ensures number { number_at plan.now result ≡ number }
    ensures slot { IsSlotAt plan.now result slot }
{
    match place_of(&plan.ports, number) {
        Some(index) => index,
        None => unreachable!(),
    }
}
