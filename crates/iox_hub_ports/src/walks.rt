//! Steps on the lanes and request states of ways, and walks over the ports of one role.
ghost use Rattle.std.specs.Prelude.{◌≡◌, ◌<◌, IfSome, false, length, true};
ghost use Rattle.std.specs.Vec.{vec_capacity};
ghost use Rattle.iox_model.specs.Maps.{AreDistinct};
ghost use Rattle.iox_model.specs.Settings.{same_role};
ghost use Rattle.iox_tables.specs.HubStates.Tables.{numbers_of};
ghost use Rattle.iox_tables.specs.HubStates.Ways.{with_states_on};
ghost use Rattle.iox_hub_ports.specs.InPlace.{roles_of};
ghost use Rattle.iox_hub_ports.specs.Ports.{if_role, is_at, on_way_at, place_in, state_ways};
ghost use Rattle.iox_hub_ports.specs.Ports.{with_lane_at, with_state_from};

use crate::port::Port;
use iox_model::kind::Role;
use iox_tables::steps::{LaneStep, StateStep};

/// The place of the port of that number.
pub fn place_of(ports: &[Port], number: u64) -> Option<usize>
    ensures first { result ≡ place_in ports.now number }
    ensures within { IfSome result (λ place. place < length ports.now) }
{
    ports.iter().position(|port| port.number() == number)
}

/// Whether the port of that number is in the place.
#[inline]
pub fn is_at(ports: &[Port], place: usize, number: u64) -> bool
    ensures { result ≡ is_at number ports.now place }
{
    place < ports.len() && ports[place].number() == number
}

/// Whether two roles are one.
#[inline]
pub fn is_same_role(role: Role, other: Role) -> bool
    ensures { result ≡ same_role role other }
{
    match role {
        Role::Client => match other {
            Role::Client => true,
            Role::Server => false,
        },
        Role::Server => match other {
            Role::Client => false,
            Role::Server => true,
        },
    }
}

// ---- one way

/// Takes a step on the lane of that number, from the sender to the port in that place.
#[inline]
pub fn on_lane_at<S: LaneStep>(
    ports: &mut Vec<Port>,
    place: usize,
    sender: u64,
    lane: usize,
    step: &S,
) -> S::Answer
    requires apart { AreDistinct (numbers_of ports.old.items) }
    ensures told { result
        ≡ on_way_at (S.told step.now) (S.none step.now) ports.old.items place sender lane }
    ensures changed { ports.new.items
        ≡ with_lane_at (S.changed step.now) ports.old.items place sender lane }
    ensures numbers { numbers_of ports.new.items ≡ numbers_of ports.old.items }
    ensures roles { roles_of ports.new.items ≡ roles_of ports.old.items }
    ensures capacity { vec_capacity ports.new ≡ vec_capacity ports.old }
{
    if place < ports.len() {
        return ports[place].on_lane(sender, lane, step);
    }
    step.nothing()
}

// ---- the ways to, or from, all ports of one role

/// Takes a step on one request state of the port, if it is of the role.
#[inline]
fn on_state_if<S: StateStep>(port: &mut Port, role: Role, sender: u64, lane: usize, step: &S)
    ensures { port.new
        ≡ if_role role (λ p. with_state_from (S.changed step.now) p sender lane) port.old }
{
    if is_same_role(port.role(), role) {
        port.on_state(sender, lane, step);
    }
}

/// Takes a step on the request state of that lane, from each port of the role to this receiver.
#[inline(always)]
pub fn on_each_state<S: StateStep>(
    ports: &mut Vec<Port>,
    role: Role,
    receiver: u64,
    lane: usize,
    step: &S,
)
    requires apart { AreDistinct (numbers_of ports.old.items) }
    ensures changed { ports.new.items
        ≡ with_states_on (S.changed step.now) ports.old.items
        (state_ways receiver lane role ports.old.items) }
    ensures numbers { numbers_of ports.new.items ≡ numbers_of ports.old.items }
    ensures roles { roles_of ports.new.items ≡ roles_of ports.old.items }
    ensures capacity { vec_capacity ports.new ≡ vec_capacity ports.old }
{
    for i in 0..ports.len() {
        on_state_if(&mut ports[i], role, receiver, lane, step);
    }
}
