//! The events that a wire records.
ghost use Rattle.std.specs.Prelude.{◌≡◌, ◌+◌, ◌<◌, ◌≤◌, ◌++◌, ◌==◌, IfSome, length, map, position};
ghost use Rattle.std.specs.Prelude.{vec_capacity, vec_len};
ghost use Rattle.iox_wire_weaves.specs.Events.{with_serials};
ghost use Rattle.iox_wire_weaves.specs.Owners.{serial_of};
ghost use Rattle.iox_wire_weaves.specs.Steps.{recorded};

use crate::counts::node_of;
use crate::member::Member;
use iox_model::event::Event;
use iox_wire_weaves::WordMap;

/// A moment that a node made. Messages are named by their serials.
#[derive(Clone, Copy, Debug, PartialEq, Eq)]
pub struct WireEvent {
    /// The number of the node.
    pub node: u64,
    /// What it changed or saw.
    pub event: Event,
}

/// Where the node of that number stands among these.
pub(crate) fn place_of(members: &[Member], node: u64) -> Option<usize>
    ensures first { result ≡ position (λ x. x.number == node) members.now }
    ensures within { IfSome result (λ place. place < length members.now) }
{
    members.iter().position(|member| member.number() == node)
}

/// The serial that the desk of the port records of the slot, at the node that the plan gives it.
fn serial(places: &WordMap, members: &[Member], port: u64, slot: u64) -> u64
    ensures { result ≡ serial_of places.now members.now port slot }
{
    let Some(node) = node_of(places, port) else {
        return 0;
    };
    let Some(place) = place_of(members, node) else {
        return 0;
    };
    members[place].serial(port, slot)
}

/// The event with serials in place of slots.
fn named(places: &WordMap, members: &[Member], event: Event) -> Event
    ensures { result ≡ with_serials (serial_of places.now members.now) event }
{
    match event {
        Event::Deliver { way, serial: slot } => Event::Deliver {
            way,
            serial: serial(places, members, way.sender, slot),
        },
        Event::Take { way, serial: slot } => Event::Take {
            way,
            serial: serial(places, members, way.sender, slot),
        },
        Event::GiveBack { way, serial: slot } => Event::GiveBack {
            way,
            serial: serial(places, members, way.sender, slot),
        },
        Event::GetBack { way, serial: slot } => Event::GetBack {
            way,
            serial: serial(places, members, way.sender, slot),
        },
        other => other,
    }
}

/// Records that event of the node, if it is one, behind the others; there is room for it. It names
/// a message by its slot.
#[inline]
pub(crate) fn note(
    places: &WordMap,
    members: &[Member],
    node: u64,
    event: Option<Event>,
    events: &mut Vec<WireEvent>,
)
    requires { vec_len events.old < vec_capacity events.old }
    ensures noted { map (λ e. (e.node, e.event)) events.new.items
        ≡ map (λ e. (e.node, e.event)) events.old.items
        ++ recorded places.now members.now node event }
    ensures few { vec_len events.new ≤ vec_len events.old + 1 }
    ensures capacity { vec_capacity events.new ≡ vec_capacity events.old }
{
    if let Some(event) = event {
        events.push_reserved(WireEvent {
            node,
            event: named(places, members, event),
        });
    }
}
