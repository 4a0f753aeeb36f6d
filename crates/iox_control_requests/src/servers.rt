//! Servers that are full.
ghost use Rattle.std.specs.Prelude.{◌≡◌, ◌<◌, Some, [], length, ℕ};
ghost use Rattle.std.specs.List.{list_any};
ghost use Rattle.iox_tables.specs.HubStates.Steps.{full_in};
ghost use Rattle.iox_tables.specs.HubStates.Ways.{lane_on};
ghost use Rattle.iox_control_requests.specs.Servers.{fails_on, request_ways, server_in};
ghost use Rattle.iox_model.specs.Messages.{request_way};

use crate::backpressure::WhenFull;
use iox_control::Control;
use iox_model::way::Way;

/// Whether the server in that place is full, and a send to it fails then.
#[inline]
fn is_refused_by<B: WhenFull>(
    control: &Control,
    place: usize,
    client: u64,
    backpressure: &B,
) -> bool
    requires { place < length control.now.tables.ports }
    ensures { (server : ℕ) → server_in control.now.tables.ports place ≡ Some server
        → result ≡ fails_on (B.fails backpressure.now) control.now.tables.ports
        (request_way client server) }
{
    if control.ports().is_full_at(place, client, 0) {
        return backpressure.fails(Way {
            sender: client,
            receiver: control.ports().known_at(place).number,
            lane: 0,
        });
    }
    false
}

/// Whether a server is full at which a send of the client fails.
pub fn is_refused<B: WhenFull>(control: &Control, client: u64, backpressure: &B) -> bool
    ensures { result ≡ list_any (B.fails backpressure.now)
        (full_in (lane_on control.now.tables.ports)
        (request_ways client control.now.tables.ports) []) }
{
    for rank in 0..control.ports().servers_len() {
        let place = control.ports().server(rank);
        if is_refused_by(control, place, client, backpressure) {
            return true;
        }
    }
    false
}
