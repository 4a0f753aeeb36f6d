//! Whether sends of a port fail where a receiver is full.
ghost use Rattle.std.specs.Prelude.{◌≡◌, None};
ghost use Rattle.iox_model.specs.Requests.{fails_at};
ghost use Rattle.iox_model.specs.declared.way.Way.{Way};
ghost use Rattle.iox_tables.specs.HubStates.States.{Given, fixed_of};

use iox_control::Control;
use iox_types::backpressure::BackpressureStrategy;

/// Whether a send of the port fails where a receiver is full, by its strategy: so it is unless it
/// has a handler.
pub fn fails_when_full(control: &Control, port: u64) -> bool
    ensures { (x : Given) → x.handler port ≡ None → (w : Way) → w.sender ≡ port
        → fails_at (fixed_of x control.now.tables) w ≡ result }
{
    let Some(info) = control.ports().find(port) else {
        return false;
    };
    match info.strategy {
        BackpressureStrategy::DiscardData => false,
        BackpressureStrategy::RetryUntilDelivered => true,
    }
}
