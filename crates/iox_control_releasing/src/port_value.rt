//! The release of a port's own value.
ghost use Rattle.std.specs.Prelude.{◌≡◌};
ghost use Rattle.iox_tables.specs.HubStates.Releases.{with_value_released};
ghost use Rattle.iox_tables.specs.HubStates.States.{Given, state_shown};
ghost use Rattle.iox_tables.specs.HubMaking.Disconnections.{with_released};
ghost use Rattle.iox_model.specs.WholeCalls.{IsWholeCall};
ghost use Rattle.iox_model.specs.declared.call.Call.TheVariants.{Release};
ghost use Rattle.iox_model.specs.declared.reply.Reply.TheVariants.{Done};
ghost use Rattle.iox_control.specs.Controls.{IsControl};
ghost use Rattle.iox_control_releasing.specs.Goings.{KeptPools, StaysTidy};
ghost use Rattle.iox_control_releasing.specs.Named.{IsHeldPort};

use crate::disconnect::disconnect_if_unused;
use iox_control::Control;

/// Releases the own value of that port. The port stays while it has handles, and goes if nothing of
/// it is left.
pub fn release_port(control: &mut Control, node: u64, port: u64)
    requires port { IsHeldPort control.old.tables node port }
    requires order { IsControl control.old }
    ensures left { control.new.tables
        ≡ record (with_released (with_value_released control.old.tables port) port) {
          pools = control.new.tables.pools;
        } }
    ensures order { IsControl control.new }
    ensures pools { KeptPools control.old.tables.pools control.new.tables.pools }
    ensures tidy { StaysTidy control.old.tables control.new.tables }
    ensures whole { (x : Given) → IsWholeCall (state_shown x control.old.tables) node
        (Release port) Done (state_shown x control.new.tables) }
{
    control.release_value(port);
    disconnect_if_unused(control, port, 0);
}
