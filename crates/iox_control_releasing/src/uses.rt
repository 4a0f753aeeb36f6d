//! Callers of releases, proved only from the clauses.
ghost use Rattle.iox_tables.specs.HubStates.States.{Given, state_shown};
ghost use Rattle.iox_model.specs.WholeCalls.{IsWholeCall};
ghost use Rattle.iox_model.specs.declared.call.Call.TheVariants.{Release};
ghost use Rattle.iox_model.specs.declared.reply.Reply.TheVariants.{Done};
ghost use Rattle.iox_control.specs.Controls.{IsControl};
ghost use Rattle.iox_control_releasing.specs.Goings.{IsTidy};
ghost use Rattle.iox_control_releasing.specs.Named.{IsHeldPort};

use crate::disconnect::disconnect_if_unused;
use crate::handle::release;
use crate::port_value::release_port;
use iox_control::Control;
use iox_model::kind::Kind;

/// The tables are in order after a release, so a port may be asked whether it goes.
pub fn releases_and_looks_again(
    control: &mut Control,
    node: u64,
    number: u64,
    kind: Kind,
    port: u64,
)
    requires order { IsControl control.old }
    ensures { IsControl control.new }
{
    release(control, node, number, kind, 0);
    disconnect_if_unused(control, port, 0);
}

/// The release of a port's own value is one call of the machine.
pub fn releases_a_port(control: &mut Control, node: u64, port: u64)
    requires port { IsHeldPort control.old.tables node port }
    requires order { IsControl control.old }
    ensures { (x : Given) → IsWholeCall (state_shown x control.old.tables) node
        (Release port) Done (state_shown x control.new.tables) }
{
    release_port(control, node, port);
}

/// No pool is left after releases, where none was left before.
pub fn releases_and_is_tidy(control: &mut Control, node: u64, number: u64, kind: Kind, port: u64)
    requires order { IsControl control.old }
    requires tidy { IsTidy control.old.tables }
    ensures { IsTidy control.new.tables }
{
    release(control, node, number, kind, 0);
    disconnect_if_unused(control, port, 0);
}
