//! The end of a loan whose message goes to nobody.
#![tactic(auto)]

ghost use Rattle.std.specs.Prelude.{◌≡◌, ◌<◌, ◌^◌, Some};
ghost use Rattle.iox_tables.specs.HubStates.Ends.{with_call};
ghost use Rattle.iox_tables.specs.HubStates.Tables.{HandleState};
ghost use Rattle.iox_tables.specs.HubStates.Wirings.{handle_in};
ghost use Rattle.iox_control.specs.Controls.{IsControl, with_tables};
ghost use Rattle.iox_control_ending.specs.Endings.{IsLoan, with_ended};

use iox_control::Control;

pub mod uses;

/// Ends a loan: its handle is gone, and its slot has one holder less. The handle is looked for at
/// the hint first.
pub fn end_loan(control: &mut Control, node: u64, number: u64, hint: usize)
    requires loan { IsLoan control.old.tables node number }
    requires order { IsControl control.old }
    ensures ended { (h : HandleState) → handle_in control.old.tables.handles node number ≡ Some h
        → control.new ≡ with_ended control.old node number h }
    ensures order { IsControl control.new }
{
    let Some(entry) = control.remove_handle(node, number, hint) else {
        unreachable!();
    };
    control.let_go_of(entry.pool, entry.slot);
}

/// Counts one call more.
pub fn count(control: &mut Control)
    requires order { IsControl control.old }
    requires calls { control.old.tables.calls < 2 ^ 56 }
    ensures counted { control.new ≡ with_tables control.old (with_call control.old.tables) }
    ensures order { IsControl control.new }
{
    control.count_call();
}
