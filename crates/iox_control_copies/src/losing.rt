//! The copy of a response that nobody gets.
ghost use Rattle.std.specs.Prelude.{◌≡◌, ◌+◌, ◌-◌, ◌<◌, ◌^◌};
ghost use Rattle.std.specs.Option.{option_map_or};
ghost use Rattle.iox_tables.specs.HubStates.Tables.{port_in};
ghost use Rattle.iox_control.specs.Controls.{with_tables};
ghost use Rattle.iox_control_copies.specs.Answers.{with_copy_lost};

use iox_control::Control;

/// Counts a copy of the port that nobody gets: its loan, and its send unless that fails. The port
/// is looked for at the hint first. A call of its own, so that the other way is short.
#[cold]
#[inline(never)]
pub fn lose(control: &mut Control, port: u64, at: usize, fails: bool)
    requires loans { option_map_or (λ p. p.loans) (port_in control.old.tables.ports port) 0
        < 2 ^ 64 - 1 }
    requires calls { control.old.tables.calls + 2 < 2 ^ 64 }
    ensures { control.new
        ≡ with_tables control.old (with_copy_lost fails control.old.tables port) }
{
    control.count_loan(port, at);
    control.count_call();
    if !fails {
        control.count_call();
    }
}
