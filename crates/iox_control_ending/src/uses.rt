//! Callers of the end of a loan, proved only from the clauses.
ghost use Rattle.std.specs.Prelude.{◌<◌, ◌^◌};
ghost use Rattle.iox_control.specs.Controls.{IsControl};
ghost use Rattle.iox_control_ending.specs.Endings.{IsLoan};

use crate::{count, end_loan};
use iox_control::Control;

/// The tables are in order after the end of a loan, so the call may be counted.
pub fn ends_and_counts(control: &mut Control, node: u64, number: u64)
    requires loan { IsLoan control.old.tables node number }
    requires order { IsControl control.old }
    requires calls { control.old.tables.calls < 2 ^ 56 }
    ensures { IsControl control.new }
{
    count(control);
    end_loan(control, node, number, 0);
}
