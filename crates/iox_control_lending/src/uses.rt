//! Callers of loans and writes, proved only from the clauses.
ghost use Rattle.iox_tables.specs.HubLoans.Lenders.{IsClient};
ghost use Rattle.iox_control.specs.Controls.{IsControl};
ghost use Rattle.iox_control_lending.specs.Fills.{IsLoan};

use crate::{Asked, Lent, Written, fill, lend_request, write};
use iox_control::Control;

/// The tables are in order after a loan.
pub fn lends(control: &mut Control, node: u64, client: u64, asked: Asked) -> bool
    requires client { IsClient control.old.tables node client }
    requires order { IsControl control.old }
    ensures { IsControl control.new }
{
    matches!(lend_request(control, node, client, asked), Lent::Handle(_))
}

/// The tables are in order after a write, whether it fits or not.
pub fn writes(control: &mut Control, node: u64, number: u64, elements: Option<u64>) -> Written
    requires loan { IsLoan control.old.tables node number }
    requires order { IsControl control.old }
    ensures { IsControl control.new }
{
    write(control, node, number, 0, elements)
}

/// The tables are in order after a filling.
pub fn fills(control: &mut Control, node: u64, number: u64)
    requires loan { IsLoan control.old.tables node number }
    requires order { IsControl control.old }
    ensures { IsControl control.new }
{
    fill(control, node, number, 0, true);
}
