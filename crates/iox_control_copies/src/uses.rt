//! Callers of the copy of a response, proved only from the clauses.
ghost use Rattle.iox_tables.specs.HubLoans.Lenders.{IsActive};
ghost use Rattle.iox_control.specs.Controls.{IsControl};

use crate::{Answered, copy_response};
use iox_control::Control;
use iox_control_lending::Asked;
use iox_control_responses::fails_when_full;

/// A server that has no handler copies: the tables are in order then.
pub fn copies_by_strategy(
    control: &mut Control,
    node: u64,
    number: u64,
    server: u64,
    asked: Asked,
) -> Answered
    requires active { IsActive control.old.tables node number }
    requires order { IsControl control.old }
    ensures { IsControl control.new }
{
    let fails = fails_when_full(control, server);
    copy_response(control, node, number, 0, asked, fails)
}
