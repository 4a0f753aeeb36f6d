//! Callers of the send of a response, proved only from the clauses.
ghost use Rattle.std.specs.Prelude.{◌<◌, ◌^◌};
ghost use Rattle.iox_control.specs.Controls.{IsControl};
ghost use Rattle.iox_control_responses.specs.Responses.{IsResponse};

use crate::{Responded, fails_when_full, send_response, send_response_usual};
use iox_control::Control;

/// A server that has no handler sends, on the usual way where it may: the tables are in order then.
pub fn sends_by_strategy(control: &mut Control, node: u64, number: u64, server: u64) -> Responded
    requires response { IsResponse control.old.tables node number }
    requires order { IsControl control.old }
    requires calls { control.old.tables.calls < 2 ^ 56 }
    ensures { IsControl control.new }
{
    let Some(entry) = control.entry(node, number, 0) else {
        unreachable!();
    };
    if let Some(responded) = send_response_usual(control, node, number, 0, entry) {
        return responded;
    }
    let fails = fails_when_full(control, server);
    send_response(control, node, number, 0, fails)
}
