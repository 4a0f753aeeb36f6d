//! The copy of a request that is lost.
ghost use Rattle.std.specs.Prelude.{◌≡◌, Some};
ghost use Rattle.iox_tables.specs.HubStates.Tables.{PortState, port_in};
ghost use Rattle.iox_control.specs.Controls.{IsControl};
ghost use Rattle.iox_control_request_copies.specs.Copies.{Loses};

use crate::copied::Copied;
use iox_control::Control;
use iox_control_copies::{Asked, Lending, loan_refusal};
use iox_control_requests::retrieve_all;

/// Counts the loan of a copy that the client cannot send. Where no loan would be made for it, that
/// is said, and nothing is counted. A call of its own, so that the other way is short.
#[cold]
#[inline(never)]
pub fn lose(control: &mut Control, client: u64, asked: Asked) -> Option<Copied>
    requires there { (p : PortState) × (port_in control.old.tables.ports client ≡ Some p) }
    requires order { IsControl control.old }
    ensures left { (p : PortState) → port_in control.old.tables.ports client ≡ Some p
        → Loses control.old p asked result control.new }
    ensures order { IsControl control.new }
{
    let Some(port) = control.ports().find(client) else {
        unreachable!();
    };
    let lender = Lending {
        port,
        client: port.number,
        lane: 0,
        request: port.loans % (1 << 62),
    };
    if let Some(refusal) = loan_refusal(control, lender, asked) {
        return Some(Copied::Refused(refusal));
    }
    retrieve_all(control, port.number);
    if control.pools().free_len(port.pool) == 0 {
        return Some(Copied::OutOfMemory);
    }
    control.count_loan(port.number, 0);
    control.count_call();
    None
}
