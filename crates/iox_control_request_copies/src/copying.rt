//! The copy of a client's request.
ghost use Rattle.std.specs.Prelude.{◌≡◌, Some};
ghost use Rattle.iox_model.specs.Commands.{Payload};
ghost use Rattle.iox_model.specs.WholeCalls.{IsWholeCall};
ghost use Rattle.iox_model.specs.declared.call.Call.TheVariants.{SendCopy};
ghost use Rattle.iox_model.specs.declared.kind.Role.TheVariants.{Client};
ghost use Rattle.iox_tables.specs.HubStates.States.{Given, state_shown};
ghost use Rattle.iox_tables.specs.HubStates.Tables.{PortState, port_in};
ghost use Rattle.iox_tables.specs.HubLoans.Lenders.{IsClient};
ghost use Rattle.iox_control.specs.Controls.{IsControl};
ghost use Rattle.iox_control_copies.specs.Lends.{IsAskedOf};
ghost use Rattle.iox_control_request_copies.specs.Copies.{AreFailuresOf, Copies, fails_for, given_after_copy, reply_of_copy, to_fill};

use crate::copied::Copied;
use crate::counts::has_all_active;
use crate::losing::lose;
use crate::sending::lend_and_send;
use iox_control::Control;
use iox_control_copies::{Asked, LoanRefusal};
use iox_control_requests::{WhenFull, is_refused};

/// Whether a server is full at which the client's send fails.
fn is_failing<B: WhenFull>(control: &Control, client: u64, backpressure: &B) -> bool
    ensures { result ≡ fails_for (B.fails backpressure.now) control.now.tables client }
{
    if control.settings().request_overflow {
        return false;
    }
    is_refused(control, client, backpressure)
}

/// Lends a request of that client, filled, and sends it to all servers at once. All that servers
/// gave back to the client is got back first. A full server gets nothing, unless its oldest message
/// is pushed out. Without overflow, a full server may make the send fail: that the caller says.
pub fn copy_request<B: WhenFull>(
    control: &mut Control,
    node: u64,
    client: u64,
    asked: Asked,
    backpressure: &B,
) -> Copied
    requires client { IsClient control.old.tables node client }
    requires order { IsControl control.old }
    ensures left { (p : PortState) → port_in control.old.tables.ports client ≡ Some p
        → Copies control.old p (to_fill asked) (B.fails backpressure.now) result control.new }
    ensures order { IsControl control.new }
    ensures whole { (x : Given) (q : Payload) → IsAskedOf x.request asked
        → AreFailuresOf x control.old.tables client (B.fails backpressure.now) → q.role ≡ Client
        → q.elements ≡ Some asked.elements
        → IsWholeCall (state_shown x control.old.tables) node (SendCopy client q)
        (reply_of_copy result)
        (state_shown (given_after_copy x q result) control.new.tables) }
{
    if control.calls() >= 1 << 56 {
        return Copied::Refused(LoanRefusal::CallsSpent);
    }
    let filled = Asked {
        elements: asked.elements,
        uninit: false,
        is_count: asked.is_count,
        has_layout: asked.has_layout,
    };
    // Whether it can be sent is told before the loan: a copy that is lost takes no number.
    if has_all_active(control, client) {
        return match lose(control, client, filled) {
            Some(refused) => refused,
            None => Copied::ExceedsMaxActiveRequests,
        };
    }
    if is_failing(control, client, backpressure) {
        return match lose(control, client, filled) {
            Some(refused) => refused,
            None => Copied::UnableToDeliver,
        };
    }
    let overflow = control.settings().request_overflow;
    lend_and_send(control, node, client, filled, overflow)
}
