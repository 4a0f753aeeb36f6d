//! The copy of an active request's response.
ghost use Rattle.std.specs.Prelude.{◌≡◌, Some};
ghost use Rattle.iox_model.specs.Commands.{Payload};
ghost use Rattle.iox_model.specs.WholeCalls.{IsWholeCall};
ghost use Rattle.iox_model.specs.declared.call.Call.TheVariants.{SendCopy};
ghost use Rattle.iox_model.specs.declared.kind.Role.TheVariants.{Server};
ghost use Rattle.iox_tables.specs.HubStates.States.{Given, state_shown};
ghost use Rattle.iox_tables.specs.HubStates.Tables.{HandleState, PortState, port_in};
ghost use Rattle.iox_tables.specs.HubStates.Wirings.{handle_in};
ghost use Rattle.iox_tables.specs.HubLoans.Lenders.{IsActive, lender_of_response};
ghost use Rattle.iox_control.specs.Controls.{IsControl};
ghost use Rattle.iox_control_lending.specs.Lends.{IsAskedOf};
ghost use Rattle.iox_control_responses.specs.Responses.{IsFailure};
ghost use Rattle.iox_control_copies.specs.Answers.{CopyComesTo, given_after_copy, reply_of_copy};

use crate::answered::Answered;
use crate::answering::answer;
use iox_control::Control;
use iox_control_lending::{Asked, Lending};
use iox_control_responses::find_awaiting;

/// Lends a response to that active request, whose handle is looked for at the hint first, and sends
/// it to its client at once. All that clients gave back to the server is got back first. Whether
/// the send fails where the client is full, the caller says: by the server's handler, or else by
/// its strategy.
pub fn copy_response(
    control: &mut Control,
    node: u64,
    number: u64,
    hint: usize,
    asked: Asked,
    fails: bool,
) -> Answered
    requires active { IsActive control.old.tables node number }
    requires order { IsControl control.old }
    ensures left { (h : HandleState) (p : PortState)
        → handle_in control.old.tables.handles node number ≡ Some h
        → port_in control.old.tables.ports h.port ≡ Some p
        → CopyComesTo control.old (lender_of_response control.old.tables h p) asked fails result
        control.new }
    ensures order { IsControl control.new }
    ensures whole { (h : HandleState) → handle_in control.old.tables.handles node number ≡ Some h
        → (x : Given) (q : Payload) → IsAskedOf x.response asked
        → IsFailure x control.old.tables h fails → q.role ≡ Server
        → q.elements ≡ Some asked.elements
        → IsWholeCall (state_shown x control.old.tables) node (SendCopy number q)
        (reply_of_copy result)
        (state_shown (given_after_copy x q result) control.new.tables) }
{
    let entry = control.known(node, number, hint);
    let at = control.ports().known_place(entry.port, entry.at as usize);
    let port = control.ports().known_at(at);
    let label = control.label_of(entry.pool, entry.slot);
    let lender = Lending {
        port,
        client: entry.client,
        lane: label.lane,
        request: label.request,
    };
    let to = find_awaiting(control, entry, label);
    answer(control, &lender, at, asked, to, fails)
}
