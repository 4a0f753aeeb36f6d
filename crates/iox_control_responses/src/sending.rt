//! The send of a response.
ghost use Rattle.std.specs.Prelude.{◌≡◌, ◌<◌, ◌^◌, Some, false};
ghost use Rattle.iox_model.specs.WholeCalls.{IsWholeCall};
ghost use Rattle.iox_model.specs.declared.call.Call.TheVariants.{Send};
ghost use Rattle.iox_tables.specs.HubStates.States.{Given, state_shown};
ghost use Rattle.iox_tables.specs.HubStates.Tables.{HandleState};
ghost use Rattle.iox_tables.specs.HubStates.Wirings.{handle_in};
ghost use Rattle.iox_tables.specs.HubMaking.Disconnections.{with_released};
ghost use Rattle.iox_control.specs.Controls.{IsControl};
ghost use Rattle.iox_control_releasing.specs.Goings.{KeptPools, StaysTidy};
ghost use Rattle.iox_control_responses.specs.Responses.{IsFailure, IsResponse, reply_of_send, response_reply, with_response_ended};

use crate::offering::offer_response;
use crate::responded::Responded;
use iox_control::Control;
use iox_control_releasing::disconnect_if_unused;

/// Sends this loaned response to its client, and ends its handle, which is looked for by its
/// number, at the hint first; the server goes with it, if nothing else of that is left. Whether the
/// send fails where the client is full, the caller says: by the server's handler, or else by its
/// strategy. That counts only where responses do not overflow.
pub fn send_response(
    control: &mut Control,
    node: u64,
    number: u64,
    hint: usize,
    fails: bool,
) -> Responded
    requires response { IsResponse control.old.tables node number }
    requires order { IsControl control.old }
    requires calls { control.old.tables.calls < 2 ^ 56 }
    ensures reply { (h : HandleState) → handle_in control.old.tables.handles node number ≡ Some h
        → reply_of_send result ≡ response_reply control.old.tables h fails }
    ensures left { (h : HandleState) → handle_in control.old.tables.handles node number ≡ Some h
        → control.new.tables
        ≡ record (with_released (with_response_ended control.old.tables node number h fails)
        h.port) {
          pools = control.new.tables.pools;
        } }
    ensures order { IsControl control.new }
    ensures pools { KeptPools control.old.tables.pools control.new.tables.pools }
    ensures tidy { StaysTidy control.old.tables control.new.tables }
    ensures whole { (h : HandleState) → handle_in control.old.tables.handles node number ≡ Some h
        → (x : Given) → (control.old.tables.settings.response_overflow ≡ false
        → IsFailure x control.old.tables h fails)
        → IsWholeCall (state_shown x control.old.tables) node (Send number)
        (reply_of_send result) (state_shown x control.new.tables) }
{
    let entry = control.known(node, number, hint);
    let responded = offer_response(control, node, number, hint, entry, fails);
    disconnect_if_unused(control, entry.port, entry.at as usize);
    responded
}
