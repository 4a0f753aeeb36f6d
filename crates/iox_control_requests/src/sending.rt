//! The send of a request.
ghost use Rattle.std.specs.Prelude.{◌≡◌, ◌<◌, ◌^◌, Some, false};
ghost use Rattle.iox_model.specs.WholeCalls.{IsWholeCall};
ghost use Rattle.iox_model.specs.declared.call.Call.TheVariants.{Send};
ghost use Rattle.iox_tables.specs.HubStates.States.{Given, state_shown};
ghost use Rattle.iox_tables.specs.HubStates.Tables.{HandleState};
ghost use Rattle.iox_tables.specs.HubStates.Wirings.{handle_in};
ghost use Rattle.iox_control.specs.Controls.{IsControl};
ghost use Rattle.iox_control_releasing.specs.Goings.{KeptPools, StaysTidy};
ghost use Rattle.iox_control_requests.specs.Sendings.{AreFailures, IsRequest, reply_of_send, request_outcome, with_lost_released, with_request_ended};

use crate::backpressure::WhenFull;
use crate::offering::offer_request;
use crate::requested::Requested;
use iox_control::Control;
use iox_control_releasing::disconnect_if_unused;

/// Sends this loaned request, which is looked for by its number, at the hint first, to all servers,
/// and says to how many. Where it is lost, the client goes with it, if nothing else of that is
/// left. Whether the send fails where a server is full, the caller says: that counts only where
/// requests do not overflow.
pub fn send_request<B: WhenFull>(
    control: &mut Control,
    node: u64,
    number: u64,
    hint: usize,
    backpressure: &B,
) -> Requested
    requires request { IsRequest control.old.tables node number }
    requires order { IsControl control.old }
    requires calls { control.old.tables.calls < 2 ^ 56 }
    ensures reply { (h : HandleState) → handle_in control.old.tables.handles node number ≡ Some h
        → result ≡ request_outcome (B.fails backpressure.now) control.old.tables h }
    ensures left { (h : HandleState) → handle_in control.old.tables.handles node number ≡ Some h
        → control.new.tables ≡ record (with_lost_released result
        (with_request_ended control.old.tables node number h result) h.port) {
          pools = control.new.tables.pools;
        } }
    ensures order { IsControl control.new }
    ensures pools { KeptPools control.old.tables.pools control.new.tables.pools }
    ensures tidy { StaysTidy control.old.tables control.new.tables }
    ensures whole { (h : HandleState) → handle_in control.old.tables.handles node number ≡ Some h
        → (x : Given) → (control.old.tables.settings.request_overflow ≡ false
        → AreFailures x control.old.tables h (B.fails backpressure.now))
        → IsWholeCall (state_shown x control.old.tables) node (Send number)
        (reply_of_send result) (state_shown x control.new.tables) }
{
    let entry = control.known(node, number, hint);
    let at = entry.at as usize;
    let requested = offer_request(control, node, number, hint, entry, backpressure);
    match requested {
        Requested::To(_) => {}
        Requested::ExceedsMaxActiveRequests => disconnect_if_unused(control, entry.port, at),
        Requested::UnableToDeliver => disconnect_if_unused(control, entry.port, at),
    }
    requested
}
