//! Whether a handle is connected, and whether it has a hint.
ghost use Rattle.std.specs.Prelude.{◌≡◌, Some, false, true};
ghost use Rattle.iox_model.specs.declared.call.Call.TheVariants.{HasHint, IsConnected};
ghost use Rattle.iox_model.specs.declared.kind.Kind.TheVariants.{ActiveRequest};
ghost use Rattle.iox_model.specs.declared.reply.Reply.TheVariants.{Answer};
ghost use Rattle.iox_model.specs.Names.{suits};
ghost use Rattle.iox_model.specs.WholeCalls.{IsWholeCall};
ghost use Rattle.iox_tables.specs.HubStates.Tables.{HandleState};
ghost use Rattle.iox_tables.specs.HubStates.States.{Given, state_shown};
ghost use Rattle.iox_tables.specs.HubStates.Wirings.{IsHandle, handle_in};
ghost use Rattle.iox_tables.specs.HubLoans.Questions.{is_named, is_named_by_client};
ghost use Rattle.iox_control.specs.Controls.{IsControl};

use crate::naming::{is_named_by_its_client, is_named_by_some_server, is_pending};
use iox_control::Control;

/// Whether the request of that pending response, or of that active request, is still named. The
/// handle is looked for at the hint first.
pub fn is_connected(control: &Control, node: u64, number: u64, hint: usize) -> bool
    requires handle { (h : HandleState) × IsHandle control.now.tables node number h
        × (suits false (IsConnected number) h.kind ≡ true) }
    requires order { IsControl control.now }
    ensures told { (h : HandleState) → handle_in control.now.tables.handles node number ≡ Some h
        → result ≡ is_named control.now.tables h false }
    ensures whole { (x : Given) → IsWholeCall (state_shown x control.now.tables) node
        (IsConnected number) (Answer result) (state_shown x control.now.tables) }
{
    let Some(entry) = control.entry(node, number, hint) else {
        unreachable!();
    };
    if is_pending(entry.kind) {
        return is_named_by_some_server(control, entry, false);
    }
    is_named_by_its_client(control, entry, false)
}

/// Whether the client of that active request gave a hint that it lost interest. The handle is
/// looked for at the hint first.
pub fn has_hint(control: &Control, node: u64, number: u64, hint: usize) -> bool
    requires handle { (h : HandleState) × IsHandle control.now.tables node number h
        × (h.kind ≡ ActiveRequest) }
    requires order { IsControl control.now }
    ensures told { (h : HandleState) → handle_in control.now.tables.handles node number ≡ Some h
        → result ≡ is_named_by_client control.now.tables h true }
    ensures whole { (x : Given) → IsWholeCall (state_shown x control.now.tables) node
        (HasHint number) (Answer result) (state_shown x control.now.tables) }
{
    let Some(entry) = control.entry(node, number, hint) else {
        unreachable!();
    };
    is_named_by_its_client(control, entry, true)
}
