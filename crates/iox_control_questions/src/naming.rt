//! Whether the request of a handle is still named.
ghost use Rattle.std.specs.Prelude.{◌≡◌, false};
ghost use Rattle.std.specs.Option.{option_map_or};
ghost use Rattle.iox_model.specs.declared.kind.Kind.TheVariants.{PendingResponse};
ghost use Rattle.iox_model.specs.Handles.{same_kind};
ghost use Rattle.iox_hub_ports.specs.Ports.{info_at};
ghost use Rattle.iox_tables.specs.HubLoans.Questions.{is_named_by_client, is_named_by_server, names_request};
ghost use Rattle.iox_control.specs.Controls.{IsControl};
ghost use Rattle.iox_control.specs.Entries.{handle_state};
ghost use Rattle.iox_control_questions.specs.Naming.{is_named_with};

use iox_control::Control;
use iox_handles::Entry;
use iox_lanes::wanted::Label;
use iox_model::kind::{Kind, Role};
use iox_model::way::{RequestState, Way};

/// Whether the kind is a pending response.
pub fn is_pending(kind: Kind) -> bool
    ensures { result ≡ same_kind kind PendingResponse }
{
    match kind {
        Kind::PendingResponse => true,
        Kind::Client
        | Kind::Server
        | Kind::RequestMutUninit
        | Kind::RequestMut
        | Kind::ResponseMutUninit
        | Kind::ResponseMut
        | Kind::ActiveRequest
        | Kind::Response => false,
    }
}

/// Whether the request state names the request, with a hint if that is asked.
fn is_name(state: RequestState, request: u64, hinted: bool) -> bool
    ensures { result ≡ names_request hinted request state }
{
    match state {
        RequestState::Closed => false,
        RequestState::Named { id, hinted: told } => {
            if hinted {
                id == request && told
            } else {
                id == request
            }
        }
    }
}

/// Whether the client of the handle's request still names it, with a hint if that is asked.
pub fn is_named_by_its_client(control: &Control, entry: Entry, hinted: bool) -> bool
    requires order { IsControl control.now }
    ensures { result ≡ is_named_by_client control.now.tables (handle_state entry) hinted }
{
    let Some(client) = control.ports().find(entry.client) else {
        return false;
    };
    match client.role {
        Role::Client => {
            let label = control.label(entry.pool, entry.slot);
            let way = Way {
                sender: entry.port,
                receiver: entry.client,
                lane: label.lane,
            };
            is_name(control.ports().state(way), label.request, hinted)
        }
        Role::Server => false,
    }
}

/// Whether the port in that place is a server whose request state with the client names the
/// request, with a hint if that is asked.
fn is_named_at(control: &Control, at: usize, client: u64, label: Label, hinted: bool) -> bool
    ensures { result ≡ option_map_or (is_named_with control.now.tables client label hinted)
        (info_at control.now.tables.ports at) false }
{
    let Some(port) = control.ports().at(at) else {
        return false;
    };
    match port.role {
        Role::Client => false,
        Role::Server => {
            let way = Way {
                sender: port.number,
                receiver: client,
                lane: label.lane,
            };
            is_name(control.ports().state(way), label.request, hinted)
        }
    }
}

/// Whether some server still has the pending response's request open, with a hint if that is
/// asked.
pub fn is_named_by_some_server(control: &Control, entry: Entry, hinted: bool) -> bool
    ensures { result ≡ is_named_by_server control.now.tables (handle_state entry) hinted }
{
    let label = control.label(entry.pool, entry.slot);
    for at in 0..control.ports().len() {
        if is_named_at(control, at, entry.port, label, hinted) {
            return true;
        }
    }
    false
}
