//! Callers of sends, releases and questions of a hub, proved only from its clauses.
ghost use Rattle.std.specs.Prelude.{◌<◌, ◌^◌, IfSome};
ghost use Rattle.iox_model.specs.declared.call.Call.TheVariants.{Release};
ghost use Rattle.iox_model.specs.declared.kind.Kind.TheVariants.{RequestMut, ResponseMut, Server};
ghost use Rattle.iox_model.specs.declared.reply.Reply.TheVariants.{Done};
ghost use Rattle.iox_model.specs.WholeCalls.{IsWholeCall};
ghost use Rattle.iox_tables.specs.HubStates.States.{Given};
ghost use Rattle.iox_hub.specs.Hubs.{HasValue, IsReached, state_of_hub};
ghost use Rattle.iox_hub.specs.Sending.{HasSent};

use crate::Hub;
use iox_control_questions::{Asked, NotBegun};
use iox_control_request_copies::{Requested, Responded};
use iox_model::kind::Kind;
use iox_store::{Many, One};

/// A node that has a response may release it, and the state that is left can be reached.
pub fn releases_what_it_has(
    hub: &mut Hub<One<u64>, (), One<u64>, ()>,
    node: u64,
    number: u64,
) -> bool
    ensures { IsReached hub.new }
{
    if hub.has(node, number, Kind::Response, 0) {
        hub.release(node, number, 0);
        hub.calls();
        return true;
    }
    hub.calls();
    false
}

/// A node that has a server may release it: that is one call of the machine.
pub fn releases_a_server(hub: &mut Hub<Many<u64>, u32, One<u64>, ()>, node: u64, server: u64)
    requires { HasValue hub.old node server Server }
    ensures { (x : Given) → IsWholeCall (state_of_hub x hub.old) node (Release server) Done
        (state_of_hub x hub.new) }
{
    hub.release_port(node, server);
}

/// A node that has a loaned request may send it, and has a pending response then.
pub fn sends_what_it_has(
    hub: &mut Hub<One<u64>, (), One<u64>, ()>,
    node: u64,
    number: u64,
) -> Option<Requested>
    ensures { IfSome result (λ r. HasSent hub.new node number r) }
{
    if hub.calls() < 1 << 56 && hub.has(node, number, Kind::RequestMut, 0) {
        return Some(hub.send_request(node, number, 0));
    }
    None
}

/// Once its request is sent, a node may ask whether it is still open, and whether a response waits.
pub fn waits_for_what_it_sent(
    hub: &mut Hub<One<u64>, (), One<u64>, ()>,
    node: u64,
    number: u64,
) -> bool
    requires has { HasValue hub.old node number RequestMut }
    requires calls { hub.old.control.tables.calls < 2 ^ 56 }
{
    match hub.send_request(node, number, 0) {
        Requested::To(_) => hub.is_connected(node, number, 0) && !hub.has_response(node, number, 0),
        Requested::ExceedsMaxActiveRequests => false,
        Requested::UnableToDeliver => false,
    }
}

/// A node that has a loaned response may send it, and the state that is left can be reached.
pub fn answers(hub: &mut Hub<One<u64>, (), One<u64>, ()>, node: u64, number: u64) -> Responded
    requires has { HasValue hub.old node number ResponseMut }
    requires calls { hub.old.control.tables.calls < 2 ^ 56 }
    ensures { IsReached hub.new }
{
    let responded = hub.send_response(node, number, 0);
    hub.calls();
    responded
}

/// A node may ask whether a request is still open where nothing is told against that.
pub fn asks_unless_refused(
    hub: &Hub<One<u64>, (), One<u64>, ()>,
    node: u64,
    number: u64,
) -> Result<bool, NotBegun> {
    match hub.refusal(node, number, 0, Asked::IsConnected) {
        Some(why) => Err(why),
        None => Ok(hub.is_connected(node, number, 0)),
    }
}
