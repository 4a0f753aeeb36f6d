//! Callers that do one thing after another, proved only from the clauses of a hub: what a call is
//! not about stays.
ghost use Rattle.std.specs.Prelude.{◌≡◌, ◌<◌, ◌^◌};
ghost use Rattle.iox_model.specs.declared.kind.Kind.TheVariants.{ActiveRequest, PendingResponse, RequestMut, Response, Server};
ghost use Rattle.iox_hub.specs.Hubs.{HasValue};
ghost use Rattle.iox_hub.specs.Keeping.{KeepsAll};
ghost use Rattle.iox_hub.specs.Reads.{message_in};

use crate::Hub;
use iox_control::Received;
use iox_store::One;

/// A pending response may be used on once a response was received and given up.
pub fn gives_up_what_it_gets(hub: &mut Hub<One<u64>, (), One<u64>, ()>, node: u64, pending: u64)
    requires pending { HasValue hub.old node pending PendingResponse }
    requires calls { hub.old.control.tables.calls < 2 ^ 56 }
{
    if let Received::Handle(other) = hub.receive_response(node, pending, 0) {
        hub.release(node, other, 0);
    }
    hub.set_hint(node, pending, 0);
}

/// A response that was received carries the same after a request is sent.
pub fn sends_beside(hub: &mut Hub<One<u64>, (), One<u64>, ()>, node: u64, loan: u64, response: u64)
    requires loan { HasValue hub.old node loan RequestMut }
    requires response { HasValue hub.old node response Response }
    requires calls { hub.old.control.tables.calls < 2 ^ 56 }
    ensures has { HasValue hub.new node response Response }
    ensures same { message_in hub.new node response ≡ message_in hub.old node response }
{
    hub.send_request(node, loan, 0);
}

/// A server receives another request, and all that nodes have is as it was.
pub fn receives_beside(
    hub: &mut Hub<One<u64>, (), One<u64>, ()>,
    node: u64,
    server: u64,
    request: u64,
) -> bool
    requires server { HasValue hub.old node server Server }
    requires request { HasValue hub.old node request ActiveRequest }
    requires calls { hub.old.control.tables.calls < 2 ^ 56 }
    ensures { KeepsAll hub.old hub.new }
{
    hub.receive_request(node, server, 0);
    hub.is_connected(node, request, 0)
}
