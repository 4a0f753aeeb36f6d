//! A server receives what waits for it, proved only from the clauses of typed ports.
ghost use Rattle.std.specs.Prelude.{ℕ};
ghost use Rattle.iceoryx2_ports.specs.Calls.{HasCallsLeft};
ghost use Rattle.iceoryx2_ports.specs.Messages.{Message};
ghost use Rattle.iceoryx2_ports.specs.Kind.TheVariants as kinds;
ghost use Rattle.iceoryx2_ports.specs.Hubs.{HasValue};
ghost use Rattle.iceoryx2_ports.specs.Waiting.{CanCome, NothingWaits, server_of};

use crate::{ActiveRequest, Hub, Payload, Server, Words};

/// A server receives a request where one waits that it can receive.
pub fn receives_what_can_come<Q: Payload, QH: Words, P: Payload, PH: Words>(
    server: &Server<Q, QH, P, PH>,
    hub: &mut Hub<Q, QH, P, PH>,
) -> ActiveRequest<Q, QH, P, PH>
    requires has { HasValue hub.old server.now.node server.now.number kinds.Server }
    requires calls { HasCallsLeft hub.old }
    requires waits { (client : ℕ) × (m : Message)
        × CanCome hub.old (server_of server.now.number) client m }
    ensures has { HasValue hub.new result.node result.number kinds.ActiveRequest }
{
    match server.receive(hub) {
        Ok(Some(request)) => request,
        _ => unreachable!(),
    }
}

/// A server receives nothing where nothing waits for it, and is not refused.
pub fn receives_nothing<Q: Payload, QH: Words, P: Payload, PH: Words>(
    server: &Server<Q, QH, P, PH>,
    hub: &mut Hub<Q, QH, P, PH>,
)
    requires has { HasValue hub.old server.now.node server.now.number kinds.Server }
    requires calls { HasCallsLeft hub.old }
    requires none { NothingWaits hub.old (server_of server.now.number) }
{
    match server.receive(hub) {
        Ok(None) => {}
        Ok(Some(request)) => {
            request.release(hub);
            unreachable!();
        }
        Err(_) => unreachable!(),
    }
}
