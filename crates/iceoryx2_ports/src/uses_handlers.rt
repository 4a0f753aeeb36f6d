//! Callers of ports with handlers and with chosen pools, proved only from their clauses.
ghost use Rattle.std.specs.Prelude.{IfOk};
ghost use Rattle.iceoryx2_ports.specs.Hubs.{HasValue};
ghost use Rattle.iceoryx2_ports.specs.Kind.TheVariants as kinds;

use crate::{
    Always, Backpressure, BackpressureAction, BackpressureStrategy, Client, ClientCreateError, Hub,
    One, Payload, PendingResponse, PortFactoryClient, PortFactoryServer, RequestSendError, Server,
    ServerCreateError, UniqueSystemId, Words,
};
use std::alloc::Global;

/// A client whose requests are refused where a server is full, though its strategy discards them.
pub fn refusing_client<Q: Payload, QH: Words, P: Payload, PH: Words>(
    hub: &mut Hub<Q, QH, P, PH, Always>,
    alloc: Global,
    node: u64,
    id: UniqueSystemId,
) -> Result<Client<Q, QH, P, PH>, ClientCreateError>
    ensures { IfOk result (λ client. HasValue hub.new node client.number kinds.Client) }
{
    let handler = Always {
        action: BackpressureAction::DiscardDataAndFail,
    };
    PortFactoryClient::new(node, id)
        .backpressure_strategy(BackpressureStrategy::DiscardData)
        .set_backpressure_handler(handler)
        .create(alloc, hub)
}

/// A client with a handler of any type, and with memory for half of the requests that it may need.
pub fn client_with_half<Q: Payload, QH: Words, P: Payload, PH: Words, H: Backpressure>(
    hub: &mut Hub<Q, QH, P, PH, H>,
    alloc: Global,
    node: u64,
    id: UniqueSystemId,
    handler: H,
) -> Result<Client<Q, QH, P, PH>, ClientCreateError>
    ensures { IfOk result (λ client. HasValue hub.new node client.number kinds.Client) }
{
    PortFactoryClient::new(node, id)
        .set_backpressure_handler(handler)
        .override_request_preallocation(|most: usize| most / 2)
        .create(alloc, hub)
}

/// Such a server.
pub fn server_with_half<Q: Payload, QH: Words, P: Payload, PH: Words, H: Backpressure>(
    hub: &mut Hub<Q, QH, P, PH, H>,
    alloc: Global,
    node: u64,
    id: UniqueSystemId,
    handler: H,
) -> Result<Server<Q, QH, P, PH>, ServerCreateError>
    ensures { IfOk result (λ server. HasValue hub.new node server.number kinds.Server) }
{
    PortFactoryServer::new(node, id)
        .set_backpressure_handler(handler)
        .override_response_preallocation(|most: usize| most / 2)
        .create(alloc, hub)
}

/// A client that may have a handler sends a request: where that is not refused, it has the pending
/// response.
pub fn asks_with_a_handler<QH: Words, P: Payload, PH: Words, H: Backpressure>(
    client: &Client<One<u64>, QH, P, PH>,
    hub: &mut Hub<One<u64>, QH, P, PH, H>,
) -> Result<PendingResponse<One<u64>, QH, P, PH>, RequestSendError>
    requires { HasValue hub.old client.now.node client.now.number kinds.Client }
    ensures pending { IfOk result (λ pending.
        HasValue hub.new pending.node pending.number kinds.PendingResponse) }
    ensures still { HasValue hub.new client.now.node client.now.number kinds.Client }
{
    client.send_copy(hub, 456)
}
