//! Ports are made as their makers ask, proved only from the clauses of typed ports.
ghost use Rattle.std.specs.Prelude.{◌≡◌, IfOk};
ghost use Rattle.iceoryx2_ports.specs.Kind.TheVariants as kinds;
ghost use Rattle.iceoryx2_ports.specs.Hubs.{HasValue};
ghost use Rattle.iceoryx2_ports.specs.BackpressureStrategy.TheVariants.{DiscardData};

use crate::{
    AllocationStrategy, BackpressureStrategy, Client, ClientCreateError, Hub, Many, One,
    PortFactoryClient, PortFactoryServer, Server, ServerCreateError, UniqueSystemId,
};
use std::alloc::Global;

/// A client is made whose requests have room for 128 elements, and are to grow past that. It tells
/// the 128.
pub fn makes_a_client_for_128(
    hub: &mut Hub<Many<u64>, (), One<u64>, ()>,
    alloc: Global,
    node: u64,
    id: UniqueSystemId,
) -> Result<(Client<Many<u64>, (), One<u64>, ()>, u64), ClientCreateError>
    ensures has { IfOk result (λ both.
        HasValue hub.new both.0.node both.0.number kinds.Client) }
    ensures longest { IfOk result (λ both. both.1 ≡ 128) }
{
    hub.is_of_its_types();
    let client = PortFactoryClient::new(node, id)
        .initial_max_slice_len(128)
        .allocation_strategy(AllocationStrategy::PowerOfTwo)
        .create(alloc, hub)?;
    let longest = client.initial_max_slice_len(hub);
    Ok((client, longest))
}

/// A server is made that discards what a full client has no room for.
pub fn makes_a_server_that_discards(
    hub: &mut Hub<One<u64>, (), One<u64>, ()>,
    alloc: Global,
    node: u64,
    id: UniqueSystemId,
) -> Result<(Server<One<u64>, (), One<u64>, ()>, BackpressureStrategy), ServerCreateError>
    ensures has { IfOk result (λ both.
        HasValue hub.new both.0.node both.0.number kinds.Server) }
    ensures strategy { IfOk result (λ both. both.1 ≡ DiscardData) }
{
    let server = PortFactoryServer::new(node, id)
        .backpressure_strategy(BackpressureStrategy::DiscardData)
        .create(alloc, hub)?;
    let strategy = server.backpressure_strategy(hub);
    Ok((server, strategy))
}

/// A server is made that discards, and for whose pool a closure says one message.
pub fn makes_a_small_server_that_discards(
    hub: &mut Hub<One<u64>, (), One<u64>, ()>,
    alloc: Global,
    node: u64,
    id: UniqueSystemId,
) -> Result<(Server<One<u64>, (), One<u64>, ()>, BackpressureStrategy), ServerCreateError>
    ensures has { IfOk result (λ both.
        HasValue hub.new both.0.node both.0.number kinds.Server) }
    ensures strategy { IfOk result (λ both. both.1 ≡ DiscardData) }
{
    let server = PortFactoryServer::new(node, id)
        .backpressure_strategy(BackpressureStrategy::DiscardData)
        .override_response_preallocation(|_| 1)
        .create(alloc, hub)?;
    let strategy = server.backpressure_strategy(hub);
    Ok((server, strategy))
}
