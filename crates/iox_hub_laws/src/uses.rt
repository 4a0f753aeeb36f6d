//! Callers of a hub and of its laws, proved only from their clauses.
ghost use Rattle.std.specs.Prelude.{◌≡◌, ◌<◌, ◌^◌, ℕ, IfSome, Some, flat_map, length, true};
ghost use Rattle.iox_model.specs.declared.kind.Kind.TheVariants.{ActiveRequest, Client, Server};
ghost use Rattle.iox_model.specs.Handles.{way_of};
ghost use Rattle.iox_model.specs.Messages.{Message};
ghost use Rattle.iox_laws.specs.MessageLaws.Deliveries.{messages_put_on};
ghost use Rattle.iox_laws.specs.MessageLaws.Lists.{IsOneOf};
ghost use Rattle.iox_tables.specs.HubStates.Tables.{HandleState, PortState, port_in};
ghost use Rattle.iox_tables.specs.HubStates.Wirings.{handle_in};
ghost use Rattle.iox_hub.specs.Hubs.{HasValue, HubState, IsReached};
ghost use Rattle.iox_hub_laws.specs.Loans.{HasFullPools, IsWithinLimits, IsWithinServersLimits};
ghost use Rattle.iox_hub_laws.specs.Shown.{beats_of, handle_of};
ghost use Rattle.iox_hub_laws.specs.Waiting.{CanCome, NothingWaits, server_of};

use crate::{lend_request, lend_response, receive_request};
use iox_hub::{Backpressure, Hub, Lent, Received};
use iox_store::{Many, One, Payload};
use iox_words::Words;

/// A server that receives reads what was delivered to it, word by word, whatever history led there.
pub fn reads_what_was_delivered<E: Words>(
    hub: &mut Hub<Many<E>, u32, One<u64>, ()>,
    node: u64,
    server: u64,
) -> Option<&[E]>
    requires has { HasValue hub.old node server Server }
    requires calls { hub.old.control.tables.calls < 2 ^ 56 }
    ensures { IfSome result (λ read. (h : HandleState) × (new : HubState)
        × (h.port ≡ server) × (flat_map E.words read.now ≡ (handle_of new h).message.payload)
        × ((r : IsReached hub.old) → IsOneOf (handle_of new h).message
        (messages_put_on (way_of (handle_of new h)) (beats_of hub.old r)))) }
{
    match receive_request(hub, node, server, 0) {
        Received::Handle(number) => Some(hub.request(node, number, 0)),
        _ => None,
    }
}

/// A server to which a request can come receives one.
pub fn receives_what_can_come<Q: Payload, QH: Words, P: Payload, PH: Words, H: Backpressure>(
    hub: &mut Hub<Q, QH, P, PH, H>,
    node: u64,
    server: u64,
) -> u64
    requires has { HasValue hub.old node server Server }
    requires calls { hub.old.control.tables.calls < 2 ^ 56 }
    requires waits { (client : ℕ) × (m : Message)
        × CanCome hub.old (server_of server) client m }
    ensures { HasValue hub.new node result ActiveRequest }
{
    match receive_request(hub, node, server, 0) {
        Received::Handle(number) => number,
        _ => unreachable!(),
    }
}

/// A server receives nothing where nothing waits for it.
pub fn receives_nothing<Q: Payload, QH: Words, P: Payload, PH: Words, H: Backpressure>(
    hub: &mut Hub<Q, QH, P, PH, H>,
    node: u64,
    server: u64,
)
    requires has { HasValue hub.old node server Server }
    requires calls { hub.old.control.tables.calls < 2 ^ 56 }
    requires none { NothingWaits hub.old (server_of server) }
{
    match receive_request(hub, node, server, 0) {
        Received::Nothing => {}
        _ => unreachable!(),
    }
}

/// Within its limits a client lends, where its node has full pools.
pub fn lends_within_limits(
    hub: &mut Hub<Many<u64>, u32, One<u64>, ()>,
    node: u64,
    client: u64,
    elements: usize,
) -> u64
    requires has { HasValue hub.old node client Client }
    requires within { (p : PortState) × (port_in hub.old.control.tables.ports client ≡ Some p)
        × IsWithinLimits hub.old.control.tables hub.old.request p elements }
    requires pools { HasFullPools hub.old node }
{
    match lend_request(hub, node, client, 0, elements, true) {
        Lent::Handle(loan) => loan.number,
        _ => unreachable!(),
    }
}

/// Within its limits a server lends a response, where its node has full pools.
pub fn responds_within_limits(
    hub: &mut Hub<Many<u64>, u32, One<u64>, ()>,
    node: u64,
    number: u64,
) -> u64
    requires has { HasValue hub.old node number ActiveRequest }
    requires within { (a : HandleState) × (p : PortState)
        × (handle_in hub.old.control.tables.handles node number ≡ Some a)
        × (port_in hub.old.control.tables.ports a.port ≡ Some p)
        × IsWithinServersLimits hub.old.control.tables hub.old.response a p 1 }
    requires pools { HasFullPools hub.old node }
{
    match lend_response(hub, node, number, 0, 1, true) {
        Lent::Handle(loan) => loan.number,
        _ => unreachable!(),
    }
}
