//! Who sent the messages of handles, and the ids of ports.
ghost use Rattle.std.specs.Prelude.{◌≡◌};
ghost use Rattle.iox_model.specs.Names.{is_port};
ghost use Rattle.iox_tables.specs.HubStates.States.{no_id};
ghost use Rattle.iox_hub.specs.Headers.{IsHeaderShown, IsIdShown, header_at, header_in, id_in};
ghost use Rattle.iox_hub.specs.Reads.{HasOf};
ghost use Rattle.iox_hub.specs.Sending.{is_handle};

use crate::hub::Hub;
use iox_backpressure::Backpressure;
use iox_slots::Pools;
use iox_store::Payload;
use iox_types::identifiers::UniqueSystemId;
use iox_words::Words;

/// What stands before the words of a message: who sent it, which request it is or answers, and how
/// many elements it has.
#[derive(Clone, Copy, Debug, PartialEq, Eq)]
pub struct MessageHeader {
    /// The id of the node whose port sent it.
    pub node_id: UniqueSystemId,
    /// The id of the port that sent it.
    pub port_id: UniqueSystemId,
    /// The lane of the request that it is, or answers.
    pub lane: u64,
    /// The id of that request, below 2^62.
    pub request: u64,
    /// How many elements its payload has.
    pub elements: u64,
}

/// The id of no port.
fn no_id() -> UniqueSystemId
    ensures { result ≡ no_id }
{
    UniqueSystemId {
        process: 0,
        seconds: 0,
        nanoseconds: 0,
        counter: 0,
    }
}

/// The header of the message in that slot of the pool in this place.
fn header_at(pools: &Pools, place: usize, slot: u64) -> MessageHeader
    ensures { result ≡ header_at pools.now place slot }
{
    let (node_id, port_id) = match pools.ids(place) {
        Some(ids) => ids,
        None => (no_id(), no_id()),
    };
    let (lane, request, elements) = match pools.slot(place, slot) {
        Some(slot) => (slot.lane(), slot.request(), slot.elements()),
        None => (0, 0, 0),
    };
    MessageHeader {
        node_id,
        port_id,
        lane,
        request,
        elements,
    }
}

impl<Q: Payload, QH: Words, P: Payload, PH: Words, H: Backpressure> Hub<Q, QH, P, PH, H> {
    /// The header of the message that the handle has. The handle is looked for at the hint first.
    pub fn message_header(&self, node: u64, number: u64, hint: usize) -> MessageHeader
        requires has { HasOf is_handle self.now node number }
        ensures header { result ≡ header_in self.now node number }
        ensures shown { IsHeaderShown self.now node number }
    {
        let entry = self.handle(node, number, hint);
        header_at(self.control.pools(), entry.pool, entry.slot)
    }

    /// The id of that client or server, which the node has.
    pub fn port_id(&self, node: u64, number: u64) -> UniqueSystemId
        requires has { HasOf is_port self.now node number }
        ensures id { result ≡ id_in self.now number }
        ensures shown { IsIdShown self.now number }
    {
        let Some(port) = self.control.ports().find(number) else {
            unreachable!();
        };
        port.id
    }
}
