//! What is said of a port beside what comes to it.

use iox_model::kind::Role;
use iox_types::backpressure::BackpressureStrategy;
use iox_types::identifiers::UniqueSystemId;

/// What a hub keeps of a connected port, beside what comes to it.
#[derive(Clone, Copy, Debug, PartialEq, Eq)]
pub struct PortInfo {
    /// Its number, by which calls name it.
    pub number: u64,
    /// The number of its node.
    pub node: u64,
    /// Whether it is a client or a server.
    pub role: Role,
    /// The id of its node.
    pub node_id: UniqueSystemId,
    /// Its own id: that of its node, with the count of ports made before it.
    pub id: UniqueSystemId,
    /// The place of its pool among the pools.
    pub pool: usize,
    /// How many messages its pool has; a client has as many lanes.
    pub size: usize,
    /// The greatest length of its messages, in elements.
    pub longest: u64,
    /// Whether its messages grow past that length.
    pub grows: bool,
    /// What a send does at a full receiver, unless a handler decides.
    pub strategy: BackpressureStrategy,
    /// Of a server: how many loans one request may have, at least 1.
    pub loaned_responses: u64,
    /// Whether its own value is still there.
    pub held: bool,
    /// How many loans succeeded.
    pub loans: u64,
}
