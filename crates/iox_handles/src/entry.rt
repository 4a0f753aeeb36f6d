//! What a hub keeps of a handle.

use iox_model::kind::Kind;

/// What a hub keeps of a handle beside the message: the message lies in a slot of a pool.
#[derive(Clone, Copy, Debug, PartialEq, Eq)]
pub struct Entry {
    /// The node that has the handle.
    pub node: u64,
    /// The number of the handle.
    pub number: u64,
    /// Which of the seven kinds of handles it is.
    pub kind: Kind,
    /// Where its port likely stands among the ports. A wrong place is only slower.
    pub at: u16,
    /// The port that it belongs to.
    pub port: u64,
    /// The place of the pool of its message among the pools.
    pub pool: usize,
    /// The slot of the message in that pool.
    pub slot: u64,
    /// The client of its request.
    pub client: u64,
    /// Of a pending response: how many servers the request was delivered to.
    pub connections: u64,
}

/// A place among the ports, as a handle keeps it. Ports that stand behind the first 2^16 places are
/// looked for in wrong ones first.
#[inline(always)]
pub fn kept_place(place: usize) -> u16 {
    (place % (1 << 16)) as u16
}
