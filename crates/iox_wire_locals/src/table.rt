//! What a node of a wire keeps of its own ports and handles, as clauses see it.
use iox_model::kind::Kind;
use iox_model::way::Way;
use std::collections::LinkedList;

/// A handle. Its message is told by the port that sent it, and by the slot there.
#[derive(Clone, Copy)]
pub struct Entry {
    /// Its number, by which calls name it.
    pub number: u64,
    /// Which kind of handle it is; on a wire no loan is unfilled.
    pub kind: Kind,
    /// The number of the port that it belongs to.
    pub port: u64,
    /// The number of the port that sent its message, or will send it.
    pub sender: u64,
    /// The slot of the message among that port's.
    pub slot: u64,
    /// The number of the client of its request.
    pub client: u64,
    /// The lane of its request.
    pub lane: u64,
    /// The id of its request.
    pub request: u64,
    /// How many elements its message has.
    pub elements: u64,
    /// Of a pending response: to how many servers the request was delivered; else 0.
    pub connections: u64,
}

/// A loan in the making: what its handle and its message will say.
pub struct NewLoan {
    /// The number that its handle gets.
    pub number: u64,
    /// The kind of its handle.
    pub kind: Kind,
    /// The number of the port that lends.
    pub port: u64,
    /// The number of the client of its request.
    pub client: u64,
    /// The lane of its request.
    pub lane: u64,
    /// The id of its request.
    pub request: u64,
    /// How many loans of the port succeeded before it.
    pub serial: u64,
    /// How many elements its message has.
    pub elements: u64,
    /// The words of the payload, if the loan is to be sent in the same call.
    pub payload: LinkedList<u64>,
    /// Whether it is to be sent in the same call.
    pub copies: bool,
}

/// The slots whose messages a port delivered on a way and did not get back.
pub struct Recorded {
    /// The way on which they were delivered.
    pub way: Way,
    /// The slots, in the order of their deliveries.
    pub slots: LinkedList<u64>,
}

/// What a node keeps of one of its ports.
pub struct Desk {
    /// The number of the port.
    pub port: u64,
    /// How many of its loans succeeded.
    pub loans: u64,
    /// The serial of the message in each slot.
    pub serials: LinkedList<u64>,
    /// By how many own handles and loans, and on how many ways, each slot is in use.
    pub uses: LinkedList<u64>,
    /// The slots without a use, in the order in which loans take them.
    pub free: LinkedList<u64>,
    /// Of a client: the lanes that no loan and no pending response has.
    pub free_lanes: LinkedList<u64>,
    /// What it delivered and did not get back, for each way on which it sends.
    pub recorded: LinkedList<Recorded>,
}

/// How many messages of a way the node has as handles.
#[derive(Clone, Copy)]
pub struct Borrowed {
    /// The way on which they came.
    pub way: Way,
    /// How many there are, at most the borrow limit.
    pub count: u64,
}
