//! The commands of a hub and of a service.
use iox_types::identifiers::{UniqueNodeId, UniqueSystemId};
use iox_types::{AllocationStrategy, BackpressureStrategy};

/// What the making of a port is given, with handlers `H`. Where nothing is given, the service's
/// settings hold, the pool is the most that is ever needed, and there is no handler.
#[derive(Debug, Drop)]
pub struct PortOptions<H> {
    /// The greatest length of its messages, in elements. It counts as 1 where a message has one
    /// element.
    pub max_slice_len: u64,
    /// How many messages its pool has: raised to 1, and lowered to the most that are ever needed.
    pub pool: Option<u64>,
    /// What a send does at a full receiver.
    pub strategy: Option<BackpressureStrategy>,
    /// Whether messages may grow past the greatest length.
    pub allocation: Option<AllocationStrategy>,
    /// Of a server: the loans of one request.
    pub loaned_responses: Option<u64>,
    /// What decides at each full receiver, before the strategy does.
    pub handler: Option<H>,
}

/// A command of a hub: a port is made, or a port or handle is called by its number. The number of
/// the node that asks comes first, then that of the port or handle. `P` is a payload, `H` a
/// backpressure handler.
#[derive(Debug, Drop)]
pub enum PortCommand<P, H> {
    /// Makes a client, of a node with that id. A service takes the id with which the node joined.
    Client {
        node: u64,
        /// The id of its node, with which the port's own id is made.
        id: UniqueNodeId,
        /// What differs from the service's settings.
        options: PortOptions<H>,
    },
    /// Makes a server, of a node with that id. A service takes the id with which the node joined.
    Server {
        node: u64,
        /// The id of its node, with which the port's own id is made.
        id: UniqueNodeId,
        /// What differs from the service's settings.
        options: PortOptions<H>,
    },
    /// Of a client or an active request: a message of so many elements that holds the default.
    Loan {
        node: u64,
        number: u64,
        /// How many elements the message has; 1, where messages have one.
        elements: u64,
    },
    /// Of a loan: these elements are its payload now, and it is filled.
    Write {
        node: u64,
        number: u64,
        /// All elements, as many as the loan has.
        payload: P,
    },
    /// Of a filled loan: a request goes to the servers, a response to the client that asked.
    Send {
        node: u64,
        number: u64,
    },
    /// Loan, write and send in one.
    SendCopy {
        node: u64,
        number: u64,
        /// All elements; the loan has as many.
        payload: P,
    },
    /// Of a server or a pending response.
    Receive {
        node: u64,
        number: u64,
    },
    /// Of a handle that is no unfilled loan: the words of its message, those of the user header
    /// first.
    Read {
        node: u64,
        number: u64,
    },
    /// Gives up the port or the handle.
    Release {
        node: u64,
        number: u64,
    },
    /// Of a pending response or an active request: whether the request is still open.
    IsConnected {
        node: u64,
        number: u64,
    },
    /// Of a pending response: tells the servers that no more responses are wanted.
    SetHint {
        node: u64,
        number: u64,
    },
    /// Of an active request: whether its client wants no more responses.
    HasHint {
        node: u64,
        number: u64,
    },
    /// Of a server: whether a request waits, also one that a receive would skip.
    HasRequests {
        node: u64,
        number: u64,
    },
    /// Of a pending response: whether a response waits on its lane.
    HasResponse {
        node: u64,
        number: u64,
    },
}

/// A command of a service; `V` is what an opener asks of types and attributes.
#[derive(Debug, Drop)]
pub enum Command<P, H, V> {
    /// A node opens the service, with these four numbers as its id. What it asks is compared with
    /// what the service says of itself.
    Join { id: UniqueSystemId, asked: V },
    /// Of a node; a port that it makes has the id with which the node joined.
    Port(PortCommand<P, H>),
    /// A node that has no port and no handle leaves. The last one closes the service.
    Leave { node: u64 },
    /// The node asks nothing more from now on. What it has stays, until it is cleaned up.
    DeclareDead { node: u64 },
    /// Releases all that a dead node has, and then the node is gone.
    Cleanup { node: u64 },
    /// The numbers of all nodes, dead ones too.
    ListNodes,
    /// The numbers of all connected clients, those of dead nodes too.
    ListClients,
    /// The numbers of all connected servers, those of dead nodes too.
    ListServers,
}
