//! What a command is answered, and the names of the refusals.

/// Why a command or a call was refused, with causes `C` of attributes that do not fit. Tests that
/// stand in one group are made in its order.
///
/// From `MessagesUnderWay` to `AccessesSpent` they are of a wire: the definitions name them, and
/// the code of a wire answers with errors of its own.
#[derive(Clone, Copy, Debug, PartialEq, Eq)]
pub enum Refusal<C> {
    // a node
    /// The service has no node of that number: none with it joined, or it left or was cleaned up.
    UnknownNode,
    /// The node was declared dead: it asks nothing more.
    NodeIsDead,
    /// The node to be cleaned up, or on a wire to be forgotten, was not declared dead.
    NodeIsAlive,
    // a number of a port or a handle, then the count of calls, then the length
    /// No port or handle has that number, or not any more. On a wire each node has numbers of its
    /// own.
    UnknownNumber,
    /// The port or handle of that number is another node's.
    ForeignNumber,
    /// The call is not one of such a port or handle, as a receive is not one of a client.
    WrongKind,
    /// 2^56 loans, sends and receives of the hub were made: there are no more.
    CallsSpent,
    /// The payload is not of whole elements, or not of as many as the loan has; or more than one
    /// element, or none, is asked for where messages have one.
    WrongLength,
    // a loan
    /// The message would be longer than the port's greatest length and may not grow, or it would
    /// have 2^63 bytes or more.
    ExceedsMaxLoanSize,
    /// As many messages are loaned as may be: send or release one first.
    ExceedsMaxLoans,
    /// Each message of the port's pool is in use.
    OutOfMemory,
    /// There is no memory: for a message that must grow, for the words of a read, or for a node, a
    /// service or a wire.
    WantOfMemory,
    // a send
    /// The client has as many pending responses as it may: release one first.
    ExceedsMaxActiveRequests,
    /// A receiver is full, and the port's handler or strategy makes the send fail there. Nobody
    /// gets the message.
    UnableToDeliver,
    // a receive
    /// Messages wait, but only of senders of which as many are held as may be: release one first.
    ExceedsMaxBorrows,
    // the making of a port
    /// 2^32 ports were made.
    UnableToCreatePortTag,
    /// The port's pool would have more than 2^24 - 2 messages or 2^64 bytes or more, a message
    /// would have 2^63 bytes or more, or there is no memory for the port.
    UnableToCreateDataSegment,
    /// As many clients are connected as the service may have.
    ExceedsMaxSupportedClients,
    /// As many servers are connected as the service may have.
    ExceedsMaxSupportedServers,
    // the creation of a service, or a node that joins or leaves
    /// The service is closed, since its last node is gone: nobody joins it any more.
    MarkedForDestruction,
    /// The id has neither a process number nor a counter: both are 0.
    InvalidNodeId,
    /// A node of the service has that id already. It may be dead.
    NodeIdInUse,
    /// The types of the requests do not fit those of the service.
    IncompatibleRequestTypes,
    /// The types of the responses do not fit those of the service.
    IncompatibleResponseTypes,
    /// The service lacks a pair or a key that the opener requires; the cause tells which.
    IncompatibleAttributes(C),
    /// The service is to have more than 2^24 - 2 clients, servers or nodes.
    LimitTooLarge,
    /// The service has as many nodes as it may, dead ones among them.
    ExceedsMaxNumberOfNodes,
    /// The node that leaves has a port or a handle that is not released.
    HasPorts,
    // the opening of a wire
    /// A message waits, a node has a handle, or a dead node was not cleaned up.
    MessagesUnderWay,
    /// The messages of a port may grow.
    GrowingStrategy,
    /// A port has a backpressure handler.
    HandlerSet,
    /// A part of the messages is aligned to less than 8 bytes.
    UnsuitableAlignment,
    /// The wire would have 2^64 words or more.
    TooManyWords,
    // a begin, and a step, on a wire
    /// A call of the node is under way, and has to end first.
    Busy,
    /// The node has no call under way that could make a step.
    AtRest,
    /// The node made 2^56 accesses: there are no more.
    AccessesSpent,
    // a begin of a call that threads do not have
    /// The call is not one that threads may make. No definition names it, and no code answers it.
    NotOnThreads,
}

/// What a command of a service is answered, with lists `L` of numbers.
#[derive(Debug, Drop)]
pub enum Reply<L, C> {
    /// A node joined, with this number.
    Node(u64),
    /// A client was made, with this number.
    Client(u64),
    /// A server was made, with this number.
    Server(u64),
    /// A handle was made, with this number.
    Handle(u64),
    /// A loaned request was sent, to so many servers.
    Sent(u64),
    /// It was done.
    Done,
    /// Nothing was there to receive.
    Nothing,
    /// The words of a message.
    Words(L),
    /// The answer to a question.
    Answer(bool),
    /// The numbers asked for, ascending.
    Listed(L),
    /// The command was not done, for this cause.
    Refused(Refusal<C>),
}

/// What a command of a hub is answered, with lists `L` of numbers.
#[derive(Debug, Drop)]
pub enum PortReply<L, C> {
    /// A client was made, with this number.
    Client(u64),
    /// A server was made, with this number.
    Server(u64),
    /// A handle was made, with this number.
    Handle(u64),
    /// A loaned request was sent, to so many servers.
    Sent(u64),
    /// It was done.
    Done,
    /// Nothing was there to receive.
    Nothing,
    /// The words of a message.
    Words(L),
    /// The answer to a question.
    Answer(bool),
    /// The command was not done, for this cause.
    Refused(Refusal<C>),
}
