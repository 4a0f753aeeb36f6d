//! Where the send of a request is, and what it answers as it is over.

/// Where the send of a request is, without what belongs to it.
#[derive(Clone, Copy)]
pub enum RequestAt {
    /// No send is under way.
    Rest,
    /// The client has as many pending responses as it may: the send is refused.
    Refuses,
    /// There is no server: it is sent to nobody.
    TellsNobody,
    /// It gets back what a server gave back.
    Empties,
    /// It looks whether a server is full.
    Looks,
    /// It opens a request state.
    Opens,
    /// It delivers the request.
    Pushes,
    /// It pushes the oldest request out.
    Evicts,
    /// It gets back what it pushed out.
    GetsBack,
}

/// What the send of a request answers.
#[derive(Clone, Copy, Debug, PartialEq, Eq)]
pub enum RequestReply {
    /// The loan was sent to so many servers.
    Sent(u64),
    /// The loan of the same call was sent: its pending response has that number.
    Handle(u64),
    /// The client has as many pending responses as it may.
    ExceedsMaxActiveRequests,
    /// A server is full, and the client's strategy is to fail there.
    UnableToDeliver,
}
