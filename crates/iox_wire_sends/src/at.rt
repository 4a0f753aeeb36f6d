//! Where the send of a response is, and what it answers as it is over.

/// Where the send of a response is, without what belongs to it.
#[derive(Clone, Copy)]
pub enum RespondAt {
    /// No send is under way.
    Rest,
    /// The client is gone: nothing is sent.
    Tells,
    /// It asks whether the request is still named.
    Asks,
    /// It gets back what the client gave back.
    Empties,
    /// It looks whether the client is full.
    Looks,
    /// It delivers the response.
    Pushes,
    /// It pushes the oldest response out.
    Evicts,
    /// It gets back what it pushed out.
    GetsBack,
}

/// What the send of a response answers.
#[derive(Clone, Copy, Debug, PartialEq, Eq)]
pub enum RespondReply {
    /// It is sent, or nobody waits for it.
    Done,
    /// The client is full, and the server's strategy is to fail there.
    UnableToDeliver,
}
