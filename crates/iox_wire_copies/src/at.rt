//! Where a copy is, and what it answers as it is over.
use iox_wire_locals::CallRefusal;

/// Where the loan of a copy is, without what belongs to it.
#[derive(Clone, Copy)]
pub enum CopyAt {
    /// No loan is under way.
    Rest,
    /// It gets back what was returned, takes a slot, and stores the words in front of the payload.
    Lends,
    /// It stores the words of its payload.
    Writes,
}

/// How the loan of a copy is over.
#[derive(Clone, Copy)]
pub enum CopyLent {
    /// It is refused, and told why.
    Refused(CallRefusal),
    /// It is made, and is no handle: it is to be sent. `CopyLending::loan` tells it.
    Made,
}

/// Where a client or a server is that copies a message, without what belongs to it.
#[derive(Clone, Copy)]
pub enum CopierAt {
    /// No copy is under way.
    Rest,
    /// The payload is not of whole elements: it is refused, and has no access left.
    Refuses,
    /// It makes the loan, and stores its payload.
    Lends,
    /// It sends the loan.
    Sends,
}

/// What the copy of a request answers. Whether its loan or its send is refused is not told apart.
#[derive(Clone, Copy)]
pub enum CopyReply {
    /// The request is sent: its pending response has that number.
    Handle(u64),
    /// Its loan or its send is refused, for this cause.
    Refused(CallRefusal),
}

/// What the copy of a response answers. Whether its loan or its send is refused is not told apart.
#[derive(Clone, Copy)]
pub enum ResponseCopyReply {
    /// It is sent, or nobody waits for it.
    Done,
    /// Its loan or its send is refused, for this cause.
    Refused(CallRefusal),
}
