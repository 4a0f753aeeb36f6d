//! The calls of ports and handles, by number.

/// A call of the port or handle of that number, with payloads `P`.
pub enum Call<P> {
    /// Of a client or an active request: a message of so many elements that holds the default; on
    /// a wire its payload may be any words.
    Loan { number: u64, elements: u64 },
    /// The same with nothing filled; not on a wire.
    LoanUninit { number: u64, elements: u64 },
    /// Of a loan: these elements are its payload now, and it is filled.
    Write { number: u64, payload: P },
    /// Of a filled loan: a request goes to the servers, a response to the client that asked.
    Send { number: u64 },
    /// Loan, write and send in one.
    SendCopy { number: u64, payload: P },
    /// Of a server or a pending response.
    Receive { number: u64 },
    /// Of a handle that is no unfilled loan: the words of its message, those of the user header
    /// first.
    Read { number: u64 },
    /// Gives up the handle, or, where no wire is open, the port.
    Release { number: u64 },
    /// Of a pending response or an active request: whether the request is still open.
    IsConnected { number: u64 },
    /// Of a pending response: tells the servers that no more responses are wanted.
    SetHint { number: u64 },
    /// Of an active request: whether its client wants no more responses.
    HasHint { number: u64 },
    /// Of a server: whether a request waits, also one that a receive would skip.
    HasRequests { number: u64 },
    /// Of a pending response: whether a response waits on its lane.
    HasResponse { number: u64 },
}

/// A call of a node of a wire.
pub enum WireCall<P> {
    /// A call of a port or a handle.
    Port(Call<P>),
    /// Gives up all that concerns a dead node.
    Forget { dead: u64 },
}
