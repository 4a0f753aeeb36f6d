//! What a number may name: a port of one of the two roles, or a handle.

/// What a port does.
#[derive(Clone, Copy, Debug, PartialEq, Eq)]
pub enum Role {
    /// It sends requests and receives their responses.
    Client,
    /// It receives requests and answers them.
    Server,
}

/// What a value of a port or of a handle is.
#[derive(Clone, Copy, Debug, PartialEq, Eq)]
pub enum Kind {
    /// The value of a client itself.
    Client,
    /// The value of a server itself.
    Server,
    /// A loaned request that is not filled yet.
    RequestMutUninit,
    /// A loaned request.
    RequestMut,
    /// A loaned response that is not filled yet.
    ResponseMutUninit,
    /// A loaned response.
    ResponseMut,
    /// A request that was sent.
    PendingResponse,
    /// A request that was received.
    ActiveRequest,
    /// A response that was received.
    Response,
}
