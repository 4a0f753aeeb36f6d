//! What the send of a request comes to.

/// What the send of a request came to.
#[derive(Clone, Copy, Debug, PartialEq, Eq)]
pub enum Requested {
    /// It was delivered to so many servers, and its handle is a pending response.
    To(u64),
    /// Its client has as many pending responses as it may, and the request is lost.
    ExceedsMaxActiveRequests,
    /// A server may not take it now, and it is lost.
    UnableToDeliver,
}
