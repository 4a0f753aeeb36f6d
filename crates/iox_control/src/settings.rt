//! The numbers and strategies of a service, as its hub keeps them.
use iox_types::backpressure::{AllocationStrategy, BackpressureStrategy};

/// The numbers and strategies of a service. A limit of 0 counts as 1, except for `client_expired`
/// and `server_expired`.
#[derive(Clone, Copy, Debug, PartialEq, Eq)]
pub struct Settings {
    /// How many clients may be connected at once: by default 8, of a service at most 2^24 - 2.
    pub clients: u64,
    /// How many servers may be connected at once: by default 2, of a service at most 2^24 - 2.
    pub servers: u64,
    /// How many nodes a service may have at once, dead ones too: by default 20, at most 2^24 - 2.
    /// A hub does not ask.
    pub nodes: u64,
    /// How many pending responses a client may have: by default 4. As many of its requests may
    /// wait at a server, and as many may be held there.
    pub active_requests: usize,
    /// How many requests a client may have loaned at once: by default 2.
    pub loaned_requests: usize,
    /// How many responses to one request may wait, from one server: by default 2.
    pub response_buffer: usize,
    /// How many responses to one request a client may hold, from one server: by default 2.
    pub borrowed_responses: usize,
    /// How many responses to one request a server may have loaned at once: by default 2. A
    /// server's own option goes before it.
    pub loaned_responses: u64,
    /// Of how many servers that are gone a client keeps the waiting responses: by default 128. For
    /// one more the oldest is given up; 0 keeps none.
    pub client_expired: usize,
    /// Of how many clients that are gone a server keeps the waiting requests: by default 128. For
    /// one more the oldest is given up; 0 keeps none. It counts only under `fire_and_forget`.
    pub server_expired: usize,
    /// Whether a request for a full server pushes out the oldest that waits there: by default so.
    /// Else the client's handler or strategy decides.
    pub request_overflow: bool,
    /// Whether a response for a full client pushes out the oldest that waits there: by default so.
    /// Else the server's handler or strategy decides.
    pub response_overflow: bool,
    /// Whether a server also receives requests that their client gave up: by default so.
    pub fire_and_forget: bool,
    /// What a client does at a full server, unless it has a strategy or a handler of its own: by
    /// default `RetryUntilDelivered`.
    pub client_strategy: BackpressureStrategy,
    /// What a server does at a full client, unless it has a strategy or a handler of its own: by
    /// default `RetryUntilDelivered`.
    pub server_strategy: BackpressureStrategy,
    /// Whether requests may grow past a client's greatest length, unless the client has a strategy
    /// of its own: by default `Static`.
    pub client_allocation: AllocationStrategy,
    /// Whether responses may grow past a server's greatest length, unless the server has a
    /// strategy of its own: by default `Static`.
    pub server_allocation: AllocationStrategy,
}
