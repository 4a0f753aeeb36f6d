//! A server to which a request goes, and where the words stand that the send accesses there.
ghost use Rattle.std.specs.Prelude.{◌≡◌, ◌+◌, ◌<◌, ◌^◌};

use iox_steps::{QueueKind, Site};

/// What is the same of all servers to which a request goes.
#[derive(Clone, Copy)]
pub struct RequestTerms {
    /// The kind of the queues in which requests wait.
    pub kind: QueueKind,
    /// How many requests may wait in each of them.
    pub capacity: usize,
    /// How many words behind such a queue the one begins in which requests return.
    pub back: usize,
    /// How many requests may return from each server.
    pub room: usize,
    /// How many words behind such a queue the request state stands on the lane of the loan.
    pub state: usize,
    /// Whether a full queue gives up its oldest message.
    pub overflow: bool,
    /// Whether the send fails where a server is full.
    pub fails: bool,
    /// How many pending responses the client may have.
    pub active: u64,
}

/// A server to which a request goes, and where requests wait there.
#[derive(Clone, Copy)]
pub struct Target {
    /// The number of the server.
    pub server: u64,
    /// The place of the queue in which requests wait for it.
    pub place: usize,
}

impl RequestTerms {
    ghost use Rattle.std.specs.Prelude.{◌≡◌, ◌+◌, ◌<◌, ◌^◌};
    ghost use Rattle.iox_wire_request_sends.specs.Targets.{messages_at, returning_at, state_at};

    /// Where requests wait for a server.
    #[inline(always)]
    pub fn messages(self, target: Target) -> Site
        ensures { result ≡ messages_at self target }
    {
        Site {
            kind: self.kind,
            base: target.place,
            capacity: self.capacity,
        }
    }

    /// Where they return.
    #[inline(always)]
    pub fn returning(self, target: Target) -> Site
        requires { target.place + self.back < 2 ^ 64 }
        ensures { result ≡ returning_at self target }
    {
        Site {
            kind: QueueKind::Index,
            base: target.place + self.back,
            capacity: self.room,
        }
    }

    /// Where the request state stands.
    #[inline(always)]
    pub fn state(self, target: Target) -> usize
        requires { target.place + self.state < 2 ^ 64 }
        ensures { result ≡ state_at self target }
    {
        target.place + self.state
    }
}
