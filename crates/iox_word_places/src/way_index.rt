//! Ways by the indexes of their ports.
ghost use Rattle.std.specs.Prelude.{◌≡◌};
ghost use Rattle.iox_word_places.specs.Plans.{sender_of};

use iox_model::kind::Role;

/// A way of a wire, by where its two ports stand in the plan's list.
#[derive(Clone, Copy, Debug, PartialEq, Eq)]
pub enum WayIndex {
    /// From a client to a server.
    Requests {
        /// The index of the client that sends.
        client: usize,
        /// The index of the server that receives.
        server: usize,
    },
    /// From a server to a client, on one of the client's lanes.
    Responses {
        /// The index of the client that receives.
        client: usize,
        /// The index of the server that sends.
        server: usize,
        /// The client's lane, below its pool.
        lane: usize,
    },
}

impl WayIndex {
    /// The role of its sender.
    pub fn sender(self) -> Role
        ensures { result ≡ sender_of self }
    {
        match self {
            WayIndex::Requests { .. } => Role::Client,
            WayIndex::Responses { .. } => Role::Server,
        }
    }
}
