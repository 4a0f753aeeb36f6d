//! What is registered with a service.
ghost use Rattle.std.specs.Prelude.{◌≡◌};
ghost use Rattle.iox_registry.specs.Standing.{mode_of};

use iox_sets::mpmc::unique_index_set_enums::ReleaseMode;

/// A node, or a port of one of the kinds.
#[derive(Clone, Copy, Debug, PartialEq, Eq)]
pub enum Role {
    /// A node that opened the service.
    Node,
    /// A port that sends requests.
    Client,
    /// A port that answers requests.
    Server,
    /// A port that sends samples.
    Publisher,
    /// A port that receives samples.
    Subscriber,
    /// A port that notifies listeners.
    Notifier,
    /// A port that waits for events.
    Listener,
    /// A port that reads a blackboard.
    Reader,
    /// A port that writes a blackboard.
    Writer,
}

impl Role {
    /// Nodes lock their register as the last of them goes, ports do not.
    #[inline]
    pub(crate) fn mode(self) -> ReleaseMode
        ensures { result ≡ mode_of self }
    {
        match self {
            Role::Node => ReleaseMode::LockIfLastIndex,
            _ => ReleaseMode::Default,
        }
    }
}
