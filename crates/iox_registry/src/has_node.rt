//! Whose node what is registered is.
ghost use Rattle.std.specs.Prelude.{◌≡◌};
ghost use Rattle.iox_types.specs.declared.identifiers.system_id.UniqueSystemId.{UniqueSystemId as Id};

use iox_types::identifiers::UniqueNodeId;
use std::fmt;

/// Details that name a node.
pub trait HasNode: Copy + fmt::Debug {
    ghost node: { Self → Id };

    /// The node that what is registered belongs to.
    fn node_id(&self) -> UniqueNodeId
        ensures { result ≡ node self.now };
}

impl HasNode for UniqueNodeId {
    ghost node = { λ id. id };

    fn node_id(&self) -> UniqueNodeId {
        *self
    }
}
