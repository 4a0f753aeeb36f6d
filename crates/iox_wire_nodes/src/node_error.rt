//! Why a call of a node does not begin.
ghost use Rattle.std.specs.Prelude.{◌≡◌};
ghost use Rattle.iox_wire_nodes.specs.declared.node_error.NodeError.TheVariants.{Begin};

use iox_wire_begins::BeginError;

/// Why a call of a node does not begin. The first that applies is told.
#[derive(Clone, Copy, Debug, PartialEq, Eq)]
pub enum NodeError {
    /// It is refused.
    Begin(BeginError),
}

impl From<BeginError> for NodeError {
    ghost from_gives = { λ refusal error. error ≡ Begin refusal };

    fn from(error: BeginError) -> NodeError {
        NodeError::Begin(error)
    }
}
