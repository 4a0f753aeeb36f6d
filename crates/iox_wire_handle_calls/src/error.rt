//! Why a call does not begin.

/// Why a call does not begin. The first that applies is told.
#[derive(Clone, Copy, Debug, PartialEq, Eq)]
pub enum BeginError {
    /// A call of the node is under way.
    Busy,
    /// The node has no handle of that number, and it is no port's.
    UnknownNumber,
    /// The port of that number is another node's.
    ForeignNumber,
    /// Ports and handles of that kind do not have the call.
    WrongKind,
}
