//! Why a wire refuses what is asked of a node.

/// Why a wire refuses what is asked of a node. The first that applies is told; nothing changes.
#[derive(Clone, Copy, Debug, PartialEq, Eq)]
pub enum WireRefusal {
    /// The wire has no node of that number.
    UnknownNode,
    /// The node was declared dead: it does nothing more.
    NodeIsDead,
    /// A call of the node is under way: let it end first.
    Busy,
    /// The node has no handle of that number, and it is no port's.
    UnknownNumber,
    /// The port of that number is another node's.
    ForeignNumber,
    /// Ports and handles of that kind do not have the call.
    WrongKind,
    /// No call of the node is under way: begin one first.
    AtRest,
    /// The node made as many accesses as it may.
    AccessesSpent,
    /// There is no room for what the step is to record, and no memory.
    WantOfMemory,
}
