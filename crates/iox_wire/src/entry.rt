//! An entry of a schedule.
use iox_wire_weaves::NodeCall;

/// An entry of a schedule: what the node of that number does.
#[derive(Clone, Copy, Debug)]
pub enum WireEntry<'a> {
    /// It begins the call.
    Begin(u64, NodeCall<'a>),
    /// It makes one access of its call.
    Step(u64),
    /// It dies: it does nothing from now on.
    Die(u64),
}
