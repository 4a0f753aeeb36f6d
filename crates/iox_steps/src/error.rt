//! Why a machine refuses an entry of a schedule.

/// An entry that is refused; the machine is as before.
#[derive(Clone, Copy, Debug, PartialEq, Eq)]
pub enum MachineError {
    /// no party has this number, or it makes no such calls
    UnknownParty,
    /// a step of a party with no call under way
    AtRest,
    /// a begin by a party whose call is under way
    Busy,
    /// no memory for what happens; nothing changed
    WantOfMemory,
}
