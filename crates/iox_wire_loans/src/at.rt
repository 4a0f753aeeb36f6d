//! Where a loan is, and what it answers as it is over.
use iox_wire_locals::CallRefusal;

/// Where a loan is, without what belongs to it.
#[derive(Clone, Copy)]
pub enum LendAt {
    /// No loan is under way.
    Rest,
    /// It is refused, and has no access left.
    Refuses,
    /// It gets back what was returned on a way.
    Empties,
    /// It has a slot, and stores the words of its message there.
    Stores,
}

/// What a loan answers.
#[derive(Clone, Copy)]
pub enum LendReply {
    /// The handle of that number.
    Handle(u64),
    /// It is refused, for this cause.
    Refused(CallRefusal),
}
