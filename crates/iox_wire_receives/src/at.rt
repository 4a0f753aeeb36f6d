//! Where a receive is, and what it answers as it is over.

/// Where a receive is, without what belongs to it.
#[derive(Clone, Copy)]
pub enum ReceiveAt {
    /// No receive is under way.
    Rest,
    /// There was no way to visit.
    TellsNothing,
    /// At the borrow limit of a way it looks whether something waits there.
    Looks,
    /// Below that limit it pops the oldest message of the way.
    Pops,
    /// It loads the header of what it took.
    Loads,
    /// It asks whether the request that it took is still named.
    Asks,
    /// It gives back what does not fit.
    Returns,
}

/// What a receive answers.
#[derive(Clone, Copy, Debug, PartialEq, Eq)]
pub enum ReceiveReply {
    /// Nothing waited.
    Nothing,
    /// Something waited, where the receiver has as much as it may.
    ExceedsMaxBorrows,
    /// The handle of that number.
    Handle(u64),
}
