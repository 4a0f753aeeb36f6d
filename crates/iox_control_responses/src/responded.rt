//! What the send of a response comes to.

/// What the send of a response came to.
#[derive(Clone, Copy, Debug, PartialEq, Eq)]
pub enum Responded {
    /// It waits for its client, or nobody waits for it.
    Done,
    /// Its client may not take it now, and it is lost.
    Undelivered,
}
