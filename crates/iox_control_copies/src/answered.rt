//! What the copy of a response comes to.

use iox_control_lending::{LoanRefusal, Place};

/// What the copy of a response came to.
#[derive(Clone, Copy, Debug, PartialEq, Eq)]
pub enum Answered {
    /// It waits for its client, and its words belong there; or nobody gets it.
    Done(Option<Place>),
    /// No loan is made for it.
    Refused(LoanRefusal),
    /// Somebody has each slot of the server's pool.
    OutOfMemory,
    /// Its client may not take it now, and it is lost.
    Undelivered,
}
