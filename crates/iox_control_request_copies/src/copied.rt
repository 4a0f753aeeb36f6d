//! What the copy of a request comes to.

use iox_control_copies::{LoanRefusal, Place};

/// What the copy of a request came to.
#[derive(Clone, Copy, Debug, PartialEq, Eq)]
pub enum Copied {
    /// It was delivered.
    To {
        /// The number of its pending response.
        number: u64,
        /// To how many servers it was delivered.
        servers: u64,
        /// Where its words belong.
        place: Place,
    },
    /// No loan is made for it.
    Refused(LoanRefusal),
    /// Somebody has each slot of the client's pool.
    OutOfMemory,
    /// Its client has as many pending responses as it may, and it is lost.
    ExceedsMaxActiveRequests,
    /// A server may not take it now, and it is lost.
    UnableToDeliver,
}
