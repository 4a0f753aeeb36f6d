//! The copies of requests: loan, write and send in one. It passes on the other sends of a hub's
//! tables.
#![tactic(auto)]

mod copied;
mod copying;
mod counts;
mod losing;
mod sending;
pub mod uses;

pub use copied::Copied;
pub use copying::copy_request;
pub use iox_control_copies::{
    Answered, Asked, Lent, LoanRefusal, Loaned, Place, Responded, Written, copy_response,
    fails_when_full, fill, lend_request, lend_request_of, lend_response_of, request_may_be_made,
    response_may_be_made, send_response, send_response_usual, write, write_known, write_whole,
};
pub use iox_control_requests::{ByStrategy, Requested, WhenFull, send_request, send_request_usual};
