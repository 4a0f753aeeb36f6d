//! The copies of responses: loan, write and send in one.
#![tactic(auto)]

mod answered;
mod answering;
mod copying;
mod lining;
mod losing;
pub mod uses;

pub use answered::Answered;
pub use copying::copy_response;
pub use iox_control_lending::{
    Asked, Lending, Lent, LoanRefusal, Loaned, Place, Written, fill, lend_request, lend_request_of,
    lend_response_of, loan_refusal, request_may_be_made, response_may_be_made, write, write_known,
    write_whole,
};
pub use iox_control_responses::{Responded, fails_when_full, send_response, send_response_usual};
