//! Loans of clients and of servers, and writes, as calls of a hub's tables.
#![tactic(auto)]

mod asked;
mod calls;
mod counts;
mod foretelling;
mod lanes;
mod lend;
mod refusals;
mod retaking;
mod taking;
pub mod uses;
mod writes;

pub use asked::{Asked, Lending, Lent, LoanRefusal, Loaned, Place, Written};
pub use calls::{lend_request, lend_request_of, lend_response_of};
pub use counts::{pendings_of, requests_on_loan, responses_on_loan, responses_to};
pub use foretelling::{request_may_be_made, response_may_be_made};
pub use lanes::{free_lane, is_lane_taken};
pub use refusals::loan_refusal;
pub use writes::{fill, write, write_known, write_whole};
