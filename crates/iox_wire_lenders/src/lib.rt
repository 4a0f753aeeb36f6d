//! What a wire is told about its ports beside its plan, and the lenders that are made of both.
#![tactic(auto)]

mod lenders;
mod terms;

pub use lenders::make_lender;
pub use terms::{MessageTerms, PortTerms, WireTerms};
