//! What is asked of handles, and why a call does not begin.
#![tactic(auto)]

mod asked;
mod connected;
mod naming;
mod refusals;

pub use asked::{Asked, NotBegun, may_be_asked};
pub use connected::{has_hint, is_connected};
pub use refusals::refusal;
