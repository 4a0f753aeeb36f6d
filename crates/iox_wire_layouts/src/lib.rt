//! That the layout of a plan has what the laws of a wire ask, and whether a plan makes sense.
#![tactic(auto)]

mod checks;
mod laws;
pub mod uses;

pub use checks::is_plan;
pub use laws::layouts_meet_the_laws;
