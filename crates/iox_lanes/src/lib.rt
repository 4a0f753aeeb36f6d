//! The lanes on which messages go from one port to another, by their places in their sender's pool.
//! A lane takes its memory when it is made, and never again.
#![tactic(auto)]

mod cells;
pub mod expired;
pub mod incoming;
pub mod lane;
mod marks;
pub mod pipe;
pub mod pipe_steps;
pub mod search;
pub mod states;
pub mod steps;
pub mod uses;
pub mod wanted;
