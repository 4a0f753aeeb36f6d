//! How the tables of a hub show the state of the machine, what is so of them between calls, and
//! that calls keep it. Each module is there for the contracts of its functions, which have nothing
//! to do.
#![tactic(auto)]

pub mod hub_books;
pub mod hub_keeping;
pub mod hub_lending;
pub mod hub_loans;
pub mod hub_making;
pub mod hub_states;

pub use iox_lanes::{expired, incoming, pipe, pipe_steps, steps, wanted};
