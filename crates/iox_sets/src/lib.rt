//! Sets of bits, counts and indices of fixed capacity, for one thread.
#![tactic(auto)]

pub mod mpmc;
mod words;
