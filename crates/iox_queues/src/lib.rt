//! Queues of fixed capacity, for one thread. The waiting values are a list, oldest first. Beside
//! them a value that one producer stores and that anyone loads.
#![tactic(auto)]

mod places;
mod ring;
pub mod spmc;
pub mod spsc;
