//! The sets of one thread.
mod bit_set;
pub mod callers;
mod counting_bit_set;
mod robust_unique_index_set;
mod unique_index_set;
