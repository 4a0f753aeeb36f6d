//! Sets that many may change, in the form for one thread.
pub mod bit_set;
mod capacities;
pub mod counting_bit_set;
pub mod robust_unique_index_set;
pub mod unique_index_set;
pub mod unique_index_set_enums;
