//! Queues for one that pushes and one that pops.
pub mod index_queue;
pub mod queue;
pub mod safely_overflowing_index_queue;
