//! Queues that one end pushes to and the other pops from, in the form for one thread.
pub use iox_queues::spsc::{index_queue, queue, safely_overflowing_index_queue};
