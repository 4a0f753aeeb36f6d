//! With what a port is made.

use iox_types::backpressure::{AllocationStrategy, BackpressureStrategy};

/// With what a port is made. Where nothing is given, the service's settings hold, and the pool is
/// the most that is ever needed.
#[derive(Clone, Copy, Debug, PartialEq, Eq)]
pub struct Options {
    /// The greatest length of its messages, in elements; it counts where messages have many.
    pub max_slice_len: u64,
    /// How many messages its pool has: raised to 1, and lowered to the most that are ever needed.
    pub pool: Option<u64>,
    /// What it does at a full receiver.
    pub strategy: Option<BackpressureStrategy>,
    /// Whether its messages grow past the greatest length.
    pub allocation: Option<AllocationStrategy>,
    /// Of a server: the loans of one request.
    pub loaned_responses: Option<u64>,
}
