//! What is asked of a new port, and why none is made.

use iox_types::backpressure::BackpressureStrategy;

/// What is asked of a new port, as its options and its service say.
#[derive(Clone, Copy, Debug, PartialEq, Eq)]
pub struct Asked {
    /// Whether it is too large; then nothing else is looked at.
    pub large: bool,
    /// How many messages it has.
    pub size: usize,
    /// The greatest length of a message, in elements.
    pub longest: u64,
    /// Whether its messages grow past that length.
    pub grows: bool,
    /// What a send does at a full receiver, unless a handler decides.
    pub strategy: BackpressureStrategy,
    /// How many loans one request may have.
    pub loaned_responses: u64,
}

/// Why a port was not made.
#[derive(Clone, Copy, Debug, PartialEq, Eq)]
pub enum NotMade {
    /// As many ports were made as can be counted.
    PortTag,
    /// It is too large, or there is no memory for it.
    DataSegment,
    /// There are as many ports of its role as there may be.
    TooManyPorts,
}
