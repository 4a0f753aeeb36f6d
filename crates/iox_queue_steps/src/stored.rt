//! The parties of a queue as they are kept in memory between their steps. Each keeps a position and
//! its cell from call to call, so that a step at the expected position makes no division.
mod answer;
mod cell;
mod hearing;
mod popper;
mod pusher;
mod queue;

pub use answer::StepAnswer;
pub use popper::StoredPopper;
pub use pusher::StoredPusher;
pub use queue::StoredQueue;
