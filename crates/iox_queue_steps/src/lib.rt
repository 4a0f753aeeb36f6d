//! A queue whose two parties make single accesses: whatever the schedule, the values published are,
//! in order, those that left and then those that wait. Its parties are kept in memory, and can be
//! had without the machine.
#![tactic(auto)]

mod machine;
mod party;
mod queue;
mod stored;

pub use machine::QueueMachine;
pub use party::QueueParty;
pub use queue::{Call, Side};
pub use stored::{StepAnswer, StoredPopper, StoredPusher, StoredQueue};
