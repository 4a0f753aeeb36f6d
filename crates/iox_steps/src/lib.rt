//! The calls of a queue as single accesses to shared words: parties that make one access after
//! another, what each does to the queue, and a step machine for any schedule.
#![tactic(auto)]

mod access;
mod error;
mod law;
mod machine;
mod machine_party;
mod pop;
mod push;
mod side;
mod site;

pub use access::{Access, Next, Party, Progress};
pub use error::MachineError;
pub use law::{every_access_keeps_the_queue, queues_apart_stay_apart};
pub use machine::{Entry, Machine, perform, tell};
pub use machine_party::MachineParty;
pub use pop::{EmptyLook, Pop};
pub use push::{FullLook, Push, PushReply};
pub use side::{Popping, Pushing, QueueEvent, QueueReply, tell_event};
pub use site::{QueueKind, Site};
