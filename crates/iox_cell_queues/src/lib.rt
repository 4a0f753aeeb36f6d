//! A queue of values of any type with words, as single accesses to shared words: the parties'
//! programs, a step machine for any schedule, and whole calls. Whatever the schedule, the values
//! that are handed out are, in order, the first of those published, whole, and the rest waits.
#![tactic(auto)]

mod answer;
mod event;
mod law;
mod machine;
mod party;
mod pop;
mod push;
mod queue;
mod side;
mod site;
pub mod whole;

pub use event::{CellEvent, CellReply};
pub use law::{
    every_access_keeps_the_queue, every_access_keeps_the_values, queues_apart_stay,
    swapped_stores_break_the_queue, values_are_kept_until_published,
};
pub use machine::CellMachine;
pub use pop::CellPop;
pub use push::CellPush;
pub use queue::{CellCall, CellParty, CellSide};
pub use side::{CellPopping, CellPushing};
pub use site::CellSite;
