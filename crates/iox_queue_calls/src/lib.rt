//! Whole calls on the words of a queue, each with no other party's access in between. They answer
//! and leave what the calls of the plain queues do.
#![tactic(auto)]

mod answer;
mod law;
mod pair;
mod whole;

pub use law::queues_apart_stay;
pub use pair::push_and_pop;
pub use whole::{holds_when_empty, is_empty, is_full, pop, push};
