//! Queues and sets of fixed capacity, at the paths of their modules, and the machine that plays
//! their calls one access after another. The crates below hold them.
#![tactic(auto)]

pub mod machine;
pub mod mpmc;
pub mod spmc;
pub mod spsc;

pub use iox_words::{CallbackProgression, Words, ZeroCopySend};
