//! One read of at most so many bytes, and all the writes of a text, over any reader and writer.
//! What a signal interrupted is tried again.
#![tactic(auto)]

mod fault;
mod reads;
mod writes;

pub use fault::Fault;
pub use reads::read_within;
pub use writes::send;
