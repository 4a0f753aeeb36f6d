//! What the messages of one sender carry, in numbered places: the one part of a hub that knows the
//! types of payloads and user headers. Callers see words.
#![tactic(auto)]

mod cell;
mod payload;
mod spare;
mod store;

pub use payload::{Many, One, Payload, is_length};
pub use spare::Spare;
pub use store::Store;
