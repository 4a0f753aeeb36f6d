//! Bits, counts and values as steps: parties whose calls are accesses to shared words, one after
//! another. Whatever the schedule, nothing that was set, added or stored is lost or answered twice.
#![tactic(auto)]

pub use law::{
    replies_tell_of_their_own_bit, replies_tell_of_their_own_count, replies_tell_of_their_own_value,
};

pub mod bit_set;
pub mod counting_bit_set;
mod law;
pub mod unrestricted_atomic;
mod uses;
