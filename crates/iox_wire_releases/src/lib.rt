//! The release of a handle by a node of a wire, from the handle's number on: what it gives back or
//! closes is found in the map of the wire.
#![tactic(auto)]

mod laws;
mod places;
mod releases;
mod states;
mod uses;

pub use laws::handles_may_be_released;
pub use places::{client_place, place_of, server_place};
pub use releases::begin_release;
pub use states::list_states;
