//! The tables of a hub, and each call of a port or handle as one call of them.
#![tactic(auto)]

mod control;
mod fitting;
mod in_places;
mod known;
mod known_handles;
mod known_sends;
mod lanes;
mod loans_in_places;
mod making;
mod open_steps;
mod parts;
mod questions;
mod received;
mod receives;
mod removals;
mod settings;
mod slots;
pub mod uses;
mod usual;

pub use control::Control;
pub use received::Received;
pub use removals::is_still;
pub use settings::Settings;
