//! Backpressure handlers: what a port's handler answers where a receiver is full, and which ports
//! have one.
#![tactic(auto)]

mod always;
mod backpressure;
mod failing;
mod handlers;
mod laws;
mod unhandled;

pub use always::Always;
pub use backpressure::{Backpressure, BackpressureInfo};
pub use failing::fails;
pub use handlers::Handlers;
pub use iox_model::backpressure::BackpressureAction;
pub use laws::words_tell_answers;
