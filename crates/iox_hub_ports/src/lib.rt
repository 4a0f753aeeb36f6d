//! The connected ports of a hub, and what comes to each: a port is looked up by its number, and
//! changed on one way.
#![tactic(auto)]

pub mod info;
pub mod pipe_steps;
pub mod port;
pub mod ports;
mod role_places;
pub mod steps;
pub mod uses;
pub mod walks;
