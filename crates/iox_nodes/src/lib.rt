//! A service over a hub: its nodes join, ask, die and leave. Each call is one command of the
//! machine that copies messages, and the state of a service is one that the machine can reach.
#![tactic(auto)]

mod asking;
mod asks;
mod coming;
mod creating;
mod listings;
mod replying;
mod service;
mod serving;
pub mod uses;

pub use iox_members::Nodes;
pub use iox_port_commands::{
    Always, Backpressure, BackpressureAction, BackpressureInfo, Elements, MessageShape, Part,
    Settings, default_settings, words_tell_answers,
};
pub use service::Service;
