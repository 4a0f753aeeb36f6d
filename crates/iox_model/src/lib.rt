//! The one machine that copies messages: its commands, replies and moments, and its definitions.
#![tactic(auto)]

pub mod backpressure;
pub mod call;
pub mod command;
pub mod event;
pub mod kind;
pub mod reply;
pub mod way;
