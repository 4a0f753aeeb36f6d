//! A session plays a script's commands, one after another, over a service of nodes and ports. What
//! it answers is what the machine that copies messages answers.
#![tactic(auto)]

mod asking;
mod names;
mod replies;
mod service;
mod session;
mod settings;

pub use session::Session;
