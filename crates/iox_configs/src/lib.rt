//! How services are configured: what every node starts from, and what one service was made with.
//! The limits of each messaging pattern, and how many messages its ports need for them.
#![tactic(auto)]

pub mod config;
pub mod event_id;
pub mod path;
mod pools;
pub mod static_config;
