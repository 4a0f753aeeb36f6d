//! What is registered with a service: its nodes, and the ports of its messaging pattern.
pub use config::DynamicConfig;
pub use messaging_pattern::MessagingPattern;
pub use nodes::Nodes;

pub mod blackboard;
mod config;
pub mod event;
mod messaging_pattern;
mod nodes;
pub mod publish_subscribe;
pub mod request_response;
