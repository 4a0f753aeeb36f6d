//! Why an opener or the creator of a service is refused, by the types of messages and by
//! attributes: the first test that fails. Nothing here takes memory.
#![tactic(auto)]

pub mod laws;
mod message_types;
mod service_description;

pub use message_types::MessageTypes;
pub use service_description::ServiceDescription;
