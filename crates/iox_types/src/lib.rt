//! The description of messages: the identifiers and headers that they carry, their types and their
//! layout, and what a sender does where there is no room.
#![tactic(auto)]

pub mod backpressure;
pub mod channel_state;
pub mod header;
pub mod identifiers;
pub mod laws;
mod layout;
pub mod message_type_details;
pub mod type_detail;

pub use backpressure::{AllocationStrategy, BackpressureStrategy};
pub use channel_state::{ChannelState, RequestId};
pub use header::{RequestHeader, ResponseHeader};
pub use layout::SampleLayout;
pub use message_type_details::MessageTypeDetails;
pub use type_detail::{TypeDetail, TypeDetailError, TypeVariant};
