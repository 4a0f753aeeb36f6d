//! The description of messages, and where their parts stand.
pub use iox_types::{MessageTypeDetails, SampleLayout, TypeDetail, TypeDetailError, TypeVariant};
