//! What stands before a message.
pub use iox_types::{RequestHeader, ResponseHeader};
