//! Texts of few bytes that lie in the value itself: names of services, keys and values of
//! attributes, and the hash by which a service is found. Nothing here takes memory.
#![tactic(auto)]

pub mod attribute;
mod bounded_name;
mod bounded_text;
mod compared;
pub mod laws;
mod messaging_pattern;
mod service_hash;
mod service_name;
mod service_name_error;
mod text_error;

pub use bounded_name::BoundedName;
pub use bounded_text::{BoundedText, is_text};
pub use iox_words::{Words, ZeroCopySend};
pub use messaging_pattern::MessagingPattern;
pub use service_hash::ServiceHash;
pub use service_name::{INTERNAL_SERVICE_PREFIX, ServiceName};
pub use service_name_error::ServiceNameError;
pub use text_error::TextError;
