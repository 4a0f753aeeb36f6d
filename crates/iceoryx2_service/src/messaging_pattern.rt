//! How services exchange messages.
pub use iox_names::MessagingPattern;
