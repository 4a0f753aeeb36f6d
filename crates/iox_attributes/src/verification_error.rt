//! What a service is missing.
use iox_names::attribute::{AttributeKey, AttributeValue};
use thiserror::Error;

/// What is required of a service and is not there. It lends what it names from the verifier that
/// requires it.
#[derive(Clone, Copy, Debug, Error, PartialEq, Eq)]
pub enum AttributeVerificationError<'a> {
    /// No attribute has that key.
    #[error("AttributeVerificationError::NonExistingKey({0})")]
    NonExistingKey(&'a AttributeKey),
    /// No attribute has that key and that value.
    #[error("AttributeVerificationError::IncompatibleAttribute({0}, {1})")]
    IncompatibleAttribute(&'a AttributeKey, &'a AttributeValue),
}
