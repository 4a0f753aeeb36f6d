//! Why a builder takes no more attributes.

use std::{error, fmt};
use thiserror::Error;

/// Why an attribute or a key can't be added.
#[derive(Clone, Copy, Debug, Error, PartialEq, Eq)]
pub enum AttributeDefinitionError {
    /// There are 64 already.
    #[error("AttributeDefinitionError::ExceedsMaxSupportedAttributes")]
    ExceedsMaxSupportedAttributes,
}

/// A builder that took no more, unchanged, and why.
#[derive(Drop)]
pub struct DefinitionRefusal<B> {
    /// The builder as it was before.
    pub builder: B,
    /// Why it took no more.
    pub error: AttributeDefinitionError,
}

impl<B> fmt::Debug for DefinitionRefusal<B> {
    fn fmt<W: fmt::Write>(&self, f: &mut fmt::Formatter<W>) -> fmt::Result {
        write!(f, "DefinitionRefusal {{ error: {:?}, .. }}", self.error)
    }
}

/// What is against the definition.
impl<B> fmt::Display for DefinitionRefusal<B> {
    fn fmt<W: fmt::Write>(&self, f: &mut fmt::Formatter<W>) -> fmt::Result {
        fmt::Display::fmt(&self.error, f)
    }
}

impl<B: Drop> error::Error for DefinitionRefusal<B> {}

impl<B: Drop> From<DefinitionRefusal<B>> for AttributeDefinitionError {
    ghost use Rattle.std.specs.Prelude.{◌≡◌};

    ghost from_gives = { λ refusal error. error ≡ refusal.error };

    fn from(refusal: DefinitionRefusal<B>) -> AttributeDefinitionError {
        refusal.error
    }
}
