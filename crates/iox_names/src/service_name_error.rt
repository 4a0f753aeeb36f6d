//! Why bytes are no name.
ghost use Rattle.std.specs.Prelude.{◌≡◌};

use crate::text_error::TextError;
use thiserror::Error;

/// Why bytes are no name of a service, and no key or value of an attribute.
#[derive(Clone, Copy, Debug, Error, PartialEq, Eq)]
pub enum ServiceNameError {
    /// There is none, one of them is 0 or past 127, or they begin as an internal service's name.
    #[error("ServiceNameError::InvalidContent")]
    InvalidContent,
    /// There are too many.
    #[error("ServiceNameError::ExceedsMaximumLength")]
    ExceedsMaximumLength,
}

impl From<TextError> for ServiceNameError {
    ghost use Rattle.iox_names.specs.Refusals.{of_text_error};

    ghost from_gives = { λ error result. result ≡ of_text_error error };

    fn from(error: TextError) -> ServiceNameError {
        match error {
            TextError::ExceedsMaximumLength => ServiceNameError::ExceedsMaximumLength,
            TextError::InvalidContent => ServiceNameError::InvalidContent,
        }
    }
}
