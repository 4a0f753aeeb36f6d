//! Why no map is made.
ghost use Rattle.std.specs.Prelude.{◌≡◌, Some};
ghost use Rattle.iox_word_places.specs.declared.new_error.WordMapNewError.TheVariants.{WantOfMemory};

use std::alloc::{AllocError, AllocFailed};
use std::error::Error;
use std::fmt;

/// Why no map of a wire's words is made.
#[derive(Clone, Copy, Debug, PartialEq, Eq)]
pub enum WordMapNewError {
    /// The wire has more words than a `usize` can count: lower its limits, or have fewer ports.
    TooManyWords,
    /// There is no memory for the places.
    WantOfMemory,
}

impl fmt::Display for WordMapNewError {
    ghost use Rattle.iox_word_places.specs.Refusals.{new_error_text};

    ghost output = { λ it. Some (new_error_text it) };

    fn fmt<W: fmt::Write>(&self, f: &mut fmt::Formatter<W>) -> fmt::Result {
        f.write_str(match self {
            WordMapNewError::TooManyWords => "WordMapNewError::TooManyWords",
            WordMapNewError::WantOfMemory => "WordMapNewError::WantOfMemory",
        })
    }
}

impl Error for WordMapNewError {}

impl From<AllocError> for WordMapNewError {
    ghost from_gives = { λ _ error. error ≡ WantOfMemory };

    fn from(_error: AllocError) -> WordMapNewError {
        WordMapNewError::WantOfMemory
    }
}

impl<T: Drop> From<AllocFailed<T>> for WordMapNewError {
    ghost from_gives = { λ _ error. error ≡ WantOfMemory };

    fn from(_error: AllocFailed<T>) -> WordMapNewError {
        WordMapNewError::WantOfMemory
    }
}
