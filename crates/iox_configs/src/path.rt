//! Paths of directories.
ghost use Rattle.std.specs.Prelude.{◌≡◌, ◌++◌, IfErr, IfOk, Some, None};

use iox_names::{BoundedText, TextError};
use std::fmt;
use std::marker::Model;
use thiserror::Error;

/// Why a text is no path. The length is tested first.
#[derive(Clone, Copy, Debug, Error, PartialEq, Eq)]
pub enum PathError {
    /// It has more than 255 bytes.
    #[error("PathError::ExceedsMaximumLength")]
    ExceedsMaximumLength,
    /// It has no byte, or one that is 0 or past 127.
    #[error("PathError::InvalidContent")]
    InvalidContent,
}

impl From<TextError> for PathError {
    ghost use Rattle.iox_configs.specs.Paths.{path_error};

    fn from(error: TextError) -> PathError
        ensures { result ≡ path_error error }
    {
        match error {
            TextError::ExceedsMaximumLength => PathError::ExceedsMaximumLength,
            TextError::InvalidContent => PathError::InvalidContent,
        }
    }
}

/// A path of 1 to 255 bytes, each from 1 to 127. It takes no memory.
#[derive(Clone, Copy, Debug, PartialEq, Eq)]
pub struct Path {
    text: BoundedText<255>,
}

impl Model for Path {
    ghost use Rattle.std.specs.Prelude.{ℕ, List, None, ◌≡◌};
    ghost use Rattle.iox_configs.specs.Paths.{path_refusal};

    ghost Value = { List ℕ };

    ghost view = { λ it. it.text };

    ghost invariant = { λ it. path_refusal it.text ≡ None };

    ghost inverse = { λ text. record { text = text } };
}

impl Path {
    ghost use Rattle.iox_names.specs.Texts.{text_refusal};
    ghost use Rattle.iox_configs.specs.Paths.{path_refusal};

    /// The path of that text.
    pub fn new(text: &str) -> Result<Path, PathError>
        ensures made { IfOk result (λ path. path ≡ text.now) }
        ensures allowed { IfOk result (λ _. path_refusal text.now ≡ None) }
        ensures refused { IfErr result (λ e. path_refusal text.now ≡ Some e) }
    {
        match BoundedText::new(text) {
            Ok(text) => Path::of_text(text),
            Err(error) => Err(PathError::from(error)),
        }
    }

    /// The path with that text behind it.
    pub(crate) fn followed_by(&self, text: &str) -> Result<Path, PathError>
        ensures made { IfOk result (λ path. path ≡ self.now ++ text.now) }
        ensures allowed { IfOk result (λ _. path_refusal (self.now ++ text.now) ≡ None) }
        ensures refused { IfErr result (λ e. path_refusal (self.now ++ text.now) ≡ Some e) }
    {
        match BoundedText::joined(self.as_str(), text) {
            Ok(text) => Path::of_text(text),
            Err(error) => Err(PathError::from(error)),
        }
    }

    fn of_text(text: BoundedText<255>) -> Result<Path, PathError>
        requires { text_refusal 255 text ≡ None }
        ensures made { IfOk result (λ path. path ≡ text) }
        ensures allowed { IfOk result (λ _. path_refusal text ≡ None) }
        ensures refused { IfErr result (λ e. path_refusal text ≡ Some e) }
    {
        if text.is_empty() {
            return Err(PathError::InvalidContent);
        }
        Ok(Path { text })
    }

    /// The path's text.
    pub fn as_str(&self) -> &str
        ensures { result.now ≡ self.now }
    {
        self.text.as_str()
    }

    /// The most bytes that a path has.
    pub const fn max_len() -> usize
        ensures { result ≡ 255 }
    {
        255
    }
}

impl fmt::Display for Path {
    ghost use Rattle.std.specs.Prelude.{Some};

    ghost output = { λ it. Some it };

    fn fmt<W: fmt::Write>(&self, f: &mut fmt::Formatter<W>) -> fmt::Result {
        f.pad(self.as_str())
    }
}
