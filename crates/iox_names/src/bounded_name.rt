//! A text of one byte at least.
ghost use Rattle.std.specs.Prelude.{◌≡◌, ◌++◌, IfErr, IfOk, Some, None};

use crate::bounded_text::BoundedText;
use crate::service_name_error::ServiceNameError;
use std::convert::AsStr;
use std::fmt;
use std::marker::Model;
use std::ops::DerefStr;

/// A text of 1 to `MAX` bytes, each from 1 to 127.
///
/// Names are compared, ordered and hashed by their bytes.
#[derive(Clone, Copy, PartialEq, Eq, PartialOrd, Ord, Hash)]
pub struct BoundedName<const MAX: usize> {
    text: BoundedText<MAX>,
}

impl<const MAX: usize> Model for BoundedName<MAX> {
    ghost use Rattle.std.specs.Prelude.{ℕ, ◌<◌, List, length};

    ghost Value = { List ℕ };

    ghost view = { λ it. it.text };

    ghost invariant = { λ it. 0 < length it.text };

    ghost inverse = { λ name. record { text = name } };
}

impl<const MAX: usize> BoundedName<MAX> {
    ghost use Rattle.iox_names.specs.Names.{name_refusal};

    /// The name of those bytes.
    pub fn from_bytes(bytes: &[u8]) -> Result<BoundedName<MAX>, ServiceNameError>
        ensures made { IfOk result (λ name. name ≡ bytes.now) }
        ensures allowed { IfOk result (λ _. name_refusal MAX bytes.now ≡ None) }
        ensures refused { IfErr result (λ e. name_refusal MAX bytes.now ≡ Some e) }
    {
        let text = BoundedText::from_bytes(bytes)?;
        if text.is_empty() {
            return Err(ServiceNameError::InvalidContent);
        }
        Ok(BoundedName { text })
    }

    /// That name.
    pub fn new(name: &str) -> Result<BoundedName<MAX>, ServiceNameError>
        ensures made { IfOk result (λ it. it ≡ name.now) }
        ensures allowed { IfOk result (λ _. name_refusal MAX name.now ≡ None) }
        ensures refused { IfErr result (λ e. name_refusal MAX name.now ≡ Some e) }
    {
        BoundedName::from_bytes(name.as_bytes())
    }

    /// Two texts, one behind the other, as a name.
    pub fn joined(front: &str, back: &str) -> Result<BoundedName<MAX>, ServiceNameError>
        ensures made { IfOk result (λ it. it ≡ front.now ++ back.now) }
        ensures allowed { IfOk result (λ _. name_refusal MAX (front.now ++ back.now) ≡ None) }
        ensures refused { IfErr result (λ e. name_refusal MAX (front.now ++ back.now) ≡ Some e) }
    {
        let text = BoundedText::joined(front, back)?;
        if text.is_empty() {
            return Err(ServiceNameError::InvalidContent);
        }
        Ok(BoundedName { text })
    }

    /// The name's bytes.
    pub fn as_bytes(&self) -> &[u8]
        ensures value { result.now ≡ self.now }
        ensures name { name_refusal MAX self.now ≡ None }
    {
        self.text.as_bytes()
    }

    /// The name as text.
    pub fn as_str(&self) -> &str
        ensures value { result.now ≡ self.now }
        ensures name { name_refusal MAX self.now ≡ None }
    {
        self.text.as_str()
    }
}

impl<const MAX: usize> TryFrom<&str> for BoundedName<MAX> {
    ghost use Rattle.std.specs.Prelude.{◌≡◌, MatchResult, Some, None};
    ghost use Rattle.iox_names.specs.Names.{name_refusal};

    type Error = ServiceNameError;

    ghost try_from_gives = { λ name result. MatchResult result
        (λ it. (it ≡ name.now) × (name_refusal MAX name.now ≡ None))
        (λ e. name_refusal MAX name.now ≡ Some e) };

    fn try_from(name: &str) -> Result<BoundedName<MAX>, ServiceNameError> {
        BoundedName::new(name)
    }
}

impl<const MAX: usize> AsStr for BoundedName<MAX> {
    ghost text = { λ it. it };

    fn as_str(&self) -> &str {
        self.as_str()
    }
}

impl<const MAX: usize> DerefStr for BoundedName<MAX> {
    ghost use Rattle.std.specs.Prelude.{◌≡◌};

    ghost deref_gives = { λ it bytes. bytes ≡ it };

    fn deref(&self) -> &str {
        self.as_str()
    }
}

impl<const MAX: usize> fmt::Debug for BoundedName<MAX> {
    fn fmt<W: fmt::Write>(&self, f: &mut fmt::Formatter<W>) -> fmt::Result {
        fmt::Debug::fmt(&self.as_str(), f)
    }
}

impl<const MAX: usize> fmt::Display for BoundedName<MAX> {
    ghost use Rattle.std.specs.Prelude.{Some};

    ghost output = { λ it. Some it };

    fn fmt<W: fmt::Write>(&self, f: &mut fmt::Formatter<W>) -> fmt::Result {
        f.pad(self.as_str())
    }
}
