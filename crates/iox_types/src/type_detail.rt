//! The description of a type.
ghost use Rattle.std.specs.Prelude.{◌≡◌, ◌≤◌, ◌↔◌, IfErr, IfOk, IsOk, IsTrue, Some, None, length};
ghost use Rattle.std.specs.Int.{IsPowerOfTwo};
ghost use Rattle.iox_names.specs.WordLists.{is_name};

use iox_names::{BoundedText, ZeroCopySend, is_text};
use std::marker::Model;
use thiserror::Error;

type TypeName = BoundedText<256>;

/// Whether a message has one value of a type or several.
#[derive(Clone, Copy, Debug, PartialEq, Eq)]
pub enum TypeVariant {
    /// One value.
    FixedSize,
    /// A slice of values.
    Dynamic,
}

/// Why a type cannot be described.
#[derive(Clone, Copy, Debug, Error, PartialEq, Eq)]
pub enum TypeDetailError {
    /// The name of the type has more than 256 bytes.
    #[error("TypeDetailError::NameTooLong")]
    NameTooLong,
    /// The alignment is no power of two.
    #[error("TypeDetailError::AlignmentNotPowerOfTwo")]
    AlignmentNotPowerOfTwo,
}

/// The description of a type: its name, the size of a value, and its alignment, all in bytes.
#[derive(Clone, Copy, Debug, PartialEq, Eq)]
pub struct TypeDetail {
    variant: TypeVariant,
    type_name: TypeName,
    size: usize,
    alignment: usize,
}

impl Model for TypeDetail {
    ghost use Rattle.std.specs.Int.{IsPowerOfTwo};
    ghost use Rattle.iox_types.specs.Details.{Detail, detail};

    ghost Value = { Detail };

    ghost view = { λ it. detail it.variant it.type_name it.size it.alignment };

    ghost invariant = { λ it. IsPowerOfTwo it.alignment };

    ghost inverse = { λ d. record {
      variant = d.variant;
      type_name = d.name;
      size = d.size;
      alignment = d.alignment;
    } };
}

impl TypeDetail {
    ghost use Rattle.iox_types.specs.Details.{IsCompatible, detail, detail_refusal, is_short};

    /// The description of the type `T`.
    pub fn new<T: ZeroCopySend>(variant: TypeVariant) -> Result<TypeDetail, TypeDetailError>
        ensures made { IfOk result (λ it. it ≡ detail variant T.name T.SIZE T.ALIGNMENT) }
        ensures succeeds { IsOk result ↔ IsTrue (is_short T.name) }
        ensures refused { IfErr result (λ e. e ≡ TypeDetailError.NameTooLong) }
    {
        let Ok(type_name) = TypeName::new(T::name()) else {
            return Err(TypeDetailError::NameTooLong);
        };
        Ok(TypeDetail {
            variant,
            type_name,
            size: T::SIZE,
            alignment: T::ALIGNMENT,
        })
    }

    /// Whether a text may be a type's name: it has a byte, and none that is 0 or past 127.
    pub fn is_name(name: &str) -> bool
        ensures { result ≡ is_name name.now }
    {
        !name.is_empty() && is_text(name.as_bytes())
    }

    /// The description of a type with these parts.
    pub fn from_parts(
        variant: TypeVariant,
        name: &str,
        size: usize,
        alignment: usize,
    ) -> Result<TypeDetail, TypeDetailError>
        requires { IsTrue (is_name name.now) }
        ensures made { IfOk result (λ it. it ≡ detail variant name.now size alignment) }
        ensures allowed { IfOk result (λ _. detail_refusal name.now alignment ≡ None) }
        ensures refused { IfErr result (λ e. detail_refusal name.now alignment ≡ Some e) }
    {
        let Ok(type_name) = TypeName::new(name) else {
            return Err(TypeDetailError::NameTooLong);
        };
        if !alignment.is_power_of_two() {
            return Err(TypeDetailError::AlignmentNotPowerOfTwo);
        }
        Ok(TypeDetail {
            variant,
            type_name,
            size,
            alignment,
        })
    }

    /// Whether a message has one value of the type or several.
    pub fn variant(&self) -> TypeVariant
        ensures { result ≡ self.now.variant }
    {
        self.variant
    }

    /// The type's name.
    pub fn type_name(&self) -> &str
        ensures { result.now ≡ self.now.name }
    {
        self.type_name.as_str()
    }

    /// How many bytes a value takes.
    pub fn size(&self) -> usize
        ensures { result ≡ self.now.size }
    {
        self.size
    }

    /// What a value's place is a multiple of.
    pub fn alignment(&self) -> usize
        ensures value { result ≡ self.now.alignment }
        ensures power { IsPowerOfTwo result }
    {
        self.alignment
    }

    /// Whether a value of this type may stand where one of the other does: in a place that is
    /// aligned for the other.
    pub fn is_compatible_to(&self, other: &TypeDetail) -> bool
        ensures compatible { IsTrue result ↔ IsCompatible self.now other.now }
        ensures power { IsPowerOfTwo self.now.alignment }
    {
        self.variant == other.variant
            && self.type_name() == other.type_name()
            && self.size == other.size
            && self.alignment <= other.alignment
    }
}
