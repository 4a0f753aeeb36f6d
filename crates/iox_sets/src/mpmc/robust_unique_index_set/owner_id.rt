//! Who holds an index.
ghost use Rattle.std.specs.Prelude.{◌≡◌, ◌≢◌, ◌-◌, ◌^◌, IfErr, IfOk, OnOk, Some};
ghost use Rattle.iox_sets.specs.declared.mpmc.robust_unique_index_set.owner_id.OwnerIdNewError.TheVariants.{InvalidValue};

use std::error::Error;
use std::fmt;
use std::marker::Model;

/// Any number but 2^64 - 1, chosen by its owner.
#[derive(Clone, Copy, Debug, PartialEq, Eq)]
pub struct OwnerId(u64);

impl Model for OwnerId {
    ghost use Rattle.std.specs.Prelude.{◌-◌, ◌^◌, ◌<◌, ℕ};

    ghost Value = { ℕ };

    ghost view = { λ owner. owner.0 };

    ghost invariant = { λ owner. owner.0 < 2 ^ 64 - 1 };

    ghost inverse = { λ value. record { 0 = value } };
}

impl OwnerId {
    /// The owner of this number.
    #[inline]
    pub fn new(value: u64) -> Result<OwnerId, OwnerIdNewError>
        ensures made { IfOk result (λ owner. owner ≡ value) }
        ensures allowed { OnOk result (value ≢ 2 ^ 64 - 1) }
        ensures refused { IfErr result (λ error. (error ≡ InvalidValue) × (value ≡ 2 ^ 64 - 1)) }
    {
        if value == u64::MAX {
            return Err(OwnerIdNewError::InvalidValue);
        }
        Ok(OwnerId(value))
    }
}

/// Why a number is no owner.
#[derive(Clone, Copy, Debug, PartialEq, Eq)]
pub enum OwnerIdNewError {
    /// 2^64 - 1 stands for no owner.
    InvalidValue,
}

impl fmt::Display for OwnerIdNewError {
    ghost use Rattle.iox_sets.specs.Refusals.{owner_id_error_text};

    ghost output = { λ it. Some (owner_id_error_text it) };

    fn fmt<W: fmt::Write>(&self, f: &mut fmt::Formatter<W>) -> fmt::Result {
        f.write_str(match self {
            OwnerIdNewError::InvalidValue => "OwnerIdNewError::InvalidValue",
        })
    }
}

impl Error for OwnerIdNewError {}
