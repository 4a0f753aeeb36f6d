//! Why a container refuses a call.
ghost use Rattle.std.specs.Prelude.{◌≡◌, Some};
ghost use Rattle.iox_container.specs.Failures.{failure_of};

use iox_sets::mpmc::unique_index_set_enums::UniqueIndexSetAcquireFailure;
use std::error::Error;
use std::fmt;

/// Why nothing is added.
#[derive(Clone, Copy, Debug, PartialEq, Eq)]
pub enum ContainerAddFailure {
    /// Each slot has an entry: remove one first. A container that gave 2^64 - 1 handles gives no
    /// more, and is full for good.
    OutOfSpace,
    /// The container was locked as its last entry went, and stays so.
    IsLocked,
}

impl fmt::Display for ContainerAddFailure {
    ghost use Rattle.iox_container.specs.Failures.{add_failure_text};

    ghost output = { λ it. Some (add_failure_text it) };

    fn fmt<W: fmt::Write>(&self, f: &mut fmt::Formatter<W>) -> fmt::Result {
        f.write_str(match self {
            ContainerAddFailure::OutOfSpace => "ContainerAddFailure::OutOfSpace",
            ContainerAddFailure::IsLocked => "ContainerAddFailure::IsLocked",
        })
    }
}

impl Error for ContainerAddFailure {}

impl From<UniqueIndexSetAcquireFailure> for ContainerAddFailure {
    ghost from_gives = { λ failure error. error ≡ failure_of failure };

    fn from(failure: UniqueIndexSetAcquireFailure) -> ContainerAddFailure {
        match failure {
            UniqueIndexSetAcquireFailure::OutOfIndices => ContainerAddFailure::OutOfSpace,
            UniqueIndexSetAcquireFailure::IsLocked => ContainerAddFailure::IsLocked,
        }
    }
}

/// Why nothing is removed.
#[derive(Clone, Copy, Debug, PartialEq, Eq)]
pub enum ContainerRemoveError {
    /// The handle is another container's, or its entry is gone.
    ContainerHandleNotOwnedByContainer,
}

impl fmt::Display for ContainerRemoveError {
    ghost use Rattle.iox_container.specs.Failures.{remove_error_text};

    ghost output = { λ it. Some (remove_error_text it) };

    fn fmt<W: fmt::Write>(&self, f: &mut fmt::Formatter<W>) -> fmt::Result {
        f.write_str(match self {
            ContainerRemoveError::ContainerHandleNotOwnedByContainer =>
                "ContainerRemoveError::ContainerHandleNotOwnedByContainer",
        })
    }
}

impl Error for ContainerRemoveError {}
