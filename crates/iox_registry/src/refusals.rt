//! Why calls of a register are refused.
ghost use Rattle.std.specs.Prelude.{◌≡◌};
ghost use Rattle.iox_registry.specs.Registers.{node_error};
ghost use Rattle.iox_registry.specs.declared.refusals.RegistryNewError.TheVariants.{WantOfMemory};

use std::alloc::AllocError;
use thiserror::Error;

/// Why nothing is added.
#[derive(Clone, Copy, Debug, PartialEq, Eq)]
pub(crate) enum AddFailure {
    /// The last of the nodes went, and none comes any more.
    Locked,
    /// There is no room, or no ticket is left.
    Full,
}

/// Why a node is not registered.
#[derive(Clone, Copy, Debug, Error, PartialEq, Eq)]
pub enum RegisterNodeError {
    /// The last node was deregistered: the service comes to its end.
    #[error("RegisterNodeError::MarkedForDestruction")]
    MarkedForDestruction,
    /// As many nodes are registered as there is room for: deregister one first. After 2^64 - 1
    /// registrations there is no room any more.
    #[error("RegisterNodeError::ExceedsMaxNumberOfNodes")]
    ExceedsMaxNumberOfNodes,
}

impl From<AddFailure> for RegisterNodeError {
    ghost from_gives = { λ failure error. error ≡ node_error failure };

    fn from(failure: AddFailure) -> RegisterNodeError {
        match failure {
            AddFailure::Locked => RegisterNodeError::MarkedForDestruction,
            AddFailure::Full => RegisterNodeError::ExceedsMaxNumberOfNodes,
        }
    }
}

/// Why a handle is not released.
#[derive(Clone, Copy, Debug, Error, PartialEq, Eq)]
pub enum ReleaseError {
    /// The handle is of another service, or of another role.
    #[error("ReleaseError::Foreign")]
    Foreign,
    /// What the handle told is gone.
    #[error("ReleaseError::Spent")]
    Spent,
}

/// Why no register is made.
#[derive(Clone, Copy, Debug, Error, PartialEq, Eq)]
pub enum RegistryNewError {
    /// A register has room for at most 2^24 - 2.
    #[error("RegistryNewError::LimitTooLarge")]
    LimitTooLarge,
    /// There is no memory for a register.
    #[error("RegistryNewError::WantOfMemory")]
    WantOfMemory,
}

impl From<AllocError> for RegistryNewError {
    ghost from_gives = { λ _ error. error ≡ WantOfMemory };

    fn from(_error: AllocError) -> RegistryNewError {
        RegistryNewError::WantOfMemory
    }
}
