//! What the sets of indices answer.
ghost use Rattle.std.specs.Prelude.{◌≡◌, Some};
ghost use Rattle.iox_sets.specs.IndexSets.{is_locked, state_after};
ghost use Rattle.iox_sets.specs.declared.mpmc.unique_index_set_enums.UniqueIndexSetNewError.TheVariants.{WantOfMemory};

use std::alloc::AllocError;
use std::error::Error;
use std::fmt;

/// How an index is given back.
#[derive(Clone, Copy, Debug, PartialEq, Eq)]
pub enum ReleaseMode {
    /// The set is locked for good if no index is held afterwards.
    LockIfLastIndex,
    /// The set stays open.
    Default,
}

impl ReleaseMode {
    /// What a release answers, where `held` indices are held afterwards.
    #[inline]
    pub(crate) fn state_after(self, held: usize) -> ReleaseState
        ensures { result ≡ state_after self held }
    {
        match self {
            ReleaseMode::LockIfLastIndex if held == 0 => ReleaseState::Locked,
            ReleaseMode::LockIfLastIndex => ReleaseState::Unlocked,
            ReleaseMode::Default => ReleaseState::Unlocked,
        }
    }
}

/// Whether the set is locked after an index was given back.
#[derive(Clone, Copy, Debug, PartialEq, Eq)]
pub enum ReleaseState {
    /// It is locked for good: no index is taken any more.
    Locked,
    /// It is open.
    Unlocked,
}

impl ReleaseState {
    #[inline]
    pub(crate) fn is_locked(self) -> bool
        ensures { result ≡ is_locked self }
    {
        match self {
            ReleaseState::Locked => true,
            ReleaseState::Unlocked => false,
        }
    }
}

/// Why no index is taken.
#[derive(Clone, Copy, Debug, PartialEq, Eq)]
pub enum UniqueIndexSetAcquireFailure {
    /// All indices are held: give one back first.
    OutOfIndices,
    /// The set was locked as its last index was given back, and stays so.
    IsLocked,
}

impl fmt::Display for UniqueIndexSetAcquireFailure {
    ghost use Rattle.iox_sets.specs.Refusals.{acquire_failure_text};

    ghost output = { λ it. Some (acquire_failure_text it) };

    fn fmt<W: fmt::Write>(&self, f: &mut fmt::Formatter<W>) -> fmt::Result {
        f.write_str(match self {
            UniqueIndexSetAcquireFailure::OutOfIndices =>
                "UniqueIndexSetAcquireFailure::OutOfIndices",
            UniqueIndexSetAcquireFailure::IsLocked => "UniqueIndexSetAcquireFailure::IsLocked",
        })
    }
}

impl Error for UniqueIndexSetAcquireFailure {}

/// Why no set of indices is made.
#[derive(Clone, Copy, Debug, PartialEq, Eq)]
pub enum UniqueIndexSetNewError {
    /// A set has one index at least.
    CapacityIsZero,
    /// A set has at most 2^24 - 2 indices.
    CapacityTooLarge,
    /// A reduced capacity is at most that of the set's type.
    ExceedsCapacity,
    /// There is no memory for its indices.
    WantOfMemory,
}

impl fmt::Display for UniqueIndexSetNewError {
    ghost use Rattle.iox_sets.specs.Refusals.{new_error_text};

    ghost output = { λ it. Some (new_error_text it) };

    fn fmt<W: fmt::Write>(&self, f: &mut fmt::Formatter<W>) -> fmt::Result {
        f.write_str(match self {
            UniqueIndexSetNewError::CapacityIsZero => "UniqueIndexSetNewError::CapacityIsZero",
            UniqueIndexSetNewError::CapacityTooLarge => "UniqueIndexSetNewError::CapacityTooLarge",
            UniqueIndexSetNewError::ExceedsCapacity => "UniqueIndexSetNewError::ExceedsCapacity",
            UniqueIndexSetNewError::WantOfMemory => "UniqueIndexSetNewError::WantOfMemory",
        })
    }
}

impl Error for UniqueIndexSetNewError {}

impl From<AllocError> for UniqueIndexSetNewError {
    ghost from_gives = { λ _ error. error ≡ WantOfMemory };

    fn from(_error: AllocError) -> UniqueIndexSetNewError {
        UniqueIndexSetNewError::WantOfMemory
    }
}
