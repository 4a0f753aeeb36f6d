//! Why no overflowing queue is made.
ghost use Rattle.std.specs.Prelude.{◌≡◌, Some};
ghost use Rattle.iox_queues.specs.declared.spsc.safely_overflowing_index_queue.new_error.SafelyOverflowingIndexQueueNewError.TheVariants.{WantOfMemory};

use std::alloc::AllocError;
use std::error::Error;
use std::fmt;

/// Why no overflowing queue is made.
#[derive(Clone, Copy, Debug, PartialEq, Eq)]
pub enum SafelyOverflowingIndexQueueNewError {
    /// A queue that overflows has room for one number at least.
    CapacityIsZero,
    /// There is no memory for its numbers.
    WantOfMemory,
}

impl fmt::Display for SafelyOverflowingIndexQueueNewError {
    ghost use Rattle.iox_queues.specs.Refusals.{new_error_text};

    ghost output = { λ it. Some (new_error_text it) };

    fn fmt<W: fmt::Write>(&self, f: &mut fmt::Formatter<W>) -> fmt::Result {
        f.write_str(match self {
            SafelyOverflowingIndexQueueNewError::CapacityIsZero =>
                "SafelyOverflowingIndexQueueNewError::CapacityIsZero",
            SafelyOverflowingIndexQueueNewError::WantOfMemory =>
                "SafelyOverflowingIndexQueueNewError::WantOfMemory",
        })
    }
}

impl Error for SafelyOverflowingIndexQueueNewError {}

impl From<AllocError> for SafelyOverflowingIndexQueueNewError {
    ghost from_gives = { λ _ error. error ≡ WantOfMemory };

    fn from(_error: AllocError) -> SafelyOverflowingIndexQueueNewError {
        SafelyOverflowingIndexQueueNewError::WantOfMemory
    }
}
