//! Why a run stops before its script's end.
ghost use Rattle.std.specs.Prelude.{◌≡◌};

use std::alloc::AllocError;

/// Why a run stopped before the end of its script.
#[derive(Clone, Copy, Debug, PartialEq, Eq)]
pub enum Fault {
    /// The reader failed, or had more than 2^32 bytes.
    Read,
    /// The writer failed, also at a flush, or took nothing.
    Write,
    /// There was no memory for the buffers at the start, for what is made of a line's words, or for
    /// its answer.
    WantOfMemory,
}

impl From<AllocError> for Fault {
    ghost use Rattle.iox_streams.specs.declared.fault.Fault.TheVariants.{WantOfMemory};

    ghost from_gives = { λ _ fault. fault ≡ WantOfMemory };

    fn from(_error: AllocError) -> Fault {
        Fault::WantOfMemory
    }
}
