//! The layout of a message.
ghost use Rattle.std.specs.Prelude.{◌≡◌, ◌+◌, ◌<◌, ◌≤◌, ◌^◌};
ghost use Rattle.iox_types.specs.Places.{aligned_place};

/// How many bytes a message takes, and what its place is a multiple of.
#[derive(Clone, Copy, Debug, PartialEq, Eq)]
pub struct SampleLayout {
    /// How many bytes it takes, at most `isize::MAX`.
    pub size: usize,
    /// What its place is a multiple of, in bytes: a power of two.
    pub alignment: usize,
}

/// The least multiple of the alignment that is not below the place.
pub(crate) fn aligned_place(place: usize, alignment: usize) -> usize
    requires positive { 0 < alignment }
    requires fits { place + alignment ≤ 2 ^ 64 }
    ensures { result ≡ aligned_place place alignment }
{
    (place + (alignment - 1)) / alignment * alignment
}
