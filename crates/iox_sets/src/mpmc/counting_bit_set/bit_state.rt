//! What a counting set answers of a bit.
ghost use Rattle.std.specs.Prelude.{◌≡◌};

/// A bit that was set, and how often.
#[derive(Clone, Copy, Debug, PartialEq, Eq)]
pub struct BitState {
    pub(super) bit: usize,
    pub(super) count: u64,
}

impl BitState {
    /// The number of the bit.
    #[inline]
    pub fn bit(&self) -> usize
        ensures { result ≡ self.now.bit }
    {
        self.bit
    }

    /// How often it was set, at least once.
    #[inline]
    pub fn count(&self) -> u64
        ensures { result ≡ self.now.count }
    {
        self.count
    }
}
