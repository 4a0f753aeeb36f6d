//! What a seat tells of its node.
ghost use Rattle.std.specs.Prelude.{◌≡◌};

use super::StoredSeat;

impl StoredSeat {
    ghost use Rattle.std.specs.Prelude.{◌≡◌};

    /// The node's number.
    #[inline(always)]
    pub fn node(&self) -> u64
        ensures { result ≡ self.now.seat.node }
    {
        self.node
    }

    /// How many accesses it made.
    #[inline(always)]
    pub fn accesses(&self) -> u64
        ensures { result ≡ self.now.seat.accesses }
    {
        self.accesses
    }

    /// How many handles it made.
    #[inline(always)]
    pub fn handles_made(&self) -> u64
        ensures { result ≡ self.now.seat.handles_made }
    {
        self.handles_made
    }
}
