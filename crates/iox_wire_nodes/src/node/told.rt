//! What a node tells of itself.
ghost use Rattle.std.specs.Prelude.{◌≡◌};
ghost use Rattle.iox_wire_nodes.specs.Nodes.{seat_in};

use super::StoredNode;

impl StoredNode {
    /// Its number.
    #[inline(always)]
    pub fn node(&self) -> u64
        ensures { result ≡ (seat_in self.now).node }
    {
        self.seat.node()
    }

    /// How many accesses it made.
    #[inline(always)]
    pub fn accesses(&self) -> u64
        ensures { result ≡ (seat_in self.now).accesses }
    {
        self.seat.accesses()
    }
}
