//! What the send of a response tells of its place.
ghost use Rattle.std.specs.Prelude.{◌≡◌};

use super::Responding;

impl Responding {
    ghost use Rattle.iox_wire_sends.specs.Aims.{SendsItsResponse};

    /// What it sends is its loan, a response. The function has nothing to do.
    #[inline(always)]
    pub fn place(&self)
        ensures { SendsItsResponse self.now }
    {
        // only what holds of it is wanted
        let _at = self.at;
    }
}
