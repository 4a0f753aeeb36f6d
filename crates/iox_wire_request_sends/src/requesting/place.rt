//! What the send of a request tells of its place.
ghost use Rattle.std.specs.Prelude.{◌≡◌};

use super::Requesting;

impl Requesting {
    ghost use Rattle.iox_wire_request_sends.specs.Aims.{SendsItsRequest};

    /// What it sends is its loan, a request. The function has nothing to do.
    #[inline(always)]
    pub fn place(&self)
        ensures { SendsItsRequest self.now }
    {
        // only what holds of it is wanted
        let _at = self.at;
    }
}
