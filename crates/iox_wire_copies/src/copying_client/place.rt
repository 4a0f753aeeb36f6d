//! What a client that copies tells of its place.
ghost use Rattle.std.specs.Prelude.{◌≡◌};

use super::CopyingClient;

impl CopyingClient {
    ghost use Rattle.iox_wire_copies.specs.CopyCalls.{CopiesItsRequest};

    /// It is where its loan or its send is, a request's. The function has nothing to do.
    #[inline(always)]
    pub fn place(&self)
        ensures { CopiesItsRequest self.now }
    {
        // only what these promise is wanted
        self.lends.place();
        self.sends.place();
    }
}
