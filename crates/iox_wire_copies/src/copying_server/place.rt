//! What a server that copies tells of its place.
ghost use Rattle.std.specs.Prelude.{◌≡◌};

use super::CopyingServer;

impl CopyingServer {
    ghost use Rattle.iox_wire_copies.specs.ResponseCopies.{CopiesItsResponse};

    /// It is where its loan or its send is, a response's. The function has nothing to do.
    #[inline(always)]
    pub fn place(&self)
        ensures { CopiesItsResponse self.now }
    {
        // only what these promise is wanted
        self.lends.place();
        self.sends.place();
    }
}
