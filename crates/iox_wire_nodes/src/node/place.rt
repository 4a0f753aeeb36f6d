//! What a node tells of the place of its call.
ghost use Rattle.iox_wire_nodes.specs.Aims.{KnowsItsPlace};

use super::StoredNode;
use crate::call_at::CallAt;

impl StoredNode {
    /// The place of a send or a copy is one of its own loan. The function has nothing to do.
    #[inline(always)]
    pub fn place(&self)
        ensures { KnowsItsPlace self.now.at self.now }
    {
        match self.at {
            CallAt::SendsRequest => self.requesting.place(),
            CallAt::SendsResponse => self.responding.place(),
            CallAt::CopiesRequest => self.copying_client.place(),
            CallAt::CopiesResponse => self.copying_server.place(),
            CallAt::Seats | CallAt::Receives | CallAt::Lends => {}
        }
    }
}
