//! How many accesses a send of a request takes. The function has nothing to do: it is there for its
//! contract.
ghost use Rattle.iox_wire_request_sends.specs.WorkedSends.{RequestSendsTakeNine};

/// On a worked wire the send of a request takes 9 accesses, or one step if it is refused for the
/// number of pending responses, and 4 accesses where the one server is full and that makes it fail.
pub fn worked_request_sends_take_nine()
    ensures { RequestSendsTakeNine }
{}
