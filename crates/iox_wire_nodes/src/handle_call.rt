//! The calls of a handle that its node's seat keeps, and that bring no payload.
ghost use Rattle.std.specs.Prelude.{◌≡◌};
ghost use Rattle.iox_wire_nodes.specs.Calls.{asked_by};

use iox_wire_begins::Asked;

/// A call of a handle that its node's seat keeps, and that brings no payload.
#[derive(Clone, Copy, Debug, PartialEq, Eq)]
pub enum HandleCall {
    /// The words of its message, those of the user header first.
    Read,
    /// Gives it up.
    Release,
    /// Of a pending response or an active request: whether the request is still open.
    IsConnected,
    /// Of a pending response: tells the servers that no more responses are wanted.
    SetHint,
    /// Of an active request: whether its client wants no more responses.
    HasHint,
    /// Of a pending response: whether a response waits on its lane.
    HasResponse,
}

impl HandleCall {
    /// What the handle is asked.
    pub(crate) fn asked(self) -> Asked
        ensures { result ≡ asked_by self }
    {
        match self {
            HandleCall::Read => Asked::Read,
            HandleCall::Release => Asked::Release,
            HandleCall::IsConnected => Asked::IsConnected,
            HandleCall::SetHint => Asked::SetHint,
            HandleCall::HasHint => Asked::HasHint,
            HandleCall::HasResponse => Asked::HasResponse,
        }
    }
}
