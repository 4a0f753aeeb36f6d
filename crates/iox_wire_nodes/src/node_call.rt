//! What a node of a wire is asked.
ghost use Rattle.std.specs.Prelude.{◌≡◌};
ghost use Rattle.iox_wire_nodes.specs.Calls.{asked_in, number_in};

use crate::handle_call::HandleCall;
use iox_model::kind::Role;
use iox_wire_begins::Asked;

/// The payload of a request or of a response, as its words. How many elements that is follows from
/// the messages of the role.
#[derive(Clone, Copy, Debug)]
pub struct NodePayload<'a> {
    /// The role of the port that sends it: a client's for a request.
    pub role: Role,
    /// The words of all elements, one element after another.
    pub words: &'a [u64],
}

/// A call of the port or the handle of that number.
#[derive(Clone, Copy, Debug)]
pub enum NodeCall<'a> {
    /// Of a client or an active request: a message of so many elements. Its payload may be any
    /// words.
    Loan {
        number: u64,
        /// How many elements the message has; 1, where messages have one.
        elements: u64,
    },
    /// Of a loan: these words are its payload now.
    Write {
        number: u64,
        /// All elements, as many as the loan has.
        payload: NodePayload<'a>,
    },
    /// Of a loan: a request goes to the servers, a response to the client that asked.
    Send {
        number: u64,
    },
    /// Loan, write and send in one.
    SendCopy {
        number: u64,
        /// All elements; the loan has as many.
        payload: NodePayload<'a>,
    },
    /// Of a server or a pending response.
    Receive {
        number: u64,
    },
    /// Of a server: whether a request waits, also one that a receive would skip.
    HasRequests {
        number: u64,
    },
    /// Of a handle: what brings no payload.
    Handle {
        number: u64,
        call: HandleCall,
    },
}

impl<'a> NodeCall<'a> {
    /// The number of the port or the handle that it names.
    pub fn number(self) -> u64
        ensures { result ≡ number_in self.entry }
    {
        match self {
            NodeCall::Loan { number, .. } => number,
            NodeCall::Write { number, .. } => number,
            NodeCall::Send { number } => number,
            NodeCall::SendCopy { number, .. } => number,
            NodeCall::Receive { number } => number,
            NodeCall::HasRequests { number } => number,
            NodeCall::Handle { number, .. } => number,
        }
    }

    /// What the port or the handle is asked.
    pub(crate) fn asked(self) -> Asked
        ensures { result ≡ asked_in self.entry }
    {
        match self {
            NodeCall::Loan { elements, .. } => Asked::Loan(elements),
            NodeCall::Write { payload, .. } => Asked::Write(payload.role),
            NodeCall::Send { .. } => Asked::Send,
            NodeCall::SendCopy { payload, .. } => Asked::SendCopy(payload.role),
            NodeCall::Receive { .. } => Asked::Receive,
            NodeCall::HasRequests { .. } => Asked::HasRequests,
            NodeCall::Handle { call, .. } => call.asked(),
        }
    }
}
