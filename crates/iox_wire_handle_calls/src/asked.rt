//! Which call a port or a handle is asked for.
ghost use Rattle.std.specs.Prelude.{ℕ, ◌≡◌, true};
ghost use Rattle.iox_model.specs.Commands.{Payload};
ghost use Rattle.iox_model.specs.Names.{suits};
ghost use Rattle.iox_wire_handle_calls.specs.HandleCalls.{HasRole, call_of};

use iox_model::kind::{Kind, Role};

/// Which call a port or a handle is asked for. A loan is of so many elements. A write or a copy is
/// of a request or of a response, as its role tells.
#[derive(Clone, Copy, Debug, PartialEq, Eq)]
pub enum Asked {
    /// To loan a message of so many elements.
    Loan(u64),
    /// To loan such a message of which nothing is filled. Nothing on a wire has this call.
    LoanUninit(u64),
    /// To write the payload of a loan.
    Write(Role),
    /// To send a loan.
    Send,
    /// To loan, write and send in one.
    SendCopy(Role),
    /// To receive the oldest message of a sender that has one.
    Receive,
    /// To read what the message of a handle carries.
    Read,
    /// To give up a handle. No port is released while a wire is open.
    Release,
    /// Whether a request is still open.
    IsConnected,
    /// To say that no more responses are wanted.
    SetHint,
    /// Whether the client wants no more responses.
    HasHint,
    /// Whether a request waits for a server.
    HasRequests,
    /// Whether a response waits for a pending response.
    HasResponse,
}

impl Asked {
    /// Whether ports or handles of that kind have the call.
    #[inline]
    pub fn suits(self, kind: Kind) -> bool
        ensures { (n : ℕ) → (y : Payload) → HasRole self y
            → result ≡ suits true (call_of self n y) kind }
    {
        match self {
            Asked::Loan(_) => matches!(kind, Kind::Client | Kind::ActiveRequest),
            Asked::LoanUninit(_) => false,
            Asked::SendCopy(Role::Client) => matches!(kind, Kind::Client),
            Asked::SendCopy(Role::Server) => matches!(kind, Kind::ActiveRequest),
            Asked::Write(Role::Client) => {
                matches!(kind, Kind::RequestMut | Kind::RequestMutUninit)
            }
            Asked::Write(Role::Server) => {
                matches!(kind, Kind::ResponseMut | Kind::ResponseMutUninit)
            }
            Asked::Send => matches!(kind, Kind::RequestMut | Kind::ResponseMut),
            Asked::Receive => matches!(kind, Kind::Server | Kind::PendingResponse),
            Asked::Release => !matches!(kind, Kind::Client | Kind::Server),
            Asked::HasRequests => matches!(kind, Kind::Server),
            Asked::Read => !matches!(
                kind,
                Kind::Client | Kind::Server | Kind::RequestMutUninit | Kind::ResponseMutUninit
            ),
            Asked::IsConnected => matches!(kind, Kind::PendingResponse | Kind::ActiveRequest),
            Asked::SetHint | Asked::HasResponse => matches!(kind, Kind::PendingResponse),
            Asked::HasHint => matches!(kind, Kind::ActiveRequest),
        }
    }
}
