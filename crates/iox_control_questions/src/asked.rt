//! What is asked of a port or a handle, and why it is not begun.
ghost use Rattle.std.specs.Prelude.{◌≡◌, ◌||◌, false};
ghost use Rattle.iox_model.specs.Handles.{kind_code, same_kind};
ghost use Rattle.iox_model.specs.Names.{suits};
ghost use Rattle.iox_model.specs.WholeCalls.{is_counted};
ghost use Rattle.iox_control_questions.specs.Asking.{call_of};

use iox_model::kind::{Kind, Role};

/// What a call asks, whatever its number and its words.
#[derive(Clone, Copy, Debug, PartialEq, Eq)]
pub enum Asked {
    /// To loan a message that holds the default.
    Loan,
    /// To loan a message of which nothing is filled.
    LoanUninit,
    /// To write a payload of messages that ports of that role send.
    Write(Role),
    /// To send a filled loan.
    Send,
    /// To loan, write and send such a payload.
    SendCopy(Role),
    /// To receive the oldest message of a sender that has one.
    Receive,
    /// To read what the message of a handle carries.
    Read,
    /// To give up a port or a handle.
    Release,
    /// Whether a request is still open.
    IsConnected,
    /// To say that no more responses are wanted.
    SetHint,
    /// Whether the client wants no more responses.
    HasHint,
    /// Whether a request waits for a server.
    HasRequests,
    /// Whether a response waits for a pending response.
    HasResponse,
}

/// Why a call is not begun. The first that applies is told.
#[derive(Clone, Copy, Debug, PartialEq, Eq)]
pub enum NotBegun {
    /// No port or handle has that number, or not any more.
    UnknownNumber,
    /// The port or handle of that number is another node's.
    ForeignNumber,
    /// It may not be asked of such a port or handle.
    WrongKind,
    /// It is counted, and as many calls as may be were counted.
    CallsSpent,
}

/// A number for each kind.
fn code(kind: Kind) -> u64
    ensures { result ≡ kind_code kind }
{
    match kind {
        Kind::Client => 0,
        Kind::Server => 1,
        Kind::RequestMutUninit => 2,
        Kind::RequestMut => 3,
        Kind::ResponseMutUninit => 4,
        Kind::ResponseMut => 5,
        Kind::PendingResponse => 6,
        Kind::ActiveRequest => 7,
        Kind::Response => 8,
    }
}

/// Whether two kinds are one.
pub fn is_same_kind(kind: Kind, other: Kind) -> bool
    ensures { result ≡ same_kind kind other }
{
    code(kind) == code(other)
}

/// Whether it is one of the two kinds.
fn is_either(kind: Kind, one: Kind, other: Kind) -> bool
    ensures { result ≡ (same_kind kind one || same_kind kind other) }
{
    is_same_kind(kind, one) || is_same_kind(kind, other)
}

/// Whether that may be asked of a port or handle of the kind, whatever its number.
#[inline]
pub fn may_be_asked(asked: Asked, kind: Kind) -> bool
    ensures { result ≡ suits false (call_of 0 asked) kind }
{
    match asked {
        Asked::Loan | Asked::LoanUninit => is_either(kind, Kind::Client, Kind::ActiveRequest),
        Asked::Write(Role::Client) => is_either(kind, Kind::RequestMut, Kind::RequestMutUninit),
        Asked::Write(Role::Server) => is_either(kind, Kind::ResponseMut, Kind::ResponseMutUninit),
        Asked::Send => is_either(kind, Kind::RequestMut, Kind::ResponseMut),
        Asked::SendCopy(Role::Client) => is_same_kind(kind, Kind::Client),
        Asked::SendCopy(Role::Server) => is_same_kind(kind, Kind::ActiveRequest),
        Asked::Receive => is_either(kind, Kind::Server, Kind::PendingResponse),
        Asked::Read => {
            !(is_either(kind, Kind::Client, Kind::Server)
                || is_either(kind, Kind::RequestMutUninit, Kind::ResponseMutUninit))
        }
        Asked::Release => true,
        Asked::IsConnected => is_either(kind, Kind::PendingResponse, Kind::ActiveRequest),
        Asked::SetHint => is_same_kind(kind, Kind::PendingResponse),
        Asked::HasHint => is_same_kind(kind, Kind::ActiveRequest),
        Asked::HasRequests => is_same_kind(kind, Kind::Server),
        Asked::HasResponse => is_same_kind(kind, Kind::PendingResponse),
    }
}

/// Whether it is counted: a loan, a send or a receive.
pub fn is_counted_call(asked: Asked) -> bool
    ensures { result ≡ is_counted (call_of 0 asked) }
{
    match asked {
        Asked::Loan | Asked::LoanUninit | Asked::Send | Asked::SendCopy(_) | Asked::Receive => true,
        Asked::Write(_)
        | Asked::Read
        | Asked::Release
        | Asked::IsConnected
        | Asked::SetHint
        | Asked::HasHint
        | Asked::HasRequests
        | Asked::HasResponse => false,
    }
}
