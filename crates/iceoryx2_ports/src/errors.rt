//! Why calls of ports and handles are refused.
ghost use Rattle.std.specs.Prelude.{◌≡◌};
ghost use Rattle.iceoryx2_ports.specs.declared.errors.ReceiveError.TheVariants as receive_errors;
ghost use Rattle.iceoryx2_ports.specs.declared.errors.RequestSendError.TheVariants as request_send_errors;
ghost use Rattle.iceoryx2_ports.specs.declared.errors.SendError.TheVariants as send_errors;

use std::error::Error;
use std::fmt;

/// Why no client is made.
#[derive(Clone, Copy, Debug, PartialEq, Eq)]
pub enum ClientCreateError {
    /// The requests need more room than a client may have, or than there is memory for.
    UnableToCreateDataSegment,
    /// As many clients are connected as the service has room for: release one first.
    ExceedsMaxSupportedClients,
    /// Never answered: no thread shares a port.
    FailedToDeployThreadsafetyPolicy,
    /// 2^32 ports were made.
    UnableToCreatePortTag,
}

impl fmt::Display for ClientCreateError {
    fn fmt<W: fmt::Write>(&self, f: &mut fmt::Formatter<W>) -> fmt::Result {
        write!(f, "ClientCreateError::{self:?}")
    }
}

impl Error for ClientCreateError {}

/// Why no server is made.
#[derive(Clone, Copy, Debug, PartialEq, Eq)]
pub enum ServerCreateError {
    /// The responses need more room than a server may have, or than there is memory for.
    UnableToCreateDataSegment,
    /// As many servers are connected as the service has room for: release one first.
    ExceedsMaxSupportedServers,
    /// Never answered: no thread shares a port.
    FailedToDeployThreadsafetyPolicy,
    /// 2^32 ports were made.
    UnableToCreatePortTag,
}

impl fmt::Display for ServerCreateError {
    fn fmt<W: fmt::Write>(&self, f: &mut fmt::Formatter<W>) -> fmt::Result {
        write!(f, "ServerCreateError::{self:?}")
    }
}

impl Error for ServerCreateError {}

/// Why no message is loaned.
#[derive(Clone, Copy, Debug, PartialEq, Eq)]
pub enum LoanError {
    /// The message would be longer than the port's messages may be.
    ExceedsMaxLoanSize,
    /// As many messages are loaned as may be: send or release one first.
    ExceedsMaxLoans,
    /// Each message of the port is in use.
    OutOfMemory,
    /// There is no memory for a message that has to grow.
    WantOfMemory,
    /// No message of the service has so many elements.
    WrongLength,
    /// 2^56 loans, sends and receives were made.
    CallsSpent,
}

impl fmt::Display for LoanError {
    fn fmt<W: fmt::Write>(&self, f: &mut fmt::Formatter<W>) -> fmt::Result {
        write!(f, "LoanError::{self:?}")
    }
}

impl Error for LoanError {}

/// Why a connection is not made.
#[derive(Clone, Copy, Debug, PartialEq, Eq)]
pub enum ConnectionFailure {
    /// Never answered: ports are connected as they are made.
    FailedToEstablishConnection,
}

impl fmt::Display for ConnectionFailure {
    fn fmt<W: fmt::Write>(&self, f: &mut fmt::Formatter<W>) -> fmt::Result {
        write!(f, "ConnectionFailure::{self:?}")
    }
}

impl Error for ConnectionFailure {}

/// Why a message is not sent.
#[derive(Clone, Copy, Debug, PartialEq, Eq)]
pub enum SendError {
    /// No message is loaned for it.
    LoanError(LoanError),
    /// Never answered.
    ConnectionError(ConnectionFailure),
    /// A receiver that must get it has no room.
    UnableToDeliver,
}

impl fmt::Display for SendError {
    fn fmt<W: fmt::Write>(&self, f: &mut fmt::Formatter<W>) -> fmt::Result {
        write!(f, "SendError::{self:?}")
    }
}

impl Error for SendError {}

impl From<LoanError> for SendError {
    ghost from_gives = { λ cause error. error ≡ send_errors.LoanError cause };

    fn from(cause: LoanError) -> SendError {
        SendError::LoanError(cause)
    }
}

impl From<ConnectionFailure> for SendError {
    ghost from_gives = { λ cause error. error ≡ send_errors.ConnectionError cause };

    fn from(cause: ConnectionFailure) -> SendError {
        SendError::ConnectionError(cause)
    }
}

/// Why a request is not sent.
#[derive(Clone, Copy, Debug, PartialEq, Eq)]
pub enum RequestSendError {
    /// As many requests of the client are awaited as may be: release a pending response first.
    ExceedsMaxActiveRequests,
    /// No message is loaned for it, or a server that must get it has no room.
    SendError(SendError),
}

impl fmt::Display for RequestSendError {
    fn fmt<W: fmt::Write>(&self, f: &mut fmt::Formatter<W>) -> fmt::Result {
        write!(f, "RequestSendError::{self:?}")
    }
}

impl Error for RequestSendError {}

impl From<SendError> for RequestSendError {
    ghost from_gives = { λ cause error. error ≡ request_send_errors.SendError cause };

    fn from(cause: SendError) -> RequestSendError {
        RequestSendError::SendError(cause)
    }
}

impl From<LoanError> for RequestSendError {
    ghost from_gives = { λ cause error.
        error ≡ request_send_errors.SendError (send_errors.LoanError cause) };

    fn from(cause: LoanError) -> RequestSendError {
        RequestSendError::SendError(SendError::LoanError(cause))
    }
}

impl From<ConnectionFailure> for RequestSendError {
    ghost from_gives = { λ cause error.
        error ≡ request_send_errors.SendError (send_errors.ConnectionError cause) };

    fn from(cause: ConnectionFailure) -> RequestSendError {
        RequestSendError::SendError(SendError::ConnectionError(cause))
    }
}

/// Why nothing is received.
#[derive(Clone, Copy, Debug, PartialEq, Eq)]
pub enum ReceiveError {
    /// Messages wait, of senders of which as many are held as may be: release one first.
    ExceedsMaxBorrows,
    /// Never answered.
    ConnectionFailure(ConnectionFailure),
}

impl fmt::Display for ReceiveError {
    fn fmt<W: fmt::Write>(&self, f: &mut fmt::Formatter<W>) -> fmt::Result {
        write!(f, "ReceiveError::{self:?}")
    }
}

impl Error for ReceiveError {}

impl From<ConnectionFailure> for ReceiveError {
    ghost from_gives = { λ cause error. error ≡ receive_errors.ConnectionFailure cause };

    fn from(cause: ConnectionFailure) -> ReceiveError {
        ReceiveError::ConnectionFailure(cause)
    }
}
