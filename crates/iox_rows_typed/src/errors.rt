use crate::expected::equal;
use iceoryx2_ports::{
    ClientCreateError, ConnectionFailure, LoanError, ReceiveError, RequestSendError, SendError,
    ServerCreateError,
};
use std::alloc::Global;
use std::error::Error;
use std::process::Abort;

const FAILURE: ConnectionFailure = ConnectionFailure::FailedToEstablishConnection;

/// Ends the test if the text of an error is another.
fn have_texts<E: Error + Copy>(rt: &impl Abort, alloc: Global, list: &[(E, &str)]) {
    for (error, want) in list {
        let text = format!(in alloc; "{error}").expect(rt, "a text");
        equal(rt, text.as_str(), *want);
    }
}

#[test]
fn refused_makings_have_texts(rt: HostRuntime) {
    const CLIENTS: &[(ClientCreateError, &str)] = &[
        (
            ClientCreateError::UnableToCreateDataSegment,
            "ClientCreateError::UnableToCreateDataSegment",
        ),
        (
            ClientCreateError::ExceedsMaxSupportedClients,
            "ClientCreateError::ExceedsMaxSupportedClients",
        ),
        (
            ClientCreateError::FailedToDeployThreadsafetyPolicy,
            "ClientCreateError::FailedToDeployThreadsafetyPolicy",
        ),
        (
            ClientCreateError::UnableToCreatePortTag,
            "ClientCreateError::UnableToCreatePortTag",
        ),
    ];
    const SERVERS: &[(ServerCreateError, &str)] = &[
        (
            ServerCreateError::UnableToCreateDataSegment,
            "ServerCreateError::UnableToCreateDataSegment",
        ),
        (
            ServerCreateError::ExceedsMaxSupportedServers,
            "ServerCreateError::ExceedsMaxSupportedServers",
        ),
        (
            ServerCreateError::FailedToDeployThreadsafetyPolicy,
            "ServerCreateError::FailedToDeployThreadsafetyPolicy",
        ),
        (
            ServerCreateError::UnableToCreatePortTag,
            "ServerCreateError::UnableToCreatePortTag",
        ),
    ];
    have_texts(&rt, rt.alloc(), CLIENTS);
    have_texts(&rt, rt.alloc(), SERVERS);
}

#[test]
fn refused_loans_have_texts(rt: HostRuntime) {
    const LOANS: &[(LoanError, &str)] = &[
        (
            LoanError::ExceedsMaxLoanSize,
            "LoanError::ExceedsMaxLoanSize",
        ),
        (LoanError::ExceedsMaxLoans, "LoanError::ExceedsMaxLoans"),
        (LoanError::OutOfMemory, "LoanError::OutOfMemory"),
        (LoanError::WantOfMemory, "LoanError::WantOfMemory"),
        (LoanError::WrongLength, "LoanError::WrongLength"),
        (LoanError::CallsSpent, "LoanError::CallsSpent"),
    ];
    have_texts(&rt, rt.alloc(), LOANS);
}

#[test]
fn refused_sends_and_receives_have_texts(rt: HostRuntime) {
    const FAILURES: &[(ConnectionFailure, &str)] = &[(
        FAILURE,
        "ConnectionFailure::FailedToEstablishConnection",
    )];
    const SENDS: &[(SendError, &str)] = &[
        (
            SendError::LoanError(LoanError::OutOfMemory),
            "SendError::LoanError(OutOfMemory)",
        ),
        (
            SendError::ConnectionError(FAILURE),
            "SendError::ConnectionError(FailedToEstablishConnection)",
        ),
        (SendError::UnableToDeliver, "SendError::UnableToDeliver"),
    ];
    const REQUESTS: &[(RequestSendError, &str)] = &[
        (
            RequestSendError::ExceedsMaxActiveRequests,
            "RequestSendError::ExceedsMaxActiveRequests",
        ),
        (
            RequestSendError::SendError(SendError::LoanError(LoanError::OutOfMemory)),
            "RequestSendError::SendError(LoanError(OutOfMemory))",
        ),
    ];
    const RECEIVES: &[(ReceiveError, &str)] = &[
        (
            ReceiveError::ExceedsMaxBorrows,
            "ReceiveError::ExceedsMaxBorrows",
        ),
        (
            ReceiveError::ConnectionFailure(FAILURE),
            "ReceiveError::ConnectionFailure(FailedToEstablishConnection)",
        ),
    ];
    have_texts(&rt, rt.alloc(), FAILURES);
    have_texts(&rt, rt.alloc(), SENDS);
    have_texts(&rt, rt.alloc(), REQUESTS);
    have_texts(&rt, rt.alloc(), RECEIVES);
}
