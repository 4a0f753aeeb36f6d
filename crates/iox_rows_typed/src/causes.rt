//! Errors that hold the error of another call: what each `From` makes, and how it is shown.

use crate::expected::equal;
use iceoryx2_ports::{ConnectionFailure, LoanError, ReceiveError, RequestSendError, SendError};
use std::alloc::Global;
use std::error::Error;
use std::process::Abort;

const FAILURE: ConnectionFailure = ConnectionFailure::FailedToEstablishConnection;

/// Ends the test if the error is another, or if it is shown in another way: by `{:?}` first.
fn told<E: Error + Copy + PartialEq + Drop>(
    rt: &impl Abort,
    alloc: Global,
    error: E,
    wanted: E,
    texts: (&str, &str),
) {
    equal(rt, error, wanted);
    let debug = format!(in alloc; "{error:?}").expect(rt, "a text");
    equal(rt, debug.as_str(), texts.0);
    let text = format!(in alloc; "{error}").expect(rt, "a text");
    equal(rt, text.as_str(), texts.1);
}

#[test]
fn a_request_that_finds_no_free_message_is_not_sent(rt: HostRuntime) {
    told(
        &rt,
        rt.alloc(),
        RequestSendError::from(LoanError::OutOfMemory),
        RequestSendError::SendError(SendError::LoanError(LoanError::OutOfMemory)),
        (
            "SendError(LoanError(OutOfMemory))",
            "RequestSendError::SendError(LoanError(OutOfMemory))",
        ),
    );
}

#[test]
fn a_refused_send_of_a_request_is_told(rt: HostRuntime) {
    told(
        &rt,
        rt.alloc(),
        RequestSendError::from(SendError::UnableToDeliver),
        RequestSendError::SendError(SendError::UnableToDeliver),
        (
            "SendError(UnableToDeliver)",
            "RequestSendError::SendError(UnableToDeliver)",
        ),
    );
}

#[test]
fn a_request_over_a_failed_connection_is_not_sent(rt: HostRuntime) {
    told(
        &rt,
        rt.alloc(),
        RequestSendError::from(FAILURE),
        RequestSendError::SendError(SendError::ConnectionError(FAILURE)),
        (
            "SendError(ConnectionError(FailedToEstablishConnection))",
            "RequestSendError::SendError(ConnectionError(FailedToEstablishConnection))",
        ),
    );
}

#[test]
fn a_response_past_the_limit_of_loans_is_not_sent(rt: HostRuntime) {
    told(
        &rt,
        rt.alloc(),
        SendError::from(LoanError::ExceedsMaxLoans),
        SendError::LoanError(LoanError::ExceedsMaxLoans),
        (
            "LoanError(ExceedsMaxLoans)",
            "SendError::LoanError(ExceedsMaxLoans)",
        ),
    );
}

#[test]
fn a_response_over_a_failed_connection_is_not_sent(rt: HostRuntime) {
    told(
        &rt,
        rt.alloc(),
        SendError::from(FAILURE),
        SendError::ConnectionError(FAILURE),
        (
            "ConnectionError(FailedToEstablishConnection)",
            "SendError::ConnectionError(FailedToEstablishConnection)",
        ),
    );
}

#[test]
fn nothing_is_received_over_a_failed_connection(rt: HostRuntime) {
    told(
        &rt,
        rt.alloc(),
        ReceiveError::from(FAILURE),
        ReceiveError::ConnectionFailure(FAILURE),
        (
            "ConnectionFailure(FailedToEstablishConnection)",
            "ReceiveError::ConnectionFailure(FailedToEstablishConnection)",
        ),
    );
}
