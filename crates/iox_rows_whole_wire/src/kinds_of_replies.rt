//! Of which kind of call each reply is.
use super::play::{Ask, begin};
use super::settings::{NO_OVERFLOW, open};
use crate::expected::equal;
use iox_wire::{NodeReply, Progress, Wire};
use std::process::Abort;
use std::test::Fail;

/// No call of these tests takes as many steps.
const MOST_STEPS: u64 = 100;

/// The kinds of calls: what a port or a handle is asked (a question, a write, a read, a release), a
/// receive, a loan, and the sends and the copies of requests and responses.
const ASKS: &str = "asks";

const RECEIVE: &str = "receive";

const LOAN: &str = "loan";

const SENDS_REQUEST: &str = "sends a request";

const SENDS_RESPONSE: &str = "sends a response";

const COPIES_REQUEST: &str = "copies a request";

const COPIES_RESPONSE: &str = "copies a response";

/// The kind of call that the reply is of.
fn kind_of(reply: NodeReply) -> &'static str {
    match reply {
        NodeReply::OfSeat(_) => ASKS,
        NodeReply::OfReceive(_) => RECEIVE,
        NodeReply::OfLoan(_) => LOAN,
        NodeReply::OfRequest(_) => SENDS_REQUEST,
        NodeReply::OfResponse(_) => SENDS_RESPONSE,
        NodeReply::OfRequestCopy(_) => COPIES_REQUEST,
        NodeReply::OfResponseCopy(_) => COPIES_RESPONSE,
    }
}

/// A call of the node, from its begin to its end, and the kind of its reply.
fn ends_as(wire: &mut Wire, node: u64, ask: Ask) -> Option<&'static str> {
    begin(wire, node, ask).ok()?;
    for _ in 0..MOST_STEPS {
        match wire.step(node) {
            Err(_) => return None,
            Ok(Progress::Going) => {}
            Ok(Progress::Done(reply)) => return Some(kind_of(reply)),
        }
    }
    None
}

/// Ends the test where the reply to one of these calls is of another kind.
fn end_as(rt: &impl Abort, wire: &mut Wire, table: &[(u64, Ask, &str)]) {
    for (place, (node, ask, wanted)) in table.iter().enumerate() {
        let came = ends_as(wire, *node, *ask);
        equal(rt, (place, came), (place, Some(*wanted)));
    }
}

#[test]
fn each_reply_is_of_the_kind_of_its_call(rt: HostRuntime) -> Result<(), Fail> {
    const TABLE: &[(u64, Ask, &str)] = &[
        (0, Ask::CopyRequest(0, 7), COPIES_REQUEST),
        // one request is active, as many as may be
        (0, Ask::CopyRequest(0, 8), COPIES_REQUEST),
        (1, Ask::HasRequests(1), ASKS),
        (1, Ask::Receive(1), RECEIVE),
        (1, Ask::Receive(1), RECEIVE),
        (1, Ask::Loan(2), LOAN),
        (1, Ask::Loan(2), LOAN),
        (1, Ask::WriteResponse(3, 9), ASKS),
        (1, Ask::Send(3), SENDS_RESPONSE),
        (0, Ask::Receive(2), RECEIVE),
        // one response waits, and no second one may
        (1, Ask::CopyResponse(2, 10), COPIES_RESPONSE),
        (1, Ask::CopyResponse(2, 11), COPIES_RESPONSE),
        (1, Ask::Loan(2), LOAN),
        (1, Ask::Send(4), SENDS_RESPONSE),
        (0, Ask::Release(3), ASKS),
        (0, Ask::Release(2), ASKS),
        // one request waits, and no second one may
        (0, Ask::CopyRequest(0, 1), COPIES_REQUEST),
        (0, Ask::Release(4), ASKS),
        (0, Ask::CopyRequest(0, 2), COPIES_REQUEST),
        (0, Ask::Loan(0), LOAN),
        (0, Ask::Send(5), SENDS_REQUEST),
    ];
    let mut wire = open(rt.alloc(), NO_OVERFLOW)?;
    end_as(&rt, &mut wire, TABLE);
    Ok(())
}
