//! A server stops at each place of a call, and the client continues.
use super::on::On;
use super::play::{Act, Ask};
use super::settings::NO_OVERFLOW;
use super::stops::{NOTHING_BETWEEN, Stop, stop_all};
use super::told::Told;
use std::test::Fail;

/// A request is sent.
const SENT: [Act; 1] = [Act::Whole(0, Ask::CopyRequest(0, 7), 19, Told::Handle(2))];

/// A request is sent and received.
const RECEIVED: [Act; 2] = [
    Act::Whole(0, Ask::CopyRequest(0, 7), 19, Told::Handle(2)),
    Act::Whole(1, Ask::Receive(1), 11, Told::Handle(2)),
];

/// A response is lent, too.
const LENT: [Act; 3] = [
    Act::Whole(0, Ask::CopyRequest(0, 7), 19, Told::Handle(2)),
    Act::Whole(1, Ask::Receive(1), 11, Told::Handle(2)),
    Act::Whole(1, Ask::Loan(2), 14, Told::Handle(3)),
];

/// The client gets no response, gives its request up, and sends another one.
const CLIENT_GOES_ON: [Act; 8] = [
    Act::Whole(0, Ask::IsConnected(2), 1, Told::Answer(true)),
    Act::Whole(0, Ask::Receive(2), 2, Told::Nothing),
    Act::Whole(0, Ask::Release(2), 1, Told::Done),
    Act::Whole(0, Ask::Loan(0), 9, Told::Handle(3)),
    Act::Whole(0, Ask::Loan(0), 1, Told::ExceedsMaxLoans),
    Act::Whole(0, Ask::WriteRequest(3, 6), 1, Told::Done),
    Act::Whole(0, Ask::Send(3), 9, Told::Sent(1)),
    Act::Whole(0, Ask::Release(3), 1, Told::Done),
];

/// The client receives the response, and sends another request.
const RESPONSE_CAME: [Act; 10] = [
    Act::Whole(0, Ask::HasResponse(2), 2, Told::Answer(true)),
    Act::Whole(0, Ask::Receive(2), 10, Told::Handle(3)),
    Act::Whole(0, Ask::Read(3), 1, Told::Word(9)),
    Act::Whole(0, Ask::Receive(2), 2, Told::Nothing),
    Act::Whole(0, Ask::IsConnected(2), 1, Told::Answer(true)),
    Act::Whole(0, Ask::Release(3), 4, Told::Done),
    Act::Whole(0, Ask::Release(2), 1, Told::Done),
    Act::Whole(0, Ask::Loan(0), 9, Told::Handle(4)),
    Act::Whole(0, Ask::Loan(0), 1, Told::ExceedsMaxLoans),
    Act::Whole(0, Ask::Send(4), 9, Told::Sent(1)),
];

const AS_IT_RECEIVES: Stop<'static> = Stop {
    name: "as_it_receives",
    on: On::Ones(NO_OVERFLOW),
    before: &SENT,
    node: 1,
    ask: Ask::Receive(1),
    steps: 11,
    after: &[
        (
            0,
            &[
                Act::Whole(0, Ask::IsConnected(2), 1, Told::Answer(true)),
                Act::Whole(0, Ask::HasResponse(2), 2, Told::Answer(false)),
                Act::Whole(0, Ask::Receive(2), 2, Told::Nothing),
                Act::Whole(0, Ask::SetHint(2), 2, Told::Done),
                Act::Whole(0, Ask::Release(2), 1, Told::Done),
                Act::Whole(0, Ask::Loan(0), 9, Told::Handle(3)),
                Act::Whole(0, Ask::Loan(0), 1, Told::ExceedsMaxLoans),
                Act::Whole(0, Ask::WriteRequest(3, 6), 1, Told::Done),
                // the server's queue is full
                Act::Whole(0, Ask::Send(3), 4, Told::UnableToDeliver),
                Act::Whole(0, Ask::Loan(0), 9, Told::Handle(4)),
                Act::Whole(0, Ask::Release(4), 1, Told::Done),
            ],
        ),
        (
            4,
            &[
                Act::Whole(0, Ask::IsConnected(2), 1, Told::Answer(true)),
                Act::Whole(0, Ask::HasResponse(2), 2, Told::Answer(false)),
                Act::Whole(0, Ask::Receive(2), 2, Told::Nothing),
                Act::Whole(0, Ask::SetHint(2), 2, Told::Done),
                Act::Whole(0, Ask::Release(2), 1, Told::Done),
                Act::Whole(0, Ask::Loan(0), 9, Told::Handle(3)),
                Act::Whole(0, Ask::Loan(0), 1, Told::ExceedsMaxLoans),
                Act::Whole(0, Ask::WriteRequest(3, 6), 1, Told::Done),
                Act::Whole(0, Ask::Send(3), 9, Told::Sent(1)),
                Act::Whole(
                    0,
                    Ask::CopyRequest(0, 8),
                    10,
                    Told::ExceedsMaxActiveRequests,
                ),
                Act::Whole(0, Ask::Release(3), 1, Told::Done),
                Act::Whole(0, Ask::CopyRequest(0, 8), 14, Told::UnableToDeliver),
                Act::Whole(0, Ask::Loan(0), 9, Told::Handle(4)),
            ],
        ),
    ],
    between: NOTHING_BETWEEN,
    counts: &[],
};

const IN_ITS_LOAN: Stop<'static> = Stop {
    name: "in_its_loan",
    on: On::Ones(NO_OVERFLOW),
    before: &RECEIVED,
    node: 1,
    ask: Ask::Loan(2),
    steps: 14,
    after: &[(0, &CLIENT_GOES_ON)],
    between: NOTHING_BETWEEN,
    counts: &[],
};

const IN_ITS_WRITE: Stop<'static> = Stop {
    name: "in_its_write",
    on: On::Ones(NO_OVERFLOW),
    before: &LENT,
    node: 1,
    ask: Ask::WriteResponse(3, 9),
    steps: 1,
    after: &[(0, &CLIENT_GOES_ON)],
    between: NOTHING_BETWEEN,
    counts: &[],
};

const AS_IT_RELEASES_A_LOAN: Stop<'static> = Stop {
    name: "as_it_releases_a_loan",
    on: On::Ones(NO_OVERFLOW),
    before: &LENT,
    node: 1,
    ask: Ask::Release(3),
    steps: 1,
    after: &[(0, &CLIENT_GOES_ON)],
    between: NOTHING_BETWEEN,
    counts: &[],
};

const IN_ITS_COPY: Stop<'static> = Stop {
    name: "in_its_copy",
    on: On::Ones(NO_OVERFLOW),
    before: &RECEIVED,
    node: 1,
    ask: Ask::CopyResponse(2, 9),
    steps: 24,
    after: &[(0, &CLIENT_GOES_ON), (24, &RESPONSE_CAME)],
    between: NOTHING_BETWEEN,
    counts: &[],
};

const IN_ITS_SEND: Stop<'static> = Stop {
    name: "in_its_send",
    on: On::Ones(NO_OVERFLOW),
    before: &[
        Act::Whole(0, Ask::CopyRequest(0, 7), 19, Told::Handle(2)),
        Act::Whole(1, Ask::Receive(1), 11, Told::Handle(2)),
        Act::Whole(1, Ask::Loan(2), 14, Told::Handle(3)),
        Act::Whole(1, Ask::WriteResponse(3, 9), 1, Told::Done),
    ],
    node: 1,
    ask: Ask::Send(3),
    steps: 9,
    after: &[(0, &CLIENT_GOES_ON), (9, &RESPONSE_CAME)],
    between: NOTHING_BETWEEN,
    counts: &[],
};

const AS_IT_GIVES_A_REQUEST_BACK: Stop<'static> = Stop {
    name: "as_it_gives_a_request_back",
    on: On::Ones(NO_OVERFLOW),
    before: &RECEIVED,
    node: 1,
    ask: Ask::Release(2),
    steps: 6,
    after: &[
        (0, &CLIENT_GOES_ON),
        (
            4,
            &[
                Act::Whole(0, Ask::IsConnected(2), 1, Told::Answer(true)),
                Act::Whole(0, Ask::Receive(2), 2, Told::Nothing),
                Act::Whole(0, Ask::Release(2), 1, Told::Done),
                Act::Whole(0, Ask::Loan(0), 13, Told::Handle(3)),
                Act::Whole(0, Ask::Loan(0), 1, Told::ExceedsMaxLoans),
                Act::Whole(0, Ask::Send(3), 9, Told::Sent(1)),
            ],
        ),
        (
            6,
            &[
                Act::Whole(0, Ask::IsConnected(2), 1, Told::Answer(false)),
                Act::Whole(0, Ask::SetHint(2), 1, Told::Done),
                Act::Whole(0, Ask::Receive(2), 2, Told::Nothing),
                Act::Whole(0, Ask::Release(2), 1, Told::Done),
                Act::Whole(0, Ask::Loan(0), 13, Told::Handle(3)),
                Act::Whole(0, Ask::Loan(0), 1, Told::ExceedsMaxLoans),
                Act::Whole(0, Ask::Send(3), 9, Told::Sent(1)),
            ],
        ),
    ],
    between: NOTHING_BETWEEN,
    counts: &[],
};

const AS_IT_LOOKS_FOR_REQUESTS: Stop<'static> = Stop {
    name: "as_it_looks_for_requests",
    on: On::Ones(NO_OVERFLOW),
    before: &SENT,
    node: 1,
    ask: Ask::HasRequests(1),
    steps: 2,
    after: &[(
        0,
        &[
            Act::Whole(0, Ask::IsConnected(2), 1, Told::Answer(true)),
            Act::Whole(0, Ask::Release(2), 1, Told::Done),
            Act::Whole(0, Ask::CopyRequest(0, 6), 14, Told::UnableToDeliver),
            Act::Whole(0, Ask::Loan(0), 9, Told::Handle(3)),
        ],
    )],
    between: NOTHING_BETWEEN,
    counts: &[],
};

const AS_IT_FINDS_NOTHING: Stop<'static> = Stop {
    name: "as_it_finds_nothing",
    on: On::Ones(NO_OVERFLOW),
    before: &[],
    node: 1,
    ask: Ask::Receive(1),
    steps: 2,
    after: &[(
        0,
        &[
            Act::Whole(0, Ask::CopyRequest(0, 6), 19, Told::Handle(2)),
            Act::Whole(0, Ask::IsConnected(2), 1, Told::Answer(true)),
        ],
    )],
    between: NOTHING_BETWEEN,
    counts: &[],
};

const AS_IT_ASKS_WHO_IS_THERE: Stop<'static> = Stop {
    name: "as_it_asks_who_is_there",
    on: On::Ones(NO_OVERFLOW),
    before: &RECEIVED,
    node: 1,
    ask: Ask::IsConnected(2),
    steps: 1,
    after: &[(0, &CLIENT_GOES_ON)],
    between: NOTHING_BETWEEN,
    counts: &[],
};

const AS_IT_LOOKS_FOR_A_HINT: Stop<'static> = Stop {
    name: "as_it_looks_for_a_hint",
    on: On::Ones(NO_OVERFLOW),
    before: &RECEIVED,
    node: 1,
    ask: Ask::HasHint(2),
    steps: 1,
    after: &[(0, &CLIENT_GOES_ON)],
    between: NOTHING_BETWEEN,
    counts: &[],
};

const AS_IT_READS: Stop<'static> = Stop {
    name: "as_it_reads",
    on: On::Ones(NO_OVERFLOW),
    before: &RECEIVED,
    node: 1,
    ask: Ask::Read(2),
    steps: 1,
    after: &[(0, &CLIENT_GOES_ON)],
    between: NOTHING_BETWEEN,
    counts: &[],
};

#[test]
fn server_stops_at_each_place(rt: HostRuntime) -> Result<(), Fail> {
    const STOPS: &[Stop<'static>] = &[
        AS_IT_RECEIVES,
        IN_ITS_LOAN,
        IN_ITS_WRITE,
        AS_IT_RELEASES_A_LOAN,
        IN_ITS_COPY,
        IN_ITS_SEND,
        AS_IT_GIVES_A_REQUEST_BACK,
        AS_IT_LOOKS_FOR_REQUESTS,
        AS_IT_FINDS_NOTHING,
        AS_IT_ASKS_WHO_IS_THERE,
        AS_IT_LOOKS_FOR_A_HINT,
        AS_IT_READS,
    ];
    stop_all(&rt, STOPS)
}
