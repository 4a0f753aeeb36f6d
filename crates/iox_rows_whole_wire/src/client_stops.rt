//! A client stops at each place of a call, and the server continues.
use super::on::On;
use super::play::{Act, Ask};
use super::settings::NO_OVERFLOW;
use super::stops::{NOTHING_BETWEEN, Stop, stop_all};
use super::told::Told;
use std::test::Fail;

/// A request is sent and received.
const RECEIVED: [Act; 2] = [
    Act::Whole(0, Ask::CopyRequest(0, 7), 19, Told::Handle(2)),
    Act::Whole(1, Ask::Receive(1), 11, Told::Handle(2)),
];

/// The server finds nothing.
const NOTHING_CAME: [Act; 2] = [
    Act::Whole(1, Ask::HasRequests(1), 2, Told::Answer(false)),
    Act::Whole(1, Ask::Receive(1), 2, Told::Nothing),
];

/// The server receives the request, and responds as long as there is room.
const REQUEST_CAME: [Act; 13] = [
    Act::Whole(1, Ask::HasRequests(1), 2, Told::Answer(true)),
    Act::Whole(1, Ask::Receive(1), 11, Told::Handle(2)),
    Act::Whole(1, Ask::Read(2), 1, Told::Word(5)),
    Act::Whole(1, Ask::IsConnected(2), 1, Told::Answer(true)),
    Act::Whole(1, Ask::Loan(2), 14, Told::Handle(3)),
    Act::Whole(1, Ask::Loan(2), 1, Told::ExceedsMaxLoans),
    Act::Whole(1, Ask::WriteResponse(3, 6), 1, Told::Done),
    Act::Whole(1, Ask::Send(3), 9, Told::Done),
    // nobody takes the response
    Act::Whole(1, Ask::CopyResponse(2, 7), 20, Told::UnableToDeliver),
    Act::Whole(1, Ask::Loan(2), 14, Told::Handle(4)),
    Act::Whole(1, Ask::Loan(2), 1, Told::ExceedsMaxLoans),
    Act::Whole(1, Ask::Release(4), 1, Told::Done),
    Act::Whole(1, Ask::Release(2), 6, Told::Done),
];

/// The server responds, and ends.
const SERVER_GOES_ON: [Act; 3] = [
    Act::Whole(1, Ask::IsConnected(2), 1, Told::Answer(true)),
    Act::Whole(1, Ask::CopyResponse(2, 8), 24, Told::Done),
    Act::Whole(1, Ask::Release(2), 6, Told::Done),
];

const IN_ITS_LOAN: Stop<'static> = Stop {
    name: "in_its_loan",
    on: On::Ones(NO_OVERFLOW),
    before: &[],
    node: 0,
    ask: Ask::Loan(0),
    steps: 9,
    after: &[(0, &NOTHING_CAME)],
    between: NOTHING_BETWEEN,
    counts: &[],
};

const IN_ITS_COPY: Stop<'static> = Stop {
    name: "in_its_copy",
    on: On::Ones(NO_OVERFLOW),
    before: &[],
    node: 0,
    ask: Ask::CopyRequest(0, 5),
    steps: 19,
    after: &[(0, &NOTHING_CAME), (19, &REQUEST_CAME)],
    between: NOTHING_BETWEEN,
    counts: &[],
};

const IN_ITS_SEND: Stop<'static> = Stop {
    name: "in_its_send",
    on: On::Ones(NO_OVERFLOW),
    before: &[
        Act::Whole(0, Ask::Loan(0), 9, Told::Handle(2)),
        Act::Whole(0, Ask::WriteRequest(2, 5), 1, Told::Done),
    ],
    node: 0,
    ask: Ask::Send(2),
    steps: 9,
    after: &[(0, &NOTHING_CAME), (9, &REQUEST_CAME)],
    between: NOTHING_BETWEEN,
    counts: &[],
};

const IN_ITS_WRITE: Stop<'static> = Stop {
    name: "in_its_write",
    on: On::Ones(NO_OVERFLOW),
    before: &[Act::Whole(0, Ask::Loan(0), 9, Told::Handle(2))],
    node: 0,
    ask: Ask::WriteRequest(2, 5),
    steps: 1,
    after: &[(0, &NOTHING_CAME)],
    between: NOTHING_BETWEEN,
    counts: &[],
};

const AS_IT_RELEASES_A_LOAN: Stop<'static> = Stop {
    name: "as_it_releases_a_loan",
    on: On::Ones(NO_OVERFLOW),
    before: &[Act::Whole(0, Ask::Loan(0), 9, Told::Handle(2))],
    node: 0,
    ask: Ask::Release(2),
    steps: 1,
    after: &[(0, &NOTHING_CAME)],
    between: NOTHING_BETWEEN,
    counts: &[],
};

const AS_IT_GIVES_ITS_REQUEST_UP: Stop<'static> = Stop {
    name: "as_it_gives_its_request_up",
    on: On::Ones(NO_OVERFLOW),
    before: &RECEIVED,
    node: 0,
    ask: Ask::Release(2),
    steps: 1,
    after: &[
        (
            0,
            &[
                Act::Whole(1, Ask::IsConnected(2), 1, Told::Answer(true)),
                Act::Whole(1, Ask::CopyResponse(2, 7), 24, Told::Done),
                Act::Whole(1, Ask::Release(2), 6, Told::Done),
            ],
        ),
        (
            1,
            &[
                Act::Whole(1, Ask::IsConnected(2), 1, Told::Answer(false)),
                Act::Whole(1, Ask::CopyResponse(2, 7), 16, Told::Done),
                Act::Whole(1, Ask::Release(2), 5, Told::Done),
            ],
        ),
    ],
    between: NOTHING_BETWEEN,
    counts: &[],
};

const AS_IT_HINTS: Stop<'static> = Stop {
    name: "as_it_hints",
    on: On::Ones(NO_OVERFLOW),
    before: &RECEIVED,
    node: 0,
    ask: Ask::SetHint(2),
    steps: 2,
    after: &[
        (
            0,
            &[
                Act::Whole(1, Ask::HasHint(2), 1, Told::Answer(false)),
                Act::Whole(1, Ask::IsConnected(2), 1, Told::Answer(true)),
                Act::Whole(1, Ask::Release(2), 6, Told::Done),
            ],
        ),
        (
            2,
            &[
                Act::Whole(1, Ask::HasHint(2), 1, Told::Answer(true)),
                Act::Whole(1, Ask::IsConnected(2), 1, Told::Answer(true)),
                Act::Whole(1, Ask::Release(2), 6, Told::Done),
            ],
        ),
    ],
    between: NOTHING_BETWEEN,
    counts: &[],
};

const AS_IT_RECEIVES: Stop<'static> = Stop {
    name: "as_it_receives",
    on: On::Ones(NO_OVERFLOW),
    before: &[
        Act::Whole(0, Ask::CopyRequest(0, 7), 19, Told::Handle(2)),
        Act::Whole(1, Ask::Receive(1), 11, Told::Handle(2)),
        Act::Whole(1, Ask::CopyResponse(2, 9), 24, Told::Done),
    ],
    node: 0,
    ask: Ask::Receive(2),
    steps: 10,
    after: &[
        (
            0,
            &[
                Act::Whole(1, Ask::IsConnected(2), 1, Told::Answer(true)),
                Act::Whole(1, Ask::CopyResponse(2, 8), 20, Told::UnableToDeliver),
                Act::Whole(1, Ask::Loan(2), 14, Told::Handle(3)),
                Act::Whole(1, Ask::Loan(2), 1, Told::ExceedsMaxLoans),
                Act::Whole(1, Ask::Send(3), 5, Told::UnableToDeliver),
                Act::Whole(1, Ask::Release(2), 6, Told::Done),
            ],
        ),
        (
            4,
            &[
                Act::Whole(1, Ask::IsConnected(2), 1, Told::Answer(true)),
                Act::Whole(1, Ask::CopyResponse(2, 8), 24, Told::Done),
                Act::Whole(1, Ask::Loan(2), 14, Told::Handle(3)),
                Act::Whole(1, Ask::Loan(2), 1, Told::ExceedsMaxLoans),
                Act::Whole(1, Ask::Send(3), 5, Told::UnableToDeliver),
                Act::Whole(1, Ask::Release(2), 6, Told::Done),
            ],
        ),
    ],
    between: NOTHING_BETWEEN,
    counts: &[],
};

const AS_IT_FINDS_NOTHING: Stop<'static> = Stop {
    name: "as_it_finds_nothing",
    on: On::Ones(NO_OVERFLOW),
    before: &RECEIVED,
    node: 0,
    ask: Ask::Receive(2),
    steps: 2,
    after: &[(
        0,
        &[
            Act::Whole(1, Ask::CopyResponse(2, 8), 24, Told::Done),
            Act::Whole(1, Ask::Release(2), 6, Told::Done),
        ],
    )],
    between: NOTHING_BETWEEN,
    counts: &[],
};

const AS_IT_GIVES_A_RESPONSE_BACK: Stop<'static> = Stop {
    name: "as_it_gives_a_response_back",
    on: On::Ones(NO_OVERFLOW),
    before: &[
        Act::Whole(0, Ask::CopyRequest(0, 7), 19, Told::Handle(2)),
        Act::Whole(1, Ask::Receive(1), 11, Told::Handle(2)),
        Act::Whole(1, Ask::CopyResponse(2, 9), 24, Told::Done),
        Act::Whole(0, Ask::Receive(2), 10, Told::Handle(3)),
    ],
    node: 0,
    ask: Ask::Release(3),
    steps: 4,
    after: &[
        (
            0,
            &[
                Act::Whole(1, Ask::Loan(2), 14, Told::Handle(3)),
                Act::Whole(1, Ask::Loan(2), 1, Told::ExceedsMaxLoans),
                Act::Whole(1, Ask::Send(3), 9, Told::Done),
                Act::Whole(1, Ask::Release(2), 6, Told::Done),
            ],
        ),
        (
            4,
            &[
                Act::Whole(1, Ask::Loan(2), 18, Told::Handle(3)),
                Act::Whole(1, Ask::Loan(2), 1, Told::ExceedsMaxLoans),
                Act::Whole(1, Ask::Send(3), 9, Told::Done),
                Act::Whole(1, Ask::Release(2), 6, Told::Done),
            ],
        ),
    ],
    between: NOTHING_BETWEEN,
    counts: &[],
};

const AS_IT_LOOKS_FOR_A_RESPONSE: Stop<'static> = Stop {
    name: "as_it_looks_for_a_response",
    on: On::Ones(NO_OVERFLOW),
    before: &RECEIVED,
    node: 0,
    ask: Ask::HasResponse(2),
    steps: 2,
    after: &[(0, &SERVER_GOES_ON)],
    between: NOTHING_BETWEEN,
    counts: &[],
};

const AS_IT_ASKS_WHO_IS_THERE: Stop<'static> = Stop {
    name: "as_it_asks_who_is_there",
    on: On::Ones(NO_OVERFLOW),
    before: &RECEIVED,
    node: 0,
    ask: Ask::IsConnected(2),
    steps: 1,
    after: &[(0, &SERVER_GOES_ON)],
    between: NOTHING_BETWEEN,
    counts: &[],
};

const AS_IT_READS: Stop<'static> = Stop {
    name: "as_it_reads",
    on: On::Ones(NO_OVERFLOW),
    before: &RECEIVED,
    node: 0,
    ask: Ask::Read(2),
    steps: 1,
    after: &[(0, &SERVER_GOES_ON)],
    between: NOTHING_BETWEEN,
    counts: &[],
};

#[test]
fn client_stops_at_each_place(rt: HostRuntime) -> Result<(), Fail> {
    const STOPS: &[Stop<'static>] = &[
        IN_ITS_LOAN,
        IN_ITS_COPY,
        IN_ITS_SEND,
        IN_ITS_WRITE,
        AS_IT_RELEASES_A_LOAN,
        AS_IT_GIVES_ITS_REQUEST_UP,
        AS_IT_HINTS,
        AS_IT_RECEIVES,
        AS_IT_FINDS_NOTHING,
        AS_IT_GIVES_A_RESPONSE_BACK,
        AS_IT_LOOKS_FOR_A_RESPONSE,
        AS_IT_ASKS_WHO_IS_THERE,
        AS_IT_READS,
    ];
    stop_all(&rt, STOPS)
}
