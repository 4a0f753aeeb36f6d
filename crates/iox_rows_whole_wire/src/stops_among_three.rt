//! A node of three stops at each place of a call, and the other two go on.
use super::on::On;
use super::play::{Act, Ask};
use super::settings::{NO_OVERFLOW, OVERFLOW};
use super::stops::{NOTHING_BETWEEN, Stop, stop_all};
use super::told::Told;
use std::test::Fail;

/// Both servers receive a request.
const BOTH_RECEIVED: [Act; 3] = [
    Act::Whole(0, Ask::CopyRequest(0, 7), 30, Told::Handle(4)),
    Act::Whole(1, Ask::Receive(1), 11, Told::Handle(4)),
    Act::Whole(2, Ask::Receive(2), 11, Told::Handle(4)),
];

const CLIENT_STOPS_IN_ITS_COPY: Stop<'static> = Stop {
    name: "client_stops_in_its_copy",
    on: On::Four(NO_OVERFLOW),
    before: &[],
    node: 0,
    ask: Ask::CopyRequest(0, 5),
    steps: 30,
    after: &[
        (
            0,
            &[
                Act::Whole(1, Ask::Receive(1), 4, Told::Nothing),
                Act::Whole(2, Ask::Receive(2), 4, Told::Nothing),
                // the other client continues
                Act::Whole(2, Ask::CopyRequest(3, 8), 30, Told::Handle(4)),
                Act::Whole(1, Ask::Receive(1), 13, Told::Handle(4)),
                Act::Whole(1, Ask::Read(4), 1, Told::Word(8)),
            ],
        ),
        (
            26,
            &[
                Act::Whole(1, Ask::Receive(1), 11, Told::Handle(4)),
                Act::Whole(1, Ask::Read(4), 1, Told::Word(5)),
                Act::Whole(1, Ask::IsConnected(4), 1, Told::Answer(true)),
                Act::Whole(2, Ask::Receive(2), 4, Told::Nothing),
                // the other client continues
                Act::Whole(2, Ask::CopyRequest(3, 8), 30, Told::Handle(4)),
                Act::Whole(1, Ask::Receive(1), 13, Told::Handle(5)),
                Act::Whole(1, Ask::Read(5), 1, Told::Word(8)),
            ],
        ),
        (
            30,
            &[
                Act::Whole(1, Ask::Receive(1), 11, Told::Handle(4)),
                Act::Whole(1, Ask::Read(4), 1, Told::Word(5)),
                Act::Whole(2, Ask::Receive(2), 11, Told::Handle(4)),
                Act::Whole(2, Ask::Read(4), 1, Told::Word(5)),
                Act::Whole(2, Ask::CopyResponse(4, 6), 40, Told::Done),
                // the other client continues
                Act::Whole(2, Ask::CopyRequest(3, 8), 30, Told::Handle(5)),
                Act::Whole(1, Ask::Receive(1), 13, Told::Handle(5)),
                Act::Whole(1, Ask::Read(5), 1, Told::Word(8)),
            ],
        ),
    ],
    between: NOTHING_BETWEEN,
    counts: &[],
};

const CLIENT_STOPS_AS_IT_GIVES_ITS_REQUEST_UP: Stop<'static> = Stop {
    name: "client_stops_as_it_gives_its_request_up",
    on: On::Four(NO_OVERFLOW),
    before: &BOTH_RECEIVED,
    node: 0,
    ask: Ask::Release(4),
    steps: 2,
    after: &[
        (
            0,
            &[
                Act::Whole(1, Ask::IsConnected(4), 1, Told::Answer(true)),
                Act::Whole(2, Ask::IsConnected(4), 1, Told::Answer(true)),
            ],
        ),
        (
            1,
            &[
                Act::Whole(1, Ask::IsConnected(4), 1, Told::Answer(false)),
                Act::Whole(2, Ask::IsConnected(4), 1, Told::Answer(true)),
                Act::Whole(2, Ask::CopyResponse(4, 6), 40, Told::Done),
                Act::Whole(1, Ask::CopyResponse(4, 6), 32, Told::Done),
            ],
        ),
        (
            2,
            &[
                Act::Whole(1, Ask::IsConnected(4), 1, Told::Answer(false)),
                Act::Whole(2, Ask::IsConnected(4), 1, Told::Answer(false)),
            ],
        ),
    ],
    between: NOTHING_BETWEEN,
    counts: &[],
};

const CLIENT_STOPS_AS_IT_HINTS: Stop<'static> = Stop {
    name: "client_stops_as_it_hints",
    on: On::Four(NO_OVERFLOW),
    before: &BOTH_RECEIVED,
    node: 0,
    ask: Ask::SetHint(4),
    steps: 4,
    after: &[
        (
            0,
            &[
                Act::Whole(1, Ask::HasHint(4), 1, Told::Answer(false)),
                Act::Whole(2, Ask::HasHint(4), 1, Told::Answer(false)),
            ],
        ),
        (
            2,
            &[
                Act::Whole(1, Ask::HasHint(4), 1, Told::Answer(true)),
                Act::Whole(2, Ask::HasHint(4), 1, Told::Answer(false)),
            ],
        ),
        (
            4,
            &[
                Act::Whole(1, Ask::HasHint(4), 1, Told::Answer(true)),
                Act::Whole(2, Ask::HasHint(4), 1, Told::Answer(true)),
            ],
        ),
    ],
    between: NOTHING_BETWEEN,
    counts: &[],
};

const SERVER_STOPS_AS_IT_RECEIVES: Stop<'static> = Stop {
    name: "server_stops_as_it_receives",
    on: On::Four(NO_OVERFLOW),
    before: &[Act::Whole(0, Ask::CopyRequest(0, 7), 30, Told::Handle(4))],
    node: 1,
    ask: Ask::Receive(1),
    steps: 11,
    after: &[
        (
            0,
            &[
                Act::Whole(2, Ask::Receive(2), 11, Told::Handle(4)),
                Act::Whole(0, Ask::IsConnected(4), 1, Told::Answer(true)),
                Act::Whole(2, Ask::CopyResponse(4, 9), 40, Told::Done),
                Act::Whole(0, Ask::Receive(4), 12, Told::Handle(5)),
                Act::Whole(0, Ask::Read(5), 1, Told::Word(9)),
                Act::Whole(0, Ask::Release(5), 4, Told::Done),
                Act::Whole(0, Ask::Release(4), 2, Told::Done),
                Act::Whole(2, Ask::Release(4), 5, Told::Done),
                Act::Whole(0, Ask::Loan(0), 15, Told::Handle(6)),
                Act::Whole(0, Ask::Loan(0), 1, Told::ExceedsMaxLoans),
                // the queue of the dead one is full
                Act::Whole(0, Ask::Send(6), 8, Told::UnableToDeliver),
                Act::Whole(2, Ask::Receive(2), 4, Told::Nothing),
            ],
        ),
        (
            4,
            &[
                Act::Whole(2, Ask::Receive(2), 11, Told::Handle(4)),
                Act::Whole(0, Ask::IsConnected(4), 1, Told::Answer(true)),
                Act::Whole(2, Ask::CopyResponse(4, 9), 40, Told::Done),
                Act::Whole(0, Ask::Receive(4), 12, Told::Handle(5)),
                Act::Whole(0, Ask::Read(5), 1, Told::Word(9)),
                Act::Whole(0, Ask::Release(5), 4, Told::Done),
                Act::Whole(0, Ask::Release(4), 2, Told::Done),
                Act::Whole(2, Ask::Release(4), 5, Told::Done),
                Act::Whole(0, Ask::Loan(0), 15, Told::Handle(6)),
                Act::Whole(0, Ask::Loan(0), 1, Told::ExceedsMaxLoans),
                Act::Whole(0, Ask::Send(6), 18, Told::Sent(2)),
                Act::Whole(2, Ask::Receive(2), 11, Told::Handle(5)),
            ],
        ),
    ],
    between: NOTHING_BETWEEN,
    counts: &[],
};

const SERVER_STOPS_IN_ITS_COPY: Stop<'static> = Stop {
    name: "server_stops_in_its_copy",
    on: On::Four(NO_OVERFLOW),
    before: &BOTH_RECEIVED,
    node: 1,
    ask: Ask::CopyResponse(4, 9),
    steps: 40,
    after: &[
        (
            0,
            &[
                Act::Whole(0, Ask::Receive(4), 4, Told::Nothing),
                Act::Whole(2, Ask::CopyResponse(4, 10), 40, Told::Done),
                Act::Whole(0, Ask::Receive(4), 12, Told::Handle(5)),
                Act::Whole(0, Ask::Read(5), 1, Told::Word(10)),
            ],
        ),
        (
            40,
            &[
                Act::Whole(2, Ask::CopyResponse(4, 10), 40, Told::Done),
                Act::Whole(0, Ask::Receive(4), 10, Told::Handle(5)),
                Act::Whole(0, Ask::Read(5), 1, Told::Word(9)),
                Act::Whole(0, Ask::Receive(4), 12, Told::Handle(6)),
                Act::Whole(0, Ask::Read(6), 1, Told::Word(10)),
            ],
        ),
    ],
    between: NOTHING_BETWEEN,
    counts: &[],
};

const SERVER_STOPS_AS_IT_GIVES_A_REQUEST_BACK: Stop<'static> = Stop {
    name: "server_stops_as_it_gives_a_request_back",
    on: On::Four(NO_OVERFLOW),
    before: &BOTH_RECEIVED,
    node: 1,
    ask: Ask::Release(4),
    steps: 6,
    after: &[
        (
            0,
            &[
                Act::Whole(0, Ask::IsConnected(4), 1, Told::Answer(true)),
                Act::Whole(0, Ask::Loan(0), 11, Told::Handle(5)),
                Act::Whole(2, Ask::Release(4), 6, Told::Done),
                Act::Whole(0, Ask::IsConnected(4), 1, Told::Answer(true)),
            ],
        ),
        (
            4,
            &[
                Act::Whole(0, Ask::IsConnected(4), 1, Told::Answer(true)),
                Act::Whole(0, Ask::Loan(0), 15, Told::Handle(5)),
                Act::Whole(2, Ask::Release(4), 6, Told::Done),
                Act::Whole(0, Ask::IsConnected(4), 1, Told::Answer(true)),
            ],
        ),
        (
            6,
            &[
                Act::Whole(0, Ask::IsConnected(4), 2, Told::Answer(true)),
                Act::Whole(0, Ask::Loan(0), 15, Told::Handle(5)),
                Act::Whole(2, Ask::Release(4), 6, Told::Done),
                Act::Whole(0, Ask::IsConnected(4), 2, Told::Answer(false)),
            ],
        ),
    ],
    between: NOTHING_BETWEEN,
    counts: &[],
};

const CLIENT_PUSHES_REQUESTS_OUT: Stop<'static> = Stop {
    name: "client_pushes_requests_out",
    on: On::Four(OVERFLOW),
    before: &[
        Act::Whole(0, Ask::CopyRequest(0, 1), 26, Told::Handle(4)),
        Act::Whole(0, Ask::Release(4), 2, Told::Done),
    ],
    node: 0,
    ask: Ask::CopyRequest(0, 2),
    steps: 30,
    after: &[
        (
            0,
            &[
                Act::Whole(1, Ask::Receive(1), 11, Told::Handle(4)),
                Act::Whole(1, Ask::Read(4), 1, Told::Word(1)),
                Act::Whole(2, Ask::Receive(2), 11, Told::Handle(4)),
                Act::Whole(2, Ask::Read(4), 1, Told::Word(1)),
            ],
        ),
        (
            22,
            &[
                // the first server has both
                Act::Whole(1, Ask::Receive(1), 11, Told::Handle(4)),
                Act::Whole(1, Ask::Read(4), 1, Told::Word(1)),
                Act::Whole(1, Ask::Release(4), 5, Told::Done),
                Act::Whole(1, Ask::Receive(1), 11, Told::Handle(5)),
                Act::Whole(1, Ask::Read(5), 1, Told::Word(2)),
                Act::Whole(2, Ask::Receive(2), 11, Told::Handle(4)),
                Act::Whole(2, Ask::Read(4), 1, Told::Word(1)),
            ],
        ),
        (
            23,
            &[
                Act::Whole(1, Ask::Receive(1), 11, Told::Handle(4)),
                Act::Whole(1, Ask::Read(4), 1, Told::Word(2)),
                Act::Whole(2, Ask::Receive(2), 11, Told::Handle(4)),
                Act::Whole(2, Ask::Read(4), 1, Told::Word(1)),
            ],
        ),
        (
            28,
            &[
                Act::Whole(1, Ask::Receive(1), 11, Told::Handle(4)),
                Act::Whole(1, Ask::Read(4), 1, Told::Word(2)),
                Act::Whole(2, Ask::Receive(2), 11, Told::Handle(4)),
                Act::Whole(2, Ask::Read(4), 1, Told::Word(1)),
                Act::Whole(2, Ask::Release(4), 5, Told::Done),
                Act::Whole(2, Ask::Receive(2), 11, Told::Handle(5)),
                Act::Whole(2, Ask::Read(5), 1, Told::Word(2)),
            ],
        ),
        (
            29,
            &[
                Act::Whole(1, Ask::Receive(1), 11, Told::Handle(4)),
                Act::Whole(1, Ask::Read(4), 1, Told::Word(2)),
                Act::Whole(2, Ask::Receive(2), 11, Told::Handle(4)),
                Act::Whole(2, Ask::Read(4), 1, Told::Word(2)),
            ],
        ),
    ],
    between: NOTHING_BETWEEN,
    counts: &[],
};

#[test]
fn one_of_three_stops_at_each_place(rt: HostRuntime) -> Result<(), Fail> {
    const STOPS: &[Stop<'static>] = &[
        CLIENT_STOPS_IN_ITS_COPY,
        CLIENT_STOPS_AS_IT_GIVES_ITS_REQUEST_UP,
        CLIENT_STOPS_AS_IT_HINTS,
        SERVER_STOPS_AS_IT_RECEIVES,
        SERVER_STOPS_IN_ITS_COPY,
        SERVER_STOPS_AS_IT_GIVES_A_REQUEST_BACK,
        CLIENT_PUSHES_REQUESTS_OUT,
    ];
    stop_all(&rt, STOPS)
}
