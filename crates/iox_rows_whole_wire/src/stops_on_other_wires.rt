//! Nodes stop where queues overflow, and where requests are dropped once they are given up.
use super::on::On;
use super::play::{Act, Ask};
use super::settings::{NO_FIRE_AND_FORGET, OVERFLOW};
use super::stops::{NOTHING_BETWEEN, Stop, stop_all};
use super::told::Told;
use std::test::Fail;

const CLIENT_PUSHES_A_REQUEST_OUT: Stop<'static> = Stop {
    name: "client_pushes_a_request_out",
    on: On::Ones(OVERFLOW),
    before: &[
        Act::Whole(0, Ask::CopyRequest(0, 1), 17, Told::Handle(2)),
        Act::Whole(1, Ask::Receive(1), 11, Told::Handle(2)),
        Act::Whole(0, Ask::Release(2), 1, Told::Done),
        Act::Whole(0, Ask::CopyRequest(0, 2), 17, Told::Handle(3)),
        Act::Whole(0, Ask::Release(3), 1, Told::Done),
    ],
    node: 0,
    ask: Ask::CopyRequest(0, 3),
    steps: 19,
    after: &[
        (
            0,
            &[
                Act::Whole(1, Ask::Release(2), 5, Told::Done),
                Act::Whole(1, Ask::Receive(1), 11, Told::Handle(3)),
                Act::Whole(1, Ask::Read(3), 1, Told::Word(2)),
                Act::Whole(1, Ask::Release(3), 5, Told::Done),
                Act::Whole(1, Ask::Receive(1), 2, Told::Nothing),
            ],
        ),
        (
            17,
            &[
                Act::Whole(1, Ask::Release(2), 5, Told::Done),
                Act::Whole(1, Ask::Receive(1), 11, Told::Handle(3)),
                Act::Whole(1, Ask::Read(3), 1, Told::Word(2)),
                Act::Whole(1, Ask::Release(3), 5, Told::Done),
                Act::Whole(1, Ask::Receive(1), 11, Told::Handle(4)),
                Act::Whole(1, Ask::Read(4), 1, Told::Word(3)),
                Act::Whole(1, Ask::IsConnected(4), 1, Told::Answer(true)),
                Act::Whole(1, Ask::Release(4), 6, Told::Done),
                Act::Whole(1, Ask::Receive(1), 2, Told::Nothing),
            ],
        ),
        (
            18,
            &[
                Act::Whole(1, Ask::Release(2), 5, Told::Done),
                Act::Whole(1, Ask::Receive(1), 11, Told::Handle(3)),
                Act::Whole(1, Ask::Read(3), 1, Told::Word(3)),
                Act::Whole(1, Ask::IsConnected(3), 1, Told::Answer(true)),
                Act::Whole(1, Ask::Release(3), 6, Told::Done),
                Act::Whole(1, Ask::Receive(1), 2, Told::Nothing),
            ],
        ),
    ],
    between: NOTHING_BETWEEN,
    counts: &[],
};

const SERVER_STOPS_AS_IT_RECEIVES: Stop<'static> = Stop {
    name: "server_stops_as_it_receives",
    on: On::Ones(OVERFLOW),
    before: &[Act::Whole(0, Ask::CopyRequest(0, 7), 17, Told::Handle(2))],
    node: 1,
    ask: Ask::Receive(1),
    steps: 11,
    after: &[
        (
            0,
            &[
                Act::Whole(0, Ask::IsConnected(2), 1, Told::Answer(true)),
                Act::Whole(0, Ask::Release(2), 1, Told::Done),
                Act::Whole(0, Ask::CopyRequest(0, 6), 19, Told::Handle(3)),
                Act::Whole(0, Ask::Loan(0), 9, Told::Handle(4)),
                Act::Whole(0, Ask::Loan(0), 1, Told::ExceedsMaxLoans),
                Act::Whole(0, Ask::Send(4), 1, Told::ExceedsMaxActiveRequests),
            ],
        ),
        (
            4,
            &[
                Act::Whole(0, Ask::IsConnected(2), 1, Told::Answer(true)),
                Act::Whole(0, Ask::Release(2), 1, Told::Done),
                Act::Whole(0, Ask::CopyRequest(0, 6), 17, Told::Handle(3)),
                Act::Whole(0, Ask::Loan(0), 9, Told::Handle(4)),
                Act::Whole(0, Ask::Loan(0), 1, Told::ExceedsMaxLoans),
                Act::Whole(0, Ask::Send(4), 1, Told::ExceedsMaxActiveRequests),
            ],
        ),
    ],
    between: NOTHING_BETWEEN,
    counts: &[],
};

const SERVER_PUSHES_A_RESPONSE_OUT: Stop<'static> = Stop {
    name: "server_pushes_a_response_out",
    on: On::Ones(OVERFLOW),
    before: &[
        Act::Whole(0, Ask::CopyRequest(0, 7), 17, Told::Handle(2)),
        Act::Whole(1, Ask::Receive(1), 11, Told::Handle(2)),
        Act::Whole(1, Ask::CopyResponse(2, 9), 22, Told::Done),
    ],
    node: 1,
    ask: Ask::CopyResponse(2, 10),
    steps: 24,
    after: &[
        (
            0,
            &[
                Act::Whole(0, Ask::Receive(2), 10, Told::Handle(3)),
                Act::Whole(0, Ask::Read(3), 1, Told::Word(9)),
                Act::Whole(0, Ask::Release(3), 4, Told::Done),
                Act::Whole(0, Ask::Receive(2), 2, Told::Nothing),
                Act::Whole(0, Ask::Release(2), 1, Told::Done),
                Act::Whole(0, Ask::CopyRequest(0, 6), 17, Told::Handle(4)),
            ],
        ),
        (
            22,
            &[
                Act::Whole(0, Ask::Receive(2), 10, Told::Handle(3)),
                Act::Whole(0, Ask::Read(3), 1, Told::Word(9)),
                Act::Whole(0, Ask::Receive(2), 2, Told::ExceedsMaxBorrows),
                Act::Whole(0, Ask::Release(3), 4, Told::Done),
                Act::Whole(0, Ask::Receive(2), 10, Told::Handle(4)),
                Act::Whole(0, Ask::Read(4), 1, Told::Word(10)),
                Act::Whole(0, Ask::Release(2), 1, Told::Done),
                Act::Whole(0, Ask::CopyRequest(0, 6), 17, Told::Handle(5)),
            ],
        ),
        (
            23,
            &[
                Act::Whole(0, Ask::Receive(2), 10, Told::Handle(3)),
                Act::Whole(0, Ask::Read(3), 1, Told::Word(10)),
                Act::Whole(0, Ask::Release(3), 4, Told::Done),
                Act::Whole(0, Ask::Receive(2), 2, Told::Nothing),
                Act::Whole(0, Ask::Release(2), 1, Told::Done),
                Act::Whole(0, Ask::CopyRequest(0, 6), 17, Told::Handle(4)),
            ],
        ),
    ],
    between: NOTHING_BETWEEN,
    counts: &[],
};

const SERVER_SKIPS_A_REQUEST: Stop<'static> = Stop {
    name: "server_skips_a_request",
    on: On::Ones(NO_FIRE_AND_FORGET),
    before: &[
        Act::Whole(0, Ask::CopyRequest(0, 7), 19, Told::Handle(2)),
        Act::Whole(0, Ask::Release(2), 1, Told::Done),
    ],
    node: 1,
    ask: Ask::Receive(1),
    steps: 18,
    after: &[
        (
            0,
            &[
                Act::Whole(0, Ask::CopyRequest(0, 6), 14, Told::UnableToDeliver),
                Act::Whole(0, Ask::Loan(0), 9, Told::Handle(3)),
                Act::Whole(0, Ask::Loan(0), 1, Told::ExceedsMaxLoans),
            ],
        ),
        (
            4,
            &[
                Act::Whole(0, Ask::CopyRequest(0, 6), 19, Told::Handle(3)),
                Act::Whole(0, Ask::Loan(0), 9, Told::Handle(4)),
                Act::Whole(0, Ask::Loan(0), 1, Told::ExceedsMaxLoans),
            ],
        ),
        (
            16,
            &[
                Act::Whole(0, Ask::CopyRequest(0, 6), 23, Told::Handle(3)),
                Act::Whole(0, Ask::Loan(0), 9, Told::Handle(4)),
                Act::Whole(0, Ask::Loan(0), 1, Told::ExceedsMaxLoans),
            ],
        ),
    ],
    between: NOTHING_BETWEEN,
    counts: &[],
};

const CLIENT_STOPS_IN_A_COPY_THAT_MAY_BE_DROPPED: Stop<'static> = Stop {
    name: "client_stops_in_a_copy_that_may_be_dropped",
    on: On::Ones(NO_FIRE_AND_FORGET),
    before: &[],
    node: 0,
    ask: Ask::CopyRequest(0, 5),
    steps: 19,
    after: &[
        (
            0,
            &[
                Act::Whole(1, Ask::HasRequests(1), 2, Told::Answer(false)),
                Act::Whole(1, Ask::Receive(1), 2, Told::Nothing),
            ],
        ),
        (
            19,
            &[
                Act::Whole(1, Ask::HasRequests(1), 2, Told::Answer(true)),
                Act::Whole(1, Ask::Receive(1), 12, Told::Handle(2)),
                Act::Whole(1, Ask::Read(2), 1, Told::Word(5)),
                Act::Whole(1, Ask::IsConnected(2), 1, Told::Answer(true)),
                Act::Whole(1, Ask::Release(2), 6, Told::Done),
            ],
        ),
    ],
    between: NOTHING_BETWEEN,
    counts: &[],
};

#[test]
fn node_stops_on_other_wires(rt: HostRuntime) -> Result<(), Fail> {
    const STOPS: &[Stop<'static>] = &[
        CLIENT_PUSHES_A_REQUEST_OUT,
        SERVER_STOPS_AS_IT_RECEIVES,
        SERVER_PUSHES_A_RESPONSE_OUT,
        SERVER_SKIPS_A_REQUEST,
        CLIENT_STOPS_IN_A_COPY_THAT_MAY_BE_DROPPED,
    ];
    stop_all(&rt, STOPS)
}
