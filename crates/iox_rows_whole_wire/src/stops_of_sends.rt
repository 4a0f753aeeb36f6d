//! A node stops in the send of a loan where queues overflow, and where its pool is dry.
use super::on::On;
use super::play::{Act, Ask};
use super::settings::OVERFLOW;
use super::stops::{NOTHING_BETWEEN, Stop, stop_all};
use super::told::Told;
use iox_model::kind::Role;
use std::test::Fail;

/// The loan of a request was published: both requests wait.
const BOTH_REQUESTS_COME: [Act; 9] = [
    Act::Whole(1, Ask::Release(2), 5, Told::Done),
    Act::Whole(1, Ask::Receive(1), 11, Told::Handle(3)),
    Act::Whole(1, Ask::Read(3), 1, Told::Word(2)),
    Act::Whole(1, Ask::Release(3), 5, Told::Done),
    Act::Whole(1, Ask::Receive(1), 11, Told::Handle(4)),
    Act::Whole(1, Ask::Read(4), 1, Told::Word(3)),
    Act::Whole(1, Ask::IsConnected(4), 1, Told::Answer(true)),
    Act::Whole(1, Ask::Release(4), 6, Told::Done),
    Act::Whole(1, Ask::Receive(1), 2, Told::Nothing),
];

const CLIENT_PUSHES_A_REQUEST_OUT_BY_ITS_LOAN: Stop<'static> = Stop {
    name: "client_pushes_a_request_out_by_its_loan",
    on: On::Ones(OVERFLOW),
    before: &[
        Act::Whole(0, Ask::CopyRequest(0, 1), 17, Told::Handle(2)),
        Act::Whole(1, Ask::Receive(1), 11, Told::Handle(2)),
        Act::Whole(0, Ask::Release(2), 1, Told::Done),
        Act::Whole(0, Ask::CopyRequest(0, 2), 17, Told::Handle(3)),
        Act::Whole(0, Ask::Release(3), 1, Told::Done),
        Act::Whole(0, Ask::Loan(0), 9, Told::Handle(4)),
        Act::Whole(0, Ask::WriteRequest(4, 3), 1, Told::Done),
    ],
    node: 0,
    ask: Ask::Send(4),
    steps: 9,
    after: &[
        (
            0,
            &[
                Act::Whole(1, Ask::Release(2), 5, Told::Done),
                Act::Whole(1, Ask::Receive(1), 11, Told::Handle(3)),
                Act::Whole(1, Ask::Read(3), 1, Told::Word(2)),
                Act::Whole(1, Ask::Release(3), 5, Told::Done),
                Act::Whole(1, Ask::Receive(1), 2, Told::Nothing),
            ],
        ),
        (7, &BOTH_REQUESTS_COME),
        (
            8,
            &[
                Act::Whole(1, Ask::Release(2), 5, Told::Done),
                Act::Whole(1, Ask::Receive(1), 11, Told::Handle(3)),
                Act::Whole(1, Ask::Read(3), 1, Told::Word(3)),
                Act::Whole(1, Ask::IsConnected(3), 1, Told::Answer(true)),
                Act::Whole(1, Ask::Release(3), 6, Told::Done),
                Act::Whole(1, Ask::Receive(1), 2, Told::Nothing),
            ],
        ),
    ],
    between: NOTHING_BETWEEN,
    counts: &[],
};

/// The loan of a response was published: both responses wait.
const BOTH_RESPONSES_COME: [Act; 8] = [
    Act::Whole(0, Ask::Receive(2), 10, Told::Handle(3)),
    Act::Whole(0, Ask::Read(3), 1, Told::Word(9)),
    Act::Whole(0, Ask::Receive(2), 2, Told::ExceedsMaxBorrows),
    Act::Whole(0, Ask::Release(3), 4, Told::Done),
    Act::Whole(0, Ask::Receive(2), 10, Told::Handle(4)),
    Act::Whole(0, Ask::Read(4), 1, Told::Word(10)),
    Act::Whole(0, Ask::Release(2), 1, Told::Done),
    Act::Whole(0, Ask::CopyRequest(0, 6), 17, Told::Handle(5)),
];

const SERVER_PUSHES_A_RESPONSE_OUT_BY_ITS_LOAN: Stop<'static> = Stop {
    name: "server_pushes_a_response_out_by_its_loan",
    on: On::Ones(OVERFLOW),
    before: &[
        Act::Whole(0, Ask::CopyRequest(0, 7), 17, Told::Handle(2)),
        Act::Whole(1, Ask::Receive(1), 11, Told::Handle(2)),
        Act::Whole(1, Ask::CopyResponse(2, 9), 22, Told::Done),
        Act::Whole(1, Ask::Loan(2), 14, Told::Handle(3)),
        Act::Whole(1, Ask::WriteResponse(3, 10), 1, Told::Done),
    ],
    node: 1,
    ask: Ask::Send(3),
    steps: 9,
    after: &[
        (
            0,
            &[
                Act::Whole(0, Ask::Receive(2), 10, Told::Handle(3)),
                Act::Whole(0, Ask::Read(3), 1, Told::Word(9)),
                Act::Whole(0, Ask::Release(3), 4, Told::Done),
                Act::Whole(0, Ask::Receive(2), 2, Told::Nothing),
                Act::Whole(0, Ask::Release(2), 1, Told::Done),
                Act::Whole(0, Ask::CopyRequest(0, 6), 17, Told::Handle(4)),
            ],
        ),
        (7, &BOTH_RESPONSES_COME),
        (
            8,
            &[
                Act::Whole(0, Ask::Receive(2), 10, Told::Handle(3)),
                Act::Whole(0, Ask::Read(3), 1, Told::Word(10)),
                Act::Whole(0, Ask::Release(3), 4, Told::Done),
                Act::Whole(0, Ask::Receive(2), 2, Told::Nothing),
                Act::Whole(0, Ask::Release(2), 1, Told::Done),
                Act::Whole(0, Ask::CopyRequest(0, 6), 17, Told::Handle(4)),
            ],
        ),
    ],
    between: NOTHING_BETWEEN,
    counts: &[],
};

/// The client has no free slot: the server has the one message, and the other waits for it.
const DRY: [Act; 7] = [
    Act::Whole(0, Ask::Loan(0), 10, Told::Handle(2)),
    Act::Whole(0, Ask::WriteTwo(2, Role::Client, [8, 9]), 2, Told::Done),
    Act::Whole(0, Ask::Send(2), 9, Told::Sent(1)),
    Act::Whole(1, Ask::Receive(1), 11, Told::Handle(2)),
    Act::Whole(0, Ask::Release(2), 1, Told::Done),
    Act::Whole(
        0,
        Ask::CopyTwo(0, Role::Client, [1, 2]),
        21,
        Told::Handle(3),
    ),
    Act::Whole(0, Ask::Loan(0), 2, Told::OutOfMemory),
];

/// The server reads both requests.
const SERVER_READS_BOTH: [Act; 5] = [
    Act::Keeps(0, 2),
    Act::Whole(1, Ask::Read(2), 3, Told::Three(5, 8, 9)),
    Act::Whole(1, Ask::Release(2), 5, Told::Done),
    Act::Whole(1, Ask::Receive(1), 11, Told::Handle(3)),
    Act::Whole(1, Ask::Read(3), 3, Told::Three(5, 1, 2)),
];

const CLIENT_LOANS_OF_A_DRY_POOL: Stop<'static> = Stop {
    name: "client_loans_of_a_dry_pool",
    on: On::Wide,
    before: &DRY,
    node: 0,
    ask: Ask::Loan(0),
    steps: 2,
    after: &[(0, &SERVER_READS_BOTH)],
    between: NOTHING_BETWEEN,
    counts: &[],
};

const CLIENT_COPIES_INTO_A_DRY_POOL: Stop<'static> = Stop {
    name: "client_copies_into_a_dry_pool",
    on: On::Wide,
    before: &DRY,
    node: 0,
    ask: Ask::CopyTwo(0, Role::Client, [6, 7]),
    steps: 2,
    after: &[(0, &SERVER_READS_BOTH)],
    between: NOTHING_BETWEEN,
    counts: &[],
};

/// The server has no free slot: the client has the one message, and the other waits for it.
const SERVER_IS_DRY: [Act; 6] = [
    Act::Whole(
        0,
        Ask::CopyTwo(0, Role::Client, [1, 2]),
        21,
        Told::Handle(2),
    ),
    Act::Whole(1, Ask::Receive(1), 11, Told::Handle(2)),
    Act::Whole(1, Ask::CopyTwo(2, Role::Server, [3, 4]), 23, Told::Done),
    Act::Whole(0, Ask::Receive(2), 10, Told::Handle(3)),
    Act::Whole(1, Ask::CopyTwo(2, Role::Server, [7, 8]), 23, Told::Done),
    Act::Whole(1, Ask::Loan(2), 4, Told::OutOfMemory),
];

/// The client reads both responses.
const CLIENT_READS_BOTH: [Act; 5] = [
    Act::Keeps(1, 2),
    Act::Whole(0, Ask::Read(3), 4, Told::Four(6, 7, 3, 4)),
    Act::Whole(0, Ask::Release(3), 4, Told::Done),
    Act::Whole(0, Ask::Receive(2), 10, Told::Handle(4)),
    Act::Whole(0, Ask::Read(4), 4, Told::Four(6, 7, 7, 8)),
];

const SERVER_LOANS_OF_A_DRY_POOL: Stop<'static> = Stop {
    name: "server_loans_of_a_dry_pool",
    on: On::Wide,
    before: &SERVER_IS_DRY,
    node: 1,
    ask: Ask::Loan(2),
    steps: 4,
    after: &[(0, &CLIENT_READS_BOTH)],
    between: NOTHING_BETWEEN,
    counts: &[],
};

const SERVER_COPIES_INTO_A_DRY_POOL: Stop<'static> = Stop {
    name: "server_copies_into_a_dry_pool",
    on: On::Wide,
    before: &SERVER_IS_DRY,
    node: 1,
    ask: Ask::CopyTwo(2, Role::Server, [9, 9]),
    steps: 4,
    after: &[(0, &CLIENT_READS_BOTH)],
    between: NOTHING_BETWEEN,
    counts: &[],
};

#[test]
fn node_stops_in_sends(rt: HostRuntime) -> Result<(), Fail> {
    const STOPS: &[Stop<'static>] = &[
        CLIENT_PUSHES_A_REQUEST_OUT_BY_ITS_LOAN,
        SERVER_PUSHES_A_RESPONSE_OUT_BY_ITS_LOAN,
        CLIENT_LOANS_OF_A_DRY_POOL,
        CLIENT_COPIES_INTO_A_DRY_POOL,
        SERVER_LOANS_OF_A_DRY_POOL,
        SERVER_COPIES_INTO_A_DRY_POOL,
    ];
    stop_all(&rt, STOPS)
}
