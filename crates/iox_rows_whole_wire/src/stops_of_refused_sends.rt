//! A node stops in a send or a copy that is refused: its peer is full, it has as many as it may, or
//! nobody waits for its response. The other one continues.
use super::on::On;
use super::play::{Act, Ask};
use super::settings::NO_OVERFLOW;
use super::stops::{NOTHING_BETWEEN, Stop, stop_all};
use super::told::Told;
use std::test::Fail;

/// A request fills the queue of the server, and is given up.
const SERVER_IS_FULL: [Act; 2] = [
    Act::Whole(0, Ask::CopyRequest(0, 7), 19, Told::Handle(2)),
    Act::Whole(0, Ask::Release(2), 1, Told::Done),
];

/// A further one is on loan.
const SERVER_IS_FULL_FOR_A_LOAN: [Act; 4] = [
    Act::Whole(0, Ask::CopyRequest(0, 7), 19, Told::Handle(2)),
    Act::Whole(0, Ask::Release(2), 1, Told::Done),
    Act::Whole(0, Ask::Loan(0), 9, Told::Handle(3)),
    Act::Whole(0, Ask::WriteRequest(3, 5), 1, Told::Done),
];

/// The server receives only the first one.
const FIRST_CAME: [Act; 7] = [
    Act::Lacks(0, 1, 0, 1),
    Act::Whole(1, Ask::Receive(1), 11, Told::Handle(2)),
    Act::Whole(1, Ask::Read(2), 1, Told::Word(7)),
    Act::Whole(1, Ask::IsConnected(2), 1, Told::Answer(false)),
    Act::Whole(1, Ask::Release(2), 5, Told::Done),
    Act::Whole(1, Ask::Receive(1), 2, Told::Nothing),
    Act::Lacks(0, 1, 0, 1),
];

/// A request is pending.
const PENDING: [Act; 1] = [Act::Whole(0, Ask::CopyRequest(0, 7), 19, Told::Handle(2))];

/// The server receives only that one, and responds.
const PENDING_CAME: [Act; 6] = [
    Act::Lacks(0, 1, 0, 1),
    Act::Whole(1, Ask::Receive(1), 11, Told::Handle(2)),
    Act::Whole(1, Ask::Read(2), 1, Told::Word(7)),
    Act::Whole(1, Ask::CopyResponse(2, 9), 24, Told::Done),
    Act::Whole(1, Ask::Release(2), 6, Told::Done),
    Act::Whole(1, Ask::Receive(1), 2, Told::Nothing),
];

/// A response fills the queue of the client.
const CLIENT_IS_FULL: [Act; 3] = [
    Act::Whole(0, Ask::CopyRequest(0, 7), 19, Told::Handle(2)),
    Act::Whole(1, Ask::Receive(1), 11, Told::Handle(2)),
    Act::Whole(1, Ask::CopyResponse(2, 9), 24, Told::Done),
];

/// A further one is on loan.
const CLIENT_IS_FULL_FOR_A_LOAN: [Act; 5] = [
    Act::Whole(0, Ask::CopyRequest(0, 7), 19, Told::Handle(2)),
    Act::Whole(1, Ask::Receive(1), 11, Told::Handle(2)),
    Act::Whole(1, Ask::CopyResponse(2, 9), 24, Told::Done),
    Act::Whole(1, Ask::Loan(2), 14, Told::Handle(3)),
    Act::Whole(1, Ask::WriteResponse(3, 10), 1, Told::Done),
];

/// The client receives only the first one, and sends another request.
const RESPONSE_CAME: [Act; 7] = [
    Act::Lacks(1, 0, 0, 1),
    Act::Whole(0, Ask::Receive(2), 10, Told::Handle(3)),
    Act::Whole(0, Ask::Read(3), 1, Told::Word(9)),
    Act::Whole(0, Ask::Release(3), 4, Told::Done),
    Act::Whole(0, Ask::Receive(2), 2, Told::Nothing),
    Act::Whole(0, Ask::Release(2), 1, Told::Done),
    Act::Whole(0, Ask::CopyRequest(0, 6), 19, Told::Handle(4)),
];

/// A request is received and given up.
const NOBODY_WAITS: [Act; 3] = [
    Act::Whole(0, Ask::CopyRequest(0, 7), 19, Told::Handle(2)),
    Act::Whole(1, Ask::Receive(1), 11, Told::Handle(2)),
    Act::Whole(0, Ask::Release(2), 1, Told::Done),
];

/// A response is on loan for it.
const NOBODY_WAITS_FOR_A_LOAN: [Act; 5] = [
    Act::Whole(0, Ask::CopyRequest(0, 7), 19, Told::Handle(2)),
    Act::Whole(1, Ask::Receive(1), 11, Told::Handle(2)),
    Act::Whole(1, Ask::Loan(2), 14, Told::Handle(3)),
    Act::Whole(1, Ask::WriteResponse(3, 10), 1, Told::Done),
    Act::Whole(0, Ask::Release(2), 1, Told::Done),
];

/// The client's next request has no response.
const NONE_CAME: [Act; 4] = [
    Act::Lacks(1, 0, 0, 0),
    Act::Whole(0, Ask::CopyRequest(0, 6), 19, Told::Handle(3)),
    Act::Whole(0, Ask::HasResponse(3), 2, Told::Answer(false)),
    Act::Whole(0, Ask::Receive(3), 2, Told::Nothing),
];

/// The second server has a request that waits; the first one took it.
const SECOND_IS_FULL: [Act; 5] = [
    Act::Whole(0, Ask::CopyRequest(0, 7), 30, Told::Handle(4)),
    Act::Whole(1, Ask::Receive(1), 11, Told::Handle(4)),
    Act::Whole(0, Ask::Release(4), 2, Told::Done),
    Act::Whole(0, Ask::Loan(0), 11, Told::Handle(5)),
    Act::Whole(0, Ask::WriteRequest(5, 6), 1, Told::Done),
];

/// The servers have only that one.
const BOTH_HAVE_THE_FIRST: [Act; 6] = [
    Act::Lacks(0, 1, 0, 1),
    Act::Lacks(0, 2, 0, 1),
    Act::Whole(1, Ask::Receive(1), 4, Told::Nothing),
    Act::Whole(2, Ask::Receive(2), 11, Told::Handle(4)),
    Act::Whole(2, Ask::Read(4), 1, Told::Word(7)),
    Act::Whole(2, Ask::Receive(2), 4, Told::Nothing),
];

const CLIENT_SENDS_TO_A_FULL_SERVER: Stop<'static> = Stop {
    name: "client_sends_to_a_full_server",
    on: On::Ones(NO_OVERFLOW),
    before: &SERVER_IS_FULL_FOR_A_LOAN,
    node: 0,
    ask: Ask::Send(3),
    steps: 4,
    after: &[(0, &FIRST_CAME)],
    between: NOTHING_BETWEEN,
    counts: &[(0, &[Act::Keeps(0, 2)]), (4, &[Act::Keeps(0, 1)])],
};

const CLIENT_COPIES_TO_A_FULL_SERVER: Stop<'static> = Stop {
    name: "client_copies_to_a_full_server",
    on: On::Ones(NO_OVERFLOW),
    before: &SERVER_IS_FULL,
    node: 0,
    ask: Ask::CopyRequest(0, 5),
    steps: 14,
    after: &[(0, &FIRST_CAME)],
    between: NOTHING_BETWEEN,
    counts: &[
        (0, &[Act::Keeps(0, 1)]),
        (2, &[Act::Keeps(0, 2)]),
        (14, &[Act::Keeps(0, 1)]),
    ],
};

const CLIENT_COPIES_PAST_ITS_LIMIT: Stop<'static> = Stop {
    name: "client_copies_past_its_limit",
    on: On::Ones(NO_OVERFLOW),
    before: &PENDING,
    node: 0,
    ask: Ask::CopyRequest(0, 5),
    steps: 10,
    after: &[(0, &PENDING_CAME)],
    between: NOTHING_BETWEEN,
    counts: &[
        (0, &[Act::Keeps(0, 1)]),
        (2, &[Act::Keeps(0, 2)]),
        (10, &[Act::Keeps(0, 1)]),
    ],
};

const SERVER_SENDS_TO_A_FULL_CLIENT: Stop<'static> = Stop {
    name: "server_sends_to_a_full_client",
    on: On::Ones(NO_OVERFLOW),
    before: &CLIENT_IS_FULL_FOR_A_LOAN,
    node: 1,
    ask: Ask::Send(3),
    steps: 5,
    after: &[(0, &RESPONSE_CAME)],
    between: NOTHING_BETWEEN,
    counts: &[(0, &[Act::Keeps(1, 2)]), (5, &[Act::Keeps(1, 1)])],
};

const SERVER_COPIES_TO_A_FULL_CLIENT: Stop<'static> = Stop {
    name: "server_copies_to_a_full_client",
    on: On::Ones(NO_OVERFLOW),
    before: &CLIENT_IS_FULL,
    node: 1,
    ask: Ask::CopyResponse(2, 10),
    steps: 20,
    after: &[(0, &RESPONSE_CAME)],
    between: NOTHING_BETWEEN,
    counts: &[
        (0, &[Act::Keeps(1, 1)]),
        (8, &[Act::Keeps(1, 2)]),
        (20, &[Act::Keeps(1, 1)]),
    ],
};

const SERVER_SENDS_WHERE_NOBODY_WAITS: Stop<'static> = Stop {
    name: "server_sends_where_nobody_waits",
    on: On::Ones(NO_OVERFLOW),
    before: &NOBODY_WAITS_FOR_A_LOAN,
    node: 1,
    ask: Ask::Send(3),
    steps: 1,
    after: &[(0, &NONE_CAME)],
    between: NOTHING_BETWEEN,
    counts: &[(0, &[Act::Keeps(1, 1)]), (1, &[Act::Keeps(1, 0)])],
};

const SERVER_COPIES_WHERE_NOBODY_WAITS: Stop<'static> = Stop {
    name: "server_copies_where_nobody_waits",
    on: On::Ones(NO_OVERFLOW),
    before: &NOBODY_WAITS,
    node: 1,
    ask: Ask::CopyResponse(2, 10),
    steps: 16,
    after: &[(0, &NONE_CAME)],
    between: NOTHING_BETWEEN,
    counts: &[
        (0, &[Act::Keeps(1, 0)]),
        (8, &[Act::Keeps(1, 1)]),
        (16, &[Act::Keeps(1, 0)]),
    ],
};

const CLIENT_SENDS_WHERE_THE_SECOND_SERVER_IS_FULL: Stop<'static> = Stop {
    name: "client_sends_where_the_second_server_is_full",
    on: On::Four(NO_OVERFLOW),
    before: &SECOND_IS_FULL,
    node: 0,
    ask: Ask::Send(5),
    steps: 8,
    after: &[(0, &BOTH_HAVE_THE_FIRST)],
    between: NOTHING_BETWEEN,
    counts: &[(0, &[Act::Keeps(0, 2)]), (8, &[Act::Keeps(0, 1)])],
};

#[test]
fn node_stops_in_a_send_that_is_refused(rt: HostRuntime) -> Result<(), Fail> {
    const STOPS: &[Stop<'static>] = &[
        CLIENT_SENDS_TO_A_FULL_SERVER,
        CLIENT_COPIES_TO_A_FULL_SERVER,
        CLIENT_COPIES_PAST_ITS_LIMIT,
        SERVER_SENDS_TO_A_FULL_CLIENT,
        SERVER_COPIES_TO_A_FULL_CLIENT,
        SERVER_SENDS_WHERE_NOBODY_WAITS,
        SERVER_COPIES_WHERE_NOBODY_WAITS,
        CLIENT_SENDS_WHERE_THE_SECOND_SERVER_IS_FULL,
    ];
    stop_all(&rt, STOPS)
}
