//! A node stops among the words of a message that it writes, copies or reads, and the other one
//! continues.
use super::on::On;
use super::play::{Act, Ask};
use super::stops::{NOTHING_BETWEEN, Stop, stop_all};
use super::told::Told;
use iox_model::kind::Role;
use std::test::Fail;

/// A request is on loan, with words in it.
const LENT: [Act; 2] = [
    Act::Whole(0, Ask::Loan(0), 10, Told::Handle(2)),
    Act::Whole(0, Ask::WriteTwo(2, Role::Client, [8, 9]), 2, Told::Done),
];

/// The request is received.
const RECEIVED: [Act; 4] = [
    Act::Whole(0, Ask::Loan(0), 10, Told::Handle(2)),
    Act::Whole(0, Ask::WriteTwo(2, Role::Client, [8, 9]), 2, Told::Done),
    Act::Whole(0, Ask::Send(2), 9, Told::Sent(1)),
    Act::Whole(1, Ask::Receive(1), 11, Told::Handle(2)),
];

/// A response is on loan, with words in it.
const RESPONSE_IS_LENT: [Act; 6] = [
    Act::Whole(0, Ask::Loan(0), 10, Told::Handle(2)),
    Act::Whole(0, Ask::WriteTwo(2, Role::Client, [8, 9]), 2, Told::Done),
    Act::Whole(0, Ask::Send(2), 9, Told::Sent(1)),
    Act::Whole(1, Ask::Receive(1), 11, Told::Handle(2)),
    Act::Whole(1, Ask::Loan(2), 12, Told::Handle(3)),
    Act::Whole(1, Ask::WriteTwo(3, Role::Server, [4, 5]), 2, Told::Done),
];

/// The client has a response.
const ANSWERED: [Act; 6] = [
    Act::Whole(0, Ask::Loan(0), 10, Told::Handle(2)),
    Act::Whole(0, Ask::WriteTwo(2, Role::Client, [8, 9]), 2, Told::Done),
    Act::Whole(0, Ask::Send(2), 9, Told::Sent(1)),
    Act::Whole(1, Ask::Receive(1), 11, Told::Handle(2)),
    Act::Whole(1, Ask::CopyTwo(2, Role::Server, [4, 5]), 23, Told::Done),
    Act::Whole(0, Ask::Receive(2), 10, Told::Handle(3)),
];

/// No request came; the client keeps its loan.
const NO_REQUEST: [Act; 3] = [
    Act::Keeps(0, 1),
    Act::Whole(1, Ask::HasRequests(1), 2, Told::Answer(false)),
    Act::Whole(1, Ask::Receive(1), 2, Told::Nothing),
];

/// The server reads all words of its request, and responds.
const SERVER_GOES_ON: [Act; 3] = [
    Act::Whole(1, Ask::Read(2), 3, Told::Three(5, 8, 9)),
    Act::Whole(1, Ask::CopyTwo(2, Role::Server, [6, 7]), 23, Told::Done),
    Act::Whole(1, Ask::Release(2), 6, Told::Done),
];

/// No response came; the server keeps its loan. The client sends a request of other words.
const NO_RESPONSE: [Act; 5] = [
    Act::Keeps(1, 1),
    Act::Whole(0, Ask::HasResponse(2), 2, Told::Answer(false)),
    Act::Whole(0, Ask::Receive(2), 2, Told::Nothing),
    Act::Whole(0, Ask::Release(2), 1, Told::Done),
    Act::Whole(
        0,
        Ask::CopyTwo(0, Role::Client, [1, 2]),
        21,
        Told::Handle(3),
    ),
];

const CLIENT_WRITES_OVER_ITS_WORDS: Stop<'static> = Stop {
    name: "client_writes_over_its_words",
    on: On::Wide,
    before: &LENT,
    node: 0,
    ask: Ask::WriteTwo(2, Role::Client, [6, 7]),
    steps: 2,
    after: &[(0, &NO_REQUEST)],
    between: NOTHING_BETWEEN,
    counts: &[],
};

const CLIENT_READS_ITS_LOAN: Stop<'static> = Stop {
    name: "client_reads_its_loan",
    on: On::Wide,
    before: &LENT,
    node: 0,
    ask: Ask::Read(2),
    steps: 3,
    after: &[(0, &NO_REQUEST)],
    between: NOTHING_BETWEEN,
    counts: &[],
};

const CLIENT_COPIES_WORDS: Stop<'static> = Stop {
    name: "client_copies_words",
    on: On::Wide,
    before: &[],
    node: 0,
    ask: Ask::CopyTwo(0, Role::Client, [6, 7]),
    steps: 21,
    after: &[
        (
            0,
            &[
                Act::Keeps(0, 0),
                Act::Whole(1, Ask::Receive(1), 2, Told::Nothing),
            ],
        ),
        (2, &NO_REQUEST),
        (
            21,
            &[
                Act::Keeps(0, 1),
                Act::Whole(1, Ask::Receive(1), 11, Told::Handle(2)),
                Act::Whole(1, Ask::Read(2), 3, Told::Three(5, 6, 7)),
                Act::Whole(1, Ask::Release(2), 6, Told::Done),
            ],
        ),
    ],
    between: NOTHING_BETWEEN,
    counts: &[],
};

const SERVER_READS_ITS_REQUEST: Stop<'static> = Stop {
    name: "server_reads_its_request",
    on: On::Wide,
    before: &RECEIVED,
    node: 1,
    ask: Ask::Read(2),
    steps: 3,
    after: &[(
        0,
        &[
            Act::Lacks(0, 1, 0, 1),
            Act::Keeps(1, 0),
            Act::Whole(0, Ask::Receive(2), 2, Told::Nothing),
            Act::Whole(0, Ask::Release(2), 1, Told::Done),
            // what the dead one reads stays as it is
            Act::Whole(
                0,
                Ask::CopyTwo(0, Role::Client, [1, 2]),
                21,
                Told::Handle(3),
            ),
            Act::Whole(0, Ask::Loan(0), 2, Told::OutOfMemory),
        ],
    )],
    between: NOTHING_BETWEEN,
    counts: &[],
};

const SERVER_WRITES_OVER_ITS_WORDS: Stop<'static> = Stop {
    name: "server_writes_over_its_words",
    on: On::Wide,
    before: &RESPONSE_IS_LENT,
    node: 1,
    ask: Ask::WriteTwo(3, Role::Server, [6, 7]),
    steps: 2,
    after: &[(0, &NO_RESPONSE)],
    between: NOTHING_BETWEEN,
    counts: &[],
};

const SERVER_COPIES_WORDS: Stop<'static> = Stop {
    name: "server_copies_words",
    on: On::Wide,
    before: &RECEIVED,
    node: 1,
    ask: Ask::CopyTwo(2, Role::Server, [6, 7]),
    steps: 23,
    after: &[
        (
            0,
            &[
                Act::Keeps(1, 0),
                Act::Whole(0, Ask::Receive(2), 2, Told::Nothing),
            ],
        ),
        (4, &NO_RESPONSE),
        (
            23,
            &[
                Act::Keeps(1, 1),
                Act::Whole(0, Ask::Receive(2), 10, Told::Handle(3)),
                Act::Whole(0, Ask::Read(3), 4, Told::Four(6, 7, 6, 7)),
            ],
        ),
    ],
    between: NOTHING_BETWEEN,
    counts: &[],
};

const CLIENT_READS_ITS_RESPONSE: Stop<'static> = Stop {
    name: "client_reads_its_response",
    on: On::Wide,
    before: &ANSWERED,
    node: 0,
    ask: Ask::Read(3),
    steps: 4,
    after: &[(0, &SERVER_GOES_ON)],
    between: NOTHING_BETWEEN,
    counts: &[],
};

#[test]
fn node_stops_among_words(rt: HostRuntime) -> Result<(), Fail> {
    const STOPS: &[Stop<'static>] = &[
        CLIENT_WRITES_OVER_ITS_WORDS,
        CLIENT_READS_ITS_LOAN,
        CLIENT_COPIES_WORDS,
        SERVER_READS_ITS_REQUEST,
        SERVER_WRITES_OVER_ITS_WORDS,
        SERVER_COPIES_WORDS,
        CLIENT_READS_ITS_RESPONSE,
    ];
    stop_all(&rt, STOPS)
}
