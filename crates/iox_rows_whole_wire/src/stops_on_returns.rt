//! Nodes stop as they get messages back, as they look at their limit, and as a client gives a
//! response back that came to an earlier request.
use super::on::On;
use super::play::{Act, Ask};
use super::settings::NO_OVERFLOW;
use super::stops::{NOTHING_BETWEEN, Stop, stop_all};
use super::told::Told;
use std::test::Fail;

/// A response is received and given back.
const RESPONSE_IS_BACK: [Act; 6] = [
    Act::Whole(0, Ask::CopyRequest(0, 7), 19, Told::Handle(2)),
    Act::Whole(1, Ask::Receive(1), 11, Told::Handle(2)),
    Act::Whole(1, Ask::CopyResponse(2, 9), 24, Told::Done),
    Act::Whole(0, Ask::Receive(2), 10, Told::Handle(3)),
    Act::Whole(0, Ask::Release(3), 4, Told::Done),
    Act::Lacks(1, 0, 0, 1),
];

/// A request is given back while another one is on loan.
const REQUEST_IS_BACK: [Act; 7] = [
    Act::Whole(0, Ask::CopyRequest(0, 7), 19, Told::Handle(2)),
    Act::Whole(1, Ask::Receive(1), 11, Told::Handle(2)),
    Act::Whole(0, Ask::Release(2), 1, Told::Done),
    Act::Whole(0, Ask::Loan(0), 9, Told::Handle(3)),
    Act::Whole(0, Ask::WriteRequest(3, 5), 1, Told::Done),
    Act::Whole(1, Ask::Release(2), 5, Told::Done),
    Act::Lacks(0, 1, 0, 1),
];

/// A request is given back, with nothing on loan.
const REQUEST_IS_BACK_ALONE: [Act; 6] = [
    Act::Whole(0, Ask::CopyRequest(0, 7), 19, Told::Handle(2)),
    Act::Whole(1, Ask::Receive(1), 11, Told::Handle(2)),
    Act::Whole(0, Ask::Release(2), 1, Told::Done),
    Act::Whole(1, Ask::Release(2), 5, Told::Done),
    Act::Lacks(0, 1, 0, 1),
    Act::Keeps(0, 1),
];

/// The client has a response, and another one waits.
const RESPONSE_WAITS: [Act; 5] = [
    Act::Whole(0, Ask::CopyRequest(0, 7), 19, Told::Handle(2)),
    Act::Whole(1, Ask::Receive(1), 11, Told::Handle(2)),
    Act::Whole(1, Ask::CopyResponse(2, 9), 24, Told::Done),
    Act::Whole(0, Ask::Receive(2), 10, Told::Handle(3)),
    Act::Whole(1, Ask::CopyResponse(2, 10), 24, Told::Done),
];

/// The server has a request, and another one waits.
const REQUEST_WAITS: [Act; 4] = [
    Act::Whole(0, Ask::CopyRequest(0, 7), 19, Told::Handle(2)),
    Act::Whole(1, Ask::Receive(1), 11, Told::Handle(2)),
    Act::Whole(0, Ask::Release(2), 1, Told::Done),
    Act::Whole(0, Ask::CopyRequest(0, 8), 19, Told::Handle(3)),
];

/// A response waits on the first lane, and its request is given up. Three loans take the other
/// lanes and give them back, so the next request has the first lane again.
const STALE_WAITS: [Act; 13] = [
    Act::Whole(0, Ask::CopyRequest(0, 7), 19, Told::Handle(2)),
    Act::Whole(1, Ask::Receive(1), 11, Told::Handle(2)),
    Act::Whole(1, Ask::CopyResponse(2, 9), 24, Told::Done),
    Act::Whole(0, Ask::Release(2), 1, Told::Done),
    Act::Whole(1, Ask::Release(2), 5, Told::Done),
    Act::Whole(0, Ask::Loan(0), 13, Told::Handle(3)),
    Act::Whole(0, Ask::Release(3), 1, Told::Done),
    Act::Whole(0, Ask::Loan(0), 9, Told::Handle(4)),
    Act::Whole(0, Ask::Release(4), 1, Told::Done),
    Act::Whole(0, Ask::Loan(0), 9, Told::Handle(5)),
    Act::Whole(0, Ask::Release(5), 1, Told::Done),
    Act::Whole(0, Ask::CopyRequest(0, 8), 19, Told::Handle(6)),
    Act::Lacks(1, 0, 0, 1),
];

const SERVER_STOPS_AS_ITS_LOAN_GETS_A_RESPONSE_BACK: Stop<'static> = Stop {
    name: "server_stops_as_its_loan_gets_a_response_back",
    on: On::Ones(NO_OVERFLOW),
    before: &RESPONSE_IS_BACK,
    node: 1,
    ask: Ask::Loan(2),
    steps: 18,
    after: &[
        (
            0,
            &[
                Act::Lacks(1, 0, 0, 1),
                Act::Keeps(1, 1),
                Act::Whole(0, Ask::IsConnected(2), 1, Told::Answer(true)),
                Act::Whole(0, Ask::Receive(2), 2, Told::Nothing),
            ],
        ),
        (
            4,
            &[
                Act::Lacks(1, 0, 0, 0),
                Act::Keeps(1, 0),
                Act::Whole(0, Ask::IsConnected(2), 1, Told::Answer(true)),
                Act::Whole(0, Ask::Receive(2), 2, Told::Nothing),
            ],
        ),
        (
            12,
            &[
                Act::Lacks(1, 0, 0, 0),
                Act::Keeps(1, 1),
                Act::Whole(0, Ask::IsConnected(2), 1, Told::Answer(true)),
                Act::Whole(0, Ask::Receive(2), 2, Told::Nothing),
            ],
        ),
    ],
    between: NOTHING_BETWEEN,
    counts: &[],
};

const CLIENT_STOPS_AS_ITS_SEND_GETS_A_REQUEST_BACK: Stop<'static> = Stop {
    name: "client_stops_as_its_send_gets_a_request_back",
    on: On::Ones(NO_OVERFLOW),
    before: &REQUEST_IS_BACK,
    node: 0,
    ask: Ask::Send(3),
    steps: 13,
    after: &[
        (
            0,
            &[
                Act::Lacks(0, 1, 0, 1),
                Act::Keeps(0, 2),
                Act::Whole(1, Ask::Receive(1), 2, Told::Nothing),
            ],
        ),
        (
            4,
            &[
                Act::Lacks(0, 1, 0, 0),
                Act::Keeps(0, 1),
                Act::Whole(1, Ask::Receive(1), 2, Told::Nothing),
            ],
        ),
        (
            13,
            &[
                Act::Lacks(0, 1, 0, 1),
                Act::Keeps(0, 1),
                Act::Whole(1, Ask::Receive(1), 11, Told::Handle(3)),
                Act::Whole(1, Ask::Read(3), 1, Told::Word(5)),
                Act::Whole(1, Ask::IsConnected(3), 1, Told::Answer(true)),
            ],
        ),
    ],
    between: NOTHING_BETWEEN,
    counts: &[],
};

/// No request came, and that which was given back is outstanding.
const OUTSTANDING: [Act; 4] = [
    Act::Keeps(0, 1),
    Act::Lacks(0, 1, 0, 1),
    Act::Whole(1, Ask::HasRequests(1), 2, Told::Answer(false)),
    Act::Whole(1, Ask::Receive(1), 2, Told::Nothing),
];

/// None came, and it is got back.
const GOT_BACK: [Act; 4] = [
    Act::Keeps(0, 0),
    Act::Lacks(0, 1, 0, 0),
    Act::Whole(1, Ask::HasRequests(1), 2, Told::Answer(false)),
    Act::Whole(1, Ask::Receive(1), 2, Told::Nothing),
];

/// None came, and a loan has a slot.
const ON_LOAN: [Act; 4] = [
    Act::Keeps(0, 1),
    Act::Lacks(0, 1, 0, 0),
    Act::Whole(1, Ask::HasRequests(1), 2, Told::Answer(false)),
    Act::Whole(1, Ask::Receive(1), 2, Told::Nothing),
];

const CLIENT_STOPS_AS_ITS_LOAN_GETS_A_REQUEST_BACK: Stop<'static> = Stop {
    name: "client_stops_as_its_loan_gets_a_request_back",
    on: On::Ones(NO_OVERFLOW),
    before: &REQUEST_IS_BACK_ALONE,
    node: 0,
    ask: Ask::Loan(0),
    steps: 13,
    after: &[(0, &OUTSTANDING), (4, &GOT_BACK), (6, &ON_LOAN)],
    between: NOTHING_BETWEEN,
    counts: &[],
};

const CLIENT_STOPS_AS_ITS_COPY_GETS_A_REQUEST_BACK: Stop<'static> = Stop {
    name: "client_stops_as_its_copy_gets_a_request_back",
    on: On::Ones(NO_OVERFLOW),
    before: &REQUEST_IS_BACK_ALONE,
    node: 0,
    ask: Ask::CopyRequest(0, 5),
    steps: 23,
    after: &[
        (0, &OUTSTANDING),
        (4, &GOT_BACK),
        (6, &ON_LOAN),
        (
            23,
            &[
                Act::Keeps(0, 1),
                Act::Lacks(0, 1, 0, 1),
                Act::Whole(1, Ask::Receive(1), 11, Told::Handle(3)),
                Act::Whole(1, Ask::Read(3), 1, Told::Word(5)),
                Act::Whole(1, Ask::IsConnected(3), 1, Told::Answer(true)),
                Act::Whole(1, Ask::CopyResponse(3, 9), 24, Told::Done),
            ],
        ),
    ],
    between: NOTHING_BETWEEN,
    counts: &[],
};

const CLIENT_STOPS_IN_A_RECEIVE_AT_ITS_LIMIT: Stop<'static> = Stop {
    name: "client_stops_in_a_receive_at_its_limit",
    on: On::Ones(NO_OVERFLOW),
    before: &RESPONSE_WAITS,
    node: 0,
    ask: Ask::Receive(2),
    steps: 2,
    after: &[(
        0,
        &[
            Act::Lacks(1, 0, 0, 2),
            Act::Whole(1, Ask::IsConnected(2), 1, Told::Answer(true)),
            Act::Whole(1, Ask::CopyResponse(2, 11), 20, Told::UnableToDeliver),
            Act::Whole(1, Ask::Release(2), 6, Told::Done),
            Act::Lacks(1, 0, 0, 2),
        ],
    )],
    between: NOTHING_BETWEEN,
    counts: &[],
};

const SERVER_STOPS_IN_A_RECEIVE_AT_ITS_LIMIT: Stop<'static> = Stop {
    name: "server_stops_in_a_receive_at_its_limit",
    on: On::Ones(NO_OVERFLOW),
    before: &REQUEST_WAITS,
    node: 1,
    ask: Ask::Receive(1),
    steps: 2,
    after: &[(
        0,
        &[
            Act::Lacks(0, 1, 0, 2),
            Act::Whole(0, Ask::IsConnected(3), 1, Told::Answer(true)),
            Act::Whole(0, Ask::Release(3), 1, Told::Done),
            Act::Whole(0, Ask::CopyRequest(0, 6), 14, Told::UnableToDeliver),
            Act::Lacks(0, 1, 0, 2),
        ],
    )],
    between: NOTHING_BETWEEN,
    counts: &[],
};

const CLIENT_STOPS_AS_IT_GIVES_A_STALE_RESPONSE_BACK: Stop<'static> = Stop {
    name: "client_stops_as_it_gives_a_stale_response_back",
    on: On::Ones(NO_OVERFLOW),
    before: &STALE_WAITS,
    node: 0,
    ask: Ask::Receive(6),
    steps: 16,
    after: &[
        (
            0,
            &[
                Act::Whole(1, Ask::Receive(1), 11, Told::Handle(3)),
                Act::Whole(1, Ask::Read(3), 1, Told::Word(8)),
                // the queue of the lane is full
                Act::Whole(1, Ask::CopyResponse(3, 10), 20, Told::UnableToDeliver),
                Act::Lacks(1, 0, 0, 1),
            ],
        ),
        (
            4,
            &[
                Act::Whole(1, Ask::Receive(1), 11, Told::Handle(3)),
                Act::Whole(1, Ask::Read(3), 1, Told::Word(8)),
                // what the client took is not given back
                Act::Whole(1, Ask::CopyResponse(3, 10), 24, Told::Done),
                Act::Lacks(1, 0, 0, 2),
            ],
        ),
        (
            14,
            &[
                Act::Whole(1, Ask::Receive(1), 11, Told::Handle(3)),
                Act::Whole(1, Ask::Read(3), 1, Told::Word(8)),
                Act::Whole(1, Ask::CopyResponse(3, 10), 28, Told::Done),
                Act::Lacks(1, 0, 0, 1),
            ],
        ),
    ],
    between: NOTHING_BETWEEN,
    counts: &[],
};

#[test]
fn node_stops_as_messages_come_back(rt: HostRuntime) -> Result<(), Fail> {
    const STOPS: &[Stop<'static>] = &[
        SERVER_STOPS_AS_ITS_LOAN_GETS_A_RESPONSE_BACK,
        CLIENT_STOPS_AS_ITS_SEND_GETS_A_REQUEST_BACK,
        CLIENT_STOPS_AS_ITS_LOAN_GETS_A_REQUEST_BACK,
        CLIENT_STOPS_AS_ITS_COPY_GETS_A_REQUEST_BACK,
        CLIENT_STOPS_IN_A_RECEIVE_AT_ITS_LIMIT,
        SERVER_STOPS_IN_A_RECEIVE_AT_ITS_LIMIT,
        CLIENT_STOPS_AS_IT_GIVES_A_STALE_RESPONSE_BACK,
    ];
    stop_all(&rt, STOPS)
}
