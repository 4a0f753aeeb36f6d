//! A server stops as it gives a request back that its client hints at or gives up, before or
//! meanwhile.
use super::on::On;
use super::play::{Act, Ask};
use super::settings::NO_OVERFLOW;
use super::stops::{Between, NOTHING_BETWEEN, Stop, stop_all};
use super::told::Told;
use std::test::Fail;

/// A request is sent and received.
const RECEIVED: [Act; 2] = [
    Act::Whole(0, Ask::CopyRequest(0, 7), 19, Told::Handle(2)),
    Act::Whole(1, Ask::Receive(1), 11, Told::Handle(2)),
];

/// Its client gives it up.
const GIVEN_UP: [Act; 3] = [
    Act::Whole(0, Ask::CopyRequest(0, 7), 19, Told::Handle(2)),
    Act::Whole(1, Ask::Receive(1), 11, Told::Handle(2)),
    Act::Whole(0, Ask::Release(2), 1, Told::Done),
];

/// The request was not given back: the next loan gets nothing back.
const NOT_BACK: [Act; 6] = [
    Act::Lacks(0, 1, 0, 1),
    Act::Keeps(0, 1),
    Act::Whole(0, Ask::Loan(0), 9, Told::Handle(3)),
    Act::Lacks(0, 1, 0, 1),
    Act::Keeps(0, 2),
    Act::Whole(0, Ask::Send(3), 9, Told::Sent(1)),
];

/// It was: the next loan gets it back.
const BACK: [Act; 6] = [
    Act::Lacks(0, 1, 0, 1),
    Act::Keeps(0, 1),
    Act::Whole(0, Ask::Loan(0), 13, Told::Handle(3)),
    Act::Lacks(0, 1, 0, 0),
    Act::Keeps(0, 1),
    Act::Whole(0, Ask::Send(3), 9, Told::Sent(1)),
];

/// The request is open, and was not given back: its slot is kept up to the last.
const OPEN_NOT_BACK: [Act; 6] = [
    Act::Whole(0, Ask::IsConnected(2), 1, Told::Answer(true)),
    Act::Whole(0, Ask::Receive(2), 2, Told::Nothing),
    Act::Whole(0, Ask::Release(2), 1, Told::Done),
    Act::Whole(0, Ask::Loan(0), 9, Told::Handle(3)),
    Act::Keeps(0, 2),
    Act::Whole(0, Ask::Send(3), 9, Told::Sent(1)),
];

/// It is open, and was given back.
const OPEN_BACK: [Act; 6] = [
    Act::Whole(0, Ask::IsConnected(2), 1, Told::Answer(true)),
    Act::Whole(0, Ask::Receive(2), 2, Told::Nothing),
    Act::Whole(0, Ask::Release(2), 1, Told::Done),
    Act::Whole(0, Ask::Loan(0), 13, Told::Handle(3)),
    Act::Keeps(0, 1),
    Act::Whole(0, Ask::Send(3), 9, Told::Sent(1)),
];

/// It is closed, and was given back. A hint looks whether it is open, and goes no further.
const CLOSED_BACK: [Act; 6] = [
    Act::Whole(0, Ask::IsConnected(2), 1, Told::Answer(false)),
    Act::Whole(0, Ask::SetHint(2), 1, Told::Done),
    Act::Whole(0, Ask::Release(2), 1, Told::Done),
    Act::Whole(0, Ask::Loan(0), 13, Told::Handle(3)),
    Act::Keeps(0, 1),
    Act::Whole(0, Ask::Send(3), 9, Told::Sent(1)),
];

const REQUEST_WAS_GIVEN_UP: Stop<'static> = Stop {
    name: "request_was_given_up",
    on: On::Ones(NO_OVERFLOW),
    before: &GIVEN_UP,
    node: 1,
    ask: Ask::Release(2),
    steps: 5,
    after: &[(0, &NOT_BACK), (4, &BACK)],
    between: NOTHING_BETWEEN,
    counts: &[],
};

/// The server saw the request open without a hint, so it looks once more before it closes it.
const HINT_COMES_BETWEEN: Stop<'static> = Stop {
    name: "hint_comes_between",
    on: On::Ones(NO_OVERFLOW),
    before: &RECEIVED,
    node: 1,
    ask: Ask::Release(2),
    steps: 7,
    after: &[(0, &OPEN_NOT_BACK), (4, &OPEN_BACK), (7, &CLOSED_BACK)],
    between: Between {
        made: 5,
        acts: &[Act::Whole(0, Ask::SetHint(2), 2, Told::Done)],
    },
    counts: &[],
};

const HINT_CAME_BEFORE: Stop<'static> = Stop {
    name: "hint_came_before",
    on: On::Ones(NO_OVERFLOW),
    before: &RECEIVED,
    node: 1,
    ask: Ask::Release(2),
    steps: 6,
    after: &[(0, &OPEN_NOT_BACK), (4, &OPEN_BACK), (6, &CLOSED_BACK)],
    between: Between {
        made: 0,
        acts: &[Act::Whole(0, Ask::SetHint(2), 2, Told::Done)],
    },
    counts: &[],
};

const CLIENT_GIVES_UP_BETWEEN: Stop<'static> = Stop {
    name: "client_gives_up_between",
    on: On::Ones(NO_OVERFLOW),
    before: &RECEIVED,
    node: 1,
    ask: Ask::Release(2),
    steps: 6,
    after: &[(0, &OPEN_NOT_BACK), (4, &OPEN_BACK), (5, &BACK)],
    between: Between {
        made: 5,
        acts: &[Act::Whole(0, Ask::Release(2), 1, Told::Done)],
    },
    counts: &[],
};

#[test]
fn server_stops_as_it_gives_a_request_back(rt: HostRuntime) -> Result<(), Fail> {
    const STOPS: &[Stop<'static>] = &[
        REQUEST_WAS_GIVEN_UP,
        HINT_COMES_BETWEEN,
        HINT_CAME_BEFORE,
        CLIENT_GIVES_UP_BETWEEN,
    ];
    stop_all(&rt, STOPS)
}
