//! A node stops in a call that is refused, and the other one continues.
use super::on::{ONES, On, Play, plays_all};
use super::play::{Act, Ask};
use super::settings::NO_OVERFLOW;
use super::stops::{NOTHING_BETWEEN, Stop, stop_all};
use super::told::Told;
use std::test::Fail;

/// The server receives what was sent before, and nothing else.
const ONE_CAME: [Act; 7] = [
    Act::Lacks(0, 1, 0, 1),
    Act::Whole(1, Ask::Receive(1), 11, Told::Handle(2)),
    Act::Whole(1, Ask::Read(2), 1, Told::Word(7)),
    Act::Whole(1, Ask::IsConnected(2), 1, Told::Answer(true)),
    Act::Whole(1, Ask::CopyResponse(2, 9), 24, Told::Done),
    Act::Whole(1, Ask::Release(2), 6, Told::Done),
    Act::Whole(1, Ask::Receive(1), 2, Told::Nothing),
];

/// A request waits, and another one is on loan: the client has as many as it may.
const LIMITED: [Act; 3] = [
    Act::Whole(0, Ask::CopyRequest(0, 7), 19, Told::Handle(2)),
    Act::Whole(0, Ask::Loan(0), 9, Told::Handle(3)),
    Act::Whole(0, Ask::WriteRequest(3, 5), 1, Told::Done),
];

/// A response is on loan: the server has as many as it may for its request.
const SERVER_IS_LIMITED: [Act; 3] = [
    Act::Whole(0, Ask::CopyRequest(0, 7), 19, Told::Handle(2)),
    Act::Whole(1, Ask::Receive(1), 11, Told::Handle(2)),
    Act::Whole(1, Ask::Loan(2), 14, Told::Handle(3)),
];

/// The client gets no response, and continues.
const NONE_CAME: [Act; 5] = [
    Act::Keeps(1, 1),
    Act::Whole(0, Ask::Receive(2), 2, Told::Nothing),
    Act::Whole(0, Ask::IsConnected(2), 1, Told::Answer(true)),
    Act::Whole(0, Ask::Release(2), 1, Told::Done),
    Act::Whole(0, Ask::CopyRequest(0, 6), 19, Told::Handle(3)),
];

/// A call of the client's is refused with its only step.
const CLIENT_IS_REFUSED: Play<'static> = Play {
    name: "client_is_refused",
    on: ONES,
    before: &LIMITED,
    table: &[],
};

/// A stop in it.
const CLIENT_STOPS: Stop<'static> = Stop {
    name: "client_stops",
    on: On::Ones(NO_OVERFLOW),
    before: &LIMITED,
    node: 0,
    ask: Ask::Loan(0),
    steps: 1,
    after: &[(0, &ONE_CAME)],
    between: NOTHING_BETWEEN,
    counts: &[(0, &[Act::Keeps(0, 2)])],
};

#[test]
fn client_is_refused_in_one_step(rt: HostRuntime) -> Result<(), Fail> {
    const PLAYS: &[Play<'static>] = &[
        Play {
            table: &[
                Act::Whole(0, Ask::Loan(0), 1, Told::ExceedsMaxLoans),
                Act::Keeps(0, 2),
            ],
            ..CLIENT_IS_REFUSED
        },
        Play {
            table: &[
                Act::Whole(0, Ask::LoanOf(0, 2), 1, Told::ExceedsMaxLoanSize),
                Act::Keeps(0, 2),
            ],
            ..CLIENT_IS_REFUSED
        },
        Play {
            table: &[
                Act::Whole(0, Ask::CopyRequest(0, 8), 1, Told::ExceedsMaxLoans),
                Act::Keeps(0, 2),
            ],
            ..CLIENT_IS_REFUSED
        },
        Play {
            table: &[
                Act::Whole(0, Ask::WriteNoRequest(3), 1, Told::WrongLength),
                Act::Keeps(0, 2),
            ],
            ..CLIENT_IS_REFUSED
        },
        Play {
            table: &[
                Act::Whole(0, Ask::Send(3), 1, Told::ExceedsMaxActiveRequests),
                Act::Keeps(0, 1),
            ],
            ..CLIENT_IS_REFUSED
        },
    ];
    const STOPS: &[Stop<'static>] = &[
        Stop {
            ask: Ask::Loan(0),
            ..CLIENT_STOPS
        },
        Stop {
            ask: Ask::LoanOf(0, 2),
            ..CLIENT_STOPS
        },
        Stop {
            ask: Ask::CopyRequest(0, 8),
            ..CLIENT_STOPS
        },
        Stop {
            ask: Ask::WriteNoRequest(3),
            ..CLIENT_STOPS
        },
        Stop {
            ask: Ask::Send(3),
            counts: &[(0, &[Act::Keeps(0, 2)]), (1, &[Act::Keeps(0, 1)])],
            ..CLIENT_STOPS
        },
    ];
    plays_all(&rt, PLAYS)?;
    stop_all(&rt, STOPS)
}

/// A call of the server's is refused with its only step.
const SERVER_IS_REFUSED: Play<'static> = Play {
    name: "server_is_refused",
    on: ONES,
    before: &SERVER_IS_LIMITED,
    table: &[],
};

/// A stop in it.
const SERVER_STOPS: Stop<'static> = Stop {
    name: "server_stops",
    on: On::Ones(NO_OVERFLOW),
    before: &SERVER_IS_LIMITED,
    node: 1,
    ask: Ask::Loan(2),
    steps: 1,
    after: &[(0, &NONE_CAME)],
    between: NOTHING_BETWEEN,
    counts: &[],
};

#[test]
fn server_is_refused_in_one_step(rt: HostRuntime) -> Result<(), Fail> {
    const PLAYS: &[Play<'static>] = &[
        Play {
            table: &[
                Act::Whole(1, Ask::Loan(2), 1, Told::ExceedsMaxLoans),
                Act::Keeps(1, 1),
            ],
            ..SERVER_IS_REFUSED
        },
        Play {
            table: &[
                Act::Whole(1, Ask::LoanOf(2, 2), 1, Told::ExceedsMaxLoanSize),
                Act::Keeps(1, 1),
            ],
            ..SERVER_IS_REFUSED
        },
        Play {
            table: &[
                Act::Whole(1, Ask::CopyResponse(2, 8), 1, Told::ExceedsMaxLoans),
                Act::Keeps(1, 1),
            ],
            ..SERVER_IS_REFUSED
        },
        Play {
            table: &[
                Act::Whole(1, Ask::WriteNoResponse(3), 1, Told::WrongLength),
                Act::Keeps(1, 1),
            ],
            ..SERVER_IS_REFUSED
        },
    ];
    const STOPS: &[Stop<'static>] = &[
        Stop {
            ask: Ask::Loan(2),
            ..SERVER_STOPS
        },
        Stop {
            ask: Ask::LoanOf(2, 2),
            ..SERVER_STOPS
        },
        Stop {
            ask: Ask::CopyResponse(2, 8),
            ..SERVER_STOPS
        },
        Stop {
            ask: Ask::WriteNoResponse(3),
            ..SERVER_STOPS
        },
    ];
    plays_all(&rt, PLAYS)?;
    stop_all(&rt, STOPS)
}
