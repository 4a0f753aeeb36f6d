//! Sends to a full receiver, of ports that have a handler. A client has one active request, and one
//! response may wait for it. Nothing overflows, and there is one server: so a second request meets
//! a full queue, and so does a second response.

use super::answering::{AnswersAt, DISCARDS, FAILS, FOLLOWS};
use super::{Asked, Given, SETTINGS, Told, plays_in};
use iox_control::Settings;
use iox_model::reply::Refusal;
use iox_types::BackpressureStrategy;

/// The send is refused.
const REFUSED: Told = Told::Refused(Refusal::UnableToDeliver);

const TIGHT: Settings = Settings {
    response_buffer: 1,
    response_overflow: false,
    ..SETTINGS
};

const DISCARD: BackpressureStrategy = BackpressureStrategy::DiscardData;

const RETRY: BackpressureStrategy = BackpressureStrategy::RetryUntilDelivered;

/// A handler that answers so, and this strategy.
macro_rules! given {
    ($answer:expr, $strategy:expr) => {
        Given::Handler(
            AnswersAt {
                receiver: 0,
                answer: $answer,
            },
            $strategy,
        )
    };
}

/// What a second request is told that is loaned, where the first waits and its pending response is
/// released.
macro_rules! loaned {
    ($answer:expr, $strategy:expr, $told:expr) => {
        &[
            (1, Asked::Server, Told::Server(0)),
            (0, Asked::Client(given!($answer, $strategy)), Told::Client(1)),
            (0, Asked::Loan(1, 1), Told::Handle(2)),
            (0, Asked::Send(2), Told::Sent(1)),
            (0, Asked::Release(2), Told::Done),
            (0, Asked::Loan(1, 1), Told::Handle(3)),
            (0, Asked::Send(3), $told),
        ]
    };
}

/// The same of one that is copied. A copy does not tell to how many servers it went.
macro_rules! copied {
    ($answer:expr, $strategy:expr, $told:expr) => {
        &[
            (1, Asked::Server, Told::Server(0)),
            (0, Asked::Client(given!($answer, $strategy)), Told::Client(1)),
            (0, Asked::Request(1, 5, 1), Told::Handle(2)),
            (0, Asked::Release(2), Told::Done),
            (0, Asked::Request(1, 6, 1), $told),
        ]
    };
}

#[test]
fn a_handler_refuses_what_the_strategy_discards(rt: HostRuntime) {
    plays_in(&rt, rt.alloc(), &TIGHT, loaned!(FAILS, DISCARD, REFUSED));
    plays_in(&rt, rt.alloc(), &TIGHT, copied!(FAILS, DISCARD, REFUSED));
}

#[test]
fn a_handler_discards_what_the_strategy_refuses(rt: HostRuntime) {
    plays_in(
        &rt,
        rt.alloc(),
        &TIGHT,
        loaned!(DISCARDS, RETRY, Told::Sent(0)),
    );
    plays_in(
        &rt,
        rt.alloc(),
        &TIGHT,
        copied!(DISCARDS, RETRY, Told::Handle(3)),
    );
}

#[test]
fn a_handler_follows_a_strategy_that_refuses(rt: HostRuntime) {
    plays_in(&rt, rt.alloc(), &TIGHT, loaned!(FOLLOWS, RETRY, REFUSED));
    plays_in(&rt, rt.alloc(), &TIGHT, copied!(FOLLOWS, RETRY, REFUSED));
}

#[test]
fn a_handler_follows_a_strategy_that_discards(rt: HostRuntime) {
    plays_in(
        &rt,
        rt.alloc(),
        &TIGHT,
        loaned!(FOLLOWS, DISCARD, Told::Sent(0)),
    );
    plays_in(
        &rt,
        rt.alloc(),
        &TIGHT,
        copied!(FOLLOWS, DISCARD, Told::Handle(3)),
    );
}

/// What a second response is told, loaned or copied, where the first waits. The client receives
/// only the first.
macro_rules! answered {
    ($answer:expr, $strategy:expr, $told:expr) => {
        &[
            (0, Asked::Client(Given::Nothing), Told::Client(0)),
            (1, Asked::ServerWith(given!($answer, $strategy)), Told::Server(1)),
            (0, Asked::Request(0, 122, 1), Told::Handle(2)),
            (1, Asked::Receive(1), Told::Handle(3)),
            (1, Asked::Response(3, 10), Told::Done),
            (1, Asked::Response(3, 11), $told),
            (1, Asked::Loan(3, 1), Told::Handle(4)),
            (1, Asked::Send(4), $told),
            (0, Asked::Receive(2), Told::Handle(5)),
            (0, Asked::Read(5), Told::Words(1, 10)),
            (0, Asked::Release(5), Told::Done),
            (0, Asked::Receive(2), Told::Nothing),
        ]
    };
}

#[test]
fn a_servers_handler_refuses_what_the_strategy_discards(rt: HostRuntime) {
    plays_in(&rt, rt.alloc(), &TIGHT, answered!(FAILS, DISCARD, REFUSED));
}

#[test]
fn a_servers_handler_discards_what_the_strategy_refuses(rt: HostRuntime) {
    plays_in(
        &rt,
        rt.alloc(),
        &TIGHT,
        answered!(DISCARDS, RETRY, Told::Done),
    );
}

#[test]
fn a_servers_handler_follows_a_strategy_that_refuses(rt: HostRuntime) {
    plays_in(&rt, rt.alloc(), &TIGHT, answered!(FOLLOWS, RETRY, REFUSED));
}

#[test]
fn a_servers_handler_follows_a_strategy_that_discards(rt: HostRuntime) {
    plays_in(
        &rt,
        rt.alloc(),
        &TIGHT,
        answered!(FOLLOWS, DISCARD, Told::Done),
    );
}
