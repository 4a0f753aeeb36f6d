//! Whom a handler is asked about: each full server singly, and only for its own client. Requests do
//! not overflow, and a client has one active request: so a second request meets two full queues.

use super::answering::{AnswersAt, DISCARDS, FAILS};
use super::{Asked, Given, SETTINGS, Told, plays, plays_in};
use iox_control::Settings;
use iox_model::reply::Refusal;
use iox_types::BackpressureStrategy;

/// The send is refused.
const REFUSED: Told = Told::Refused(Refusal::UnableToDeliver);

const TWO: Settings = Settings {
    servers: 2,
    ..SETTINGS
};

const DISCARD: BackpressureStrategy = BackpressureStrategy::DiscardData;

const RETRY: BackpressureStrategy = BackpressureStrategy::RetryUntilDelivered;

/// A handler that answers so at this receiver, and this strategy.
macro_rules! given {
    ($receiver:expr, $answer:expr, $strategy:expr) => {
        Given::Handler(
            AnswersAt {
                receiver: $receiver,
                answer: $answer,
            },
            $strategy,
        )
    };
}

/// What a second request is told at servers 0 and 1, which are full.
macro_rules! second_of_two {
    ($given:expr, $told:expr) => {
        &[
            (1, Asked::Server, Told::Server(0)),
            (1, Asked::Server, Told::Server(1)),
            (0, Asked::Client($given), Told::Client(2)),
            (0, Asked::Request(2, 5, 1), Told::Handle(3)),
            (0, Asked::Release(3), Told::Done),
            (0, Asked::Loan(2, 1), Told::Handle(4)),
            (0, Asked::Send(4), $told),
        ]
    };
}

#[test]
fn a_handler_that_fails_at_the_second_of_two_refuses(rt: HostRuntime) {
    const GIVEN: Given = given!(1, FAILS, DISCARD);
    plays_in(&rt, rt.alloc(), &TWO, second_of_two!(GIVEN, REFUSED));
}

#[test]
fn a_handler_that_fails_at_the_first_of_two_refuses(rt: HostRuntime) {
    const GIVEN: Given = given!(0, FAILS, DISCARD);
    plays_in(&rt, rt.alloc(), &TWO, second_of_two!(GIVEN, REFUSED));
}

#[test]
fn a_handler_that_discards_at_the_second_leaves_the_first_to_the_strategy(rt: HostRuntime) {
    const GIVEN: Given = given!(1, DISCARDS, RETRY);
    plays_in(&rt, rt.alloc(), &TWO, second_of_two!(GIVEN, REFUSED));
}

#[test]
fn a_handler_that_fails_at_its_own_port_passes_over_both(rt: HostRuntime) {
    const GIVEN: Given = given!(2, FAILS, DISCARD);
    plays_in(&rt, rt.alloc(), &TWO, second_of_two!(GIVEN, Told::Sent(0)));
}

/// It fails at server 0, and the strategy discards.
const FAILING: Given = given!(0, FAILS, DISCARD);

/// It discards at server 0, and so does the strategy.
const DISCARDING: Given = given!(0, DISCARDS, DISCARD);

#[test]
fn only_full_servers_are_asked_about(rt: HostRuntime) {
    plays_in(
        &rt,
        rt.alloc(),
        &TWO,
        &[
            (1, Asked::Server, Told::Server(0)),
            (1, Asked::Server, Told::Server(1)),
            (0, Asked::Client(FAILING), Told::Client(2)),
            (0, Asked::Request(2, 5, 1), Told::Handle(3)),
            (0, Asked::Release(3), Told::Done),
            // Server 0 has room again, and server 1 is full.
            (1, Asked::Receive(0), Told::Handle(4)),
            (0, Asked::Loan(2, 1), Told::Handle(5)),
            (0, Asked::Send(5), Told::Sent(1)),
        ],
    );
}

#[test]
fn a_handler_is_its_own_ports_alone(rt: HostRuntime) {
    plays(
        &rt,
        rt.alloc(),
        &[
            (1, Asked::Server, Told::Server(0)),
            (0, Asked::Client(FAILING), Told::Client(1)),
            (0, Asked::Client(Given::Strategy(DISCARD)), Told::Client(2)),
            (0, Asked::Request(1, 5, 1), Told::Handle(3)),
            (0, Asked::Release(3), Told::Done),
            (0, Asked::Request(2, 5, 1), Told::Handle(4)),
            (0, Asked::Release(4), Told::Done),
            (0, Asked::Loan(1, 1), Told::Handle(5)),
            (0, Asked::Send(5), REFUSED),
            (0, Asked::Loan(2, 1), Told::Handle(6)),
            (0, Asked::Send(6), Told::Sent(0)),
        ],
    );
}

#[test]
fn a_handler_stays_as_others_come_and_go(rt: HostRuntime) {
    plays(
        &rt,
        rt.alloc(),
        &[
            (1, Asked::Server, Told::Server(0)),
            (0, Asked::Client(DISCARDING), Told::Client(1)),
            (0, Asked::Client(FAILING), Told::Client(2)),
            (0, Asked::Request(2, 5, 1), Told::Handle(3)),
            (0, Asked::Release(3), Told::Done),
            (0, Asked::Release(1), Told::Done),
            (0, Asked::Client(DISCARDING), Told::Client(4)),
            (0, Asked::Loan(2, 1), Told::Handle(5)),
            (0, Asked::Send(5), REFUSED),
        ],
    );
}
