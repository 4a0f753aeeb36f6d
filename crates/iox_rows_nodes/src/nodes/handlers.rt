//! Messages for full receivers, of ports that have a handler. Nothing overflows: a client has one
//! active request, and one response may wait.
use super::service::SETTINGS;
use super::{Ask, Row, Told, plays_with};
use iox_control::Settings;
use iox_model::reply::Refusal;
use iox_nodes::BackpressureAction;
use iox_types::BackpressureStrategy;

const FULL_AT_ONE: Settings = Settings {
    active_requests: 1,
    response_buffer: 1,
    request_overflow: false,
    response_overflow: false,
    ..SETTINGS
};

/// The send of a second request is told this, where the first one waits and its pending response is
/// released.
macro_rules! second_request {
    ($action:expr, $strategy:expr, $told:expr) => {
        &[
            (Ask::Server(0), Told::Server(0)),
            (Ask::HandledClient(0, $action, $strategy), Told::Client(1)),
            (Ask::Request(0, 1, 5), Told::Handle(2)),
            (Ask::Release(0, 2), Told::Done),
            (Ask::Loan(0, 1), Told::Handle(3)),
            (Ask::Send(0, 3), $told),
            (Ask::Receive(0, 0), Told::Handle(4)),
            (Ask::Read(0, 4), Told::Words(&[5])),
            (Ask::Receive(0, 0), Told::Nothing),
        ]
    };
}

/// The send of a second response is told this, where the first one waits.
macro_rules! second_response {
    ($action:expr, $strategy:expr, $told:expr) => {
        &[
            (Ask::HandledServer(0, $action, $strategy), Told::Server(0)),
            (Ask::Client(0), Told::Client(1)),
            (Ask::Request(0, 1, 5), Told::Handle(2)),
            (Ask::Receive(0, 0), Told::Handle(3)),
            (Ask::Response(0, 3, 10), Told::Done),
            (Ask::Response(0, 3, 20), $told),
            (Ask::Receive(0, 2), Told::Handle(4)),
            (Ask::Read(0, 4), Told::Words(&[10])),
            (Ask::Receive(0, 2), Told::Nothing),
        ]
    };
}

const REFUSED: Told<'static> = Told::Refused(Refusal::UnableToDeliver);

const FAILS: BackpressureAction = BackpressureAction::DiscardDataAndFail;

const DISCARDS: BackpressureAction = BackpressureAction::DiscardData;

const FOLLOWS: BackpressureAction = BackpressureAction::FollowBackpressureStrategy;

const DISCARD: BackpressureStrategy = BackpressureStrategy::DiscardData;

const RETRY: BackpressureStrategy = BackpressureStrategy::RetryUntilDelivered;

#[test]
fn a_handler_refuses_what_the_strategy_discards(rt: HostRuntime) {
    const REQUEST: &[Row<'static>] = second_request!(FAILS, DISCARD, REFUSED);
    const RESPONSE: &[Row<'static>] = second_response!(FAILS, DISCARD, REFUSED);
    plays_with(&rt, rt.alloc(), FULL_AT_ONE, REQUEST);
    plays_with(&rt, rt.alloc(), FULL_AT_ONE, RESPONSE);
}

#[test]
fn a_handler_discards_what_the_strategy_refuses(rt: HostRuntime) {
    const REQUEST: &[Row<'static>] = second_request!(DISCARDS, RETRY, Told::Sent(0));
    const RESPONSE: &[Row<'static>] = second_response!(DISCARDS, RETRY, Told::Done);
    plays_with(&rt, rt.alloc(), FULL_AT_ONE, REQUEST);
    plays_with(&rt, rt.alloc(), FULL_AT_ONE, RESPONSE);
}

#[test]
fn a_handler_follows_a_strategy_that_refuses(rt: HostRuntime) {
    const REQUEST: &[Row<'static>] = second_request!(FOLLOWS, RETRY, REFUSED);
    const RESPONSE: &[Row<'static>] = second_response!(FOLLOWS, RETRY, REFUSED);
    plays_with(&rt, rt.alloc(), FULL_AT_ONE, REQUEST);
    plays_with(&rt, rt.alloc(), FULL_AT_ONE, RESPONSE);
}

#[test]
fn a_handler_follows_a_strategy_that_discards(rt: HostRuntime) {
    const REQUEST: &[Row<'static>] = second_request!(FOLLOWS, DISCARD, Told::Sent(0));
    const RESPONSE: &[Row<'static>] = second_response!(FOLLOWS, DISCARD, Told::Done);
    plays_with(&rt, rt.alloc(), FULL_AT_ONE, REQUEST);
    plays_with(&rt, rt.alloc(), FULL_AT_ONE, RESPONSE);
}

#[test]
fn a_handler_is_of_its_own_port_alone(rt: HostRuntime) {
    const SCRIPT: &[Row<'static>] = &[
        (Ask::Join(2), Told::Node(1)),
        (Ask::Server(1), Told::Server(0)),
        (Ask::HandledClient(0, DISCARDS, RETRY), Told::Client(1)),
        (Ask::Client(1), Told::Client(2)),
        (Ask::Request(0, 1, 5), Told::Handle(3)),
        (Ask::Release(0, 3), Told::Done),
        (Ask::Request(1, 2, 6), Told::Handle(4)),
        (Ask::Release(1, 4), Told::Done),
        (Ask::Request(1, 2, 7), REFUSED),
        (Ask::Loan(0, 1), Told::Handle(5)),
        (Ask::Send(0, 5), Told::Sent(0)),
        // Its handler is gone with its node, and no later port has it.
        (Ask::Die(0), Told::Done),
        (Ask::Cleanup(0), Told::Done),
        (Ask::Join(3), Told::Node(2)),
        (Ask::Client(2), Told::Client(6)),
        (Ask::Request(2, 6, 8), Told::Handle(7)),
        (Ask::Release(2, 7), Told::Done),
        (Ask::Request(2, 6, 9), REFUSED),
    ];
    plays_with(&rt, rt.alloc(), FULL_AT_ONE, SCRIPT);
}
