//! Messages for full receivers, of ports that have a handler. Nothing overflows: a client has one
//! active request, and one response may wait.
use super::starts::SETTINGS;
use super::{Ask, Row, Told, plays};
use iceoryx2_wire::{Always, BackpressureAction, BackpressureStrategy, Refusal, Settings};
use std::alloc::Global;
use std::process::Abort;

/// A handler's one answer, and the strategy of its port.
type Full = (BackpressureAction, BackpressureStrategy);

/// Nothing overflows.
const FULL_AT_ONE: Settings = Settings {
    active_requests: 1,
    response_buffer: 1,
    request_overflow: false,
    response_overflow: false,
    ..SETTINGS
};

/// A client with this handler sends two requests. The second, which is loaned, is told this: the
/// first one still waits at the server.
fn second_request(rt: &impl Abort, alloc: Global, full: Full, told: Told<'static>) {
    let (action, strategy) = full;
    let client = Ask::MadeClient(0, Some(strategy), Some(Always { action }));
    let script: [Row<'_, Always>; 6] = [
        (Ask::Server(0), Told::Server(0)),
        (client, Told::Client(1)),
        (Ask::Request(0, 1, 5), Told::Handle(2)),
        (Ask::Release(0, 2), Told::Done),
        (Ask::Loan(0, 1), Told::Handle(3)),
        (Ask::Send(0, 3), told),
    ];
    plays(rt, alloc, &FULL_AT_ONE, &script);
}

/// A server with this handler answers a request twice. The second response is told this.
fn second_response(rt: &impl Abort, alloc: Global, full: Full, told: Told<'static>) {
    let (action, strategy) = full;
    let server = Ask::MadeServer(0, Some(strategy), Some(Always { action }));
    let script: [Row<'_, Always>; 6] = [
        (server, Told::Server(0)),
        (Ask::Client(0), Told::Client(1)),
        (Ask::Request(0, 1, 5), Told::Handle(2)),
        (Ask::Receive(0, 0), Told::Handle(3)),
        (Ask::Response(0, 3, 10), Told::Done),
        (Ask::Response(0, 3, 20), told),
    ];
    plays(rt, alloc, &FULL_AT_ONE, &script);
}

/// A second request is told the one, and a second response the other.
fn full_receivers(
    rt: &impl Abort,
    alloc: Global,
    full: Full,
    request: Told<'static>,
    response: Told<'static>,
) {
    second_request(rt, alloc, full, request);
    second_response(rt, alloc, full, response);
}

#[test]
fn a_handler_refuses_what_the_strategy_discards(rt: HostRuntime) {
    let full = (
        BackpressureAction::DiscardDataAndFail,
        BackpressureStrategy::DiscardData,
    );
    let refused = Told::Refused(Refusal::UnableToDeliver);
    full_receivers(&rt, rt.alloc(), full, refused, refused);
}

#[test]
fn a_handler_discards_what_the_strategy_refuses(rt: HostRuntime) {
    let full = (
        BackpressureAction::DiscardData,
        BackpressureStrategy::RetryUntilDelivered,
    );
    full_receivers(&rt, rt.alloc(), full, Told::Sent(0), Told::Done);
}

#[test]
fn a_handler_follows_the_strategy(rt: HostRuntime) {
    let action = BackpressureAction::FollowBackpressureStrategy;
    let discards = (action, BackpressureStrategy::DiscardData);
    full_receivers(&rt, rt.alloc(), discards, Told::Sent(0), Told::Done);
    let fails = (action, BackpressureStrategy::RetryUntilDelivered);
    let refused = Told::Refused(Refusal::UnableToDeliver);
    full_receivers(&rt, rt.alloc(), fails, refused, refused);
}
