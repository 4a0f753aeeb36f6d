//! What is waiting of ports that are gone.
use super::openers::FITS;
use super::starts::SETTINGS;
use super::{Ask, Row, Told, plays};
use crate::expected::holds;
use iceoryx2_wire::Settings;
use std::alloc::Global;
use std::process::Abort;

/// Two servers of node 1 answer one request with 10 and with 20. The first releases all that it
/// has, and then the second.
const ANSWERS: &[Row<'static>] = &[
    (Ask::Open(2, FITS), Told::Node(1)),
    (Ask::Client(0), Told::Client(0)),
    (Ask::Server(1), Told::Server(1)),
    (Ask::Server(1), Told::Server(2)),
    (Ask::Request(0, 0, 5), Told::Handle(3)),
    (Ask::Receive(1, 1), Told::Handle(4)),
    (Ask::Receive(1, 2), Told::Handle(5)),
    (Ask::Response(1, 4, 10), Told::Done),
    (Ask::Response(1, 5, 20), Told::Done),
    (Ask::Release(1, 4), Told::Done),
    (Ask::Release(1, 1), Told::Done),
    (Ask::Release(1, 5), Told::Done),
    (Ask::Release(1, 2), Told::Done),
    (Ask::Servers, Told::Listed(&[])),
];

/// Behind that, the client is told this. It keeps what is waiting of so many servers that are gone.
fn then(rt: &impl Abort, alloc: Global, client_expired: usize, rest: &[Row<'_>]) {
    let mut script = Vec::new(alloc);
    holds(rt, script.extend_from_slice(ANSWERS).is_ok());
    holds(rt, script.extend_from_slice(rest).is_ok());
    let settings = Settings {
        client_expired,
        ..SETTINGS
    };
    plays(rt, alloc, &settings, &script);
}

#[test]
fn with_room_for_one_the_younger_answer_is_received(rt: HostRuntime) {
    const SCRIPT: &[Row<'static>] = &[
        (Ask::Receive(0, 3), Told::Handle(6)),
        (Ask::Read(0, 6), Told::Words(&[20])),
        (Ask::Receive(0, 3), Told::Nothing),
    ];
    then(&rt, rt.alloc(), 1, SCRIPT);
}

#[test]
fn with_room_for_two_both_answers_are_received(rt: HostRuntime) {
    const SCRIPT: &[Row<'static>] = &[
        (Ask::HasResponse(0, 3), Told::Answer(true)),
        (Ask::Receive(0, 3), Told::Handle(6)),
        (Ask::Read(0, 6), Told::Words(&[10])),
        (Ask::Receive(0, 3), Told::Handle(7)),
        (Ask::Read(0, 7), Told::Words(&[20])),
        (Ask::Receive(0, 3), Told::Nothing),
    ];
    then(&rt, rt.alloc(), 2, SCRIPT);
}

#[test]
fn without_room_no_answer_is_received(rt: HostRuntime) {
    const SCRIPT: &[Row<'static>] = &[
        (Ask::HasResponse(0, 3), Told::Answer(false)),
        (Ask::Receive(0, 3), Told::Nothing),
    ];
    then(&rt, rt.alloc(), 0, SCRIPT);
}

#[test]
fn an_answer_of_a_dead_node_is_received_after_its_cleanup(rt: HostRuntime) {
    const SCRIPT: &[Row<'static>] = &[
        (Ask::Open(2, FITS), Told::Node(1)),
        (Ask::Client(0), Told::Client(0)),
        (Ask::Server(1), Told::Server(1)),
        (Ask::Request(0, 0, 5), Told::Handle(2)),
        (Ask::Receive(1, 1), Told::Handle(3)),
        (Ask::Response(1, 3, 10), Told::Done),
        (Ask::Die(1), Told::Done),
        (Ask::Cleanup(1), Told::Done),
        (Ask::Connected(0, 2), Told::Answer(false)),
        (Ask::Receive(0, 2), Told::Handle(4)),
        (Ask::Read(0, 4), Told::Words(&[10])),
        (Ask::Receive(0, 2), Told::Nothing),
    ];
    plays(&rt, rt.alloc(), &SETTINGS, SCRIPT);
}

#[test]
fn a_request_of_a_client_that_is_gone_is_received(rt: HostRuntime) {
    const SCRIPT: &[Row<'static>] = &[
        (Ask::Client(0), Told::Client(0)),
        (Ask::Server(0), Told::Server(1)),
        (Ask::Request(0, 0, 5), Told::Handle(2)),
        (Ask::Release(0, 2), Told::Done),
        (Ask::Release(0, 0), Told::Done),
        (Ask::Clients, Told::Listed(&[])),
        (Ask::HasRequests(0, 1), Told::Answer(true)),
        (Ask::Receive(0, 1), Told::Handle(3)),
        (Ask::Read(0, 3), Told::Words(&[5])),
        (Ask::Connected(0, 3), Told::Answer(false)),
        (Ask::Receive(0, 1), Told::Nothing),
    ];
    plays(&rt, rt.alloc(), &SETTINGS, SCRIPT);
}
