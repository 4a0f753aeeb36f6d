//! Ids of nodes and ports, told to a callback.
use super::openers::FITS;
use super::starts::SETTINGS;
use super::{Ask, Part, Row, TheService, Then, Told, plays_parts};
use crate::expected::equal;
use iceoryx2_wire::{Backpressure, CallbackProgression, Settings, UniqueSystemId};
use std::process::Abort;

/// The process numbers and counters of the last three that were told.
pub(super) type Seen = [Option<(u32, u32)>; 3];

/// What was told, and then this; the third that is told is the last.
fn then(seen: Seen, id: UniqueSystemId) -> (Seen, CallbackProgression) {
    let seen = [seen[1], seen[2], Some((id.process, id.counter))];
    if seen[0] == None {
        return (seen, CallbackProgression::Continue);
    }
    (seen, CallbackProgression::Stop)
}

/// The last nodes whose ids are told, at most three.
fn nodes<H: Backpressure>(service: &TheService<H>) -> Seen {
    let mut seen = [None; 3];
    service.list_node_ids(|id| {
        let (all, goes_on) = then(seen, id.system_id());
        seen = all;
        goes_on
    });
    seen
}

/// The last clients whose ids are told, at most three.
fn clients<H: Backpressure>(service: &TheService<H>) -> Seen {
    let mut seen = [None; 3];
    service.list_client_ids(|id| {
        let (all, goes_on) = then(seen, id.system_id());
        seen = all;
        goes_on
    });
    seen
}

/// The last servers whose ids are told, at most three.
fn servers<H: Backpressure>(service: &TheService<H>) -> Seen {
    let mut seen = [None; 3];
    service.list_server_ids(|id| {
        let (all, goes_on) = then(seen, id.system_id());
        seen = all;
        goes_on
    });
    seen
}

/// The same, as a list of three.
type Ids<'a> = &'a [Option<(u32, u32)>];

/// What is told of nodes, clients and servers.
pub(super) type AllIds<'a> = (Ids<'a>, Ids<'a>, Ids<'a>);

/// Ends the test where the service is closed, or tells other ids.
pub(super) fn are_told<H: Backpressure>(
    rt: &impl Abort,
    service: &TheService<H>,
    wanted: &AllIds<'_>,
) {
    equal(rt, service.is_closed(), false);
    equal(rt, nodes(service).as_slice(), wanted.0);
    equal(rt, clients(service).as_slice(), wanted.1);
    equal(rt, servers(service).as_slice(), wanted.2);
}

#[test]
fn ids_of_the_dead_are_told_too(rt: HostRuntime) {
    const SCRIPT: &[Row<'static>] = &[
        (Ask::Open(20, FITS), Told::Node(1)),
        (Ask::Client(1), Told::Client(0)),
        (Ask::Server(0), Told::Server(1)),
        (Ask::Client(0), Told::Client(2)),
        (Ask::Open(30, FITS), Told::Node(2)),
        (Ask::Die(1), Told::Done),
    ];
    // A port has the process number of its node.
    const DEAD_TOO: AllIds<'static> = (
        &[Some((1, 0)), Some((20, 0)), Some((30, 0))],
        &[None, Some((20, 0)), Some((1, 2))],
        &[None, None, Some((1, 1))],
    );
    const PARTS: &[Part<'static>] = &[(SCRIPT, Then::Tells(DEAD_TOO))];
    plays_parts(&rt, rt.alloc(), &SETTINGS, PARTS);
}

#[test]
fn ids_are_told_until_the_callback_stops(rt: HostRuntime) {
    const SCRIPT: &[Row<'static>] = &[
        (Ask::Open(20, FITS), Told::Node(1)),
        (Ask::Client(1), Told::Client(0)),
        (Ask::Client(0), Told::Client(1)),
        (Ask::Open(30, FITS), Told::Node(2)),
        (Ask::Die(1), Told::Done),
        (Ask::Open(40, FITS), Told::Node(3)),
        (Ask::Cleanup(1), Told::Done),
        (Ask::Open(20, FITS), Told::Node(4)),
        (Ask::Client(0), Told::Client(2)),
        (Ask::Client(0), Told::Client(3)),
        (Ask::Client(0), Told::Client(4)),
    ];
    // There are four nodes and four clients, and the third was the last that was told.
    const FIRST_THREE: AllIds<'static> = (
        &[Some((1, 0)), Some((30, 0)), Some((40, 0))],
        &[Some((1, 1)), Some((1, 2)), Some((1, 3))],
        &[None, None, None],
    );
    const PARTS: &[Part<'static>] = &[(SCRIPT, Then::Tells(FIRST_THREE))];
    plays_parts(&rt, rt.alloc(), &SETTINGS, PARTS);
}

#[test]
fn servers_are_told_until_the_callback_stops(rt: HostRuntime) {
    const SCRIPT: &[Row<'static>] = &[
        (Ask::Server(0), Told::Server(0)),
        (Ask::Server(0), Told::Server(1)),
        (Ask::Server(0), Told::Server(2)),
        (Ask::Server(0), Told::Server(3)),
    ];
    const THREE_SERVERS: AllIds<'static> = (
        &[None, None, Some((1, 0))],
        &[None, None, None],
        &[Some((1, 0)), Some((1, 1)), Some((1, 2))],
    );
    const PARTS: &[Part<'static>] = &[(SCRIPT, Then::Tells(THREE_SERVERS))];
    const FOUR: Settings = Settings {
        servers: 4,
        ..SETTINGS
    };
    plays_parts(&rt, rt.alloc(), &FOUR, PARTS);
}
