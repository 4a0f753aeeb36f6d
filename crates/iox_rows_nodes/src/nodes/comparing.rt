//! What others see of a node that is cleaned up, and of one that releases all and leaves.
use super::service::{SETTINGS, with};
use super::{Ask, Row, Told, Way, goes};
use std::alloc::Global;
use std::process::Abort;

type Script<'a> = &'a [Row<'a>];

/// Asks a new service in this way what these lists say, one behind another.
fn plays_in(rt: &impl Abort, alloc: Global, way: Way, scripts: [Script<'_>; 3]) {
    let mut service = with(rt, alloc, SETTINGS);
    let [before, between, after] = scripts;
    goes(rt, alloc, &mut service, way, before);
    goes(rt, alloc, &mut service, way, between);
    goes(rt, alloc, &mut service, way, after);
}

/// The same in each way.
fn plays(rt: &impl Abort, alloc: Global, scripts: [Script<'_>; 3]) {
    plays_in(rt, alloc, Way::Called, scripts);
    plays_in(rt, alloc, Way::Served, scripts);
    plays_in(rt, alloc, Way::Tried, scripts);
}

/// Node 1 dies and is cleaned up.
const DIES: Script<'static> = &[(Ask::Die(1), Told::Done), (Ask::Cleanup(1), Told::Done)];

#[test]
fn a_server_that_is_cleaned_up_is_as_one_that_leaves(rt: HostRuntime) {
    const BEFORE: Script<'static> = &[
        (Ask::Join(2), Told::Node(1)),
        (Ask::Client(0), Told::Client(0)),
        (Ask::Server(1), Told::Server(1)),
        (Ask::Request(0, 0, 9), Told::Handle(2)),
        (Ask::Request(0, 0, 8), Told::Handle(3)),
        (Ask::Request(0, 0, 7), Told::Handle(4)),
        (Ask::Receive(1, 1), Told::Handle(5)),
        (Ask::Receive(1, 1), Told::Handle(6)),
        (Ask::Response(1, 5, 50), Told::Done),
        (Ask::Response(1, 5, 51), Told::Done),
        (Ask::Response(1, 6, 60), Told::Done),
        (Ask::Loan(1, 6), Told::Handle(7)),
        (Ask::Receive(0, 2), Told::Handle(8)),
    ];
    const AFTER: Script<'static> = &[
        (Ask::Nodes, Told::Listed(&[0])),
        (Ask::Clients, Told::Listed(&[0])),
        (Ask::Servers, Told::Listed(&[])),
        (Ask::Read(0, 8), Told::Words(&[50])),
        (Ask::Connected(0, 2), Told::Answer(false)),
        (Ask::HasResponse(0, 2), Told::Answer(false)),
        (Ask::Receive(0, 2), Told::Nothing),
        (Ask::Receive(0, 3), Told::Nothing),
        (Ask::Connected(0, 4), Told::Answer(false)),
        (Ask::Release(0, 8), Told::Done),
        (Ask::Release(0, 2), Told::Done),
        (Ask::Server(0), Told::Server(9)),
        (Ask::Request(0, 0, 6), Told::Handle(10)),
        (Ask::Receive(0, 9), Told::Handle(11)),
        (Ask::Read(0, 11), Told::Words(&[6])),
        (Ask::Receive(0, 9), Told::Nothing),
    ];
    // Node 1 releases what it has, and leaves.
    const LEAVES: Script<'static> = &[
        (Ask::Release(1, 1), Told::Done),
        (Ask::Release(1, 5), Told::Done),
        (Ask::Release(1, 6), Told::Done),
        (Ask::Release(1, 7), Told::Done),
        (Ask::Leave(1), Told::Done),
    ];
    plays(&rt, rt.alloc(), [BEFORE, DIES, AFTER]);
    plays(&rt, rt.alloc(), [BEFORE, LEAVES, AFTER]);
}

#[test]
fn a_client_that_is_cleaned_up_is_as_one_that_leaves(rt: HostRuntime) {
    const BEFORE: Script<'static> = &[
        (Ask::Join(2), Told::Node(1)),
        (Ask::Server(0), Told::Server(0)),
        (Ask::Client(1), Told::Client(1)),
        (Ask::Request(1, 1, 9), Told::Handle(2)),
        (Ask::Request(1, 1, 8), Told::Handle(3)),
        (Ask::Receive(0, 0), Told::Handle(4)),
        (Ask::Response(0, 4, 50), Told::Done),
        (Ask::Response(0, 4, 51), Told::Done),
        (Ask::Receive(1, 2), Told::Handle(5)),
        (Ask::Loan(1, 1), Told::Handle(6)),
        (Ask::Hint(1, 2), Told::Done),
        (Ask::Hinted(0, 4), Told::Answer(true)),
    ];
    const AFTER: Script<'static> = &[
        (Ask::Nodes, Told::Listed(&[0])),
        (Ask::Clients, Told::Listed(&[])),
        (Ask::Servers, Told::Listed(&[0])),
        (Ask::Read(0, 4), Told::Words(&[9])),
        (Ask::Connected(0, 4), Told::Answer(false)),
        (Ask::HasRequests(0, 0), Told::Answer(false)),
        (Ask::Receive(0, 0), Told::Nothing),
        (Ask::Loan(0, 4), Told::Handle(7)),
        (Ask::Send(0, 7), Told::Done),
        (Ask::Response(0, 4, 52), Told::Done),
        (Ask::Release(0, 4), Told::Done),
        (Ask::Client(0), Told::Client(8)),
        (Ask::Request(0, 8, 6), Told::Handle(9)),
        (Ask::Receive(0, 0), Told::Handle(10)),
        (Ask::Read(0, 10), Told::Words(&[6])),
    ];
    // Node 1 releases what it has, and leaves.
    const LEAVES: Script<'static> = &[
        (Ask::Release(1, 1), Told::Done),
        (Ask::Release(1, 2), Told::Done),
        (Ask::Release(1, 3), Told::Done),
        (Ask::Release(1, 5), Told::Done),
        (Ask::Release(1, 6), Told::Done),
        (Ask::Leave(1), Told::Done),
    ];
    plays(&rt, rt.alloc(), [BEFORE, DIES, AFTER]);
    plays(&rt, rt.alloc(), [BEFORE, LEAVES, AFTER]);
}
