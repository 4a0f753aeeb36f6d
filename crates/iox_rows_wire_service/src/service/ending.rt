//! Nodes that leave, die and are cleaned up.
use super::openers::FITS;
use super::starts::SETTINGS;
use super::{Ask, Part, Row, Then, Told, plays, plays_parts};
use iceoryx2_wire::{Refusal, Settings};

#[test]
fn only_the_dead_are_cleaned_up(rt: HostRuntime) {
    const SCRIPT: &[Row<'static>] = &[
        (Ask::Open(2, FITS), Told::Node(1)),
        (Ask::Cleanup(1), Told::Refused(Refusal::NodeIsAlive)),
        (Ask::Cleanup(2), Told::Refused(Refusal::UnknownNode)),
        (Ask::Nodes, Told::Listed(&[0, 1])),
        (Ask::Die(1), Told::Done),
        (Ask::Die(1), Told::Refused(Refusal::NodeIsDead)),
        (Ask::Nodes, Told::Listed(&[0, 1])),
        (Ask::Cleanup(1), Told::Done),
        (Ask::Cleanup(1), Told::Refused(Refusal::UnknownNode)),
        (Ask::Nodes, Told::Listed(&[0])),
    ];
    plays(&rt, rt.alloc(), &SETTINGS, SCRIPT);
}

#[test]
fn a_dead_node_asks_nothing_more(rt: HostRuntime) {
    const SCRIPT: &[Row<'static>] = &[
        (Ask::Open(2, FITS), Told::Node(1)),
        (Ask::Client(1), Told::Client(0)),
        (Ask::Die(1), Told::Done),
        (Ask::Leave(1), Told::Refused(Refusal::NodeIsDead)),
        (Ask::Server(1), Told::Refused(Refusal::NodeIsDead)),
        (Ask::Loan(1, 0), Told::Refused(Refusal::NodeIsDead)),
        (Ask::Request(1, 0, 5), Told::Refused(Refusal::NodeIsDead)),
        (Ask::Release(1, 0), Told::Refused(Refusal::NodeIsDead)),
        (Ask::Clients, Told::Listed(&[0])),
        (Ask::Cleanup(1), Told::Done),
        (Ask::Leave(1), Told::Refused(Refusal::UnknownNode)),
        (Ask::Server(1), Told::Refused(Refusal::UnknownNode)),
        (Ask::Loan(1, 0), Told::Refused(Refusal::UnknownNode)),
        (Ask::Release(1, 0), Told::Refused(Refusal::UnknownNode)),
        (Ask::Clients, Told::Listed(&[])),
    ];
    plays(&rt, rt.alloc(), &SETTINGS, SCRIPT);
}

#[test]
fn a_node_with_a_value_does_not_leave(rt: HostRuntime) {
    const SCRIPT: &[Row<'static>] = &[
        (Ask::Client(0), Told::Client(0)),
        (Ask::Loan(0, 0), Told::Handle(1)),
        (Ask::Leave(0), Told::Refused(Refusal::HasPorts)),
        // The port's value goes, and a handle of it stays.
        (Ask::Release(0, 0), Told::Done),
        (Ask::Clients, Told::Listed(&[0])),
        (Ask::Leave(0), Told::Refused(Refusal::HasPorts)),
        (Ask::Nodes, Told::Listed(&[0])),
        (Ask::Release(0, 1), Told::Done),
        (Ask::Clients, Told::Listed(&[])),
        (Ask::Leave(0), Told::Done),
        (Ask::Leave(0), Told::Refused(Refusal::UnknownNode)),
    ];
    plays(&rt, rt.alloc(), &SETTINGS, SCRIPT);
}

#[test]
fn a_cleanup_leaves_the_servers_of_others(rt: HostRuntime) {
    const SCRIPT: &[Row<'static>] = &[
        (Ask::Open(2, FITS), Told::Node(1)),
        (Ask::Server(0), Told::Server(0)),
        (Ask::Server(1), Told::Server(1)),
        (Ask::Die(1), Told::Done),
        (Ask::Servers, Told::Listed(&[0, 1])),
        (Ask::Cleanup(1), Told::Done),
        (Ask::Servers, Told::Listed(&[0])),
        (Ask::Client(0), Told::Client(2)),
        (Ask::Request(0, 2, 9), Told::Handle(3)),
        (Ask::Receive(0, 0), Told::Handle(4)),
        (Ask::Read(0, 4), Told::Words(&[9])),
        (Ask::Open(2, FITS), Told::Node(2)),
    ];
    plays(&rt, rt.alloc(), &SETTINGS, SCRIPT);
}

#[test]
fn the_cleanup_of_the_only_node_closes_the_service(rt: HostRuntime) {
    const DIES: &[Row<'static>] = &[
        (Ask::Server(0), Told::Server(0)),
        (Ask::Die(0), Told::Done),
        (Ask::Nodes, Told::Listed(&[0])),
        (Ask::Servers, Told::Listed(&[0])),
    ];
    const CLEANED_UP: &[Row<'static>] = &[
        (Ask::Cleanup(0), Told::Done),
        (Ask::Nodes, Told::Listed(&[])),
        (Ask::Servers, Told::Listed(&[])),
        (
            Ask::Open(2, FITS),
            Told::Refused(Refusal::MarkedForDestruction),
        ),
        (Ask::Client(0), Told::Refused(Refusal::UnknownNode)),
        (Ask::Die(0), Told::Refused(Refusal::UnknownNode)),
    ];
    const PARTS: &[Part<'static>] = &[(DIES, Then::Open), (CLEANED_UP, Then::Closed)];
    plays_parts(&rt, rt.alloc(), &SETTINGS, PARTS);
}

#[test]
fn the_last_node_that_leaves_closes_the_service(rt: HostRuntime) {
    const TWO: Settings = Settings {
        nodes: 2,
        ..SETTINGS
    };
    const SCRIPT: &[Row<'static>] = &[
        (Ask::Open(2, FITS), Told::Node(1)),
        (
            Ask::Open(3, FITS),
            Told::Refused(Refusal::ExceedsMaxNumberOfNodes),
        ),
        (Ask::Leave(0), Told::Done),
        (Ask::Leave(1), Told::Done),
        (
            Ask::Open(3, FITS),
            Told::Refused(Refusal::MarkedForDestruction),
        ),
    ];
    const PARTS: &[Part<'static>] = &[(SCRIPT, Then::Closed)];
    plays_parts(&rt, rt.alloc(), &TWO, PARTS);
}
