//! Nodes that are cleaned up.
use super::{Ask, Row, Told, plays};
use iox_model::reply::Refusal;

#[test]
fn only_the_dead_are_cleaned_up(rt: HostRuntime) {
    const SCRIPT: &[Row<'static>] = &[
        (Ask::Join(2), Told::Node(1)),
        (Ask::Cleanup(1), Told::Refused(Refusal::NodeIsAlive)),
        (Ask::Cleanup(2), Told::Refused(Refusal::UnknownNode)),
        (Ask::Die(1), Told::Done),
        (Ask::Nodes, Told::Listed(&[0, 1])),
        (Ask::Cleanup(1), Told::Done),
        (Ask::Nodes, Told::Listed(&[0])),
        (Ask::Cleanup(1), Told::Refused(Refusal::UnknownNode)),
        (Ask::Cleanup(0), Told::Refused(Refusal::NodeIsAlive)),
        (Ask::Nodes, Told::Listed(&[0])),
    ];
    plays(&rt, rt.alloc(), 20, SCRIPT);
}

#[test]
fn a_dead_server_is_there_until_its_cleanup(rt: HostRuntime) {
    const SCRIPT: &[Row<'static>] = &[
        (Ask::Join(2), Told::Node(1)),
        (Ask::Server(0), Told::Server(0)),
        (Ask::Server(1), Told::Server(1)),
        (Ask::Die(1), Told::Done),
        (Ask::Servers, Told::Listed(&[0, 1])),
        (
            Ask::Server(0),
            Told::Refused(Refusal::ExceedsMaxSupportedServers),
        ),
        (Ask::Cleanup(1), Told::Done),
        (Ask::Servers, Told::Listed(&[0])),
        (Ask::Client(0), Told::Client(2)),
        (Ask::Loan(0, 2), Told::Handle(3)),
        (Ask::Write(0, 3, 9), Told::Done),
        (Ask::Send(0, 3), Told::Sent(1)),
        (Ask::Receive(0, 0), Told::Handle(4)),
        (Ask::Read(0, 4), Told::Words(&[9])),
        (Ask::Response(0, 4, 5), Told::Done),
        (Ask::Receive(0, 3), Told::Handle(5)),
        (Ask::Read(0, 5), Told::Words(&[5])),
        (Ask::Server(0), Told::Server(6)),
        (Ask::Servers, Told::Listed(&[0, 6])),
    ];
    plays(&rt, rt.alloc(), 20, SCRIPT);
}

#[test]
fn the_cleanup_of_the_only_node_closes_the_service(rt: HostRuntime) {
    const SCRIPT: &[Row<'static>] = &[
        (Ask::Client(0), Told::Client(0)),
        (Ask::Server(0), Told::Server(1)),
        (Ask::Die(0), Told::Done),
        (Ask::Closed, Told::Answer(false)),
        (Ask::Nodes, Told::Listed(&[0])),
        (Ask::Clients, Told::Listed(&[0])),
        (Ask::Servers, Told::Listed(&[1])),
        (Ask::Cleanup(0), Told::Done),
        (Ask::Closed, Told::Answer(true)),
        (Ask::Nodes, Told::Listed(&[])),
        (Ask::Clients, Told::Listed(&[])),
        (Ask::Servers, Told::Listed(&[])),
        (Ask::Join(2), Told::Refused(Refusal::MarkedForDestruction)),
        (Ask::Join(0), Told::Refused(Refusal::MarkedForDestruction)),
        (
            Ask::JoinUnfit(2),
            Told::Refused(Refusal::MarkedForDestruction),
        ),
        (Ask::Nodes, Told::Listed(&[])),
        (Ask::Client(0), Told::Refused(Refusal::UnknownNode)),
        (Ask::Leave(0), Told::Refused(Refusal::UnknownNode)),
        (Ask::Die(0), Told::Refused(Refusal::UnknownNode)),
        (Ask::Cleanup(0), Told::Refused(Refusal::UnknownNode)),
        (Ask::Closed, Told::Answer(true)),
    ];
    plays(&rt, rt.alloc(), 20, SCRIPT);
}

#[test]
fn a_node_with_a_value_does_not_leave(rt: HostRuntime) {
    const SCRIPT: &[Row<'static>] = &[
        (Ask::Client(0), Told::Client(0)),
        (Ask::Loan(0, 0), Told::Handle(1)),
        (Ask::Leave(0), Told::Refused(Refusal::HasPorts)),
        // The port's value goes, and a handle of it stays.
        (Ask::Release(0, 0), Told::Done),
        (Ask::Clients, Told::Listed(&[0])),
        (Ask::Leave(0), Told::Refused(Refusal::HasPorts)),
        (Ask::Nodes, Told::Listed(&[0])),
        (Ask::Closed, Told::Answer(false)),
        (Ask::Release(0, 1), Told::Done),
        (Ask::Clients, Told::Listed(&[])),
        (Ask::Leave(0), Told::Done),
        (Ask::Closed, Told::Answer(true)),
        (Ask::Leave(0), Told::Refused(Refusal::UnknownNode)),
    ];
    plays(&rt, rt.alloc(), 20, SCRIPT);
}
