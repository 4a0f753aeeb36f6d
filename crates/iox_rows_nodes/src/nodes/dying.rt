//! Nodes that are dead and not yet cleaned up.
use super::{Ask, Row, Told, plays};
use iox_model::reply::Refusal;

#[test]
fn a_dead_node_asks_nothing_more(rt: HostRuntime) {
    const SCRIPT: &[Row<'static>] = &[
        (Ask::Join(2), Told::Node(1)),
        (Ask::Client(1), Told::Client(0)),
        (Ask::Die(1), Told::Done),
        (Ask::Die(1), Told::Refused(Refusal::NodeIsDead)),
        (Ask::Leave(1), Told::Refused(Refusal::NodeIsDead)),
        (Ask::Server(1), Told::Refused(Refusal::NodeIsDead)),
        (Ask::Loan(1, 0), Told::Refused(Refusal::NodeIsDead)),
        (Ask::Request(1, 0, 5), Told::Refused(Refusal::NodeIsDead)),
        (Ask::Release(1, 0), Told::Refused(Refusal::NodeIsDead)),
        (Ask::Release(1, 9), Told::Refused(Refusal::NodeIsDead)),
        (Ask::Cleanup(1), Told::Done),
        (Ask::Die(1), Told::Refused(Refusal::UnknownNode)),
        (Ask::Leave(1), Told::Refused(Refusal::UnknownNode)),
        (Ask::Server(1), Told::Refused(Refusal::UnknownNode)),
        (Ask::Loan(1, 0), Told::Refused(Refusal::UnknownNode)),
        (Ask::Release(1, 0), Told::Refused(Refusal::UnknownNode)),
        // What was refused used no number.
        (Ask::Client(0), Told::Client(1)),
    ];
    plays(&rt, rt.alloc(), 20, SCRIPT);
}

#[test]
fn a_dead_server_gets_requests_until_its_cleanup(rt: HostRuntime) {
    const SCRIPT: &[Row<'static>] = &[
        (Ask::Join(2), Told::Node(1)),
        (Ask::Client(0), Told::Client(0)),
        (Ask::Server(1), Told::Server(1)),
        (Ask::Request(0, 0, 9), Told::Handle(2)),
        (Ask::Receive(1, 1), Told::Handle(3)),
        (Ask::Die(1), Told::Done),
        (Ask::Receive(0, 1), Told::Refused(Refusal::ForeignNumber)),
        (Ask::Read(0, 3), Told::Refused(Refusal::ForeignNumber)),
        (Ask::Release(0, 3), Told::Refused(Refusal::ForeignNumber)),
        (Ask::Loan(0, 0), Told::Handle(4)),
        (Ask::Send(0, 4), Told::Sent(1)),
        (Ask::Connected(0, 2), Told::Answer(true)),
        (Ask::Connected(0, 4), Told::Answer(true)),
        (Ask::Cleanup(1), Told::Done),
        (Ask::Receive(0, 1), Told::Refused(Refusal::UnknownNumber)),
        (Ask::Read(0, 3), Told::Refused(Refusal::UnknownNumber)),
        (Ask::Release(0, 3), Told::Refused(Refusal::UnknownNumber)),
        (Ask::Connected(0, 2), Told::Answer(false)),
        (Ask::Connected(0, 4), Told::Answer(false)),
        (Ask::Read(0, 2), Told::Words(&[9])),
        (Ask::Loan(0, 0), Told::Handle(5)),
        (Ask::Send(0, 5), Told::Sent(0)),
        (Ask::Connected(0, 5), Told::Answer(false)),
    ];
    plays(&rt, rt.alloc(), 20, SCRIPT);
}

#[test]
fn a_dead_client_gets_responses_until_its_cleanup(rt: HostRuntime) {
    const SCRIPT: &[Row<'static>] = &[
        (Ask::Join(2), Told::Node(1)),
        (Ask::Server(0), Told::Server(0)),
        (Ask::Client(1), Told::Client(1)),
        (Ask::Request(1, 1, 5), Told::Handle(2)),
        (Ask::Request(1, 1, 6), Told::Handle(3)),
        (Ask::Request(1, 1, 7), Told::Handle(4)),
        (Ask::Receive(0, 0), Told::Handle(5)),
        (Ask::Die(1), Told::Done),
        (Ask::Clients, Told::Listed(&[1])),
        (Ask::Release(0, 2), Told::Refused(Refusal::ForeignNumber)),
        (Ask::Connected(0, 5), Told::Answer(true)),
        (Ask::Response(0, 5, 8), Told::Done),
        (Ask::Receive(0, 0), Told::Handle(6)),
        (Ask::Read(0, 6), Told::Words(&[6])),
        (Ask::Cleanup(1), Told::Done),
        (Ask::Clients, Told::Listed(&[])),
        (Ask::Release(0, 2), Told::Refused(Refusal::UnknownNumber)),
        (Ask::Connected(0, 5), Told::Answer(false)),
        (Ask::Connected(0, 6), Told::Answer(false)),
        (Ask::Read(0, 5), Told::Words(&[5])),
        (Ask::Response(0, 5, 8), Told::Done),
        (Ask::HasRequests(0, 0), Told::Answer(false)),
        (Ask::Receive(0, 0), Told::Nothing),
        (Ask::Release(0, 5), Told::Done),
    ];
    plays(&rt, rt.alloc(), 20, SCRIPT);
}

#[test]
fn a_response_of_the_dead_is_received_and_then_no_more(rt: HostRuntime) {
    const SCRIPT: &[Row<'static>] = &[
        (Ask::Join(2), Told::Node(1)),
        (Ask::Client(0), Told::Client(0)),
        (Ask::Server(1), Told::Server(1)),
        (Ask::Request(0, 0, 9), Told::Handle(2)),
        (Ask::Receive(1, 1), Told::Handle(3)),
        (Ask::Response(1, 3, 456), Told::Done),
        (Ask::Die(1), Told::Done),
        (Ask::Receive(0, 2), Told::Handle(4)),
        (Ask::Connected(0, 2), Told::Answer(true)),
        (Ask::Cleanup(1), Told::Done),
        (Ask::Connected(0, 2), Told::Answer(false)),
        (Ask::Receive(0, 2), Told::Nothing),
        (Ask::Servers, Told::Listed(&[])),
        (Ask::Read(0, 4), Told::Words(&[456])),
        (Ask::Release(0, 4), Told::Done),
    ];
    plays(&rt, rt.alloc(), 20, SCRIPT);
}
