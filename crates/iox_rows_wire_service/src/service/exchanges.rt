//! Requests and responses of nodes that opened a service.
use super::openers::FITS;
use super::starts::SETTINGS;
use super::{Ask, Row, Told, plays};
use iceoryx2_wire::Settings;

#[test]
fn a_request_is_answered(rt: HostRuntime) {
    const SCRIPT: &[Row<'static>] = &[
        (Ask::Open(2, FITS), Told::Node(1)),
        (Ask::Client(0), Told::Client(0)),
        (Ask::Server(1), Told::Server(1)),
        (Ask::Request(0, 0, 123), Told::Handle(2)),
        (Ask::Receive(1, 1), Told::Handle(3)),
        (Ask::Read(1, 3), Told::Words(&[123])),
        (Ask::Response(1, 3, 456), Told::Done),
        (Ask::Receive(0, 2), Told::Handle(4)),
        (Ask::Read(0, 4), Told::Words(&[456])),
    ];
    const QUEUES: Settings = Settings {
        request_overflow: false,
        response_overflow: false,
        ..SETTINGS
    };
    plays(&rt, rt.alloc(), &QUEUES, SCRIPT);
}

#[test]
fn a_response_of_the_dead_is_received_and_then_no_more(rt: HostRuntime) {
    const SCRIPT: &[Row<'static>] = &[
        (Ask::Open(2, FITS), Told::Node(1)),
        (Ask::Client(0), Told::Client(0)),
        (Ask::Server(1), Told::Server(1)),
        (Ask::Request(0, 0, 9), Told::Handle(2)),
        (Ask::Receive(1, 1), Told::Handle(3)),
        (Ask::Response(1, 3, 456), Told::Done),
        (Ask::Die(1), Told::Done),
        (Ask::Receive(0, 2), Told::Handle(4)),
        (Ask::Connected(0, 2), Told::Answer(true)),
        (Ask::Cleanup(1), Told::Done),
        (Ask::Connected(0, 2), Told::Answer(false)),
        (Ask::Receive(0, 2), Told::Nothing),
        (Ask::Servers, Told::Listed(&[])),
    ];
    plays(&rt, rt.alloc(), &SETTINGS, SCRIPT);
}

#[test]
fn a_loan_is_filled_and_sent(rt: HostRuntime) {
    const SCRIPT: &[Row<'static>] = &[
        (Ask::Open(2, FITS), Told::Node(1)),
        (Ask::Client(0), Told::Client(0)),
        (Ask::Server(1), Told::Server(1)),
        (Ask::Loan(0, 0), Told::Handle(2)),
        // It holds the default until it is written.
        (Ask::Read(0, 2), Told::Words(&[7])),
        (Ask::Write(0, 2, 8), Told::Done),
        (Ask::Send(0, 2), Told::Sent(1)),
        (Ask::HasRequests(1, 1), Told::Answer(true)),
        (Ask::Receive(1, 1), Told::Handle(3)),
        (Ask::Hint(0, 2), Told::Done),
        (Ask::Hinted(1, 3), Told::Answer(true)),
        (Ask::HasResponse(0, 2), Told::Answer(false)),
        (Ask::Read(1, 3), Told::Words(&[8])),
        (Ask::Clients, Told::Listed(&[0])),
    ];
    plays(&rt, rt.alloc(), &SETTINGS, SCRIPT);
}
