//! Loans that are sent on their usual way, and others that are not.
use super::numbers::{FIRST, plays_with};
use super::{Asked, Given, Told};
use iox_control::Settings;
use iox_model::reply::Refusal;

#[test]
fn the_only_messages_of_their_pools_are_sent(rt: HostRuntime) {
    plays_with(
        &rt,
        rt.alloc(),
        &FIRST,
        &[
            (0, Asked::Client(Given::Nothing), Told::Client(0)),
            (1, Asked::Server, Told::Server(1)),
            (0, Asked::Loan(0, 1), Told::Handle(2)),
            (0, Asked::Write(2, 5, 1), Told::Done),
            (0, Asked::Send(2), Told::Sent(1)),
            (1, Asked::Receive(1), Told::Handle(3)),
            (1, Asked::Read(3), Told::Words(1, 5)),
            (1, Asked::Receive(1), Told::Nothing),
            (1, Asked::Loan(3, 1), Told::Handle(4)),
            (1, Asked::Send(4), Told::Done),
            (0, Asked::Receive(2), Told::Handle(5)),
            (0, Asked::Read(5), Told::Words(1, 0)),
            (0, Asked::Receive(2), Told::Nothing),
        ],
    );
}

#[test]
fn messages_are_sent_while_others_are_loaned(rt: HostRuntime) {
    plays_with(
        &rt,
        rt.alloc(),
        &FIRST,
        &[
            (0, Asked::Client(Given::Nothing), Told::Client(0)),
            (1, Asked::Server, Told::Server(1)),
            (0, Asked::Loan(0, 1), Told::Handle(2)),
            (0, Asked::Loan(0, 1), Told::Handle(3)),
            (0, Asked::Write(2, 5, 1), Told::Done),
            (0, Asked::Write(3, 6, 1), Told::Done),
            (0, Asked::Send(2), Told::Sent(1)),
            (0, Asked::Send(3), Told::Sent(1)),
            (1, Asked::Receive(1), Told::Handle(4)),
            (1, Asked::Read(4), Told::Words(1, 5)),
            (1, Asked::Loan(4, 1), Told::Handle(5)),
            (1, Asked::Loan(4, 2), Told::Handle(6)),
            (1, Asked::Send(5), Told::Done),
            (1, Asked::Send(6), Told::Done),
            (0, Asked::Receive(2), Told::Handle(7)),
            (0, Asked::Read(7), Told::Words(1, 0)),
            (0, Asked::Receive(2), Told::Handle(8)),
            (0, Asked::Read(8), Told::Words(2, 0)),
            (0, Asked::Receive(3), Told::Nothing),
        ],
    );
}

#[test]
fn a_request_is_sent_to_both_servers(rt: HostRuntime) {
    plays_with(
        &rt,
        rt.alloc(),
        &FIRST,
        &[
            (0, Asked::Client(Given::Nothing), Told::Client(0)),
            (1, Asked::Server, Told::Server(1)),
            (1, Asked::Server, Told::Server(2)),
            (0, Asked::Loan(0, 1), Told::Handle(3)),
            (0, Asked::Write(3, 5, 1), Told::Done),
            (0, Asked::Send(3), Told::Sent(2)),
            (1, Asked::Receive(1), Told::Handle(4)),
            (1, Asked::Read(4), Told::Words(1, 5)),
            (1, Asked::Receive(2), Told::Handle(5)),
            (1, Asked::Read(5), Told::Words(1, 5)),
        ],
    );
}

#[test]
fn a_request_of_the_second_client_goes_to_the_only_server(rt: HostRuntime) {
    plays_with(
        &rt,
        rt.alloc(),
        &FIRST,
        &[
            (0, Asked::Client(Given::Nothing), Told::Client(0)),
            (0, Asked::Client(Given::Nothing), Told::Client(1)),
            (1, Asked::Server, Told::Server(2)),
            (0, Asked::Loan(1, 1), Told::Handle(3)),
            (0, Asked::Write(3, 5, 1), Told::Done),
            (0, Asked::Send(3), Told::Sent(1)),
            (1, Asked::Receive(2), Told::Handle(4)),
            (1, Asked::Loan(4, 1), Told::Handle(5)),
            (1, Asked::Send(5), Told::Done),
            (0, Asked::Receive(3), Told::Handle(6)),
            (0, Asked::Read(6), Told::Words(1, 0)),
        ],
    );
}

#[test]
fn no_more_requests_are_sent_than_may_be_active(rt: HostRuntime) {
    const SETTINGS: Settings = Settings {
        active_requests: 1,
        ..FIRST
    };
    plays_with(
        &rt,
        rt.alloc(),
        &SETTINGS,
        &[
            (0, Asked::Client(Given::Nothing), Told::Client(0)),
            (1, Asked::Server, Told::Server(1)),
            (0, Asked::Loan(0, 1), Told::Handle(2)),
            (0, Asked::Write(2, 5, 1), Told::Done),
            (0, Asked::Send(2), Told::Sent(1)),
            (1, Asked::Receive(1), Told::Handle(3)),
            (1, Asked::Release(3), Told::Done),
            (0, Asked::Loan(0, 1), Told::Handle(4)),
            (0, Asked::Write(4, 6, 1), Told::Done),
            (
                0,
                Asked::Send(4),
                Told::Refused(Refusal::ExceedsMaxActiveRequests),
            ),
            (1, Asked::Receive(1), Told::Nothing),
        ],
    );
}
