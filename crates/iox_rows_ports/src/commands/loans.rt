//! Loans from pools of which all messages were somebody's: they are made once enough came back.
use super::{Asked, Given, SETTINGS, Told, plays, plays_in};
use iox_control::Settings;
use iox_model::reply::Refusal;

const DRY: Told = Told::Refused(Refusal::OutOfMemory);

const ALL: Told = Told::Refused(Refusal::ExceedsMaxLoans);

#[test]
fn one_message_comes_back_from_one_server(rt: HostRuntime) {
    plays(
        &rt,
        rt.alloc(),
        &[
            (0, Asked::Client(Given::Pool(1)), Told::Client(0)),
            (1, Asked::Server, Told::Server(1)),
            (0, Asked::Request(0, 5, 1), Told::Handle(2)),
            (1, Asked::Receive(1), Told::Handle(3)),
            (0, Asked::Release(2), Told::Done),
            (0, Asked::Loan(0, 1), DRY),
            (1, Asked::Release(3), Told::Done),
            (0, Asked::Loan(0, 1), Told::Handle(4)),
            (0, Asked::Loan(0, 1), DRY),
        ],
    );
}

#[test]
fn two_messages_come_back_from_one_server(rt: HostRuntime) {
    const TWO: Settings = Settings {
        active_requests: 2,
        ..SETTINGS
    };
    plays_in(
        &rt,
        rt.alloc(),
        &TWO,
        &[
            (0, Asked::Client(Given::Pool(2)), Told::Client(0)),
            (1, Asked::Server, Told::Server(1)),
            (0, Asked::Request(0, 5, 1), Told::Handle(2)),
            (0, Asked::Request(0, 6, 1), Told::Handle(3)),
            (1, Asked::Receive(1), Told::Handle(4)),
            (1, Asked::Receive(1), Told::Handle(5)),
            (0, Asked::Release(2), Told::Done),
            (0, Asked::Release(3), Told::Done),
            (0, Asked::Loan(0, 1), DRY),
            (1, Asked::Release(5), Told::Done),
            (1, Asked::Release(4), Told::Done),
            (0, Asked::Loan(0, 1), Told::Handle(6)),
            (0, Asked::Loan(0, 1), Told::Handle(7)),
            (0, Asked::Loan(0, 1), ALL),
        ],
    );
}

#[test]
fn a_message_comes_back_once_both_servers_gave_it_back(rt: HostRuntime) {
    const TWO_SERVERS: Settings = Settings {
        servers: 2,
        ..SETTINGS
    };
    plays_in(
        &rt,
        rt.alloc(),
        &TWO_SERVERS,
        &[
            (0, Asked::Client(Given::Pool(1)), Told::Client(0)),
            (1, Asked::Server, Told::Server(1)),
            (1, Asked::Server, Told::Server(2)),
            (0, Asked::Request(0, 5, 1), Told::Handle(3)),
            (1, Asked::Receive(1), Told::Handle(4)),
            (1, Asked::Receive(2), Told::Handle(5)),
            (0, Asked::Release(3), Told::Done),
            (1, Asked::Release(4), Told::Done),
            (0, Asked::Loan(0, 1), DRY),
            (1, Asked::Release(5), Told::Done),
            (0, Asked::Loan(0, 1), Told::Handle(6)),
        ],
    );
}

#[test]
fn two_responses_come_back_from_one_client(rt: HostRuntime) {
    plays(
        &rt,
        rt.alloc(),
        &[
            (0, Asked::Client(Given::Nothing), Told::Client(0)),
            (1, Asked::ServerWith(Given::Pool(2)), Told::Server(1)),
            (0, Asked::Request(0, 5, 1), Told::Handle(2)),
            (1, Asked::Receive(1), Told::Handle(3)),
            (1, Asked::Response(3, 10), Told::Done),
            (1, Asked::Response(3, 11), Told::Done),
            (1, Asked::Loan(3, 1), DRY),
            (0, Asked::Receive(2), Told::Handle(4)),
            (0, Asked::Release(4), Told::Done),
            (0, Asked::Receive(2), Told::Handle(5)),
            (0, Asked::Release(5), Told::Done),
            (1, Asked::Loan(3, 1), Told::Handle(6)),
            (1, Asked::Loan(3, 1), Told::Handle(7)),
            (1, Asked::Loan(3, 1), ALL),
        ],
    );
}

#[test]
fn responses_come_back_from_two_clients(rt: HostRuntime) {
    plays(
        &rt,
        rt.alloc(),
        &[
            (0, Asked::Client(Given::Nothing), Told::Client(0)),
            (0, Asked::Client(Given::Nothing), Told::Client(1)),
            (1, Asked::ServerWith(Given::Pool(2)), Told::Server(2)),
            (0, Asked::Request(0, 5, 1), Told::Handle(3)),
            (0, Asked::Request(1, 6, 1), Told::Handle(4)),
            (1, Asked::Receive(2), Told::Handle(5)),
            (1, Asked::Receive(2), Told::Handle(6)),
            (1, Asked::Response(5, 10), Told::Done),
            (1, Asked::Response(6, 11), Told::Done),
            (1, Asked::Loan(5, 1), DRY),
            (0, Asked::Receive(3), Told::Handle(7)),
            (0, Asked::Release(7), Told::Done),
            (0, Asked::Receive(4), Told::Handle(8)),
            (0, Asked::Release(8), Told::Done),
            (1, Asked::Loan(5, 1), Told::Handle(9)),
            (1, Asked::Loan(6, 1), Told::Handle(10)),
            (1, Asked::Loan(6, 1), DRY),
        ],
    );
}
