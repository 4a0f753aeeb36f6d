//! In which order what is waiting of ports that are gone is received, and what of it stays.
use super::{Asked, Given, Row, SETTINGS, Told, plays_both, plays_in};
use iox_control::Settings;
use iox_model::reply::Refusal;

#[test]
fn the_gone_come_before_the_connected_and_the_first_that_went_before_others(rt: HostRuntime) {
    const THREE: Settings = Settings {
        servers: 3,
        client_expired: 2,
        ..SETTINGS
    };
    plays_in(
        &rt,
        rt.alloc(),
        &THREE,
        &[
            (0, Asked::Client(Given::Nothing), Told::Client(0)),
            (1, Asked::Server, Told::Server(1)),
            (1, Asked::Server, Told::Server(2)),
            (1, Asked::Server, Told::Server(3)),
            (0, Asked::Request(0, 122, 2), Told::Handle(4)),
            (1, Asked::Receive(1), Told::Handle(5)),
            (1, Asked::Receive(2), Told::Handle(6)),
            (1, Asked::Receive(3), Told::Handle(7)),
            (1, Asked::Response(5, 10), Told::Done),
            (1, Asked::Response(6, 20), Told::Done),
            (1, Asked::Response(7, 30), Told::Done),
            // Server 3 goes, and then server 2.
            (1, Asked::Release(7), Told::Done),
            (1, Asked::Release(3), Told::Done),
            (1, Asked::Release(6), Told::Done),
            (1, Asked::Release(2), Told::Done),
            (0, Asked::Receive(4), Told::Handle(8)),
            (0, Asked::Read(8), Told::Words(1, 30)),
            (0, Asked::Receive(4), Told::Handle(9)),
            (0, Asked::Read(9), Told::Words(1, 20)),
            (0, Asked::Receive(4), Told::Handle(10)),
            (0, Asked::Read(10), Told::Words(1, 10)),
            (0, Asked::Receive(4), Told::Nothing),
        ],
    );
}

#[test]
fn a_server_receives_of_the_gone_before_the_connected(rt: HostRuntime) {
    const KEEPING: Settings = keeping!(0, 2);
    plays_in(
        &rt,
        rt.alloc(),
        &KEEPING,
        &[
            (0, Asked::Client(Given::Nothing), Told::Client(0)),
            (0, Asked::Client(Given::Nothing), Told::Client(1)),
            (1, Asked::Server, Told::Server(2)),
            (0, Asked::Request(0, 122, 2), Told::Handle(3)),
            (0, Asked::Request(1, 222, 2), Told::Handle(4)),
            (0, Asked::Release(4), Told::Done),
            (0, Asked::Release(1), Told::Done),
            (1, Asked::Receive(2), Told::Handle(5)),
            (1, Asked::Read(5), Told::Words(3, 223)),
            (1, Asked::Receive(2), Told::Handle(6)),
            (1, Asked::Read(6), Told::Words(3, 123)),
        ],
    );
}

/// A client receives the only answer of a server, which then goes: nothing of it is kept.
const TAKEN: &[Row] = &[
    (0, Asked::Client(Given::Nothing), Told::Client(0)),
    (1, Asked::Server, Told::Server(1)),
    (0, Asked::Request(0, 122, 2), Told::Handle(2)),
    (1, Asked::Receive(1), Told::Handle(3)),
    (1, Asked::Response(3, 10), Told::Done),
    (0, Asked::Receive(2), Told::Handle(4)),
    (1, Asked::Release(3), Told::Done),
    (1, Asked::Release(1), Told::Done),
    (0, Asked::Read(4), Told::Words(1, 10)),
    (0, Asked::Receive(2), Told::Nothing),
    (0, Asked::Read(4), Told::Words(1, 10)),
    (0, Asked::Release(4), Told::Done),
];

#[test]
fn what_was_received_stays_though_its_pair_is_not_kept(rt: HostRuntime) {
    const KEEPING: Settings = keeping!(2, 0);
    plays_in(&rt, rt.alloc(), &KEEPING, TAKEN);
}

#[test]
fn what_was_received_stays_where_no_pair_is_kept(rt: HostRuntime) {
    const KEEPING: Settings = keeping!(0, 0);
    plays_in(&rt, rt.alloc(), &KEEPING, TAKEN);
}

/// What is waiting of server 1 is an answer to a request that was given up, and what is waiting of
/// server 2 one to a later request. Server 2 goes, and then server 1.
const STALE: &[Row] = &[
    (0, Asked::Client(Given::Nothing), Told::Client(0)),
    (1, Asked::Server, Told::Server(1)),
    (1, Asked::Server, Told::Server(2)),
    (0, Asked::Request(0, 122, 2), Told::Handle(3)),
    (1, Asked::Receive(1), Told::Handle(4)),
    (1, Asked::Receive(2), Told::Handle(5)),
    (1, Asked::Response(4, 10), Told::Done),
    (0, Asked::Release(3), Told::Done),
    (0, Asked::Request(0, 222, 2), Told::Handle(6)),
    (1, Asked::Receive(2), Told::Handle(7)),
    (1, Asked::Response(7, 20), Told::Done),
    (1, Asked::Release(5), Told::Done),
    (1, Asked::Release(7), Told::Done),
    (1, Asked::Release(2), Told::Done),
    (1, Asked::Release(4), Told::Done),
    (1, Asked::Release(1), Told::Done),
];

#[test]
fn a_stale_message_keeps_a_pair_in_place_of_an_older_one(rt: HostRuntime) {
    const KEEPING: Settings = Settings {
        active_requests: 2,
        ..keeping!(1, 0)
    };
    plays_both(
        &rt,
        rt.alloc(),
        &KEEPING,
        STALE,
        &[(0, Asked::Receive(6), Told::Nothing)],
    );
}

#[test]
fn with_room_for_both_the_older_one_is_received(rt: HostRuntime) {
    const KEEPING: Settings = Settings {
        active_requests: 2,
        ..keeping!(2, 0)
    };
    plays_both(
        &rt,
        rt.alloc(),
        &KEEPING,
        STALE,
        &[
            (0, Asked::Receive(6), Told::Handle(8)),
            (0, Asked::Read(8), Told::Words(1, 20)),
            (0, Asked::Receive(6), Told::Nothing),
        ],
    );
}

#[test]
fn room_for_what_is_kept_is_taken_as_a_port_is_made(rt: HostRuntime) {
    const KEEPING: Settings = keeping!(1 << 60, 0);
    plays_in(
        &rt,
        rt.alloc(),
        &KEEPING,
        &[
            (
                0,
                Asked::Client(Given::Nothing),
                Told::Refused(Refusal::UnableToCreateDataSegment),
            ),
            (1, Asked::Server, Told::Server(0)),
        ],
    );
}
