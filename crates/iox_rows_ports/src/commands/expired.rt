//! What is waiting of ports that are gone.
use super::{Asked, Given, Row, SETTINGS, Told, plays_both, plays_in};
use iox_control::Settings;
use iox_model::reply::Refusal;

/// Servers 1 and 2 receive the request of client 0, and answer with 10 and 20.
const ANSWERS: &[Row] = &[
    (0, Asked::Client(Given::Nothing), Told::Client(0)),
    (1, Asked::Server, Told::Server(1)),
    (1, Asked::Server, Told::Server(2)),
    (0, Asked::Request(0, 122, 2), Told::Handle(3)),
    (1, Asked::Receive(1), Told::Handle(4)),
    (1, Asked::Receive(2), Told::Handle(5)),
    (1, Asked::Response(4, 10), Told::Done),
    (1, Asked::Response(5, 20), Told::Done),
    // The first releases all that it has, and then the second.
    (1, Asked::Release(4), Told::Done),
    (1, Asked::Release(1), Told::Done),
    (1, Asked::Release(5), Told::Done),
    (1, Asked::Release(2), Told::Done),
];

#[test]
fn with_room_for_one_the_younger_answer_is_received(rt: HostRuntime) {
    const KEEPING: Settings = keeping!(1, 0);
    plays_both(
        &rt,
        rt.alloc(),
        &KEEPING,
        ANSWERS,
        &[
            (0, Asked::Receive(3), Told::Handle(6)),
            (0, Asked::Read(6), Told::Words(1, 20)),
            (0, Asked::Receive(3), Told::Nothing),
        ],
    );
}

#[test]
fn with_room_for_two_both_answers_are_received(rt: HostRuntime) {
    const KEEPING: Settings = keeping!(2, 0);
    plays_both(
        &rt,
        rt.alloc(),
        &KEEPING,
        ANSWERS,
        &[
            (0, Asked::HasResponse(3), Told::Answer(true)),
            (0, Asked::Receive(3), Told::Handle(6)),
            (0, Asked::Read(6), Told::Words(1, 10)),
            (0, Asked::Receive(3), Told::Handle(7)),
            (0, Asked::Read(7), Told::Words(1, 20)),
            (0, Asked::Receive(3), Told::Nothing),
        ],
    );
}

#[test]
fn without_room_no_answer_is_received(rt: HostRuntime) {
    const KEEPING: Settings = keeping!(0, 0);
    plays_both(
        &rt,
        rt.alloc(),
        &KEEPING,
        ANSWERS,
        &[
            (0, Asked::HasResponse(3), Told::Answer(false)),
            (0, Asked::Receive(3), Told::Nothing),
        ],
    );
}

#[test]
fn what_was_received_stays_when_its_pair_gives_way(rt: HostRuntime) {
    const KEEPING: Settings = keeping!(1, 0);
    plays_in(
        &rt,
        rt.alloc(),
        &KEEPING,
        &[
            (0, Asked::Client(Given::Nothing), Told::Client(0)),
            (1, Asked::Server, Told::Server(1)),
            (1, Asked::Server, Told::Server(2)),
            (0, Asked::Request(0, 122, 2), Told::Handle(3)),
            (1, Asked::Receive(1), Told::Handle(4)),
            (1, Asked::Receive(2), Told::Handle(5)),
            (1, Asked::Response(4, 10), Told::Done),
            (1, Asked::Response(5, 20), Told::Done),
            (1, Asked::Release(4), Told::Done),
            (1, Asked::Release(1), Told::Done),
            // The pair of server 1 is emptied, and keeps its place until server 2 is gone too.
            (0, Asked::Receive(3), Told::Handle(6)),
            (1, Asked::Release(5), Told::Done),
            (1, Asked::Release(2), Told::Done),
            (0, Asked::Read(6), Told::Words(1, 10)),
            (0, Asked::Receive(3), Told::Handle(7)),
            (0, Asked::Read(7), Told::Words(1, 20)),
            (0, Asked::Release(6), Told::Done),
            (0, Asked::Release(7), Told::Done),
        ],
    );
}

#[test]
fn a_pair_that_is_emptied_keeps_its_place(rt: HostRuntime) {
    const THREE: Settings = Settings {
        servers: 3,
        active_requests: 2,
        client_expired: 2,
        ..SETTINGS
    };
    plays_in(
        &rt,
        rt.alloc(),
        &THREE,
        &[
            (0, Asked::Client(Given::Nothing), Told::Client(0)),
            (1, Asked::Server, Told::Server(1)),
            (1, Asked::Server, Told::Server(2)),
            (1, Asked::Server, Told::Server(3)),
            (0, Asked::Request(0, 122, 2), Told::Handle(4)),
            (1, Asked::Receive(1), Told::Handle(5)),
            (1, Asked::Receive(3), Told::Handle(6)),
            (0, Asked::Request(0, 222, 2), Told::Handle(7)),
            // The second server has the first request too, before the other one.
            (1, Asked::Receive(2), Told::Handle(8)),
            (1, Asked::Receive(2), Told::Handle(9)),
            // Servers 1 and 3 answer the first request, and server 2 the other one.
            (1, Asked::Response(5, 10), Told::Done),
            (1, Asked::Response(9, 20), Told::Done),
            (1, Asked::Response(6, 30), Told::Done),
            (1, Asked::Release(5), Told::Done),
            (1, Asked::Release(1), Told::Done),
            (1, Asked::Release(8), Told::Done),
            (1, Asked::Release(9), Told::Done),
            (1, Asked::Release(2), Told::Done),
            // The pair of server 2 is emptied. It still takes one of the two places, so the oldest,
            // which is that of server 1, is given up for that of server 3.
            (0, Asked::Receive(7), Told::Handle(10)),
            (0, Asked::Read(10), Told::Words(1, 20)),
            (1, Asked::Release(6), Told::Done),
            (1, Asked::Release(3), Told::Done),
            (0, Asked::Receive(4), Told::Handle(11)),
            (0, Asked::Read(11), Told::Words(1, 30)),
            (0, Asked::Receive(4), Told::Nothing),
            (0, Asked::Receive(7), Told::Nothing),
        ],
    );
}

#[test]
fn each_pair_has_its_own_count_of_what_is_borrowed(rt: HostRuntime) {
    const KEEPING: Settings = keeping!(1, 0);
    plays_in(
        &rt,
        rt.alloc(),
        &KEEPING,
        &[
            (0, Asked::Client(Given::Nothing), Told::Client(0)),
            (1, Asked::Server, Told::Server(1)),
            (1, Asked::Server, Told::Server(2)),
            (0, Asked::Request(0, 122, 2), Told::Handle(3)),
            (1, Asked::Receive(1), Told::Handle(4)),
            (1, Asked::Receive(2), Told::Handle(5)),
            (1, Asked::Response(4, 10), Told::Done),
            (1, Asked::Response(4, 11), Told::Done),
            (1, Asked::Response(5, 20), Told::Done),
            (1, Asked::Release(4), Told::Done),
            (1, Asked::Release(1), Told::Done),
            // One of each pair may be borrowed: of server 1, which is gone, and of server 2.
            (0, Asked::Receive(3), Told::Handle(6)),
            (0, Asked::Read(6), Told::Words(1, 10)),
            (0, Asked::Receive(3), Told::Handle(7)),
            (0, Asked::Read(7), Told::Words(1, 20)),
            (
                0,
                Asked::Receive(3),
                Told::Refused(Refusal::ExceedsMaxBorrows),
            ),
            (0, Asked::Release(6), Told::Done),
            (0, Asked::Receive(3), Told::Handle(8)),
            (0, Asked::Read(8), Told::Words(1, 11)),
        ],
    );
}

/// A client sends a request and goes.
const ASKS: &[Row] = &[
    (0, Asked::Client(Given::Nothing), Told::Client(0)),
    (1, Asked::Server, Told::Server(1)),
    (0, Asked::Request(0, 122, 2), Told::Handle(2)),
    (0, Asked::Release(2), Told::Done),
    (0, Asked::Release(0), Told::Done),
    (1, Asked::HasRequests(1), Told::Answer(true)),
    (1, Asked::Receive(1), Told::Handle(3)),
    (1, Asked::Read(3), Told::Words(3, 123)),
    (1, Asked::IsConnected(3), Told::Answer(false)),
    (1, Asked::Receive(1), Told::Nothing),
    (1, Asked::Release(3), Told::Done),
];

#[test]
fn a_server_receives_the_request_of_a_client_that_is_gone(rt: HostRuntime) {
    const KEEPING: Settings = keeping!(0, 1);
    plays_in(&rt, rt.alloc(), &KEEPING, ASKS);
}

#[test]
fn a_server_keeps_no_request_where_it_is_not_to_be_forgotten(rt: HostRuntime) {
    const FORGETTING: Settings = Settings {
        servers: 2,
        server_expired: 1,
        fire_and_forget: false,
        ..SETTINGS
    };
    plays_in(
        &rt,
        rt.alloc(),
        &FORGETTING,
        &[
            (0, Asked::Client(Given::Nothing), Told::Client(0)),
            (1, Asked::Server, Told::Server(1)),
            (0, Asked::Request(0, 122, 2), Told::Handle(2)),
            (0, Asked::Release(2), Told::Done),
            (0, Asked::Release(0), Told::Done),
            (1, Asked::HasRequests(1), Told::Answer(false)),
            (1, Asked::Receive(1), Told::Nothing),
        ],
    );
}
