//! Runs of commands, each reply in its order.
use super::numbers::{FIRST, plays_with};
use super::{Asked, Given, Told};
use iox_control::Settings;
use iox_model::reply::Refusal;
use iox_types::BackpressureStrategy;

#[test]
fn a_request_pushes_out_one_that_was_given_up(rt: HostRuntime) {
    const SETTINGS: Settings = Settings {
        active_requests: 1,
        ..FIRST
    };
    plays_with(
        &rt,
        rt.alloc(),
        &SETTINGS,
        &[
            (0, Asked::Client(Given::Nothing), Told::Client(0)),
            (1, Asked::Server, Told::Server(1)),
            (0, Asked::Request(0, 7, 1), Told::Handle(2)),
            (0, Asked::Release(2), Told::Done),
            (0, Asked::Request(0, 8, 1), Told::Handle(3)),
            (1, Asked::Receive(1), Told::Handle(4)),
            (1, Asked::Read(4), Told::Words(1, 8)),
            (1, Asked::Receive(1), Told::Nothing),
        ],
    );
}

#[test]
fn a_second_request_awaits_the_end_of_the_first(rt: HostRuntime) {
    const SETTINGS: Settings = Settings {
        active_requests: 1,
        ..FIRST
    };
    plays_with(
        &rt,
        rt.alloc(),
        &SETTINGS,
        &[
            (0, Asked::Client(Given::Nothing), Told::Client(0)),
            (1, Asked::Server, Told::Server(1)),
            (0, Asked::Request(0, 7, 1), Told::Handle(2)),
            (
                0,
                Asked::Request(0, 8, 1),
                Told::Refused(Refusal::ExceedsMaxActiveRequests),
            ),
            (0, Asked::Release(2), Told::Done),
            (0, Asked::Request(0, 9, 1), Told::Handle(3)),
        ],
    );
}

#[test]
fn two_responses_come_in_their_order_and_then_none(rt: HostRuntime) {
    plays_with(
        &rt,
        rt.alloc(),
        &FIRST,
        &[
            (0, Asked::Client(Given::Nothing), Told::Client(0)),
            (1, Asked::Server, Told::Server(1)),
            (0, Asked::Request(0, 123, 1), Told::Handle(2)),
            (1, Asked::Receive(1), Told::Handle(3)),
            (1, Asked::Response(3, 456), Told::Done),
            (1, Asked::Response(3, 789), Told::Done),
            (0, Asked::Receive(2), Told::Handle(4)),
            (0, Asked::Receive(2), Told::Handle(5)),
            (0, Asked::Receive(2), Told::Nothing),
            (0, Asked::Read(4), Told::Words(1, 456)),
            (0, Asked::Read(5), Told::Words(1, 789)),
        ],
    );
}

/// A server has room for one request of a client, and does not lose it for another. A client
/// discards.
const FULL_AFTER_ONE: Settings = Settings {
    active_requests: 1,
    request_overflow: false,
    client_strategy: BackpressureStrategy::DiscardData,
    ..FIRST
};

#[test]
fn a_refused_copy_uses_no_number(rt: HostRuntime) {
    const SETTINGS: Settings = Settings {
        client_strategy: BackpressureStrategy::RetryUntilDelivered,
        ..FULL_AFTER_ONE
    };
    plays_with(
        &rt,
        rt.alloc(),
        &SETTINGS,
        &[
            (0, Asked::Client(Given::Nothing), Told::Client(0)),
            (1, Asked::Server, Told::Server(1)),
            (0, Asked::Request(0, 5, 1), Told::Handle(2)),
            (0, Asked::Release(2), Told::Done),
            (
                0,
                Asked::Request(0, 6, 1),
                Told::Refused(Refusal::UnableToDeliver),
            ),
            (0, Asked::Loan(0, 1), Told::Handle(3)),
        ],
    );
}

#[test]
fn a_full_server_is_passed_over(rt: HostRuntime) {
    plays_with(
        &rt,
        rt.alloc(),
        &FULL_AFTER_ONE,
        &[
            (0, Asked::Client(Given::Nothing), Told::Client(0)),
            (1, Asked::Server, Told::Server(1)),
            (0, Asked::Request(0, 5, 1), Told::Handle(2)),
            (0, Asked::Release(2), Told::Done),
            (0, Asked::Loan(0, 1), Told::Handle(3)),
            (0, Asked::Write(3, 6, 1), Told::Done),
            (0, Asked::Send(3), Told::Sent(0)),
            (1, Asked::Receive(1), Told::Handle(4)),
            (1, Asked::Read(4), Told::Words(1, 5)),
            (1, Asked::Receive(1), Told::Nothing),
        ],
    );
}

#[test]
fn a_release_makes_room_for_the_next_response(rt: HostRuntime) {
    const SETTINGS: Settings = Settings {
        borrowed_responses: 1,
        ..FIRST
    };
    plays_with(
        &rt,
        rt.alloc(),
        &SETTINGS,
        &[
            (0, Asked::Client(Given::Nothing), Told::Client(0)),
            (1, Asked::Server, Told::Server(1)),
            (0, Asked::Request(0, 1, 1), Told::Handle(2)),
            (1, Asked::Receive(1), Told::Handle(3)),
            (1, Asked::Response(3, 10), Told::Done),
            (1, Asked::Response(3, 11), Told::Done),
            (0, Asked::Receive(2), Told::Handle(4)),
            (
                0,
                Asked::Receive(2),
                Told::Refused(Refusal::ExceedsMaxBorrows),
            ),
            (0, Asked::Release(4), Told::Done),
            (0, Asked::Receive(2), Told::Handle(5)),
            (0, Asked::Read(5), Told::Words(1, 11)),
        ],
    );
}

#[test]
fn a_request_that_was_given_up_is_skipped(rt: HostRuntime) {
    const SETTINGS: Settings = Settings {
        fire_and_forget: false,
        ..FIRST
    };
    plays_with(
        &rt,
        rt.alloc(),
        &SETTINGS,
        &[
            (0, Asked::Client(Given::Nothing), Told::Client(0)),
            (1, Asked::Server, Told::Server(1)),
            (0, Asked::Request(0, 7, 1), Told::Handle(2)),
            (0, Asked::Release(2), Told::Done),
            (1, Asked::HasRequests(1), Told::Answer(true)),
            (1, Asked::Receive(1), Told::Nothing),
            (1, Asked::HasRequests(1), Told::Answer(false)),
        ],
    );
}

#[test]
fn a_client_with_too_many_messages_is_not_made(rt: HostRuntime) {
    const SETTINGS: Settings = Settings {
        loaned_requests: 16_777_215,
        ..FIRST
    };
    plays_with(
        &rt,
        rt.alloc(),
        &SETTINGS,
        &[(
            0,
            Asked::Client(Given::Nothing),
            Told::Refused(Refusal::UnableToCreateDataSegment),
        )],
    );
}

#[test]
fn a_client_with_a_small_pool_in_place_of_too_many_messages_is_made(rt: HostRuntime) {
    const SETTINGS: Settings = Settings {
        loaned_requests: 16_777_215,
        ..FIRST
    };
    plays_with(
        &rt,
        rt.alloc(),
        &SETTINGS,
        &[
            (0, Asked::Client(Given::Pool(1)), Told::Client(0)),
            (
                0,
                Asked::Client(Given::Pool(16_777_215)),
                Told::Refused(Refusal::UnableToCreateDataSegment),
            ),
        ],
    );
}

#[test]
fn a_client_lends_to_no_other_node(rt: HostRuntime) {
    plays_with(
        &rt,
        rt.alloc(),
        &FIRST,
        &[
            (0, Asked::Client(Given::Nothing), Told::Client(0)),
            (1, Asked::Server, Told::Server(1)),
            (1, Asked::Loan(0, 1), Told::Refused(Refusal::ForeignNumber)),
            (0, Asked::Loan(0, 1), Told::Handle(2)),
        ],
    );
}

#[test]
fn a_loan_has_no_more_elements_than_its_client(rt: HostRuntime) {
    plays_with(
        &rt,
        rt.alloc(),
        &FIRST,
        &[
            (0, Asked::Client(Given::Longest(32)), Told::Client(0)),
            (
                0,
                Asked::Loan(0, 33),
                Told::Refused(Refusal::ExceedsMaxLoanSize),
            ),
            (0, Asked::Loan(0, 13), Told::Handle(1)),
            (0, Asked::Write(1, 123, 13), Told::Done),
            (0, Asked::Read(1), Told::Words(13, 135)),
            (
                0,
                Asked::Write(1, 123, 12),
                Told::Refused(Refusal::WrongLength),
            ),
            (0, Asked::Loan(0, 32), Told::Handle(2)),
        ],
    );
}
