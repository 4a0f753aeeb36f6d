//! What is refused at a limit.
use super::{Asked, Given, Told, plays};
use iox_model::reply::Refusal;

#[test]
fn the_third_loan_of_two_is_refused(rt: HostRuntime) {
    plays(
        &rt,
        rt.alloc(),
        &[
            (0, Asked::Client(Given::Nothing), Told::Client(0)),
            (0, Asked::Loan(0, 1), Told::Handle(1)),
            (0, Asked::Loan(0, 1), Told::Handle(2)),
            (
                0,
                Asked::Loan(0, 1),
                Told::Refused(Refusal::ExceedsMaxLoans),
            ),
        ],
    );
}

#[test]
fn a_loan_from_a_pool_of_one_is_the_only_one(rt: HostRuntime) {
    plays(
        &rt,
        rt.alloc(),
        &[
            (0, Asked::Client(Given::Pool(1)), Told::Client(0)),
            (0, Asked::Request(0, 122, 2), Told::Handle(1)),
            (
                0,
                Asked::Request(0, 122, 2),
                Told::Refused(Refusal::OutOfMemory),
            ),
        ],
    );
}

#[test]
fn the_second_loan_from_a_pool_of_one_finds_none(rt: HostRuntime) {
    plays(
        &rt,
        rt.alloc(),
        &[
            (0, Asked::Client(Given::Pool(1)), Told::Client(0)),
            (0, Asked::Loan(0, 1), Told::Handle(1)),
            (0, Asked::Loan(0, 1), Told::Refused(Refusal::OutOfMemory)),
        ],
    );
}

#[test]
fn a_second_active_request_of_one_is_refused(rt: HostRuntime) {
    plays(
        &rt,
        rt.alloc(),
        &[
            (0, Asked::Client(Given::Nothing), Told::Client(0)),
            (0, Asked::Request(0, 122, 2), Told::Handle(1)),
            (
                0,
                Asked::Request(0, 122, 2),
                Told::Refused(Refusal::ExceedsMaxActiveRequests),
            ),
        ],
    );
}

#[test]
fn a_request_to_a_full_server_is_refused(rt: HostRuntime) {
    plays(
        &rt,
        rt.alloc(),
        &[
            (0, Asked::Client(Given::Nothing), Told::Client(0)),
            (1, Asked::Server, Told::Server(1)),
            (0, Asked::Request(0, 122, 2), Told::Handle(2)),
            (0, Asked::Release(2), Told::Done),
            (
                0,
                Asked::Request(0, 122, 2),
                Told::Refused(Refusal::UnableToDeliver),
            ),
        ],
    );
}

#[test]
fn a_second_response_of_one_is_not_lent_out(rt: HostRuntime) {
    plays(
        &rt,
        rt.alloc(),
        &[
            (0, Asked::Client(Given::Nothing), Told::Client(0)),
            (1, Asked::Server, Told::Server(1)),
            (0, Asked::Request(0, 122, 2), Told::Handle(2)),
            (1, Asked::Receive(1), Told::Handle(3)),
            (1, Asked::Response(3, 10), Told::Done),
            (1, Asked::Response(3, 11), Told::Done),
            (0, Asked::Receive(2), Told::Handle(4)),
            (
                0,
                Asked::Receive(2),
                Told::Refused(Refusal::ExceedsMaxBorrows),
            ),
        ],
    );
}
