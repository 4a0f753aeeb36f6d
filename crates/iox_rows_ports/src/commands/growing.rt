//! Messages that grow past the greatest length, which is 2.
use super::numbers::{FIRST, plays_with};
use super::{Asked, Given, Told, plays};
use iox_control::Settings;
use iox_model::reply::Refusal;
use iox_types::AllocationStrategy;

/// A client whose messages grow.
const GROWING: Asked = Asked::Client(Given::Allocation(AllocationStrategy::BestFit));

#[test]
fn a_loan_past_the_greatest_length_is_written_sent_and_read(rt: HostRuntime) {
    plays(
        &rt,
        rt.alloc(),
        &[
            (1, Asked::Server, Told::Server(0)),
            (0, GROWING, Told::Client(1)),
            (0, Asked::Loan(1, 33), Told::Handle(2)),
            (0, Asked::Write(2, 5, 33), Told::Done),
            (0, Asked::Send(2), Told::Sent(1)),
            (1, Asked::Receive(0), Told::Handle(3)),
            (1, Asked::Read(3), Told::Words(34, 37)),
        ],
    );
}

#[test]
fn a_copy_past_the_greatest_length_is_read_whole(rt: HostRuntime) {
    plays(
        &rt,
        rt.alloc(),
        &[
            (1, Asked::Server, Told::Server(0)),
            (0, GROWING, Told::Client(1)),
            (0, Asked::Request(1, 9, 40), Told::Handle(2)),
            (1, Asked::Receive(0), Told::Handle(3)),
            (1, Asked::Read(3), Told::Words(41, 48)),
        ],
    );
}

#[test]
fn a_loan_without_a_layout_or_memory_is_refused(rt: HostRuntime) {
    plays(
        &rt,
        rt.alloc(),
        &[
            (0, GROWING, Told::Client(0)),
            (
                0,
                Asked::Loan(0, 1 << 62),
                Told::Refused(Refusal::ExceedsMaxLoanSize),
            ),
            (
                0,
                Asked::Loan(0, 1 << 58),
                Told::Refused(Refusal::WantOfMemory),
            ),
            (0, Asked::Loan(0, 3), Told::Handle(1)),
            (0, Asked::Loan(0, 2), Told::Handle(2)),
            (
                0,
                Asked::Loan(0, 1 << 58),
                Told::Refused(Refusal::ExceedsMaxLoans),
            ),
        ],
    );
}

#[test]
fn a_pool_that_is_dry_is_told_before_want_of_memory(rt: HostRuntime) {
    plays(
        &rt,
        rt.alloc(),
        &[
            (0, Asked::Client(Given::GrowingPool(1)), Told::Client(0)),
            (0, Asked::Loan(0, 1), Told::Handle(1)),
            (
                0,
                Asked::Loan(0, 1 << 58),
                Told::Refused(Refusal::OutOfMemory),
            ),
            (0, Asked::Release(1), Told::Done),
            (
                0,
                Asked::Loan(0, 1 << 58),
                Told::Refused(Refusal::WantOfMemory),
            ),
        ],
    );
}

#[test]
fn the_setting_lets_messages_grow_unless_the_option_says_no(rt: HostRuntime) {
    const SETTINGS: Settings = Settings {
        client_allocation: AllocationStrategy::BestFit,
        ..FIRST
    };
    plays_with(
        &rt,
        rt.alloc(),
        &SETTINGS,
        &[
            (0, Asked::Client(Given::Nothing), Told::Client(0)),
            (0, Asked::Loan(0, 33), Told::Handle(1)),
            (
                0,
                Asked::Client(Given::Allocation(AllocationStrategy::Static)),
                Told::Client(2),
            ),
            (
                0,
                Asked::Loan(2, 33),
                Told::Refused(Refusal::ExceedsMaxLoanSize),
            ),
        ],
    );
}

#[test]
fn a_response_past_the_greatest_length_is_read_whole(rt: HostRuntime) {
    const SETTINGS: Settings = Settings {
        server_allocation: AllocationStrategy::PowerOfTwo,
        ..FIRST
    };
    plays_with(
        &rt,
        rt.alloc(),
        &SETTINGS,
        &[
            (0, Asked::Client(Given::Nothing), Told::Client(0)),
            (1, Asked::Server, Told::Server(1)),
            (0, Asked::Request(0, 7, 1), Told::Handle(2)),
            (1, Asked::Receive(1), Told::Handle(3)),
            (1, Asked::Loan(3, 33), Told::Handle(4)),
            (1, Asked::Send(4), Told::Done),
            (0, Asked::Receive(2), Told::Handle(5)),
            (0, Asked::Read(5), Told::Words(33, 0)),
        ],
    );
}
