//! Loans past the greatest length, which is 1.
use super::service::SETTINGS;
use super::{Ask, Row, Told, plays, plays_with};
use iox_control::Settings;
use iox_model::reply::Refusal;
use iox_types::AllocationStrategy;

#[test]
fn a_loan_past_the_greatest_length_grows_where_the_service_says_so(rt: HostRuntime) {
    const GROWING: Settings = Settings {
        client_allocation: AllocationStrategy::BestFit,
        ..SETTINGS
    };
    const SCRIPT: &[Row<'static>] = &[
        (Ask::Client(0), Told::Client(0)),
        (Ask::LongLoan(0, 0), Told::Handle(1)),
        (Ask::Loan(0, 0), Told::Handle(2)),
        (Ask::LongLoan(0, 0), Told::Refused(Refusal::ExceedsMaxLoans)),
    ];
    plays_with(&rt, rt.alloc(), GROWING, SCRIPT);
}

#[test]
fn a_loan_past_the_greatest_length_is_refused_elsewhere(rt: HostRuntime) {
    const SCRIPT: &[Row<'static>] = &[
        (Ask::Client(0), Told::Client(0)),
        (
            Ask::LongLoan(0, 0),
            Told::Refused(Refusal::ExceedsMaxLoanSize),
        ),
    ];
    plays(&rt, rt.alloc(), 20, SCRIPT);
}
