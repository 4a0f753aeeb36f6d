use crate::control::{Deed, plays};
use iox_control::Settings;
use iox_control_lending::LoanRefusal;
use iox_model::kind::Role;
use iox_types::{AllocationStrategy, BackpressureStrategy};

/// One request may be on loan.
const SETTINGS: Settings = Settings {
    clients: 1,
    servers: 1,
    nodes: 1,
    active_requests: 4,
    loaned_requests: 1,
    response_buffer: 2,
    borrowed_responses: 2,
    loaned_responses: 0,
    client_expired: 0,
    server_expired: 0,
    request_overflow: true,
    response_overflow: true,
    fire_and_forget: true,
    client_strategy: BackpressureStrategy::DiscardData,
    server_strategy: BackpressureStrategy::DiscardData,
    client_allocation: AllocationStrategy::Static,
    server_allocation: AllocationStrategy::Static,
};

#[test]
fn loans_are_refused_by_length_size_and_count(rt: HostRuntime) {
    plays(
        &rt,
        rt.alloc(),
        &SETTINGS,
        &[
            Deed::Lends(Role::Client, 8, true, None),
            Deed::Lends(Role::Client, 8, false, Some(LoanRefusal::WrongLength)),
            Deed::Lends(Role::Client, 9, true, Some(LoanRefusal::ExceedsMaxLoanSize)),
            Deed::Lends(Role::Server, 8, true, Some(LoanRefusal::ExceedsMaxLoans)),
        ],
    );
}

#[test]
fn a_new_hub_has_nothing_on_loan(rt: HostRuntime) {
    plays(&rt, rt.alloc(), &SETTINGS, &[Deed::OnLoan([0, 0, 0, 0])]);
}

#[test]
fn the_lowest_lane_of_a_new_hub_is_free(rt: HostRuntime) {
    plays(
        &rt,
        rt.alloc(),
        &SETTINGS,
        &[
            Deed::IsLaneTaken(false),
            Deed::FreeLane(2, Some(0)),
            Deed::FreeLane(0, None),
        ],
    );
}
