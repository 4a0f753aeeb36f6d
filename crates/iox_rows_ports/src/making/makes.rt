use crate::control::{Deed, plays};
use iox_control::Settings;
use iox_control_making::NotMade;
use iox_model::kind::Role;
use iox_types::{AllocationStrategy, BackpressureStrategy};

const SETTINGS: Settings = Settings {
    clients: 1,
    servers: 2,
    nodes: 2,
    active_requests: 4,
    loaned_requests: 2,
    response_buffer: 2,
    borrowed_responses: 3,
    loaned_responses: 2,
    client_expired: 0,
    server_expired: 0,
    request_overflow: true,
    response_overflow: true,
    fire_and_forget: true,
    client_strategy: BackpressureStrategy::DiscardData,
    server_strategy: BackpressureStrategy::DiscardData,
    client_allocation: AllocationStrategy::Static,
    server_allocation: AllocationStrategy::Static,
};

#[test]
fn a_client_and_a_server_are_made(rt: HostRuntime) {
    plays(
        &rt,
        rt.alloc(),
        &SETTINGS,
        &[
            Deed::Makes(0, Role::Client, 5, false, Ok(0)),
            // Of its own messages: no server is there yet.
            Deed::Room(5),
            Deed::Makes(1, Role::Server, 9, false, Ok(1)),
            // Of both, and of what may be received: 3 responses to each of 5 requests, and 4
            // requests.
            Deed::Room(33),
            Deed::PortsMade(2),
            Deed::NextNumber(2),
            Deed::PoolLen(0, 5),
            Deed::PoolLen(1, 9),
        ],
    );
}

#[test]
fn what_there_is_too_much_of_is_refused(rt: HostRuntime) {
    plays(
        &rt,
        rt.alloc(),
        &SETTINGS,
        &[
            Deed::Makes(0, Role::Client, 5, true, Err(NotMade::DataSegment)),
            Deed::Makes(0, Role::Client, 5, false, Ok(0)),
            Deed::Makes(0, Role::Client, 5, false, Err(NotMade::TooManyPorts)),
            Deed::PortsMade(1),
        ],
    );
}
