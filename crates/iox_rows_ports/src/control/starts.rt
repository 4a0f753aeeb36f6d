use super::{Deed, plays};
use iox_control::Settings;
use iox_types::{AllocationStrategy, BackpressureStrategy};

const SETTINGS: Settings = Settings {
    clients: 2,
    servers: 2,
    nodes: 2,
    active_requests: 4,
    loaned_requests: 2,
    response_buffer: 2,
    borrowed_responses: 2,
    loaned_responses: 2,
    client_expired: 0,
    server_expired: 0,
    request_overflow: true,
    response_overflow: true,
    fire_and_forget: true,
    client_strategy: BackpressureStrategy::DiscardData,
    server_strategy: BackpressureStrategy::DiscardData,
    client_allocation: AllocationStrategy::Static,
    server_allocation: AllocationStrategy::Static,
};

#[test]
fn a_new_hub_has_no_handle(rt: HostRuntime) {
    plays(&rt, rt.alloc(), &SETTINGS, &[Deed::Entry(None)]);
}
