//! Services to begin with.
use super::TheService;
use iox_control::Settings;
use iox_model::reply::Refusal;
use iox_nodes::{MessageShape, Part};
use iox_types::identifiers::UniqueSystemId;
use iox_types::{AllocationStrategy, BackpressureStrategy};
use std::alloc::Global;
use std::process::Abort;

/// The defaults, with 20 nodes at most.
pub(super) const SETTINGS: Settings = Settings {
    clients: 8,
    servers: 2,
    nodes: 20,
    active_requests: 4,
    loaned_requests: 2,
    response_buffer: 2,
    borrowed_responses: 2,
    loaned_responses: 2,
    client_expired: 0,
    server_expired: 0,
    request_overflow: true,
    response_overflow: true,
    fire_and_forget: true,
    client_strategy: BackpressureStrategy::RetryUntilDelivered,
    server_strategy: BackpressureStrategy::RetryUntilDelivered,
    client_allocation: AllocationStrategy::Static,
    server_allocation: AllocationStrategy::Static,
};

/// The defaults, but for the nodes.
pub(super) fn settings(nodes: u64) -> Settings {
    Settings { nodes, ..SETTINGS }
}

const PART: Part = Part {
    size: 8,
    alignment: 8,
};

/// The id N 0 0 0.
pub(super) fn id(process: u32) -> UniqueSystemId {
    UniqueSystemId {
        process,
        seconds: 0,
        nanoseconds: 0,
        counter: 0,
    }
}

/// A service with these settings, or why it is refused. Its first node has that id, and the default
/// of an element is 7.
pub(super) fn new(
    alloc: Global,
    settings: Settings,
    id: UniqueSystemId,
    asked: Option<Refusal<u64>>,
) -> Result<TheService, Refusal<u64>> {
    let shape: MessageShape<u64, ()> = MessageShape {
        default: Some(7),
        user_header: (),
        header_part: PART,
        user_part: PART,
        element_part: PART,
    };
    TheService::new(alloc, 7, settings, id, asked, shape, shape)
}

/// A service with these settings, whose first node has the id 1 0 0 0.
pub(super) fn with(rt: &impl Abort, alloc: Global, settings: Settings) -> TheService {
    new(alloc, settings, id(1), None).expect(rt, "a service")
}
