//! Configurations: what no clause says, and each function once.
mod defaults;
mod patterns;

use iox_configs::config::{Blackboard, PublishSubscribe, RequestResonse};
use iox_types::{AllocationStrategy, BackpressureStrategy};

/// The documented first settings of a request-response service.
const REQUESTS: RequestResonse = RequestResonse {
    max_clients: 8,
    max_servers: 2,
    max_nodes: 20,
    max_active_requests_per_client: 4,
    max_loaned_requests: 2,
    max_response_buffer_size: 2,
    max_borrowed_responses_per_pending_response: 2,
    server_max_loaned_responses_per_request: 2,
    client_expired_connection_buffer: 128,
    server_expired_connection_buffer: 128,
    enable_safe_overflow_for_requests: true,
    enable_safe_overflow_for_responses: true,
    enable_fire_and_forget_requests: true,
    client_backpressure_strategy: BackpressureStrategy::RetryUntilDelivered,
    server_backpressure_strategy: BackpressureStrategy::RetryUntilDelivered,
    client_allocation_strategy: AllocationStrategy::Static,
    server_allocation_strategy: AllocationStrategy::Static,
};

/// Those of a publish-subscribe service.
const SAMPLES: PublishSubscribe = PublishSubscribe {
    max_publishers: 2,
    max_subscribers: 8,
    max_nodes: 20,
    publisher_history_size: 0,
    publisher_max_loaned_samples: 2,
    subscriber_max_buffer_size: 2,
    subscriber_max_borrowed_samples: 2,
    enable_safe_overflow: true,
};

/// Those of a blackboard service.
const BLACKBOARD: Blackboard = Blackboard {
    max_readers: 8,
    max_nodes: 20,
};
