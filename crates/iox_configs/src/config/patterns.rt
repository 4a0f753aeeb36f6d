//! The settings of one service, by its messaging pattern.
ghost use Rattle.std.specs.Prelude.{◌≡◌};

use crate::event_id::EventId;
use iox_types::{AllocationStrategy, BackpressureStrategy};
use std::time::Duration;

/// How many ports and nodes a request-response service has room for, how many messages each of
/// them may have, and what a sender does where a receiver has no room.
///
/// Messages of a connection that is gone wait for their receiver in an expired connection; a
/// port keeps as many of those as its buffer says, and the oldest makes room.
#[derive(Clone, Copy, Debug, PartialEq, Eq)]
pub struct RequestResonse {
    /// The most clients at once; by default 8.
    pub max_clients: usize,
    /// The most servers at once; by default 2.
    pub max_servers: usize,
    /// The most nodes at once; by default 20.
    pub max_nodes: usize,
    /// The most requests of a client that wait for responses at once; by default 4.
    pub max_active_requests_per_client: usize,
    /// The most requests that a client lends at once; by default 2.
    pub max_loaned_requests: usize,
    /// The most responses that wait for one request, from each server; by default 2.
    pub max_response_buffer_size: usize,
    /// The most responses to one request, from each server, that a client has at once; by default
    /// 2.
    pub max_borrowed_responses_per_pending_response: usize,
    /// The most responses to one request that a server lends at once; by default 2.
    pub server_max_loaned_responses_per_request: usize,
    /// How many expired connections a client keeps; by default 128.
    pub client_expired_connection_buffer: usize,
    /// How many expired connections a server keeps; by default 128.
    pub server_expired_connection_buffer: usize,
    /// Whether a request for a full server pushes the oldest out; by default so.
    pub enable_safe_overflow_for_requests: bool,
    /// Whether a response for a full client pushes the oldest out; by default so.
    pub enable_safe_overflow_for_responses: bool,
    /// Whether a server gets requests whose client waits for no response any more; by default so.
    pub enable_fire_and_forget_requests: bool,
    /// What a client does where a server has no room; by default `RetryUntilDelivered`.
    pub client_backpressure_strategy: BackpressureStrategy,
    /// What a server does where a client has no room; by default `RetryUntilDelivered`.
    pub server_backpressure_strategy: BackpressureStrategy,
    /// Whether requests may grow past a client's greatest length; by default `Static`.
    pub client_allocation_strategy: AllocationStrategy,
    /// Whether responses may grow past a server's greatest length; by default `Static`.
    pub server_allocation_strategy: AllocationStrategy,
}

impl Default for RequestResonse {
    ghost use Rattle.iox_configs.specs.FirstSettings.{first_request_response};

    ghost is_default = { λ it. it ≡ first_request_response };

    fn default() -> RequestResonse {
        RequestResonse {
            max_clients: 8,
            max_servers: 2,
            max_nodes: 20,
            max_active_requests_per_client: 4,
            max_loaned_requests: 2,
            max_response_buffer_size: 2,
            max_borrowed_responses_per_pending_response: 2,
            server_max_loaned_responses_per_request: 2,
            client_expired_connection_buffer: 128,
            server_expired_connection_buffer: 128,
            enable_safe_overflow_for_requests: true,
            enable_safe_overflow_for_responses: true,
            enable_fire_and_forget_requests: true,
            client_backpressure_strategy: BackpressureStrategy::RetryUntilDelivered,
            server_backpressure_strategy: BackpressureStrategy::RetryUntilDelivered,
            client_allocation_strategy: AllocationStrategy::Static,
            server_allocation_strategy: AllocationStrategy::Static,
        }
    }
}

/// How many ports and nodes a publish-subscribe service has room for, and how many samples each
/// of them may have.
#[derive(Clone, Copy, Debug, PartialEq, Eq)]
pub struct PublishSubscribe {
    /// The most publishers at once; by default 2.
    pub max_publishers: usize,
    /// The most subscribers at once; by default 8.
    pub max_subscribers: usize,
    /// The most nodes at once; by default 20.
    pub max_nodes: usize,
    /// How many samples a publisher keeps for subscribers that come later; by default 0.
    pub publisher_history_size: usize,
    /// The most samples that a publisher lends at once; by default 2.
    pub publisher_max_loaned_samples: usize,
    /// The most samples of a publisher that wait for a subscriber; by default 2.
    pub subscriber_max_buffer_size: usize,
    /// The most samples of a publisher that a subscriber has at once; by default 2.
    pub subscriber_max_borrowed_samples: usize,
    /// Whether a sample for a full subscriber pushes the oldest out; by default so.
    pub enable_safe_overflow: bool,
}

impl Default for PublishSubscribe {
    ghost use Rattle.iox_configs.specs.FirstSettings.{first_publish_subscribe};

    ghost is_default = { λ it. it ≡ first_publish_subscribe };

    fn default() -> PublishSubscribe {
        PublishSubscribe {
            max_publishers: 2,
            max_subscribers: 8,
            max_nodes: 20,
            publisher_history_size: 0,
            publisher_max_loaned_samples: 2,
            subscriber_max_buffer_size: 2,
            subscriber_max_borrowed_samples: 2,
            enable_safe_overflow: true,
        }
    }
}

/// The settings of an event service: how many ports and nodes it has room for, the greatest event
/// number, the latest time of an event, and which events report the notifiers themselves.
#[derive(Clone, Copy, Debug, PartialEq, Eq)]
pub struct Event {
    /// The most notifiers at once; by default 16.
    pub max_notifiers: usize,
    /// The most listeners at once; by default 16.
    pub max_listeners: usize,
    /// The most nodes at once; by default 36.
    pub max_nodes: usize,
    /// The greatest number of an event; by default 255.
    pub event_id_max_value: usize,
    /// How long after an event the next one comes at the latest, if that is set; by default it is
    /// not.
    pub deadline: Option<Duration>,
    /// The event that reports a new notifier, if there is one; by default there is none.
    pub notifier_created_event: Option<EventId>,
    /// The event that reports that a notifier is gone, if there is one; by default there is none.
    pub notifier_dropped_event: Option<EventId>,
    /// The event that reports that a notifier's node died, if there is one; by default there is
    /// none.
    pub notifier_dead_event: Option<EventId>,
}

impl Default for Event {
    ghost use Rattle.iox_configs.specs.FirstSettings.{first_event};

    ghost is_default = { λ it. it ≡ first_event };

    fn default() -> Event {
        Event {
            max_notifiers: 16,
            max_listeners: 16,
            max_nodes: 36,
            event_id_max_value: 255,
            deadline: None,
            notifier_created_event: None,
            notifier_dropped_event: None,
            notifier_dead_event: None,
        }
    }
}

/// How many readers and nodes a blackboard service has room for. It has one writer.
#[derive(Clone, Copy, Debug, PartialEq, Eq)]
pub struct Blackboard {
    /// The most readers at once; by default 8.
    pub max_readers: usize,
    /// The most nodes at once; by default 20.
    pub max_nodes: usize,
}

impl Default for Blackboard {
    ghost use Rattle.iox_configs.specs.FirstSettings.{first_blackboard};

    ghost is_default = { λ it. it ≡ first_blackboard };

    fn default() -> Blackboard {
        Blackboard {
            max_readers: 8,
            max_nodes: 20,
        }
    }
}
