//! The first settings of every messaging pattern.
ghost use Rattle.std.specs.Prelude.{◌≡◌};

use crate::config::patterns::{Blackboard, Event, PublishSubscribe, RequestResonse};

/// The settings of each messaging pattern.
#[derive(Clone, Copy, Debug, PartialEq, Eq)]
pub struct Defaults {
    /// Of a service with clients and servers.
    pub request_response: RequestResonse,
    /// Of a service with publishers and subscribers.
    pub publish_subscribe: PublishSubscribe,
    /// Of a service with notifiers and listeners.
    pub event: Event,
    /// Of a service with a writer and readers.
    pub blackboard: Blackboard,
}

impl Default for Defaults {
    ghost use Rattle.iox_configs.specs.FirstSettings.{first_settings};

    ghost is_default = { λ it. it ≡ first_settings };

    fn default() -> Defaults {
        Defaults {
            request_response: RequestResonse::default(),
            publish_subscribe: PublishSubscribe::default(),
            event: Event::default(),
            blackboard: Blackboard::default(),
        }
    }
}
