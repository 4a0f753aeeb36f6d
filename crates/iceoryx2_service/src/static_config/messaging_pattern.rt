//! The configuration of a service's messaging pattern.
ghost use Rattle.std.specs.Prelude.{◌≡◌};

use iox_configs::static_config::{blackboard, event, publish_subscribe, request_response};
use iox_names::MessagingPattern as Kind;

/// How a service exchanges messages, and what it was made with.
#[derive(Clone, Copy, Debug, PartialEq, Eq)]
pub enum MessagingPattern {
    /// Clients send requests, and servers answer them.
    RequestResponse(request_response::StaticConfig),
    /// Publishers send samples to all subscribers.
    PublishSubscribe(publish_subscribe::StaticConfig),
    /// Notifiers wake listeners by the number of an event.
    Event(event::StaticConfig),
    /// One writer changes values, and readers look them up by their keys.
    Blackboard(blackboard::StaticConfig),
}

impl MessagingPattern {
    ghost use Rattle.iceoryx2_service.specs.Patterns.{kind_of};

    /// The pattern without its settings.
    pub fn kind(&self) -> Kind
        ensures { result ≡ kind_of self.now }
    {
        match self {
            MessagingPattern::RequestResponse(_) => Kind::RequestResponse,
            MessagingPattern::PublishSubscribe(_) => Kind::PublishSubscribe,
            MessagingPattern::Event(_) => Kind::Event,
            MessagingPattern::Blackboard(_) => Kind::Blackboard,
        }
    }
}
