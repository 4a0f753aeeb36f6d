//! The configuration of a service whose pattern the caller knows.
ghost use Rattle.std.specs.Prelude.{◌≡◌};

use super::{
    MessagingPattern, StaticConfig, blackboard, event, publish_subscribe, request_response,
};

impl StaticConfig {
    ghost use Rattle.iceoryx2_service.specs.Patterns.{kind_of};
    ghost use Rattle.iox_names.specs.declared.messaging_pattern.MessagingPattern.TheVariants as kinds;
    ghost use Rattle.iceoryx2_service.specs.declared.static_config.messaging_pattern.MessagingPattern.TheVariants as patterns;

    /// The configuration of a request-response service. The service has to be one:
    /// `messaging_pattern` says which it is.
    pub fn request_response(&self) -> &request_response::StaticConfig
        requires { kind_of self.now.messaging_pattern ≡ kinds.RequestResponse }
        ensures { self.now.messaging_pattern ≡ patterns.RequestResponse result.now }
    {
        match &self.messaging_pattern {
            MessagingPattern::RequestResponse(config) => config,
            _ => unreachable!(),
        }
    }

    /// The configuration of a publish-subscribe service. The service has to be one:
    /// `messaging_pattern` says which it is.
    pub fn publish_subscribe(&self) -> &publish_subscribe::StaticConfig
        requires { kind_of self.now.messaging_pattern ≡ kinds.PublishSubscribe }
        ensures { self.now.messaging_pattern ≡ patterns.PublishSubscribe result.now }
    {
        match &self.messaging_pattern {
            MessagingPattern::PublishSubscribe(config) => config,
            _ => unreachable!(),
        }
    }

    /// The configuration of an event service. The service has to be one: `messaging_pattern` says
    /// which it is.
    pub fn event(&self) -> &event::StaticConfig
        requires { kind_of self.now.messaging_pattern ≡ kinds.Event }
        ensures { self.now.messaging_pattern ≡ patterns.Event result.now }
    {
        match &self.messaging_pattern {
            MessagingPattern::Event(config) => config,
            _ => unreachable!(),
        }
    }

    /// The configuration of a blackboard service. The service has to be one: `messaging_pattern`
    /// says which it is.
    pub fn blackboard(&self) -> &blackboard::StaticConfig
        requires { kind_of self.now.messaging_pattern ≡ kinds.Blackboard }
        ensures { self.now.messaging_pattern ≡ patterns.Blackboard result.now }
    {
        match &self.messaging_pattern {
            MessagingPattern::Blackboard(config) => config,
            _ => unreachable!(),
        }
    }
}
