//! The description of a service that every node has.
ghost use Rattle.std.specs.Prelude.{◌≡◌};

pub use crate::service_settings::ServiceSettings;
use iox_attributes::{AttributeSet, AttributeSpecifier};
pub use iox_configs::static_config::{blackboard, event, publish_subscribe, request_response};
use iox_names::{ServiceHash, ServiceName};
use iox_types::MessageTypeDetails;
use iox_types::identifiers::UniqueServiceId;
pub use messaging_pattern::MessagingPattern;
use std::marker::Model;

pub mod message_type_details;
mod messaging_pattern;
mod patterns;

/// The description of a service that every node has: who made it and when, its name and hash, its
/// attributes, and the configuration of its messaging pattern.
#[derive(Debug, Drop)]
pub struct StaticConfig {
    service_hash: ServiceHash,
    unique_service_id: UniqueServiceId,
    name: ServiceName,
    messaging_pattern: MessagingPattern,
    specifier: AttributeSpecifier,
}

impl Model for StaticConfig {
    ghost use Rattle.iceoryx2_service.specs.Services.{ServiceDescription};

    ghost Value = { ServiceDescription };

    ghost view = { λ it. record {
      service_hash = it.service_hash;
      unique_service_id = it.unique_service_id;
      name = it.name;
      messaging_pattern = it.messaging_pattern;
      attributes = it.specifier;
    } };

    ghost inverse = { λ it. record {
      service_hash = it.service_hash;
      unique_service_id = it.unique_service_id;
      name = it.name;
      messaging_pattern = it.messaging_pattern;
      specifier = it.attributes;
    } };
}

impl StaticConfig {
    ghost use Rattle.iceoryx2_service.specs.Services.{IsDescribed, requests_of};
    ghost use Rattle.iceoryx2_service.specs.declared.static_config.messaging_pattern.MessagingPattern.TheVariants as patterns;

    /// The configuration of a request-response service.
    pub fn new_request_response(
        settings: &ServiceSettings,
        request: MessageTypeDetails,
        response: MessageTypeDetails,
        specifier: AttributeSpecifier,
        unique_service_id: UniqueServiceId,
    ) -> StaticConfig
        ensures told { IsDescribed result settings.now.name specifier unique_service_id }
        ensures pattern { result.messaging_pattern ≡ requests_of settings.now request response }
    {
        let config = request_response::StaticConfig::new(request, response, settings.limits);
        StaticConfig::new(
            settings.name,
            MessagingPattern::RequestResponse(config),
            specifier,
            unique_service_id,
        )
    }

    /// The configuration of a publish-subscribe service.
    pub fn new_publish_subscribe(
        name: ServiceName,
        config: publish_subscribe::StaticConfig,
        specifier: AttributeSpecifier,
        unique_service_id: UniqueServiceId,
    ) -> StaticConfig
        ensures told { IsDescribed result name specifier unique_service_id }
        ensures pattern { result.messaging_pattern ≡ patterns.PublishSubscribe config }
    {
        let pattern = MessagingPattern::PublishSubscribe(config);
        StaticConfig::new(name, pattern, specifier, unique_service_id)
    }

    /// The configuration of an event service.
    pub fn new_event(
        name: ServiceName,
        config: event::StaticConfig,
        specifier: AttributeSpecifier,
        unique_service_id: UniqueServiceId,
    ) -> StaticConfig
        ensures told { IsDescribed result name specifier unique_service_id }
        ensures pattern { result.messaging_pattern ≡ patterns.Event config }
    {
        let pattern = MessagingPattern::Event(config);
        StaticConfig::new(name, pattern, specifier, unique_service_id)
    }

    /// The configuration of a blackboard service.
    pub fn new_blackboard(
        name: ServiceName,
        config: blackboard::StaticConfig,
        specifier: AttributeSpecifier,
        unique_service_id: UniqueServiceId,
    ) -> StaticConfig
        ensures told { IsDescribed result name specifier unique_service_id }
        ensures pattern { result.messaging_pattern ≡ patterns.Blackboard config }
    {
        let pattern = MessagingPattern::Blackboard(config);
        StaticConfig::new(name, pattern, specifier, unique_service_id)
    }

    fn new(
        name: ServiceName,
        messaging_pattern: MessagingPattern,
        specifier: AttributeSpecifier,
        unique_service_id: UniqueServiceId,
    ) -> StaticConfig
        ensures told { IsDescribed result name specifier unique_service_id }
        ensures pattern { result.messaging_pattern ≡ messaging_pattern }
    {
        StaticConfig {
            service_hash: ServiceHash::new(&name, messaging_pattern.kind()),
            unique_service_id,
            name,
            messaging_pattern,
            specifier,
        }
    }

    /// The attributes of the service.
    pub fn attributes(&self) -> &AttributeSet
        ensures { result.now ≡ self.now.attributes }
    {
        self.specifier.attributes()
    }

    /// The hash by which the service is found.
    pub fn service_hash(&self) -> &ServiceHash
        ensures { result.now ≡ self.now.service_hash }
    {
        &self.service_hash
    }

    /// Who made the service, and when.
    pub fn unique_service_id(&self) -> UniqueServiceId
        ensures { result ≡ self.now.unique_service_id }
    {
        self.unique_service_id
    }

    /// The name of the service.
    pub fn name(&self) -> &ServiceName
        ensures { result.now ≡ self.now.name }
    {
        &self.name
    }

    /// The configuration of the service's messaging pattern.
    pub fn messaging_pattern(&self) -> &MessagingPattern
        ensures { result.now ≡ self.now.messaging_pattern }
    {
        &self.messaging_pattern
    }
}
