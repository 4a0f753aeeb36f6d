//! What a publish-subscribe service was made with.
ghost use Rattle.std.specs.Prelude.{◌≡◌};

use crate::config::PublishSubscribe;
use crate::pools::{number, product, sum};
use iox_types::MessageTypeDetails;
use std::marker::Model;

/// The types of a service's samples, and its settings.
#[derive(Clone, Copy, Debug, PartialEq, Eq)]
pub struct StaticConfig {
    message_type_details: MessageTypeDetails,
    settings: PublishSubscribe,
}

impl Model for StaticConfig {
    ghost use Rattle.iox_configs.specs.Services.{PublishSubscribeService};

    ghost Value = { PublishSubscribeService };

    ghost view = { λ it. record { samples = it.message_type_details; settings = it.settings } };

    ghost inverse = { λ it. record { message_type_details = it.samples; settings = it.settings } };
}

impl StaticConfig {
    ghost use Rattle.iox_types.specs.Layouts.{as_usize};
    ghost use Rattle.iox_configs.specs.Pools.{publisher_samples};

    /// The configuration of those types and settings.
    pub fn new(message_type_details: MessageTypeDetails, settings: PublishSubscribe) -> StaticConfig
        ensures types { result.samples ≡ message_type_details }
        ensures settings { result.settings ≡ settings }
    {
        StaticConfig {
            message_type_details,
            settings,
        }
    }

    /// How many samples the data segment of a publisher needs that lends so many at once; `None`
    /// if that is past `usize::MAX`.
    pub fn required_amount_of_samples_per_data_segment(
        &self,
        publisher_max_loaned_samples: usize,
    ) -> Option<usize>
        ensures { result
            ≡ as_usize (publisher_samples self.now.settings publisher_max_loaned_samples) }
    {
        let settings = &self.settings;
        let each = sum(
            number(settings.subscriber_max_buffer_size),
            number(settings.subscriber_max_borrowed_samples),
        );
        let delivered = product(number(settings.max_subscribers), each);
        let kept = sum(delivered, number(settings.publisher_history_size));
        sum(kept, number(publisher_max_loaned_samples))
    }

    /// The description of samples.
    pub fn message_type_details(&self) -> &MessageTypeDetails
        ensures { result.now ≡ self.now.samples }
    {
        &self.message_type_details
    }

    /// All settings of the service.
    pub fn settings(&self) -> &PublishSubscribe
        ensures { result.now ≡ self.now.settings }
    {
        &self.settings
    }

    /// The most publishers that the service has at once.
    pub fn max_publishers(&self) -> usize
        ensures { result ≡ self.now.settings.max_publishers }
    {
        self.settings.max_publishers
    }

    /// The most subscribers that the service has at once.
    pub fn max_subscribers(&self) -> usize
        ensures { result ≡ self.now.settings.max_subscribers }
    {
        self.settings.max_subscribers
    }

    /// The most nodes that the service has at once.
    pub fn max_nodes(&self) -> usize
        ensures { result ≡ self.now.settings.max_nodes }
    {
        self.settings.max_nodes
    }

    /// How many samples a publisher keeps for subscribers that come later.
    pub fn history_size(&self) -> usize
        ensures { result ≡ self.now.settings.publisher_history_size }
    {
        self.settings.publisher_history_size
    }

    /// The most samples of a publisher that wait for a subscriber.
    pub fn subscriber_max_buffer_size(&self) -> usize
        ensures { result ≡ self.now.settings.subscriber_max_buffer_size }
    {
        self.settings.subscriber_max_buffer_size
    }

    /// The most samples of a publisher that a subscriber has at once.
    pub fn subscriber_max_borrowed_samples(&self) -> usize
        ensures { result ≡ self.now.settings.subscriber_max_borrowed_samples }
    {
        self.settings.subscriber_max_borrowed_samples
    }

    /// Whether a sample for a full subscriber pushes the oldest out.
    pub fn has_safe_overflow(&self) -> bool
        ensures { result ≡ self.now.settings.enable_safe_overflow }
    {
        self.settings.enable_safe_overflow
    }
}
