//! What an event service was made with.
ghost use Rattle.std.specs.Prelude.{◌≡◌};

use crate::config::Event;
use crate::event_id::EventId;
use std::marker::Model;
use std::time::Duration;

/// The settings of a service.
#[derive(Clone, Copy, Debug, PartialEq, Eq)]
pub struct StaticConfig {
    settings: Event,
}

impl Model for StaticConfig {
    ghost use Rattle.iox_configs.specs.declared.config.patterns.Event.{Event};

    ghost Value = { Event };

    ghost view = { λ it. it.settings };

    ghost inverse = { λ it. record { settings = it } };
}

impl StaticConfig {
    /// The configuration of those settings.
    pub fn new(settings: Event) -> StaticConfig
        ensures settings { result ≡ settings }
    {
        StaticConfig { settings }
    }

    /// All settings of the service.
    pub fn settings(&self) -> &Event
        ensures { result.now ≡ self.now }
    {
        &self.settings
    }

    /// The most notifiers that the service has at once.
    pub fn max_notifiers(&self) -> usize
        ensures { result ≡ self.now.max_notifiers }
    {
        self.settings.max_notifiers
    }

    /// The most listeners that the service has at once.
    pub fn max_listeners(&self) -> usize
        ensures { result ≡ self.now.max_listeners }
    {
        self.settings.max_listeners
    }

    /// The most nodes that the service has at once.
    pub fn max_nodes(&self) -> usize
        ensures { result ≡ self.now.max_nodes }
    {
        self.settings.max_nodes
    }

    /// The greatest number of an event.
    pub fn event_id_max_value(&self) -> usize
        ensures { result ≡ self.now.event_id_max_value }
    {
        self.settings.event_id_max_value
    }

    /// How long after an event the next one comes at the latest, if that is set.
    pub fn deadline(&self) -> Option<Duration>
        ensures { result ≡ self.now.deadline }
    {
        self.settings.deadline
    }

    /// The event that reports a new notifier.
    pub fn notifier_created_event(&self) -> Option<EventId>
        ensures { result ≡ self.now.notifier_created_event }
    {
        self.settings.notifier_created_event
    }

    /// The event that reports that a notifier is gone.
    pub fn notifier_dropped_event(&self) -> Option<EventId>
        ensures { result ≡ self.now.notifier_dropped_event }
    {
        self.settings.notifier_dropped_event
    }

    /// The event that reports that a notifier's node died.
    pub fn notifier_dead_event(&self) -> Option<EventId>
        ensures { result ≡ self.now.notifier_dead_event }
    {
        self.settings.notifier_dead_event
    }
}
