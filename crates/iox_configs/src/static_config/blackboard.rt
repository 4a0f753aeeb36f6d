//! What a blackboard service was made with.
ghost use Rattle.std.specs.Prelude.{◌≡◌};

use crate::config::Blackboard;
use iox_types::TypeDetail;
use std::marker::Model;

/// The type of a service's keys, and its settings.
#[derive(Clone, Copy, Debug, PartialEq, Eq)]
pub struct StaticConfig {
    type_details: TypeDetail,
    settings: Blackboard,
}

impl Model for StaticConfig {
    ghost use Rattle.iox_configs.specs.Services.{BlackboardService};

    ghost Value = { BlackboardService };

    ghost view = { λ it. record { keys = it.type_details; settings = it.settings } };

    ghost inverse = { λ it. record { type_details = it.keys; settings = it.settings } };
}

impl StaticConfig {
    /// The configuration of those types and settings.
    pub fn new(type_details: TypeDetail, settings: Blackboard) -> StaticConfig
        ensures types { result.keys ≡ type_details }
        ensures settings { result.settings ≡ settings }
    {
        StaticConfig {
            type_details,
            settings,
        }
    }

    /// The description of keys.
    pub fn type_details(&self) -> &TypeDetail
        ensures { result.now ≡ self.now.keys }
    {
        &self.type_details
    }

    /// All settings of the service.
    pub fn settings(&self) -> &Blackboard
        ensures { result.now ≡ self.now.settings }
    {
        &self.settings
    }

    /// The most readers that the service has at once.
    pub fn max_readers(&self) -> usize
        ensures { result ≡ self.now.settings.max_readers }
    {
        self.settings.max_readers
    }

    /// The most nodes that the service has at once.
    pub fn max_nodes(&self) -> usize
        ensures { result ≡ self.now.settings.max_nodes }
    {
        self.settings.max_nodes
    }
}
