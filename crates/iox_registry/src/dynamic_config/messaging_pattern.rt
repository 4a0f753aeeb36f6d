//! The ports that are registered with a service, by its messaging pattern.
ghost use Rattle.std.specs.Prelude.{◌≡◌};

use super::{blackboard, event, publish_subscribe, request_response};
use iox_types::identifiers::UniqueNodeId;

/// The ports of a service.
#[derive(Debug, Drop)]
pub enum MessagingPattern {
    /// The clients and servers that are registered.
    RequestResponse(request_response::DynamicConfig),
    /// The publishers and subscribers that are registered.
    PublishSubscribe(publish_subscribe::DynamicConfig),
    /// The notifiers and listeners that are registered.
    Event(event::DynamicConfig),
    /// The readers that are registered, and the writer.
    Blackboard(blackboard::DynamicConfig),
}

impl MessagingPattern {
    ghost use Rattle.iox_registry.specs.DynamicConfigs.{without_ports};

    /// Releases all ports of a dead node.
    pub fn remove_dead_node_id(&mut self, id: &UniqueNodeId)
        ensures { self.new ≡ without_ports id.now self.old }
    {
        match self {
            MessagingPattern::RequestResponse(ports) => ports.remove_dead_node_id(id),
            MessagingPattern::PublishSubscribe(ports) => ports.remove_dead_node_id(id),
            MessagingPattern::Event(ports) => ports.remove_dead_node_id(id),
            MessagingPattern::Blackboard(ports) => ports.remove_dead_node_id(id),
        }
    }
}
