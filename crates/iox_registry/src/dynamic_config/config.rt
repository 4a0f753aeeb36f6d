//! All that is registered with one service.
ghost use Rattle.std.specs.Prelude.{◌≡◌, IfErr, IfOk, None, OnOk};
ghost use Rattle.iox_sets.specs.Refusals.{IsRefusal};
ghost use Rattle.iox_registry.specs.declared.refusals.RegistryNewError.TheVariants.{WantOfMemory};
ghost use Rattle.iox_registry.specs.declared.roles.Role.TheVariants.{Node};
ghost use Rattle.iox_registry.specs.DynamicConfigs.{config_refusal, new_board, new_events, new_requests, new_samples, without_ports};
ghost use Rattle.iox_registry.specs.Registers.{KeepsOrLoses, limit_refusal, limits_refusal, new_register, recovered, remaining};

use super::{MessagingPattern, Nodes, blackboard, event, publish_subscribe, request_response};
use crate::refusals::RegistryNewError;
use crate::register::check_limit;
use crate::remaining_owners::RemainingOwners;
use iox_types::identifiers::UniqueNodeId;
use std::alloc::Global;

/// The nodes of a service and its ports, each by its own calls. Memory is taken as it is made, and
/// never again.
#[derive(Debug, Drop)]
pub struct DynamicConfig {
    /// The nodes that opened the service. They are locked once the last of them goes.
    pub nodes: Nodes,
    /// The ports of the service, of the two kinds that its messaging pattern has.
    pub messaging_pattern: MessagingPattern,
}

impl DynamicConfig {
    /// Makes the registers of a request-response service. A limit of 0 counts as 1.
    pub fn new_request_response(
        alloc: Global,
        service: u64,
        max_nodes: usize,
        max_clients: usize,
        max_servers: usize,
    ) -> Result<DynamicConfig, RegistryNewError>
        ensures nodes { IfOk result (λ c. c.nodes ≡ new_register service Node max_nodes) }
        ensures ports { IfOk result (λ c. c.messaging_pattern
            ≡ new_requests service max_clients max_servers) }
        ensures allowed { OnOk result
            (config_refusal max_nodes (limits_refusal max_clients max_servers) ≡ None) }
        ensures refused { IfErr result (IsRefusal WantOfMemory
            (config_refusal max_nodes (limits_refusal max_clients max_servers))) }
    {
        check_limit(max_nodes)?;
        let ports = request_response::DynamicConfig::new(alloc, service, max_clients, max_servers)?;
        Ok(DynamicConfig {
            nodes: Nodes::new(alloc, service, max_nodes)?,
            messaging_pattern: MessagingPattern::RequestResponse(ports),
        })
    }

    /// Makes the registers of a publish-subscribe service. A limit of 0 counts as 1.
    pub fn new_publish_subscribe(
        alloc: Global,
        service: u64,
        max_nodes: usize,
        max_publishers: usize,
        max_subscribers: usize,
    ) -> Result<DynamicConfig, RegistryNewError>
        ensures nodes { IfOk result (λ c. c.nodes ≡ new_register service Node max_nodes) }
        ensures ports { IfOk result (λ c. c.messaging_pattern
            ≡ new_samples service max_publishers max_subscribers) }
        ensures allowed { OnOk result
            (config_refusal max_nodes (limits_refusal max_publishers max_subscribers) ≡ None) }
        ensures refused { IfErr result (IsRefusal WantOfMemory
            (config_refusal max_nodes (limits_refusal max_publishers max_subscribers))) }
    {
        check_limit(max_nodes)?;
        let ports = publish_subscribe::DynamicConfig::new(
            alloc,
            service,
            max_publishers,
            max_subscribers,
        )?;
        Ok(DynamicConfig {
            nodes: Nodes::new(alloc, service, max_nodes)?,
            messaging_pattern: MessagingPattern::PublishSubscribe(ports),
        })
    }

    /// Makes the registers of an event service. A limit of 0 counts as 1.
    pub fn new_event(
        alloc: Global,
        service: u64,
        max_nodes: usize,
        max_notifiers: usize,
        max_listeners: usize,
    ) -> Result<DynamicConfig, RegistryNewError>
        ensures nodes { IfOk result (λ c. c.nodes ≡ new_register service Node max_nodes) }
        ensures ports { IfOk result (λ c. c.messaging_pattern
            ≡ new_events service max_notifiers max_listeners) }
        ensures allowed { OnOk result
            (config_refusal max_nodes (limits_refusal max_notifiers max_listeners) ≡ None) }
        ensures refused { IfErr result (IsRefusal WantOfMemory
            (config_refusal max_nodes (limits_refusal max_notifiers max_listeners))) }
    {
        check_limit(max_nodes)?;
        let ports = event::DynamicConfig::new(alloc, service, max_notifiers, max_listeners)?;
        Ok(DynamicConfig {
            nodes: Nodes::new(alloc, service, max_nodes)?,
            messaging_pattern: MessagingPattern::Event(ports),
        })
    }

    /// Makes the registers of a blackboard service. A limit of 0 counts as 1.
    pub fn new_blackboard(
        alloc: Global,
        service: u64,
        max_nodes: usize,
        max_readers: usize,
    ) -> Result<DynamicConfig, RegistryNewError>
        ensures nodes { IfOk result (λ c. c.nodes ≡ new_register service Node max_nodes) }
        ensures ports { IfOk result (λ c. c.messaging_pattern ≡ new_board service max_readers) }
        ensures allowed { OnOk result
            (config_refusal max_nodes (limits_refusal max_readers 1) ≡ None) }
        ensures refused { IfErr result (IsRefusal WantOfMemory
            (config_refusal max_nodes (limits_refusal max_readers 1))) }
    {
        check_limit(max_nodes)?;
        let ports = blackboard::DynamicConfig::new(alloc, service, max_readers)?;
        Ok(DynamicConfig {
            nodes: Nodes::new(alloc, service, max_nodes)?,
            messaging_pattern: MessagingPattern::Blackboard(ports),
        })
    }

    /// Releases all that a dead node had registered, its ports too, and says whether others keep
    /// the service.
    pub fn remove_dead_node_id(&mut self, id: &UniqueNodeId) -> RemainingOwners
        ensures nodes { self.new.nodes ≡ recovered (λ node. node) id.now self.old.nodes }
        ensures ports { self.new.messaging_pattern
            ≡ without_ports id.now self.old.messaging_pattern }
        ensures handles { KeepsOrLoses self.old.nodes self.new.nodes }
        ensures told { result ≡ remaining self.new.nodes }
    {
        self.messaging_pattern.remove_dead_node_id(id);
        self.nodes.remove_dead_node_id(id)
    }
}
