//! Callers of the registers: what they rely on follows only from the contracts.
ghost use Rattle.std.specs.Prelude.{◌≡◌, IfOk, IfSome, None, Some, length};
ghost use Rattle.iox_registry.specs.Registers.{listed, recovered};
ghost use Rattle.iox_registry.specs.declared.remaining_owners.RemainingOwners.TheVariants.{NoMoreOwners};

use iox_registry::details::ClientDetails;
use iox_registry::dynamic_config::{DynamicConfig, MessagingPattern, Nodes, request_response};
use iox_registry::{RegisterNodeError, RegistryHandle};
use iox_types::identifiers::UniqueNodeId;

/// What was added is told by its handle.
pub fn added_and_told(
    config: &mut request_response::DynamicConfig,
    details: ClientDetails,
) -> Option<Option<ClientDetails>>
    ensures { IfSome result (λ told. told ≡ Some details) }
{
    let handle = config.add_client_id(details)?;
    Some(config.client_details(handle))
}

/// What was released is told no more.
pub fn released_and_not_told(
    config: &mut request_response::DynamicConfig,
    handle: RegistryHandle,
) -> Option<Option<ClientDetails>>
    ensures { IfSome result (λ told. told ≡ None) }
{
    config.release_client_handle(handle).ok()?;
    Some(config.client_details(handle))
}

/// Clients do not change how many servers there are.
pub fn counts_servers(config: &mut request_response::DynamicConfig, details: ClientDetails) -> usize
    ensures { result ≡ length (listed config.old.servers) }
{
    let _added = config.add_client_id(details);
    config.number_of_servers()
}

/// A node that was registered is told by its handle.
pub fn registered_and_told(
    nodes: &mut Nodes,
    id: UniqueNodeId,
) -> Result<Option<UniqueNodeId>, RegisterNodeError>
    ensures { IfOk result (λ told. told ≡ Some id) }
{
    let handle = nodes.register_node_id(id)?;
    Ok(nodes.node_id(handle))
}

/// A client comes to a request-response service, and no node comes or goes.
pub fn adds_to_a_service(
    config: &mut DynamicConfig,
    details: ClientDetails,
) -> Option<RegistryHandle>
    ensures { config.new.nodes ≡ config.old.nodes }
{
    match &mut config.messaging_pattern {
        MessagingPattern::RequestResponse(ports) => ports.add_client_id(details),
        _ => None,
    }
}

/// A dead node leaves the other nodes of a service.
pub fn counts_the_living(config: &mut DynamicConfig, id: &UniqueNodeId) -> usize
    ensures { result ≡ length (listed (recovered (λ node. node) id.now config.old.nodes)) }
{
    let _owners = config.remove_dead_node_id(id);
    config.nodes.number_of_nodes()
}
