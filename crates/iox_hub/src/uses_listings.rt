//! Callers of listings and cleanups, proved only from the clauses of a hub.
ghost use Rattle.std.specs.Prelude.{◌≡◌, ◌≢◌, IfOk, None, ℕ};
ghost use Rattle.iox_model.specs.declared.kind.Kind.{Kind};
ghost use Rattle.iox_model.specs.declared.kind.Role.TheVariants.{Client, Server};
ghost use Rattle.iox_model.specs.Peers.{ports_of_role};
ghost use Rattle.iox_model.specs.Services.{Releases, numbers_of_node};
ghost use Rattle.iox_tables.specs.HubStates.States.{Given};
ghost use Rattle.iox_hub.specs.Hubs.{HasValue, state_of_hub};

use crate::Hub;
use iox_model::kind::{Kind, Role};
use iox_store::One;
use std::alloc::{AllocError, Global};

/// Clients and servers are listed, each by themselves.
pub fn lists_clients_and_servers(
    hub: &Hub<One<u64>, (), One<u64>, ()>,
    alloc: Global,
) -> Result<(Vec<u64>, Vec<u64>), AllocError>
    ensures clients { IfOk result (λ listed. (x : Given)
        → listed.0.items ≡ ports_of_role (state_of_hub x hub.now).fixed Client) }
    ensures servers { IfOk result (λ listed. (x : Given)
        → listed.1.items ≡ ports_of_role (state_of_hub x hub.now).fixed Server) }
{
    let clients = hub.list_ports(alloc, Role::Client)?;
    let servers = hub.list_ports(alloc, Role::Server)?;
    Ok((clients, servers))
}

/// All that a node has is released, so that no number names anything of it then.
pub fn has_nothing_left(
    hub: &mut Hub<One<u64>, (), One<u64>, ()>,
    node: u64,
    number: u64,
) -> Option<Kind>
    ensures released { (x : Given) → Releases (state_of_hub x hub.old) node
        (numbers_of_node (state_of_hub x hub.old).fixed node) (state_of_hub x hub.new) }
    ensures none { result ≡ None }
{
    hub.release_all(node);
    hub.kind(node, number, 0)
}

/// Another node has its values still as all of a node are released.
pub fn keeps_another(hub: &mut Hub<One<u64>, (), One<u64>, ()>, node: u64, other: u64)
    requires { other ≢ node }
    ensures { (n : ℕ) (kind : Kind) → HasValue hub.old other n kind
        → HasValue hub.new other n kind }
{
    hub.release_all(node);
}
