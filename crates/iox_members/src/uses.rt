//! Callers of the nodes, with no proof of their own.
ghost use Rattle.std.specs.Prelude.{◌≡◌, ◌∷◌, [], IfOk, None, OnErr, false, length};
ghost use Rattle.iox_model.specs.Joins.{new_node};
ghost use Rattle.iox_members.specs.Nodes.{room_in};
ghost use Rattle.iox_members.specs.Registers.{listed};
ghost use Rattle.iox_members.specs.Registering.{AreRegistered};
ghost use Rattle.iox_members.specs.Steps.{IsJoined, IsLeaving};

use crate::members::Members;
use iox_model::reply::Refusal;
use iox_registry::RegistryNewError;
use iox_types::identifiers::{UniqueNodeId, UniqueSystemId};
use std::alloc::Global;

/// The first node of service 7 is node 0, and there may be 20 nodes.
pub fn first(alloc: Global, id: UniqueNodeId) -> Result<Members, RegistryNewError>
    ensures node { IfOk result (λ x. x.members.nodes ≡ new_node 0 id ∷ []) }
    ensures room { IfOk result (λ x. room_in x ≡ 20) }
{
    Members::new(alloc, 7, id, 20)
}

/// A node that has nothing leaves.
pub fn leaves_with_nothing(members: &mut Members, node: u64) -> Result<(), Refusal<u64>>
    ensures { IsLeaving members.old.members node false result members.new.members }
{
    members.leave(node, false)
}

/// A node joins, of which nothing is asked. A refused one leaves what is registered as it was.
pub fn joins(members: &mut Members, id: UniqueSystemId) -> Result<u64, Refusal<u64>>
    ensures joined { IsJoined members.old.members id None (room_in members.old) result
        members.new.members }
    ensures unchanged { OnErr result (members.new.registry ≡ members.old.registry) }
{
    members.join(id, None)
}

/// How many nodes are registered. They are those of the service.
pub fn registered(members: &Members) -> usize
    ensures number { result ≡ length (listed members.now.registry) }
    ensures registered { AreRegistered members.now.members members.now.registry }
{
    members.dynamic_config().number_of_nodes()
}
