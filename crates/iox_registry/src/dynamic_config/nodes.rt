//! The nodes that keep a service.
ghost use Rattle.std.specs.Prelude.{◌≡◌, [], IfErr, IfOk, IsTrue, None, OnErr, OnOk, Some, length};
ghost use Rattle.std.specs.Fn.{CalledAt};
ghost use Rattle.iox_sets.specs.Refusals.{IsRefusal};
ghost use Rattle.iox_registry.specs.declared.refusals.RegistryNewError.TheVariants.{WantOfMemory};
ghost use Rattle.iox_registry.specs.declared.roles.Role.TheVariants.{Node};
ghost use Rattle.iox_registry.specs.Registers.{Adds, KeepsOrLoses, Removes, details_of, limit_refusal, listed, new_register, recovered, register_refusal, release_refusal, remaining};
ghost use Rattle.iox_attributes.specs.Visits.{VisitsInOrder};

use crate::handle::RegistryHandle;
use crate::refusals::{RegisterNodeError, RegistryNewError, ReleaseError};
use crate::register::Register;
use crate::remaining_owners::RemainingOwners;
use crate::roles::Role;
use iox_types::identifiers::UniqueNodeId;
use iox_words::CallbackProgression;
use std::alloc::Global;
use std::marker::Model;

/// The nodes of a service. As the last of them goes, the register is locked for good.
///
/// Memory is taken as it is made, and never again.
#[derive(Debug, Drop)]
pub struct Nodes {
    register: Register<UniqueNodeId>,
}

impl Model for Nodes {
    ghost use Rattle.iox_types.specs.declared.identifiers.system_id.UniqueSystemId.{UniqueSystemId};
    ghost use Rattle.iox_registry.specs.Registers.{Registrations};

    ghost Value = { Registrations UniqueSystemId };

    ghost view = { λ nodes. nodes.register };
}

impl Nodes {
    /// Makes an open register without nodes. A limit of 0 counts as 1.
    pub fn new(alloc: Global, service: u64, max_nodes: usize) -> Result<Nodes, RegistryNewError>
        ensures made { IfOk result (λ nodes. nodes ≡ new_register service Node max_nodes) }
        ensures allowed { OnOk result (limit_refusal max_nodes ≡ None) }
        ensures refused { IfErr result (IsRefusal WantOfMemory (limit_refusal max_nodes)) }
    {
        Ok(Nodes {
            register: Register::new(alloc, service, Role::Node, max_nodes)?,
        })
    }

    /// Registers a node. It is not tested whether the node is registered already.
    pub fn register_node_id(
        &mut self,
        id: UniqueNodeId,
    ) -> Result<RegistryHandle, RegisterNodeError>
        ensures registered { IfOk result (λ handle. Adds id self.old handle self.new) }
        ensures has { IfOk result (λ handle. details_of self.new handle ≡ Some id) }
        ensures handles { KeepsOrLoses self.old self.new }
        ensures refused { IfErr result (λ error. register_refusal self.old ≡ Some error) }
        ensures unchanged { OnErr result (self.new ≡ self.old) }
    {
        Ok(self.register.add(id)?)
    }

    /// Releases a node, and says whether others keep the service.
    pub fn deregister_node_id(
        &mut self,
        handle: RegistryHandle,
    ) -> Result<RemainingOwners, ReleaseError>
        ensures deregistered { OnOk result (Removes handle self.old self.new) }
        ensures gone { OnOk result (details_of self.new handle ≡ None) }
        ensures handles { KeepsOrLoses self.old self.new }
        ensures told { IfOk result (λ owners. owners ≡ remaining self.new) }
        ensures refused { IfErr result (λ error. release_refusal self.old handle ≡ Some error) }
        ensures unchanged { OnErr result (self.new ≡ self.old) }
    {
        self.register.release(handle)?;
        Ok(self.remaining())
    }

    /// Releases all entries of a dead node, and says whether others keep the service.
    pub fn remove_dead_node_id(&mut self, id: &UniqueNodeId) -> RemainingOwners
        ensures recovered { self.new ≡ recovered (λ node. node) id.now self.old }
        ensures handles { KeepsOrLoses self.old self.new }
        ensures told { result ≡ remaining self.new }
    {
        self.register.remove_node(*id);
        self.remaining()
    }

    /// The node that a handle tells.
    pub fn node_id(&self, handle: RegistryHandle) -> Option<UniqueNodeId>
        ensures { result ≡ details_of self.now handle }
    {
        self.register.get(handle)
    }

    /// How many entries there are.
    pub fn number_of_nodes(&self) -> usize
        ensures { result ≡ length (listed self.now) }
    {
        self.register.len()
    }

    /// Calls `callback` with the node of each entry, as far as it says `Continue`.
    pub fn list_node_ids<F: FnMut(&UniqueNodeId) -> CallbackProgression>(&self, callback: F)
        requires { F.IsAlwaysCallable callback }
        ensures { VisitsInOrder (CalledAt F.FnMut) callback (listed self.now) }
    {
        self.register.list(callback)
    }

    /// Whether the last node went, so that none comes any more.
    pub fn is_locked(&self) -> bool
        ensures locked { result ≡ self.now.locked }
        ensures empty { IsTrue result → listed self.now ≡ [] }
    {
        self.register.is_locked()
    }

    /// Whether nodes keep the service.
    fn remaining(&self) -> RemainingOwners
        ensures { result ≡ remaining self.now }
    {
        if self.register.is_locked() {
            RemainingOwners::NoMoreOwners
        } else {
            RemainingOwners::HasOwners
        }
    }
}
