//! The nodes of a service.
ghost use Rattle.std.specs.Prelude.{◌≡◌, ◌<◌, IfErr, IfOk, None, OnErr, OnOk, Some, false, length, map, nat_le};
ghost use Rattle.std.specs.Fn.{CalledAt};
ghost use Rattle.std.specs.List.{list_any};
ghost use Rattle.std.specs.Option.{option_map};
ghost use Rattle.iox_attributes.specs.Visits.{VisitsInOrder};
ghost use Rattle.iox_model.specs.Joins.{joined, new_node, same_id};
ghost use Rattle.iox_registry.specs.declared.refusals.RegistryNewError.TheVariants as new_errors;
ghost use Rattle.iox_registry.specs.Registers.{limit_refusal, room_of};
ghost use Rattle.iox_registry.specs.Refusals.{IsRefusal};
ghost use Rattle.iox_members.specs.Nodes.{first_members, node_in, node_of, room_in, with_dead};
ghost use Rattle.iox_members.specs.Registering.{AreRegistered, IsSameRegister};
ghost use Rattle.iox_members.specs.Steps.{IsAfterLeaving, IsDeclaredDead, IsJoined, IsLeaving};
ghost use Rattle.iox_members.specs.Steps.{IsRefusedUnlessDead, IsRefusedUnlessLiving};

use crate::lists::{find, has_id, kill, list_ids, numbers_of, remove};
use crate::member::Member;
use iox_model::reply::Refusal;
use iox_registry::dynamic_config::Nodes;
use iox_registry::{RegistryNewError, room};
use iox_types::identifiers::{UniqueNodeId, UniqueSystemId};
use iox_words::CallbackProgression;
use std::alloc::{AllocError, Global};
use std::marker::Model;

/// The nodes of a service that did not leave, dead ones too, in the order in which they joined.
/// Each is registered, and nothing else is.
#[derive(Drop)]
pub struct Members {
    nodes: Vec<Member>,
    // How many nodes ever joined.
    joins: u64,
    registered: Nodes,
    // The most nodes at once: the register has room for as many.
    most: usize,
}

impl Model for Members {
    ghost use Rattle.std.specs.Prelude.{map};
    ghost use Rattle.iox_members.specs.Nodes.{RegisteredMembers, node_of};
    ghost use Rattle.iox_members.specs.Registering.{AreKept};

    ghost Value = { RegisteredMembers };

    ghost view = { λ m. record {
      members = record {
        nodes = map node_of m.nodes.items;
        joins = m.joins;
        closed = m.registered.locked;
      };
      registry = m.registered;
    } };

    ghost invariant = { λ m. AreKept m.nodes.items m.joins m.most m.registered };
}

impl Members {
    /// The nodes of a service of that number as it is created: node 0, with that id. There may be
    /// at most so many at once; a limit of 0 counts as 1.
    pub fn new(
        alloc: Global,
        service: u64,
        id: UniqueNodeId,
        most: usize,
    ) -> Result<Members, RegistryNewError>
        ensures made { IfOk result (λ x. x.members ≡ first_members id) }
        ensures room { IfOk result (λ x. room_in x ≡ room_of most) }
        ensures service { IfOk result (λ x. x.registry.service ≡ service) }
        ensures allowed { OnOk result (limit_refusal most ≡ None) }
        ensures refused { IfErr result (IsRefusal new_errors.WantOfMemory (limit_refusal most)) }
    {
        let mut registered = Nodes::new(alloc, service, most)?;
        let mut nodes = Vec::with_capacity(alloc, 1)?;
        let registration = registered.register_node_id(id).unwrap();
        nodes.push_reserved(Member {
            number: 0,
            id,
            alive: true,
            registration,
        });
        Ok(Members {
            nodes,
            joins: 1,
            registered,
            most: room(most),
        })
    }

    /// Whether the last node is gone, so that nobody may join any more.
    pub fn is_closed(&self) -> bool
        ensures { result ≡ self.now.members.closed }
    {
        self.registered.is_locked()
    }

    /// What is registered: the id of each node. It tells how many there are, and lists them.
    pub fn dynamic_config(&self) -> &Nodes
        ensures registry { result.now ≡ self.now.registry }
        ensures registered { AreRegistered self.now.members self.now.registry }
    {
        &self.registered
    }

    /// The numbers of the nodes, in the order in which they joined.
    pub fn numbers(&self, alloc: Global) -> Result<Vec<u64>, AllocError>
        ensures { IfOk result (λ numbers. numbers.items
            ≡ map (λ m. m.number) self.now.members.nodes) }
    {
        numbers_of(&self.nodes, alloc)
    }

    /// Calls `callback` with the id of each node, in the order in which they joined, as far as it
    /// says `Continue`. It takes no memory.
    pub fn list_ids<F: FnMut(&UniqueNodeId) -> CallbackProgression>(&self, callback: F)
        requires { F.IsAlwaysCallable callback }
        ensures { VisitsInOrder (CalledAt F.FnMut) callback
            (map (λ m. m.id) self.now.members.nodes) }
    {
        list_ids(&self.nodes, callback);
    }

    /// The node of that number.
    fn find(&self, node: u64) -> Option<Member>
        ensures { node_in self.now.members node ≡ option_map node_of result }
    {
        find(&self.nodes, node)
    }

    /// The id of a node that lives, or why it does not.
    pub fn living<C>(&self, node: u64) -> Result<UniqueNodeId, Refusal<C>>
        ensures refused { IsRefusedUnlessLiving self.now.members node result }
        ensures lives { IfOk result (λ id.
            node_in self.now.members node ≡ Some (new_node node id)) }
    {
        let Some(member) = self.find(node) else {
            return Err(Refusal::UnknownNode);
        };
        if !member.alive {
            return Err(Refusal::NodeIsDead);
        }
        Ok(member.id)
    }

    /// Whether a node is dead, or why it is not.
    pub fn dead<C>(&self, node: u64) -> Result<(), Refusal<C>>
        ensures { IsRefusedUnlessDead self.now.members node result }
    {
        let Some(member) = self.find(node) else {
            return Err(Refusal::UnknownNode);
        };
        if member.alive {
            return Err(Refusal::NodeIsAlive);
        }
        Ok(())
    }

    /// Whether a node has that id.
    fn has_id(&self, id: UniqueSystemId) -> bool
        ensures { result ≡ list_any (λ m. same_id m.id id) self.now.members.nodes }
    {
        has_id(&self.nodes, id)
    }

    /// Whether there are as many nodes as there may be.
    fn is_full(&self) -> bool
        ensures { result ≡ nat_le (room_in self.now) (length self.now.members.nodes) }
    {
        self.nodes.len() >= self.most
    }

    /// Lets a node join, and answers its number. `asked` is the first of its tests of types and
    /// attributes that fails. Where there is no memory, or no number is left, it is refused as
    /// `WantOfMemory`. It is registered last, so a refused one leaves nothing.
    pub fn join<C: Copy>(
        &mut self,
        id: UniqueSystemId,
        asked: Option<Refusal<C>>,
    ) -> Result<u64, Refusal<C>>
        ensures joined { IsJoined self.old.members id asked (room_in self.old) result
            self.new.members }
        ensures register { IsSameRegister self.old.registry self.new.registry }
        ensures unchanged { OnErr result (self.new ≡ self.old) }
    {
        if self.is_closed() {
            return Err(Refusal::MarkedForDestruction);
        }
        let Ok(own) = UniqueNodeId::new(id) else {
            return Err(Refusal::InvalidNodeId);
        };
        if self.has_id(id) {
            return Err(Refusal::NodeIdInUse);
        }
        if let Some(refusal) = asked {
            return Err(refusal);
        }
        if self.is_full() {
            return Err(Refusal::ExceedsMaxNumberOfNodes);
        }
        match self.add(own) {
            Ok(number) => Ok(number),
            Err(_) => Err(Refusal::WantOfMemory),
        }
    }

    /// Adds a node that nothing speaks against, and answers its number.
    fn add(&mut self, id: UniqueNodeId) -> Result<u64, AllocError>
        requires open { self.old.members.closed ≡ false }
        requires fresh { list_any (λ m. same_id m.id id) self.old.members.nodes ≡ false }
        requires room { length self.old.members.nodes < room_in self.old }
        ensures added { OnOk result (self.new.members ≡ joined self.old.members id) }
        ensures number { IfOk result (λ number. number ≡ self.old.members.joins) }
        ensures register { IsSameRegister self.old.registry self.new.registry }
        ensures unchanged { OnErr result (self.new ≡ self.old) }
    {
        let number = self.joins;
        if number == u64::MAX {
            return Err(AllocError);
        }
        self.nodes.reserve(1)?;
        let registration = self.registered.register_node_id(id).unwrap();
        self.nodes.push_reserved(Member {
            number,
            id,
            alive: true,
            registration,
        });
        self.joins += 1;
        Ok(number)
    }

    /// Lets a node leave. It is told whether the node has a port or a handle.
    pub fn leave<C>(&mut self, node: u64, has_values: bool) -> Result<(), Refusal<C>>
        ensures left { IsLeaving self.old.members node has_values result self.new.members }
        ensures register { IsSameRegister self.old.registry self.new.registry }
        ensures unchanged { OnErr result (self.new ≡ self.old) }
    {
        if let Err(refusal) = self.living(node) {
            return Err(refusal);
        }
        if has_values {
            return Err(Refusal::HasPorts);
        }
        self.remove(node);
        Ok(())
    }

    /// Removes a node, and releases its registration: nothing else is registered under its id.
    /// Without nodes a service is closed.
    pub fn remove(&mut self, node: u64)
        ensures left { IsAfterLeaving self.old.members node self.new.members }
        ensures register { IsSameRegister self.old.registry self.new.registry }
    {
        let Some(member) = find(&self.nodes, node) else {
            return;
        };
        let _owners = self
            .registered
            .deregister_node_id(member.registration)
            .unwrap();
        remove(&mut self.nodes, node);
    }

    /// Declares a living node dead. It stays registered.
    pub fn declare_dead<C>(&mut self, node: u64) -> Result<(), Refusal<C>>
        ensures declared { IsDeclaredDead self.old.members node result self.new.members }
        ensures registry { self.new.registry ≡ self.old.registry }
        ensures unchanged { OnErr result (self.new ≡ self.old) }
    {
        if let Err(refusal) = self.living(node) {
            return Err(refusal);
        }
        self.kill(node);
        Ok(())
    }

    /// Makes a node dead.
    fn kill(&mut self, node: u64)
        ensures dead { self.new.members ≡ with_dead self.old.members node }
        ensures registry { self.new.registry ≡ self.old.registry }
    {
        kill(&mut self.nodes, node);
    }
}
