//! What is registered with a service in one role.
ghost use Rattle.std.specs.Prelude.{◌≡◌, ◌↔◌, [], IfErr, IfOk, IsTrue, None, OnErr, OnOk, Some, length};
ghost use Rattle.std.specs.Fn.{CalledAt};
ghost use Rattle.iox_sets.specs.Refusals.{IsRefusal};
ghost use Rattle.iox_registry.specs.declared.refusals.RegistryNewError.TheVariants.{WantOfMemory};
ghost use Rattle.iox_registry.specs.Registers.{Adds, KeepsOrLoses, Removes, add_refusal, details_of, is_own, limit_refusal, listed, new_register, recovered, release_refusal, room_of};
ghost use Rattle.iox_attributes.specs.Visits.{VisitsInOrder};

use crate::handle::RegistryHandle;
use crate::has_node::HasNode;
use crate::refusals::{AddFailure, RegistryNewError, ReleaseError};
use crate::registered::{Registered, forget, owner_for, owner_of};
use crate::roles::Role;
use iox_container::mpmc::container::Container;
use iox_types::identifiers::UniqueNodeId;
use iox_words::CallbackProgression;
use std::alloc::Global;
use std::marker::Model;

const MAX_ROOM: usize = (1 << 24) - 2;

/// What is registered in one role. It takes memory when it is made, and never again.
///
/// The container has the owners and the tickets, and knows when to lock. An owner's number is the
/// ticket of the first entry that the node had since it had none.
#[derive(Debug, Drop)]
pub(crate) struct Register<D: HasNode> {
    service: u64,
    role: Role,
    container: Container<()>,
    slots: Vec<Option<Registered<D>>>,
    next_ticket: u64,
}

impl<D: HasNode> Model for Register<D> {
    ghost use Rattle.iox_registry.specs.Registers.{Registrations};
    ghost use Rattle.iox_registry.specs.Standing.{IsStanding, register_in};

    ghost Value = { Registrations D };

    ghost view = { λ r.
        register_in r.service r.role r.slots.items r.container.locked r.next_ticket };

    ghost invariant = { λ r. IsStanding D.node r.container r.service r.next_ticket r.slots.items };
}

impl<D: HasNode> Register<D> {
    /// Makes an open register without entries. A limit of 0 counts as 1.
    pub(crate) fn new(
        alloc: Global,
        service: u64,
        role: Role,
        limit: usize,
    ) -> Result<Register<D>, RegistryNewError>
        ensures made { IfOk result (λ register. register ≡ new_register service role limit) }
        ensures allowed { OnOk result (limit_refusal limit ≡ None) }
        ensures refused { IfErr result (IsRefusal WantOfMemory (limit_refusal limit)) }
    {
        check_limit(limit)?;
        let room = room(limit);
        let Ok(container) = Container::new(alloc, room, service) else {
            return Err(RegistryNewError::WantOfMemory);
        };
        let slots = vec![in alloc; None; room]?;
        Ok(Register {
            service,
            role,
            container,
            slots,
            next_ticket: 0,
        })
    }

    /// How many entries there are.
    pub(crate) fn len(&self) -> usize
        ensures { result ≡ length (listed self.now) }
    {
        self.container.len()
    }

    /// Whether nothing is added any more.
    pub(crate) fn is_locked(&self) -> bool
        ensures locked { result ≡ self.now.locked }
        ensures empty { IsTrue result → listed self.now ≡ [] }
    {
        self.container.is_locked()
    }

    /// The details that a handle tells.
    pub(crate) fn get(&self, handle: RegistryHandle) -> Option<D>
        ensures { result ≡ details_of self.now handle }
    {
        let slot = handle.entry.index();
        if !self.is_own(handle) || slot >= self.slots.len() {
            return None;
        }
        match self.slots[slot] {
            Some(kept) if kept.ticket == handle.ticket => Some(kept.details),
            _ => None,
        }
    }

    /// Calls `callback` with all details, as far as it says `Continue`.
    pub(crate) fn list<F: FnMut(&D) -> CallbackProgression>(&self, mut callback: F)
        requires { F.IsAlwaysCallable callback }
        ensures { VisitsInOrder (CalledAt F.FnMut) callback (listed self.now) }
    {
        let mut rest = self.slots.as_slice();
        while let Some((first, later)) = rest.split_first() {
            rest = later;
            let Some(kept) = first else {
                continue;
            };
            if callback(&kept.details) == CallbackProgression::Stop {
                return;
            }
        }
    }

    /// Adds details.
    pub(crate) fn add(&mut self, details: D) -> Result<RegistryHandle, AddFailure>
        ensures added { IfOk result (λ handle. Adds details self.old handle self.new) }
        ensures has { IfOk result (λ handle. details_of self.new handle ≡ Some details) }
        ensures handles { KeepsOrLoses self.old self.new }
        ensures refused { IfErr result (λ failure. add_refusal self.old ≡ Some failure) }
        ensures unchanged { OnErr result (self.new ≡ self.old) }
    {
        if let Some(failure) = self.add_refusal() {
            return Err(failure);
        }
        let ticket = self.next_ticket;
        let entries = self.len();
        let owner = owner_for(self.slots.as_slice(), entries, details.node_id(), ticket);
        let entry = self.container.add((), owner).unwrap();
        self.slots[entry.index()] = Some(Registered {
            details,
            owner,
            ticket,
        });
        self.next_ticket += 1;
        Ok(RegistryHandle {
            service: self.service,
            role: self.role,
            ticket,
            entry,
        })
    }

    /// Releases what a handle tells.
    pub(crate) fn release(&mut self, handle: RegistryHandle) -> Result<(), ReleaseError>
        ensures released { OnOk result (Removes handle self.old self.new) }
        ensures gone { OnOk result (details_of self.new handle ≡ None) }
        ensures handles { KeepsOrLoses self.old self.new }
        ensures refused { IfErr result (λ error. release_refusal self.old handle ≡ Some error) }
        ensures unchanged { OnErr result (self.new ≡ self.old) }
    {
        if !self.is_own(handle) {
            return Err(ReleaseError::Foreign);
        }
        match self.container.remove(handle.entry, self.role.mode()) {
            Err(_) => Err(ReleaseError::Spent),
            Ok(_) => {
                self.slots[handle.entry.index()] = None;
                Ok(())
            }
        }
    }

    /// Releases all that a node has.
    pub(crate) fn remove_node(&mut self, id: UniqueNodeId)
        ensures recovered { self.new ≡ recovered D.node id self.old }
        ensures handles { KeepsOrLoses self.old self.new }
    {
        let entries = self.len();
        if let Some(owner) = owner_of(self.slots.as_slice(), entries, id) {
            self.container.recover(owner, |_| true, self.role.mode());
            forget(self.slots.as_mut_slice(), id);
        }
    }

    /// Whether a handle names the service and the role.
    fn is_own(&self, handle: RegistryHandle) -> bool
        ensures { result ≡ is_own self.now handle }
    {
        handle.service == self.service && handle.role == self.role
    }

    /// Why nothing is added.
    fn add_refusal(&self) -> Option<AddFailure>
        ensures { result ≡ add_refusal self.now }
    {
        if self.is_locked() {
            Some(AddFailure::Locked)
        } else if self.next_ticket == u64::MAX || self.len() == self.slots.len() {
            Some(AddFailure::Full)
        } else {
            None
        }
    }
}

/// How many a register of this limit has room for: a limit of 0 counts as 1.
pub fn room(limit: usize) -> usize
    ensures { result ≡ room_of limit }
{
    limit.max(1)
}

/// Whether a register with this limit may be made.
pub(crate) fn check_limit(limit: usize) -> Result<(), RegistryNewError>
    ensures allowed { OnOk result (limit_refusal limit ≡ None) }
    ensures refused { IfErr result (λ error. limit_refusal limit ≡ Some error) }
{
    if room(limit) > MAX_ROOM {
        return Err(RegistryNewError::LimitTooLarge);
    }
    Ok(())
}
