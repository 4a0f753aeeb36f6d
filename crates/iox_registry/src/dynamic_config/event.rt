//! What is registered with an event service beside its nodes.
ghost use Rattle.std.specs.Prelude.{◌≡◌, ◌↔◌, IfErr, IfNone, IfOk, IfSome, IsSome, None, OnErr, OnOk, Some, length};
ghost use Rattle.std.specs.Fn.{CalledAt};
ghost use Rattle.iox_sets.specs.Refusals.{IsRefusal};
ghost use Rattle.iox_registry.specs.declared.refusals.RegistryNewError.TheVariants.{WantOfMemory};
ghost use Rattle.iox_registry.specs.declared.roles.Role.TheVariants.{Notifier, Listener};
ghost use Rattle.iox_registry.specs.Registers.{Adds, KeepsOrLoses, Removes, add_refusal, details_of, limits_refusal, listed, new_register, recovered, release_refusal};
ghost use Rattle.iox_attributes.specs.Visits.{VisitsInOrder};

pub use crate::details::{ListenerDetails, NotifierDetails};
use crate::handle::RegistryHandle;
use crate::refusals::{RegistryNewError, ReleaseError};
use crate::register::{Register, check_limit};
use crate::roles::Role;
use iox_types::identifiers::UniqueNodeId;
use iox_words::CallbackProgression;
use std::alloc::Global;
use std::marker::Model;

/// The notifiers and listeners of a service. Memory is taken as it is made, and never again.
#[derive(Debug, Drop)]
pub struct DynamicConfig {
    notifiers: Register<NotifierDetails>,
    listeners: Register<ListenerDetails>,
}

impl Model for DynamicConfig {
    ghost use Rattle.iox_registry.specs.RegisteredPorts.{EventPorts};

    ghost Value = { EventPorts };

    ghost view = { λ c. record { notifiers = c.notifiers; listeners = c.listeners } };
}

impl DynamicConfig {
    /// Makes registers without entries. A limit of 0 counts as 1.
    pub fn new(
        alloc: Global,
        service: u64,
        max_notifiers: usize,
        max_listeners: usize,
    ) -> Result<DynamicConfig, RegistryNewError>
        ensures notifiers { IfOk result (λ c. c.notifiers
            ≡ new_register service Notifier max_notifiers) }
        ensures listeners { IfOk result (λ c. c.listeners
            ≡ new_register service Listener max_listeners) }
        ensures allowed { OnOk result (limits_refusal max_notifiers max_listeners ≡ None) }
        ensures refused { IfErr result (IsRefusal WantOfMemory
            (limits_refusal max_notifiers max_listeners)) }
    {
        check_limit(max_notifiers)?;
        check_limit(max_listeners)?;
        Ok(DynamicConfig {
            notifiers: Register::new(alloc, service, Role::Notifier, max_notifiers)?,
            listeners: Register::new(alloc, service, Role::Listener, max_listeners)?,
        })
    }

    /// Registers a notifier, where there is room.
    pub fn add_notifier_id(&mut self, details: NotifierDetails) -> Option<RegistryHandle>
        ensures added { IfSome result (λ h. Adds details self.old.notifiers h self.new.notifiers) }
        ensures has { IfSome result (λ h. details_of self.new.notifiers h ≡ Some details) }
        ensures handles { KeepsOrLoses self.old.notifiers self.new.notifiers }
        ensures succeeds { IsSome result ↔ add_refusal self.old.notifiers ≡ None }
        ensures unchanged { IfNone result (self.new ≡ self.old) }
        ensures others { self.new.listeners ≡ self.old.listeners }
    {
        self.notifiers.add(details).ok()
    }

    /// Releases what the handle of a notifier tells.
    pub fn release_notifier_handle(&mut self, handle: RegistryHandle) -> Result<(), ReleaseError>
        ensures released { OnOk result (Removes handle self.old.notifiers self.new.notifiers) }
        ensures gone { OnOk result (details_of self.new.notifiers handle ≡ None) }
        ensures handles { KeepsOrLoses self.old.notifiers self.new.notifiers }
        ensures refused { IfErr result (λ e. release_refusal self.old.notifiers handle ≡ Some e) }
        ensures unchanged { OnErr result (self.new ≡ self.old) }
        ensures others { self.new.listeners ≡ self.old.listeners }
    {
        self.notifiers.release(handle)
    }

    /// What the handle of a notifier tells.
    pub fn notifier_details(&self, handle: RegistryHandle) -> Option<NotifierDetails>
        ensures { result ≡ details_of self.now.notifiers handle }
    {
        self.notifiers.get(handle)
    }

    /// How many notifiers are registered.
    pub fn number_of_notifiers(&self) -> usize
        ensures { result ≡ length (listed self.now.notifiers) }
    {
        self.notifiers.len()
    }

    /// Calls `callback` with what is known about each notifier, as far as it says `Continue`.
    pub fn list_notifiers<F: FnMut(&NotifierDetails) -> CallbackProgression>(&self, callback: F)
        requires { F.IsAlwaysCallable callback }
        ensures { VisitsInOrder (CalledAt F.FnMut) callback (listed self.now.notifiers) }
    {
        self.notifiers.list(callback)
    }

    /// Registers a listener, where there is room.
    pub fn add_listener_id(&mut self, details: ListenerDetails) -> Option<RegistryHandle>
        ensures added { IfSome result (λ h. Adds details self.old.listeners h self.new.listeners) }
        ensures has { IfSome result (λ h. details_of self.new.listeners h ≡ Some details) }
        ensures handles { KeepsOrLoses self.old.listeners self.new.listeners }
        ensures succeeds { IsSome result ↔ add_refusal self.old.listeners ≡ None }
        ensures unchanged { IfNone result (self.new ≡ self.old) }
        ensures others { self.new.notifiers ≡ self.old.notifiers }
    {
        self.listeners.add(details).ok()
    }

    /// Releases what the handle of a listener tells.
    pub fn release_listener_handle(&mut self, handle: RegistryHandle) -> Result<(), ReleaseError>
        ensures released { OnOk result (Removes handle self.old.listeners self.new.listeners) }
        ensures gone { OnOk result (details_of self.new.listeners handle ≡ None) }
        ensures handles { KeepsOrLoses self.old.listeners self.new.listeners }
        ensures refused { IfErr result (λ e. release_refusal self.old.listeners handle ≡ Some e) }
        ensures unchanged { OnErr result (self.new ≡ self.old) }
        ensures others { self.new.notifiers ≡ self.old.notifiers }
    {
        self.listeners.release(handle)
    }

    /// What the handle of a listener tells.
    pub fn listener_details(&self, handle: RegistryHandle) -> Option<ListenerDetails>
        ensures { result ≡ details_of self.now.listeners handle }
    {
        self.listeners.get(handle)
    }

    /// How many listeners are registered.
    pub fn number_of_listeners(&self) -> usize
        ensures { result ≡ length (listed self.now.listeners) }
    {
        self.listeners.len()
    }

    /// Calls `callback` with what is known about each listener, as far as it says `Continue`.
    pub fn list_listeners<F: FnMut(&ListenerDetails) -> CallbackProgression>(&self, callback: F)
        requires { F.IsAlwaysCallable callback }
        ensures { VisitsInOrder (CalledAt F.FnMut) callback (listed self.now.listeners) }
    {
        self.listeners.list(callback)
    }

    /// Releases all that a dead node had registered.
    pub fn remove_dead_node_id(&mut self, id: &UniqueNodeId)
        ensures notifiers { self.new.notifiers
            ≡ recovered (λ d. d.node_id) id.now self.old.notifiers }
        ensures listeners { self.new.listeners
            ≡ recovered (λ d. d.node_id) id.now self.old.listeners }
        ensures notifier_handles { KeepsOrLoses self.old.notifiers self.new.notifiers }
        ensures listener_handles { KeepsOrLoses self.old.listeners self.new.listeners }
    {
        self.notifiers.remove_node(*id);
        self.listeners.remove_node(*id);
    }
}
