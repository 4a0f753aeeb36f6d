//! What is registered with a publish-subscribe service beside its nodes.
ghost use Rattle.std.specs.Prelude.{◌≡◌, ◌↔◌, IfErr, IfNone, IfOk, IfSome, IsSome, None, OnErr, OnOk, Some, length};
ghost use Rattle.std.specs.Fn.{CalledAt};
ghost use Rattle.iox_sets.specs.Refusals.{IsRefusal};
ghost use Rattle.iox_registry.specs.declared.refusals.RegistryNewError.TheVariants.{WantOfMemory};
ghost use Rattle.iox_registry.specs.declared.roles.Role.TheVariants.{Publisher, Subscriber};
ghost use Rattle.iox_registry.specs.Registers.{Adds, KeepsOrLoses, Removes, add_refusal, details_of, limits_refusal, listed, new_register, recovered, release_refusal};
ghost use Rattle.iox_attributes.specs.Visits.{VisitsInOrder};

pub use crate::details::{PublisherDetails, SubscriberDetails};
use crate::handle::RegistryHandle;
use crate::refusals::{RegistryNewError, ReleaseError};
use crate::register::{Register, check_limit};
use crate::roles::Role;
use iox_types::identifiers::UniqueNodeId;
use iox_words::CallbackProgression;
use std::alloc::Global;
use std::marker::Model;

/// The publishers and subscribers of a service. Memory is taken as it is made, and never again.
#[derive(Debug, Drop)]
pub struct DynamicConfig {
    publishers: Register<PublisherDetails>,
    subscribers: Register<SubscriberDetails>,
}

impl Model for DynamicConfig {
    ghost use Rattle.iox_registry.specs.RegisteredPorts.{PublishSubscribePorts};

    ghost Value = { PublishSubscribePorts };

    ghost view = { λ c. record { publishers = c.publishers; subscribers = c.subscribers } };
}

impl DynamicConfig {
    /// Makes registers without entries. A limit of 0 counts as 1.
    pub fn new(
        alloc: Global,
        service: u64,
        max_publishers: usize,
        max_subscribers: usize,
    ) -> Result<DynamicConfig, RegistryNewError>
        ensures publishers { IfOk result (λ c. c.publishers
            ≡ new_register service Publisher max_publishers) }
        ensures subscribers { IfOk result (λ c. c.subscribers
            ≡ new_register service Subscriber max_subscribers) }
        ensures allowed { OnOk result (limits_refusal max_publishers max_subscribers ≡ None) }
        ensures refused { IfErr result (IsRefusal WantOfMemory
            (limits_refusal max_publishers max_subscribers)) }
    {
        check_limit(max_publishers)?;
        check_limit(max_subscribers)?;
        Ok(DynamicConfig {
            publishers: Register::new(alloc, service, Role::Publisher, max_publishers)?,
            subscribers: Register::new(alloc, service, Role::Subscriber, max_subscribers)?,
        })
    }

    /// Registers a publisher, where there is room.
    pub fn add_publisher_id(&mut self, details: PublisherDetails) -> Option<RegistryHandle>
        ensures added { IfSome result (λ h. Adds details self.old.publishers h
            self.new.publishers) }
        ensures has { IfSome result (λ h. details_of self.new.publishers h ≡ Some details) }
        ensures handles { KeepsOrLoses self.old.publishers self.new.publishers }
        ensures succeeds { IsSome result ↔ add_refusal self.old.publishers ≡ None }
        ensures unchanged { IfNone result (self.new ≡ self.old) }
        ensures others { self.new.subscribers ≡ self.old.subscribers }
    {
        self.publishers.add(details).ok()
    }

    /// Releases what the handle of a publisher tells.
    pub fn release_publisher_handle(&mut self, handle: RegistryHandle) -> Result<(), ReleaseError>
        ensures released { OnOk result (Removes handle self.old.publishers self.new.publishers) }
        ensures gone { OnOk result (details_of self.new.publishers handle ≡ None) }
        ensures handles { KeepsOrLoses self.old.publishers self.new.publishers }
        ensures refused { IfErr result (λ e. release_refusal self.old.publishers handle ≡ Some e) }
        ensures unchanged { OnErr result (self.new ≡ self.old) }
        ensures others { self.new.subscribers ≡ self.old.subscribers }
    {
        self.publishers.release(handle)
    }

    /// What the handle of a publisher tells.
    pub fn publisher_details(&self, handle: RegistryHandle) -> Option<PublisherDetails>
        ensures { result ≡ details_of self.now.publishers handle }
    {
        self.publishers.get(handle)
    }

    /// How many publishers are registered.
    pub fn number_of_publishers(&self) -> usize
        ensures { result ≡ length (listed self.now.publishers) }
    {
        self.publishers.len()
    }

    /// Calls `callback` with what is known about each publisher, as far as it says `Continue`.
    pub fn list_publishers<F: FnMut(&PublisherDetails) -> CallbackProgression>(&self, callback: F)
        requires { F.IsAlwaysCallable callback }
        ensures { VisitsInOrder (CalledAt F.FnMut) callback (listed self.now.publishers) }
    {
        self.publishers.list(callback)
    }

    /// Registers a subscriber, where there is room.
    pub fn add_subscriber_id(&mut self, details: SubscriberDetails) -> Option<RegistryHandle>
        ensures added { IfSome result (λ h. Adds details self.old.subscribers h
            self.new.subscribers) }
        ensures has { IfSome result (λ h. details_of self.new.subscribers h ≡ Some details) }
        ensures handles { KeepsOrLoses self.old.subscribers self.new.subscribers }
        ensures succeeds { IsSome result ↔ add_refusal self.old.subscribers ≡ None }
        ensures unchanged { IfNone result (self.new ≡ self.old) }
        ensures others { self.new.publishers ≡ self.old.publishers }
    {
        self.subscribers.add(details).ok()
    }

    /// Releases what the handle of a subscriber tells.
    pub fn release_subscriber_handle(&mut self, handle: RegistryHandle) -> Result<(), ReleaseError>
        ensures released { OnOk result (Removes handle self.old.subscribers self.new.subscribers) }
        ensures gone { OnOk result (details_of self.new.subscribers handle ≡ None) }
        ensures handles { KeepsOrLoses self.old.subscribers self.new.subscribers }
        ensures refused { IfErr result (λ e. release_refusal self.old.subscribers handle ≡ Some e) }
        ensures unchanged { OnErr result (self.new ≡ self.old) }
        ensures others { self.new.publishers ≡ self.old.publishers }
    {
        self.subscribers.release(handle)
    }

    /// What the handle of a subscriber tells.
    pub fn subscriber_details(&self, handle: RegistryHandle) -> Option<SubscriberDetails>
        ensures { result ≡ details_of self.now.subscribers handle }
    {
        self.subscribers.get(handle)
    }

    /// How many subscribers are registered.
    pub fn number_of_subscribers(&self) -> usize
        ensures { result ≡ length (listed self.now.subscribers) }
    {
        self.subscribers.len()
    }

    /// Calls `callback` with what is known about each subscriber, as far as it says `Continue`.
    pub fn list_subscribers<F: FnMut(&SubscriberDetails) -> CallbackProgression>(&self, callback: F)
        requires { F.IsAlwaysCallable callback }
        ensures { VisitsInOrder (CalledAt F.FnMut) callback (listed self.now.subscribers) }
    {
        self.subscribers.list(callback)
    }

    /// Releases all that a dead node had registered.
    pub fn remove_dead_node_id(&mut self, id: &UniqueNodeId)
        ensures publishers { self.new.publishers
            ≡ recovered (λ d. d.node_id) id.now self.old.publishers }
        ensures subscribers { self.new.subscribers
            ≡ recovered (λ d. d.node_id) id.now self.old.subscribers }
        ensures publisher_handles { KeepsOrLoses self.old.publishers self.new.publishers }
        ensures subscriber_handles { KeepsOrLoses self.old.subscribers self.new.subscribers }
    {
        self.publishers.remove_node(*id);
        self.subscribers.remove_node(*id);
    }
}
