//! What is registered with a request-response service beside its nodes.
ghost use Rattle.std.specs.Prelude.{◌≡◌, ◌↔◌, IfErr, IfNone, IfOk, IfSome, IsSome, None, OnErr, OnOk, Some, length};
ghost use Rattle.std.specs.Fn.{CalledAt};
ghost use Rattle.iox_sets.specs.Refusals.{IsRefusal};
ghost use Rattle.iox_registry.specs.declared.refusals.RegistryNewError.TheVariants.{WantOfMemory};
ghost use Rattle.iox_registry.specs.declared.roles.Role.TheVariants.{Client, Server};
ghost use Rattle.iox_registry.specs.Registers.{Adds, KeepsOrLoses, Removes, add_refusal, details_of, limits_refusal, listed, new_register, recovered, release_refusal};
ghost use Rattle.iox_attributes.specs.Visits.{VisitsInOrder};

pub use crate::details::{ClientDetails, ServerDetails};
use crate::handle::RegistryHandle;
use crate::refusals::{RegistryNewError, ReleaseError};
use crate::register::{Register, check_limit};
use crate::roles::Role;
use iox_types::identifiers::UniqueNodeId;
use iox_words::CallbackProgression;
use std::alloc::Global;
use std::marker::Model;

/// The clients and servers of a service. Memory is taken as it is made, and never again.
#[derive(Debug, Drop)]
pub struct DynamicConfig {
    clients: Register<ClientDetails>,
    servers: Register<ServerDetails>,
}

impl Model for DynamicConfig {
    ghost use Rattle.iox_registry.specs.RegisteredPorts.{RequestResponsePorts};

    ghost Value = { RequestResponsePorts };

    ghost view = { λ c. record { clients = c.clients; servers = c.servers } };
}

impl DynamicConfig {
    /// Makes registers without entries. A limit of 0 counts as 1.
    pub fn new(
        alloc: Global,
        service: u64,
        max_clients: usize,
        max_servers: usize,
    ) -> Result<DynamicConfig, RegistryNewError>
        ensures clients { IfOk result (λ c. c.clients ≡ new_register service Client max_clients) }
        ensures servers { IfOk result (λ c. c.servers ≡ new_register service Server max_servers) }
        ensures allowed { OnOk result (limits_refusal max_clients max_servers ≡ None) }
        ensures refused { IfErr result (IsRefusal WantOfMemory
            (limits_refusal max_clients max_servers)) }
    {
        check_limit(max_clients)?;
        check_limit(max_servers)?;
        Ok(DynamicConfig {
            clients: Register::new(alloc, service, Role::Client, max_clients)?,
            servers: Register::new(alloc, service, Role::Server, max_servers)?,
        })
    }

    /// Registers a client, where there is room.
    pub fn add_client_id(&mut self, details: ClientDetails) -> Option<RegistryHandle>
        ensures added { IfSome result (λ h. Adds details self.old.clients h self.new.clients) }
        ensures has { IfSome result (λ handle. details_of self.new.clients handle ≡ Some details) }
        ensures handles { KeepsOrLoses self.old.clients self.new.clients }
        ensures succeeds { IsSome result ↔ add_refusal self.old.clients ≡ None }
        ensures unchanged { IfNone result (self.new ≡ self.old) }
        ensures others { self.new.servers ≡ self.old.servers }
    {
        self.clients.add(details).ok()
    }

    /// Releases what the handle of a client tells.
    pub fn release_client_handle(&mut self, handle: RegistryHandle) -> Result<(), ReleaseError>
        ensures released { OnOk result (Removes handle self.old.clients self.new.clients) }
        ensures gone { OnOk result (details_of self.new.clients handle ≡ None) }
        ensures handles { KeepsOrLoses self.old.clients self.new.clients }
        ensures refused { IfErr result (λ e. release_refusal self.old.clients handle ≡ Some e) }
        ensures unchanged { OnErr result (self.new ≡ self.old) }
        ensures others { self.new.servers ≡ self.old.servers }
    {
        self.clients.release(handle)
    }

    /// What the handle of a client tells.
    pub fn client_details(&self, handle: RegistryHandle) -> Option<ClientDetails>
        ensures { result ≡ details_of self.now.clients handle }
    {
        self.clients.get(handle)
    }

    /// How many clients are registered.
    pub fn number_of_clients(&self) -> usize
        ensures { result ≡ length (listed self.now.clients) }
    {
        self.clients.len()
    }

    /// Calls `callback` with what is known about each client, as far as it says `Continue`.
    pub fn list_clients<F: FnMut(&ClientDetails) -> CallbackProgression>(&self, callback: F)
        requires { F.IsAlwaysCallable callback }
        ensures { VisitsInOrder (CalledAt F.FnMut) callback (listed self.now.clients) }
    {
        self.clients.list(callback)
    }

    /// Registers a server, where there is room.
    pub fn add_server_id(&mut self, details: ServerDetails) -> Option<RegistryHandle>
        ensures added { IfSome result (λ h. Adds details self.old.servers h self.new.servers) }
        ensures has { IfSome result (λ handle. details_of self.new.servers handle ≡ Some details) }
        ensures handles { KeepsOrLoses self.old.servers self.new.servers }
        ensures succeeds { IsSome result ↔ add_refusal self.old.servers ≡ None }
        ensures unchanged { IfNone result (self.new ≡ self.old) }
        ensures others { self.new.clients ≡ self.old.clients }
    {
        self.servers.add(details).ok()
    }

    /// Releases what the handle of a server tells.
    pub fn release_server_handle(&mut self, handle: RegistryHandle) -> Result<(), ReleaseError>
        ensures released { OnOk result (Removes handle self.old.servers self.new.servers) }
        ensures gone { OnOk result (details_of self.new.servers handle ≡ None) }
        ensures handles { KeepsOrLoses self.old.servers self.new.servers }
        ensures refused { IfErr result (λ e. release_refusal self.old.servers handle ≡ Some e) }
        ensures unchanged { OnErr result (self.new ≡ self.old) }
        ensures others { self.new.clients ≡ self.old.clients }
    {
        self.servers.release(handle)
    }

    /// What the handle of a server tells.
    pub fn server_details(&self, handle: RegistryHandle) -> Option<ServerDetails>
        ensures { result ≡ details_of self.now.servers handle }
    {
        self.servers.get(handle)
    }

    /// How many servers are registered.
    pub fn number_of_servers(&self) -> usize
        ensures { result ≡ length (listed self.now.servers) }
    {
        self.servers.len()
    }

    /// Calls `callback` with what is known about each server, as far as it says `Continue`.
    pub fn list_servers<F: FnMut(&ServerDetails) -> CallbackProgression>(&self, callback: F)
        requires { F.IsAlwaysCallable callback }
        ensures { VisitsInOrder (CalledAt F.FnMut) callback (listed self.now.servers) }
    {
        self.servers.list(callback)
    }

    /// Releases all that a dead node had registered.
    pub fn remove_dead_node_id(&mut self, id: &UniqueNodeId)
        ensures clients { self.new.clients ≡ recovered (λ d. d.node_id) id.now self.old.clients }
        ensures servers { self.new.servers ≡ recovered (λ d. d.node_id) id.now self.old.servers }
        ensures client_handles { KeepsOrLoses self.old.clients self.new.clients }
        ensures server_handles { KeepsOrLoses self.old.servers self.new.servers }
    {
        self.clients.remove_node(*id);
        self.servers.remove_node(*id);
    }
}
