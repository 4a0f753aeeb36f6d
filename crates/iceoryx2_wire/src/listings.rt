//! What there is in a service.
ghost use Rattle.std.specs.Prelude.{◌≡◌, IfOk, map};
ghost use Rattle.std.specs.Fn.{CalledAt};
ghost use Rattle.iox_attributes.specs.Visits.{VisitsInOrder};
ghost use Rattle.iox_model.specs.declared.kind.Role.TheVariants.{Client, Server};
ghost use Rattle.iox_model.specs.Peers.{ports_of_role};
ghost use Rattle.iox_service_laws.specs.Listings.{ids_of_role};
ghost use Rattle.iceoryx2_wire.specs.Services.{service_of};

use crate::service::Service;
use iox_service_laws::Backpressure;
use iox_store::Payload;
use iox_types::identifiers::{UniqueClientId, UniqueNodeId, UniqueServerId};
use iox_words::{CallbackProgression, Words};
use std::alloc::{AllocError, Global};

impl<Q: Payload, QH: Words, P: Payload, PH: Words, H: Backpressure> Service<Q, QH, P, PH, H> {
    /// The numbers of the nodes that are there, dead ones too, ascending. It fails only for want
    /// of memory.
    pub fn list_nodes(&self, alloc: Global) -> Result<Vec<u64>, AllocError>
        ensures { IfOk result (λ numbers. numbers.items
            ≡ map (λ m. m.number) (service_of self.now).members.nodes) }
    {
        self.nodes.list_nodes(alloc)
    }

    /// The numbers of the connected clients, those of dead nodes too, ascending. It fails only for
    /// want of memory.
    pub fn list_clients(&self, alloc: Global) -> Result<Vec<u64>, AllocError>
        ensures { IfOk result (λ numbers. numbers.items
            ≡ ports_of_role (service_of self.now).fixed Client) }
    {
        self.nodes.list_clients(alloc)
    }

    /// The numbers of the connected servers, those of dead nodes too, ascending. It fails only for
    /// want of memory.
    pub fn list_servers(&self, alloc: Global) -> Result<Vec<u64>, AllocError>
        ensures { IfOk result (λ numbers. numbers.items
            ≡ ports_of_role (service_of self.now).fixed Server) }
    {
        self.nodes.list_servers(alloc)
    }

    /// Calls `callback` with the id of each node that is there, dead ones too, by ascending
    /// numbers, as far as it says `Continue`. It takes no memory.
    pub fn list_node_ids<F: FnMut(&UniqueNodeId) -> CallbackProgression>(&self, callback: F)
        requires { F.IsAlwaysCallable callback }
        ensures { VisitsInOrder (CalledAt F.FnMut) callback
            (map (λ m. m.id) (service_of self.now).members.nodes) }
    {
        self.nodes.list_node_ids(callback);
    }

    /// Calls `callback` with the id of each connected client, those of dead nodes too, by ascending
    /// numbers, as far as it says `Continue`. It takes no memory.
    pub fn list_client_ids<F: FnMut(&UniqueClientId) -> CallbackProgression>(&self, callback: F)
        requires { F.IsAlwaysCallable callback }
        ensures { VisitsInOrder (CalledAt F.FnMut) callback
            (ids_of_role (service_of self.now).fixed Client) }
    {
        self.nodes.list_client_ids(callback);
    }

    /// Calls `callback` with the id of each connected server, those of dead nodes too, by ascending
    /// numbers, as far as it says `Continue`. It takes no memory.
    pub fn list_server_ids<F: FnMut(&UniqueServerId) -> CallbackProgression>(&self, callback: F)
        requires { F.IsAlwaysCallable callback }
        ensures { VisitsInOrder (CalledAt F.FnMut) callback
            (ids_of_role (service_of self.now).fixed Server) }
    {
        self.nodes.list_server_ids(callback);
    }
}
