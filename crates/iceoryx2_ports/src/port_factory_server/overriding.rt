//! Factories of servers with a closure that chooses the pool.
ghost use Rattle.std.specs.Prelude.{◌≡◌, ◌≢◌, IfErr, IfOk, OnErr};
ghost use Rattle.iox_model.specs.declared.kind.Kind.TheVariants as kinds;
ghost use Rattle.iox_model.specs.declared.kind.Role.TheVariants as roles;
ghost use Rattle.std.specs.Option.{option_map};
ghost use Rattle.iox_hub_laws.specs.HandlerWords.{shown_by};
ghost use Rattle.iox_hub_laws.specs.Hubs.{HasValue};
ghost use Rattle.iox_hub_laws.specs.Keeping.{HaveSameShapes, KeepsAll};
ghost use Rattle.iox_hub_laws.specs.Making.{LeavesMessages, StaysAs};
ghost use Rattle.iox_hub_laws.specs.Sends.{NothingComes};
ghost use Rattle.iox_hub_laws.specs.Waiting.{server_of};
ghost use Rattle.iceoryx2_ports.specs.Keeping.{KeepsAsking};
ghost use Rattle.iceoryx2_ports.specs.Opens.{KeepsRequests};
ghost use Rattle.iceoryx2_ports.specs.Idling.{IsIdle};
ghost use Rattle.iceoryx2_ports.specs.Makings.{IsMadeAs, reply_of_server};
ghost use Rattle.iceoryx2_ports.specs.Overrides.{IsMadeWithItsPool, MadeWith};
ghost use Rattle.iceoryx2_ports.specs.Reaching.{KeepsRoom};
ghost use Rattle.iceoryx2_ports.specs.declared.errors.ServerCreateError.TheVariants.{FailedToDeployThreadsafetyPolicy};

use super::PortFactoryServer;
use crate::errors::ServerCreateError;
use crate::overrides::with_pool;
use crate::server::Server;
use iox_hub_laws::{Backpressure, Hub};
use iox_model::kind::Role;
use iox_store::Payload;
use iox_words::Words;
use std::alloc::Global;
use std::marker::Model;

/// What a server is made with, where a closure chooses how many responses it has memory for.
#[derive(Drop)]
pub struct PreallocatedServer<Q, QH, P, PH, H, F> {
    factory: PortFactoryServer<Q, QH, P, PH, H>,
    callback: F,
}

impl<Q, QH, P, PH, H, F> Model for PreallocatedServer<Q, QH, P, PH, H, F> {
    ghost Value = { MadeWith F H };

    ghost view = { λ it. record {
      node = it.factory.node;
      id = it.factory.node_id;
      options = it.factory.options;
      closure = it.callback;
      handler = it.factory.handler;
    } };
}

impl<Q: Payload, QH: Words, P: Payload, PH: Words, H: Backpressure> PortFactoryServer<
    Q,
    QH,
    P,
    PH,
    H,
> {
    /// Lets that closure choose how many responses the server has memory for. It is asked with the
    /// most that are ever needed; what it answers is raised to 1, and lowered to that. With fewer
    /// than are needed, a loan may find no memory.
    pub fn override_response_preallocation<F: Fn(usize) -> usize + Drop>(
        self,
        callback: F,
    ) -> PreallocatedServer<Q, QH, P, PH, H, F>
        ensures node { result.node ≡ self.node }
        ensures id { result.id ≡ self.node_id }
        ensures options { result.options ≡ self.options }
        ensures closure { result.closure ≡ callback }
        ensures handler { result.handler ≡ self.handler }
    {
        PreallocatedServer {
            factory: self,
            callback,
        }
    }
}

impl<
    Q: Payload,
    QH: Words,
    P: Payload,
    PH: Words,
    H: Backpressure,
    F: Fn(usize) -> usize + Drop,
> PreallocatedServer<Q, QH, P, PH, H, F> {
    /// Makes the server. Where it is refused, all stays.
    pub fn create(
        self,
        alloc: Global,
        hub: &mut Hub<Q, QH, P, PH, H>,
    ) -> Result<Server<Q, QH, P, PH>, ServerCreateError>
        requires { F.IsAlwaysCallable self.closure }
        ensures whole { IsMadeWithItsPool hub.old self.node roles.Server self.id
            (F.post self.closure) self.options (option_map (shown_by H.action) self.handler)
            (reply_of_server result) hub.new }
        ensures node { IfOk result (λ server. server.node ≡ self.node) }
        ensures has { IfOk result (λ server.
            HasValue hub.new server.node server.number kinds.Server) }
        ensures made { IfOk result (λ server.
            IsMadeAs hub.new server.number hub.old.response self.options) }
        ensures keeps { KeepsAll hub.old hub.new }
        ensures shapes { HaveSameShapes hub.old hub.new }
        ensures messages { LeavesMessages hub.old hub.new }
        ensures idle { IfOk result (λ server. IsIdle hub.new (server_of server.number)) }
        ensures comes { NothingComes hub.old hub.new }
        ensures asks { KeepsAsking hub.old hub.new }
        ensures room { KeepsRoom hub.old hub.new }
        ensures requests { KeepsRequests hub.old hub.new }
        ensures unchanged { OnErr result (StaysAs hub.old hub.new) }
        ensures refused { IfErr result (λ error.
            error ≢ FailedToDeployThreadsafetyPolicy) }
    {
        let PreallocatedServer { factory, callback } = self;
        let options = with_pool(hub, Role::Server, factory.options, callback);
        PortFactoryServer { options, ..factory }.create(alloc, hub)
    }
}
