//! Factories of clients with a closure that chooses the pool.
ghost use Rattle.std.specs.Prelude.{ℕ, ◌≡◌, ◌≢◌, IfErr, IfOk, OnErr};
ghost use Rattle.iox_model.specs.declared.kind.Kind.TheVariants as kinds;
ghost use Rattle.iox_model.specs.declared.kind.Role.TheVariants as roles;
ghost use Rattle.std.specs.Option.{option_map};
ghost use Rattle.iox_hub_laws.specs.HandlerWords.{shown_by};
ghost use Rattle.iox_hub_laws.specs.Hubs.{HasValue};
ghost use Rattle.iox_hub_laws.specs.Keeping.{HaveSameShapes, KeepsAll};
ghost use Rattle.iox_hub_laws.specs.Making.{LeavesMessages, StaysAs};
ghost use Rattle.iox_hub_laws.specs.Sends.{NothingComes};
ghost use Rattle.iceoryx2_ports.specs.Keeping.{KeepsAsking};
ghost use Rattle.iceoryx2_ports.specs.Opens.{KeepsRequests};
ghost use Rattle.iceoryx2_ports.specs.Idling.{IsIdle, client_on};
ghost use Rattle.iceoryx2_ports.specs.LoanLimits.{LendsNone};
ghost use Rattle.iceoryx2_ports.specs.Makings.{IsMadeAs, reply_of_client};
ghost use Rattle.iceoryx2_ports.specs.Overrides.{IsMadeWithItsPool, MadeWith};
ghost use Rattle.iceoryx2_ports.specs.Reaching.{KeepsRoom};
ghost use Rattle.iceoryx2_ports.specs.declared.errors.ClientCreateError.TheVariants.{FailedToDeployThreadsafetyPolicy};

use super::PortFactoryClient;
use crate::client::Client;
use crate::errors::ClientCreateError;
use crate::overrides::with_pool;
use iox_hub_laws::{Backpressure, Hub};
use iox_model::kind::Role;
use iox_store::Payload;
use iox_words::Words;
use std::alloc::Global;
use std::marker::Model;

/// What a client is made with, where a closure chooses how many requests it has memory for.
#[derive(Drop)]
pub struct PreallocatedClient<Q, QH, P, PH, H, F> {
    factory: PortFactoryClient<Q, QH, P, PH, H>,
    callback: F,
}

impl<Q, QH, P, PH, H, F> Model for PreallocatedClient<Q, QH, P, PH, H, F> {
    ghost Value = { MadeWith F H };

    ghost view = { λ it. record {
      node = it.factory.node;
      id = it.factory.node_id;
      options = it.factory.options;
      closure = it.callback;
      handler = it.factory.handler;
    } };
}

impl<Q: Payload, QH: Words, P: Payload, PH: Words, H: Backpressure> PortFactoryClient<
    Q,
    QH,
    P,
    PH,
    H,
> {
    /// Lets that closure choose how many requests the client has memory for. It is asked with the
    /// most that are ever needed; what it answers is raised to 1, and lowered to that. With fewer
    /// than are needed, a loan may find no memory.
    pub fn override_request_preallocation<F: Fn(usize) -> usize + Drop>(
        self,
        callback: F,
    ) -> PreallocatedClient<Q, QH, P, PH, H, F>
        ensures node { result.node ≡ self.node }
        ensures id { result.id ≡ self.node_id }
        ensures options { result.options ≡ self.options }
        ensures closure { result.closure ≡ callback }
        ensures handler { result.handler ≡ self.handler }
    {
        PreallocatedClient {
            factory: self,
            callback,
        }
    }
}

impl<
    Q: Payload,
    QH: Words,
    P: Payload,
    PH: Words,
    H: Backpressure,
    F: Fn(usize) -> usize + Drop,
> PreallocatedClient<Q, QH, P, PH, H, F> {
    /// Makes the client. Where it is refused, all stays.
    pub fn create(
        self,
        alloc: Global,
        hub: &mut Hub<Q, QH, P, PH, H>,
    ) -> Result<Client<Q, QH, P, PH>, ClientCreateError>
        requires { F.IsAlwaysCallable self.closure }
        ensures whole { IsMadeWithItsPool hub.old self.node roles.Client self.id
            (F.post self.closure) self.options (option_map (shown_by H.action) self.handler)
            (reply_of_client result) hub.new }
        ensures node { IfOk result (λ client. client.node ≡ self.node) }
        ensures has { IfOk result (λ client.
            HasValue hub.new client.node client.number kinds.Client) }
        ensures made { IfOk result (λ client.
            IsMadeAs hub.new client.number hub.old.request self.options) }
        ensures keeps { KeepsAll hub.old hub.new }
        ensures shapes { HaveSameShapes hub.old hub.new }
        ensures messages { LeavesMessages hub.old hub.new }
        ensures idle { IfOk result (λ client. (lane request : ℕ)
            → IsIdle hub.new (client_on client.number lane request)) }
        ensures lent { IfOk result (λ client. LendsNone hub.old client.number hub.new) }
        ensures comes { NothingComes hub.old hub.new }
        ensures asks { KeepsAsking hub.old hub.new }
        ensures room { KeepsRoom hub.old hub.new }
        ensures requests { KeepsRequests hub.old hub.new }
        ensures unchanged { OnErr result (StaysAs hub.old hub.new) }
        ensures refused { IfErr result (λ error.
            error ≢ FailedToDeployThreadsafetyPolicy) }
    {
        let PreallocatedClient { factory, callback } = self;
        let options = with_pool(hub, Role::Client, factory.options, callback);
        PortFactoryClient { options, ..factory }.create(alloc, hub)
    }
}
