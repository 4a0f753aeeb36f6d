//! A server.
ghost use Rattle.std.specs.Prelude.{◌≡◌, ◌↔◌, IfErr, IfOk, IfSome, IsOk, IsTrue, Some};
ghost use Rattle.std.specs.Option.{option_map};
ghost use Rattle.iox_model.specs.declared.call.Call.TheVariants.{HasRequests, Receive};
ghost use Rattle.iox_model.specs.declared.kind.Kind.TheVariants as kinds;
ghost use Rattle.iox_model.specs.declared.reply.Reply.TheVariants.{Answer};
ghost use Rattle.iox_model.specs.Peers.{port_at};
ghost use Rattle.iox_model.specs.WholeCalls.{IsWholeCall};
ghost use Rattle.iox_tables.specs.HubStates.States.{Given};
ghost use Rattle.iox_hub_laws.specs.Headers.{IsIdShown, id_in};
ghost use Rattle.iox_hub_laws.specs.Hubs.{HasValue, state_of_hub, with_control};
ghost use Rattle.iox_hub_laws.specs.Receives.{CarriesWhatWaited, TakesRequest};
ghost use Rattle.iox_hub_laws.specs.Sends.{NothingComes};
ghost use Rattle.iox_hub_laws.specs.Waiting.{WaitedFor, server_of};
ghost use Rattle.iceoryx2_ports.specs.Answers.{received_request, reply_of_request};
ghost use Rattle.iceoryx2_ports.specs.Asking.{KeepsAskersIdle, TakesItsRequest};
ghost use Rattle.iceoryx2_ports.specs.Calls.{HasCallsLeft};
ghost use Rattle.iceoryx2_ports.specs.Holding.{KeepsValues};
ghost use Rattle.iceoryx2_ports.specs.Idling.{TakesTheOne};
ghost use Rattle.iox_hub_laws.specs.Keeping.{HaveSameShapes};
ghost use Rattle.iceoryx2_ports.specs.Keeping.{KeepsAsking};
ghost use Rattle.iceoryx2_ports.specs.Makings.{port_shown};
ghost use Rattle.iceoryx2_ports.specs.Opens.{KeepsRequests};
ghost use Rattle.iceoryx2_ports.specs.Releases.{IsReleased};
ghost use Rattle.iceoryx2_ports.specs.Senders.{TakesFrom};
ghost use Rattle.iceoryx2_ports.specs.Streams.{AddsNothing};
ghost use Rattle.iceoryx2_ports.specs.declared.errors.ReceiveError.TheVariants.{ExceedsMaxBorrows};

use crate::active_request::ActiveRequest;
use crate::errors::{ConnectionFailure, ReceiveError};
use crate::releases::release_port;
use iox_hub_laws::{Backpressure, Hub, Received, receive_request};
use iox_model::kind::Kind;
use iox_store::Payload;
use iox_types::BackpressureStrategy;
use iox_types::identifiers::UniqueServerId;
use iox_words::Words;
use std::marker::PhantomData;

/// A server of a node: it receives requests.
pub struct Server<Q, QH, P, PH> {
    node: u64,
    number: u64,
    // Where the hub looks for it first. A wrong place is only slower.
    place: usize,
    of: PhantomData<(Q, QH, P, PH)>,
}

impl<Q: Payload, QH: Words, P: Payload, PH: Words> Server<Q, QH, P, PH> {
    /// The node's server of that number.
    pub(crate) fn new(node: u64, number: u64, place: usize) -> Self
        ensures node { result.node ≡ node }
        ensures number { result.number ≡ number }
    {
        Server {
            node,
            number,
            place,
            of: PhantomData,
        }
    }

    /// Receives a request, if one is there: one that waits, comes next on its way, and is new to
    /// the server. Without fire-and-forget a request that its client gave up is released and
    /// skipped.
    pub fn receive<H: Backpressure>(
        &self,
        hub: &mut Hub<Q, QH, P, PH, H>,
    ) -> Result<Option<ActiveRequest<Q, QH, P, PH>>, ReceiveError>
        requires has { HasValue hub.old self.now.node self.now.number kinds.Server }
        requires calls { HasCallsLeft hub.old }
        ensures left { hub.new ≡ with_control hub.old hub.new.control }
        ensures whole { (x : Given) → IsWholeCall (state_of_hub x hub.old) self.now.node
            (Receive self.now.number) (reply_of_request result) (state_of_hub x hub.new) }
        ensures has { IfOk result (λ got. IfSome got (λ request.
            HasValue hub.new request.node request.number kinds.ActiveRequest)) }
        ensures node { IfOk result (λ got. IfSome got (λ request. request.node ≡ self.now.node)) }
        ensures keeps { KeepsValues hub.old hub.new }
        ensures shapes { HaveSameShapes hub.old hub.new }
        ensures asks { KeepsAsking hub.old hub.new }
        ensures refused { IfErr result (λ error. error ≡ ExceedsMaxBorrows) }
        ensures waited { WaitedFor hub.old (server_of self.now.number) (received_request result) }
        ensures takes { TakesRequest hub.old self.now.node self.now.number
            (received_request result) hub.new }
        ensures carries { IfOk result (λ got. IfSome got (λ request.
            CarriesWhatWaited hub.old (server_of self.now.number) hub.new request.node
            request.number)) }
        ensures from { IfOk result (λ got. IfSome got (λ request.
            TakesFrom hub.old (server_of self.now.number) hub.new request.node request.number)) }
        ensures idle { IfOk result (λ got. IfSome got (λ request.
            TakesTheOne hub.old (server_of self.now.number) hub.new request.node
            request.number)) }
        ensures asker { IfOk result (λ got. IfSome got (λ request.
            TakesItsRequest hub.old self.now.number hub.new request.node request.number)) }
        ensures askers { IfOk result (λ got. IfSome got (λ request.
            KeepsAskersIdle hub.old hub.new)) }
        ensures comes { NothingComes hub.old hub.new }
        ensures adds { AddsNothing hub.old hub.new }
        ensures requests { KeepsRequests hub.old hub.new }
    {
        hub.is_in_order();
        match receive_request(hub, self.node, self.number, self.place) {
            Received::Handle(number) => {
                Ok(Some(ActiveRequest::new(self.node, number, hub.last_place())))
            }
            Received::Nothing => Ok(None),
            Received::AtLimit => Err(ReceiveError::ExceedsMaxBorrows),
        }
    }

    /// Whether a request waits. It may be one that is skipped, so that nothing is received then.
    pub fn has_requests<H: Backpressure>(
        &self,
        hub: &Hub<Q, QH, P, PH, H>,
    ) -> Result<bool, ConnectionFailure>
        requires has { HasValue hub.now self.now.node self.now.number kinds.Server }
        ensures whole { IfOk result (λ waits. (x : Given)
            → IsWholeCall (state_of_hub x hub.now) self.now.node
            (HasRequests self.now.number) (Answer waits) (state_of_hub x hub.now)) }
        ensures told { IsOk result }
    {
        Ok(hub.has_requests(self.node, self.number))
    }

    /// Its id.
    pub fn id<H: Backpressure>(&self, hub: &Hub<Q, QH, P, PH, H>) -> UniqueServerId
        requires has { HasValue hub.now self.now.node self.now.number kinds.Server }
        ensures id { result ≡ id_in hub.now self.now.number }
        ensures shown { IsIdShown hub.now self.now.number }
    {
        UniqueServerId::new(hub.port_id(self.node, self.number))
    }

    /// What it does at a full client.
    pub fn backpressure_strategy<H: Backpressure>(
        &self,
        hub: &Hub<Q, QH, P, PH, H>,
    ) -> BackpressureStrategy
        requires has { HasValue hub.now self.now.node self.now.number kinds.Server }
        ensures machine { (x : Given) → option_map (λ p. p.strategy)
            (port_at (state_of_hub x hub.now).fixed self.now.number) ≡ Some result }
        ensures told { option_map (λ p. p.strategy) (port_shown hub.now self.now.number)
            ≡ Some result }
    {
        hub.port_strategy(self.node, self.number)
    }

    /// The greatest length of its responses.
    pub fn initial_max_slice_len<H: Backpressure>(&self, hub: &Hub<Q, QH, P, PH, H>) -> u64
        requires has { HasValue hub.now self.now.node self.now.number kinds.Server }
        ensures machine { (x : Given) → option_map (λ p. p.longest)
            (port_at (state_of_hub x hub.now).fixed self.now.number) ≡ Some result }
        ensures told { option_map (λ p. p.longest) (port_shown hub.now self.now.number)
            ≡ Some result }
    {
        hub.port_longest(self.node, self.number)
    }

    /// Does nothing: ports are connected as they are made.
    pub fn update_connections<H: Backpressure>(
        &self,
        _hub: &Hub<Q, QH, P, PH, H>,
    ) -> Result<(), ConnectionFailure>
        requires has { HasValue _hub.now self.now.node self.now.number kinds.Server }
        ensures { IsOk result }
    {
        Ok(())
    }

    /// Whether the hub still has it.
    #[inline(always)]
    pub fn exists<H: Backpressure>(&self, hub: &Hub<Q, QH, P, PH, H>) -> bool
        ensures { IsTrue result ↔ HasValue hub.now self.now.node self.now.number kinds.Server }
    {
        hub.has(self.node, self.number, Kind::Server, self.place)
    }

    /// Gives it up. Where the hub no longer has it, nothing changes.
    pub fn release<H: Backpressure>(self, hub: &mut Hub<Q, QH, P, PH, H>)
        ensures { IsReleased hub.old self.node self.number kinds.Server hub.new }
    {
        let Server {
            node,
            number,
            place: _,
            of: _,
        } = self;
        release_port(hub, node, number, Kind::Server);
    }
}
