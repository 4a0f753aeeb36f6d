//! A request that was sent.
ghost use Rattle.std.specs.Prelude.{◌≡◌, ◌++◌, ◌↔◌, IfErr, IfOk, IfSome, IsTrue, flat_map};
ghost use Rattle.iox_model.specs.declared.call.Call.TheVariants as calls;
ghost use Rattle.iox_model.specs.declared.kind.Kind.TheVariants as kinds;
ghost use Rattle.iox_model.specs.declared.reply.Reply.TheVariants.{Answer, Done, Words};
ghost use Rattle.iox_model.specs.WholeCalls.{IsWholeCall};
ghost use Rattle.iox_tables.specs.HubStates.States.{Given};
ghost use Rattle.iox_hub_laws.specs.Headers.{IsHeaderShown, header_in, sender_in};
ghost use Rattle.iox_hub_laws.specs.Hubs.{HasValue, state_of_hub, with_control};
ghost use Rattle.iox_hub_laws.specs.Keeping.{HaveSameShapes, KeepsAll};
ghost use Rattle.iox_hub_laws.specs.Reads.{message_in};
ghost use Rattle.iox_hub_laws.specs.Receives.{CarriesWhatWaited, TakesResponse};
ghost use Rattle.iox_hub_laws.specs.Sends.{NothingComes};
ghost use Rattle.iox_hub_laws.specs.Waiting.{WaitedFor, client_in};
ghost use Rattle.iceoryx2_ports.specs.Answers.{received_response, reply_of_response};
ghost use Rattle.iceoryx2_ports.specs.Calls.{HasCallsLeft};
ghost use Rattle.iceoryx2_ports.specs.Headers.{request_header_of};
ghost use Rattle.iceoryx2_ports.specs.Holding.{KeepsValues};
ghost use Rattle.iceoryx2_ports.specs.Idling.{TakesTheOne};
ghost use Rattle.iceoryx2_ports.specs.Keeping.{KeepsAsking};
ghost use Rattle.iceoryx2_ports.specs.Opens.{KeepsRequests};
ghost use Rattle.iceoryx2_ports.specs.Reaching.{KeepsRoom};
ghost use Rattle.iceoryx2_ports.specs.Releases.{IsReleased};
ghost use Rattle.iceoryx2_ports.specs.Rooms.{TakesOfRoom};
ghost use Rattle.iceoryx2_ports.specs.Senders.{TakesFrom};
ghost use Rattle.iceoryx2_ports.specs.Streams.{AddsNothing};
ghost use Rattle.iceoryx2_ports.specs.declared.errors.ReceiveError.TheVariants.{ExceedsMaxBorrows};

use crate::errors::ReceiveError;
use crate::headers::request_header;
use crate::releases::release_handle;
use crate::response::Response;
use iox_hub_laws::{Backpressure, Hub, Received, receive_response};
use iox_model::kind::Kind;
use iox_store::Payload;
use iox_types::RequestHeader;
use iox_types::identifiers::UniqueNodeIdError;
use iox_words::Words;
use std::marker::PhantomData;

/// A request that was sent, and receives its responses.
pub struct PendingResponse<Q, QH, P, PH> {
    node: u64,
    number: u64,
    // Where the hub looks for it first. A wrong place is only slower.
    hint: usize,
    // To how many servers the request went.
    servers: u64,
    of: PhantomData<(Q, QH, P, PH)>,
}

impl<Q: Payload, QH: Words, P: Payload, PH: Words> PendingResponse<Q, QH, P, PH> {
    /// The node's pending response of that number, whose request went to so many servers.
    pub(crate) fn new(node: u64, number: u64, hint: usize, servers: u64) -> Self
        ensures node { result.node ≡ node }
        ensures number { result.number ≡ number }
        ensures servers { result.servers ≡ servers }
    {
        PendingResponse {
            node,
            number,
            hint,
            servers,
            of: PhantomData,
        }
    }

    /// To how many servers the request went.
    pub fn number_of_server_connections(&self) -> u64
        ensures { result ≡ self.now.servers }
    {
        self.servers
    }

    /// Receives a response, if one is there: one to its own request, that waits, comes next on its
    /// way and is new to the client. A response to another request is released and skipped.
    pub fn receive<H: Backpressure>(
        &self,
        hub: &mut Hub<Q, QH, P, PH, H>,
    ) -> Result<Option<Response<Q, QH, P, PH>>, ReceiveError>
        requires has { HasValue hub.old self.now.node self.now.number kinds.PendingResponse }
        requires calls { HasCallsLeft hub.old }
        ensures left { hub.new ≡ with_control hub.old hub.new.control }
        ensures whole { (x : Given) → IsWholeCall (state_of_hub x hub.old) self.now.node
            (calls.Receive self.now.number) (reply_of_response result) (state_of_hub x hub.new) }
        ensures has { IfOk result (λ got. IfSome got (λ response.
            HasValue hub.new response.node response.number kinds.Response)) }
        ensures node { IfOk result (λ got. IfSome got (λ response. response.node ≡ self.now.node)) }
        ensures keeps { KeepsValues hub.old hub.new }
        ensures shapes { HaveSameShapes hub.old hub.new }
        ensures asks { KeepsAsking hub.old hub.new }
        ensures refused { IfErr result (λ error. error ≡ ExceedsMaxBorrows) }
        ensures waited { WaitedFor hub.old (client_in hub.old self.now.node self.now.number)
            (received_response result) }
        ensures takes { TakesResponse hub.old self.now.node self.now.number
            (received_response result) hub.new }
        ensures carries { IfOk result (λ got. IfSome got (λ response.
            CarriesWhatWaited hub.old (client_in hub.old self.now.node self.now.number) hub.new
            response.node response.number)) }
        ensures from { IfOk result (λ got. IfSome got (λ response.
            TakesFrom hub.old (client_in hub.old self.now.node self.now.number) hub.new
            response.node response.number)) }
        ensures idle { IfOk result (λ got. IfSome got (λ response.
            TakesTheOne hub.old (client_in hub.old self.now.node self.now.number) hub.new
            response.node response.number)) }
        ensures room { IfOk result (λ got. IfSome got (λ response.
            TakesOfRoom hub.old (client_in hub.old self.now.node self.now.number) hub.new
            response.node response.number)) }
        ensures comes { NothingComes hub.old hub.new }
        ensures adds { AddsNothing hub.old hub.new }
        ensures requests { KeepsRequests hub.old hub.new }
    {
        hub.is_in_order();
        match receive_response(hub, self.node, self.number, self.hint) {
            Received::Handle(number) => {
                Ok(Some(Response::new(self.node, number, hub.last_place())))
            }
            Received::Nothing => Ok(None),
            Received::AtLimit => Err(ReceiveError::ExceedsMaxBorrows),
        }
    }

    /// Whether a response waits. It may be one to another request, so that nothing is received
    /// then.
    pub fn has_response<H: Backpressure>(&self, hub: &Hub<Q, QH, P, PH, H>) -> bool
        requires has { HasValue hub.now self.now.node self.now.number kinds.PendingResponse }
        ensures whole { (x : Given) → IsWholeCall (state_of_hub x hub.now) self.now.node
            (calls.HasResponse self.now.number) (Answer result) (state_of_hub x hub.now) }
    {
        hub.has_response(self.node, self.number, self.hint)
    }

    /// Tells each server that has the request open that its client wants no more responses.
    pub fn set_disconnect_hint<H: Backpressure>(&self, hub: &mut Hub<Q, QH, P, PH, H>)
        requires has { HasValue hub.old self.now.node self.now.number kinds.PendingResponse }
        ensures left { hub.new ≡ with_control hub.old hub.new.control }
        ensures whole { (x : Given) → IsWholeCall (state_of_hub x hub.old) self.now.node
            (calls.SetHint self.now.number) Done (state_of_hub x hub.new) }
        ensures comes { NothingComes hub.old hub.new }
        ensures keeps { KeepsAll hub.old hub.new }
        ensures shapes { HaveSameShapes hub.old hub.new }
        ensures asks { KeepsAsking hub.old hub.new }
        ensures room { KeepsRoom hub.old hub.new }
        ensures requests { KeepsRequests hub.old hub.new }
    {
        hub.set_hint(self.node, self.number, self.hint);
    }

    /// The payload of the request.
    pub fn payload<'a, H: Backpressure>(&self, hub: &'a Hub<Q, QH, P, PH, H>) -> &'a [Q::Element]
        requires has { HasValue hub.now self.now.node self.now.number kinds.PendingResponse }
        ensures words { flat_map Q.Element.words result.now
            ≡ (message_in hub.now self.now.node self.now.number).payload }
        ensures whole { (x : Given) → IsWholeCall (state_of_hub x hub.now) self.now.node
            (calls.Read self.now.number)
            (Words ((message_in hub.now self.now.node self.now.number).user
            ++ flat_map Q.Element.words result.now))
            (state_of_hub x hub.now) }
    {
        hub.request(self.node, self.number, self.hint)
    }

    /// The user header of the request.
    pub fn user_header<'a, H: Backpressure>(&self, hub: &'a Hub<Q, QH, P, PH, H>) -> &'a QH
        requires has { HasValue hub.now self.now.node self.now.number kinds.PendingResponse }
        ensures words { QH.words result.now
            ≡ (message_in hub.now self.now.node self.now.number).user }
        ensures whole { (x : Given) → IsWholeCall (state_of_hub x hub.now) self.now.node
            (calls.Read self.now.number)
            (Words (QH.words result.now
            ++ (message_in hub.now self.now.node self.now.number).payload))
            (state_of_hub x hub.now) }
    {
        hub.request_header(self.node, self.number, self.hint)
    }

    /// The header of the request. It fails where its client was made for an id that no node has.
    pub fn header<H: Backpressure>(
        &self,
        hub: &Hub<Q, QH, P, PH, H>,
    ) -> Result<RequestHeader, UniqueNodeIdError>
        requires has { HasValue hub.now self.now.node self.now.number kinds.PendingResponse }
        ensures header { result ≡ request_header_of
            (header_in hub.now self.now.node self.now.number) }
        ensures id { IfOk result (λ header. header.client_id
            ≡ (header_in hub.now self.now.node self.now.number).port_id) }
        ensures shown { IsHeaderShown hub.now self.now.node self.now.number }
        ensures sender { sender_in hub.now self.now.node self.now.number
            ≡ (client_in hub.now self.now.node self.now.number).port }
    {
        hub.is_in_order();
        request_header(hub.message_header(self.node, self.number, self.hint))
    }

    /// Whether the request is still open.
    pub fn is_connected<H: Backpressure>(&self, hub: &Hub<Q, QH, P, PH, H>) -> bool
        requires has { HasValue hub.now self.now.node self.now.number kinds.PendingResponse }
        ensures whole { (x : Given) → IsWholeCall (state_of_hub x hub.now) self.now.node
            (calls.IsConnected self.now.number) (Answer result) (state_of_hub x hub.now) }
    {
        hub.is_connected(self.node, self.number, self.hint)
    }

    /// Whether the hub still has it.
    #[inline(always)]
    pub fn exists<H: Backpressure>(&self, hub: &Hub<Q, QH, P, PH, H>) -> bool
        ensures { IsTrue result
            ↔ HasValue hub.now self.now.node self.now.number kinds.PendingResponse }
    {
        hub.has(self.node, self.number, Kind::PendingResponse, self.hint)
    }

    /// Gives it up. Where the hub no longer has it, nothing changes.
    #[inline(always)]
    pub fn release<H: Backpressure>(self, hub: &mut Hub<Q, QH, P, PH, H>)
        ensures { IsReleased hub.old self.node self.number kinds.PendingResponse hub.new }
    {
        let PendingResponse {
            node,
            number,
            hint,
            servers: _,
            of: _,
        } = self;
        release_handle(hub, node, number, Kind::PendingResponse, hint);
    }
}
