//! Loaned requests.
ghost use Rattle.std.specs.Prelude.{◌≡◌, ◌≢◌, ◌∷◌, ◌++◌, ◌↔◌, IfErr, IfOk, IsTrue, OnErr, OnOk};
ghost use Rattle.std.specs.Prelude.{[], flat_map, length};
ghost use Rattle.std.specs.Mem.{FitsInMemory};
ghost use Rattle.iox_model.specs.declared.call.Call.TheVariants as calls;
ghost use Rattle.iox_model.specs.declared.kind.Kind.TheVariants as kinds;
ghost use Rattle.iox_model.specs.declared.kind.Role.TheVariants as roles;
ghost use Rattle.iox_model.specs.declared.reply.Reply.TheVariants.{Done, Words};
ghost use Rattle.iox_model.specs.WholeCalls.{IsWholeCall};
ghost use Rattle.iox_tables.specs.HubStates.States.{Given};
ghost use Rattle.iox_hub_laws.specs.Headers.{IsHeaderShown, header_in, sender_in};
ghost use Rattle.iox_hub_laws.specs.Hubs.{HasValue, state_of_hub};
ghost use Rattle.iox_hub_laws.specs.Keeping.{HaveSameShapes, KeepsOthers};
ghost use Rattle.iox_hub_laws.specs.Lending.{IsWritten, payload_of};
ghost use Rattle.iox_hub_laws.specs.Reads.{message_in};
ghost use Rattle.iox_hub_laws.specs.Sending.{HasNothing};
ghost use Rattle.iox_hub_laws.specs.Sends.{BringsNothing, NothingComes, SendsRequest};
ghost use Rattle.iox_hub_laws.specs.Waiting.{client_in};
ghost use Rattle.iceoryx2_ports.specs.Arrivals.{BringsItsWords};
ghost use Rattle.iceoryx2_ports.specs.Asking.{AsksAs, BringsItsRequest, OpensAtServers};
ghost use Rattle.iceoryx2_ports.specs.Calls.{HasCallsLeft};
ghost use Rattle.iceoryx2_ports.specs.Headers.{request_header_of};
ghost use Rattle.iceoryx2_ports.specs.Idling.{BringsOne};
ghost use Rattle.iceoryx2_ports.specs.Keeping.{KeepsAsking};
ghost use Rattle.iceoryx2_ports.specs.Loans.{reply_of_request_send, reply_of_write};
ghost use Rattle.iceoryx2_ports.specs.Opens.{KeepsRequests};
ghost use Rattle.iceoryx2_ports.specs.Reaching.{KeepsRoom, ReachesServers};
ghost use Rattle.iceoryx2_ports.specs.Releases.{IsReleased};
ghost use Rattle.iceoryx2_ports.specs.Senders.{BringsFrom};

mod payloads;

use crate::errors::{RequestSendError, SendError};
use crate::headers::request_header;
use crate::loans::request_has_one;
use crate::pending_response::PendingResponse;
use crate::releases::release_handle;
use iox_hub_laws::{Backpressure, Hub, Requested, Written, send_request};
use iox_model::kind::Kind;
use iox_store::{One, Payload};
use iox_types::RequestHeader;
use iox_types::identifiers::UniqueNodeIdError;
use iox_words::Words;
use std::marker::PhantomData;

mod filling;

/// A loaned request that is not filled yet.
pub struct RequestMutUninit<Q, QH, P, PH> {
    node: u64,
    number: u64,
    // Where the hub looks for it first. A wrong place is only slower.
    hint: usize,
    of: PhantomData<(Q, QH, P, PH)>,
}

/// A loaned request that is filled: it may be sent.
pub struct RequestMut<Q, QH, P, PH> {
    node: u64,
    number: u64,
    // Where the hub looks for it first. A wrong place is only slower.
    hint: usize,
    of: PhantomData<(Q, QH, P, PH)>,
}

impl<Q: Payload, QH: Words, P: Payload, PH: Words> RequestMutUninit<Q, QH, P, PH> {
    /// The node's unfilled request of that number.
    pub(crate) fn new(node: u64, number: u64, hint: usize) -> Self
        ensures node { result.node ≡ node }
        ensures number { result.number ≡ number }
    {
        RequestMutUninit {
            node,
            number,
            hint,
            of: PhantomData,
        }
    }

    /// Fills the request with copies of these elements. Where they are not as many as it is loaned
    /// for, nothing changes, and the loan is given back.
    pub fn write_from_slice<H: Backpressure>(
        self,
        hub: &mut Hub<Q, QH, P, PH, H>,
        values: &[Q::Element],
    ) -> Result<RequestMut<Q, QH, P, PH>, Self>
        requires has { HasValue hub.old self.node self.number kinds.RequestMutUninit }
        ensures whole { (x : Given) → IsWholeCall (state_of_hub x hub.old) self.node
            (calls.Write self.number (payload_of roles.Client (length values.now)
            (flat_map Q.Element.words values.now))) (reply_of_write result)
            (state_of_hub x hub.new) }
        ensures written { IfOk result (λ filled. IsWritten hub.old filled.node filled.number
            kinds.RequestMut (length values.now) (flat_map Q.Element.words values.now) hub.new) }
        ensures node { IfOk result (λ filled. filled.node ≡ self.node) }
        ensures number { IfOk result (λ filled. filled.number ≡ self.number) }
        ensures asker { IfOk result (λ filled. AsksAs hub.old self.node self.number
            hub.new filled.node filled.number) }
        ensures refused { OnErr result
            ((message_in hub.old self.node self.number).elements ≢ length values.now) }
        ensures comes { NothingComes hub.old hub.new }
        ensures keeps { KeepsOthers hub.old self.node self.number hub.new }
        ensures shapes { HaveSameShapes hub.old hub.new }
        ensures asks { KeepsAsking hub.old hub.new }
        ensures room { KeepsRoom hub.old hub.new }
        ensures requests { KeepsRequests hub.old hub.new }
        ensures unchanged { OnErr result (hub.new ≡ hub.old) }
        ensures same { IfErr result (λ loan. loan ≡ self) }
    {
        match hub.write_request(self.node, self.number, self.hint, values) {
            Written::Done(_) => {
                let RequestMutUninit {
                    node,
                    number,
                    hint,
                    of,
                } = self;
                Ok(RequestMut {
                    node,
                    number,
                    hint,
                    of,
                })
            }
            Written::WrongLength => Err(self),
        }
    }

    /// The header of the request. It fails where its client was made for an id that no node has.
    pub fn header<H: Backpressure>(
        &self,
        hub: &Hub<Q, QH, P, PH, H>,
    ) -> Result<RequestHeader, UniqueNodeIdError>
        requires has { HasValue hub.now self.now.node self.now.number kinds.RequestMutUninit }
        ensures header { result ≡ request_header_of
            (header_in hub.now self.now.node self.now.number) }
        ensures id { IfOk result (λ header. header.client_id
            ≡ (header_in hub.now self.now.node self.now.number).port_id) }
        ensures shown { IsHeaderShown hub.now self.now.node self.now.number }
        ensures sender { sender_in hub.now self.now.node self.now.number
            ≡ (client_in hub.now self.now.node self.now.number).port }
    {
        hub.is_in_order();
        let header = hub.message_header(self.node, self.number, self.hint);
        request_header(header)
    }

    /// Whether the hub still has it.
    #[inline(always)]
    pub fn exists<H: Backpressure>(&self, hub: &Hub<Q, QH, P, PH, H>) -> bool
        ensures { IsTrue result
            ↔ HasValue hub.now self.now.node self.now.number kinds.RequestMutUninit }
    {
        hub.has(self.node, self.number, Kind::RequestMutUninit, self.hint)
    }

    /// Gives it up. Where the hub no longer has it, nothing changes.
    pub fn release<H: Backpressure>(self, hub: &mut Hub<Q, QH, P, PH, H>)
        ensures { IsReleased hub.old self.node self.number kinds.RequestMutUninit hub.new }
    {
        let RequestMutUninit {
            node,
            number,
            hint,
            of: _,
        } = self;
        release_handle(hub, node, number, Kind::RequestMutUninit, hint);
    }
}

impl<E: Words, QH: Words, P: Payload, PH: Words> RequestMutUninit<One<E>, QH, P, PH> {
    /// Fills the request with that value.
    pub fn write_payload<H: Backpressure>(
        self,
        hub: &mut Hub<One<E>, QH, P, PH, H>,
        value: E,
    ) -> RequestMut<One<E>, QH, P, PH>
        requires has { HasValue hub.old self.node self.number kinds.RequestMutUninit }
        requires small { FitsInMemory E.row }
        ensures whole { (x : Given) → IsWholeCall (state_of_hub x hub.old) self.node
            (calls.Write self.number (payload_of roles.Client 1 (flat_map E.words (value ∷ []))))
            Done (state_of_hub x hub.new) }
        ensures written { IsWritten hub.old self.node self.number kinds.RequestMut 1
            (flat_map E.words (value ∷ [])) hub.new }
        ensures asker { AsksAs hub.old self.node self.number hub.new result.node result.number }
        ensures comes { NothingComes hub.old hub.new }
        ensures keeps { KeepsOthers hub.old self.node self.number hub.new }
        ensures shapes { HaveSameShapes hub.old hub.new }
        ensures asks { KeepsAsking hub.old hub.new }
        ensures room { KeepsRoom hub.old hub.new }
        ensures requests { KeepsRequests hub.old hub.new }
        ensures node { result.node ≡ self.node }
        ensures number { result.number ≡ self.number }
    {
        let RequestMutUninit {
            node,
            number,
            hint,
            of,
        } = self;
        request_has_one(hub, node, number);
        let filled = hub.write_one_request(node, number, hint, value);
        RequestMut {
            node: filled.node,
            number: filled.number,
            hint: filled.hint,
            of,
        }
    }
}

impl<Q: Payload, QH: Words, P: Payload, PH: Words> RequestMut<Q, QH, P, PH> {
    /// The node's filled request of that number.
    pub(crate) fn new(node: u64, number: u64, hint: usize) -> Self
        ensures node { result.node ≡ node }
        ensures number { result.number ≡ number }
    {
        RequestMut {
            node,
            number,
            hint,
            of: PhantomData,
        }
    }

    /// The payload of the request.
    pub fn payload<'a, H: Backpressure>(&self, hub: &'a Hub<Q, QH, P, PH, H>) -> &'a [Q::Element]
        requires has { HasValue hub.now self.now.node self.now.number kinds.RequestMut }
        ensures words { flat_map Q.Element.words result.now
            ≡ (message_in hub.now self.now.node self.now.number).payload }
        ensures whole { (x : Given) → IsWholeCall (state_of_hub x hub.now) self.now.node
            (calls.Read self.now.number)
            (Words ((message_in hub.now self.now.node self.now.number).user
            ++ flat_map Q.Element.words result.now))
            (state_of_hub x hub.now) }
    {
        hub.request(self.node, self.number, self.hint)
    }

    /// The user header of the request.
    pub fn user_header<'a, H: Backpressure>(&self, hub: &'a Hub<Q, QH, P, PH, H>) -> &'a QH
        requires has { HasValue hub.now self.now.node self.now.number kinds.RequestMut }
        ensures words { QH.words result.now
            ≡ (message_in hub.now self.now.node self.now.number).user }
        ensures whole { (x : Given) → IsWholeCall (state_of_hub x hub.now) self.now.node
            (calls.Read self.now.number)
            (Words (QH.words result.now
            ++ (message_in hub.now self.now.node self.now.number).payload))
            (state_of_hub x hub.now) }
    {
        hub.request_header(self.node, self.number, self.hint)
    }

    /// The header of the request. It fails where its client was made for an id that no node has.
    pub fn header<H: Backpressure>(
        &self,
        hub: &Hub<Q, QH, P, PH, H>,
    ) -> Result<RequestHeader, UniqueNodeIdError>
        requires has { HasValue hub.now self.now.node self.now.number kinds.RequestMut }
        ensures header { result ≡ request_header_of
            (header_in hub.now self.now.node self.now.number) }
        ensures id { IfOk result (λ header. header.client_id
            ≡ (header_in hub.now self.now.node self.now.number).port_id) }
        ensures shown { IsHeaderShown hub.now self.now.node self.now.number }
        ensures sender { sender_in hub.now self.now.node self.now.number
            ≡ (client_in hub.now self.now.node self.now.number).port }
    {
        hub.is_in_order();
        request_header(hub.message_header(self.node, self.number, self.hint))
    }

    /// Sends the request to all servers. Where that fails, the request is lost.
    pub fn send<H: Backpressure>(
        self,
        hub: &mut Hub<Q, QH, P, PH, H>,
    ) -> Result<PendingResponse<Q, QH, P, PH>, RequestSendError>
        requires has { HasValue hub.old self.node self.number kinds.RequestMut }
        requires calls { HasCallsLeft hub.old }
        ensures whole { (x : Given) → IsWholeCall (state_of_hub x hub.old) self.node
            (calls.Send self.number) (reply_of_request_send result) (state_of_hub x hub.new) }
        ensures has { IfOk result (λ pending.
            HasValue hub.new pending.node pending.number kinds.PendingResponse) }
        ensures node { IfOk result (λ pending. pending.node ≡ self.node) }
        ensures number { IfOk result (λ pending. pending.number ≡ self.number) }
        ensures gone { OnErr result (HasNothing hub.new self.node self.number) }
        ensures one { OnOk result (BringsOne hub.old hub.new) }
        ensures asker { IfOk result (λ pending. AsksAs hub.old self.node self.number
            hub.new pending.node pending.number) }
        ensures asked { IfOk result (λ pending. BringsItsRequest hub.old
            (client_in hub.new pending.node pending.number) hub.new) }
        ensures opens { IfOk result (λ pending. OpensAtServers hub.old
            (client_in hub.new pending.node pending.number) hub.new) }
        ensures sent { OnOk result (SendsRequest hub.old self.node self.number hub.new) }
        ensures unsent { OnErr result (BringsNothing hub.old self.node self.number hub.new) }
        ensures only { BringsItsWords hub.old self.node self.number hub.new }
        ensures from { BringsFrom hub.old (client_in hub.old self.node self.number).port hub.new }
        ensures reaches { OnOk result (ReachesServers hub.old hub.new) }
        ensures keeps { KeepsOthers hub.old self.node self.number hub.new }
        ensures shapes { HaveSameShapes hub.old hub.new }
        ensures asks { KeepsAsking hub.old hub.new }
    {
        let RequestMut {
            node,
            number,
            hint,
            of: _,
        } = self;
        hub.is_in_order();
        match send_request(hub, node, number, hint) {
            Requested::To(servers) => Ok(PendingResponse::new(node, number, hint, servers)),
            Requested::ExceedsMaxActiveRequests => Err(RequestSendError::ExceedsMaxActiveRequests),
            Requested::UnableToDeliver => {
                Err(RequestSendError::SendError(SendError::UnableToDeliver))
            }
        }
    }

    /// Whether the hub still has it.
    #[inline(always)]
    pub fn exists<H: Backpressure>(&self, hub: &Hub<Q, QH, P, PH, H>) -> bool
        ensures { IsTrue result ↔ HasValue hub.now self.now.node self.now.number kinds.RequestMut }
    {
        hub.has(self.node, self.number, Kind::RequestMut, self.hint)
    }

    /// Gives it up. Where the hub no longer has it, nothing changes.
    pub fn release<H: Backpressure>(self, hub: &mut Hub<Q, QH, P, PH, H>)
        ensures { IsReleased hub.old self.node self.number kinds.RequestMut hub.new }
    {
        let RequestMut {
            node,
            number,
            hint,
            of: _,
        } = self;
        release_handle(hub, node, number, Kind::RequestMut, hint);
    }
}
