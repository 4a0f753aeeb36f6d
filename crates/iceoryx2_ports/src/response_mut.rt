//! Loaned responses.
ghost use Rattle.std.specs.Prelude.{◌≡◌, ◌≢◌, ◌∷◌, ◌++◌, ◌↔◌, IfErr, IfOk, IsTrue, OnErr, OnOk};
ghost use Rattle.std.specs.Prelude.{ℕ, [], flat_map, length};
ghost use Rattle.std.specs.Mem.{FitsInMemory};
ghost use Rattle.iox_model.specs.declared.call.Call.TheVariants as calls;
ghost use Rattle.iox_model.specs.declared.kind.Kind.TheVariants as kinds;
ghost use Rattle.iox_model.specs.declared.kind.Role.TheVariants as roles;
ghost use Rattle.iox_model.specs.declared.reply.Reply.TheVariants.{Done, Words};
ghost use Rattle.iox_model.specs.WholeCalls.{IsWholeCall};
ghost use Rattle.iox_tables.specs.HubStates.States.{Given};
ghost use Rattle.iox_hub_laws.specs.Headers.{IsHeaderShown, header_in, sender_in};
ghost use Rattle.iox_hub_laws.specs.Hubs.{HasValue, state_of_hub};
ghost use Rattle.iox_hub_laws.specs.Keeping.{HaveSameShapes, KeepsOthers};
ghost use Rattle.iox_hub_laws.specs.Lending.{IsWritten, payload_of};
ghost use Rattle.iox_hub_laws.specs.Reads.{message_in};
ghost use Rattle.iox_hub_laws.specs.Sending.{HasNothing};
ghost use Rattle.iox_hub_laws.specs.Sends.{BringsNothing, NothingComes, SendsResponse};
ghost use Rattle.iceoryx2_ports.specs.Arrivals.{BringsItsWords};
ghost use Rattle.iceoryx2_ports.specs.Asking.{AnswersAs};
ghost use Rattle.iceoryx2_ports.specs.Calls.{HasCallsLeft};
ghost use Rattle.iceoryx2_ports.specs.Headers.{response_header_of};
ghost use Rattle.iceoryx2_ports.specs.Idling.{BringsOne};
ghost use Rattle.iceoryx2_ports.specs.Keeping.{KeepsAsking};
ghost use Rattle.iceoryx2_ports.specs.Loans.{reply_of_response_send, reply_of_write};
ghost use Rattle.iceoryx2_ports.specs.Opens.{ClosesNone, KeepsRequests};
ghost use Rattle.iceoryx2_ports.specs.Reaching.{KeepsRoom};
ghost use Rattle.iceoryx2_ports.specs.Releases.{IsReleased};
ghost use Rattle.iceoryx2_ports.specs.Responses.{ReachesItsAsker, answerer_in};
ghost use Rattle.iceoryx2_ports.specs.Senders.{BringsFrom};

mod payloads;

use crate::errors::SendError;
use crate::headers::response_header;
use crate::loans::response_has_one;
use crate::releases::release_handle;
use iox_hub_laws::{Backpressure, Hub, Responded, Written, send_response};
use iox_model::kind::Kind;
use iox_store::{One, Payload};
use iox_types::ResponseHeader;
use iox_types::identifiers::UniqueNodeIdError;
use iox_words::Words;
use std::marker::PhantomData;

mod filling;

/// A loaned response that is not filled yet.
pub struct ResponseMutUninit<Q, QH, P, PH> {
    node: u64,
    number: u64,
    // Where the hub looks for it first. A wrong place is only slower.
    hint: usize,
    of: PhantomData<(Q, QH, P, PH)>,
}

/// A loaned response that is filled: it may be sent.
pub struct ResponseMut<Q, QH, P, PH> {
    node: u64,
    number: u64,
    // Where the hub looks for it first. A wrong place is only slower.
    hint: usize,
    of: PhantomData<(Q, QH, P, PH)>,
}

impl<Q: Payload, QH: Words, P: Payload, PH: Words> ResponseMutUninit<Q, QH, P, PH> {
    /// The node's unfilled response of that number.
    pub(crate) fn new(node: u64, number: u64, hint: usize) -> Self
        ensures node { result.node ≡ node }
        ensures number { result.number ≡ number }
    {
        ResponseMutUninit {
            node,
            number,
            hint,
            of: PhantomData,
        }
    }

    /// Fills the response with copies of these elements. Where they are not as many as it is loaned
    /// for, nothing changes, and the loan is given back.
    pub fn write_from_slice<H: Backpressure>(
        self,
        hub: &mut Hub<Q, QH, P, PH, H>,
        values: &[P::Element],
    ) -> Result<ResponseMut<Q, QH, P, PH>, Self>
        requires has { HasValue hub.old self.node self.number kinds.ResponseMutUninit }
        ensures whole { (x : Given) → IsWholeCall (state_of_hub x hub.old) self.node
            (calls.Write self.number (payload_of roles.Server (length values.now)
            (flat_map P.Element.words values.now))) (reply_of_write result)
            (state_of_hub x hub.new) }
        ensures written { IfOk result (λ filled. IsWritten hub.old filled.node filled.number
            kinds.ResponseMut (length values.now) (flat_map P.Element.words values.now) hub.new) }
        ensures node { IfOk result (λ filled. filled.node ≡ self.node) }
        ensures number { IfOk result (λ filled. filled.number ≡ self.number) }
        ensures answers { IfOk result (λ filled. AnswersAs hub.old self.node self.number
            hub.new filled.node filled.number) }
        ensures refused { OnErr result
            ((message_in hub.old self.node self.number).elements ≢ length values.now) }
        ensures comes { NothingComes hub.old hub.new }
        ensures keeps { KeepsOthers hub.old self.node self.number hub.new }
        ensures shapes { HaveSameShapes hub.old hub.new }
        ensures asks { KeepsAsking hub.old hub.new }
        ensures room { KeepsRoom hub.old hub.new }
        ensures requests { KeepsRequests hub.old hub.new }
        ensures unchanged { OnErr result (hub.new ≡ hub.old) }
        ensures same { IfErr result (λ loan. loan ≡ self) }
    {
        match hub.write_response(self.node, self.number, self.hint, values) {
            Written::Done(_) => {
                let ResponseMutUninit {
                    node,
                    number,
                    hint,
                    of,
                } = self;
                Ok(ResponseMut {
                    node,
                    number,
                    hint,
                    of,
                })
            }
            Written::WrongLength => Err(self),
        }
    }

    /// The header of the response. It fails where its server was made for an id that no node has.
    pub fn header<H: Backpressure>(
        &self,
        hub: &Hub<Q, QH, P, PH, H>,
    ) -> Result<ResponseHeader, UniqueNodeIdError>
        requires has { HasValue hub.now self.now.node self.now.number kinds.ResponseMutUninit }
        ensures header { result ≡ response_header_of
            (header_in hub.now self.now.node self.now.number) }
        ensures id { IfOk result (λ header. header.server_id
            ≡ (header_in hub.now self.now.node self.now.number).port_id) }
        ensures shown { IsHeaderShown hub.now self.now.node self.now.number }
        ensures sender { sender_in hub.now self.now.node self.now.number
            ≡ answerer_in hub.now self.now.node self.now.number }
    {
        hub.is_in_order();
        let header = hub.message_header(self.node, self.number, self.hint);
        response_header(header)
    }

    /// Whether the hub still has it.
    #[inline(always)]
    pub fn exists<H: Backpressure>(&self, hub: &Hub<Q, QH, P, PH, H>) -> bool
        ensures { IsTrue result
            ↔ HasValue hub.now self.now.node self.now.number kinds.ResponseMutUninit }
    {
        hub.has(self.node, self.number, Kind::ResponseMutUninit, self.hint)
    }

    /// Gives it up. Where the hub no longer has it, nothing changes.
    pub fn release<H: Backpressure>(self, hub: &mut Hub<Q, QH, P, PH, H>)
        ensures { IsReleased hub.old self.node self.number kinds.ResponseMutUninit hub.new }
    {
        let ResponseMutUninit {
            node,
            number,
            hint,
            of: _,
        } = self;
        release_handle(hub, node, number, Kind::ResponseMutUninit, hint);
    }
}

impl<Q: Payload, QH: Words, E: Words, PH: Words> ResponseMutUninit<Q, QH, One<E>, PH> {
    /// Fills the response with that value.
    pub fn write_payload<H: Backpressure>(
        self,
        hub: &mut Hub<Q, QH, One<E>, PH, H>,
        value: E,
    ) -> ResponseMut<Q, QH, One<E>, PH>
        requires has { HasValue hub.old self.node self.number kinds.ResponseMutUninit }
        requires small { FitsInMemory E.row }
        ensures whole { (x : Given) → IsWholeCall (state_of_hub x hub.old) self.node
            (calls.Write self.number (payload_of roles.Server 1 (flat_map E.words (value ∷ []))))
            Done (state_of_hub x hub.new) }
        ensures written { IsWritten hub.old self.node self.number kinds.ResponseMut 1
            (flat_map E.words (value ∷ [])) hub.new }
        ensures answers { AnswersAs hub.old self.node self.number
            hub.new result.node result.number }
        ensures comes { NothingComes hub.old hub.new }
        ensures keeps { KeepsOthers hub.old self.node self.number hub.new }
        ensures shapes { HaveSameShapes hub.old hub.new }
        ensures asks { KeepsAsking hub.old hub.new }
        ensures room { KeepsRoom hub.old hub.new }
        ensures requests { KeepsRequests hub.old hub.new }
        ensures node { result.node ≡ self.node }
        ensures number { result.number ≡ self.number }
    {
        let ResponseMutUninit {
            node,
            number,
            hint,
            of,
        } = self;
        response_has_one(hub, node, number);
        let filled = hub.write_one_response(node, number, hint, value);
        ResponseMut {
            node: filled.node,
            number: filled.number,
            hint: filled.hint,
            of,
        }
    }
}

impl<Q: Payload, QH: Words, P: Payload, PH: Words> ResponseMut<Q, QH, P, PH> {
    /// The node's filled response of that number.
    pub(crate) fn new(node: u64, number: u64, hint: usize) -> Self
        ensures node { result.node ≡ node }
        ensures number { result.number ≡ number }
    {
        ResponseMut {
            node,
            number,
            hint,
            of: PhantomData,
        }
    }

    /// The payload of the response.
    pub fn payload<'a, H: Backpressure>(&self, hub: &'a Hub<Q, QH, P, PH, H>) -> &'a [P::Element]
        requires has { HasValue hub.now self.now.node self.now.number kinds.ResponseMut }
        ensures words { flat_map P.Element.words result.now
            ≡ (message_in hub.now self.now.node self.now.number).payload }
        ensures whole { (x : Given) → IsWholeCall (state_of_hub x hub.now) self.now.node
            (calls.Read self.now.number)
            (Words ((message_in hub.now self.now.node self.now.number).user
            ++ flat_map P.Element.words result.now))
            (state_of_hub x hub.now) }
    {
        hub.response(self.node, self.number, self.hint)
    }

    /// The user header of the response.
    pub fn user_header<'a, H: Backpressure>(&self, hub: &'a Hub<Q, QH, P, PH, H>) -> &'a PH
        requires has { HasValue hub.now self.now.node self.now.number kinds.ResponseMut }
        ensures words { PH.words result.now
            ≡ (message_in hub.now self.now.node self.now.number).user }
        ensures whole { (x : Given) → IsWholeCall (state_of_hub x hub.now) self.now.node
            (calls.Read self.now.number)
            (Words (PH.words result.now
            ++ (message_in hub.now self.now.node self.now.number).payload))
            (state_of_hub x hub.now) }
    {
        hub.response_header(self.node, self.number, self.hint)
    }

    /// The header of the response. It fails where its server was made for an id that no node has.
    pub fn header<H: Backpressure>(
        &self,
        hub: &Hub<Q, QH, P, PH, H>,
    ) -> Result<ResponseHeader, UniqueNodeIdError>
        requires has { HasValue hub.now self.now.node self.now.number kinds.ResponseMut }
        ensures header { result ≡ response_header_of
            (header_in hub.now self.now.node self.now.number) }
        ensures id { IfOk result (λ header. header.server_id
            ≡ (header_in hub.now self.now.node self.now.number).port_id) }
        ensures shown { IsHeaderShown hub.now self.now.node self.now.number }
        ensures sender { sender_in hub.now self.now.node self.now.number
            ≡ answerer_in hub.now self.now.node self.now.number }
    {
        hub.is_in_order();
        response_header(hub.message_header(self.node, self.number, self.hint))
    }

    /// Sends the response to its client. Where that fails, the response is lost.
    pub fn send<H: Backpressure>(self, hub: &mut Hub<Q, QH, P, PH, H>) -> Result<(), SendError>
        requires has { HasValue hub.old self.node self.number kinds.ResponseMut }
        requires calls { HasCallsLeft hub.old }
        ensures whole { (x : Given) → IsWholeCall (state_of_hub x hub.old) self.node
            (calls.Send self.number) (reply_of_response_send result) (state_of_hub x hub.new) }
        ensures gone { HasNothing hub.new self.node self.number }
        ensures sent { OnOk result (SendsResponse hub.old self.node self.number hub.new) }
        ensures unsent { OnErr result (BringsNothing hub.old self.node self.number hub.new) }
        ensures one { OnOk result ((owner : ℕ)
            → HasValue hub.old owner (answerer_in hub.old self.node self.number) kinds.Server
            → BringsOne hub.old hub.new) }
        ensures only { BringsItsWords hub.old self.node self.number hub.new }
        ensures from { BringsFrom hub.old (answerer_in hub.old self.node self.number) hub.new }
        ensures reaches { OnOk result
            (ReachesItsAsker hub.old self.node self.number hub.new) }
        ensures requests { ClosesNone hub.old self.node self.number hub.new }
        ensures keeps { KeepsOthers hub.old self.node self.number hub.new }
        ensures shapes { HaveSameShapes hub.old hub.new }
        ensures asks { KeepsAsking hub.old hub.new }
    {
        let ResponseMut {
            node,
            number,
            hint,
            of: _,
        } = self;
        hub.is_in_order();
        match send_response(hub, node, number, hint) {
            Responded::Done => {
                hub.is_in_order();
                Ok(())
            }
            Responded::Undelivered => {
                hub.is_in_order();
                Err(SendError::UnableToDeliver)
            }
        }
    }

    /// Whether the hub still has it.
    #[inline(always)]
    pub fn exists<H: Backpressure>(&self, hub: &Hub<Q, QH, P, PH, H>) -> bool
        ensures { IsTrue result ↔ HasValue hub.now self.now.node self.now.number kinds.ResponseMut }
    {
        hub.has(self.node, self.number, Kind::ResponseMut, self.hint)
    }

    /// Gives it up. Where the hub no longer has it, nothing changes.
    pub fn release<H: Backpressure>(self, hub: &mut Hub<Q, QH, P, PH, H>)
        ensures { IsReleased hub.old self.node self.number kinds.ResponseMut hub.new }
    {
        let ResponseMut {
            node,
            number,
            hint,
            of: _,
        } = self;
        release_handle(hub, node, number, Kind::ResponseMut, hint);
    }
}
