//! A request that a server received.
ghost use Rattle.std.specs.Prelude.{◌≡◌, ◌≢◌, ◌++◌, ◌↔◌, Err, IfErr, IfNone, IfOk, IfSome, IsSome};
ghost use Rattle.std.specs.Prelude.{IsOk, IsTrue, OnErr, OnOk, [], false, flat_map, true};
ghost use Rattle.iox_model.specs.declared.call.Call.TheVariants as calls;
ghost use Rattle.iox_model.specs.declared.kind.Kind.TheVariants as kinds;
ghost use Rattle.iox_model.specs.declared.kind.Role.TheVariants as roles;
ghost use Rattle.iox_model.specs.declared.reply.Reply.TheVariants.{Answer, Words};
ghost use Rattle.iox_model.specs.WholeCalls.{IsWholeCall};
ghost use Rattle.iox_tables.specs.HubStates.States.{Given};
ghost use Rattle.iox_hub_laws.specs.Headers.{IsHeaderShown, header_in, sender_in};
ghost use Rattle.iox_hub_laws.specs.Hubs.{HasValue, state_of_hub, with_control};
ghost use Rattle.iox_hub_laws.specs.Keeping.{HaveSameShapes, KeepsAll};
ghost use Rattle.iox_hub_laws.specs.Lending.{IsFresh};
ghost use Rattle.iox_hub_laws.specs.Reads.{message_in};
ghost use Rattle.iceoryx2_ports.specs.Headers.{request_header_of};
ghost use Rattle.iox_hub_laws.specs.Sending.{HasNothing};
ghost use Rattle.iox_hub_laws.specs.Sends.{NothingComes};
ghost use Rattle.iceoryx2_ports.specs.Asking.{AnswersAs};
ghost use Rattle.iceoryx2_ports.specs.Idling.{GivesBack};
ghost use Rattle.iceoryx2_ports.specs.Keeping.{KeepsAsking};
ghost use Rattle.iceoryx2_ports.specs.LoanLimits.{CanRespond, HasAllResponses};
ghost use Rattle.iceoryx2_ports.specs.LoanLimits.{RespondsAtMostLongest, RespondsOneMore};
ghost use Rattle.iceoryx2_ports.specs.Loans.{reply_of_loan};
ghost use Rattle.iceoryx2_ports.specs.Opens.{KeepsRequests};
ghost use Rattle.iceoryx2_ports.specs.Payloads.{BeginsWith};
ghost use Rattle.iceoryx2_ports.specs.Reaching.{KeepsRoom};
ghost use Rattle.iceoryx2_ports.specs.Releases.{IsReleased};
ghost use Rattle.iceoryx2_ports.specs.Responses.{asker_in, is_open};
ghost use Rattle.iceoryx2_ports.specs.declared.errors.LoanError.TheVariants.{ExceedsMaxLoans};
ghost use Rattle.iceoryx2_ports.specs.declared.errors.LoanError.TheVariants.{OutOfMemory};
ghost use Rattle.iceoryx2_ports.specs.declared.errors.LoanError.TheVariants.{WantOfMemory};

use crate::errors::LoanError;
use crate::headers::request_header;
use crate::loans::lend_response;
use crate::releases::release_handle;
use crate::response_mut::{ResponseMut, ResponseMutUninit};
use iox_hub_laws::{Backpressure, Hub};
use iox_model::kind::Kind;
use iox_store::{Many, One, Payload};
use iox_types::RequestHeader;
use iox_types::identifiers::{UniqueClientId, UniqueNodeIdError};
use iox_words::Words;
use std::marker::PhantomData;

mod send_copy;

/// A request that a server received, and may answer as often as it likes.
pub struct ActiveRequest<Q, QH, P, PH> {
    node: u64,
    number: u64,
    // Where the hub looks for it first. A wrong place is only slower.
    hint: usize,
    of: PhantomData<(Q, QH, P, PH)>,
}

impl<Q: Payload, QH: Words, P: Payload, PH: Words> ActiveRequest<Q, QH, P, PH> {
    /// The node's active request of that number.
    pub(crate) fn new(node: u64, number: u64, hint: usize) -> Self
        ensures node { result.node ≡ node }
        ensures number { result.number ≡ number }
    {
        ActiveRequest {
            node,
            number,
            hint,
            of: PhantomData,
        }
    }

    /// The payload of the request.
    pub fn payload<'a, H: Backpressure>(&self, hub: &'a Hub<Q, QH, P, PH, H>) -> &'a [Q::Element]
        requires has { HasValue hub.now self.now.node self.now.number kinds.ActiveRequest }
        ensures words { flat_map Q.Element.words result.now
            ≡ (message_in hub.now self.now.node self.now.number).payload }
        ensures whole { (x : Given) → IsWholeCall (state_of_hub x hub.now) self.now.node
            (calls.Read self.now.number)
            (Words ((message_in hub.now self.now.node self.now.number).user
            ++ flat_map Q.Element.words result.now))
            (state_of_hub x hub.now) }
    {
        hub.request(self.node, self.number, self.hint)
    }

    /// The first element of the request, if it has one.
    pub fn first<'a, H: Backpressure>(
        &self,
        hub: &'a Hub<Q, QH, P, PH, H>,
    ) -> Option<&'a Q::Element>
        requires has { HasValue hub.now self.now.node self.now.number kinds.ActiveRequest }
        ensures words { IfSome result (λ element.
            BeginsWith (message_in hub.now self.now.node self.now.number).payload
            (Q.Element.words element.now)) }
        ensures none { IfNone result
            ((message_in hub.now self.now.node self.now.number).payload ≡ []) }
    {
        self.payload(hub).first()
    }

    /// The user header of the request.
    pub fn user_header<'a, H: Backpressure>(&self, hub: &'a Hub<Q, QH, P, PH, H>) -> &'a QH
        requires has { HasValue hub.now self.now.node self.now.number kinds.ActiveRequest }
        ensures words { QH.words result.now
            ≡ (message_in hub.now self.now.node self.now.number).user }
        ensures whole { (x : Given) → IsWholeCall (state_of_hub x hub.now) self.now.node
            (calls.Read self.now.number)
            (Words (QH.words result.now
            ++ (message_in hub.now self.now.node self.now.number).payload))
            (state_of_hub x hub.now) }
    {
        hub.request_header(self.node, self.number, self.hint)
    }

    /// The header of the request. It fails where its client was made for an id that no node has.
    pub fn header<H: Backpressure>(
        &self,
        hub: &Hub<Q, QH, P, PH, H>,
    ) -> Result<RequestHeader, UniqueNodeIdError>
        requires has { HasValue hub.now self.now.node self.now.number kinds.ActiveRequest }
        ensures header { result ≡ request_header_of
            (header_in hub.now self.now.node self.now.number) }
        ensures id { IfOk result (λ header. header.client_id
            ≡ (header_in hub.now self.now.node self.now.number).port_id) }
        ensures shown { IsHeaderShown hub.now self.now.node self.now.number }
        ensures sender { sender_in hub.now self.now.node self.now.number
            ≡ (asker_in hub.now self.now.node self.now.number).port }
    {
        hub.is_in_order();
        request_header(hub.message_header(self.node, self.number, self.hint))
    }

    /// The id of the client that sent the request.
    pub fn origin<H: Backpressure>(&self, hub: &Hub<Q, QH, P, PH, H>) -> UniqueClientId
        requires has { HasValue hub.now self.now.node self.now.number kinds.ActiveRequest }
        ensures id { result ≡ (header_in hub.now self.now.node self.now.number).port_id }
        ensures shown { IsHeaderShown hub.now self.now.node self.now.number }
        ensures sender { sender_in hub.now self.now.node self.now.number
            ≡ (asker_in hub.now self.now.node self.now.number).port }
    {
        hub.is_in_order();
        let header = hub.message_header(self.node, self.number, self.hint);
        UniqueClientId::new(header.port_id)
    }

    /// Whether the request is still open.
    pub fn is_connected<H: Backpressure>(&self, hub: &Hub<Q, QH, P, PH, H>) -> bool
        requires has { HasValue hub.now self.now.node self.now.number kinds.ActiveRequest }
        ensures whole { (x : Given) → IsWholeCall (state_of_hub x hub.now) self.now.node
            (calls.IsConnected self.now.number) (Answer result) (state_of_hub x hub.now) }
        ensures told { result ≡ is_open hub.now self.now.node self.now.number }
    {
        hub.is_in_order();
        hub.is_connected(self.node, self.number, self.hint)
    }

    /// Whether its client told that it wants no more responses.
    pub fn has_disconnect_hint<H: Backpressure>(&self, hub: &Hub<Q, QH, P, PH, H>) -> bool
        requires has { HasValue hub.now self.now.node self.now.number kinds.ActiveRequest }
        ensures whole { (x : Given) → IsWholeCall (state_of_hub x hub.now) self.now.node
            (calls.HasHint self.now.number) (Answer result) (state_of_hub x hub.now) }
    {
        hub.has_hint(self.node, self.number, self.hint)
    }

    /// Whether the hub still has it.
    #[inline(always)]
    pub fn exists<H: Backpressure>(&self, hub: &Hub<Q, QH, P, PH, H>) -> bool
        ensures { IsTrue result
            ↔ HasValue hub.now self.now.node self.now.number kinds.ActiveRequest }
    {
        hub.has(self.node, self.number, Kind::ActiveRequest, self.hint)
    }

    /// Gives it up. Where the hub no longer has it, nothing changes.
    #[inline(always)]
    pub fn release<H: Backpressure>(self, hub: &mut Hub<Q, QH, P, PH, H>)
        ensures released { IsReleased hub.old self.node self.number kinds.ActiveRequest hub.new }
        ensures idle { GivesBack hub.old self.node self.number kinds.ActiveRequest hub.new }
    {
        let ActiveRequest {
            node,
            number,
            hint,
            of: _,
        } = self;
        release_handle(hub, node, number, Kind::ActiveRequest, hint);
    }
}

impl<Q: Payload, QH: Words, E: Words, PH: Words> ActiveRequest<Q, QH, One<E>, PH> {
    /// Loans a response that is not filled yet.
    pub fn loan_uninit<H: Backpressure>(
        &self,
        hub: &mut Hub<Q, QH, One<E>, PH, H>,
    ) -> Result<ResponseMutUninit<Q, QH, One<E>, PH>, LoanError>
        requires has { HasValue hub.old self.now.node self.now.number kinds.ActiveRequest }
        ensures whole { (x : Given) → IsWholeCall (state_of_hub x hub.old) self.now.node
            (calls.LoanUninit self.now.number 1) (reply_of_loan (λ loan. loan.number) result)
            (state_of_hub x hub.new) }
        ensures fresh { IfOk result (λ loan.
            IsFresh hub.new loan.node loan.number roles.Server hub.old.response true 1) }
        ensures node { IfOk result (λ loan. loan.node ≡ self.now.node) }
        ensures comes { NothingComes hub.old hub.new }
        ensures new { IfOk result (λ loan. HasNothing hub.old self.now.node loan.number) }
        ensures keeps { KeepsAll hub.old hub.new }
        ensures shapes { HaveSameShapes hub.old hub.new }
        ensures asks { KeepsAsking hub.old hub.new }
        ensures room { KeepsRoom hub.old hub.new }
        ensures requests { KeepsRequests hub.old hub.new }
        ensures answers { IfOk result (λ loan. AnswersAs hub.old self.now.node self.now.number
            hub.new loan.node loan.number) }
        ensures counted { OnOk result
            (RespondsOneMore hub.old self.now.node self.now.number 1 hub.new) }
        ensures past { HasAllResponses hub.old self.now.node self.now.number 1
            → result ≡ Err ExceedsMaxLoans }
        ensures within { CanRespond hub.old self.now.node self.now.number 1 → IsOk result }
        ensures never { IfErr result (λ error.
            RespondsAtMostLongest hub.old self.now.node self.now.number 1
            → error ≢ WantOfMemory) }
        ensures unchanged { IfErr result (λ error. error ≢ OutOfMemory → hub.new ≡ hub.old) }
        ensures left { OnErr result (hub.new ≡ with_control hub.old hub.new.control) }
    {
        match lend_response(hub, self.node, self.number, self.hint, 1, true) {
            Ok(number) => Ok(ResponseMutUninit::new(self.node, number, hub.last_place())),
            Err(error) => Err(error),
        }
    }

    /// Loans a response that is filled with the default.
    pub fn loan<H: Backpressure>(
        &self,
        hub: &mut Hub<Q, QH, One<E>, PH, H>,
    ) -> Result<ResponseMut<Q, QH, One<E>, PH>, LoanError>
        requires has { HasValue hub.old self.now.node self.now.number kinds.ActiveRequest }
        requires default { IsSome hub.old.response.default }
        ensures whole { (x : Given) → IsWholeCall (state_of_hub x hub.old) self.now.node
            (calls.Loan self.now.number 1) (reply_of_loan (λ loan. loan.number) result)
            (state_of_hub x hub.new) }
        ensures fresh { IfOk result (λ loan.
            IsFresh hub.new loan.node loan.number roles.Server hub.old.response false 1) }
        ensures node { IfOk result (λ loan. loan.node ≡ self.now.node) }
        ensures comes { NothingComes hub.old hub.new }
        ensures new { IfOk result (λ loan. HasNothing hub.old self.now.node loan.number) }
        ensures keeps { KeepsAll hub.old hub.new }
        ensures shapes { HaveSameShapes hub.old hub.new }
        ensures asks { KeepsAsking hub.old hub.new }
        ensures room { KeepsRoom hub.old hub.new }
        ensures requests { KeepsRequests hub.old hub.new }
        ensures answers { IfOk result (λ loan. AnswersAs hub.old self.now.node self.now.number
            hub.new loan.node loan.number) }
        ensures counted { OnOk result
            (RespondsOneMore hub.old self.now.node self.now.number 1 hub.new) }
        ensures past { HasAllResponses hub.old self.now.node self.now.number 1
            → result ≡ Err ExceedsMaxLoans }
        ensures within { CanRespond hub.old self.now.node self.now.number 1 → IsOk result }
        ensures never { IfErr result (λ error.
            RespondsAtMostLongest hub.old self.now.node self.now.number 1
            → error ≢ WantOfMemory) }
        ensures unchanged { IfErr result (λ error. error ≢ OutOfMemory → hub.new ≡ hub.old) }
        ensures left { OnErr result (hub.new ≡ with_control hub.old hub.new.control) }
    {
        match lend_response(hub, self.node, self.number, self.hint, 1, false) {
            Ok(number) => Ok(ResponseMut::new(self.node, number, hub.last_place())),
            Err(error) => Err(error),
        }
    }
}

impl<Q: Payload, QH: Words, E: Words, PH: Words> ActiveRequest<Q, QH, Many<E>, PH> {
    /// Loans a response for so many elements, none of which is filled yet.
    pub fn loan_slice_uninit<H: Backpressure>(
        &self,
        hub: &mut Hub<Q, QH, Many<E>, PH, H>,
        elements: usize,
    ) -> Result<ResponseMutUninit<Q, QH, Many<E>, PH>, LoanError>
        requires has { HasValue hub.old self.now.node self.now.number kinds.ActiveRequest }
        ensures whole { (x : Given) → IsWholeCall (state_of_hub x hub.old) self.now.node
            (calls.LoanUninit self.now.number elements) (reply_of_loan (λ loan. loan.number) result)
            (state_of_hub x hub.new) }
        ensures fresh { IfOk result (λ loan.
            IsFresh hub.new loan.node loan.number roles.Server hub.old.response true elements) }
        ensures node { IfOk result (λ loan. loan.node ≡ self.now.node) }
        ensures comes { NothingComes hub.old hub.new }
        ensures new { IfOk result (λ loan. HasNothing hub.old self.now.node loan.number) }
        ensures keeps { KeepsAll hub.old hub.new }
        ensures shapes { HaveSameShapes hub.old hub.new }
        ensures asks { KeepsAsking hub.old hub.new }
        ensures room { KeepsRoom hub.old hub.new }
        ensures requests { KeepsRequests hub.old hub.new }
        ensures answers { IfOk result (λ loan. AnswersAs hub.old self.now.node self.now.number
            hub.new loan.node loan.number) }
        ensures counted { OnOk result
            (RespondsOneMore hub.old self.now.node self.now.number elements hub.new) }
        ensures past { HasAllResponses hub.old self.now.node self.now.number elements
            → result ≡ Err ExceedsMaxLoans }
        ensures within { CanRespond hub.old self.now.node self.now.number elements → IsOk result }
        ensures never { IfErr result (λ error.
            RespondsAtMostLongest hub.old self.now.node self.now.number elements
            → error ≢ WantOfMemory) }
        ensures unchanged { IfErr result (λ error. error ≢ OutOfMemory → hub.new ≡ hub.old) }
        ensures left { OnErr result (hub.new ≡ with_control hub.old hub.new.control) }
    {
        match lend_response(hub, self.node, self.number, self.hint, elements, true) {
            Ok(number) => Ok(ResponseMutUninit::new(self.node, number, hub.last_place())),
            Err(error) => Err(error),
        }
    }

    /// Loans a response of so many elements, each filled with the default.
    pub fn loan_slice<H: Backpressure>(
        &self,
        hub: &mut Hub<Q, QH, Many<E>, PH, H>,
        elements: usize,
    ) -> Result<ResponseMut<Q, QH, Many<E>, PH>, LoanError>
        requires has { HasValue hub.old self.now.node self.now.number kinds.ActiveRequest }
        requires default { IsSome hub.old.response.default }
        ensures whole { (x : Given) → IsWholeCall (state_of_hub x hub.old) self.now.node
            (calls.Loan self.now.number elements) (reply_of_loan (λ loan. loan.number) result)
            (state_of_hub x hub.new) }
        ensures fresh { IfOk result (λ loan.
            IsFresh hub.new loan.node loan.number roles.Server hub.old.response false elements) }
        ensures node { IfOk result (λ loan. loan.node ≡ self.now.node) }
        ensures comes { NothingComes hub.old hub.new }
        ensures new { IfOk result (λ loan. HasNothing hub.old self.now.node loan.number) }
        ensures keeps { KeepsAll hub.old hub.new }
        ensures shapes { HaveSameShapes hub.old hub.new }
        ensures asks { KeepsAsking hub.old hub.new }
        ensures room { KeepsRoom hub.old hub.new }
        ensures requests { KeepsRequests hub.old hub.new }
        ensures answers { IfOk result (λ loan. AnswersAs hub.old self.now.node self.now.number
            hub.new loan.node loan.number) }
        ensures counted { OnOk result
            (RespondsOneMore hub.old self.now.node self.now.number elements hub.new) }
        ensures past { HasAllResponses hub.old self.now.node self.now.number elements
            → result ≡ Err ExceedsMaxLoans }
        ensures within { CanRespond hub.old self.now.node self.now.number elements → IsOk result }
        ensures never { IfErr result (λ error.
            RespondsAtMostLongest hub.old self.now.node self.now.number elements
            → error ≢ WantOfMemory) }
        ensures unchanged { IfErr result (λ error. error ≢ OutOfMemory → hub.new ≡ hub.old) }
        ensures left { OnErr result (hub.new ≡ with_control hub.old hub.new.control) }
    {
        match lend_response(hub, self.node, self.number, self.hint, elements, false) {
            Ok(number) => Ok(ResponseMut::new(self.node, number, hub.last_place())),
            Err(error) => Err(error),
        }
    }
}
