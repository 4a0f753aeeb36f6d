//! A loaned response is filled piece by piece.
ghost use Rattle.std.specs.Prelude.{◌≡◌, ◌↔◌, ◌<◌, ◌≤◌, IfErr, IfOk, IsOk, IsTrue, OnErr};
ghost use Rattle.std.specs.Prelude.{false, flat_map, true};
ghost use Rattle.iox_store.specs.Answering.{FillsByAnswers};
ghost use Rattle.iox_store.specs.Stored.{with_user, written_next};
ghost use Rattle.iox_model.specs.declared.kind.Kind.TheVariants as kinds;
ghost use Rattle.iox_hub_laws.specs.Fillings.{FillsLoan};
ghost use Rattle.iox_hub_laws.specs.Hubs.{HasValue};
ghost use Rattle.iox_hub_laws.specs.Keeping.{HaveSameShapes, KeepsOthers};
ghost use Rattle.iox_hub_laws.specs.Reads.{message_in};
ghost use Rattle.iox_hub_laws.specs.Sends.{NothingComes};
ghost use Rattle.iceoryx2_ports.specs.Asking.{AnswersAs};
ghost use Rattle.iceoryx2_ports.specs.Keeping.{KeepsAsking};
ghost use Rattle.iceoryx2_ports.specs.Opens.{KeepsRequests};
ghost use Rattle.iceoryx2_ports.specs.Payloads.{CarriesAnswers};
ghost use Rattle.iceoryx2_ports.specs.Reaching.{KeepsRoom};

use super::{ResponseMut, ResponseMutUninit};
use iox_hub_laws::{Backpressure, Hub};
use iox_store::Payload;
use iox_words::Words;

impl<Q: Payload, QH: Words, P: Payload, PH: Words> ResponseMutUninit<Q, QH, P, PH> {
    /// Gives the response another user header.
    pub fn set_user_header<H: Backpressure>(&self, hub: &mut Hub<Q, QH, P, PH, H>, user_header: PH)
        requires has { HasValue hub.old self.now.node self.now.number kinds.ResponseMutUninit }
        ensures set { FillsLoan hub.old self.now.node self.now.number false
            (with_user (message_in hub.old self.now.node self.now.number) (PH.words user_header))
            hub.new }
        ensures has { HasValue hub.new self.now.node self.now.number kinds.ResponseMutUninit }
        ensures answers { AnswersAs hub.old self.now.node self.now.number hub.new self.now.node
            self.now.number }
        ensures comes { NothingComes hub.old hub.new }
        ensures keeps { KeepsOthers hub.old self.now.node self.now.number hub.new }
        ensures shapes { HaveSameShapes hub.old hub.new }
        ensures asks { KeepsAsking hub.old hub.new }
        ensures room { KeepsRoom hub.old hub.new }
        ensures requests { KeepsRequests hub.old hub.new }
    {
        hub.set_response_header(self.node, self.number, self.hint, user_header);
    }

    /// The payload of the response, as far as it is filled.
    pub fn payload<'a, H: Backpressure>(&self, hub: &'a Hub<Q, QH, P, PH, H>) -> &'a [P::Element]
        requires has { HasValue hub.now self.now.node self.now.number kinds.ResponseMutUninit }
        ensures { flat_map P.Element.words result.now
            ≡ (message_in hub.now self.now.node self.now.number).payload }
    {
        hub.loaned_response(self.node, self.number, self.hint)
    }

    /// The user header of the response.
    pub fn user_header<'a, H: Backpressure>(&self, hub: &'a Hub<Q, QH, P, PH, H>) -> &'a PH
        requires has { HasValue hub.now self.now.node self.now.number kinds.ResponseMutUninit }
        ensures { PH.words result.now
            ≡ (message_in hub.now self.now.node self.now.number).user }
    {
        hub.loaned_response_header(self.node, self.number, self.hint)
    }

    /// Whether all its elements are filled.
    pub fn is_filled<H: Backpressure>(&self, hub: &Hub<Q, QH, P, PH, H>) -> bool
        requires has { HasValue hub.now self.now.node self.now.number kinds.ResponseMutUninit }
        ensures filled { IsTrue result ↔ (message_in hub.now self.now.node self.now.number).filled
            ≡ (message_in hub.now self.now.node self.now.number).elements }
        ensures within { (message_in hub.now self.now.node self.now.number).filled
            ≤ (message_in hub.now self.now.node self.now.number).elements }
    {
        hub.is_filled(self.node, self.number, self.hint)
    }

    /// Fills its next element.
    pub fn write_next<H: Backpressure>(&self, hub: &mut Hub<Q, QH, P, PH, H>, value: P::Element)
        requires has { HasValue hub.old self.now.node self.now.number kinds.ResponseMutUninit }
        requires room { (message_in hub.old self.now.node self.now.number).filled
            < (message_in hub.old self.now.node self.now.number).elements }
        ensures written { FillsLoan hub.old self.now.node self.now.number false
            (written_next (message_in hub.old self.now.node self.now.number)
            (P.Element.words value)) hub.new }
        ensures has { HasValue hub.new self.now.node self.now.number kinds.ResponseMutUninit }
        ensures answers { AnswersAs hub.old self.now.node self.now.number hub.new self.now.node
            self.now.number }
        ensures comes { NothingComes hub.old hub.new }
        ensures keeps { KeepsOthers hub.old self.now.node self.now.number hub.new }
        ensures shapes { HaveSameShapes hub.old hub.new }
        ensures asks { KeepsAsking hub.old hub.new }
        ensures room { KeepsRoom hub.old hub.new }
        ensures requests { KeepsRequests hub.old hub.new }
    {
        hub.write_next_response(self.node, self.number, self.hint, value);
    }

    /// The filled response, if each of its elements is filled. Else nothing changes, and the loan
    /// is given back.
    pub fn assume_init<H: Backpressure>(
        self,
        hub: &mut Hub<Q, QH, P, PH, H>,
    ) -> Result<ResponseMut<Q, QH, P, PH>, Self>
        requires has { HasValue hub.old self.node self.number kinds.ResponseMutUninit }
        ensures all { IsOk result ↔ (message_in hub.old self.node self.number).filled
            ≡ (message_in hub.old self.node self.number).elements }
        ensures filled { IfOk result (λ filled. FillsLoan hub.old filled.node filled.number true
            (message_in hub.old filled.node filled.number) hub.new) }
        ensures has { IfOk result (λ filled.
            HasValue hub.new filled.node filled.number kinds.ResponseMut) }
        ensures node { IfOk result (λ filled. filled.node ≡ self.node) }
        ensures number { IfOk result (λ filled. filled.number ≡ self.number) }
        ensures answers { IfOk result (λ filled. AnswersAs hub.old self.node self.number
            hub.new filled.node filled.number) }
        ensures comes { NothingComes hub.old hub.new }
        ensures keeps { KeepsOthers hub.old self.node self.number hub.new }
        ensures shapes { HaveSameShapes hub.old hub.new }
        ensures asks { KeepsAsking hub.old hub.new }
        ensures room { KeepsRoom hub.old hub.new }
        ensures requests { KeepsRequests hub.old hub.new }
        ensures unchanged { OnErr result (hub.new ≡ hub.old) }
        ensures same { IfErr result (λ loan. loan ≡ self) }
    {
        if !hub.assume_response_init(self.node, self.number, self.hint) {
            return Err(self);
        }
        let ResponseMutUninit {
            node,
            number,
            hint,
            of,
        } = self;
        Ok(ResponseMut {
            node,
            number,
            hint,
            of,
        })
    }

    /// Fills the response, each element with what the closure answers for its index, whatever was
    /// filled.
    pub fn write_from_fn<H: Backpressure, F: FnMut(usize) -> P::Element>(
        self,
        hub: &mut Hub<Q, QH, P, PH, H>,
        f: F,
    ) -> ResponseMut<Q, QH, P, PH>
        requires has { HasValue hub.old self.node self.number kinds.ResponseMutUninit }
        requires callable { F.IsAlwaysCallable f }
        ensures answered { FillsByAnswers P.Element.words F.step f
            (message_in hub.old self.node self.number) (message_in hub.new self.node self.number) }
        ensures carries { CarriesAnswers P.Element.words F.step f 0
            (message_in hub.old self.node self.number).elements
            (message_in hub.new self.node self.number).payload }
        ensures filled { FillsLoan hub.old self.node self.number true
            (message_in hub.new self.node self.number) hub.new }
        ensures has { HasValue hub.new self.node self.number kinds.ResponseMut }
        ensures answers { AnswersAs hub.old self.node self.number hub.new self.node self.number }
        ensures comes { NothingComes hub.old hub.new }
        ensures keeps { KeepsOthers hub.old self.node self.number hub.new }
        ensures shapes { HaveSameShapes hub.old hub.new }
        ensures asks { KeepsAsking hub.old hub.new }
        ensures room { KeepsRoom hub.old hub.new }
        ensures requests { KeepsRequests hub.old hub.new }
        ensures node { result.node ≡ self.node }
        ensures number { result.number ≡ self.number }
    {
        let ResponseMutUninit {
            node,
            number,
            hint,
            of,
        } = self;
        hub.write_response_from_fn(node, number, hint, f);
        ResponseMut {
            node,
            number,
            hint,
            of,
        }
    }
}

impl<Q: Payload, QH: Words, P: Payload, PH: Words> ResponseMut<Q, QH, P, PH> {
    /// Gives the response another user header.
    pub fn set_user_header<H: Backpressure>(&self, hub: &mut Hub<Q, QH, P, PH, H>, user_header: PH)
        requires has { HasValue hub.old self.now.node self.now.number kinds.ResponseMut }
        ensures set { FillsLoan hub.old self.now.node self.now.number false
            (with_user (message_in hub.old self.now.node self.now.number) (PH.words user_header))
            hub.new }
        ensures has { HasValue hub.new self.now.node self.now.number kinds.ResponseMut }
        ensures answers { AnswersAs hub.old self.now.node self.now.number hub.new self.now.node
            self.now.number }
        ensures comes { NothingComes hub.old hub.new }
        ensures keeps { KeepsOthers hub.old self.now.node self.now.number hub.new }
        ensures shapes { HaveSameShapes hub.old hub.new }
        ensures asks { KeepsAsking hub.old hub.new }
        ensures room { KeepsRoom hub.old hub.new }
        ensures requests { KeepsRequests hub.old hub.new }
    {
        hub.set_response_header(self.node, self.number, self.hint, user_header);
    }
}
