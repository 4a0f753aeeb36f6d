//! A loaned request is filled piece by piece.
ghost use Rattle.std.specs.Prelude.{◌≡◌, ◌↔◌, ◌<◌, ◌≤◌, IfErr, IfOk, IsOk, IsTrue, OnErr};
ghost use Rattle.std.specs.Prelude.{false, flat_map, true};
ghost use Rattle.iox_store.specs.Answering.{FillsByAnswers};
ghost use Rattle.iox_store.specs.Stored.{with_user, written_next};
ghost use Rattle.iox_model.specs.declared.kind.Kind.TheVariants as kinds;
ghost use Rattle.iox_hub_laws.specs.Fillings.{FillsLoan};
ghost use Rattle.iox_hub_laws.specs.Hubs.{HasValue};
ghost use Rattle.iox_hub_laws.specs.Keeping.{HaveSameShapes, KeepsOthers};
ghost use Rattle.iox_hub_laws.specs.Reads.{message_in};
ghost use Rattle.iox_hub_laws.specs.Sends.{NothingComes};
ghost use Rattle.iceoryx2_ports.specs.Asking.{AsksAs};
ghost use Rattle.iceoryx2_ports.specs.Keeping.{KeepsAsking};
ghost use Rattle.iceoryx2_ports.specs.Opens.{KeepsRequests};
ghost use Rattle.iceoryx2_ports.specs.Payloads.{CarriesAnswers};
ghost use Rattle.iceoryx2_ports.specs.Reaching.{KeepsRoom};

use super::{RequestMut, RequestMutUninit};
use iox_hub_laws::{Backpressure, Hub};
use iox_store::Payload;
use iox_words::Words;

impl<Q: Payload, QH: Words, P: Payload, PH: Words> RequestMutUninit<Q, QH, P, PH> {
    /// Gives the request another user header.
    pub fn set_user_header<H: Backpressure>(&self, hub: &mut Hub<Q, QH, P, PH, H>, user_header: QH)
        requires has { HasValue hub.old self.now.node self.now.number kinds.RequestMutUninit }
        ensures set { FillsLoan hub.old self.now.node self.now.number false
            (with_user (message_in hub.old self.now.node self.now.number) (QH.words user_header))
            hub.new }
        ensures has { HasValue hub.new self.now.node self.now.number kinds.RequestMutUninit }
        ensures asker { AsksAs hub.old self.now.node self.now.number hub.new self.now.node
            self.now.number }
        ensures comes { NothingComes hub.old hub.new }
        ensures keeps { KeepsOthers hub.old self.now.node self.now.number hub.new }
        ensures shapes { HaveSameShapes hub.old hub.new }
        ensures asks { KeepsAsking hub.old hub.new }
        ensures room { KeepsRoom hub.old hub.new }
        ensures requests { KeepsRequests hub.old hub.new }
    {
        hub.set_request_header(self.node, self.number, self.hint, user_header);
    }

    /// The payload of the request, as far as it is filled.
    pub fn payload<'a, H: Backpressure>(&self, hub: &'a Hub<Q, QH, P, PH, H>) -> &'a [Q::Element]
        requires has { HasValue hub.now self.now.node self.now.number kinds.RequestMutUninit }
        ensures { flat_map Q.Element.words result.now
            ≡ (message_in hub.now self.now.node self.now.number).payload }
    {
        hub.loaned_request(self.node, self.number, self.hint)
    }

    /// The user header of the request.
    pub fn user_header<'a, H: Backpressure>(&self, hub: &'a Hub<Q, QH, P, PH, H>) -> &'a QH
        requires has { HasValue hub.now self.now.node self.now.number kinds.RequestMutUninit }
        ensures { QH.words result.now
            ≡ (message_in hub.now self.now.node self.now.number).user }
    {
        hub.loaned_request_header(self.node, self.number, self.hint)
    }

    /// Whether all its elements are filled.
    pub fn is_filled<H: Backpressure>(&self, hub: &Hub<Q, QH, P, PH, H>) -> bool
        requires has { HasValue hub.now self.now.node self.now.number kinds.RequestMutUninit }
        ensures filled { IsTrue result ↔ (message_in hub.now self.now.node self.now.number).filled
            ≡ (message_in hub.now self.now.node self.now.number).elements }
        ensures within { (message_in hub.now self.now.node self.now.number).filled
            ≤ (message_in hub.now self.now.node self.now.number).elements }
    {
        hub.is_filled(self.node, self.number, self.hint)
    }

    /// Fills its next element.
    pub fn write_next<H: Backpressure>(&self, hub: &mut Hub<Q, QH, P, PH, H>, value: Q::Element)
        requires has { HasValue hub.old self.now.node self.now.number kinds.RequestMutUninit }
        requires room { (message_in hub.old self.now.node self.now.number).filled
            < (message_in hub.old self.now.node self.now.number).elements }
        ensures written { FillsLoan hub.old self.now.node self.now.number false
            (written_next (message_in hub.old self.now.node self.now.number)
            (Q.Element.words value)) hub.new }
        ensures has { HasValue hub.new self.now.node self.now.number kinds.RequestMutUninit }
        ensures asker { AsksAs hub.old self.now.node self.now.number hub.new self.now.node
            self.now.number }
        ensures comes { NothingComes hub.old hub.new }
        ensures keeps { KeepsOthers hub.old self.now.node self.now.number hub.new }
        ensures shapes { HaveSameShapes hub.old hub.new }
        ensures asks { KeepsAsking hub.old hub.new }
        ensures room { KeepsRoom hub.old hub.new }
        ensures requests { KeepsRequests hub.old hub.new }
    {
        hub.write_next_request(self.node, self.number, self.hint, value);
    }

    /// The filled request, if each of its elements is filled. Else nothing changes, and the loan is
    /// given back.
    pub fn assume_init<H: Backpressure>(
        self,
        hub: &mut Hub<Q, QH, P, PH, H>,
    ) -> Result<RequestMut<Q, QH, P, PH>, Self>
        requires has { HasValue hub.old self.node self.number kinds.RequestMutUninit }
        ensures all { IsOk result ↔ (message_in hub.old self.node self.number).filled
            ≡ (message_in hub.old self.node self.number).elements }
        ensures filled { IfOk result (λ filled. FillsLoan hub.old filled.node filled.number true
            (message_in hub.old filled.node filled.number) hub.new) }
        ensures has { IfOk result (λ filled.
            HasValue hub.new filled.node filled.number kinds.RequestMut) }
        ensures node { IfOk result (λ filled. filled.node ≡ self.node) }
        ensures number { IfOk result (λ filled. filled.number ≡ self.number) }
        ensures asker { IfOk result (λ filled. AsksAs hub.old self.node self.number
            hub.new filled.node filled.number) }
        ensures comes { NothingComes hub.old hub.new }
        ensures keeps { KeepsOthers hub.old self.node self.number hub.new }
        ensures shapes { HaveSameShapes hub.old hub.new }
        ensures asks { KeepsAsking hub.old hub.new }
        ensures room { KeepsRoom hub.old hub.new }
        ensures requests { KeepsRequests hub.old hub.new }
        ensures unchanged { OnErr result (hub.new ≡ hub.old) }
        ensures same { IfErr result (λ loan. loan ≡ self) }
    {
        if !hub.assume_request_init(self.node, self.number, self.hint) {
            return Err(self);
        }
        let RequestMutUninit {
            node,
            number,
            hint,
            of,
        } = self;
        Ok(RequestMut {
            node,
            number,
            hint,
            of,
        })
    }

    /// Fills the request, each element with what the closure answers for its index, whatever was
    /// filled.
    pub fn write_from_fn<H: Backpressure, F: FnMut(usize) -> Q::Element>(
        self,
        hub: &mut Hub<Q, QH, P, PH, H>,
        f: F,
    ) -> RequestMut<Q, QH, P, PH>
        requires has { HasValue hub.old self.node self.number kinds.RequestMutUninit }
        requires callable { F.IsAlwaysCallable f }
        ensures answered { FillsByAnswers Q.Element.words F.step f
            (message_in hub.old self.node self.number) (message_in hub.new self.node self.number) }
        ensures carries { CarriesAnswers Q.Element.words F.step f 0
            (message_in hub.old self.node self.number).elements
            (message_in hub.new self.node self.number).payload }
        ensures filled { FillsLoan hub.old self.node self.number true
            (message_in hub.new self.node self.number) hub.new }
        ensures has { HasValue hub.new self.node self.number kinds.RequestMut }
        ensures asker { AsksAs hub.old self.node self.number hub.new self.node self.number }
        ensures comes { NothingComes hub.old hub.new }
        ensures keeps { KeepsOthers hub.old self.node self.number hub.new }
        ensures shapes { HaveSameShapes hub.old hub.new }
        ensures asks { KeepsAsking hub.old hub.new }
        ensures room { KeepsRoom hub.old hub.new }
        ensures requests { KeepsRequests hub.old hub.new }
        ensures node { result.node ≡ self.node }
        ensures number { result.number ≡ self.number }
    {
        let RequestMutUninit {
            node,
            number,
            hint,
            of,
        } = self;
        hub.write_request_from_fn(node, number, hint, f);
        RequestMut {
            node,
            number,
            hint,
            of,
        }
    }
}

impl<Q: Payload, QH: Words, P: Payload, PH: Words> RequestMut<Q, QH, P, PH> {
    /// Gives the request another user header.
    pub fn set_user_header<H: Backpressure>(&self, hub: &mut Hub<Q, QH, P, PH, H>, user_header: QH)
        requires has { HasValue hub.old self.now.node self.now.number kinds.RequestMut }
        ensures set { FillsLoan hub.old self.now.node self.now.number false
            (with_user (message_in hub.old self.now.node self.now.number) (QH.words user_header))
            hub.new }
        ensures has { HasValue hub.new self.now.node self.now.number kinds.RequestMut }
        ensures asker { AsksAs hub.old self.now.node self.now.number hub.new self.now.node
            self.now.number }
        ensures comes { NothingComes hub.old hub.new }
        ensures keeps { KeepsOthers hub.old self.now.node self.now.number hub.new }
        ensures shapes { HaveSameShapes hub.old hub.new }
        ensures asks { KeepsAsking hub.old hub.new }
        ensures room { KeepsRoom hub.old hub.new }
        ensures requests { KeepsRequests hub.old hub.new }
    {
        hub.set_request_header(self.node, self.number, self.hint, user_header);
    }
}
