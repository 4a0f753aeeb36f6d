//! Payloads of filled requests that are put anew.
ghost use Rattle.std.specs.Prelude.{◌≡◌, ◌≢◌, ◌∷◌, [], flat_map, length};
ghost use Rattle.std.specs.Bool.{OnFalse, OnTrue};
ghost use Rattle.std.specs.Mem.{FitsInMemory};
ghost use Rattle.iox_model.specs.declared.call.Call.TheVariants.{Write};
ghost use Rattle.iox_model.specs.declared.kind.Kind.TheVariants as kinds;
ghost use Rattle.iox_model.specs.declared.kind.Role.TheVariants as roles;
ghost use Rattle.iox_model.specs.declared.reply.Reply.TheVariants.{Done};
ghost use Rattle.iox_model.specs.WholeCalls.{IsWholeCall};
ghost use Rattle.iox_tables.specs.HubStates.States.{Given};
ghost use Rattle.iox_hub_laws.specs.Hubs.{HasValue, state_of_hub};
ghost use Rattle.iox_hub_laws.specs.Keeping.{HaveSameShapes, KeepsOthers};
ghost use Rattle.iox_hub_laws.specs.Lending.{IsWritten, payload_of};
ghost use Rattle.iox_hub_laws.specs.Reads.{message_in};
ghost use Rattle.iox_hub_laws.specs.Sends.{NothingComes};
ghost use Rattle.iceoryx2_ports.specs.Asking.{AsksAs};
ghost use Rattle.iceoryx2_ports.specs.Keeping.{KeepsAsking};
ghost use Rattle.iceoryx2_ports.specs.Opens.{KeepsRequests};
ghost use Rattle.iceoryx2_ports.specs.Payloads.{reply_of_put};
ghost use Rattle.iceoryx2_ports.specs.Reaching.{KeepsRoom};

use super::RequestMut;
use crate::loans::request_has_one;
use iox_hub_laws::{Backpressure, Hub, Written};
use iox_store::{One, Payload};
use iox_words::Words;

impl<Q: Payload, QH: Words, P: Payload, PH: Words> RequestMut<Q, QH, P, PH> {
    /// Puts copies of these elements in place of those that the request has, and says whether they
    /// are as many. Where they are not, nothing changes.
    pub fn set_payload_from_slice<H: Backpressure>(
        &self,
        hub: &mut Hub<Q, QH, P, PH, H>,
        values: &[Q::Element],
    ) -> bool
        requires has { HasValue hub.old self.now.node self.now.number kinds.RequestMut }
        ensures whole { (x : Given) → IsWholeCall (state_of_hub x hub.old) self.now.node
            (Write self.now.number (payload_of roles.Client (length values.now)
            (flat_map Q.Element.words values.now))) (reply_of_put result) (state_of_hub x hub.new) }
        ensures written { OnTrue result (IsWritten hub.old self.now.node self.now.number
            kinds.RequestMut (length values.now) (flat_map Q.Element.words values.now) hub.new) }
        ensures refused { OnFalse result
            ((message_in hub.old self.now.node self.now.number).elements ≢ length values.now) }
        ensures asker { AsksAs hub.old self.now.node self.now.number hub.new self.now.node
            self.now.number }
        ensures comes { NothingComes hub.old hub.new }
        ensures keeps { KeepsOthers hub.old self.now.node self.now.number hub.new }
        ensures shapes { HaveSameShapes hub.old hub.new }
        ensures asks { KeepsAsking hub.old hub.new }
        ensures room { KeepsRoom hub.old hub.new }
        ensures requests { KeepsRequests hub.old hub.new }
        ensures unchanged { OnFalse result (hub.new ≡ hub.old) }
    {
        match hub.write_request(self.node, self.number, self.hint, values) {
            Written::Done(_) => true,
            Written::WrongLength => false,
        }
    }
}

impl<E: Words, QH: Words, P: Payload, PH: Words> RequestMut<One<E>, QH, P, PH> {
    /// Puts that value in place of the one that the request has.
    pub fn set_payload<H: Backpressure>(&self, hub: &mut Hub<One<E>, QH, P, PH, H>, value: E)
        requires has { HasValue hub.old self.now.node self.now.number kinds.RequestMut }
        requires small { FitsInMemory E.row }
        ensures whole { (x : Given) → IsWholeCall (state_of_hub x hub.old) self.now.node
            (Write self.now.number (payload_of roles.Client 1 (flat_map E.words (value ∷ []))))
            Done (state_of_hub x hub.new) }
        ensures written { IsWritten hub.old self.now.node self.now.number kinds.RequestMut 1
            (flat_map E.words (value ∷ [])) hub.new }
        ensures asker { AsksAs hub.old self.now.node self.now.number hub.new self.now.node
            self.now.number }
        ensures comes { NothingComes hub.old hub.new }
        ensures keeps { KeepsOthers hub.old self.now.node self.now.number hub.new }
        ensures shapes { HaveSameShapes hub.old hub.new }
        ensures asks { KeepsAsking hub.old hub.new }
        ensures room { KeepsRoom hub.old hub.new }
        ensures requests { KeepsRequests hub.old hub.new }
    {
        request_has_one(hub, self.node, self.number);
        if !self.set_payload_from_slice(hub, &[value]) {
            unreachable!();
        }
    }
}
