//! A response that was received.
ghost use Rattle.std.specs.Prelude.{◌≡◌, ◌++◌, ◌↔◌, IfNone, IfOk, IfSome, IsTrue, [], flat_map};
ghost use Rattle.iox_model.specs.declared.call.Call.TheVariants.{Read};
ghost use Rattle.iox_model.specs.declared.kind.Kind.TheVariants as kinds;
ghost use Rattle.iox_model.specs.declared.reply.Reply.TheVariants.{Words};
ghost use Rattle.iox_model.specs.WholeCalls.{IsWholeCall};
ghost use Rattle.iox_tables.specs.HubStates.States.{Given};
ghost use Rattle.iox_hub_laws.specs.Headers.{IsHeaderShown, header_in};
ghost use Rattle.iox_hub_laws.specs.Hubs.{HasValue, state_of_hub};
ghost use Rattle.iox_hub_laws.specs.Reads.{message_in};
ghost use Rattle.iceoryx2_ports.specs.Headers.{response_header_of};
ghost use Rattle.iceoryx2_ports.specs.Idling.{GivesBack};
ghost use Rattle.iceoryx2_ports.specs.Payloads.{BeginsWith};
ghost use Rattle.iceoryx2_ports.specs.Releases.{IsReleased};
ghost use Rattle.iceoryx2_ports.specs.Rooms.{GivesRoomBack};

use crate::headers::response_header;
use crate::releases::release_handle;
use iox_hub_laws::{Backpressure, Hub};
use iox_model::kind::Kind;
use iox_store::Payload;
use iox_types::ResponseHeader;
use iox_types::identifiers::{UniqueNodeIdError, UniqueServerId};
use iox_words::Words;
use std::marker::PhantomData;

/// A response that a pending response received.
pub struct Response<Q, QH, P, PH> {
    node: u64,
    number: u64,
    // Where the hub looks for it first. A wrong place is only slower.
    hint: usize,
    of: PhantomData<(Q, QH, P, PH)>,
}

impl<Q: Payload, QH: Words, P: Payload, PH: Words> Response<Q, QH, P, PH> {
    /// The node's response of that number.
    pub(crate) fn new(node: u64, number: u64, hint: usize) -> Self
        ensures node { result.node ≡ node }
        ensures number { result.number ≡ number }
    {
        Response {
            node,
            number,
            hint,
            of: PhantomData,
        }
    }

    /// The payload of the response.
    pub fn payload<'a, H: Backpressure>(&self, hub: &'a Hub<Q, QH, P, PH, H>) -> &'a [P::Element]
        requires has { HasValue hub.now self.now.node self.now.number kinds.Response }
        ensures words { flat_map P.Element.words result.now
            ≡ (message_in hub.now self.now.node self.now.number).payload }
        ensures whole { (x : Given) → IsWholeCall (state_of_hub x hub.now) self.now.node
            (Read self.now.number)
            (Words ((message_in hub.now self.now.node self.now.number).user
            ++ flat_map P.Element.words result.now))
            (state_of_hub x hub.now) }
    {
        hub.response(self.node, self.number, self.hint)
    }

    /// The first element of the response, if it has one.
    pub fn first<'a, H: Backpressure>(
        &self,
        hub: &'a Hub<Q, QH, P, PH, H>,
    ) -> Option<&'a P::Element>
        requires has { HasValue hub.now self.now.node self.now.number kinds.Response }
        ensures words { IfSome result (λ element.
            BeginsWith (message_in hub.now self.now.node self.now.number).payload
            (P.Element.words element.now)) }
        ensures none { IfNone result
            ((message_in hub.now self.now.node self.now.number).payload ≡ []) }
    {
        self.payload(hub).first()
    }

    /// The user header of the response.
    pub fn user_header<'a, H: Backpressure>(&self, hub: &'a Hub<Q, QH, P, PH, H>) -> &'a PH
        requires has { HasValue hub.now self.now.node self.now.number kinds.Response }
        ensures words { PH.words result.now
            ≡ (message_in hub.now self.now.node self.now.number).user }
        ensures whole { (x : Given) → IsWholeCall (state_of_hub x hub.now) self.now.node
            (Read self.now.number)
            (Words (PH.words result.now
            ++ (message_in hub.now self.now.node self.now.number).payload))
            (state_of_hub x hub.now) }
    {
        hub.response_header(self.node, self.number, self.hint)
    }

    /// The header of the response. It fails where its server was made for an id that no node has.
    pub fn header<H: Backpressure>(
        &self,
        hub: &Hub<Q, QH, P, PH, H>,
    ) -> Result<ResponseHeader, UniqueNodeIdError>
        requires has { HasValue hub.now self.now.node self.now.number kinds.Response }
        ensures header { result ≡ response_header_of
            (header_in hub.now self.now.node self.now.number) }
        ensures id { IfOk result (λ header. header.server_id
            ≡ (header_in hub.now self.now.node self.now.number).port_id) }
        ensures shown { IsHeaderShown hub.now self.now.node self.now.number }
    {
        response_header(hub.message_header(self.node, self.number, self.hint))
    }

    /// The id of the server that sent the response.
    pub fn origin<H: Backpressure>(&self, hub: &Hub<Q, QH, P, PH, H>) -> UniqueServerId
        requires has { HasValue hub.now self.now.node self.now.number kinds.Response }
        ensures id { result ≡ (header_in hub.now self.now.node self.now.number).port_id }
        ensures shown { IsHeaderShown hub.now self.now.node self.now.number }
    {
        let header = hub.message_header(self.node, self.number, self.hint);
        UniqueServerId::new(header.port_id)
    }

    /// Whether the hub still has it.
    #[inline(always)]
    pub fn exists<H: Backpressure>(&self, hub: &Hub<Q, QH, P, PH, H>) -> bool
        ensures { IsTrue result ↔ HasValue hub.now self.now.node self.now.number kinds.Response }
    {
        hub.has(self.node, self.number, Kind::Response, self.hint)
    }

    /// Gives it up. Where the hub no longer has it, nothing changes.
    #[inline(always)]
    pub fn release<H: Backpressure>(self, hub: &mut Hub<Q, QH, P, PH, H>)
        ensures released { IsReleased hub.old self.node self.number kinds.Response hub.new }
        ensures idle { GivesBack hub.old self.node self.number kinds.Response hub.new }
        ensures room { GivesRoomBack hub.old self.node self.number kinds.Response hub.new }
    {
        let Response {
            node,
            number,
            hint,
            of: _,
        } = self;
        release_handle(hub, node, number, Kind::Response, hint);
    }
}
