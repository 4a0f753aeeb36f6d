//! Copies of a client: loan, write and send in one.
ghost use Rattle.std.specs.Prelude.{◌≡◌, ◌∷◌, IfErr, IfOk, OnErr, OnOk, [], flat_map};
ghost use Rattle.std.specs.Mem.{FitsInMemory};
ghost use Rattle.iox_model.specs.declared.call.Call.TheVariants as calls;
ghost use Rattle.iox_model.specs.declared.kind.Kind.TheVariants as kinds;
ghost use Rattle.iox_model.specs.declared.kind.Role.TheVariants as roles;
ghost use Rattle.iox_model.specs.WholeCalls.{IsWholeCall};
ghost use Rattle.iox_tables.specs.HubStates.States.{Given};
ghost use Rattle.iox_hub_laws.specs.Copying.{IsAwaited};
ghost use Rattle.iox_hub_laws.specs.Hubs.{HasValue, state_of_hub};
ghost use Rattle.iox_hub_laws.specs.Keeping.{HaveSameShapes, KeepsAll};
ghost use Rattle.iox_hub_laws.specs.Lending.{payload_of};
ghost use Rattle.iox_hub_laws.specs.Sends.{BringsOnly, WaitsAsBefore};
ghost use Rattle.iox_hub_laws.specs.Waiting.{client_in};
ghost use Rattle.iceoryx2_ports.specs.Asking.{BringsItsRequest, LendsQuietly, OpensAtServers};
ghost use Rattle.iceoryx2_ports.specs.Copies.{LeavesUnasked, reply_of_request_copy};
ghost use Rattle.iceoryx2_ports.specs.Idling.{BringsOne};
ghost use Rattle.iceoryx2_ports.specs.Keeping.{KeepsAsking};
ghost use Rattle.iceoryx2_ports.specs.Reaching.{CopiesRequest, ReachesServers};
ghost use Rattle.iceoryx2_ports.specs.Senders.{BringsFrom};
ghost use Rattle.iceoryx2_ports.specs.Streams.{AddsOnly};

use super::Client;
use crate::copies::error_of_test;
use crate::errors::{LoanError, RequestSendError, SendError};
use crate::pending_response::PendingResponse;
use iox_hub_laws::{Backpressure, Copied, Hub, copy_request};
use iox_store::{One, Payload};
use iox_words::Words;

impl<E: Words, QH: Words, P: Payload, PH: Words> Client<One<E>, QH, P, PH> {
    /// Sends a request with that value to all servers. What servers gave back is got back first.
    pub fn send_copy<H: Backpressure>(
        &self,
        hub: &mut Hub<One<E>, QH, P, PH, H>,
        value: E,
    ) -> Result<PendingResponse<One<E>, QH, P, PH>, RequestSendError>
        requires has { HasValue hub.old self.now.node self.now.number kinds.Client }
        requires small { FitsInMemory E.row }
        ensures whole { (x : Given) → IsWholeCall (state_of_hub x hub.old) self.now.node
            (calls.SendCopy self.now.number
            (payload_of roles.Client 1 (flat_map E.words (value ∷ []))))
            (reply_of_request_copy result) (state_of_hub x hub.new) }
        ensures awaited { IfOk result (λ pending. IsAwaited hub.new pending.node pending.number
            pending.servers 1 (flat_map E.words (value ∷ []))) }
        ensures node { IfOk result (λ pending. pending.node ≡ self.now.node) }
        ensures one { OnOk result (BringsOne hub.old hub.new) }
        ensures sent { OnOk result (CopiesRequest hub.old self.now.number
            (flat_map E.words (value ∷ [])) hub.new) }
        ensures reaches { OnOk result (ReachesServers hub.old hub.new) }
        ensures quiet { IfOk result (λ pending.
            LendsQuietly hub.old self.now.number hub.new pending.node pending.number) }
        ensures asked { IfOk result (λ pending. BringsItsRequest hub.old
            (client_in hub.new pending.node pending.number) hub.new) }
        ensures opens { IfOk result (λ pending. OpensAtServers hub.old
            (client_in hub.new pending.node pending.number) hub.new) }
        ensures keeps { KeepsAll hub.old hub.new }
        ensures shapes { HaveSameShapes hub.old hub.new }
        ensures asks { KeepsAsking hub.old hub.new }
        ensures only { BringsOnly hub.old (flat_map E.words (value ∷ [])) hub.new }
        ensures adds { AddsOnly hub.old (flat_map E.words (value ∷ [])) hub.new }
        ensures from { BringsFrom hub.old self.now.number hub.new }
        ensures unsent { OnErr result (WaitsAsBefore hub.old hub.new) }
        ensures left { IfErr result (λ error. LeavesUnasked hub.old error hub.new) }
    {
        hub.is_in_order();
        hub.is_of_its_types();
        match copy_request(hub, self.node, self.number, &[value]) {
            Copied::To {
                number,
                servers,
                place: _,
            } => Ok(PendingResponse::new(self.node, number, hub.last_place(), servers)),
            Copied::Refused(refusal) => { Err(RequestSendError::from(error_of_test(refusal))) }
            Copied::OutOfMemory => Err(RequestSendError::from(LoanError::OutOfMemory)),
            Copied::ExceedsMaxActiveRequests => Err(RequestSendError::ExceedsMaxActiveRequests),
            Copied::UnableToDeliver => {
                Err(RequestSendError::SendError(SendError::UnableToDeliver))
            }
        }
    }
}
