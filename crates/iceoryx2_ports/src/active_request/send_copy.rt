//! Copies of an active request's responses: loan, write and send in one.
ghost use Rattle.std.specs.Prelude.{◌≡◌, ◌∷◌, IfErr, OnErr, OnOk, [], flat_map};
ghost use Rattle.std.specs.Mem.{FitsInMemory};
ghost use Rattle.iox_model.specs.declared.call.Call.TheVariants as calls;
ghost use Rattle.iox_model.specs.declared.kind.Kind.TheVariants as kinds;
ghost use Rattle.iox_model.specs.declared.kind.Role.TheVariants as roles;
ghost use Rattle.iox_model.specs.WholeCalls.{IsWholeCall};
ghost use Rattle.iox_tables.specs.HubStates.States.{Given};
ghost use Rattle.iox_hub_laws.specs.Hubs.{HasValue, state_of_hub};
ghost use Rattle.iox_hub_laws.specs.Keeping.{HaveSameShapes, KeepsAll};
ghost use Rattle.iox_hub_laws.specs.Lending.{payload_of};
ghost use Rattle.iox_hub_laws.specs.Sends.{BringsOnly, CopiesResponse, WaitsAsBefore};
ghost use Rattle.iceoryx2_ports.specs.Copies.{LeavesUnsent, reply_of_response_copy};
ghost use Rattle.iceoryx2_ports.specs.Idling.{BringsOne};
ghost use Rattle.iceoryx2_ports.specs.Keeping.{KeepsAsking};
ghost use Rattle.iceoryx2_ports.specs.Opens.{KeepsRequests};
ghost use Rattle.iceoryx2_ports.specs.Responses.{ReachesAsker, answerer_in};
ghost use Rattle.iceoryx2_ports.specs.Senders.{BringsFrom};
ghost use Rattle.iceoryx2_ports.specs.Streams.{AddsOnly};

use super::ActiveRequest;
use crate::copies::error_of_test;
use crate::errors::{LoanError, SendError};
use iox_hub_laws::{Answered, Backpressure, Hub, copy_response};
use iox_store::{One, Payload};
use iox_words::Words;

impl<Q: Payload, QH: Words, E: Words, PH: Words> ActiveRequest<Q, QH, One<E>, PH> {
    /// Sends a response with that value to the client. What clients gave back is got back first.
    pub fn send_copy<H: Backpressure>(
        &self,
        hub: &mut Hub<Q, QH, One<E>, PH, H>,
        value: E,
    ) -> Result<(), SendError>
        requires has { HasValue hub.old self.now.node self.now.number kinds.ActiveRequest }
        requires small { FitsInMemory E.row }
        ensures whole { (x : Given) → IsWholeCall (state_of_hub x hub.old) self.now.node
            (calls.SendCopy self.now.number
            (payload_of roles.Server 1 (flat_map E.words (value ∷ []))))
            (reply_of_response_copy result) (state_of_hub x hub.new) }
        ensures keeps { KeepsAll hub.old hub.new }
        ensures shapes { HaveSameShapes hub.old hub.new }
        ensures asks { KeepsAsking hub.old hub.new }
        ensures sent { OnOk result (CopiesResponse hub.old self.now.node self.now.number 1
            (flat_map E.words (value ∷ [])) hub.new) }
        ensures unsent { OnErr result (WaitsAsBefore hub.old hub.new) }
        ensures reaches { OnOk result
            (ReachesAsker hub.old self.now.node self.now.number hub.new) }
        ensures requests { KeepsRequests hub.old hub.new }
        ensures one { OnOk result (BringsOne hub.old hub.new) }
        ensures only { BringsOnly hub.old (flat_map E.words (value ∷ [])) hub.new }
        ensures adds { AddsOnly hub.old (flat_map E.words (value ∷ [])) hub.new }
        ensures from { BringsFrom hub.old (answerer_in hub.old self.now.node self.now.number)
            hub.new }
        ensures left { IfErr result (λ error. LeavesUnsent hub.old error hub.new) }
    {
        hub.is_in_order();
        hub.is_of_its_types();
        match copy_response(hub, self.node, self.number, self.hint, &[value]) {
            Answered::Done(_) => Ok(()),
            Answered::Refused(refusal) => Err(SendError::from(error_of_test(refusal))),
            Answered::OutOfMemory => Err(SendError::from(LoanError::OutOfMemory)),
            Answered::Undelivered => Err(SendError::UnableToDeliver),
        }
    }
}
