//! Sends of a hub, with what they bring.
ghost use Rattle.std.specs.Prelude.{◌≡◌, ◌<◌, ◌^◌, Some};
ghost use Rattle.iox_model.specs.declared.call.Call.TheVariants.{Send};
ghost use Rattle.iox_model.specs.declared.kind.Kind.TheVariants.{RequestMut, ResponseMut};
ghost use Rattle.iox_model.specs.WholeCalls.{IsWholeCall};
ghost use Rattle.iox_tables.specs.HubStates.States.{Given};
ghost use Rattle.iox_tables.specs.HubStates.Tables.{HandleState};
ghost use Rattle.iox_tables.specs.HubStates.Wirings.{handle_in};
ghost use Rattle.iox_hub.specs.Goings.{StaysTidy};
ghost use Rattle.iox_hub.specs.Sendings as requests;
ghost use Rattle.iox_hub.specs.Responses as responses;
ghost use Rattle.iox_hub.specs.Hubs.{HasValue, state_of_hub, with_control};
ghost use Rattle.iox_hub.specs.Keeping.{KeepsOthers};
ghost use Rattle.iox_hub.specs.Reads.{message_in};
ghost use Rattle.iox_hub.specs.Sending.{HasNothing, HasSent, with_words_left};
ghost use Rattle.iox_hub_laws.specs.Sends.{BringsOnly, BringsRequest, BringsResponse};

use iox_hub::{Backpressure, Hub, Requested, Responded};
use iox_store::Payload;
use iox_words::Words;

/// Sends a loaned request to all connected servers: it comes last on the way to each, but where a
/// full server makes it fail, or is skipped. The handle is looked for at the hint first.
#[inline]
pub fn send_request<Q: Payload, QH: Words, P: Payload, PH: Words, H: Backpressure>(
    hub: &mut Hub<Q, QH, P, PH, H>,
    node: u64,
    number: u64,
    hint: usize,
) -> Requested
    requires has { HasValue hub.old node number RequestMut }
    requires calls { hub.old.control.tables.calls < 2 ^ 56 }
    ensures brings { BringsRequest hub.old node number result hub.new }
    ensures only { BringsOnly hub.old (message_in hub.old node number).payload hub.new }
    ensures left { (h : HandleState) → handle_in hub.old.control.tables.handles node number ≡ Some h
        → hub.new ≡ with_words_left (with_control hub.old hub.new.control) h.pool }
    ensures whole { (x : Given) → IsWholeCall (state_of_hub x hub.old) node
        (Send number) (requests.reply_of_send result) (state_of_hub x hub.new) }
    ensures has { HasSent hub.new node number result }
    ensures keeps { KeepsOthers hub.old node number hub.new }
    ensures tidy { StaysTidy hub.old.control.tables hub.new.control.tables }
{
    hub.is_in_order();
    hub.send_request(node, number, hint)
}

/// Sends a loaned response to the client of its request: it comes last on the way there, if the
/// client awaits it and is not full. The handle is looked for at the hint first.
#[inline]
pub fn send_response<Q: Payload, QH: Words, P: Payload, PH: Words, H: Backpressure>(
    hub: &mut Hub<Q, QH, P, PH, H>,
    node: u64,
    number: u64,
    hint: usize,
) -> Responded
    requires has { HasValue hub.old node number ResponseMut }
    requires calls { hub.old.control.tables.calls < 2 ^ 56 }
    ensures brings { BringsResponse hub.old node number result hub.new }
    ensures only { BringsOnly hub.old (message_in hub.old node number).payload hub.new }
    ensures left { (h : HandleState) → handle_in hub.old.control.tables.handles node number ≡ Some h
        → hub.new ≡ with_words_left (with_control hub.old hub.new.control) h.pool }
    ensures whole { (x : Given) → IsWholeCall (state_of_hub x hub.old) node
        (Send number) (responses.reply_of_send result) (state_of_hub x hub.new) }
    ensures gone { HasNothing hub.new node number }
    ensures keeps { KeepsOthers hub.old node number hub.new }
    ensures tidy { StaysTidy hub.old.control.tables hub.new.control.tables }
{
    hub.is_in_order();
    hub.send_response(node, number, hint)
}
