//! Copies of a hub, with what they bring.
ghost use Rattle.std.specs.Prelude.{◌≡◌, Some, flat_map, length};
ghost use Rattle.iox_model.specs.declared.call.Call.TheVariants.{SendCopy};
ghost use Rattle.iox_model.specs.declared.kind.Kind.TheVariants.{ActiveRequest, Client};
ghost use Rattle.iox_model.specs.declared.kind.Role.TheVariants as roles;
ghost use Rattle.iox_model.specs.WholeCalls.{IsWholeCall};
ghost use Rattle.iox_tables.specs.HubStates.States.{Given};
ghost use Rattle.iox_tables.specs.HubStates.Tables.{HandleState, PortState, port_in};
ghost use Rattle.iox_tables.specs.HubStates.Wirings.{handle_in};
ghost use Rattle.iox_hub.specs.Answers as responses;
ghost use Rattle.iox_hub.specs.Copies as requests;
ghost use Rattle.iox_hub.specs.Answered.TheVariants as answered;
ghost use Rattle.iox_hub.specs.Copied.TheVariants as copied;
ghost use Rattle.iox_hub.specs.LoanRefusal.TheVariants.{WantOfMemory};
ghost use Rattle.iox_hub.specs.Growing.{GrowsPast};
ghost use Rattle.iox_hub.specs.Copying.{HasCopied, LeavesAnswered, LeavesCopied};
ghost use Rattle.iox_hub.specs.Hubs.{HasValue, state_of_hub};
ghost use Rattle.iox_hub.specs.Keeping.{KeepsAll};
ghost use Rattle.iox_hub.specs.Lending.{payload_of};
ghost use Rattle.iox_hub_laws.specs.Sends.{BringsOnly, BringsResponseCopy};

use iox_hub::{Answered, Backpressure, Copied, Hub};
use iox_store::Payload;
use iox_words::Words;

/// Sends a request of that client with copies of these elements to all connected servers. Memory is
/// wanted only where the message has to grow.
#[inline]
pub fn copy_request<Q: Payload, QH: Words, P: Payload, PH: Words, H: Backpressure>(
    hub: &mut Hub<Q, QH, P, PH, H>,
    node: u64,
    client: u64,
    values: &[Q::Element],
) -> Copied
    requires has { HasValue hub.old node client Client }
    ensures only { BringsOnly hub.old (flat_map Q.Element.words values.now) hub.new }
    ensures keeps { KeepsAll hub.old hub.new }
    ensures left { LeavesCopied hub.old (length values.now)
        (flat_map Q.Element.words values.now) result hub.new }
    ensures whole { (x : Given) → IsWholeCall (state_of_hub x hub.old) node
        (SendCopy client (payload_of roles.Client (length values.now)
        (flat_map Q.Element.words values.now)))
        (requests.reply_of_copy result) (state_of_hub x hub.new) }
    ensures has { HasCopied hub.new node (length values.now)
        (flat_map Q.Element.words values.now) result }
    ensures memory { result ≡ copied.Refused WantOfMemory → (p : PortState)
        → port_in hub.old.control.tables.ports client ≡ Some p → GrowsPast p (length values.now) }
{
    hub.is_in_order();
    hub.copy_request(node, client, values)
}

/// Sends a response with copies of these elements to the client of that active request. The handle
/// of the request is looked for at the hint first. Memory is wanted only where the message has to
/// grow.
#[inline]
pub fn copy_response<Q: Payload, QH: Words, P: Payload, PH: Words, H: Backpressure>(
    hub: &mut Hub<Q, QH, P, PH, H>,
    node: u64,
    number: u64,
    hint: usize,
    values: &[P::Element],
) -> Answered
    requires has { HasValue hub.old node number ActiveRequest }
    ensures brings { BringsResponseCopy hub.old node number (length values.now)
        (flat_map P.Element.words values.now) result hub.new }
    ensures only { BringsOnly hub.old (flat_map P.Element.words values.now) hub.new }
    ensures keeps { KeepsAll hub.old hub.new }
    ensures left { LeavesAnswered hub.old (length values.now)
        (flat_map P.Element.words values.now) result hub.new }
    ensures whole { (x : Given) → IsWholeCall (state_of_hub x hub.old) node
        (SendCopy number (payload_of roles.Server (length values.now)
        (flat_map P.Element.words values.now)))
        (responses.reply_of_copy result) (state_of_hub x hub.new) }
    ensures memory { result ≡ answered.Refused WantOfMemory → (h : HandleState) (p : PortState)
        → handle_in hub.old.control.tables.handles node number ≡ Some h
        → port_in hub.old.control.tables.ports h.port ≡ Some p → GrowsPast p (length values.now) }
{
    hub.is_in_order();
    hub.copy_response(node, number, hint, values)
}
