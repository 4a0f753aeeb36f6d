//! Receives of a hub, with what they take.
ghost use Rattle.std.specs.Prelude.{◌≡◌, ◌<◌, ◌^◌};
ghost use Rattle.iox_model.specs.declared.call.Call.TheVariants.{Receive};
ghost use Rattle.iox_model.specs.declared.kind.Kind.TheVariants.{ActiveRequest, PendingResponse};
ghost use Rattle.iox_model.specs.declared.kind.Kind.TheVariants.{Response, Server};
ghost use Rattle.iox_model.specs.WholeCalls.{IsWholeCall};
ghost use Rattle.iox_tables.specs.HubStates.States.{Given};
ghost use Rattle.iox_hub.specs.Replies.{reply_of_receive};
ghost use Rattle.iox_hub.specs.Hubs.{HasReceived, HasValue, state_of_hub, with_control};
ghost use Rattle.iox_hub.specs.Keeping.{IsNew, KeepsAll};
ghost use Rattle.iox_hub_laws.specs.Receives.{GetsOnly, TakesRequest, TakesResponse};
ghost use Rattle.iox_hub_laws.specs.Waiting.{WaitedFor, WaitedForPending, client_in, server_of};

use iox_hub::{Backpressure, Hub, Received};
use iox_store::Payload;
use iox_words::Words;

/// Receives a request for that server, wherever one waits that it can receive: one that was
/// delivered to it, that it did not get before, and that comes behind all that it took from that
/// client.
#[inline]
pub fn receive_request<Q: Payload, QH: Words, P: Payload, PH: Words, H: Backpressure>(
    hub: &mut Hub<Q, QH, P, PH, H>,
    node: u64,
    server: u64,
    hint: usize,
) -> Received
    requires has { HasValue hub.old node server Server }
    requires calls { hub.old.control.tables.calls < 2 ^ 56 }
    ensures takes { TakesRequest hub.old node server result hub.new }
    ensures waited { WaitedFor hub.old (server_of server) result }
    ensures carries { GetsOnly hub.old (server_of server) node result hub.new }
    ensures left { hub.new ≡ with_control hub.old hub.new.control }
    ensures whole { (x : Given) → IsWholeCall (state_of_hub x hub.old) node
        (Receive server) (reply_of_receive result) (state_of_hub x hub.new) }
    ensures has { HasReceived hub.new node ActiveRequest result }
    ensures new { IsNew hub.old node result }
    ensures keeps { KeepsAll hub.old hub.new }
{
    hub.is_in_order();
    hub.receive_request(node, server, hint)
}

/// Receives a response for that pending response, wherever one waits that it can receive: one to
/// its own request, that was delivered to it, that it did not get before, and that comes behind all
/// that were taken on that way. Its handle is looked for at the hint first.
#[inline]
pub fn receive_response<Q: Payload, QH: Words, P: Payload, PH: Words, H: Backpressure>(
    hub: &mut Hub<Q, QH, P, PH, H>,
    node: u64,
    number: u64,
    hint: usize,
) -> Received
    requires has { HasValue hub.old node number PendingResponse }
    requires calls { hub.old.control.tables.calls < 2 ^ 56 }
    ensures takes { TakesResponse hub.old node number result hub.new }
    ensures waited { WaitedForPending hub.old node number result }
    ensures carries { GetsOnly hub.old (client_in hub.old node number) node result hub.new }
    ensures left { hub.new ≡ with_control hub.old hub.new.control }
    ensures whole { (x : Given) → IsWholeCall (state_of_hub x hub.old) node
        (Receive number) (reply_of_receive result) (state_of_hub x hub.new) }
    ensures has { HasReceived hub.new node Response result }
    ensures new { IsNew hub.old node result }
    ensures keeps { KeepsAll hub.old hub.new }
{
    hub.is_in_order();
    hub.receive_response(node, number, hint)
}
