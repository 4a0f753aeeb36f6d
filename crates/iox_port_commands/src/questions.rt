//! Questions and hints by number.
ghost use Rattle.std.specs.Prelude.{◌≡◌, false};
ghost use Rattle.iox_model.specs.declared.call.Call.TheVariants.{HasHint, HasRequests, HasResponse, IsConnected, SetHint};
ghost use Rattle.iox_port_commands.specs.Applying.{IsCalled};
ghost use Rattle.iox_port_commands.specs.Telling.{tells_want};

use crate::answers::not_begun;
use crate::begins::begin;
use iox_hub::{Asked, Backpressure, Hub};
use iox_model::kind::Kind;
use iox_model::reply::PortReply;
use iox_store::Payload;
use iox_words::Words;

/// Whether the request of a pending response, or of an active request, is still open.
pub(crate) fn is_connected<Q: Payload, QH: Words, P: Payload, PH: Words, H: Backpressure, C>(
    hub: &Hub<Q, QH, P, PH, H>,
    node: u64,
    number: u64,
) -> PortReply<Vec<u64>, C>
    ensures whole { IsCalled hub.now node (IsConnected number) result hub.now }
    ensures memory { tells_want result ≡ false }
{
    match begin(hub, node, number, Asked::IsConnected) {
        Ok((_, place)) => PortReply::Answer(hub.is_connected(node, number, place)),
        Err(reason) => not_begun(reason),
    }
}

/// Says to each server with which the request of a pending response is open that its client lost
/// interest.
pub(crate) fn set_hint<Q: Payload, QH: Words, P: Payload, PH: Words, H: Backpressure, C>(
    hub: &mut Hub<Q, QH, P, PH, H>,
    node: u64,
    number: u64,
) -> PortReply<Vec<u64>, C>
    ensures whole { IsCalled hub.old node (SetHint number) result hub.new }
    ensures memory { tells_want result ≡ false }
{
    match begin(hub, node, number, Asked::SetHint) {
        Ok((Kind::PendingResponse, place)) => {
            hub.set_hint(node, number, place);
            PortReply::Done
        }
        Ok(_) => unreachable!(),
        Err(reason) => not_begun(reason),
    }
}

/// Whether the client of an active request gave such a hint.
pub(crate) fn has_hint<Q: Payload, QH: Words, P: Payload, PH: Words, H: Backpressure, C>(
    hub: &Hub<Q, QH, P, PH, H>,
    node: u64,
    number: u64,
) -> PortReply<Vec<u64>, C>
    ensures whole { IsCalled hub.now node (HasHint number) result hub.now }
    ensures memory { tells_want result ≡ false }
{
    match begin(hub, node, number, Asked::HasHint) {
        Ok((Kind::ActiveRequest, place)) => PortReply::Answer(hub.has_hint(node, number, place)),
        Ok(_) => unreachable!(),
        Err(reason) => not_begun(reason),
    }
}

/// Whether a request waits for a server.
pub(crate) fn has_requests<Q: Payload, QH: Words, P: Payload, PH: Words, H: Backpressure, C>(
    hub: &Hub<Q, QH, P, PH, H>,
    node: u64,
    number: u64,
) -> PortReply<Vec<u64>, C>
    ensures whole { IsCalled hub.now node (HasRequests number) result hub.now }
    ensures memory { tells_want result ≡ false }
{
    match begin(hub, node, number, Asked::HasRequests) {
        Ok((Kind::Server, _)) => PortReply::Answer(hub.has_requests(node, number)),
        Ok(_) => unreachable!(),
        Err(reason) => not_begun(reason),
    }
}

/// Whether a response waits for a pending response.
pub(crate) fn has_response<Q: Payload, QH: Words, P: Payload, PH: Words, H: Backpressure, C>(
    hub: &Hub<Q, QH, P, PH, H>,
    node: u64,
    number: u64,
) -> PortReply<Vec<u64>, C>
    ensures whole { IsCalled hub.now node (HasResponse number) result hub.now }
    ensures memory { tells_want result ≡ false }
{
    match begin(hub, node, number, Asked::HasResponse) {
        Ok((Kind::PendingResponse, place)) => {
            PortReply::Answer(hub.has_response(node, number, place))
        }
        Ok(_) => unreachable!(),
        Err(reason) => not_begun(reason),
    }
}
