//! Sends by number.
ghost use Rattle.std.specs.Prelude.{◌≡◌, false};
ghost use Rattle.iox_model.specs.declared.call.Call.TheVariants.{Send};
ghost use Rattle.iox_port_commands.specs.Applying.{IsCalled};
ghost use Rattle.iox_port_commands.specs.Telling.{tells_want};

use crate::answers::{not_begun, requested, responded};
use crate::begins::begin;
use iox_hub::{Asked, Backpressure, Hub};
use iox_model::kind::Kind;
use iox_model::reply::PortReply;
use iox_store::Payload;
use iox_words::Words;

/// Sends a filled loan.
pub(crate) fn send<Q: Payload, QH: Words, P: Payload, PH: Words, H: Backpressure, C>(
    hub: &mut Hub<Q, QH, P, PH, H>,
    node: u64,
    number: u64,
) -> PortReply<Vec<u64>, C>
    ensures whole { IsCalled hub.old node (Send number) result hub.new }
    ensures memory { tells_want result ≡ false }
{
    match begin(hub, node, number, Asked::Send) {
        Ok((Kind::RequestMut, place)) => requested(hub.send_request(node, number, place)),
        Ok((Kind::ResponseMut, place)) => responded(hub.send_response(node, number, place)),
        Ok(_) => unreachable!(),
        Err(reason) => not_begun(reason),
    }
}
