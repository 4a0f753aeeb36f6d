//! Releases by number.
ghost use Rattle.std.specs.Prelude.{◌≡◌, false};
ghost use Rattle.iox_model.specs.declared.call.Call.TheVariants.{Release};
ghost use Rattle.iox_port_commands.specs.Applying.{IsCalled};
ghost use Rattle.iox_port_commands.specs.Telling.{tells_want};

use crate::answers::not_begun;
use crate::begins::begin;
use iox_hub::{Asked, Backpressure, Hub};
use iox_model::kind::Kind;
use iox_model::reply::PortReply;
use iox_store::Payload;
use iox_words::Words;

/// Releases a handle, or the own value of a port.
pub(crate) fn release<Q: Payload, QH: Words, P: Payload, PH: Words, H: Backpressure, C>(
    hub: &mut Hub<Q, QH, P, PH, H>,
    node: u64,
    number: u64,
) -> PortReply<Vec<u64>, C>
    ensures whole { IsCalled hub.old node (Release number) result hub.new }
    ensures memory { tells_want result ≡ false }
{
    match begin(hub, node, number, Asked::Release) {
        Ok((Kind::Client | Kind::Server, _)) => {
            hub.release_port(node, number);
            PortReply::Done
        }
        Ok((kind, place)) => {
            if !hub.release_if(node, number, kind, place) {
                unreachable!();
            }
            PortReply::Done
        }
        Err(reason) => not_begun(reason),
    }
}
