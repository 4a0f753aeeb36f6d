//! Reads by number.
ghost use Rattle.std.specs.Prelude.{◌≡◌, IfOk, OnErr, false};
ghost use Rattle.iox_model.specs.declared.call.Call.TheVariants.{Read};
ghost use Rattle.iox_model.specs.Commands.{Use};
ghost use Rattle.iox_hub.specs.Reads.{HasOf, has_request, has_response};
ghost use Rattle.iox_port_commands.specs.Applying.{IsCalled, LacksMemory};
ghost use Rattle.iox_port_commands.specs.Telling.{tells_want};

use crate::answers::not_begun;
use crate::begins::begin;
use crate::word_lists::words_of;
use iox_hub::{Asked, Backpressure, Hub};
use iox_model::kind::Kind;
use iox_model::reply::PortReply;
use iox_store::Payload;
use iox_words::Words;
use std::alloc::{AllocError, Global};

/// The words of a request, where there is memory for them. Its handle is looked for at the hint
/// first.
#[inline(always)]
fn read_request<Q: Payload, QH: Words, P: Payload, PH: Words, H: Backpressure, C>(
    hub: &Hub<Q, QH, P, PH, H>,
    alloc: Global,
    node: u64,
    number: u64,
    place: usize,
) -> Result<PortReply<Vec<u64>, C>, AllocError>
    requires has { HasOf has_request hub.now node number }
    ensures whole { IfOk result (λ reply. IsCalled hub.now node (Read number) reply hub.now) }
    ensures memory { IfOk result (λ reply. tells_want reply ≡ false) }
    ensures wanting { OnErr result (LacksMemory hub.now node (Use (Read number)) hub.now) }
{
    let header = hub.request_header(node, number, place);
    match words_of(alloc, header, hub.request(node, number, place)) {
        Ok(words) => Ok(PortReply::Words(words)),
        Err(error) => Err(error),
    }
}

/// The words of a response, where there is memory for them. Its handle is looked for at the hint
/// first.
#[inline(always)]
fn read_response<Q: Payload, QH: Words, P: Payload, PH: Words, H: Backpressure, C>(
    hub: &Hub<Q, QH, P, PH, H>,
    alloc: Global,
    node: u64,
    number: u64,
    place: usize,
) -> Result<PortReply<Vec<u64>, C>, AllocError>
    requires has { HasOf has_response hub.now node number }
    ensures whole { IfOk result (λ reply. IsCalled hub.now node (Read number) reply hub.now) }
    ensures memory { IfOk result (λ reply. tells_want reply ≡ false) }
    ensures wanting { OnErr result (LacksMemory hub.now node (Use (Read number)) hub.now) }
{
    let header = hub.response_header(node, number, place);
    match words_of(alloc, header, hub.response(node, number, place)) {
        Ok(words) => Ok(PortReply::Words(words)),
        Err(error) => Err(error),
    }
}

/// The words of a handle's message: those of its user header, and then those of its elements. It
/// fails only where there is no memory for them.
#[inline(always)]
pub fn read<Q: Payload, QH: Words, P: Payload, PH: Words, H: Backpressure, C>(
    hub: &Hub<Q, QH, P, PH, H>,
    alloc: Global,
    node: u64,
    number: u64,
) -> Result<PortReply<Vec<u64>, C>, AllocError>
    ensures whole { IfOk result (λ reply. IsCalled hub.now node (Read number) reply hub.now) }
    ensures memory { IfOk result (λ reply. tells_want reply ≡ false) }
    ensures wanting { OnErr result (LacksMemory hub.now node (Use (Read number)) hub.now) }
{
    match begin(hub, node, number, Asked::Read) {
        Ok((Kind::RequestMut | Kind::PendingResponse | Kind::ActiveRequest, place)) => {
            read_request(hub, alloc, node, number, place)
        }
        Ok((Kind::ResponseMut | Kind::Response, place)) => {
            read_response(hub, alloc, node, number, place)
        }
        Ok(_) => unreachable!(),
        Err(reason) => Ok(not_begun(reason)),
    }
}
