//! Writes by number.
ghost use Rattle.std.specs.Prelude.{◌≡◌, false, flat_map, length};
ghost use Rattle.iox_model.specs.declared.call.Call.TheVariants.{Write};
ghost use Rattle.iox_model.specs.declared.kind.Role.TheVariants as roles;
ghost use Rattle.iox_hub.specs.Lending.{payload_of};
ghost use Rattle.iox_port_commands.specs.Applying.{IsCalled};
ghost use Rattle.iox_port_commands.specs.Asking.{payload_for};
ghost use Rattle.iox_port_commands.specs.Telling.{tells_want};

use crate::answers::{not_begun, written};
use crate::begins::begin;
use crate::elements::Elements;
use iox_hub::{Asked, Backpressure, Hub};
use iox_model::kind::{Kind, Role};
use iox_model::reply::PortReply;
use iox_store::Payload;
use iox_words::Words;

/// Fills a loaned request.
fn write_request<Q: Payload, QH: Words, P: Payload, PH: Words, H: Backpressure, C>(
    hub: &mut Hub<Q, QH, P, PH, H>,
    node: u64,
    number: u64,
    values: &[Q::Element],
) -> PortReply<Vec<u64>, C>
    ensures whole { IsCalled hub.old node
        (Write number (payload_of roles.Client (length values.now)
        (flat_map Q.Element.words values.now))) result hub.new }
    ensures memory { tells_want result ≡ false }
{
    match begin(hub, node, number, Asked::Write(Role::Client)) {
        Ok((_, place)) => written(hub.write_request(node, number, place, values)),
        Err(reason) => not_begun(reason),
    }
}

/// Fills a loaned response.
fn write_response<Q: Payload, QH: Words, P: Payload, PH: Words, H: Backpressure, C>(
    hub: &mut Hub<Q, QH, P, PH, H>,
    node: u64,
    number: u64,
    values: &[P::Element],
) -> PortReply<Vec<u64>, C>
    ensures whole { IsCalled hub.old node
        (Write number (payload_of roles.Server (length values.now)
        (flat_map P.Element.words values.now))) result hub.new }
    ensures memory { tells_want result ≡ false }
{
    match begin(hub, node, number, Asked::Write(Role::Server)) {
        Ok((_, place)) => written(hub.write_response(node, number, place, values)),
        Err(reason) => not_begun(reason),
    }
}

/// Fills a loan with copies of these elements, whatever was filled.
pub(crate) fn write<Q: Payload, QH: Words, P: Payload, PH: Words, H: Backpressure, C>(
    hub: &mut Hub<Q, QH, P, PH, H>,
    node: u64,
    number: u64,
    payload: &Elements<Q::Element, P::Element>,
) -> PortReply<Vec<u64>, C>
    ensures whole { IsCalled hub.old node
        (Write number (payload_for Q.Element.words P.Element.words payload.now)) result hub.new }
    ensures memory { tells_want result ≡ false }
{
    match payload {
        Elements::Requests(values) => write_request(hub, node, number, values),
        Elements::Responses(values) => write_response(hub, node, number, values),
    }
}
