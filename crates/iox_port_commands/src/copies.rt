//! Copies by number: loan, write and send in one.
ghost use Rattle.std.specs.Prelude.{◌≡◌, IfOk, OnErr, false, flat_map, length};
ghost use Rattle.iox_model.specs.declared.call.Call.TheVariants.{SendCopy};
ghost use Rattle.iox_model.specs.declared.command.PortCommand.TheVariants as port_commands;
ghost use Rattle.iox_model.specs.declared.kind.Role.TheVariants as roles;
ghost use Rattle.iox_model.specs.Commands.{Use};
ghost use Rattle.iox_tables.specs.HubStates.States.{Given};
ghost use Rattle.iox_hub.specs.Hubs.{state_of_hub};
ghost use Rattle.iox_hub.specs.Lending.{payload_of};
ghost use Rattle.iox_port_commands.specs.Applying.{IsCalled, LacksMemory, MustGrowIn};
ghost use Rattle.iox_port_commands.specs.Asking.{payload_for};
ghost use Rattle.iox_port_commands.specs.Memory.{GrowsIfLent};
ghost use Rattle.iox_port_commands.specs.Telling.{tells_want};

use crate::answers::{answered, copied, not_begun};
use crate::begins::begin;
use crate::elements::Elements;
use iox_hub::{Asked, Backpressure, Hub};
use iox_model::kind::{Kind, Role};
use iox_model::reply::PortReply;
use iox_store::Payload;
use iox_words::Words;
use std::alloc::AllocError;

/// Sends a request of a client. It fails only where the message has to grow, and there is no memory
/// for it.
#[inline(always)]
pub fn copy_request<Q: Payload, QH: Words, P: Payload, PH: Words, H: Backpressure, C>(
    hub: &mut Hub<Q, QH, P, PH, H>,
    node: u64,
    number: u64,
    values: &[Q::Element],
) -> Result<PortReply<Vec<u64>, C>, AllocError>
    ensures whole { IfOk result (λ reply. IsCalled hub.old node
        (SendCopy number (payload_of roles.Client (length values.now)
        (flat_map Q.Element.words values.now))) reply hub.new) }
    ensures memory { IfOk result (λ reply. tells_want reply ≡ false) }
    ensures wanting { OnErr result (LacksMemory hub.old node
        (Use (SendCopy number (payload_of roles.Client (length values.now)
        (flat_map Q.Element.words values.now)))) hub.new) }
    ensures grows { OnErr result (MustGrowIn hub.old node number (length values.now)) }
    ensures unchanged { OnErr result (hub.new ≡ hub.old) }
{
    hub.is_in_order();
    match begin(hub, node, number, Asked::SendCopy(Role::Client)) {
        Ok((Kind::Client, _)) => copied(hub.copy_request(node, number, values)),
        Ok(_) => unreachable!(),
        Err(reason) => Ok(not_begun(reason)),
    }
}

/// Sends a response to the client of an active request. It fails only where the message has to
/// grow, and there is no memory for it.
#[inline(always)]
pub fn copy_response<Q: Payload, QH: Words, P: Payload, PH: Words, H: Backpressure, C>(
    hub: &mut Hub<Q, QH, P, PH, H>,
    node: u64,
    number: u64,
    values: &[P::Element],
) -> Result<PortReply<Vec<u64>, C>, AllocError>
    ensures whole { IfOk result (λ reply. IsCalled hub.old node
        (SendCopy number (payload_of roles.Server (length values.now)
        (flat_map P.Element.words values.now))) reply hub.new) }
    ensures memory { IfOk result (λ reply. tells_want reply ≡ false) }
    ensures wanting { OnErr result (LacksMemory hub.old node
        (Use (SendCopy number (payload_of roles.Server (length values.now)
        (flat_map P.Element.words values.now)))) hub.new) }
    ensures grows { OnErr result (MustGrowIn hub.old node number (length values.now)) }
    ensures unchanged { OnErr result (hub.new ≡ hub.old) }
{
    hub.is_in_order();
    match begin(hub, node, number, Asked::SendCopy(Role::Server)) {
        Ok((Kind::ActiveRequest, place)) => {
            answered(hub.copy_response(node, number, place, values))
        }
        Ok(_) => unreachable!(),
        Err(reason) => Ok(not_begun(reason)),
    }
}

/// Sends a message with copies of these elements: a request of a client, or a response to an active
/// request. It fails only where the message has to grow, and there is no memory for it.
#[inline(always)]
pub(crate) fn send_copy<Q: Payload, QH: Words, P: Payload, PH: Words, H: Backpressure, C>(
    hub: &mut Hub<Q, QH, P, PH, H>,
    node: u64,
    number: u64,
    payload: &Elements<Q::Element, P::Element>,
) -> Result<PortReply<Vec<u64>, C>, AllocError>
    ensures whole { IfOk result (λ reply. IsCalled hub.old node
        (SendCopy number (payload_for Q.Element.words P.Element.words payload.now)) reply hub.new) }
    ensures memory { IfOk result (λ reply. tells_want reply ≡ false) }
    ensures wanting { OnErr result (LacksMemory hub.old node
        (Use (SendCopy number (payload_for Q.Element.words P.Element.words payload.now))) hub.new) }
    ensures grows { OnErr result ((x : Given) → GrowsIfLent (state_of_hub x hub.old)
        (port_commands.SendCopy node number
        (payload_for Q.Element.words P.Element.words payload.now))) }
    ensures unchanged { OnErr result (hub.new ≡ hub.old) }
{
    match payload {
        Elements::Requests(values) => copy_request(hub, node, number, values),
        Elements::Responses(values) => copy_response(hub, node, number, values),
    }
}
