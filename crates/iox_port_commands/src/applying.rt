//! A command is applied to a hub.
ghost use Rattle.std.specs.Prelude.{◌≡◌, ◌||◌, IfOk, OnErr, true};
ghost use Rattle.std.specs.Prelude.{false, if◌then◌else◌};
ghost use Rattle.iox_model.specs.declared.reply.PortReply.TheVariants.{Refused};
ghost use Rattle.iox_model.specs.declared.reply.Refusal.TheVariants as refusals;
ghost use Rattle.iox_hub.specs.Making.{StaysAs};
ghost use Rattle.iox_hub.specs.Keeping.{HaveSameShapes};
ghost use Rattle.iox_hub.specs.HandlerWords.{shown_by};
ghost use Rattle.iox_port_commands.specs.Applying.{GrowsIfLentFor, HadMemoryFor, HaveDefaults};
ghost use Rattle.iox_port_commands.specs.Applying.{IsApplied, LacksMemoryFor};
ghost use Rattle.iox_port_commands.specs.Asking.{is_making, takes_memory};
ghost use Rattle.iox_port_commands.specs.Telling.{tells_want, wants_memory, wants_segment};

use crate::copies::send_copy;
use crate::elements::Elements;
use crate::lending::loan;
use crate::makings::make;
use crate::questions::{has_hint, has_requests, has_response, is_connected, set_hint};
use crate::reading::read;
use crate::receives::receive;
use crate::releases::release;
use crate::sends::send;
use crate::writing::write;
use iox_hub::{Backpressure, Hub};
use iox_model::command::PortCommand;
use iox_model::kind::Role;
use iox_model::reply::{PortReply, Refusal};
use iox_store::Payload;
use iox_words::Words;
use std::alloc::{AllocError, Global};

/// Each command by its own call.
#[inline(always)]
fn dispatch<Q: Payload, QH: Words, P: Payload, PH: Words, H: Backpressure, C>(
    hub: &mut Hub<Q, QH, P, PH, H>,
    alloc: Global,
    command: PortCommand<Elements<Q::Element, P::Element>, H>,
) -> Result<PortReply<Vec<u64>, C>, AllocError>
    requires { HaveDefaults hub.old }
    ensures whole { IfOk result (λ reply. IsApplied Q.Element.words P.Element.words
        (shown_by H.action) hub.old command reply hub.new) }
    ensures memory { IfOk result (λ reply. tells_want reply ≡ false) }
    ensures wanting { OnErr result (LacksMemoryFor Q.Element.words P.Element.words
        (shown_by H.action) hub.old command hub.new) }
    ensures takes { OnErr result ((is_making command || takes_memory command) ≡ true) }
    ensures grows { OnErr result (GrowsIfLentFor Q.Element.words P.Element.words (shown_by H.action)
        hub.old command) }
    ensures unchanged { OnErr result (StaysAs hub.old hub.new) }
{
    // One place for the replies of all calls: each place is cleared before it is filled.
    Ok(match command {
        PortCommand::Client { node, id, options } => {
            return make(hub, alloc, node, Role::Client, id, options);
        }
        PortCommand::Server { node, id, options } => {
            return make(hub, alloc, node, Role::Server, id, options);
        }
        PortCommand::Read { node, number } => return read(hub, alloc, node, number),
        PortCommand::Loan {
            node,
            number,
            elements,
        } => return loan(hub, node, number, elements),
        PortCommand::Write {
            node,
            number,
            payload,
        } => write(hub, node, number, &payload),
        PortCommand::Send { node, number } => send(hub, node, number),
        PortCommand::SendCopy {
            node,
            number,
            payload,
        } => return send_copy(hub, node, number, &payload),
        PortCommand::Receive { node, number } => receive(hub, node, number),
        PortCommand::Release { node, number } => release(hub, node, number),
        PortCommand::IsConnected { node, number } => is_connected(hub, node, number),
        PortCommand::SetHint { node, number } => set_hint(hub, node, number),
        PortCommand::HasHint { node, number } => has_hint(hub, node, number),
        PortCommand::HasRequests { node, number } => has_requests(hub, node, number),
        PortCommand::HasResponse { node, number } => has_response(hub, node, number),
    })
}

/// Applies a command: makes a port, or calls what its number names. What cannot be done is refused,
/// by the first test that fails, as the machine has it. A node is whoever the command says: which
/// nodes there are is the service's matter.
///
/// It fails only where there is no memory for a port, for what is read, or for a message that has
/// to grow, and changes nothing then. Its replies are those of the machine with memory. For a port
/// that is too large, a hub never has memory.
#[inline(always)]
pub fn try_apply<Q: Payload, QH: Words, P: Payload, PH: Words, H: Backpressure, C>(
    hub: &mut Hub<Q, QH, P, PH, H>,
    alloc: Global,
    command: PortCommand<Elements<Q::Element, P::Element>, H>,
) -> Result<PortReply<Vec<u64>, C>, AllocError>
    requires { HaveDefaults hub.old }
    ensures whole { IfOk result (λ reply. IsApplied Q.Element.words P.Element.words
        (shown_by H.action) hub.old command reply hub.new) }
    ensures memory { IfOk result (λ reply. HadMemoryFor Q.Element.words P.Element.words
        (shown_by H.action) hub.old command reply) }
    ensures wanting { OnErr result (LacksMemoryFor Q.Element.words P.Element.words
        (shown_by H.action) hub.old command hub.new) }
    ensures takes { OnErr result ((is_making command || takes_memory command) ≡ true) }
    ensures grows { OnErr result (GrowsIfLentFor Q.Element.words P.Element.words (shown_by H.action)
        hub.old command) }
    ensures unchanged { OnErr result (StaysAs hub.old hub.new) }
    ensures shapes { HaveSameShapes hub.old hub.new }
    ensures defaults { HaveDefaults hub.new }
{
    dispatch(hub, alloc, command)
}

/// Whether the command makes a port.
fn is_making<P, H>(command: &PortCommand<P, H>) -> bool
    ensures { result ≡ is_making command.now }
{
    matches!(
        command,
        PortCommand::Client { .. } | PortCommand::Server { .. }
    )
}

/// How a command is refused where there is no memory for it: the making of a port, or another.
fn lacking<C>(making: bool) -> PortReply<Vec<u64>, C>
    ensures { result ≡ Refused (if making then refusals.UnableToCreateDataSegment
        else refusals.WantOfMemory) }
{
    if making {
        return PortReply::Refused(Refusal::UnableToCreateDataSegment);
    }
    PortReply::Refused(Refusal::WantOfMemory)
}

/// The same as [`try_apply`], where want of memory is a reply as well: `UnableToCreateDataSegment`
/// for a port, `WantOfMemory` for a read, and for a loan or a copy whose message must grow. No
/// other command is refused so.
pub fn apply<Q: Payload, QH: Words, P: Payload, PH: Words, H: Backpressure, C>(
    hub: &mut Hub<Q, QH, P, PH, H>,
    alloc: Global,
    command: PortCommand<Elements<Q::Element, P::Element>, H>,
) -> PortReply<Vec<u64>, C>
    requires { HaveDefaults hub.old }
    ensures whole { IsApplied Q.Element.words P.Element.words (shown_by H.action) hub.old command
        result hub.new }
    ensures memory { wants_memory result ≡ true → takes_memory command ≡ true }
    ensures grows { wants_memory result ≡ true → GrowsIfLentFor Q.Element.words P.Element.words
        (shown_by H.action) hub.old command }
    ensures segment { wants_segment result ≡ true → is_making command ≡ true }
    ensures unchanged { tells_want result ≡ true → StaysAs hub.old hub.new }
    ensures shapes { HaveSameShapes hub.old hub.new }
    ensures defaults { HaveDefaults hub.new }
{
    let making = is_making(&command);
    match dispatch(hub, alloc, command) {
        Ok(reply) => reply,
        Err(_) => lacking(making),
    }
}
