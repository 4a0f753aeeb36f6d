//! The making of ports, by command.
ghost use Rattle.std.specs.Prelude.{◌≡◌, IfOk, OnErr, false};
ghost use Rattle.iox_model.specs.Commands.{Create};
ghost use Rattle.std.specs.Option.{option_map};
ghost use Rattle.iox_hub.specs.Making.{StaysAs, options_with};
ghost use Rattle.iox_hub.specs.HandlerWords.{shown_by};
ghost use Rattle.iox_port_commands.specs.Applying.{IsReplied, LacksMemory};
ghost use Rattle.iox_port_commands.specs.Asking.{options_for};
ghost use Rattle.iox_port_commands.specs.Telling.{tells_want};

use crate::answers::{made, not_made};
use iox_hub::{Backpressure, Hub, Options};
use iox_model::command::PortOptions;
use iox_model::kind::Role;
use iox_model::reply::PortReply;
use iox_store::Payload;
use iox_types::identifiers::{UniqueNodeId, UniqueSystemId};
use iox_words::Words;
use std::alloc::{AllocError, Global};

/// Makes a port of that role, with this handler or with none. It fails where there is no memory for
/// the port: none was found, or the port is too large. All stays then.
pub fn make_port<Q: Payload, QH: Words, P: Payload, PH: Words, H: Backpressure, C>(
    hub: &mut Hub<Q, QH, P, PH, H>,
    alloc: Global,
    node: u64,
    role: Role,
    id: UniqueSystemId,
    options: Options,
    handler: Option<H>,
) -> Result<PortReply<Vec<u64>, C>, AllocError>
    ensures whole { IfOk result (λ reply. IsReplied hub.old node (Create role id (options_with
        options (option_map (shown_by H.action) handler))) reply hub.new) }
    ensures memory { IfOk result (λ reply. tells_want reply ≡ false) }
    ensures wanting { OnErr result (LacksMemory hub.old node (Create role id (options_with options
        (option_map (shown_by H.action) handler))) hub.new) }
    ensures unchanged { OnErr result (StaysAs hub.old hub.new) }
{
    match hub.make_port(alloc, node, role, id, options, handler) {
        Ok(number) => Ok(made(role, number)),
        Err(reason) => not_made(role, reason),
    }
}

/// Makes a port of that role.
pub(crate) fn make<Q: Payload, QH: Words, P: Payload, PH: Words, H: Backpressure, C>(
    hub: &mut Hub<Q, QH, P, PH, H>,
    alloc: Global,
    node: u64,
    role: Role,
    id: UniqueNodeId,
    options: PortOptions<H>,
) -> Result<PortReply<Vec<u64>, C>, AllocError>
    ensures whole { IfOk result (λ reply. IsReplied hub.old node (Create role id (options_for
        (shown_by H.action) options)) reply hub.new) }
    ensures memory { IfOk result (λ reply. tells_want reply ≡ false) }
    ensures wanting { OnErr result (LacksMemory hub.old node (Create role id (options_for
        (shown_by H.action) options)) hub.new) }
    ensures unchanged { OnErr result (StaysAs hub.old hub.new) }
{
    let asked = Options {
        max_slice_len: options.max_slice_len,
        pool: options.pool,
        strategy: options.strategy,
        allocation: options.allocation,
        loaned_responses: options.loaned_responses,
    };
    make_port(
        hub,
        alloc,
        node,
        role,
        id.system_id(),
        asked,
        options.handler,
    )
}
