//! Loans by number.
ghost use Rattle.std.specs.Prelude.{◌≡◌, IfOk, OnErr, false};
ghost use Rattle.iox_model.specs.declared.call.Call.TheVariants.{Loan};
ghost use Rattle.iox_model.specs.Commands.{Use};
ghost use Rattle.iox_port_commands.specs.Applying.{HaveDefaults, IsCalled, LacksMemory, MustGrowIn};
ghost use Rattle.iox_port_commands.specs.Telling.{tells_want};

use crate::answers::{lent, not_begun};
use crate::begins::begin;
use iox_hub::{Asked, Backpressure, Hub};
use iox_model::kind::Kind;
use iox_model::reply::PortReply;
use iox_store::Payload;
use iox_words::Words;
use std::alloc::AllocError;

/// Lends a message of a client, or for an active request, in which each element is the default. It
/// fails only where the message has to grow, and there is no memory for it.
pub(crate) fn loan<Q: Payload, QH: Words, P: Payload, PH: Words, H: Backpressure, C>(
    hub: &mut Hub<Q, QH, P, PH, H>,
    node: u64,
    number: u64,
    elements: u64,
) -> Result<PortReply<Vec<u64>, C>, AllocError>
    requires { HaveDefaults hub.old }
    ensures whole { IfOk result (λ reply.
        IsCalled hub.old node (Loan number elements) reply hub.new) }
    ensures memory { IfOk result (λ reply. tells_want reply ≡ false) }
    ensures wanting { OnErr result
        (LacksMemory hub.old node (Use (Loan number elements)) hub.new) }
    ensures grows { OnErr result (MustGrowIn hub.old node number elements) }
    ensures unchanged { OnErr result (hub.new ≡ hub.old) }
{
    hub.is_in_order();
    let count = elements as usize;
    match begin(hub, node, number, Asked::Loan) {
        Ok((Kind::Client, place)) => lent(hub.lend_request(node, number, place, count, false)),
        Ok((Kind::ActiveRequest, place)) => {
            lent(hub.lend_response(node, number, place, count, false))
        }
        Ok(_) => unreachable!(),
        Err(reason) => Ok(not_begun(reason)),
    }
}
