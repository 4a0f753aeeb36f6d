//! How calls by number begin.
ghost use Rattle.std.specs.Prelude.{◌≡◌, ◌<◌, ◌^◌, IfErr, IfOk, IfSome, OnOk, false, true};
ghost use Rattle.iox_model.specs.Commands.{Call, number_of};
ghost use Rattle.iox_model.specs.Names.{suits};
ghost use Rattle.iox_model.specs.WholeCalls.{IsWholeCall, is_counted};
ghost use Rattle.iox_model.specs.declared.reply.Reply.TheVariants.{Refused};
ghost use Rattle.iox_tables.specs.HubStates.States.{Given};
ghost use Rattle.iox_hub.specs.Asking.{asked_of, call_of, refusal_of};
ghost use Rattle.iox_hub.specs.Hubs.{HasValue, state_of_hub};

use iox_hub::{Asked, Backpressure, Hub, NotBegun, may_be_asked};
use iox_model::kind::Kind;
use iox_store::Payload;
use iox_words::Words;

/// The count of calls at which no further one is counted.
const SPENT: u64 = 1 << 56;

/// Of what kind the node's value of that number is, of which that may be asked, where calls can
/// still be counted, if it stands where it is likely.
#[inline(always)]
fn begin_at_once<Q: Payload, QH: Words, P: Payload, PH: Words, H: Backpressure>(
    hub: &Hub<Q, QH, P, PH, H>,
    node: u64,
    number: u64,
    asked: Asked,
) -> Option<(Kind, usize)>
    ensures has { IfSome result (λ found. HasValue hub.now node number found.0) }
    ensures suits { IfSome result (λ found. suits false (call_of 0 asked) found.0 ≡ true) }
    ensures calls { IfSome result (λ found. hub.now.control.tables.calls < 2 ^ 56) }
{
    let (kind, place) = hub.likely(node, number)?;
    if may_be_asked(asked, kind) && hub.calls() < SPENT {
        return Some((kind, place));
    }
    None
}

/// Of what kind the node's value of that number is, of which that may be asked, and its likely
/// place. Where it may not be asked, the first reason.
#[inline(always)]
pub(crate) fn begin<Q: Payload, QH: Words, P: Payload, PH: Words, H: Backpressure>(
    hub: &Hub<Q, QH, P, PH, H>,
    node: u64,
    number: u64,
    asked: Asked,
) -> Result<(Kind, usize), NotBegun>
    ensures refused { IfErr result (λ reason. (x : Given) (call : Call) → number_of call ≡ number
        → asked_of call ≡ asked → IsWholeCall (state_of_hub x hub.now) node call
        (Refused (refusal_of reason)) (state_of_hub x hub.now)) }
    ensures has { IfOk result (λ found. HasValue hub.now node number found.0) }
    ensures suits { IfOk result (λ found. suits false (call_of number asked) found.0 ≡ true) }
    ensures calls { OnOk result (is_counted (call_of number asked) ≡ true
        → hub.now.control.tables.calls < 2 ^ 56) }
{
    if let Some(found) = begin_at_once(hub, node, number, asked) {
        return Ok(found);
    }
    match begin_with_each_test(hub, node, number, asked) {
        Ok(kind) => Ok((kind, 0)),
        Err(reason) => Err(reason),
    }
}

/// The same, with each test. A call of its own, so that the others are short.
#[inline(never)]
#[cold]
fn begin_with_each_test<Q: Payload, QH: Words, P: Payload, PH: Words, H: Backpressure>(
    hub: &Hub<Q, QH, P, PH, H>,
    node: u64,
    number: u64,
    asked: Asked,
) -> Result<Kind, NotBegun>
    ensures refused { IfErr result (λ reason. (x : Given) (call : Call) → number_of call ≡ number
        → asked_of call ≡ asked → IsWholeCall (state_of_hub x hub.now) node call
        (Refused (refusal_of reason)) (state_of_hub x hub.now)) }
    ensures has { IfOk result (λ kind. HasValue hub.now node number kind) }
    ensures suits { IfOk result (λ kind. suits false (call_of number asked) kind ≡ true) }
    ensures calls { OnOk result (is_counted (call_of number asked) ≡ true
        → hub.now.control.tables.calls < 2 ^ 56) }
{
    if let Some(reason) = hub.refusal(node, number, 0, asked) {
        return Err(reason);
    }
    match hub.kind(node, number, 0) {
        Some(kind) => Ok(kind),
        None => unreachable!(),
    }
}
