//! Loans of a hub, with what they answer.
ghost use Rattle.std.specs.Prelude.{◌≡◌, IsSome, false};
ghost use Rattle.iox_model.specs.declared.kind.Kind.TheVariants.{ActiveRequest, Client};
ghost use Rattle.iox_model.specs.declared.kind.Role.TheVariants as roles;
ghost use Rattle.iox_model.specs.WholeCalls.{IsWholeCall};
ghost use Rattle.iox_tables.specs.HubLoans.Loans.{loan_call};
ghost use Rattle.iox_tables.specs.HubStates.States.{Given};
ghost use Rattle.iox_hub.specs.Lends.{reply_of_loan};
ghost use Rattle.iox_hub.specs.Hubs.{HasValue, state_of_hub};
ghost use Rattle.iox_hub.specs.Keeping.{IsNewLoan, KeepsAll};
ghost use Rattle.iox_hub.specs.Lending.{HasLent, LeavesLent};
ghost use Rattle.iox_hub_laws.specs.Loans.{AnswersOfClient, AnswersOfRequest};
ghost use Rattle.iox_hub_laws.specs.Loans.{LendsWithinLimits, RespondsWithinLimits};
ghost use Rattle.iox_hub_laws.specs.Sends.{NothingComes};

use iox_hub::{Backpressure, Hub, Lent};
use iox_store::Payload;
use iox_words::Words;

/// Lends a request of that client for so many elements, unfilled or each with its default. It is
/// refused by the first test that fails, then by the pool, and then for want of memory; within its
/// limits a client of a node with full pools is never refused.
#[inline]
pub fn lend_request<Q: Payload, QH: Words, P: Payload, PH: Words, H: Backpressure>(
    hub: &mut Hub<Q, QH, P, PH, H>,
    node: u64,
    client: u64,
    hint: usize,
    elements: usize,
    uninit: bool,
) -> Lent
    requires has { HasValue hub.old node client Client }
    requires default { uninit ≡ false → IsSome hub.old.request.default }
    ensures answers { AnswersOfClient hub.old client elements result }
    ensures within { LendsWithinLimits hub.old node client elements result }
    ensures comes { NothingComes hub.old hub.new }
    ensures new { IsNewLoan hub.old node result }
    ensures keeps { KeepsAll hub.old hub.new }
    ensures left { LeavesLent hub.old hub.old.request uninit elements result hub.new }
    ensures whole { (x : Given) → IsWholeCall (state_of_hub x hub.old) node
        (loan_call uninit client elements) (reply_of_loan result) (state_of_hub x hub.new) }
    ensures has { HasLent hub.new node roles.Client hub.old.request uninit elements result }
{
    hub.is_in_order();
    hub.lend_request(node, client, hint, elements, uninit)
}

/// Lends a response to that active request for so many elements, unfilled or each with its default.
/// It is refused by the first test that fails, then by the pool, and then for want of memory;
/// within its limits a server of a node with full pools is never refused. The handle of the request
/// is looked for at the hint first.
#[inline]
pub fn lend_response<Q: Payload, QH: Words, P: Payload, PH: Words, H: Backpressure>(
    hub: &mut Hub<Q, QH, P, PH, H>,
    node: u64,
    number: u64,
    hint: usize,
    elements: usize,
    uninit: bool,
) -> Lent
    requires has { HasValue hub.old node number ActiveRequest }
    requires default { uninit ≡ false → IsSome hub.old.response.default }
    ensures answers { AnswersOfRequest hub.old node number elements result }
    ensures within { RespondsWithinLimits hub.old node number elements result }
    ensures comes { NothingComes hub.old hub.new }
    ensures new { IsNewLoan hub.old node result }
    ensures keeps { KeepsAll hub.old hub.new }
    ensures left { LeavesLent hub.old hub.old.response uninit elements result hub.new }
    ensures whole { (x : Given) → IsWholeCall (state_of_hub x hub.old) node
        (loan_call uninit number elements) (reply_of_loan result) (state_of_hub x hub.new) }
    ensures has { HasLent hub.new node roles.Server hub.old.response uninit elements result }
{
    hub.is_in_order();
    hub.lend_response(node, number, hint, elements, uninit)
}
