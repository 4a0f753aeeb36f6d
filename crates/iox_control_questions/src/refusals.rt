//! Why a call is not begun.
ghost use Rattle.std.specs.Prelude.{◌≡◌, Some};
ghost use Rattle.std.specs.Option.{option_map};
ghost use Rattle.iox_model.specs.Commands.{Call, number_of};
ghost use Rattle.iox_model.specs.WholeCalls.{IsWholeCall};
ghost use Rattle.iox_model.specs.declared.reply.Reply.TheVariants.{Refused};
ghost use Rattle.iox_tables.specs.HubStates.States.{Given, state_shown};
ghost use Rattle.iox_tables.specs.HubLoans.Questions.{kind_of_role};
ghost use Rattle.iox_tables.specs.HubLoans.Refusals.{first_refusal, name_refusal, unnamed};
ghost use Rattle.iox_control.specs.Controls.{IsControl};
ghost use Rattle.iox_control_questions.specs.Asking.{asked_of, call_of, refusal_of};
ghost use Rattle.iox_control_questions.specs.declared.asked.NotBegun.{NotBegun};

use crate::asked::{Asked, NotBegun, is_counted_call, may_be_asked};
use iox_control::Control;
use iox_model::kind::{Kind, Role};

/// The kind of a port of that role.
fn kind_of(role: Role) -> Kind
    ensures { result ≡ kind_of_role role }
{
    match role {
        Role::Client => Kind::Client,
        Role::Server => Kind::Server,
    }
}

/// The number names nothing of the node's: some node has a handle of that number, or none does.
fn not_named(control: &Control, number: u64, hint: usize) -> NotBegun
    ensures { refusal_of result ≡ unnamed control.now.tables number }
{
    match control.handles().find(number, hint) {
        Some(_) => NotBegun::ForeignNumber,
        None => NotBegun::UnknownNumber,
    }
}

/// Why that is not asked of what the number names.
fn refusal_by_name(
    control: &Control,
    node: u64,
    number: u64,
    hint: usize,
    asked: Asked,
) -> Option<NotBegun>
    ensures { option_map refusal_of result
        ≡ name_refusal control.now.tables node (call_of number asked) }
{
    let kind = match control.ports().find(number) {
        Some(port) => {
            if !port.held {
                return Some(not_named(control, number, hint));
            }
            if port.node != node {
                return Some(NotBegun::ForeignNumber);
            }
            kind_of(port.role)
        }
        None => match control.entry(node, number, hint) {
            Some(entry) => entry.kind,
            None => return Some(not_named(control, number, hint)),
        },
    };
    if may_be_asked(asked, kind) {
        return None;
    }
    Some(NotBegun::WrongKind)
}

/// Why that is not begun: for what the number names, or for all the calls that were counted.
fn first_reason(
    control: &Control,
    node: u64,
    number: u64,
    hint: usize,
    asked: Asked,
) -> Option<NotBegun>
    ensures { option_map refusal_of result
        ≡ first_refusal control.now.tables node (call_of number asked) }
{
    let by_name = refusal_by_name(control, node, number, hint, asked);
    if by_name.is_some() {
        return by_name;
    }
    if is_counted_call(asked) && control.calls() >= 1 << 56 {
        return Some(NotBegun::CallsSpent);
    }
    None
}

/// Why the node's call of that number, which asks that, is not begun. A handle of that number is
/// looked for at the hint first. What is so refused changes nothing.
pub fn refusal(
    control: &Control,
    node: u64,
    number: u64,
    hint: usize,
    asked: Asked,
) -> Option<NotBegun>
    requires order { IsControl control.now }
    ensures told { (call : Call) → number_of call ≡ number → asked_of call ≡ asked
        → option_map refusal_of result ≡ first_refusal control.now.tables node call }
    ensures whole { (x : Given) (call : Call) → number_of call ≡ number → asked_of call ≡ asked
        → (r : NotBegun) → result ≡ Some r
        → IsWholeCall (state_shown x control.now.tables) node call (Refused (refusal_of r))
        (state_shown x control.now.tables) }
{
    first_reason(control, node, number, hint, asked)
}
