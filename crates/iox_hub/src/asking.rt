//! Whether requests are still open, and why a call is not begun.
ghost use Rattle.std.specs.Prelude.{◌≡◌, ◌<◌, ◌^◌, None, Some, false, true};
ghost use Rattle.std.specs.Option.{option_map};
ghost use Rattle.iox_model.specs.declared.call.Call.TheVariants.{HasHint, IsConnected};
ghost use Rattle.iox_model.specs.declared.kind.Kind.TheVariants.{ActiveRequest};
ghost use Rattle.iox_model.specs.declared.reply.Reply.TheVariants.{Answer, Refused};
ghost use Rattle.iox_model.specs.Commands.{Call, number_of};
ghost use Rattle.iox_model.specs.Names.{suits};
ghost use Rattle.iox_model.specs.WholeCalls.{IsWholeCall, is_counted};
ghost use Rattle.iox_tables.specs.HubLoans.Refusals.{first_refusal};
ghost use Rattle.iox_tables.specs.HubStates.States.{Given};
ghost use Rattle.iox_control_questions.specs.Asking.{asked_of, call_of, refusal_of};
ghost use Rattle.iox_control_questions.specs.declared.asked.NotBegun.{NotBegun};
ghost use Rattle.iox_hub.specs.Hubs.{HasValue, state_of_hub};
ghost use Rattle.iox_hub.specs.Reads.{HasOf};

use crate::hub::Hub;
use iox_backpressure::Backpressure;
use iox_control_questions::{Asked, NotBegun};
use iox_store::Payload;
use iox_words::Words;

impl<Q: Payload, QH: Words, P: Payload, PH: Words, H: Backpressure> Hub<Q, QH, P, PH, H> {
    /// Whether the request of that pending response, or of that active request, is still open. The
    /// handle is looked for at the hint first.
    pub fn is_connected(&self, node: u64, number: u64, hint: usize) -> bool
        requires has { HasOf (suits false (IsConnected number)) self.now node number }
        ensures whole { (x : Given) → IsWholeCall (state_of_hub x self.now) node
            (IsConnected number) (Answer result) (state_of_hub x self.now) }
    {
        iox_control_questions::is_connected(&self.control, node, number, hint)
    }

    /// Whether the client of that active request gave a hint that it lost interest. The handle is
    /// looked for at the hint first.
    pub fn has_hint(&self, node: u64, number: u64, hint: usize) -> bool
        requires has { HasValue self.now node number ActiveRequest }
        ensures whole { (x : Given) → IsWholeCall (state_of_hub x self.now) node
            (HasHint number) (Answer result) (state_of_hub x self.now) }
    {
        iox_control_questions::has_hint(&self.control, node, number, hint)
    }

    /// Why the node's call of that number, which asks that, is not begun. A handle of that number
    /// is looked for at the hint first. What is so refused changes nothing. If nothing is told,
    /// then the node has a value of that number of which that may be asked, and it may still be
    /// counted.
    pub fn refusal(&self, node: u64, number: u64, hint: usize, asked: Asked) -> Option<NotBegun>
        ensures told { (call : Call) → number_of call ≡ number → asked_of call ≡ asked
            → option_map refusal_of result ≡ first_refusal self.now.control.tables node call }
        ensures whole { (x : Given) (call : Call) → number_of call ≡ number → asked_of call ≡ asked
            → (r : NotBegun) → result ≡ Some r
            → IsWholeCall (state_of_hub x self.now) node call (Refused (refusal_of r))
            (state_of_hub x self.now) }
        ensures has { result ≡ None
            → HasOf (suits false (call_of number asked)) self.now node number }
        ensures calls { result ≡ None → is_counted (call_of number asked) ≡ true
            → self.now.control.tables.calls < 2 ^ 56 }
    {
        iox_control_questions::refusal(&self.control, node, number, hint, asked)
    }
}
