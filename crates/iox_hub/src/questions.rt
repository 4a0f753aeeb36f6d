//! Questions and hints.
ghost use Rattle.std.specs.Prelude.{◌≡◌};
ghost use Rattle.iox_model.specs.declared.call.Call.TheVariants.{HasRequests, HasResponse, SetHint};
ghost use Rattle.iox_model.specs.declared.kind.Kind.TheVariants.{PendingResponse, Server};
ghost use Rattle.iox_model.specs.declared.reply.Reply.TheVariants.{Answer, Done};
ghost use Rattle.iox_model.specs.WholeCalls.{IsWholeCall};
ghost use Rattle.iox_tables.specs.HubStates.States.{Given};
ghost use Rattle.iox_hub.specs.Hubs.{HasValue, state_of_hub, with_control};
ghost use Rattle.iox_hub.specs.Keeping.{KeepsAll};

use crate::hub::Hub;
use iox_backpressure::Backpressure;
use iox_store::Payload;
use iox_words::Words;

impl<Q: Payload, QH: Words, P: Payload, PH: Words, H: Backpressure> Hub<Q, QH, P, PH, H> {
    /// Whether a request waits for that server.
    pub fn has_requests(&self, node: u64, server: u64) -> bool
        requires has { HasValue self.now node server Server }
        ensures whole { (x : Given) → IsWholeCall (state_of_hub x self.now) node
            (HasRequests server) (Answer result) (state_of_hub x self.now) }
    {
        self.control.has_requests(node, server)
    }

    /// Whether a response waits for that pending response, whose handle is looked for at the hint
    /// first.
    pub fn has_response(&self, node: u64, number: u64, hint: usize) -> bool
        requires has { HasValue self.now node number PendingResponse }
        ensures whole { (x : Given) → IsWholeCall (state_of_hub x self.now) node
            (HasResponse number) (Answer result) (state_of_hub x self.now) }
    {
        self.control.has_response(node, number, hint)
    }

    /// Says to each server with which the request of that pending response is open that its client
    /// lost interest. The handle is looked for at the hint first.
    pub fn set_hint(&mut self, node: u64, number: u64, hint: usize)
        requires has { HasValue self.old node number PendingResponse }
        ensures left { self.new ≡ with_control self.old self.new.control }
        ensures whole { (x : Given) → IsWholeCall (state_of_hub x self.old) node
            (SetHint number) Done (state_of_hub x self.new) }
        ensures keeps { KeepsAll self.old self.new }
    {
        self.control.set_hint(node, number, hint);
    }
}
