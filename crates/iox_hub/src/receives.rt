//! The receives of servers and of pending responses.
ghost use Rattle.std.specs.Prelude.{◌≡◌, ◌<◌, ◌^◌};
ghost use Rattle.iox_model.specs.declared.call.Call.TheVariants.{Receive};
ghost use Rattle.iox_model.specs.declared.kind.Kind.TheVariants.{ActiveRequest, PendingResponse, Response, Server};
ghost use Rattle.iox_model.specs.WholeCalls.{IsWholeCall};
ghost use Rattle.iox_tables.specs.HubStates.States.{Given};
ghost use Rattle.iox_control.specs.Replies.{reply_of_receive};
ghost use Rattle.iox_hub.specs.Hubs.{HasReceived, HasValue, state_of_hub, with_control};
ghost use Rattle.iox_hub.specs.Keeping.{IsNew, KeepsAll};

use crate::hub::Hub;
use iox_backpressure::Backpressure;
use iox_control::Received;
use iox_store::Payload;
use iox_words::Words;

impl<Q: Payload, QH: Words, P: Payload, PH: Words, H: Backpressure> Hub<Q, QH, P, PH, H> {
    /// Receives a request for that server, which is looked for at the hint first.
    #[inline(always)]
    pub fn receive_request(&mut self, node: u64, server: u64, hint: usize) -> Received
        requires has { HasValue self.old node server Server }
        requires calls { self.old.control.tables.calls < 2 ^ 56 }
        ensures left { self.new ≡ with_control self.old self.new.control }
        ensures whole { (x : Given) → IsWholeCall (state_of_hub x self.old) node
            (Receive server) (reply_of_receive result) (state_of_hub x self.new) }
        ensures has { HasReceived self.new node ActiveRequest result }
        ensures new { IsNew self.old node result }
        ensures keeps { KeepsAll self.old self.new }
    {
        self.control.receive_request(node, server, hint)
    }

    /// Receives a response for that pending response, whose handle is looked for at the hint first.
    #[inline(always)]
    pub fn receive_response(&mut self, node: u64, number: u64, hint: usize) -> Received
        requires has { HasValue self.old node number PendingResponse }
        requires calls { self.old.control.tables.calls < 2 ^ 56 }
        ensures left { self.new ≡ with_control self.old self.new.control }
        ensures whole { (x : Given) → IsWholeCall (state_of_hub x self.old) node
            (Receive number) (reply_of_receive result) (state_of_hub x self.new) }
        ensures has { HasReceived self.new node Response result }
        ensures new { IsNew self.old node result }
        ensures keeps { KeepsAll self.old self.new }
    {
        self.control.receive_response(node, number, hint)
    }
}
