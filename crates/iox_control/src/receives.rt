//! The receives of servers and of pending responses.
ghost use Rattle.std.specs.Prelude.{◌≡◌, ◌<◌, ◌^◌, Some};
ghost use Rattle.iox_hub_ports.specs.HubStates.Tables.{HandleState};
ghost use Rattle.iox_hub_ports.specs.HubStates.Receives.{request_reply, response_reply, with_request, with_response};
ghost use Rattle.iox_hub_ports.specs.HubStates.States.{Given, state_shown};
ghost use Rattle.iox_hub_ports.specs.HubStates.Wirings.{IsPending, IsServer, handle_in};
ghost use Rattle.iox_model.specs.WholeCalls.{IsWholeCall};
ghost use Rattle.iox_model.specs.declared.call.Call.TheVariants.{Receive};
ghost use Rattle.iox_control.specs.Controls.{IsButHolders, IsControl};
ghost use Rattle.iox_control.specs.Receives.{ReceivesRequest, ReceivesResponse};
ghost use Rattle.iox_control.specs.Replies.{received_as, reply_of_receive};

use crate::control::Control;
use crate::received::{Came, Received};
use iox_lanes::wanted::Wanted;
use iox_model::kind::Role;

impl Control {
    /// Receives a request for that server, which is looked for at the hint first.
    #[inline(always)]
    pub fn receive_request(&mut self, node: u64, server: u64, hint: usize) -> Received
        requires server { IsServer self.old.tables node server }
        requires order { IsControl self.old }
        requires calls { self.old.tables.calls < 2 ^ 56 }
        ensures reply { reply_of_receive result ≡ request_reply self.old.tables server }
        ensures left { IsButHolders (with_request self.old.tables node server) self.new.tables }
        ensures order { IsControl self.new }
        ensures port_room { self.new.port_room ≡ self.old.port_room }
        ensures whole { (x : Given) → IsWholeCall (state_shown x self.old.tables) node
            (Receive server) (reply_of_receive result) (state_shown x self.new.tables) }
    {
        match self.receive_request_usual(node, server, hint) {
            Some(received) => received,
            None => {
                let came = self.receive_request_far(node, server, hint);
                self.received_as(came)
            }
        }
    }

    /// Receives a response for that pending response, whose handle is looked for at the hint first.
    #[inline(always)]
    pub fn receive_response(&mut self, node: u64, number: u64, hint: usize) -> Received
        requires pending { IsPending self.old.tables node number }
        requires order { IsControl self.old }
        requires calls { self.old.tables.calls < 2 ^ 56 }
        ensures reply { (h : HandleState) → handle_in self.old.tables.handles node number ≡ Some h
            → reply_of_receive result ≡ response_reply self.old.tables h }
        ensures left { (h : HandleState) → handle_in self.old.tables.handles node number ≡ Some h
            → IsButHolders (with_response self.old.tables node h) self.new.tables }
        ensures order { IsControl self.new }
        ensures port_room { self.new.port_room ≡ self.old.port_room }
        ensures whole { (x : Given) → IsWholeCall (state_shown x self.old.tables) node
            (Receive number) (reply_of_receive result) (state_shown x self.new.tables) }
    {
        match self.receive_response_usual(node, number, hint) {
            Some(received) => received,
            None => {
                let came = self.receive_response_far(node, number, hint);
                self.received_as(came)
            }
        }
    }

    /// Receives a request for that server on any way. It tells no number, so that all that it tells
    /// is in one register.
    #[inline(never)]
    #[cold]
    fn receive_request_far(&mut self, node: u64, server: u64, hint: usize) -> Came
        requires server { IsServer self.old.tables node server }
        requires order { IsControl self.old }
        requires calls { self.old.tables.calls < 2 ^ 56 }
        ensures { ReceivesRequest self.old node server
            (received_as result self.new.tables.next_number) self.new }
    {
        let wanted = self.wanted_by_server();
        let at = self.likely_place(server, hint);
        let visits = self.visit(server, at, 0, wanted);
        self.receive_visited(node, Role::Server, server, at, visits)
            .came()
    }

    /// Receives a response for that pending response on any way. It tells no number, either.
    #[inline(never)]
    #[cold]
    fn receive_response_far(&mut self, node: u64, number: u64, hint: usize) -> Came
        requires pending { IsPending self.old.tables node number }
        requires order { IsControl self.old }
        requires calls { self.old.tables.calls < 2 ^ 56 }
        ensures { ReceivesResponse self.old node number
            (received_as result self.new.tables.next_number) self.new }
    {
        let entry = self.known(node, number, hint);
        let label = self.label_of(entry.pool, entry.slot);
        let at = self.likely_place(entry.port, entry.at as usize);
        let visits = self.visit(entry.port, at, label.lane, Wanted::Of(label.request));
        self.receive_visited(node, Role::Client, entry.port, at, visits)
            .came()
    }
}
