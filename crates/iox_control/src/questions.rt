//! Questions and hints.
ghost use Rattle.std.specs.Prelude.{◌≡◌, Some, false};
ghost use Rattle.std.specs.Option.{option_map_or};
ghost use Rattle.iox_hub_ports.specs.HubStates.Asks.{waits_for};
ghost use Rattle.iox_hub_ports.specs.HubStates.Releases.{lane_of};
ghost use Rattle.iox_hub_ports.specs.HubStates.Tables.{HandleState, port_in};
ghost use Rattle.iox_hub_ports.specs.HubStates.States.{Given, state_shown};
ghost use Rattle.iox_hub_ports.specs.HubStates.Wirings.{IsPending, IsServer, handle_in};
ghost use Rattle.iox_model.specs.WholeCalls.{IsWholeCall};
ghost use Rattle.iox_model.specs.declared.call.Call.TheVariants.{HasRequests, HasResponse, SetHint};
ghost use Rattle.iox_model.specs.declared.reply.Reply.TheVariants.{Answer, Done};
ghost use Rattle.iox_control.specs.Controls.{IsControl, with_hint, with_tables};

use crate::control::Control;

impl Control {
    /// Whether a request waits for that server.
    pub fn has_requests(&self, node: u64, server: u64) -> bool
        requires server { IsServer self.now.tables node server }
        requires order { IsControl self.now }
        ensures told { result ≡ option_map_or (λ p. waits_for p 0)
            (port_in self.now.tables.ports server) false }
        ensures whole { (x : Given) → IsWholeCall (state_shown x self.now.tables) node
            (HasRequests server) (Answer result) (state_shown x self.now.tables) }
    {
        self.has_waiting(server, 0)
    }

    /// Whether a response waits for that pending response, whose handle is looked for at the hint
    /// first.
    pub fn has_response(&self, node: u64, number: u64, hint: usize) -> bool
        requires pending { IsPending self.now.tables node number }
        requires order { IsControl self.now }
        ensures told { (h : HandleState) → handle_in self.now.tables.handles node number ≡ Some h
            → result ≡ option_map_or (λ p. waits_for p (lane_of self.now.tables h))
            (port_in self.now.tables.ports h.port) false }
        ensures whole { (x : Given) → IsWholeCall (state_shown x self.now.tables) node
            (HasResponse number) (Answer result) (state_shown x self.now.tables) }
    {
        let Some(entry) = self.entry(node, number, hint) else {
            unreachable!();
        };
        let label = self.label(entry.pool, entry.slot);
        self.has_waiting(entry.port, label.lane)
    }

    /// Says to each server with which the request of that pending response is open that its client
    /// lost interest. The handle is looked for at the hint first.
    pub fn set_hint(&mut self, node: u64, number: u64, hint: usize)
        requires pending { IsPending self.old.tables node number }
        requires order { IsControl self.old }
        ensures left { (h : HandleState) → handle_in self.old.tables.handles node number ≡ Some h
            → self.new ≡ with_tables self.old (with_hint self.old.tables h) }
        ensures order { IsControl self.new }
        ensures whole { (x : Given) → IsWholeCall (state_shown x self.old.tables) node
            (SetHint number) Done (state_shown x self.new.tables) }
    {
        let Some(entry) = self.entry(node, number, hint) else {
            unreachable!();
        };
        let label = self.label(entry.pool, entry.slot);
        self.hint_all(entry.port, label);
    }
}
