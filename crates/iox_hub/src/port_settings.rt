//! With what a port is made, as it is told about one that is there.
ghost use Rattle.std.specs.Prelude.{◌≡◌, Some};
ghost use Rattle.std.specs.Option.{option_map};
ghost use Rattle.iox_model.specs.Names.{is_port};
ghost use Rattle.iox_model.specs.Peers.{port_at};
ghost use Rattle.iox_tables.specs.HubStates.States.{Given};
ghost use Rattle.iox_hub.specs.Hubs.{state_of_hub};
ghost use Rattle.iox_hub.specs.Reads.{HasOf};

use crate::hub::Hub;
use iox_backpressure::Backpressure;
use iox_store::Payload;
use iox_types::backpressure::BackpressureStrategy;
use iox_words::Words;

impl<Q: Payload, QH: Words, P: Payload, PH: Words, H: Backpressure> Hub<Q, QH, P, PH, H> {
    /// What that client or server, which the node has, does at a full receiver.
    pub fn port_strategy(&self, node: u64, number: u64) -> BackpressureStrategy
        requires has { HasOf is_port self.now node number }
        ensures { (x : Given) → option_map (λ p. p.strategy)
            (port_at (state_of_hub x self.now).fixed number) ≡ Some result }
    {
        let Some(port) = self.control.ports().find(number) else {
            unreachable!();
        };
        port.strategy
    }

    /// The greatest length of the messages of that client or server, which the node has.
    pub fn port_longest(&self, node: u64, number: u64) -> u64
        requires has { HasOf is_port self.now node number }
        ensures { (x : Given) → option_map (λ p. p.longest)
            (port_at (state_of_hub x self.now).fixed number) ≡ Some result }
    {
        let Some(port) = self.control.ports().find(number) else {
            unreachable!();
        };
        port.longest
    }
}
