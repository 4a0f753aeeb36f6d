//! Commands beside typed ports, proved only from their clauses.
ghost use Rattle.std.specs.Prelude.{◌≡◌, false};
ghost use Rattle.iceoryx2_ports.specs.Call.TheVariants.{Send};
ghost use Rattle.iceoryx2_ports.specs.Kind.TheVariants as kinds;
ghost use Rattle.iceoryx2_ports.specs.Hubs.{HasValue};
ghost use Rattle.iceoryx2_ports.specs.Applying.{HaveDefaults, IsCalled};
ghost use Rattle.iceoryx2_ports.specs.CommandsTold.{wants_memory};

use crate::{
    ApplyCommand, Backpressure, Client, Elements, Hub, LoanError, One, PortCommand, PortReply,
};
use std::alloc::Global;
use std::convert::Infallible;

/// What a hub of numbers is asked by number, whatever its handlers are.
type Command<H> = PortCommand<Elements<u64, u64>, H>;

/// Whatever the number names, a command is one whole call of the machine. It is not refused for
/// want of memory.
pub fn sends_by_number<H: Backpressure>(
    hub: &mut Hub<One<u64>, (), One<u64>, (), H>,
    alloc: Global,
    node: u64,
    number: u64,
) -> PortReply<Vec<u64>, Infallible>
    requires { HaveDefaults hub.old }
    ensures whole { IsCalled hub.old node (Send number) result hub.new }
    ensures memory { wants_memory result ≡ false }
{
    let command: Command<H> = PortCommand::Send { node, number };
    hub.apply(alloc, command)
}

/// A typed loan leaves what a command asks of a hub.
pub fn loans_and_asks<H: Backpressure>(
    client: &Client<One<u64>, (), One<u64>, ()>,
    hub: &mut Hub<One<u64>, (), One<u64>, (), H>,
    alloc: Global,
    server: u64,
) -> Result<PortReply<Vec<u64>, Infallible>, LoanError>
    requires has { HasValue hub.old client.now.node client.now.number kinds.Client }
    requires defaults { HaveDefaults hub.old }
    ensures { HaveDefaults hub.new }
{
    let loan = client.loan(hub)?;
    loan.release(hub);
    let command: Command<H> = PortCommand::HasRequests {
        node: 0,
        number: server,
    };
    Ok(hub.apply(alloc, command))
}
