//! Who asks, and with which id.
ghost use Rattle.std.specs.Prelude.{◌≡◌};
ghost use Rattle.iox_nodes.specs.Given.{asker, with_id};

use iox_model::command::PortCommand;
use iox_types::identifiers::UniqueNodeId;

/// The node that asks.
#[inline(always)]
pub(crate) fn asker<P, H>(command: &PortCommand<P, H>) -> u64
    ensures { result ≡ asker command.now }
{
    match command {
        PortCommand::Client { node, .. }
        | PortCommand::Server { node, .. }
        | PortCommand::Loan { node, .. }
        | PortCommand::Write { node, .. }
        | PortCommand::Send { node, .. }
        | PortCommand::SendCopy { node, .. }
        | PortCommand::Receive { node, .. }
        | PortCommand::Read { node, .. }
        | PortCommand::Release { node, .. }
        | PortCommand::IsConnected { node, .. }
        | PortCommand::SetHint { node, .. }
        | PortCommand::HasHint { node, .. }
        | PortCommand::HasRequests { node, .. }
        | PortCommand::HasResponse { node, .. } => *node,
    }
}

/// Gives the command the id of its node, if it makes a port.
#[inline(always)]
pub(crate) fn put_id<P, H>(command: &mut PortCommand<P, H>, own: UniqueNodeId)
    ensures { command.new ≡ with_id own command.old }
{
    match command {
        PortCommand::Client { id, .. } => *id = own,
        PortCommand::Server { id, .. } => *id = own,
        _ => {}
    }
}
