//! Callers of a hub, proved only from its clauses.
ghost use Rattle.std.specs.Prelude.{◌≡◌, ◌<◌, ◌^◌, IfOk, None, flat_map};
ghost use Rattle.iox_model.specs.declared.kind.Kind.TheVariants.{ActiveRequest, Response, Server};
ghost use Rattle.iox_hub.specs.Hubs.{HasReceived, HasValue, IsReached};
ghost use Rattle.iox_hub.specs.Reads.{message_in};
ghost use Rattle.iox_hub.specs.Shapes.{HaveParts};

use crate::{Hub, MessageShape};
use iox_control::{Received, Settings};
use iox_model::kind::Kind;
use iox_store::{Many, One};
use iox_words::Words;
use std::alloc::{AllocError, Global};

/// In a new hub no node has anything.
pub fn has_nothing(
    alloc: Global,
    settings: Settings,
    shape: MessageShape<u64, ()>,
    node: u64,
    number: u64,
) -> Result<Option<Kind>, AllocError>
    requires { HaveParts shape }
    ensures { IfOk result (λ kind. kind ≡ None) }
{
    let hub: Hub<One<u64>, (), One<u64>, ()> = Hub::new(alloc, settings, shape, shape)?;
    Ok(hub.kind(node, number, 0))
}

/// A node that has a server may receive, and has what it receives. The state that is left can be
/// reached.
pub fn receives_if_it_may(
    hub: &mut Hub<One<u64>, (), One<u64>, ()>,
    node: u64,
    number: u64,
) -> Received
    ensures has { HasReceived hub.new node ActiveRequest result }
    ensures reached { IsReached hub.new }
{
    if hub.calls() < 1 << 56 && hub.has(node, number, Kind::Server, 0) {
        let received = hub.receive_request(node, number, 0);
        hub.calls();
        return received;
    }
    hub.calls();
    Received::Nothing
}

/// A node that has a received response may read it, and reads what its message carries.
pub fn reads_response<'a, E: Words>(
    hub: &'a Hub<One<u64>, (), Many<E>, u32>,
    node: u64,
    number: u64,
) -> &'a [E]
    requires { HasValue hub.now node number Response }
    ensures { flat_map E.words result.now ≡ (message_in hub.now node number).payload }
{
    hub.response(node, number, 0)
}

/// A server may read what it receives.
pub fn reads_what_it_receives(
    hub: &mut Hub<Many<u64>, u32, One<u64>, ()>,
    node: u64,
    server: u64,
) -> usize
    requires has { HasValue hub.old node server Server }
    requires calls { hub.old.control.tables.calls < 2 ^ 56 }
{
    match hub.receive_request(node, server, 0) {
        Received::Handle(number) => hub.request(node, number, 0).len(),
        _ => 0,
    }
}
