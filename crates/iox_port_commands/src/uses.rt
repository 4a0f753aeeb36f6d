//! Callers of commands, proved only from their clauses.
ghost use Rattle.std.specs.Prelude.{◌≡◌, flat_map, length, true};
ghost use Rattle.iox_model.specs.declared.call.Call.TheVariants.{Read, SendCopy};
ghost use Rattle.iox_model.specs.declared.kind.Role.TheVariants as roles;
ghost use Rattle.iox_hub.specs.Hubs.{IsReached};
ghost use Rattle.iox_hub.specs.Lending.{payload_of};
ghost use Rattle.iox_hub.specs.Keeping.{HaveSameShapes};
ghost use Rattle.iox_port_commands.specs.Applying.{HaveDefaults, IsCalled, MustGrowIn};
ghost use Rattle.iox_port_commands.specs.Telling.{wants_memory};

use crate::{Elements, apply};
use iox_hub::Hub;
use iox_model::command::{PortCommand, PortOptions};
use iox_model::reply::PortReply;
use iox_store::{Many, One};
use iox_types::identifiers::UniqueNodeId;
use iox_words::Words;
use std::alloc::Global;
use std::convert::Infallible;

/// What a hub of such messages is asked. Its ports have no handlers.
type Command<E> = PortCommand<Elements<E, u64>, ()>;

/// What it answers.
type Reply = PortReply<Vec<u64>, Infallible>;

/// The options of a port for which the service's settings hold.
fn plain() -> PortOptions<()> {
    PortOptions {
        max_slice_len: 4,
        pool: None,
        strategy: None,
        allocation: None,
        loaned_responses: None,
        handler: None,
    }
}

/// A client is asked to send a copy of these elements: that is one whole call of the machine. It is
/// refused for want of memory only where the message must grow.
pub fn sends_a_copy<E: Words>(
    hub: &mut Hub<Many<E>, (), One<u64>, ()>,
    alloc: Global,
    node: u64,
    client: u64,
    values: Vec<E>,
) -> Reply
    requires { HaveDefaults hub.old }
    ensures whole { IsCalled hub.old node
        (SendCopy client (payload_of roles.Client (length values.items)
        (flat_map E.words values.items))) result hub.new }
    ensures memory { wants_memory result ≡ true → MustGrowIn hub.old node client
        (length values.items) }
{
    let command: Command<E> = PortCommand::SendCopy {
        node,
        number: client,
        payload: Elements::Requests(values),
    };
    apply(hub, alloc, command)
}

/// Whatever the number names, to read it is one whole call of the machine, and what messages are
/// made of stays.
pub fn reads_by_number<E: Words>(
    hub: &mut Hub<Many<E>, (), One<u64>, ()>,
    alloc: Global,
    node: u64,
    number: u64,
) -> Reply
    requires { HaveDefaults hub.old }
    ensures whole { IsCalled hub.old node (Read number) result hub.new }
    ensures shapes { HaveSameShapes hub.old hub.new }
{
    let command: Command<E> = PortCommand::Read { node, number };
    apply(hub, alloc, command)
}

/// A client and a server are made, a copy is sent and received, and its words are read: all by
/// command. The state that is left can be reached.
pub fn exchanges<E: Words>(
    hub: &mut Hub<Many<E>, (), One<u64>, ()>,
    alloc: Global,
    id: UniqueNodeId,
    values: Vec<E>,
) -> Option<Reply>
    requires { HaveDefaults hub.old }
    ensures defaults { HaveDefaults hub.new }
    ensures reached { IsReached hub.new }
{
    let told = exchange(hub, alloc, id, values);
    hub.calls();
    told
}

/// The same, up to the first answer that is another one.
fn exchange<E: Words>(
    hub: &mut Hub<Many<E>, (), One<u64>, ()>,
    alloc: Global,
    id: UniqueNodeId,
    values: Vec<E>,
) -> Option<Reply>
    requires { HaveDefaults hub.old }
    ensures { HaveDefaults hub.new }
{
    let options = plain();
    let made: Command<E> = PortCommand::Client {
        node: 0,
        id,
        options,
    };
    let Reply::Client(client) = apply(hub, alloc, made) else {
        return None;
    };
    let options = plain();
    let made: Command<E> = PortCommand::Server {
        node: 1,
        id,
        options,
    };
    let Reply::Server(server) = apply(hub, alloc, made) else {
        return None;
    };
    let copy: Command<E> = PortCommand::SendCopy {
        node: 0,
        number: client,
        payload: Elements::Requests(values),
    };
    let Reply::Handle(_) = apply(hub, alloc, copy) else {
        return None;
    };
    let receive: Command<E> = PortCommand::Receive {
        node: 1,
        number: server,
    };
    let Reply::Handle(number) = apply(hub, alloc, receive) else {
        return None;
    };
    let read: Command<E> = PortCommand::Read { node: 1, number };
    Some(apply(hub, alloc, read))
}
