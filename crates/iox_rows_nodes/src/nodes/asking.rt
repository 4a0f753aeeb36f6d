//! How a service is asked: by its calls, by `serve`, or by `try_serve`.
use super::service::id;
use super::{Ask, TheReply, TheService, Way};
use iox_model::command::{self, PortCommand, PortOptions};
use iox_model::reply::{Refusal, Reply};
use iox_nodes::{Always, BackpressureAction, Elements};
use iox_types::BackpressureStrategy;
use iox_types::identifiers::UniqueNodeId;
use std::alloc::Global;
use std::process::Abort;

/// A command; a handler has one answer.
pub(super) type Command = command::Command<Elements<u64, u64>, Always, Option<Refusal<u64>>>;

type AtPort = PortCommand<Elements<u64, u64>, Always>;

const OPTIONS: PortOptions<Always> = PortOptions {
    max_slice_len: 1,
    pool: None,
    strategy: None,
    allocation: None,
    loaned_responses: None,
    handler: None,
};

/// The options of a port with a handler that answers this, and with this strategy.
fn handled(action: BackpressureAction, strategy: BackpressureStrategy) -> PortOptions<Always> {
    PortOptions {
        handler: Some(Always { action }),
        strategy: Some(strategy),
        ..OPTIONS
    }
}

/// A node makes a port. The command gives another id, since the service gives the node's own.
fn made(node: u64, client: bool, options: PortOptions<Always>) -> Option<AtPort> {
    let id = UniqueNodeId::new(id(99)).ok()?;
    if client {
        return Some(PortCommand::Client { node, id, options });
    }
    Some(PortCommand::Server { node, id, options })
}

/// That number alone.
fn one(rt: &impl Abort, alloc: Global, value: u64) -> Vec<u64> {
    Vec::from_array(alloc, [value]).expect(rt, "a number")
}

/// A number is written to a loan, or sent as a copy.
fn carried(rt: &impl Abort, alloc: Global, ask: Ask) -> Option<AtPort> {
    match ask {
        Ask::Write(node, number, value) => Some(PortCommand::Write {
            node,
            number,
            payload: Elements::Requests(one(rt, alloc, value)),
        }),
        Ask::Request(node, number, value) => Some(PortCommand::SendCopy {
            node,
            number,
            payload: Elements::Requests(one(rt, alloc, value)),
        }),
        Ask::Response(node, number, value) => Some(PortCommand::SendCopy {
            node,
            number,
            payload: Elements::Responses(one(rt, alloc, value)),
        }),
        _ => None,
    }
}

/// A port is made, or what carries no number is asked of a port or a handle.
fn at_port(ask: Ask) -> Option<AtPort> {
    Some(match ask {
        Ask::Client(node) => return made(node, true, OPTIONS),
        Ask::Server(node) => return made(node, false, OPTIONS),
        Ask::HandledClient(node, action, strategy) => {
            return made(node, true, handled(action, strategy));
        }
        Ask::HandledServer(node, action, strategy) => {
            return made(node, false, handled(action, strategy));
        }
        Ask::Loan(node, number) => PortCommand::Loan {
            node,
            number,
            elements: 1,
        },
        Ask::LongLoan(node, number) => PortCommand::Loan {
            node,
            number,
            elements: 33,
        },
        Ask::Send(node, number) => PortCommand::Send { node, number },
        Ask::Receive(node, number) => PortCommand::Receive { node, number },
        Ask::Read(node, number) => PortCommand::Read { node, number },
        Ask::Release(node, number) => PortCommand::Release { node, number },
        Ask::Connected(node, number) => PortCommand::IsConnected { node, number },
        Ask::Hint(node, number) => PortCommand::SetHint { node, number },
        Ask::Hinted(node, number) => PortCommand::HasHint { node, number },
        Ask::HasRequests(node, number) => PortCommand::HasRequests { node, number },
        Ask::HasResponse(node, number) => PortCommand::HasResponse { node, number },
        _ => return None,
    })
}

/// What is asked of a service's nodes.
fn of_nodes(ask: Ask) -> Option<Command> {
    Some(match ask {
        Ask::Join(n) => Command::Join {
            id: id(n),
            asked: None,
        },
        Ask::JoinUnfit(n) => Command::Join {
            id: id(n),
            asked: Some(Refusal::IncompatibleRequestTypes),
        },
        Ask::Leave(node) => Command::Leave { node },
        Ask::Die(node) => Command::DeclareDead { node },
        Ask::Cleanup(node) => Command::Cleanup { node },
        Ask::Nodes => Command::ListNodes,
        Ask::Clients => Command::ListClients,
        Ask::Servers => Command::ListServers,
        _ => return None,
    })
}

/// The command that asks this, if one does.
pub(super) fn command(rt: &impl Abort, alloc: Global, ask: Ask) -> Option<Command> {
    if let Some(command) = of_nodes(ask) {
        return Some(command);
    }
    if let Some(command) = at_port(ask) {
        return Some(Command::Port(command));
    }
    Some(Command::Port(carried(rt, alloc, ask)?))
}

/// The reply to a join.
fn joined(answer: Result<u64, Refusal<u64>>) -> TheReply {
    match answer {
        Ok(number) => Reply::Node(number),
        Err(refusal) => Reply::Refused(refusal),
    }
}

/// The reply to what has nothing to tell.
fn done(answer: Result<(), Refusal<u64>>) -> TheReply {
    match answer {
        Ok(()) => Reply::Done,
        Err(refusal) => Reply::Refused(refusal),
    }
}

pub(super) fn nodes(rt: &impl Abort, alloc: Global, service: &TheService) -> Vec<u64> {
    service.list_nodes(alloc).expect(rt, "nodes")
}

/// Asks by the calls.
fn called(rt: &impl Abort, alloc: Global, service: &mut TheService, command: Command) -> TheReply {
    match command {
        Command::Join { id, asked } => joined(service.join(id, asked)),
        Command::Port(command) => service.port(alloc, command),
        Command::Leave { node } => done(service.leave(node)),
        Command::DeclareDead { node } => done(service.declare_dead(node)),
        Command::Cleanup { node } => done(service.cleanup(node)),
        Command::ListNodes => Reply::Listed(nodes(rt, alloc, service)),
        Command::ListClients => { Reply::Listed(service.list_clients(alloc).expect(rt, "clients")) }
        Command::ListServers => { Reply::Listed(service.list_servers(alloc).expect(rt, "servers")) }
    }
}

/// Asks by `serve`.
pub(super) fn served(
    rt: &impl Abort,
    alloc: Global,
    service: &mut TheService,
    command: Command,
) -> TheReply {
    service.serve(alloc, command).expect(rt, "a reply")
}

/// Asks by `try_serve`.
pub(super) fn tried(
    rt: &impl Abort,
    alloc: Global,
    service: &mut TheService,
    command: Command,
) -> TheReply {
    service.try_serve(alloc, command).expect(rt, "a reply")
}

/// Asks in this way.
pub(super) fn asked(
    rt: &impl Abort,
    alloc: Global,
    service: &mut TheService,
    way: Way,
    ask: Ask,
) -> TheReply {
    let Some(command) = command(rt, alloc, ask) else {
        return Reply::Answer(service.is_closed());
    };
    match way {
        Way::Called => called(rt, alloc, service, command),
        Way::Served => served(rt, alloc, service, command),
        Way::Tried => tried(rt, alloc, service, command),
    }
}
