//! How a service is asked: by its calls, by `try_serve`, or by commands of `run`.
use super::starts::id;
use super::{Ask, Row, TheRefusal, TheReply, TheService, Way};
use crate::expected::holds;
use iceoryx2_wire::{
    Backpressure, BackpressureStrategy, Command, Elements, Opener, PortCommand, PortOptions, Reply,
    UniqueNodeId, UniqueSystemId,
};
use std::alloc::Global;
use std::process::Abort;

/// A command.
type TheCommand<'a, H> = Command<Elements<u64, u64>, H, &'a Opener>;

type AtPort<H> = PortCommand<Elements<u64, u64>, H>;

/// A node makes a port. The command gives another id, since the service gives the node's own.
fn made<H: Backpressure>(
    node: u64,
    client: bool,
    strategy: Option<BackpressureStrategy>,
    handler: Option<H>,
) -> Option<AtPort<H>> {
    let id = UniqueNodeId::new(id(99)).ok()?;
    let options = PortOptions {
        max_slice_len: 1,
        pool: None,
        strategy,
        allocation: None,
        loaned_responses: None,
        handler,
    };
    if client {
        return Some(PortCommand::Client { node, id, options });
    }
    Some(PortCommand::Server { node, id, options })
}

/// That number alone.
fn one(rt: &impl Abort, alloc: Global, value: u64) -> Vec<u64> {
    Vec::from_array(alloc, [value]).expect(rt, "a number")
}

/// A number is written to a loan, or sent as a copy.
fn carried<H: Backpressure>(rt: &impl Abort, alloc: Global, ask: Ask<H>) -> Option<AtPort<H>> {
    Some(match ask {
        Ask::Write(node, number, value) => PortCommand::Write {
            node,
            number,
            payload: Elements::Requests(one(rt, alloc, value)),
        },
        Ask::Request(node, number, value) => PortCommand::SendCopy {
            node,
            number,
            payload: Elements::Requests(one(rt, alloc, value)),
        },
        Ask::Response(node, number, value) => PortCommand::SendCopy {
            node,
            number,
            payload: Elements::Responses(one(rt, alloc, value)),
        },
        _ => return None,
    })
}

/// A port is made, or what carries no number is asked of a port or a handle.
fn at_port<H: Backpressure>(ask: Ask<H>) -> Option<AtPort<H>> {
    Some(match ask {
        Ask::Client(node) => return made(node, true, None, None),
        Ask::Server(node) => return made(node, false, None, None),
        Ask::MadeClient(node, strategy, handler) => return made(node, true, strategy, handler),
        Ask::MadeServer(node, strategy, handler) => return made(node, false, strategy, handler),
        Ask::Loan(node, number) => PortCommand::Loan {
            node,
            number,
            elements: 1,
        },
        Ask::Send(node, number) => PortCommand::Send { node, number },
        Ask::Receive(node, number) => PortCommand::Receive { node, number },
        Ask::Read(node, number) => PortCommand::Read { node, number },
        Ask::Release(node, number) => PortCommand::Release { node, number },
        Ask::Connected(node, number) => PortCommand::IsConnected { node, number },
        Ask::Hint(node, number) => PortCommand::SetHint { node, number },
        Ask::Hinted(node, number) => PortCommand::HasHint { node, number },
        Ask::HasRequests(node, number) => PortCommand::HasRequests { node, number },
        Ask::HasResponse(node, number) => PortCommand::HasResponse { node, number },
        _ => return None,
    })
}

/// The opener of that place.
fn opener<'a>(rt: &impl Abort, openers: &'a [Opener], place: usize) -> &'a Opener {
    openers.get(place).expect(rt, "an opener")
}

/// What is asked of the service's nodes, or what lists.
fn of_nodes<'a, H: Backpressure>(
    rt: &impl Abort,
    openers: &'a [Opener],
    ask: Ask<H>,
) -> TheCommand<'a, H> {
    match ask {
        Ask::Open(n, place) => Command::Join {
            id: id(n),
            asked: opener(rt, openers, place),
        },
        Ask::Leave(node) => Command::Leave { node },
        Ask::Die(node) => Command::DeclareDead { node },
        Ask::Cleanup(node) => Command::Cleanup { node },
        Ask::Clients => Command::ListClients,
        Ask::Servers => Command::ListServers,
        _ => Command::ListNodes,
    }
}

/// The command that asks this.
fn command<'a, H: Backpressure>(
    rt: &impl Abort,
    alloc: Global,
    openers: &'a [Opener],
    ask: Ask<H>,
) -> TheCommand<'a, H> {
    if let Some(command) = at_port(ask) {
        return Command::Port(command);
    }
    if let Some(command) = carried(rt, alloc, ask) {
        return Command::Port(command);
    }
    of_nodes(rt, openers, ask)
}

/// The reply to an open.
fn opened(answer: Result<u64, TheRefusal<'_>>) -> TheReply<'_> {
    match answer {
        Ok(number) => Reply::Node(number),
        Err(refusal) => Reply::Refused(refusal),
    }
}

/// The reply to what has nothing to tell.
fn done(answer: Result<(), TheRefusal<'static>>) -> TheReply<'static> {
    match answer {
        Ok(()) => Reply::Done,
        Err(refusal) => Reply::Refused(refusal),
    }
}

fn opens<'a, H: Backpressure>(
    service: &mut TheService<H>,
    id: UniqueSystemId,
    opener: &'a Opener,
) -> TheReply<'a> {
    opened(service.open(&opener.types, &opener.verifier, id))
}

fn leaves<H: Backpressure>(service: &mut TheService<H>, node: u64) -> TheReply<'static> {
    done(service.leave(node))
}

fn dies<H: Backpressure>(service: &mut TheService<H>, node: u64) -> TheReply<'static> {
    done(service.declare_dead(node))
}

fn is_cleaned_up<H: Backpressure>(service: &mut TheService<H>, node: u64) -> TheReply<'static> {
    done(service.cleanup(node))
}

fn calls_port<H: Backpressure>(
    service: &mut TheService<H>,
    alloc: Global,
    command: AtPort<H>,
) -> TheReply<'static> {
    service.port(alloc, command)
}

pub(super) fn nodes<H: Backpressure>(
    rt: &impl Abort,
    alloc: Global,
    service: &TheService<H>,
) -> Vec<u64> {
    service.list_nodes(alloc).expect(rt, "nodes")
}

fn clients<H: Backpressure>(rt: &impl Abort, alloc: Global, service: &TheService<H>) -> Vec<u64> {
    service.list_clients(alloc).expect(rt, "clients")
}

fn servers<H: Backpressure>(rt: &impl Abort, alloc: Global, service: &TheService<H>) -> Vec<u64> {
    service.list_servers(alloc).expect(rt, "servers")
}

/// Asks by the calls.
fn called<'a, H: Backpressure>(
    rt: &impl Abort,
    alloc: Global,
    service: &mut TheService<H>,
    command: TheCommand<'a, H>,
) -> TheReply<'a> {
    match command {
        Command::Join { id, asked } => opens(service, id, asked),
        Command::Port(command) => calls_port(service, alloc, command),
        Command::Leave { node } => leaves(service, node),
        Command::DeclareDead { node } => dies(service, node),
        Command::Cleanup { node } => is_cleaned_up(service, node),
        Command::ListNodes => Reply::Listed(nodes(rt, alloc, service)),
        Command::ListClients => Reply::Listed(clients(rt, alloc, service)),
        Command::ListServers => Reply::Listed(servers(rt, alloc, service)),
    }
}

/// Asks by `try_serve`.
fn tried<'a, H: Backpressure>(
    rt: &impl Abort,
    alloc: Global,
    service: &mut TheService<H>,
    command: TheCommand<'a, H>,
) -> TheReply<'a> {
    service.try_serve(alloc, command).expect(rt, "a reply")
}

/// Asks this by itself: by `try_serve`, or by the calls.
pub(super) fn asked<'a, H: Backpressure>(
    rt: &impl Abort,
    alloc: Global,
    service: &mut TheService<H>,
    openers: &'a [Opener],
    way: Way,
    ask: Ask<H>,
) -> TheReply<'a> {
    let command = command(rt, alloc, openers, ask);
    match way {
        Way::Tried => tried(rt, alloc, service, command),
        _ => called(rt, alloc, service, command),
    }
}

/// The commands that ask this.
fn commands<'a, H: Backpressure>(
    rt: &impl Abort,
    alloc: Global,
    openers: &'a [Opener],
    script: &[Row<'_, H>],
) -> Vec<TheCommand<'a, H>> {
    let mut commands = Vec::new(alloc);
    for (ask, _) in script {
        let command = command(rt, alloc, openers, *ask);
        holds(rt, commands.push(command).is_ok());
    }
    commands
}

/// The replies to a run of these stand behind the others.
pub(super) fn runs<'a, H: Backpressure>(
    rt: &impl Abort,
    alloc: Global,
    service: &mut TheService<H>,
    openers: &'a [Opener],
    script: &[Row<'_, H>],
    replies: &mut Vec<TheReply<'a>>,
) {
    let commands = commands(rt, alloc, openers, script);
    holds(rt, service.run(alloc, commands, replies).is_ok());
}

/// The replies to a run of these.
pub(super) fn ran<'a, H: Backpressure>(
    rt: &impl Abort,
    alloc: Global,
    service: &mut TheService<H>,
    openers: &'a [Opener],
    script: &[Row<'_, H>],
) -> Vec<TheReply<'a>> {
    let mut replies = Vec::new(alloc);
    runs(rt, alloc, service, openers, script, &mut replies);
    replies
}
