//! What the nodes of the service ask, one after another.
use crate::lengths::id;
use iceoryx2_wire::{Command, Elements, Opener, PortCommand, PortOptions, UniqueNodeId};
use std::alloc::{AllocError, Global};

/// A command. No port has a backpressure handler, so its type is the unit.
pub type TheCommand<'a> = Command<Elements<u8, u64>, (), &'a Opener>;

const OPTIONS: PortOptions<()> = PortOptions {
    max_slice_len: 16,
    pool: None,
    strategy: None,
    allocation: None,
    loaned_responses: None,
    handler: None,
};

/// A node makes a server. The id is no matter: the service gives each port the id with which its
/// node opened it.
fn server<'a>(node: u64, id: UniqueNodeId) -> TheCommand<'a> {
    Command::Port(PortCommand::Server {
        node,
        id,
        options: OPTIONS,
    })
}

/// A node makes a client.
fn client<'a>(node: u64, id: UniqueNodeId) -> TheCommand<'a> {
    Command::Port(PortCommand::Client {
        node,
        id,
        options: OPTIONS,
    })
}

/// A port or a handle of a node receives.
fn receive<'a>(node: u64, number: u64) -> TheCommand<'a> {
    Command::Port(PortCommand::Receive { node, number })
}

/// A node reads the message of a handle.
fn read<'a>(node: u64, number: u64) -> TheCommand<'a> {
    Command::Port(PortCommand::Read { node, number })
}

/// A node sends by a client or an active request.
fn send<'a>(node: u64, number: u64, payload: Elements<u8, u64>) -> TheCommand<'a> {
    Command::Port(PortCommand::SendCopy {
        node,
        number,
        payload,
    })
}

/// Node 1 opens the service at the second try. Node 0 has a server and node 1 a client: numbers 0
/// and 1.
fn opening<'a>(
    commands: &mut Vec<TheCommand<'a>>,
    any: UniqueNodeId,
    fits: &'a Opener,
    unfit: &'a Opener,
) -> Result<(), AllocError> {
    for asked in [unfit, fits] {
        commands.push(Command::Join { id: id(2), asked })?;
    }
    commands.push(server(0, any))?;
    commands.push(client(1, any))?;
    Ok(())
}

/// The client asks for the length of a text; the server receives it as handle 3, reads it and
/// answers; the client hears the answer as handle 4.
fn exchange(alloc: Global, commands: &mut Vec<TheCommand<'_>>) -> Result<(), AllocError> {
    let text = vec![in alloc; b'h', b'e', b'l', b'l', b'o']?;
    let length = vec![in alloc; text.len() as u64]?;
    commands.push(send(1, 1, Elements::Requests(text)))?;
    commands.push(receive(0, 0))?;
    commands.push(read(0, 3))?;
    commands.push(send(0, 3, Elements::Responses(length)))?;
    commands.push(receive(1, 2))?;
    commands.push(read(1, 4))?;
    Ok(())
}

/// Node 1 lives, so it is not cleaned up, and has a client, so it does not leave. Once it is dead
/// it asks nothing more, and once it is cleaned up it is not known.
fn death(commands: &mut Vec<TheCommand<'_>>) -> Result<(), AllocError> {
    commands.push(Command::Cleanup { node: 1 })?;
    commands.push(Command::Leave { node: 1 })?;
    commands.push(Command::DeclareDead { node: 1 })?;
    commands.push(receive(1, 2))?;
    commands.push(Command::ListClients)?;
    commands.push(Command::Cleanup { node: 1 })?;
    commands.push(receive(1, 2))?;
    commands.push(Command::ListClients)?;
    Ok(())
}

/// Node 2 has a server, too, number 5, and dies. That of node 0 stays, and receives a request as
/// handle 8.
fn two_servers<'a>(
    alloc: Global,
    commands: &mut Vec<TheCommand<'a>>,
    any: UniqueNodeId,
    fits: &'a Opener,
) -> Result<(), AllocError> {
    commands.push(Command::Join {
        id: id(2),
        asked: fits,
    })?;
    commands.push(server(2, any))?;
    commands.push(Command::DeclareDead { node: 2 })?;
    commands.push(Command::ListServers)?;
    commands.push(Command::Cleanup { node: 2 })?;
    commands.push(Command::ListServers)?;
    let text = vec![in alloc; b'h', b'i']?;
    commands.push(client(0, any))?;
    commands.push(send(0, 6, Elements::Requests(text)))?;
    commands.push(receive(0, 0))?;
    commands.push(read(0, 8))?;
    Ok(())
}

/// The last node dies and is cleaned up. Nobody may open the service then.
fn end<'a>(commands: &mut Vec<TheCommand<'a>>, fits: &'a Opener) -> Result<(), AllocError> {
    commands.push(Command::ListNodes)?;
    commands.push(Command::DeclareDead { node: 0 })?;
    commands.push(Command::Cleanup { node: 0 })?;
    commands.push(Command::Join {
        id: id(3),
        asked: fits,
    })?;
    Ok(())
}

/// All that is asked.
pub fn commands<'a>(
    alloc: Global,
    any: UniqueNodeId,
    fits: &'a Opener,
    unfit: &'a Opener,
) -> Result<Vec<TheCommand<'a>>, AllocError> {
    let mut commands = Vec::new(alloc);
    opening(&mut commands, any, fits, unfit)?;
    exchange(alloc, &mut commands)?;
    death(&mut commands)?;
    two_servers(alloc, &mut commands, any, fits)?;
    end(&mut commands, fits)?;
    Ok(commands)
}
