//! Commands for which there is no memory, tried and answered.
use super::asking::{Command, served, tried};
use super::service::{SETTINGS, id, with};
use super::{TheService, Told, tells};
use crate::expected::holds;
use iox_model::command::{PortCommand, PortOptions};
use iox_model::reply::Refusal;
use iox_types::identifiers::UniqueNodeId;
use std::alloc::Global;
use std::process::Abort;

/// Node 0 makes a client, with this as its greatest length.
fn client(rt: &impl Abort, max_slice_len: u64) -> Command {
    let id = UniqueNodeId::new(id(1)).expect(rt, "the id of a node");
    let options = PortOptions {
        max_slice_len,
        pool: None,
        strategy: None,
        allocation: None,
        loaned_responses: None,
        handler: None,
    };
    Command::Port(PortCommand::Client {
        node: 0,
        id,
        options,
    })
}

/// A node joins, and what is asked of it is refused for want of memory.
fn join() -> Command {
    Command::Join {
        id: id(2),
        asked: Some(Refusal::WantOfMemory),
    }
}

/// Whether it finds no memory.
fn is_wanting(service: &mut TheService, alloc: Global, command: Command) -> bool {
    service.try_serve(alloc, command).is_err()
}

/// Ends the test where a service finds memory for what is tried, or refuses the same for another
/// reason.
fn lacks(
    rt: &impl Abort,
    alloc: Global,
    service: &mut TheService,
    commands: (Command, Command),
    refusal: Refusal<u64>,
) {
    let (to_try, to_serve) = commands;
    holds(rt, is_wanting(service, alloc, to_try));
    let reply = served(rt, alloc, service, to_serve);
    tells(rt, 0, &reply, &Told::Refused(refusal));
}

/// A client that is too large finds no memory, nor does a node whose join says so. Then there is
/// only the first node, and its first client has number 0.
fn changes_nothing(rt: &impl Abort, alloc: Global, service: &mut TheService) {
    let clients = (client(rt, u64::MAX), client(rt, u64::MAX));
    lacks(
        rt,
        alloc,
        service,
        clients,
        Refusal::UnableToCreateDataSegment,
    );
    lacks(rt, alloc, service, (join(), join()), Refusal::WantOfMemory);
    let listed = served(rt, alloc, service, Command::ListNodes);
    tells(rt, 0, &listed, &Told::Listed(&[0]));
    let made = tried(rt, alloc, service, client(rt, 1));
    tells(rt, 0, &made, &Told::Client(0));
}

#[test]
fn what_finds_no_memory_changes_nothing(rt: HostRuntime) {
    let mut service = with(&rt, rt.alloc(), SETTINGS);
    changes_nothing(&rt, rt.alloc(), &mut service);
}
