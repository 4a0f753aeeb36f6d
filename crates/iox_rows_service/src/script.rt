//! Lines and answers as they stand in scripts.
mod replies;

use crate::expected::{debugs, equal, shows};
use iox_model::command::{Command, PortCommand};
use iox_model::kind::Role;
use iox_script::{LineCause, ParseError, ScriptCommand, parse};
use iox_types::identifiers::UniqueSystemId;
use std::alloc::Global;
use std::process::Abort;

/// What a line is read as.
#[derive(Clone, Copy)]
enum Read<'a> {
    /// A command that `Debug` shows so.
    Shown(&'a str),
    /// A port is made: its role, its node, and the greatest length of its messages.
    Port(Role, u64, u64),
    /// A service of that name is created.
    Named(&'a [u8]),
}

/// Ends the test where a command makes another port: its role, its node, and the greatest length of
/// its messages.
fn makes(rt: &impl Abort, alloc: Global, command: &ScriptCommand, port: (Role, u64, u64)) {
    match command {
        ScriptCommand::Service(Command::Port(PortCommand::Client { node, options, .. })) => {
            equal(rt, (Role::Client, *node, options.max_slice_len), port);
        }
        ScriptCommand::Service(Command::Port(PortCommand::Server { node, options, .. })) => {
            equal(rt, (Role::Server, *node, options.max_slice_len), port);
        }
        _ => debugs(rt, alloc, command, "a port"),
    }
}

/// The id of a creator.
const CREATOR: UniqueSystemId = UniqueSystemId {
    process: 1,
    seconds: 0,
    nanoseconds: 0,
    counter: 0,
};

/// Ends the test where a command does not create a service of that name.
fn creates(rt: &impl Abort, alloc: Global, command: &ScriptCommand, bytes: &[u8]) {
    match command {
        ScriptCommand::Create { name, id } => {
            equal(rt, (name.as_bytes(), *id), (bytes, CREATOR));
        }
        _ => debugs(rt, alloc, command, "a new service"),
    }
}

/// Ends the test where a command is another one.
fn is(rt: &impl Abort, alloc: Global, command: &ScriptCommand, read: Read<'_>) {
    match read {
        Read::Shown(text) => debugs(rt, alloc, command, text),
        Read::Port(role, node, length) => makes(rt, alloc, command, (role, node, length)),
        Read::Named(bytes) => creates(rt, alloc, command, bytes),
    }
}

/// Ends the test where a line is read as another command.
fn is_read(rt: &impl Abort, alloc: Global, line: &[u8], read: Read<'_>) {
    match parse(alloc, line) {
        Ok(command) => is(rt, alloc, &command, read),
        Err(_) => equal(rt, (line, false), (line, true)),
    }
}

#[test]
fn each_command_is_read(rt: HostRuntime) {
    const LINES: &[(&[u8], Read<'static>)] = &[
        (
            b"set request-overflow 0",
            Read::Shown("Set { key: RequestOverflow, value: 0 }"),
        ),
        (
            b"set response-overflow 001",
            Read::Shown("Set { key: ResponseOverflow, value: 1 }"),
        ),
        (
            b"open 4294967295 0 7 1",
            Read::Shown(
                "Service(Join { id: UniqueSystemId { process: 4294967295, seconds: 0, nanoseconds: 7, counter: 1 }, asked: () })",
            ),
        ),
        (
            b"receive 18446744073709551615 2",
            Read::Shown("Service(Port(Receive { node: 18446744073709551615, number: 2 }))"),
        ),
        (
            b"read 3 4",
            Read::Shown("Service(Port(Read { node: 3, number: 4 }))"),
        ),
        (
            b"send-copy 0 0 123",
            Read::Shown(
                "Service(Port(SendCopy { node: 0, number: 0, payload: Payload { words: [123] } }))",
            ),
        ),
        (
            b"send-copy 1 3",
            Read::Shown(
                "Service(Port(SendCopy { node: 1, number: 3, payload: Payload { words: [] } }))",
            ),
        ),
        (
            b"send-copy 1 3 5 0 18446744073709551615",
            Read::Shown(
                "Service(Port(SendCopy { node: 1, number: 3, payload: Payload { words: [5, 0, 18446744073709551615] } }))",
            ),
        ),
        (b"client 0 8", Read::Port(Role::Client, 0, 8)),
        (
            b"server 1 0000000000000000000000000016",
            Read::Port(Role::Server, 1, 16),
        ),
        // digits of either case
        (b"create 612f62 1 0 0 0", Read::Named(b"a/b")),
        (b"create 2F 1 0 0 0", Read::Named(b"/")),
        (b"create 00fF 1 0 0 0", Read::Named(b"\0\xff")),
    ];
    for (line, read) in LINES {
        is_read(&rt, rt.alloc(), line, *read);
    }
}

/// Puts bytes behind a line so often.
fn extend(rt: &impl Abort, line: &mut Vec<u8>, bytes: &[u8], times: usize) {
    for _ in 0..times {
        line.extend_from_slice(bytes).expect(rt, "memory");
    }
}

/// The longest line that creates a service: its name has 65,520 digits.
#[test]
fn the_longest_name_is_read_whole(rt: HostRuntime) {
    let mut line = Vec::new(rt.alloc());
    extend(&rt, &mut line, b"create ", 1);
    extend(&rt, &mut line, b"61", 32_760);
    extend(&rt, &mut line, b" 1 0 0 0", 1);
    let mut bytes = Vec::new(rt.alloc());
    extend(&rt, &mut bytes, b"a", 32_760);
    is_read(
        &rt,
        rt.alloc(),
        line.as_slice(),
        Read::Named(bytes.as_slice()),
    );
}

#[test]
fn an_error_is_shown_by_its_cause(rt: HostRuntime) {
    let bad = ParseError::from(LineCause::BadText);
    shows(&rt, rt.alloc(), &bad, "bad text");
    shows(&rt, rt.alloc(), &ParseError::WantOfMemory, "out of memory");
}
