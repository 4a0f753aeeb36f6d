//! What a line of a script says.

use crate::payload::{Payload, Text};
use iox_model::command::Command;
use iox_types::identifiers::UniqueSystemId;
use std::convert::Infallible;

/// Why a line is no command, in the order in which lines are tested.
#[derive(Clone, Copy, Debug, PartialEq, Eq)]
pub enum LineCause {
    /// The line has more than 65,536 bytes.
    TooLong,
    /// The first word names no command.
    UnknownCommand,
    /// The command has another number of words.
    WrongCount,
    /// A word should be a number in its range.
    BadNumber,
    /// A word should be text in hexadecimal digits, or the name of a setting.
    BadText,
}

/// The first word of a command.
#[derive(Clone, Copy, Debug, PartialEq, Eq)]
pub enum Keyword {
    /// Changes a setting, before the service is created.
    Set,
    /// Creates the service, with its first node.
    Create,
    /// A node opens the service.
    Open,
    /// A node makes a client.
    Client,
    /// A node makes a server.
    Server,
    /// A client or an active request loans, writes and sends in one.
    SendCopy,
    /// A server or a pending response receives.
    Receive,
    /// The words of a handle's message.
    Read,
}

/// What can be set before the service is created.
#[derive(Clone, Copy, Debug, PartialEq, Eq)]
pub enum Key {
    /// Whether a full request queue gives up its oldest request.
    RequestOverflow,
    /// Whether a full response queue gives up its oldest response.
    ResponseOverflow,
}

/// A command of the service. No script sets a backpressure handler, and its openers require nothing
/// of types and attributes.
pub type ServiceCommand = Command<Payload, Infallible, ()>;

/// A command, with its words read.
#[derive(Debug, Drop)]
pub enum ScriptCommand {
    /// Changes a setting.
    Set { key: Key, value: u64 },
    /// Creates the service of that name, with its first node.
    Create { name: Text, id: UniqueSystemId },
    /// Is for the service.
    Service(ServiceCommand),
}
