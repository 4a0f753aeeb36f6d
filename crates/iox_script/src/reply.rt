//! What a command of a script is answered.

use crate::payload::Payload;
use iox_model::reply::{Refusal, Reply};
use std::convert::Infallible;

/// Why a service refuses a command.
pub type ServiceRefusal = Refusal<Infallible>;

/// What a service answers.
pub type ServiceReply = Reply<Payload, Infallible>;

/// Why a command was refused by the rules of scripts, before a service was asked. A refused command
/// changes nothing.
#[derive(Clone, Copy, Debug, PartialEq, Eq)]
pub enum ScriptRefusal {
    /// The service was created before.
    ServiceExists,
    /// The service is not created yet.
    NoService,
    /// The service's name has more than 255 bytes.
    ExceedsMaximumLength,
    /// The service's name begins with `iox2://` or has a byte outside 1 to 127.
    InvalidContent,
}

/// The answer to a command of a script.
#[derive(Debug, Drop)]
pub enum ScriptReply {
    /// The service's answer, which may be a refusal. A setting is answered by `Done`.
    Service(ServiceReply),
    /// It was refused before a service was asked.
    Refused(ScriptRefusal),
}
