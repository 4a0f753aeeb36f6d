//! What a line asks of a service, as the service is asked.
ghost use Rattle.std.specs.Prelude.{◌≡◌, Bool, Some};
ghost use Rattle.iox_words.specs.Numbers.{one_word};
ghost use Rattle.iox_nodes.specs.HandlerWords.{following, shown_by};
ghost use Rattle.iox_model.specs.declared.command.Command.TheVariants.{Port};
ghost use Rattle.iox_nodes.specs.Given.{command_given};
ghost use Rattle.iox_nodes.specs.Shown.{service_of};
ghost use Rattle.iox_nodes.specs.Asking.{options_for, payload_for};
ghost use Rattle.iox_session.specs.Answers.{command_asked, no_cause, options_given, payload_given};
ghost use Rattle.iox_session.specs.Limits.{limits_with};
ghost use Rattle.iox_session.specs.Sessions.{CanBeAsked};
ghost use Rattle.iox_session.specs.Shown.{makes_large};

use crate::settings::is_large;
use iox_model::command::{Command, PortCommand, PortOptions};
use iox_model::kind::{Kind, Role};
use iox_nodes::{Elements, Service};
use iox_script::{Payload, ServiceCommand, ServiceRefusal};
use iox_store::Many;
use std::convert::Infallible;

/// Requests and responses of any number of words, with no user headers.
pub(crate) type Words = Service<Many<u64>, (), Many<u64>, ()>;

/// What such a service is asked. Nobody sets a handler.
pub(crate) type Asked = Command<Elements<u64, u64>, (), Option<ServiceRefusal>>;

type AtPort = PortCommand<Elements<u64, u64>, ()>;

/// The same options, with no handler.
fn unhandled(options: PortOptions<Infallible>) -> PortOptions<()>
    ensures { options_for (shown_by following) result ≡ options_given options }
{
    PortOptions {
        max_slice_len: options.max_slice_len,
        pool: options.pool,
        strategy: options.strategy,
        allocation: options.allocation,
        loaned_responses: options.loaned_responses,
        handler: None,
    }
}

/// The words as elements: through an active request those of a response, else those of a request.
#[inline(always)]
fn elements(service: &Words, node: u64, number: u64, words: Vec<u64>) -> Elements<u64, u64>
    ensures { payload_for one_word one_word result
        ≡ payload_given (service_of service.now) node number words.items }
{
    // A client is found at once, where each handle is looked at for a number that none has.
    if service.has(node, number, Kind::Client) {
        return Elements::Requests(words);
    }
    if service.has(node, number, Kind::ActiveRequest) {
        return Elements::Responses(words);
    }
    Elements::Requests(words)
}

/// What is asked of a port or a handle.
#[inline(always)]
fn at_port(service: &Words, command: PortCommand<Payload, Infallible>) -> AtPort
    requires { CanBeAsked (Port command) }
    ensures { Some (command_given {C = Infallible} one_word one_word (shown_by following) no_cause
        (Port result)) ≡ command_asked (service_of service.now) (Port command) }
{
    match command {
        PortCommand::Client { node, id, options } => PortCommand::Client {
            node,
            id,
            options: unhandled(options),
        },
        PortCommand::Server { node, id, options } => PortCommand::Server {
            node,
            id,
            options: unhandled(options),
        },
        PortCommand::SendCopy {
            node,
            number,
            payload,
        } => PortCommand::SendCopy {
            node,
            number,
            payload: elements(service, node, number, payload.into_words()),
        },
        PortCommand::Receive { node, number } => PortCommand::Receive { node, number },
        PortCommand::Read { node, number } => PortCommand::Read { node, number },
        _ => unreachable!(),
    }
}

/// What a line asks of the service.
#[inline(always)]
pub(crate) fn asked(service: &Words, command: ServiceCommand) -> Asked
    requires { CanBeAsked command }
    ensures { Some (command_given one_word one_word (shown_by following) no_cause result)
        ≡ command_asked (service_of service.now) command }
{
    match command {
        Command::Join { id, .. } => Command::Join { id, asked: None },
        Command::Port(command) => Command::Port(at_port(service, command)),
        _ => unreachable!(),
    }
}

/// Whether a line makes a port that is too large.
#[inline(always)]
pub(crate) fn makes_large(command: &ServiceCommand) -> bool
    requires { CanBeAsked command.now }
    ensures { (requests responses : Bool)
        → result ≡ makes_large (limits_with requests responses) command.now }
{
    match command {
        Command::Port(PortCommand::Client { options, .. }) => {
            is_large(Role::Client, options.max_slice_len)
        }
        Command::Port(PortCommand::Server { options, .. }) => {
            is_large(Role::Server, options.max_slice_len)
        }
        _ => false,
    }
}
