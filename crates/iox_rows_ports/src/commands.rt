//! Tests of `iox_port_commands`. A test is a list of what the nodes ask and of what they are told,
//! which `plays` asks of a hub.
ghost use Rattle.std.specs.Prelude.{IfOk};
ghost use Rattle.iox_port_commands.specs.Applying.{HaveDefaults};

/// Two servers, and so many ports that are gone of which a client, and a server, keeps what is
/// waiting.
macro_rules! keeping {
    ($clients:expr, $servers:expr) => {
        Settings {
            servers: 2,
            client_expired: $clients,
            server_expired: $servers,
            ..SETTINGS
        }
    };
}

mod answering;
mod exchanges;
mod expired;
mod expired_visits;
mod growing;
mod handlers;
mod handlers_by_receiver;
mod limits;
mod loans;
mod names;
mod numbers;
mod pools;
mod runs;
mod usual;

use crate::expected::is_wanted;
use answering::AnswersAt;
use iox_control::Settings;
use iox_model::command::{PortCommand, PortOptions};
use iox_model::reply::{PortReply, Refusal};
use iox_port_commands::{Elements, Hub, MessageShape, Part, apply};
use iox_store::{Many, One, Payload};
use iox_types::identifiers::{UniqueNodeId, UniqueSystemId};
use iox_types::{AllocationStrategy, BackpressureStrategy};
use iox_words::Words;
use std::alloc::{AllocError, Global};
use std::convert::Infallible;
use std::process::Abort;

type TheHub = Hub<Many<u64>, u32, One<u64>, (), AnswersAt>;

/// A command; a handler answers at one receiver.
type Command = PortCommand<Elements<u64, u64>, AnswersAt>;

type Reply = PortReply<Vec<u64>, Infallible>;

/// What is told, without the lists.
enum Told {
    Client(u64),
    Server(u64),
    Handle(u64),
    Sent(u64),
    Done,
    Nothing,
    /// So many words, of which this is the last.
    Words(usize, u64),
    Answer(bool),
    Refused(Refusal<Infallible>),
}

/// One server, two clients, and one active request of each.
const SETTINGS: Settings = Settings {
    clients: 2,
    servers: 1,
    nodes: 2,
    active_requests: 1,
    loaned_requests: 2,
    response_buffer: 2,
    borrowed_responses: 1,
    loaned_responses: 2,
    client_expired: 0,
    server_expired: 0,
    request_overflow: false,
    response_overflow: true,
    fire_and_forget: true,
    client_strategy: BackpressureStrategy::RetryUntilDelivered,
    server_strategy: BackpressureStrategy::DiscardData,
    client_allocation: AllocationStrategy::Static,
    server_allocation: AllocationStrategy::Static,
};

const PART: Part = Part {
    size: 8,
    alignment: 8,
};

const OPTIONS: PortOptions<AnswersAt> = PortOptions {
    max_slice_len: 2,
    pool: None,
    strategy: None,
    allocation: None,
    loaned_responses: None,
    handler: None,
};

/// A hub of these settings, whose elements have the default 7, and whose requests have a user
/// header of 3.
fn hub(alloc: Global, settings: Settings) -> Result<TheHub, AllocError>
    ensures { IfOk result (λ h. HaveDefaults h) }
{
    let request: MessageShape<u64, u32> = MessageShape {
        default: Some(7),
        user_header: 3,
        header_part: PART,
        user_part: PART,
        element_part: PART,
    };
    let response: MessageShape<u64, ()> = MessageShape {
        default: Some(7),
        user_header: (),
        header_part: PART,
        user_part: PART,
        element_part: PART,
    };
    Hub::new(alloc, settings, request, response)
}

/// Whether that is told.
fn is_told(reply: &Reply, told: &Told) -> bool {
    match (reply, told) {
        (PortReply::Client(n), Told::Client(wanted)) => n == wanted,
        (PortReply::Server(n), Told::Server(wanted)) => n == wanted,
        (PortReply::Handle(n), Told::Handle(wanted)) => n == wanted,
        (PortReply::Sent(n), Told::Sent(wanted)) => n == wanted,
        (PortReply::Done, Told::Done) => true,
        (PortReply::Nothing, Told::Nothing) => true,
        (PortReply::Words(words), Told::Words(len, last)) => {
            words.len() == *len && words.last().copied().unwrap_or(0) == *last
        }
        (PortReply::Answer(answer), Told::Answer(wanted)) => answer == wanted,
        (PortReply::Refused(refusal), Told::Refused(wanted)) => refusal == wanted,
        _ => false,
    }
}

/// The id of a node.
fn id(rt: &impl Abort) -> UniqueNodeId {
    let id = UniqueNodeId::new(UniqueSystemId {
        process: 1,
        seconds: 2,
        nanoseconds: 3,
        counter: 0,
    });
    id.expect(rt, "the id of a node")
}

/// What is given as a port is made.
#[derive(Clone, Copy)]
enum Given {
    Nothing,
    /// The greatest length of its messages, which else is 2.
    Longest(u64),
    Pool(u64),
    Allocation(AllocationStrategy),
    /// So many messages, which grow.
    GrowingPool(u64),
    /// Its handler, and its strategy.
    Handler(AnswersAt, BackpressureStrategy),
    Strategy(BackpressureStrategy),
}

/// What a node asks.
#[derive(Clone, Copy)]
enum Asked {
    Client(Given),
    Server,
    ServerWith(Given),
    /// Of the client or the active request of this number, so many elements.
    Loan(u64, u64),
    /// To a loan, so many numbers from one on.
    Write(u64, u64, u64),
    /// A request of a client, of so many numbers from one on.
    Request(u64, u64, u64),
    /// A response to a request, of one number.
    Response(u64, u64),
    Send(u64),
    Receive(u64),
    Read(u64),
    Release(u64),
    IsConnected(u64),
    SetHint(u64),
    HasHint(u64),
    HasRequests(u64),
    HasResponse(u64),
}

/// A node, what it asks, and what it is told.
type Row = (u64, Asked, Told);

/// The options where this is given.
fn options(given: Given) -> PortOptions<AnswersAt> {
    match given {
        Given::Nothing => OPTIONS,
        Given::Longest(max_slice_len) => PortOptions {
            max_slice_len,
            ..OPTIONS
        },
        Given::Pool(messages) => PortOptions {
            pool: Some(messages),
            ..OPTIONS
        },
        Given::Allocation(strategy) => PortOptions {
            allocation: Some(strategy),
            ..OPTIONS
        },
        Given::GrowingPool(messages) => PortOptions {
            pool: Some(messages),
            allocation: Some(AllocationStrategy::BestFit),
            ..OPTIONS
        },
        Given::Handler(handler, strategy) => PortOptions {
            handler: Some(handler),
            strategy: Some(strategy),
            ..OPTIONS
        },
        Given::Strategy(strategy) => PortOptions {
            strategy: Some(strategy),
            ..OPTIONS
        },
    }
}

/// So many numbers from this one on.
fn numbers_from(rt: &impl Abort, alloc: Global, first: u64, count: u64) -> Vec<u64> {
    let mut values = Vec::new(alloc);
    for i in 0..count {
        values.push(first.wrapping_add(i)).expect(rt, "a number");
    }
    values
}

/// What is asked, as a command.
fn command_of(rt: &impl Abort, alloc: Global, node: u64, asked: Asked) -> Command {
    match asked {
        Asked::Client(given) => PortCommand::Client {
            node,
            id: id(rt),
            options: options(given),
        },
        Asked::Server => PortCommand::Server {
            node,
            id: id(rt),
            options: OPTIONS,
        },
        Asked::ServerWith(given) => PortCommand::Server {
            node,
            id: id(rt),
            options: options(given),
        },
        Asked::Write(number, first, count) => PortCommand::Write {
            node,
            number,
            payload: Elements::Requests(numbers_from(rt, alloc, first, count)),
        },
        Asked::Request(number, first, count) => PortCommand::SendCopy {
            node,
            number,
            payload: Elements::Requests(numbers_from(rt, alloc, first, count)),
        },
        Asked::Response(number, value) => PortCommand::SendCopy {
            node,
            number,
            payload: Elements::Responses(numbers_from(rt, alloc, value, 1)),
        },
        other => of_numbers(node, other),
    }
}

/// What is asked by numbers only, as a command.
fn of_numbers(node: u64, asked: Asked) -> Command {
    match asked {
        Asked::Loan(number, elements) => PortCommand::Loan {
            node,
            number,
            elements,
        },
        Asked::Send(number) => PortCommand::Send { node, number },
        Asked::Receive(number) => PortCommand::Receive { node, number },
        Asked::Read(number) => PortCommand::Read { node, number },
        Asked::IsConnected(number) => PortCommand::IsConnected { node, number },
        Asked::SetHint(number) => PortCommand::SetHint { node, number },
        Asked::HasHint(number) => PortCommand::HasHint { node, number },
        Asked::HasRequests(number) => PortCommand::HasRequests { node, number },
        Asked::HasResponse(number) => PortCommand::HasResponse { node, number },
        Asked::Release(number) => PortCommand::Release { node, number },
        _ => PortCommand::Release { node, number: 0 },
    }
}

/// What is told. Of what `apply` promises, it passes on what the next one needs.
fn ask<Q: Payload<Element = u64>, QH: Words, P: Payload<Element = u64>, PH: Words>(
    hub: &mut Hub<Q, QH, P, PH, AnswersAt>,
    alloc: Global,
    command: Command,
) -> Reply
    requires { HaveDefaults hub.old }
    ensures { HaveDefaults hub.new }
{
    apply(hub, alloc, command)
}

/// Ends the test if something else is told.
fn goes<Q: Payload<Element = u64>, QH: Words, P: Payload<Element = u64>, PH: Words>(
    rt: &impl Abort,
    hub: &mut Hub<Q, QH, P, PH, AnswersAt>,
    alloc: Global,
    list: &[Row],
)
    requires { HaveDefaults hub.old }
    ensures { HaveDefaults hub.new }
{
    for (node, asked, told) in list {
        let command = command_of(rt, alloc, *node, *asked);
        let reply = ask(hub, alloc, command);
        is_wanted(rt, &reply, is_told(&reply, told));
    }
}

/// The same of a new hub of these settings, for one list and then another.
fn plays_both(rt: &impl Abort, alloc: Global, settings: &Settings, first: &[Row], rest: &[Row]) {
    let mut hub = hub(alloc, *settings).expect(rt, "a hub");
    goes(rt, &mut hub, alloc, first);
    goes(rt, &mut hub, alloc, rest);
}

/// The same for one list.
fn plays_in(rt: &impl Abort, alloc: Global, settings: &Settings, list: &[Row]) {
    plays_both(rt, alloc, settings, list, &[]);
}

/// The same of a hub with the first settings.
fn plays(rt: &impl Abort, alloc: Global, list: &[Row]) {
    plays_both(rt, alloc, &SETTINGS, list, &[]);
}
