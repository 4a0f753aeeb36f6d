//! Tests of `iox_nodes`. Each plays a list of what is asked, and of what it has to be answered.
mod asking;
mod attributes;
mod cleanups;
mod comparing;
mod creating;
mod dying;
mod growing;
mod handlers;
mod joining;
mod registered;
mod running;
mod service;
mod trying;

use crate::expected::is_wanted;
use iox_control::Settings;
use iox_model::reply::{Refusal, Reply};
use iox_nodes::{Always, BackpressureAction, Service};
use iox_store::{Many, One};
use iox_types::BackpressureStrategy;
use std::alloc::Global;
use std::process::Abort;

/// Requests and responses of numbers. A handler has one answer, and a cause of attributes would be
/// a number.
type TheService = Service<Many<u64>, (), One<u64>, (), Always>;

type TheReply = Reply<Vec<u64>, u64>;

/// What is asked. Of a port's or a handle's node and number, the node comes first.
#[derive(Clone, Copy)]
enum Ask {
    /// A node joins with the id N 0 0 0.
    Join(u32),
    /// The same, where what it asks of the service's types does not fit.
    JoinUnfit(u32),
    Leave(u64),
    Die(u64),
    Cleanup(u64),
    Nodes,
    Clients,
    Servers,
    Closed,
    /// A node makes a port.
    Client(u64),
    Server(u64),
    /// The same, with a handler that answers this, and with this strategy.
    HandledClient(u64, BackpressureAction, BackpressureStrategy),
    HandledServer(u64, BackpressureAction, BackpressureStrategy),
    Loan(u64, u64),
    /// The same, of 33 elements.
    LongLoan(u64, u64),
    /// A loan is filled with this number.
    Write(u64, u64, u64),
    Send(u64, u64),
    /// A copy of this number is sent.
    Request(u64, u64, u64),
    Response(u64, u64, u64),
    Receive(u64, u64),
    Read(u64, u64),
    Release(u64, u64),
    Connected(u64, u64),
    Hint(u64, u64),
    Hinted(u64, u64),
    HasRequests(u64, u64),
    HasResponse(u64, u64),
}

/// What is told.
#[derive(Clone, Copy)]
enum Told<'a> {
    Node(u64),
    Client(u64),
    Server(u64),
    Handle(u64),
    Sent(u64),
    Done,
    Nothing,
    Words(&'a [u64]),
    Answer(bool),
    Listed(&'a [u64]),
    Refused(Refusal<u64>),
}

/// Whether that is told.
fn is_told(reply: &TheReply, told: &Told<'_>) -> bool {
    match (reply, told) {
        (Reply::Node(n), Told::Node(wanted)) => n == wanted,
        (Reply::Client(n), Told::Client(wanted)) => n == wanted,
        (Reply::Server(n), Told::Server(wanted)) => n == wanted,
        (Reply::Handle(n), Told::Handle(wanted)) => n == wanted,
        (Reply::Sent(n), Told::Sent(wanted)) => n == wanted,
        (Reply::Done, Told::Done) => true,
        (Reply::Nothing, Told::Nothing) => true,
        (Reply::Words(words), Told::Words(wanted)) => words.as_slice() == *wanted,
        (Reply::Answer(answer), Told::Answer(wanted)) => answer == wanted,
        (Reply::Listed(numbers), Told::Listed(wanted)) => numbers.as_slice() == *wanted,
        (Reply::Refused(refusal), Told::Refused(wanted)) => refusal == wanted,
        _ => false,
    }
}

/// What is asked, and what is told.
type Row<'a> = (Ask, Told<'a>);

/// How a service is asked: by its calls, by `serve`, or by `try_serve`.
#[derive(Clone, Copy)]
enum Way {
    Called,
    Served,
    Tried,
}

/// Ends the test where the reply of that place in its list is not the wanted one.
fn tells(rt: &impl Abort, place: usize, reply: &TheReply, wanted: &Told<'_>) {
    is_wanted(rt, place, reply, is_told(reply, wanted));
}

/// Asks a service one after another, and ends the test where an answer is not the wanted one.
fn goes(rt: &impl Abort, alloc: Global, service: &mut TheService, way: Way, script: &[Row<'_>]) {
    for (place, (ask, wanted)) in script.iter().enumerate() {
        let reply = asking::asked(rt, alloc, service, way, *ask);
        tells(rt, place, &reply, wanted);
        registered::as_many_as_listed(rt, alloc, service);
    }
}

/// The same of a new service, whose node 0 has id 1 0 0 0.
fn plays_in(rt: &impl Abort, alloc: Global, settings: Settings, way: Way, script: &[Row<'_>]) {
    let mut service = service::with(rt, alloc, settings);
    goes(rt, alloc, &mut service, way, script);
}

/// The same in each way.
fn plays_with(rt: &impl Abort, alloc: Global, settings: Settings, script: &[Row<'_>]) {
    plays_in(rt, alloc, settings, Way::Called, script);
    plays_in(rt, alloc, settings, Way::Served, script);
    plays_in(rt, alloc, settings, Way::Tried, script);
}

/// The same with so many nodes at most, and all else as at the defaults.
fn plays(rt: &impl Abort, alloc: Global, nodes: u64, script: &[Row<'_>]) {
    plays_with(rt, alloc, service::settings(nodes), script);
}
