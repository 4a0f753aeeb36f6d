//! Tests of `iceoryx2_wire`. Each plays a list of what is asked, and of what it has to be answered.
//! Only `plays_in` owns a service that is asked so.
mod asking;
mod creating;
mod ending;
mod exchanges;
mod gone;
mod handlers;
mod listing;
mod openers;
mod opening;
mod own_handlers;
mod registered;
mod running;
mod starts;

use crate::expected::{equal, is_wanted};
use iceoryx2_wire::{
    AttributeVerificationError, Backpressure, BackpressureStrategy, Many, Opener, Refusal, Reply,
    Service, Settings,
};
use std::alloc::Global;
use std::process::Abort;

/// Requests and responses of numbers. Where nothing else is said, ports have no handlers.
type TheService<H = ()> = Service<Many<u64>, (), Many<u64>, (), H>;

type TheRefusal<'a> = Refusal<AttributeVerificationError<'a>>;

type TheReply<'a> = Reply<Vec<u64>, AttributeVerificationError<'a>>;

/// What is asked. Of a port's or a handle's node and number, the node comes first.
#[derive(Clone, Copy)]
enum Ask<H = ()> {
    /// A node with the id N 0 0 0 opens the service, as the opener of that place in `OPENERS`.
    Open(u32, usize),
    Leave(u64),
    Die(u64),
    Cleanup(u64),
    Nodes,
    Clients,
    Servers,
    /// A node makes a port.
    Client(u64),
    Server(u64),
    /// The same, with this strategy and this handler, if any.
    MadeClient(u64, Option<BackpressureStrategy>, Option<H>),
    MadeServer(u64, Option<BackpressureStrategy>, Option<H>),
    Loan(u64, u64),
    /// A loan is filled with this number.
    Write(u64, u64, u64),
    Send(u64, u64),
    /// A copy of this number is sent.
    Request(u64, u64, u64),
    Response(u64, u64, u64),
    Receive(u64, u64),
    Read(u64, u64),
    Release(u64, u64),
    Connected(u64, u64),
    Hint(u64, u64),
    Hinted(u64, u64),
    HasRequests(u64, u64),
    HasResponse(u64, u64),
}

/// What is told.
#[derive(Clone, Copy)]
enum Told<'a> {
    Node(u64),
    Client(u64),
    Server(u64),
    Handle(u64),
    Sent(u64),
    Done,
    Nothing,
    Words(&'a [u64]),
    Answer(bool),
    Listed(&'a [u64]),
    Refused(Refusal<()>),
    /// It is refused, since the service lacks this pair or this key.
    NoPair(&'a str, &'a str),
    NoKey(&'a str),
}

/// The refusal without a cause, if it is one that a row wants.
fn plain(refusal: &TheRefusal<'_>) -> Option<Refusal<()>> {
    Some(match refusal {
        Refusal::UnknownNode => Refusal::UnknownNode,
        Refusal::NodeIsDead => Refusal::NodeIsDead,
        Refusal::NodeIsAlive => Refusal::NodeIsAlive,
        Refusal::UnableToDeliver => Refusal::UnableToDeliver,
        Refusal::MarkedForDestruction => Refusal::MarkedForDestruction,
        Refusal::InvalidNodeId => Refusal::InvalidNodeId,
        Refusal::NodeIdInUse => Refusal::NodeIdInUse,
        Refusal::IncompatibleRequestTypes => Refusal::IncompatibleRequestTypes,
        Refusal::IncompatibleResponseTypes => Refusal::IncompatibleResponseTypes,
        Refusal::LimitTooLarge => Refusal::LimitTooLarge,
        Refusal::ExceedsMaxNumberOfNodes => Refusal::ExceedsMaxNumberOfNodes,
        Refusal::HasPorts => Refusal::HasPorts,
        _ => return None,
    })
}

/// The pair that the service lacks, if that is the cause.
fn lacked_pair<'a>(refusal: &TheRefusal<'a>) -> Option<(&'a str, &'a str)> {
    match refusal {
        Refusal::IncompatibleAttributes(
            AttributeVerificationError::IncompatibleAttribute(key, value),
        ) => Some((key.as_str(), value.as_str())),
        _ => None,
    }
}

/// The key that the service lacks, if that is the cause.
fn lacked_key<'a>(refusal: &TheRefusal<'a>) -> Option<&'a str> {
    match refusal {
        Refusal::IncompatibleAttributes(AttributeVerificationError::NonExistingKey(key)) => {
            Some(key.as_str())
        }
        _ => None,
    }
}

/// Whether it is refused so.
fn is_refused(refusal: &TheRefusal<'_>, told: &Told<'_>) -> bool {
    match told {
        Told::Refused(wanted) => plain(refusal) == Some(*wanted),
        Told::NoPair(key, value) => lacked_pair(refusal) == Some((*key, *value)),
        Told::NoKey(key) => lacked_key(refusal) == Some(*key),
        _ => false,
    }
}

/// Whether that is told.
fn is_told(reply: &TheReply<'_>, told: &Told<'_>) -> bool {
    match (reply, told) {
        (Reply::Node(n), Told::Node(wanted)) => n == wanted,
        (Reply::Client(n), Told::Client(wanted)) => n == wanted,
        (Reply::Server(n), Told::Server(wanted)) => n == wanted,
        (Reply::Handle(n), Told::Handle(wanted)) => n == wanted,
        (Reply::Sent(n), Told::Sent(wanted)) => n == wanted,
        (Reply::Done, Told::Done) => true,
        (Reply::Nothing, Told::Nothing) => true,
        (Reply::Words(words), Told::Words(wanted)) => words.as_slice() == *wanted,
        (Reply::Answer(answer), Told::Answer(wanted)) => answer == wanted,
        (Reply::Listed(numbers), Told::Listed(wanted)) => numbers.as_slice() == *wanted,
        (Reply::Refused(refusal), _) => is_refused(refusal, told),
        _ => false,
    }
}

/// What is asked, and what is told.
type Row<'a, H = ()> = (Ask<H>, Told<'a>);

/// What is so behind some rows.
#[derive(Clone, Copy)]
enum Then<'a> {
    Any,
    Open,
    Closed,
    /// Nodes of these ids N 0 0 0 are registered, and no others.
    Registered(&'a [u32]),
    /// The service is open, and tells these ids of nodes, clients and servers.
    Tells(listing::AllIds<'a>),
}

/// Rows, and what is so behind them.
type Part<'a, H = ()> = (&'a [Row<'a, H>], Then<'a>);

/// How a service is asked: by its calls, by `try_serve`, or by `run`.
#[derive(Clone, Copy)]
enum Way {
    Called,
    Tried,
    Ran,
}

/// Ends the test where the reply of that place in its list is not the wanted one.
fn tells(rt: &impl Abort, place: usize, reply: &TheReply<'_>, wanted: &Told<'_>) {
    is_wanted(rt, place, reply, is_told(reply, wanted));
}

/// Ends the test where replies are not those of a script.
fn are_of<H: Backpressure>(rt: &impl Abort, replies: &[TheReply<'_>], script: &[Row<'_, H>]) {
    equal(rt, replies.len(), script.len());
    for (place, (reply, (_, wanted))) in replies.iter().zip(script.iter()).enumerate() {
        tells(rt, place, reply, wanted);
    }
}

/// Asks one after another, and ends the test where an answer is not the wanted one.
fn calls<H: Backpressure>(
    rt: &impl Abort,
    alloc: Global,
    service: &mut TheService<H>,
    openers: &[Opener],
    way: Way,
    script: &[Row<'_, H>],
) {
    for (place, (ask, wanted)) in script.iter().enumerate() {
        let reply = asking::asked(rt, alloc, service, openers, way, *ask);
        tells(rt, place, &reply, wanted);
        registered::as_many_as_listed(rt, alloc, service);
    }
}

/// The same by one `run`.
fn runs<H: Backpressure>(
    rt: &impl Abort,
    alloc: Global,
    service: &mut TheService<H>,
    openers: &[Opener],
    script: &[Row<'_, H>],
) {
    let replies = asking::ran(rt, alloc, service, openers, script);
    are_of(rt, &replies, script);
    registered::as_many_as_listed(rt, alloc, service);
}

/// The same in this way.
fn goes<H: Backpressure>(
    rt: &impl Abort,
    alloc: Global,
    service: &mut TheService<H>,
    openers: &[Opener],
    way: Way,
    script: &[Row<'_, H>],
) {
    match way {
        Way::Ran => runs(rt, alloc, service, openers, script),
        _ => calls(rt, alloc, service, openers, way, script),
    }
}

/// Ends the test where this is not so.
fn is_so<H: Backpressure>(rt: &impl Abort, service: &TheService<H>, then: &Then<'_>) {
    match then {
        Then::Any => {}
        Then::Open => equal(rt, service.is_closed(), false),
        Then::Closed => equal(rt, service.is_closed(), true),
        Then::Registered(wanted) => registered::are_registered(rt, service, wanted),
        Then::Tells(wanted) => listing::are_told(rt, service, wanted),
    }
}

/// Asks part by part, and ends the test where an answer is not the wanted one, or where what has to
/// be so behind a part is not. It answers whether the service is closed in the end.
fn goes_on<H: Backpressure>(
    rt: &impl Abort,
    alloc: Global,
    service: &mut TheService<H>,
    openers: &[Opener],
    way: Way,
    parts: &[Part<'_, H>],
) -> bool {
    for part in parts {
        goes(rt, alloc, service, openers, way, part.0);
        is_so(rt, service, &part.1);
    }
    service.is_closed()
}

/// The same of a new service with these settings and the attributes (a, 1) and (b, 2), whose node 0
/// has id 1 0 0 0.
fn plays_in<H: Backpressure>(
    rt: &impl Abort,
    alloc: Global,
    settings: &Settings,
    openers: &[Opener],
    way: Way,
    parts: &[Part<'_, H>],
) -> bool {
    let mut service = starts::first(rt, alloc, settings);
    goes_on(rt, alloc, &mut service, openers, way, parts)
}

/// The same by calls, and by `run`. They end alike.
fn plays_with<H: Backpressure>(
    rt: &impl Abort,
    alloc: Global,
    settings: &Settings,
    openers: &[Opener],
    parts: &[Part<'_, H>],
) {
    let called = plays_in(rt, alloc, settings, openers, Way::Called, parts);
    let ran = plays_in(rt, alloc, settings, openers, Way::Ran, parts);
    equal(rt, ran, called);
}

/// The same with all openers.
fn plays_parts<H: Backpressure>(
    rt: &impl Abort,
    alloc: Global,
    settings: &Settings,
    parts: &[Part<'_, H>],
) {
    let openers = openers::openers(rt, alloc);
    plays_with(rt, alloc, settings, &openers, parts);
}

/// The same of one list.
fn plays<H: Backpressure>(
    rt: &impl Abort,
    alloc: Global,
    settings: &Settings,
    script: &[Row<'_, H>],
) {
    plays_parts(rt, alloc, settings, &[(script, Then::Any)]);
}
