//! Tables of what nodes of a wire do, and of what they are answered.
use super::told::{Shown, Told, answer, replied, shown, word_read};
use crate::expected::equal;
use iox_model::kind::Role;
use iox_wire::{HandleCall, NodeCall, NodePayload, Progress, Wire, WireRefusal};
use std::process::Abort;

/// No call of these tests takes as many steps.
const MOST_STEPS: u64 = 1000;

const TWELVE: &[u64] = &[1, 2, 3, 4, 5, 6, 7, 8, 9, 10, 11, 12];

/// A call of the port or the handle of that number. What is written or copied is one word.
#[derive(Clone, Copy)]
pub(super) enum Ask {
    Loan(u64),
    /// A loan of so many elements.
    LoanOf(u64, u64),
    WriteRequest(u64, u64),
    WriteResponse(u64, u64),
    Send(u64),
    CopyRequest(u64, u64),
    CopyResponse(u64, u64),
    /// The same of no word.
    WriteNoRequest(u64),
    WriteNoResponse(u64),
    CopyNoRequest(u64),
    /// Of two words, as a message of that role.
    WriteTwo(u64, Role, [u64; 2]),
    CopyTwo(u64, Role, [u64; 2]),
    /// Of the words 1 to 12, as a request.
    CopyTwelve(u64),
    Receive(u64),
    HasRequests(u64),
    Read(u64),
    Release(u64),
    IsConnected(u64),
    SetHint(u64),
    HasHint(u64),
    HasResponse(u64),
}

/// What a node does, and what is to come of it.
#[derive(Clone, Copy)]
pub(super) enum Act {
    /// It makes a call from its begin to its end, in so many steps, and is answered that.
    Whole(u64, Ask, u64, Told),
    /// The same, in however many steps.
    Calls(u64, Ask, Told),
    Begins(u64, Ask),
    /// It makes so many steps, and its call continues.
    Goes(u64, u64),
    /// Its call ends with so many steps more.
    Ends(u64, u64, Told),
    Dies(u64),
    RefusedCall(u64, Ask, WireRefusal),
    RefusedStep(u64, WireRefusal),
    RefusedDeath(u64, WireRefusal),
    /// A node begins to look for requests of its server of that number.
    Looks(u64, u64),
    RefusedLook(u64, u64, WireRefusal),
    /// Room is made for so many steps, or is not.
    Reserves(usize),
    LacksRoom(usize),
    /// The port keeps so many messages.
    Keeps(u64, usize),
    /// The port has so many outstanding at the other, on that lane.
    Lacks(u64, u64, u64, usize),
    /// The wire has that word at that place.
    Holds(usize, u64),
    /// It has so many words, so many words that are 0, so many finished calls, and so many events.
    HasWords(usize),
    HasZeros(usize),
    Finishes(usize),
    Records(usize),
    /// Its first finished call was answered so.
    FirstReply(Told),
    /// What the node read last.
    HasRead(u64, Told),
    /// The node died behind so many events, or it lives.
    DiedAfter(u64, usize),
    Lives(u64),
}

/// What came of it.
#[derive(Clone, Copy)]
pub(super) enum Came {
    /// The call ended with so many steps more.
    Ended(u64, Told),
    Answered(Told),
    /// It is under way.
    UnderWay,
    Died,
    Refused(WireRefusal),
    /// So many messages were counted.
    Counted(usize),
    /// This word or this number was found, if there is one.
    Found(Option<u64>),
    /// Whether there is room.
    Room(bool),
}

/// The node begins to write these words.
fn writes(
    wire: &mut Wire,
    node: u64,
    number: u64,
    role: Role,
    words: &[u64],
) -> Result<(), WireRefusal> {
    let payload = NodePayload { role, words };
    wire.begin(node, NodeCall::Write { number, payload })
}

/// The node begins to copy these words.
fn copies(
    wire: &mut Wire,
    node: u64,
    number: u64,
    role: Role,
    words: &[u64],
) -> Result<(), WireRefusal> {
    let payload = NodePayload { role, words };
    wire.begin(node, NodeCall::SendCopy { number, payload })
}

/// A call of a handle.
fn handle_call(ask: Ask) -> Option<(u64, HandleCall)> {
    match ask {
        Ask::Read(number) => Some((number, HandleCall::Read)),
        Ask::Release(number) => Some((number, HandleCall::Release)),
        Ask::IsConnected(number) => Some((number, HandleCall::IsConnected)),
        Ask::SetHint(number) => Some((number, HandleCall::SetHint)),
        Ask::HasHint(number) => Some((number, HandleCall::HasHint)),
        Ask::HasResponse(number) => Some((number, HandleCall::HasResponse)),
        _ => None,
    }
}

/// Another call that brings no words.
fn call_without_words(ask: Ask) -> Option<NodeCall<'static>> {
    match ask {
        Ask::Loan(number) => {
            let elements = 1;
            Some(NodeCall::Loan { number, elements })
        }
        Ask::LoanOf(number, elements) => Some(NodeCall::Loan { number, elements }),
        Ask::Send(number) => Some(NodeCall::Send { number }),
        Ask::Receive(number) => Some(NodeCall::Receive { number }),
        Ask::HasRequests(number) => Some(NodeCall::HasRequests { number }),
        _ => None,
    }
}

/// The node begins a write or a copy. Nothing else is left.
fn begin_with_words(wire: &mut Wire, node: u64, ask: Ask) -> Result<(), WireRefusal> {
    match ask {
        Ask::WriteRequest(number, word) => writes(wire, node, number, Role::Client, &[word]),
        Ask::WriteResponse(number, word) => writes(wire, node, number, Role::Server, &[word]),
        Ask::WriteNoRequest(number) => writes(wire, node, number, Role::Client, &[]),
        Ask::WriteNoResponse(number) => writes(wire, node, number, Role::Server, &[]),
        Ask::WriteTwo(number, role, words) => writes(wire, node, number, role, &words),
        Ask::CopyRequest(number, word) => copies(wire, node, number, Role::Client, &[word]),
        Ask::CopyResponse(number, word) => copies(wire, node, number, Role::Server, &[word]),
        Ask::CopyNoRequest(number) => copies(wire, node, number, Role::Client, &[]),
        Ask::CopyTwo(number, role, words) => copies(wire, node, number, role, &words),
        Ask::CopyTwelve(number) => copies(wire, node, number, Role::Client, TWELVE),
        _ => Err(WireRefusal::WrongKind),
    }
}

/// The node begins that call.
pub(super) fn begin(wire: &mut Wire, node: u64, ask: Ask) -> Result<(), WireRefusal> {
    if let Some((number, call)) = handle_call(ask) {
        return wire.begin(node, NodeCall::Handle { number, call });
    }
    match call_without_words(ask) {
        Some(call) => wire.begin(node, call),
        None => begin_with_words(wire, node, ask),
    }
}

/// So many steps of the node, or those up to the end of its call.
pub(super) fn steps(wire: &mut Wire, node: u64, most: u64) -> Came {
    for made in 0..most {
        match wire.step(node) {
            Err(refusal) => return Came::Refused(refusal),
            Ok(Progress::Going) => {}
            Ok(Progress::Done(reply)) => return Came::Ended(made + 1, answer(wire, node, reply)),
        }
    }
    Came::UnderWay
}

/// A call of the node, from its begin to its end.
pub(super) fn calls(wire: &mut Wire, node: u64, ask: Ask) -> Came {
    match begin(wire, node, ask) {
        Err(refusal) => Came::Refused(refusal),
        Ok(()) => steps(wire, node, MOST_STEPS),
    }
}

/// The same, in however many steps.
fn answers(wire: &mut Wire, node: u64, ask: Ask) -> Came {
    match calls(wire, node, ask) {
        Came::Ended(_, told) => Came::Answered(told),
        came => came,
    }
}

/// What comes of the begin of a call.
fn begins(wire: &mut Wire, node: u64, ask: Ask) -> Came {
    match begin(wire, node, ask) {
        Err(refusal) => Came::Refused(refusal),
        Ok(()) => Came::UnderWay,
    }
}

/// What comes of a death.
fn dies(wire: &mut Wire, node: u64) -> Came {
    match wire.declare_dead(node) {
        Err(refusal) => Came::Refused(refusal),
        Ok(()) => Came::Died,
    }
}

/// What comes of the begin of a look.
fn looks(wire: &mut Wire, node: u64, number: u64) -> Came {
    match wire.begin_has_requests(node, number) {
        Err(refusal) => Came::Refused(refusal),
        Ok(()) => Came::UnderWay,
    }
}

/// What comes of what a node does.
fn acts(wire: &mut Wire, act: Act) -> Came {
    match act {
        Act::Whole(node, ask, _, _) | Act::RefusedCall(node, ask, _) => calls(wire, node, ask),
        Act::Calls(node, ask, _) => answers(wire, node, ask),
        Act::Begins(node, ask) => begins(wire, node, ask),
        Act::Goes(node, most) => steps(wire, node, most),
        Act::Ends(node, _, _) => steps(wire, node, MOST_STEPS),
        Act::RefusedStep(node, _) => steps(wire, node, 1),
        Act::Dies(node) | Act::RefusedDeath(node, _) => dies(wire, node),
        Act::Looks(node, number) | Act::RefusedLook(node, number, _) => looks(wire, node, number),
        Act::Reserves(count) | Act::LacksRoom(count) => Came::Room(wire.reserve(count).is_ok()),
        fact => seen(wire, fact),
    }
}

/// How many words are 0.
fn zeros(words: &[u64]) -> usize {
    let mut count: usize = 0;
    for word in words {
        if *word == 0 {
            count = count.saturating_add(1);
        }
    }
    count
}

/// What the first finished call was answered.
fn first_reply(wire: &Wire) -> Came {
    match wire.replies().get(0) {
        Some(finished) => Came::Answered(replied(finished.reply)),
        None => Came::UnderWay,
    }
}

/// Behind how many events the node died, if it did.
fn died_after(wire: &Wire, node: u64) -> Option<u64> {
    let events = wire.died_after(node)?;
    Some(events as u64)
}

/// What is found of the wire.
fn seen(wire: &Wire, fact: Act) -> Came {
    match fact {
        Act::Keeps(port, _) => Came::Counted(wire.kept(port)),
        Act::Lacks(port, other, lane, _) => Came::Counted(wire.outstanding(port, other, lane)),
        Act::Holds(place, _) => Came::Found(wire.words().get(place).copied()),
        Act::HasWords(_) => Came::Counted(wire.words().len()),
        Act::HasZeros(_) => Came::Counted(zeros(wire.words())),
        Act::Finishes(_) => Came::Counted(wire.replies().len()),
        Act::Records(_) => Came::Counted(wire.events().len()),
        Act::FirstReply(_) => first_reply(wire),
        Act::HasRead(node, _) => Came::Answered(word_read(wire.words_read(node))),
        Act::DiedAfter(node, _) | Act::Lives(node) => Came::Found(died_after(wire, node)),
        _ => Came::UnderWay,
    }
}

/// What is to come of it.
fn wanted(act: Act) -> Came {
    match act {
        Act::Whole(_, _, steps, told) | Act::Ends(_, steps, told) => Came::Ended(steps, told),
        Act::Calls(_, _, told) | Act::FirstReply(told) | Act::HasRead(_, told) => {
            Came::Answered(told)
        }
        Act::Begins(_, _) | Act::Goes(_, _) | Act::Looks(_, _) => Came::UnderWay,
        Act::Dies(_) => Came::Died,
        Act::RefusedCall(_, _, refusal)
        | Act::RefusedStep(_, refusal)
        | Act::RefusedDeath(_, refusal)
        | Act::RefusedLook(_, _, refusal) => Came::Refused(refusal),
        Act::Reserves(_) => Came::Room(true),
        Act::LacksRoom(_) => Came::Room(false),
        Act::Keeps(_, count)
        | Act::Lacks(_, _, _, count)
        | Act::HasWords(count)
        | Act::HasZeros(count)
        | Act::Finishes(count)
        | Act::Records(count) => Came::Counted(count),
        Act::Holds(_, word) => Came::Found(Some(word)),
        Act::DiedAfter(_, events) => Came::Found(Some(events as u64)),
        Act::Lives(_) => Came::Found(None),
    }
}

/// The name of what came, a number, an answer, and a refusal. What came is the same if these are.
pub(super) type ShownCame = (&'static str, u64, Option<Shown>, Option<WireRefusal>);

/// What shows that.
pub(super) fn came_shown(came: Came) -> ShownCame {
    match came {
        Came::Ended(steps, told) => ("Ended", steps, Some(shown(told)), None),
        Came::Answered(told) => ("Answered", 0, Some(shown(told)), None),
        Came::UnderWay => ("UnderWay", 0, None, None),
        Came::Died => ("Died", 0, None, None),
        Came::Refused(refusal) => ("Refused", 0, None, Some(refusal)),
        Came::Counted(count) => ("Counted", count as u64, None, None),
        Came::Found(Some(word)) => ("Found", word, None, None),
        Came::Found(None) => ("NotFound", 0, None, None),
        Came::Room(true) => ("Room", 0, None, None),
        Came::Room(false) => ("NoRoom", 0, None, None),
    }
}

/// Plays the table of that name, and ends the test where something else comes of it.
pub(super) fn plays(rt: &impl Abort, wire: &mut Wire, name: &str, table: &[Act]) {
    for (place, act) in table.iter().enumerate() {
        let came = acts(wire, *act);
        equal(
            rt,
            (name, place, came_shown(came)),
            (name, place, came_shown(wanted(*act))),
        );
    }
}
