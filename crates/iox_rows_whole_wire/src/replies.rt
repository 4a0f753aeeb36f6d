//! The finished calls that a wire keeps: each with its node, its call, its reply, and the numbers
//! of events before its begin and before its end.
use super::on::{ONES, OVERFLOWING_ONES, On, opened};
use super::play::{Act, Ask, plays};
use super::told::{Told, replied, shown};
use crate::expected::{equal, holds};
use iox_wire::{FinishedCall, HandleCall, ToldCall, Wire};
use std::process::Abort;
use std::test::Fail;

/// What a call asks, of which number, and with which first word. Of a loan the last one is how many
/// elements it has.
type Asked = (&'static str, u64, Option<u64>);

/// A finished call: its node, what was asked, its reply, and the numbers of events.
type Row = (u64, Asked, Told, usize, usize);

/// The first word of a payload.
fn first(words: &[u64]) -> Option<u64> {
    words.first().copied()
}

/// What a call asks.
fn asked(call: ToldCall<'_>) -> Asked {
    match call {
        ToldCall::Loan { number, elements } => ("loan", number, Some(elements)),
        ToldCall::Write { number, words } => ("write", number, first(words)),
        ToldCall::Send { number } => ("send", number, None),
        ToldCall::SendCopy { number, words } => ("copy", number, first(words)),
        ToldCall::Receive { number } => ("receive", number, None),
        ToldCall::HasRequests { number } => ("look", number, None),
        ToldCall::Handle { number, call } if call == HandleCall::Read => ("read", number, None),
        ToldCall::Handle { number, .. } => ("another call of a handle", number, None),
    }
}

/// Ends the test where that is not the finished call at this place.
fn is_row(rt: &impl Abort, place: usize, call: FinishedCall<'_>, row: &Row) {
    equal(rt, (place, call.node), (place, row.0));
    equal(rt, asked(call.call), row.1);
    equal(rt, shown(replied(call.reply)), shown(row.2));
    equal(rt, (call.begun, call.ended), (row.3, row.4));
}

/// Ends the test where other calls are finished than these.
fn are_finished(rt: &impl Abort, wire: &Wire, rows: &[Row]) {
    equal(rt, wire.replies().len(), rows.len());
    equal(rt, wire.replies().is_empty(), rows.is_empty());
    for (place, row) in rows.iter().enumerate() {
        match wire.replies().get(place) {
            Some(call) => is_row(rt, place, call, row),
            None => holds(rt, false),
        }
    }
    holds(rt, wire.replies().get(rows.len()).is_none());
}

/// What the call of the node that is under way asks, if one is, and how many events came before it.
fn under_way(wire: &Wire, node: u64) -> Option<(Asked, usize)> {
    let under = wire.under_way(node)?;
    Some((asked(under.call), under.begun))
}

/// What the first finished call copied by port 0, if it copied something.
fn first_copied(wire: &Wire) -> Option<&[u64]> {
    match wire.replies().get(0)?.call {
        ToldCall::SendCopy { number: 0, words } => Some(words),
        _ => None,
    }
}

/// What a wire does, or what is found of it.
#[derive(Clone, Copy)]
enum Part<'a> {
    Plays(&'a [Act]),
    Finished(&'a [Row]),
    /// What call the node has under way, behind how many events.
    UnderWay(u64, Option<(Asked, usize)>),
    /// The words that the first finished call copied.
    FirstCopied(&'a [u64]),
}

/// What comes of these on a new wire.
struct Case<'a> {
    /// What a failed test tells.
    name: &'a str,
    on: &'a On,
    parts: &'a [Part<'a>],
}

/// Ends the test where something else comes of this.
fn is_so(rt: &impl Abort, wire: &mut Wire, name: &str, part: Part<'_>) {
    match part {
        Part::Plays(table) => plays(rt, wire, name, table),
        Part::Finished(rows) => are_finished(rt, wire, rows),
        Part::UnderWay(node, asked) => equal(rt, under_way(wire, node), asked),
        Part::FirstCopied(words) => equal(rt, first_copied(wire), Some(words)),
    }
}

/// Or of these.
fn are_so(rt: &impl Abort, wire: &mut Wire, case: &Case<'_>) {
    for part in case.parts {
        is_so(rt, wire, case.name, *part);
    }
}

/// The same on a new wire.
fn comes(rt: &(impl Abort + AllocGlobal), case: &Case<'_>) -> Result<(), Fail> {
    let mut wire = opened(rt.alloc(), *case.on)?;
    are_so(rt, &mut wire, case);
    Ok(())
}

/// The same of each of these.
fn come(rt: &(impl Abort + AllocGlobal), list: &[Case<'_>]) -> Result<(), Fail> {
    for case in list {
        comes(rt, case)?;
    }
    Ok(())
}

const REPLY_HAS_ITS_CALL_AND_ITS_WORDS: Case<'static> = Case {
    name: "reply_has_its_call_and_its_words",
    on: OVERFLOWING_ONES,
    parts: &[
        Part::Finished(&[]),
        Part::Plays(&[
            Act::Calls(0, Ask::CopyRequest(0, 11), Told::Handle(2)),
            Act::Calls(1, Ask::Receive(1), Told::Handle(2)),
            Act::Calls(1, Ask::Read(2), Told::Word(11)),
            Act::Calls(1, Ask::Loan(2), Told::Handle(3)),
            Act::Calls(1, Ask::WriteResponse(3, 12), Told::Done),
        ]),
        Part::Finished(&[
            (0, ("copy", 0, Some(11)), Told::Handle(2), 0, 4),
            (1, ("receive", 1, None), Told::Handle(2), 4, 5),
            (1, ("read", 2, None), Told::Word(11), 5, 5),
            (1, ("loan", 2, Some(1)), Told::Handle(3), 5, 9),
            (1, ("write", 3, Some(12)), Told::Done, 9, 9),
        ]),
    ],
};

/// The server's look begins before the client's copy does, and ends after it.
const REPLIES_STAND_IN_THE_ORDER_OF_THEIR_ENDS: Case<'static> = Case {
    name: "replies_stand_in_the_order_of_their_ends",
    on: ONES,
    parts: &[
        Part::Plays(&[
            Act::Begins(1, Ask::HasRequests(1)),
            Act::Goes(1, 1),
            Act::Calls(0, Ask::CopyRequest(0, 11), Told::Handle(2)),
            Act::Records(5),
            Act::Ends(1, 1, Told::Answer(true)),
        ]),
        Part::Finished(&[
            (0, ("copy", 0, Some(11)), Told::Handle(2), 0, 5),
            (1, ("look", 1, None), Told::Answer(true), 0, 6),
        ]),
    ],
};

/// The server looks, the client dies in the last step of its copy, and the server looks again.
const CALL_OF_A_DEAD_NODE_STAYS_UNDER_WAY: Case<'static> = Case {
    name: "call_of_a_dead_node_stays_under_way",
    on: ONES,
    parts: &[
        Part::Plays(&[Act::Calls(1, Ask::HasRequests(1), Told::Answer(false))]),
        Part::UnderWay(0, None),
        Part::Plays(&[
            Act::Begins(0, Ask::CopyRequest(0, 11)),
            Act::Goes(0, 18),
            Act::Dies(0),
            Act::Calls(1, Ask::HasRequests(1), Told::Answer(false)),
        ]),
        Part::Finished(&[
            (1, ("look", 1, None), Told::Answer(false), 0, 1),
            (1, ("look", 1, None), Told::Answer(false), 5, 6),
        ]),
        Part::UnderWay(0, Some((("copy", 0, Some(11)), 1))),
        Part::Plays(&[Act::DiedAfter(0, 5), Act::Lives(1)]),
        Part::UnderWay(1, None),
        Part::UnderWay(2, None),
    ],
};

/// The longest message of the wire has ten words.
const WORDS_PAST_THE_LONGEST_MESSAGE_ARE_LEFT_OUT: Case<'static> = Case {
    name: "words_past_the_longest_message_are_left_out",
    on: OVERFLOWING_ONES,
    parts: &[
        Part::Plays(&[
            Act::Whole(0, Ask::CopyTwelve(0), 1, Told::ExceedsMaxLoanSize),
            Act::Calls(0, Ask::CopyRequest(0, 13), Told::Handle(2)),
        ]),
        Part::FirstCopied(&[1, 2, 3, 4, 5, 6, 7, 8, 9, 10]),
    ],
};

#[test]
fn finished_calls_are_kept(rt: HostRuntime) -> Result<(), Fail> {
    const CASES: &[Case<'static>] = &[
        REPLY_HAS_ITS_CALL_AND_ITS_WORDS,
        REPLIES_STAND_IN_THE_ORDER_OF_THEIR_ENDS,
        CALL_OF_A_DEAD_NODE_STAYS_UNDER_WAY,
        WORDS_PAST_THE_LONGEST_MESSAGE_ARE_LEFT_OUT,
    ];
    come(&rt, CASES)
}
