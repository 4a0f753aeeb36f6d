//! Runs of no command, of one, and of one after another.
use super::asking::runs;
use super::openers::{FITS, openers};
use super::starts::{SETTINGS, first};
use super::{Ask, Row, TheReply, TheService, Then, Told, Way, plays_in, tells};
use crate::expected::equal;
use iceoryx2_wire::{Opener, Reply};
use std::alloc::Global;
use std::process::Abort;

/// A node opens the service, and all are listed.
const OPENS: &[Row<'static>] = &[
    (Ask::Open(2, FITS), Told::Node(1)),
    (Ask::Nodes, Told::Listed(&[0, 1])),
];

/// Node 0 leaves, and all are listed.
const LEAVES: &[Row<'static>] = &[
    (Ask::Leave(0), Told::Done),
    (Ask::Nodes, Told::Listed(&[1])),
];

/// The replies to three lists, of which the first is empty, behind a reply that was there.
fn three<'a>(
    rt: &impl Abort,
    alloc: Global,
    service: &mut TheService,
    openers: &'a [Opener],
) -> Vec<TheReply<'a>> {
    let mut replies: Vec<TheReply<'a>> = Vec::from_array(alloc, [Reply::Nothing]).expect(
        rt, "room",
    );
    runs(rt, alloc, service, openers, &[], &mut replies);
    runs(rt, alloc, service, openers, OPENS, &mut replies);
    runs(rt, alloc, service, openers, LEAVES, &mut replies);
    replies
}

/// Ends the test where replies are not the wanted ones.
fn are(rt: &impl Abort, replies: &[TheReply<'_>], wanted: &[Told<'_>]) {
    equal(rt, replies.len(), wanted.len());
    for (place, (reply, told)) in replies.iter().zip(wanted.iter()).enumerate() {
        tells(rt, place, reply, told);
    }
}

/// The same of a new service's replies.
fn stand_behind(rt: &impl Abort, alloc: Global, openers: &[Opener], wanted: &[Told<'_>]) {
    let mut service = first(rt, alloc, &SETTINGS);
    let replies = three(rt, alloc, &mut service, openers);
    are(rt, &replies, wanted);
}

#[test]
fn replies_stand_behind_those_of_earlier_runs(rt: HostRuntime) {
    const WANTED: &[Told<'static>] = &[
        Told::Nothing,
        Told::Node(1),
        Told::Listed(&[0, 1]),
        Told::Done,
        Told::Listed(&[1]),
    ];
    let openers = openers(&rt, rt.alloc());
    stand_behind(&rt, rt.alloc(), &openers, WANTED);
}

/// Ends the test where a new service, asked by `try_serve`, answers otherwise.
fn tries(rt: &impl Abort, alloc: Global, script: &[Row<'_>]) {
    let openers = openers(rt, alloc);
    plays_in(
        rt,
        alloc,
        &SETTINGS,
        &openers,
        Way::Tried,
        &[(script, Then::Open)],
    );
}

#[test]
fn a_command_is_answered_where_memory_is_there(rt: HostRuntime) {
    tries(&rt, rt.alloc(), OPENS);
}
