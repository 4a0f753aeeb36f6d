//! Commands that run one after another, and all their replies.
use super::asking::command;
use super::service::{SETTINGS, settings, with};
use super::{Ask, TheReply, TheService, Told, tells};
use crate::expected::{equal, holds};
use iox_control::Settings;
use iox_model::reply::Refusal;
use std::alloc::Global;
use std::process::Abort;

/// Runs commands that ask this, and puts their replies behind the others.
fn run(
    rt: &impl Abort,
    alloc: Global,
    service: &mut TheService,
    asks: &[Ask],
    replies: &mut Vec<TheReply>,
) {
    let mut commands = Vec::new(alloc);
    for ask in asks {
        let command = command(rt, alloc, *ask).expect(rt, "a command");
        holds(rt, commands.push(command).is_ok());
    }
    holds(rt, service.run(alloc, commands, replies).is_ok());
}

/// Ends the test where the replies are not all of the wanted ones.
fn are(rt: &impl Abort, replies: &[TheReply], wanted: &[Told<'_>]) {
    equal(rt, replies.len(), wanted.len());
    for (place, (reply, told)) in replies.iter().zip(wanted.iter()).enumerate() {
        tells(rt, place, reply, told);
    }
}

/// The replies to runs of these lists, one after another.
fn ran(rt: &impl Abort, alloc: Global, service: &mut TheService, runs: &[&[Ask]]) -> Vec<TheReply> {
    let mut replies = Vec::new(alloc);
    for asks in runs {
        run(rt, alloc, service, asks, &mut replies);
    }
    replies
}

/// Ends the test where those of a new service are not the wanted ones.
fn plays(rt: &impl Abort, alloc: Global, settings: Settings, runs: &[&[Ask]], wanted: &[Told<'_>]) {
    let mut service = with(rt, alloc, settings);
    let replies = ran(rt, alloc, &mut service, runs);
    are(rt, &replies, wanted);
}

#[test]
fn a_request_and_its_response_are_one_run(rt: HostRuntime) {
    const ASKS: &[Ask] = &[
        Ask::Join(2),
        Ask::Client(0),
        Ask::Server(1),
        Ask::Request(0, 0, 123),
        Ask::Receive(1, 1),
        Ask::Read(1, 3),
        Ask::Response(1, 3, 456),
        Ask::Receive(0, 2),
        Ask::Read(0, 4),
    ];
    const WANTED: &[Told<'static>] = &[
        Told::Node(1),
        Told::Client(0),
        Told::Server(1),
        Told::Handle(2),
        Told::Handle(3),
        Told::Words(&[123]),
        Told::Done,
        Told::Handle(4),
        Told::Words(&[456]),
    ];
    const QUEUES: Settings = Settings {
        request_overflow: false,
        response_overflow: false,
        ..SETTINGS
    };
    plays(&rt, rt.alloc(), QUEUES, &[ASKS], WANTED);
}

#[test]
fn a_run_goes_on_behind_what_is_refused(rt: HostRuntime) {
    const ASKS: &[Ask] = &[
        Ask::Client(1),
        Ask::Join(1),
        Ask::JoinUnfit(2),
        Ask::Join(2),
        Ask::Join(3),
        Ask::Client(0),
        Ask::Server(1),
        Ask::Leave(0),
        Ask::Receive(0, 1),
        Ask::Receive(0, 0),
        Ask::Loan(0, 0),
        Ask::Loan(0, 0),
        Ask::Loan(0, 0),
        Ask::Write(0, 2, 5),
        Ask::Send(0, 2),
        Ask::Send(0, 9),
        Ask::Receive(1, 1),
        Ask::Read(1, 4),
    ];
    const WANTED: &[Told<'static>] = &[
        Told::Refused(Refusal::UnknownNode),
        Told::Refused(Refusal::NodeIdInUse),
        Told::Refused(Refusal::IncompatibleRequestTypes),
        Told::Node(1),
        Told::Refused(Refusal::ExceedsMaxNumberOfNodes),
        Told::Client(0),
        Told::Server(1),
        Told::Refused(Refusal::HasPorts),
        Told::Refused(Refusal::ForeignNumber),
        Told::Refused(Refusal::WrongKind),
        Told::Handle(2),
        Told::Handle(3),
        Told::Refused(Refusal::ExceedsMaxLoans),
        Told::Done,
        Told::Sent(1),
        Told::Refused(Refusal::UnknownNumber),
        Told::Handle(4),
        Told::Words(&[5]),
    ];
    plays(&rt, rt.alloc(), settings(2), &[ASKS], WANTED);
}

#[test]
fn nodes_come_and_go_until_the_last_is_gone(rt: HostRuntime) {
    const ASKS: &[Ask] = &[
        Ask::Join(2),
        Ask::Join(3),
        Ask::Nodes,
        Ask::Client(0),
        Ask::Server(1),
        Ask::Client(2),
        Ask::Clients,
        Ask::Servers,
        Ask::Die(2),
        Ask::Cleanup(1),
        Ask::Clients,
        Ask::Cleanup(2),
        Ask::Nodes,
        Ask::Clients,
        Ask::Release(0, 0),
        Ask::Leave(0),
        Ask::Die(1),
        Ask::Nodes,
        Ask::Cleanup(1),
        Ask::Nodes,
        Ask::Servers,
        Ask::Join(4),
    ];
    const WANTED: &[Told<'static>] = &[
        Told::Node(1),
        Told::Node(2),
        Told::Listed(&[0, 1, 2]),
        Told::Client(0),
        Told::Server(1),
        Told::Client(2),
        Told::Listed(&[0, 2]),
        Told::Listed(&[1]),
        Told::Done,
        Told::Refused(Refusal::NodeIsAlive),
        Told::Listed(&[0, 2]),
        Told::Done,
        Told::Listed(&[0, 1]),
        Told::Listed(&[0]),
        Told::Done,
        Told::Done,
        Told::Done,
        Told::Listed(&[1]),
        Told::Done,
        Told::Listed(&[]),
        Told::Listed(&[]),
        Told::Refused(Refusal::MarkedForDestruction),
    ];
    plays(&rt, rt.alloc(), SETTINGS, &[ASKS], WANTED);
}

#[test]
fn a_further_run_puts_its_replies_behind(rt: HostRuntime) {
    const RUNS: &[&[Ask]] = &[
        &[Ask::Client(0)],
        &[],
        &[Ask::Request(0, 0, 8), Ask::Read(0, 1)],
    ];
    const WANTED: &[Told<'static>] = &[Told::Client(0), Told::Handle(1), Told::Words(&[8])];
    plays(&rt, rt.alloc(), SETTINGS, RUNS, WANTED);
}
