//! Replies as they are printed.
use crate::expected::equal;
use iox_model::reply::{Refusal, Reply};
use iox_script::{LineCause, Payload, ScriptRefusal, ScriptReply, push_bad_line, push_reply};
use std::alloc::Global;
use std::convert::Infallible;
use std::fmt::Debug;
use std::process::Abort;

/// Ends the test where the reply is printed otherwise behind what stands there.
fn prints(rt: &impl Abort, alloc: Global, reply: &ScriptReply, line: &[u8]) {
    let mut out = Vec::from_slice(alloc, b"> ").expect(rt, "memory");
    push_reply(&mut out, reply).expect(rt, "memory");
    equal(rt, out.as_slice(), line);
}

fn payload(rt: &impl Abort, alloc: Global, words: &[u64]) -> Payload {
    Payload::new(Vec::from_slice(alloc, words).expect(rt, "memory"))
}

#[test]
fn a_payload_has_its_words(rt: HostRuntime) {
    const WORDS: &[u64] = &[0, 7, u64::MAX];
    equal(&rt, payload(&rt, rt.alloc(), WORDS).as_slice(), WORDS);
}

/// What a service answers.
enum Said<'a> {
    Done,
    Node(u64),
    Client(u64),
    Server(u64),
    Handle(u64),
    Sent(u64),
    Nothing,
    Answer(bool),
    Words(&'a [u64]),
    Listed(&'a [u64]),
}

fn reply(rt: &impl Abort, alloc: Global, said: &Said<'_>) -> Reply<Payload, Infallible> {
    match said {
        Said::Done => Reply::Done,
        Said::Node(number) => Reply::Node(*number),
        Said::Client(number) => Reply::Client(*number),
        Said::Server(number) => Reply::Server(*number),
        Said::Handle(number) => Reply::Handle(*number),
        Said::Sent(number) => Reply::Sent(*number),
        Said::Nothing => Reply::Nothing,
        Said::Answer(answer) => Reply::Answer(*answer),
        Said::Words(words) => Reply::Words(payload(rt, alloc, words)),
        Said::Listed(numbers) => Reply::Listed(payload(rt, alloc, numbers)),
    }
}

/// Ends the test where what a service answers is printed otherwise.
fn is_line(rt: &impl Abort, alloc: Global, said: &Said<'_>, line: &[u8]) {
    prints(
        rt,
        alloc,
        &ScriptReply::Service(reply(rt, alloc, said)),
        line,
    );
}

#[test]
fn each_reply_is_a_line_behind_what_stands_there(rt: HostRuntime) {
    const LINES: &[(Said<'static>, &[u8])] = &[
        (Said::Done, b"> ok\n"),
        (Said::Node(0), b"> node 0\n"),
        (Said::Client(1), b"> client 1\n"),
        (Said::Server(20), b"> server 20\n"),
        (Said::Handle(u64::MAX), b"> handle 18446744073709551615\n"),
        (Said::Sent(2), b"> sent 2\n"),
        (Said::Nothing, b"> none\n"),
        (Said::Answer(true), b"> true\n"),
        (Said::Answer(false), b"> false\n"),
        (
            Said::Words(&[0, 7, u64::MAX]),
            b"> words 0 7 18446744073709551615\n",
        ),
        (Said::Words(&[]), b"> words\n"),
        (Said::Listed(&[1, 3]), b"> list 1 3\n"),
    ];
    for (said, line) in LINES {
        is_line(&rt, rt.alloc(), said, line);
    }
}

/// Ends the test where a reply is not printed as a refusal of that name.
fn is_refusal<T: Debug>(rt: &impl Abort, alloc: Global, reply: &ScriptReply, refusal: &T) {
    let line = format!(in alloc; "> refused {refusal:?}\n").expect(rt, "memory");
    prints(rt, alloc, reply, line.as_bytes());
}

/// Ends the test where a refusal of a service is not printed by its name.
fn is_refused(rt: &impl Abort, alloc: Global, refusal: Refusal<Infallible>) {
    let reply = ScriptReply::Service(Reply::Refused(refusal));
    is_refusal(rt, alloc, &reply, &refusal);
}

/// The same of one that a script has beyond its service.
fn is_refused_by_the_script(rt: &impl Abort, alloc: Global, refusal: ScriptRefusal) {
    is_refusal(rt, alloc, &ScriptReply::Refused(refusal), &refusal);
}

#[test]
fn each_refusal_has_its_name(rt: HostRuntime) {
    const REFUSALS: &[Refusal<Infallible>] = &[
        Refusal::UnknownNode,
        Refusal::NodeIsDead,
        Refusal::NodeIsAlive,
        Refusal::UnknownNumber,
        Refusal::ForeignNumber,
        Refusal::WrongKind,
        Refusal::CallsSpent,
        Refusal::WrongLength,
        Refusal::ExceedsMaxLoanSize,
        Refusal::ExceedsMaxLoans,
        Refusal::OutOfMemory,
        Refusal::WantOfMemory,
        Refusal::ExceedsMaxActiveRequests,
        Refusal::UnableToDeliver,
        Refusal::ExceedsMaxBorrows,
        Refusal::UnableToCreatePortTag,
        Refusal::UnableToCreateDataSegment,
        Refusal::ExceedsMaxSupportedClients,
        Refusal::ExceedsMaxSupportedServers,
        Refusal::MarkedForDestruction,
        Refusal::InvalidNodeId,
        Refusal::NodeIdInUse,
        Refusal::IncompatibleRequestTypes,
        Refusal::IncompatibleResponseTypes,
        Refusal::LimitTooLarge,
        Refusal::ExceedsMaxNumberOfNodes,
        Refusal::HasPorts,
        Refusal::MessagesUnderWay,
        Refusal::GrowingStrategy,
        Refusal::HandlerSet,
        Refusal::UnsuitableAlignment,
        Refusal::TooManyWords,
        Refusal::Busy,
        Refusal::AtRest,
        Refusal::AccessesSpent,
        Refusal::NotOnThreads,
    ];
    const SCRIPT_REFUSALS: &[ScriptRefusal] = &[
        ScriptRefusal::ServiceExists,
        ScriptRefusal::NoService,
        ScriptRefusal::ExceedsMaximumLength,
        ScriptRefusal::InvalidContent,
    ];
    for refusal in REFUSALS {
        is_refused(&rt, rt.alloc(), *refusal);
    }
    for refusal in SCRIPT_REFUSALS {
        is_refused_by_the_script(&rt, rt.alloc(), *refusal);
    }
}

/// Ends the test where a bad line of that number is answered otherwise.
fn is_bad_line(rt: &impl Abort, alloc: Global, number: u64, cause: LineCause, line: &[u8]) {
    let mut out = Vec::new(alloc);
    push_bad_line(&mut out, number, cause).expect(rt, "memory");
    equal(rt, out.as_slice(), line);
}

#[test]
fn a_bad_line_is_answered_with_its_number_and_cause(rt: HostRuntime) {
    const CAUSES: &[(u64, LineCause, &[u8])] = &[
        (1, LineCause::TooLong, b"bad line 1: too long\n"),
        (
            2,
            LineCause::UnknownCommand,
            b"bad line 2: unknown command\n",
        ),
        (30, LineCause::WrongCount, b"bad line 30: wrong count\n"),
        (400, LineCause::BadNumber, b"bad line 400: bad number\n"),
        (
            u64::MAX,
            LineCause::BadText,
            b"bad line 18446744073709551615: bad text\n",
        ),
    ];
    for (number, cause, line) in CAUSES {
        is_bad_line(&rt, rt.alloc(), *number, *cause, line);
    }
}
