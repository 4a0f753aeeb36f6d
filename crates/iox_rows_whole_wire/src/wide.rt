//! A client on node 0 and a server on node 1, whose pools were reduced to 2 slots, and that drop
//! what a full receiver has no room for. Messages have user headers, and payloads of two words that
//! are aligned to more than a word.
ghost use Rattle.std.specs.Prelude.{◌≡◌, ◌∷◌, [], IfOk};
ghost use Rattle.iox_rows_whole_wire.specs.Wide.{AreWideTerms, HasUserHeader, IsWide, IsWidePlan};
ghost use Rattle.iox_rows_whole_wire.specs.Wide.{IsWidePort, wide_limits};

use super::on::{Play, WIDE, plays_all};
use super::play::{Act, Ask};
use super::told::Told;
use crate::expected::equal;
use iox_model::kind::Role;
use iox_types::{MessageTypeDetails, RequestHeader, ResponseHeader, TypeDetail, TypeVariant};
use iox_wire::{Wire, WireNewError, new_refusal};
use iox_wire_lenders::{MessageTerms, PortTerms, WireTerms};
use iox_word_places::{PlanLimits, PlanPort, WirePlan};
use std::alloc::Global;
use std::process::Abort;
use std::test::Fail;

const CLIENT: PlanPort = PlanPort {
    number: 0,
    node: 0,
    role: Role::Client,
    pool: 2,
    longest: 1,
    slot_words: 15,
};

const SERVER: PlanPort = PlanPort {
    number: 1,
    node: 1,
    role: Role::Server,
    pool: 2,
    longest: 1,
    slot_words: 16,
};

/// Each limit is 1, or so many responses may wait that the wire has just 2^63 words.
fn limits(huge: bool) -> PlanLimits
    ensures { result ≡ wide_limits huge }
{
    PlanLimits {
        active_requests: 1,
        response_buffer: if huge { (1 << 61) - 21 } else { 1 },
        borrowed_responses: 1,
        request_overflow: false,
        response_overflow: false,
    }
}

/// Requests with a user header of one word, and a payload that is aligned to 32 bytes.
fn request() -> Result<MessageTypeDetails, Fail>
    ensures { IfOk result (λ details. IsWide details 56 8 8 32) }
{
    Ok(MessageTypeDetails {
        header: TypeDetail::new::<RequestHeader>(TypeVariant::FixedSize)?,
        user_header: TypeDetail::from_parts(TypeVariant::FixedSize, "One", 8, 8)?,
        payload: TypeDetail::from_parts(TypeVariant::FixedSize, "Two", 16, 32)?,
    })
}

/// Responses with a user header of two words that is aligned to 32 bytes, and a payload to 16.
fn response() -> Result<MessageTypeDetails, Fail>
    ensures { IfOk result (λ details. IsWide details 48 16 32 16) }
{
    Ok(MessageTypeDetails {
        header: TypeDetail::new::<ResponseHeader>(TypeVariant::FixedSize)?,
        user_header: TypeDetail::from_parts(TypeVariant::FixedSize, "Two", 16, 32)?,
        payload: TypeDetail::from_parts(TypeVariant::FixedSize, "Two", 16, 16)?,
    })
}

/// Requests of 15 words, and responses of 16.
fn plan(alloc: Global, huge: bool) -> Result<WirePlan, Fail>
    ensures { IfOk result (IsWidePlan huge) }
{
    let ports = vec![in alloc; CLIENT, SERVER]?;
    Ok(WirePlan {
        ports,
        limits: limits(huge),
        request: request()?,
        response: response()?,
    })
}

/// The terms of a port with that number, of a node whose identifier has that first word.
fn port(alloc: Global, process: u64, number: u64) -> Result<PortTerms, Fail>
    ensures { IfOk result (IsWidePort process number) }
{
    Ok(PortTerms {
        ids: vec![in alloc; process, 0, process, number]?,
        loaned_responses: 1,
        fails: false,
    })
}

/// The terms of requests, whose user header is 5.
fn requests(alloc: Global) -> Result<MessageTerms, Fail>
    ensures { IfOk result (HasUserHeader (5 ∷ [])) }
{
    let user = vec![in alloc; 5]?;
    Ok(MessageTerms { many: true, user })
}

/// And of responses, whose user header is 6 and 7.
fn responses(alloc: Global) -> Result<MessageTerms, Fail>
    ensures { IfOk result (HasUserHeader (6 ∷ 7 ∷ [])) }
{
    let user = vec![in alloc; 6, 7]?;
    Ok(MessageTerms { many: true, user })
}

/// The terms of that plan.
fn terms(alloc: Global) -> Result<WireTerms, Fail>
    ensures { IfOk result AreWideTerms }
{
    let client = port(alloc, 4_294_967_296, 0)?;
    let server = port(alloc, 8_589_934_592, 1)?;
    Ok(WireTerms {
        ports: vec![in alloc; client, server]?,
        request: requests(alloc)?,
        response: responses(alloc)?,
        clients: 1,
        loaned_requests: 1,
        fire_and_forget: true,
        first_number: 2,
    })
}

/// A wire of that plan, whose nodes live, or why there is none.
pub(super) fn open(alloc: Global, huge: bool) -> Result<Result<Wire, WireNewError>, Fail> {
    let plan = plan(alloc, huge)?;
    let terms = terms(alloc)?;
    Ok(Wire::new(alloc, plan, terms, &[0, 1]))
}

#[test]
fn wire_of_too_many_words_does_not_open(rt: HostRuntime) -> Result<(), Fail> {
    let opened = open(rt.alloc(), true)?;
    equal(&rt, opened.err(), Some(WireNewError::TooManyWords));
    Ok(())
}

/// Why no wire is made of that plan, if so many responses may wait, and the first handles have that
/// number.
fn refusal(alloc: Global, waiting: usize, first: u64) -> Result<Option<WireNewError>, Fail> {
    let mut plan = plan(alloc, false)?;
    let mut terms = terms(alloc)?;
    plan.limits.response_buffer = waiting;
    terms.first_number = first;
    Ok(new_refusal(&plan, &terms, &[0, 1]))
}

/// How many responses may wait, the number of the first handle, and the reason.
type Row = (usize, u64, Option<WireNewError>);

/// Ends the test where there is another reason for one of these.
fn are_refused(rt: &(impl Abort + AllocGlobal), rows: &[Row]) -> Result<(), Fail> {
    for (waiting, first, wanted) in rows {
        equal(rt, refusal(rt.alloc(), *waiting, *first)?, *wanted);
    }
    Ok(())
}

#[test]
fn too_many_words_are_told_before_spent_numbers(rt: HostRuntime) -> Result<(), Fail> {
    // 2^63 words, 4 fewer, and more than a number counts
    const MOST: usize = (1 << 61) - 21;
    const FEWER: usize = (1 << 61) - 22;
    const MORE: usize = usize::MAX;
    const SPENT: u64 = 1 << 63;
    const LAST: u64 = (1 << 63) - 1;
    const WORDS: Option<WireNewError> = Some(WireNewError::TooManyWords);
    const NUMBERS: Option<WireNewError> = Some(WireNewError::NumbersSpent);
    const ROWS: &[Row] = &[
        (1, 2, None),
        (FEWER, LAST, None),
        (MOST, LAST, WORDS),
        (MORE, LAST, WORDS),
        (MOST, SPENT, WORDS),
        (FEWER, SPENT, NUMBERS),
        (1, u64::MAX, NUMBERS),
    ];
    are_refused(&rt, ROWS)
}

const WORDS_COME_AS_THEY_WERE_SENT: Play<'static> = Play {
    name: "words_come_as_they_were_sent",
    on: WIDE,
    before: &[],
    table: &[
        Act::Whole(0, Ask::Loan(0), 10, Told::Handle(2)),
        Act::Whole(0, Ask::Read(2), 3, Told::Three(5, 0, 0)),
        Act::Whole(0, Ask::WriteTwo(2, Role::Client, [8, 9]), 2, Told::Done),
        Act::Whole(0, Ask::WriteRequest(2, 8), 1, Told::WrongLength),
        Act::Whole(0, Ask::Read(2), 3, Told::Three(5, 8, 9)),
        Act::Whole(0, Ask::Send(2), 9, Told::Sent(1)),
        Act::Whole(1, Ask::Receive(1), 11, Told::Handle(2)),
        Act::Whole(1, Ask::Read(2), 3, Told::Three(5, 8, 9)),
        Act::Whole(1, Ask::CopyTwo(2, Role::Server, [10, 11]), 23, Told::Done),
        Act::Whole(0, Ask::Receive(2), 10, Told::Handle(3)),
        Act::Whole(0, Ask::Read(3), 4, Told::Four(6, 7, 10, 11)),
    ],
};

const REQUESTS_ARE_DROPPED_THAT_FIND_NO_ROOM: Play<'static> = Play {
    name: "requests_are_dropped_that_find_no_room",
    on: WIDE,
    before: &[],
    table: &[
        Act::Whole(
            0,
            Ask::CopyTwo(0, Role::Client, [1, 2]),
            21,
            Told::Handle(2),
        ),
        Act::Whole(0, Ask::Release(2), 1, Told::Done),
        Act::Whole(0, Ask::Loan(0), 10, Told::Handle(3)),
        Act::Whole(0, Ask::Send(3), 5, Told::Sent(0)),
        // one slot is the server's, one that of the pending response
        Act::Whole(0, Ask::Loan(0), 2, Told::OutOfMemory),
        Act::Whole(
            0,
            Ask::CopyTwo(0, Role::Client, [3, 4]),
            2,
            Told::OutOfMemory,
        ),
        Act::Whole(0, Ask::IsConnected(3), 1, Told::Answer(true)),
        Act::Whole(0, Ask::Release(3), 1, Told::Done),
        Act::Whole(1, Ask::Receive(1), 11, Told::Handle(2)),
        Act::Whole(1, Ask::Read(2), 3, Told::Three(5, 1, 2)),
        Act::Whole(1, Ask::Receive(1), 2, Told::Nothing),
        Act::Whole(
            0,
            Ask::CopyTwo(0, Role::Client, [5, 6]),
            21,
            Told::Handle(4),
        ),
        Act::Whole(0, Ask::Loan(0), 2, Told::OutOfMemory),
        Act::Whole(1, Ask::Release(2), 5, Told::Done),
        Act::Whole(0, Ask::Loan(0), 14, Told::Handle(5)),
    ],
};

const RESPONSES_ARE_DROPPED_THAT_FIND_NO_ROOM: Play<'static> = Play {
    name: "responses_are_dropped_that_find_no_room",
    on: WIDE,
    before: &[],
    table: &[
        Act::Whole(
            0,
            Ask::CopyTwo(0, Role::Client, [1, 2]),
            21,
            Told::Handle(2),
        ),
        Act::Whole(1, Ask::Receive(1), 11, Told::Handle(2)),
        Act::Whole(1, Ask::CopyTwo(2, Role::Server, [3, 4]), 23, Told::Done),
        Act::Whole(1, Ask::CopyTwo(2, Role::Server, [5, 6]), 19, Told::Done),
        Act::Whole(0, Ask::Receive(2), 10, Told::Handle(3)),
        Act::Whole(0, Ask::Read(3), 4, Told::Four(6, 7, 3, 4)),
        Act::Whole(0, Ask::Receive(2), 2, Told::Nothing),
        Act::Whole(1, Ask::CopyTwo(2, Role::Server, [7, 8]), 23, Told::Done),
        // one slot is the client's, one waits
        Act::Whole(1, Ask::Loan(2), 4, Told::OutOfMemory),
        Act::Whole(
            1,
            Ask::CopyTwo(2, Role::Server, [9, 9]),
            4,
            Told::OutOfMemory,
        ),
        Act::Whole(0, Ask::Release(3), 4, Told::Done),
        Act::Whole(1, Ask::Loan(2), 16, Told::Handle(3)),
    ],
};

#[test]
fn wide_messages_come_and_are_dropped(rt: HostRuntime) -> Result<(), Fail> {
    const PLAYS: &[Play<'static>] = &[
        WORDS_COME_AS_THEY_WERE_SENT,
        REQUESTS_ARE_DROPPED_THAT_FIND_NO_ROOM,
        RESPONSES_ARE_DROPPED_THAT_FIND_NO_ROOM,
    ];
    plays_all(&rt, PLAYS)
}
