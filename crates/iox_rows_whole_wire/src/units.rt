//! A client on node 0 and a server on node 1, whose elements have no words: a message has any
//! number of them, up to three, or one.
ghost use Rattle.std.specs.Prelude.{◌≡◌, IfOk};
ghost use Rattle.iox_rows_whole_wire.specs.Units.{AreTermsOfUnits, HasNoWord, IsMessageOfUnits};
ghost use Rattle.iox_rows_whole_wire.specs.Units.{IsPlanOfUnits, unit_client, unit_server};

use super::on::{Play, SINGLE_UNITS, UNITS, plays_all};
use super::play::{Act, Ask};
use super::settings::{NO_OVERFLOW, limits, port};
use super::told::Told;
use iox_model::kind::Role;
use iox_types::{MessageTypeDetails, RequestHeader, ResponseHeader, TypeVariant};
use iox_wire::{Wire, WireRefusal};
use iox_wire_lenders::{MessageTerms, WireTerms};
use iox_word_places::{PlanPort, WirePlan};
use std::alloc::Global;
use std::test::Fail;

/// A client, whose messages have up to three elements, or one.
fn client(many: bool) -> PlanPort
    ensures { result ≡ unit_client many }
{
    PlanPort {
        number: 0,
        node: 0,
        role: Role::Client,
        pool: 4,
        longest: if many { 3 } else { 1 },
        slot_words: 9,
    }
}

/// Such a server.
fn server(many: bool) -> PlanPort
    ensures { result ≡ unit_server many }
{
    PlanPort {
        number: 1,
        node: 1,
        role: Role::Server,
        pool: 9,
        longest: if many { 3 } else { 1 },
        slot_words: 8,
    }
}

/// Requests of a header of 7 words and no other word.
fn request() -> Result<MessageTypeDetails, Fail>
    ensures { IfOk result (λ details. HasNoWord details 56) }
{
    let details = MessageTypeDetails::from::<RequestHeader, (), ()>(TypeVariant::FixedSize)?;
    Ok(details)
}

/// Responses of a header of 6 words and no other word.
fn response() -> Result<MessageTypeDetails, Fail>
    ensures { IfOk result (λ details. HasNoWord details 48) }
{
    let details = MessageTypeDetails::from::<ResponseHeader, (), ()>(TypeVariant::FixedSize)?;
    Ok(details)
}

/// Each limit is 1, and nothing overflows.
fn plan(alloc: Global, many: bool) -> Result<WirePlan, Fail>
    ensures { IfOk result (IsPlanOfUnits many) }
{
    let ports = vec![in alloc; client(many), server(many)]?;
    Ok(WirePlan {
        ports,
        limits: limits(NO_OVERFLOW),
        request: request()?,
        response: response()?,
    })
}

/// Messages of any number of elements, or of one.
fn message(alloc: Global, many: bool) -> MessageTerms
    ensures { IsMessageOfUnits many result }
{
    MessageTerms {
        many,
        user: Vec::new(alloc),
    }
}

/// The terms of that plan.
fn terms(alloc: Global, many: bool) -> Result<WireTerms, Fail>
    ensures { IfOk result (AreTermsOfUnits many) }
{
    let client = port(alloc, 4_294_967_296, 0)?;
    let server = port(alloc, 8_589_934_592, 1)?;
    Ok(WireTerms {
        ports: vec![in alloc; client, server]?,
        request: message(alloc, many),
        response: message(alloc, many),
        clients: 1,
        loaned_requests: 1,
        fire_and_forget: true,
        first_number: 2,
    })
}

/// A wire of that plan, whose nodes live.
pub(super) fn open(alloc: Global, many: bool) -> Result<Wire, Fail> {
    let plan = plan(alloc, many)?;
    let terms = terms(alloc, many)?;
    Ok(Wire::new(alloc, plan, terms, &[0, 1])?)
}

const SEVERAL_ELEMENTS_WITHOUT_WORDS_ARE_WRITTEN_BY_NO_WORDS: Play<'static> = Play {
    name: "several_elements_without_words_are_written_by_no_words",
    on: UNITS,
    before: &[],
    table: &[
        Act::Whole(0, Ask::LoanOf(0, 4), 1, Told::ExceedsMaxLoanSize),
        // three elements are lent: a write has no word, and takes one step
        Act::Whole(0, Ask::LoanOf(0, 3), 9, Told::Handle(2)),
        Act::Whole(0, Ask::WriteRequest(2, 7), 1, Told::WrongLength),
        Act::Whole(0, Ask::WriteNoRequest(2), 1, Told::Done),
        Act::Whole(0, Ask::WriteNoRequest(2), 1, Told::Done),
        Act::RefusedCall(0, Ask::WriteNoResponse(2), WireRefusal::WrongKind),
        Act::Whole(0, Ask::Read(2), 1, Told::NoWord),
        Act::Whole(0, Ask::Send(2), 9, Told::Sent(1)),
        Act::Whole(1, Ask::Receive(1), 11, Told::Handle(2)),
        Act::Whole(1, Ask::Read(2), 1, Told::NoWord),
        // so it is of a response, of two
        Act::Whole(1, Ask::LoanOf(2, 2), 14, Told::Handle(3)),
        Act::Whole(1, Ask::WriteResponse(3, 7), 1, Told::WrongLength),
        Act::Whole(1, Ask::WriteNoResponse(3), 1, Told::Done),
        Act::Whole(1, Ask::Send(3), 9, Told::Done),
        Act::Whole(0, Ask::Receive(2), 10, Told::Handle(3)),
        Act::Whole(0, Ask::Read(3), 1, Told::NoWord),
        // the last word of the first header tells how many elements its message has
        Act::Holds(6, 3),
    ],
};

const MESSAGES_OF_NO_ELEMENTS_ARE_WRITTEN_BY_NO_WORDS: Play<'static> = Play {
    name: "messages_of_no_elements_are_written_by_no_words",
    on: UNITS,
    before: &[],
    table: &[
        Act::Whole(0, Ask::LoanOf(0, 0), 9, Told::Handle(2)),
        Act::Whole(0, Ask::WriteRequest(2, 7), 1, Told::WrongLength),
        Act::Whole(0, Ask::WriteNoRequest(2), 1, Told::Done),
        Act::Whole(0, Ask::Release(2), 1, Told::Done),
        // a copy of no words has no element
        Act::Whole(0, Ask::CopyRequest(0, 7), 1, Told::WrongLength),
        Act::Whole(0, Ask::CopyNoRequest(0), 18, Told::Handle(3)),
        Act::Whole(1, Ask::Receive(1), 11, Told::Handle(2)),
        Act::Whole(1, Ask::Read(2), 1, Told::NoWord),
    ],
};

const ONE_ELEMENT_WITHOUT_WORDS_IS_WRITTEN_BY_NO_WORDS: Play<'static> = Play {
    name: "one_element_without_words_is_written_by_no_words",
    on: SINGLE_UNITS,
    before: &[],
    table: &[
        Act::Whole(0, Ask::LoanOf(0, 0), 1, Told::WrongLength),
        Act::Whole(0, Ask::LoanOf(0, 3), 1, Told::WrongLength),
        Act::Whole(0, Ask::Loan(0), 9, Told::Handle(2)),
        Act::Whole(0, Ask::WriteRequest(2, 7), 1, Told::WrongLength),
        Act::Whole(0, Ask::WriteNoRequest(2), 1, Told::Done),
        Act::Whole(0, Ask::Read(2), 1, Told::NoWord),
        Act::Whole(0, Ask::Send(2), 9, Told::Sent(1)),
        Act::Whole(1, Ask::Receive(1), 11, Told::Handle(2)),
        Act::Whole(1, Ask::Read(2), 1, Told::NoWord),
        Act::Whole(1, Ask::Loan(2), 14, Told::Handle(3)),
        Act::Whole(1, Ask::WriteNoResponse(3), 1, Told::Done),
        Act::Whole(1, Ask::Send(3), 9, Told::Done),
        Act::Whole(0, Ask::Receive(2), 10, Told::Handle(3)),
        Act::Whole(0, Ask::Read(3), 1, Told::NoWord),
        // the last word of the first header tells how many elements its message has
        Act::Holds(6, 1),
    ],
};

const COPY_OF_NO_WORDS_IS_OF_ONE_ELEMENT: Play<'static> = Play {
    name: "copy_of_no_words_is_of_one_element",
    on: SINGLE_UNITS,
    before: &[],
    table: &[
        Act::Whole(0, Ask::CopyNoRequest(0), 18, Told::Handle(2)),
        Act::Whole(1, Ask::Receive(1), 11, Told::Handle(2)),
        Act::Whole(1, Ask::Read(2), 1, Told::NoWord),
        // the last word of the first header tells how many elements its message has
        Act::Holds(6, 1),
    ],
};

#[test]
fn elements_without_words_are_written_by_no_words(rt: HostRuntime) -> Result<(), Fail> {
    const PLAYS: &[Play<'static>] = &[
        SEVERAL_ELEMENTS_WITHOUT_WORDS_ARE_WRITTEN_BY_NO_WORDS,
        MESSAGES_OF_NO_ELEMENTS_ARE_WRITTEN_BY_NO_WORDS,
        ONE_ELEMENT_WITHOUT_WORDS_IS_WRITTEN_BY_NO_WORDS,
        COPY_OF_NO_WORDS_IS_OF_ONE_ELEMENT,
    ];
    plays_all(&rt, PLAYS)
}
