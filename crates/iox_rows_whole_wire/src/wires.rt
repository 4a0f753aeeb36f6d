//! A wire where each setting is 1, with a client on one node and a server on the other.
use super::on::{ONES, Play, plays_all};
use super::plan_rows::{Change, Limit, Part, PlanRows, Row, of_their_plans};
use super::play::Act;
use super::settings::{NO_OVERFLOW, OVERFLOW};
use super::told::Told;
use iox_model::kind::Role;
use iox_wire::{WireNewError, WireRefusal};
use std::test::Fail;

const WIRE_OF_ONES_HAS_165_WORDS: Play<'static> = Play {
    name: "wire_of_ones_has_165_words",
    on: ONES,
    before: &[],
    table: &[Act::HasWords(165), Act::HasZeros(165), Act::Finishes(0)],
};

/// The server looks for a request and finds none. It begins no other call meanwhile.
const SERVER_FINDS_NO_REQUEST_IN_TWO_STEPS: Play<'static> = Play {
    name: "server_finds_no_request_in_two_steps",
    on: ONES,
    before: &[],
    table: &[
        Act::Looks(1, 1),
        Act::RefusedLook(1, 1, WireRefusal::Busy),
        Act::Ends(1, 2, Told::Answer(false)),
        Act::Finishes(1),
        Act::RefusedStep(1, WireRefusal::AtRest),
    ],
};

const BEGIN_IS_REFUSED_BY_WHAT_IT_NAMES: Play<'static> = Play {
    name: "begin_is_refused_by_what_it_names",
    on: ONES,
    before: &[],
    table: &[
        Act::RefusedLook(2, 1, WireRefusal::UnknownNode),
        Act::RefusedLook(1, 7, WireRefusal::UnknownNumber),
        Act::RefusedLook(0, 1, WireRefusal::ForeignNumber),
        Act::RefusedLook(0, 0, WireRefusal::WrongKind),
        Act::RefusedStep(1, WireRefusal::AtRest),
    ],
};

const PLAN_AND_TERMS_OF_ONES_ARE_WHOLE: PlanRows<'static> = PlanRows {
    name: "plan_and_terms_of_ones_are_whole",
    service: NO_OVERFLOW,
    rows: &[Row::IsPlan(true), Row::IsWhole(true)],
};

const PORT_WITHOUT_A_SLOT_IS_NOT_WHOLE: PlanRows<'static> = PlanRows {
    name: "port_without_a_slot_is_not_whole",
    service: NO_OVERFLOW,
    rows: &[
        Row::Changes(Change::Pools),
        Row::IsPlan(true),
        Row::IsWhole(false),
    ],
};

const PORTS_OF_ONE_NUMBER_ARE_NO_PLAN: PlanRows<'static> = PlanRows {
    name: "ports_of_one_number_are_no_plan",
    service: NO_OVERFLOW,
    rows: &[Row::Changes(Change::Numbers), Row::IsPlan(false)],
};

const TERMS_OF_ONE_PORT_ARE_TOO_FEW: PlanRows<'static> = PlanRows {
    name: "terms_of_one_port_are_too_few",
    service: NO_OVERFLOW,
    rows: &[Row::Changes(Change::Terms), Row::IsWhole(false)],
};

/// The queues of responses and then those of requests get no room. That is whole once they do not
/// overflow. But no service has such a limit, so no wire is made of it.
const QUEUES_THAT_OVERFLOW_WITHOUT_ROOM_ARE_NOT_WHOLE: PlanRows<'static> = PlanRows {
    name: "queues_that_overflow_without_room_are_not_whole",
    service: OVERFLOW,
    rows: &[
        Row::IsWhole(true),
        Row::Refuses(None),
        Row::Changes(Change::Limit(Limit::ResponseBuffer, 0)),
        Row::IsWhole(false),
        Row::Changes(Change::ResponseOverflow),
        Row::IsWhole(true),
        Row::Refuses(LIMIT_OF_ZERO),
        Row::Changes(Change::Limit(Limit::ResponseBuffer, 1)),
        Row::Refuses(None),
        Row::Changes(Change::Limit(Limit::ActiveRequests, 0)),
        Row::IsWhole(false),
        Row::Changes(Change::RequestOverflow),
        Row::IsWhole(true),
        Row::Refuses(LIMIT_OF_ZERO),
    ],
};

const REQUEST_OF_2_TO_THE_63_BYTES_HAS_NO_LAYOUT: PlanRows<'static> = PlanRows {
    name: "request_of_2_to_the_63_bytes_has_no_layout",
    service: NO_OVERFLOW,
    rows: &[
        Row::HaveLayouts(true),
        // an element is a word, and 9 words are in front of it
        Row::Changes(Change::Longest(0, (1 << 60) - 10, (1 << 60) - 1)),
        Row::IsPlan(true),
        Row::HaveLayouts(true),
        Row::Changes(Change::Longest(0, (1 << 60) - 9, 1 << 60)),
        Row::IsPlan(true),
        Row::HaveLayouts(false),
    ],
};

const LIMIT_OF_ZERO: Option<WireNewError> = Some(WireNewError::LimitOfZero);

const WRONG_HEADER: Option<WireNewError> = Some(WireNewError::WrongHeader);

const UNSUITABLE_ALIGNMENT: Option<WireNewError> = Some(WireNewError::UnsuitableAlignment);

/// All else that a caller can test of the plan is well. Numbers are told before a header.
const MESSAGES_OF_ANOTHER_HEADER_ARE_REFUSED: PlanRows<'static> = PlanRows {
    name: "messages_of_another_header_are_refused",
    service: NO_OVERFLOW,
    rows: &[
        Row::Refuses(None),
        // a word more than a request's
        Row::Changes(Change::Part(Role::Client, Part::Header, 64, 8)),
        Row::Changes(Change::Longest(0, 1, 11)),
        Row::IsWhole(true),
        Row::HaveLayouts(true),
        Row::Refuses(WRONG_HEADER),
        // a request with a response's
        Row::Changes(Change::Part(Role::Client, Part::Header, 48, 8)),
        Row::Changes(Change::Longest(0, 1, 9)),
        Row::Refuses(WRONG_HEADER),
        Row::Changes(Change::FirstNumber(1)),
        Row::Refuses(Some(WireNewError::NumberTaken)),
        Row::Changes(Change::FirstNumber(2)),
        // none of another name is asked for
        Row::Changes(Change::Part(Role::Client, Part::Header, 56, 8)),
        Row::Changes(Change::Longest(0, 1, 10)),
        Row::Refuses(None),
        // a response with a request's
        Row::Changes(Change::Part(Role::Server, Part::Header, 56, 8)),
        Row::Changes(Change::Longest(1, 1, 10)),
        Row::IsWhole(true),
        Row::HaveLayouts(true),
        Row::Refuses(WRONG_HEADER),
        Row::Changes(Change::Part(Role::Server, Part::Header, 48, 8)),
        Row::Changes(Change::Longest(1, 1, 9)),
        Row::Refuses(None),
    ],
};

/// Slots have the same words for it. A header is told before an alignment.
const PARTS_THAT_ARE_ALIGNED_TO_4_BYTES_ARE_REFUSED: PlanRows<'static> = PlanRows {
    name: "parts_that_are_aligned_to_4_bytes_are_refused",
    service: NO_OVERFLOW,
    rows: &[
        Row::Changes(Change::Part(Role::Client, Part::Payload, 8, 4)),
        Row::IsWhole(true),
        Row::HaveLayouts(true),
        Row::Refuses(UNSUITABLE_ALIGNMENT),
        Row::Changes(Change::Part(Role::Client, Part::Payload, 8, 8)),
        Row::Changes(Change::Part(Role::Client, Part::UserHeader, 0, 4)),
        Row::Refuses(UNSUITABLE_ALIGNMENT),
        Row::Changes(Change::Part(Role::Client, Part::UserHeader, 0, 8)),
        Row::Changes(Change::Part(Role::Client, Part::Header, 56, 4)),
        Row::Refuses(UNSUITABLE_ALIGNMENT),
        Row::Changes(Change::Part(Role::Client, Part::Header, 56, 8)),
        Row::Refuses(None),
        Row::Changes(Change::Part(Role::Server, Part::Header, 48, 4)),
        Row::Refuses(UNSUITABLE_ALIGNMENT),
        Row::Changes(Change::Part(Role::Server, Part::Header, 48, 8)),
        Row::Changes(Change::Part(Role::Server, Part::UserHeader, 0, 4)),
        Row::Refuses(UNSUITABLE_ALIGNMENT),
        Row::Changes(Change::Part(Role::Server, Part::UserHeader, 0, 8)),
        Row::Changes(Change::Part(Role::Server, Part::Payload, 8, 4)),
        Row::Refuses(UNSUITABLE_ALIGNMENT),
        Row::Changes(Change::Part(Role::Server, Part::Header, 40, 8)),
        Row::Changes(Change::Longest(1, 1, 8)),
        Row::Refuses(WRONG_HEADER),
    ],
};

#[test]
fn plans_whose_messages_do_not_suit_are_refused(rt: HostRuntime) -> Result<(), Fail> {
    const PLANS: &[PlanRows<'static>] = &[
        MESSAGES_OF_ANOTHER_HEADER_ARE_REFUSED,
        PARTS_THAT_ARE_ALIGNED_TO_4_BYTES_ARE_REFUSED,
    ];
    of_their_plans(&rt, PLANS)
}

#[test]
fn plans_and_terms_are_whole_or_not(rt: HostRuntime) -> Result<(), Fail> {
    const PLANS: &[PlanRows<'static>] = &[
        PLAN_AND_TERMS_OF_ONES_ARE_WHOLE,
        PORT_WITHOUT_A_SLOT_IS_NOT_WHOLE,
        PORTS_OF_ONE_NUMBER_ARE_NO_PLAN,
        TERMS_OF_ONE_PORT_ARE_TOO_FEW,
        QUEUES_THAT_OVERFLOW_WITHOUT_ROOM_ARE_NOT_WHOLE,
        REQUEST_OF_2_TO_THE_63_BYTES_HAS_NO_LAYOUT,
    ];
    of_their_plans(&rt, PLANS)
}

#[test]
fn wire_of_ones_is_looked_at(rt: HostRuntime) -> Result<(), Fail> {
    const PLAYS: &[Play<'static>] = &[
        WIRE_OF_ONES_HAS_165_WORDS,
        SERVER_FINDS_NO_REQUEST_IN_TWO_STEPS,
        BEGIN_IS_REFUSED_BY_WHAT_IT_NAMES,
    ];
    plays_all(&rt, PLAYS)
}
