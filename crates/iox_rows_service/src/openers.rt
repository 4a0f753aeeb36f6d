//! What an opener and a creator are refused.
mod callers;

use crate::attributes::{Pair, is_missing, key, specifier, verifier};
use crate::expected::equal;
use callers::suits;
use iox_attributes::{AttributeVerificationError, AttributeVerifier};
use iox_model::reply::Refusal;
use iox_openers::{MessageTypes, ServiceDescription};
use iox_types::{MessageTypeDetails, TypeDetail, TypeVariant};
use std::alloc::Global;
use std::process::Abort;

/// Messages of one number, whose place is a multiple of `alignment`.
fn details(rt: &impl Abort, alignment: usize) -> MessageTypeDetails {
    let details = MessageTypeDetails::from::<i64, (), i64>(TypeVariant::FixedSize);
    let payload = TypeDetail::from_parts(TypeVariant::FixedSize, "i64", 8, alignment);
    MessageTypeDetails {
        payload: payload.expect(rt, "a type"),
        ..details.expect(rt, "types")
    }
}

/// The types of requests and responses with these alignments.
fn types(rt: &impl Abort, alignments: (usize, usize)) -> MessageTypes {
    MessageTypes {
        request: details(rt, alignments.0),
        response: details(rt, alignments.1),
    }
}

/// A service with these alignments, and with the pairs (a, 1) and (b, 2).
fn service(rt: &impl Abort, alignments: (usize, usize)) -> ServiceDescription {
    ServiceDescription {
        types: types(rt, alignments),
        attributes: specifier(rt, &[("a", "1"), ("b", "2")]),
    }
}

/// What comes of it.
#[derive(Clone, Copy)]
enum Came<'a> {
    Fits,
    OtherRequests,
    OtherResponses,
    Missing(&'a str),
}

/// An opener of a service with these alignments, and what is required.
struct Row<'a> {
    service: (usize, usize),
    opener: (usize, usize),
    pairs: &'a [Pair<'a>],
    keys: &'a [&'a str],
    came: Came<'a>,
}

/// Ends the test where the refusal of the row at that place is another one.
fn is_refused(
    rt: &impl Abort,
    alloc: Global,
    place: usize,
    refusal: &Option<Refusal<AttributeVerificationError<'_>>>,
    came: Came<'_>,
) {
    match (refusal, came) {
        (None, Came::Fits) => (),
        (Some(Refusal::IncompatibleRequestTypes), Came::OtherRequests) => (),
        (Some(Refusal::IncompatibleResponseTypes), Came::OtherResponses) => (),
        (Some(Refusal::IncompatibleAttributes(error)), Came::Missing(text)) => {
            is_missing(rt, alloc, Some(error), Some(text));
        }
        _ => equal(rt, (place, false), (place, true)),
    }
}

/// Asks a service what an opener is refused, and ends the test where it is another refusal.
fn asks(
    rt: &impl Abort,
    alloc: Global,
    service: &ServiceDescription,
    verifier: &AttributeVerifier,
    place: usize,
    row: &Row<'_>,
) {
    let types = types(rt, row.opener);
    is_refused(
        rt,
        alloc,
        place,
        &service.opener_refusal(&types, verifier),
        row.came,
    );
    equal(
        rt,
        (place, suits(service, &types, verifier)),
        (place, matches!(row.came, Came::Fits)),
    );
}

/// The same of a new service.
fn opens(rt: &impl Abort, alloc: Global, place: usize, row: &Row<'_>) {
    let service = service(rt, row.service);
    let verifier = verifier(rt, row.pairs, row.keys);
    asks(rt, alloc, &service, &verifier, place, row);
}

/// A service and an opener of the same types, which requires no attributes.
const TYPES: Row<'static> = Row {
    service: (8, 8),
    opener: (8, 8),
    pairs: &[],
    keys: &[],
    came: Came::Fits,
};

#[test]
fn an_opener_is_told_what_it_lacks_first(rt: HostRuntime) {
    const ROWS: &[Row<'static>] = &[
        Row {
            pairs: &[("b", "3"), ("a", "2")],
            keys: &["c"],
            came: Came::Missing("AttributeVerificationError::IncompatibleAttribute(a, 2)"),
            ..TYPES
        },
        Row {
            pairs: &[("a", "1"), ("a", "1")],
            keys: &["d", "c"],
            came: Came::Missing("AttributeVerificationError::NonExistingKey(d)"),
            ..TYPES
        },
        Row {
            pairs: &[("b", "2"), ("a", "1")],
            keys: &["b", "a"],
            ..TYPES
        },
        Row {
            service: (16, 16),
            ..TYPES
        },
        Row {
            service: (16, 16),
            opener: (16, 16),
            ..TYPES
        },
        Row {
            opener: (16, 8),
            came: Came::OtherRequests,
            ..TYPES
        },
        Row {
            opener: (8, 16),
            came: Came::OtherResponses,
            ..TYPES
        },
        Row {
            opener: (16, 16),
            came: Came::OtherRequests,
            ..TYPES
        },
        Row {
            opener: (16, 8),
            pairs: &[("b", "3")],
            keys: &["c"],
            came: Came::OtherRequests,
            ..TYPES
        },
        Row {
            opener: (8, 16),
            pairs: &[("b", "3")],
            keys: &["c"],
            came: Came::OtherResponses,
            ..TYPES
        },
    ];
    for (place, row) in ROWS.iter().enumerate() {
        opens(&rt, rt.alloc(), place, row);
    }
}

#[test]
fn a_missing_key_is_that_of_the_opener(rt: HostRuntime) {
    let service = service(&rt, (8, 8));
    let verifier = verifier(&rt, &[("a", "1")], &["d", "c"]);
    let d = key(&rt, "d");
    let error = AttributeVerificationError::NonExistingKey(&d);
    equal(
        &rt,
        service.opener_refusal(&types(&rt, (8, 8)), &verifier),
        Some(Refusal::IncompatibleAttributes(error)),
    );
}

/// Ends the test where a creator with these alignments is refused otherwise by what it gives.
fn creates(
    rt: &impl Abort,
    alloc: Global,
    place: usize,
    given: (usize, usize),
    own: (usize, usize),
    came: Came<'_>,
) {
    let given = service(rt, given);
    is_refused(
        rt,
        alloc,
        place,
        &given.creator_refusal(&types(rt, own)),
        came,
    );
}

#[test]
fn a_creator_is_compared_to_what_it_gives(rt: HostRuntime) {
    const ROWS: &[((usize, usize), (usize, usize), Came<'static>)] = &[
        ((16, 16), (8, 8), Came::Fits),
        ((16, 16), (16, 16), Came::Fits),
        ((8, 8), (16, 16), Came::OtherRequests),
        ((8, 8), (16, 8), Came::OtherRequests),
        ((8, 8), (8, 16), Came::OtherResponses),
    ];
    for (place, (given, own, came)) in ROWS.iter().enumerate() {
        creates(&rt, rt.alloc(), place, *given, *own, *came);
    }
}
