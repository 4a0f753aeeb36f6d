//! Services that are made, and those that may not be.
use super::asking::nodes;
use super::openers::types;
use super::starts::{SETTINGS, described, description, id, identity, new, own_types};
use super::{TheRefusal, TheService, plain};
use crate::expected::{equal, holds, is_wanted};
use iceoryx2_wire::{MessageTypes, Refusal, Settings, TypeDetail, TypeVariant, UniqueSystemId};
use std::alloc::Global;
use std::process::Abort;

/// Why no service of these types is made, if none is.
fn refusal(
    rt: &impl Abort,
    alloc: Global,
    settings: &Settings,
    types: MessageTypes,
    id: UniqueSystemId,
) -> Option<TheRefusal<'static>> {
    let description = description(rt, types);
    new::<()>(alloc, settings, identity(rt), description, id).err()
}

/// Whether that is the wanted refusal, or none is wanted and there is none.
fn is_that(refused: &Option<TheRefusal<'_>>, wanted: Option<Refusal<()>>) -> bool {
    match refused {
        Some(refusal) => plain(refusal) == wanted && wanted.is_some(),
        None => wanted.is_none(),
    }
}

/// Settings, whether requests and responses are of bytes, the process of a creator, and why no such
/// service is made, if none is.
type Made = (Settings, (bool, bool), u32, Option<Refusal<()>>);

/// Ends the test where the service of that place is refused for another reason, or is made.
fn is_refused(rt: &impl Abort, alloc: Global, place: usize, made: &Made) {
    let (settings, (requests, responses), process, wanted) = *made;
    let types = types(rt, requests, responses);
    let refused = refusal(rt, alloc, &settings, types, id(process));
    is_wanted(rt, place, &refused, is_that(&refused, wanted));
}

/// The same of each.
fn are_refused(rt: &impl Abort, alloc: Global, list: &[Made]) {
    for (place, made) in list.iter().enumerate() {
        is_refused(rt, alloc, place, made);
    }
}

#[test]
fn the_first_test_of_a_creator_that_fails_is_told(rt: HostRuntime) {
    const LARGE: Settings = Settings {
        nodes: 1 << 24,
        ..SETTINGS
    };
    const INVALID: Option<Refusal<()>> = Some(Refusal::InvalidNodeId);
    const REQUEST: Option<Refusal<()>> = Some(Refusal::IncompatibleRequestTypes);
    const RESPONSE: Option<Refusal<()>> = Some(Refusal::IncompatibleResponseTypes);
    const LIMIT: Option<Refusal<()>> = Some(Refusal::LimitTooLarge);
    const LIST: &[Made] = &[
        (LARGE, (true, true), 0, INVALID),
        (LARGE, (true, true), 1, REQUEST),
        (LARGE, (false, true), 1, RESPONSE),
        (LARGE, (false, false), 1, LIMIT),
        (SETTINGS, (false, false), 1, None),
    ];
    are_refused(&rt, rt.alloc(), LIST);
}

/// The service's own types, but numbers of requests are aligned so.
fn aligned(rt: &impl Abort, alignment: usize) -> MessageTypes {
    let mut types = own_types(rt);
    let numbers = TypeDetail::from_parts(TypeVariant::Dynamic, "u64", 8, alignment);
    types.request.payload = numbers.expect(rt, "a type");
    types
}

/// Ends the test where a service with such numbers is refused for another reason, or is made.
fn is_aligned(rt: &impl Abort, alloc: Global, alignment: usize, wanted: Option<Refusal<()>>) {
    let refused = refusal(rt, alloc, &SETTINGS, aligned(rt, alignment), id(1));
    is_wanted(rt, alignment, &refused, is_that(&refused, wanted));
}

#[test]
fn a_creator_reads_where_messages_are_aligned_for_it(rt: HostRuntime) {
    is_aligned(&rt, rt.alloc(), 16, None);
    let refused = Some(Refusal::IncompatibleRequestTypes);
    is_aligned(&rt, rt.alloc(), 4, refused);
}

/// The service a/b is shown by its name and number.
fn shows(rt: &impl Abort, alloc: Global, service: &TheService) {
    let shown = format!(in alloc; "{service:?}").expect(rt, "a text");
    equal(
        rt,
        shown.as_str(),
        "Service { name: \"a/b\", number: 7, .. }",
    );
}

/// It has that name and number, and two attributes.
fn is_named(rt: &impl Abort, service: &TheService) {
    equal(rt, service.name().as_str(), "a/b");
    equal(rt, service.number(), 7);
    let attributes = service.description().attributes.attributes();
    equal(rt, attributes.number_of_attributes(), 2);
}

/// Its numbers are aligned so.
fn has_types(rt: &impl Abort, service: &TheService, wanted: &MessageTypes) {
    holds(rt, service.description().types == *wanted);
}

/// Its first node has number 0.
fn has_first_node(rt: &impl Abort, alloc: Global, service: &TheService) {
    let listed = nodes(rt, alloc, service);
    equal(rt, listed.first().copied(), Some(0));
}

/// All of that, of a service whose numbers of requests are aligned to 16.
fn says(rt: &impl Abort, alloc: Global, service: &TheService) {
    is_named(rt, service);
    has_types(rt, service, &aligned(rt, 16));
    has_first_node(rt, alloc, service);
    shows(rt, alloc, service);
}

#[test]
fn a_service_says_what_its_creator_gave(rt: HostRuntime) {
    let service = described(&rt, rt.alloc(), &SETTINGS, aligned(&rt, 16));
    says(&rt, rt.alloc(), &service);
}
