use crate::expected::{are_shown, equal, holds, is_so, shows};
use iox_types::identifiers::{
    Time, UniqueClientId, UniqueListenerId, UniqueNodeId, UniqueNodeIdError, UniquePortId,
    UniqueServerId, UniqueServiceId, UniqueSystemId,
};
use iox_types::{
    MessageTypeDetails, RequestHeader, RequestId, ResponseHeader, TypeDetail, TypeDetailError,
    TypeVariant,
};
use iox_words::{Words, ZeroCopySend};
use std::process::Abort;

const FIRST: UniqueSystemId = UniqueSystemId {
    process: 1,
    seconds: 2,
    nanoseconds: 3,
    counter: 4,
};

const LAST: UniqueSystemId = UniqueSystemId {
    process: u32::MAX,
    seconds: u32::MAX,
    nanoseconds: u32::MAX,
    counter: u32::MAX,
};

/// The number of the first.
const FIRST_VALUE: u128 = 0x0000_0001_0000_0002_0000_0003_0000_0004;

fn node(rt: &impl Abort) -> UniqueNodeId {
    UniqueNodeId::new(FIRST).expect(rt, "a node")
}

#[test]
fn a_node_is_its_four_numbers(rt: HostRuntime) {
    const MADE: Time = Time {
        seconds: 2,
        nanoseconds: 3,
    };
    let id = node(&rt);
    equal(
        &rt,
        (id.value(), id.pid(), id.creation_time(), id.system_id()),
        (FIRST_VALUE, 1, MADE, FIRST),
    );
    shows(&rt, rt.alloc(), &id, "00000001000000020000000300000004");
}

#[test]
fn a_port_is_its_four_numbers(rt: HostRuntime) {
    let client = UniqueClientId::new(LAST);
    equal(
        &rt,
        (client.value(), client.pid(), client.system_id()),
        (u128::MAX, u32::MAX, LAST),
    );
    shows(&rt, rt.alloc(), &client, "ffffffffffffffffffffffffffffffff");
    let listener = UniqueListenerId::new(FIRST);
    equal(
        &rt,
        [
            UniquePortId::Client(client).value(),
            UniquePortId::Listener(listener).value(),
        ],
        [u128::MAX, FIRST_VALUE],
    );
    holds(
        &rt,
        UniqueServiceId::new(FIRST) < UniqueServiceId::new(LAST),
    );
}

#[test]
fn a_node_has_a_process_number_or_a_counter(rt: HostRuntime) {
    const NODES: &[(UniqueSystemId, Option<UniqueNodeIdError>)] = &[
        (
            UniqueSystemId {
                process: 0,
                counter: 0,
                ..FIRST
            },
            Some(UniqueNodeIdError::InvalidNodeId),
        ),
        (
            UniqueSystemId {
                process: 0,
                ..FIRST
            },
            None,
        ),
        (
            UniqueSystemId {
                counter: 0,
                ..FIRST
            },
            None,
        ),
    ];
    for (id, refused) in NODES {
        equal(&rt, (id, UniqueNodeId::new(*id).err()), (id, *refused));
    }
    holds(&rt, UniqueNodeId::of_words(&[2, 3 << 32]).is_none());
}

/// Ends the test where a value has other words.
fn has_words<T: Words>(rt: &impl Abort, value: T, words: &[u64]) {
    equal(rt, T::WORDS, words.len());
    for index in 0..T::WORDS {
        equal(rt, words.get(index), Some(&value.word(index)));
    }
    holds(rt, T::of_words(words).is_some());
}

fn request_id(rt: &impl Abort, value: u64) -> RequestId {
    RequestId::new(value).expect(rt, "a number of a request")
}

#[test]
fn a_header_of_a_request_has_the_words_of_its_fields(rt: HostRuntime) {
    const WORDS: &[u64] = &[4294967298, 12884901892, u64::MAX, u64::MAX, 5, 7, 9];
    let request = RequestHeader {
        node_id: node(&rt),
        client_id: UniqueClientId::new(LAST),
        channel_id: 5,
        request_id: request_id(&rt, 7),
        number_of_elements: 9,
    };
    has_words(&rt, request, WORDS);
    equal(
        &rt,
        (
            request.client_id().value(),
            request.node_id().value(),
            request.number_of_elements(),
        ),
        (u128::MAX, FIRST_VALUE, 9),
    );
    holds(
        &rt,
        RequestHeader::of_words(&[1, 1, 1, 1, 1, 1 << 62, 1]).is_none(),
    );
}

#[test]
fn a_header_of_a_response_has_the_words_of_its_fields(rt: HostRuntime) {
    const WORDS: &[u64] = &[4294967298, 12884901892, u64::MAX, u64::MAX, 7, 1];
    let response = ResponseHeader {
        node_id: node(&rt),
        server_id: UniqueServerId::new(LAST),
        request_id: request_id(&rt, 7),
        number_of_elements: 1,
    };
    has_words(&rt, response, WORDS);
    equal(
        &rt,
        (
            response.server_id().value(),
            response.node_id().value(),
            response.number_of_elements(),
        ),
        (u128::MAX, FIRST_VALUE, 1),
    );
    holds(&rt, ResponseHeader::of_words(&[1, 1, 1, 1, 1]).is_none());
}

#[test]
fn a_request_number_is_below_its_limit(rt: HostRuntime) {
    let last = request_id(&rt, 4611686018427387903);
    equal(
        &rt,
        (last.value(), RequestId::max_value()),
        (4611686018427387903, 4611686018427387904),
    );
    equal(&rt, RequestId::new(4611686018427387904), None);
    has_words(&rt, last, &[4611686018427387903]);
}

/// A type of eight bytes.
fn part(rt: &impl Abort, variant: TypeVariant, name: &str, alignment: usize) -> TypeDetail {
    is_so(rt, TypeDetail::is_name(name));
    TypeDetail::from_parts(variant, name, 8, alignment).expect(rt, "a type")
}

fn detail_of<T: ZeroCopySend>(rt: &impl Abort, variant: TypeVariant) -> TypeDetail {
    TypeDetail::new::<T>(variant).expect(rt, "a type")
}

#[test]
fn a_detail_is_told_by_its_type_or_its_parts(rt: HostRuntime) {
    let detail: TypeDetail = detail_of::<u64>(&rt, TypeVariant::Dynamic);
    equal(
        &rt,
        (
            detail.variant(),
            detail.type_name(),
            detail.size(),
            detail.alignment(),
        ),
        (TypeVariant::Dynamic, "u64", 8, 8),
    );
    let same = part(&rt, TypeVariant::Dynamic, "u64", 8);
    let other = part(&rt, TypeVariant::Dynamic, "u65", 8);
    equal(
        &rt,
        [
            detail.is_compatible_to(&same),
            detail.is_compatible_to(&other),
        ],
        [true, false],
    );
    let request = detail_of::<RequestHeader>(&rt, TypeVariant::FixedSize);
    let response = detail_of::<ResponseHeader>(&rt, TypeVariant::FixedSize);
    equal(&rt, [request.size(), response.size()], [56, 48]);
}

/// Ends the test where a type of that name and alignment is refused otherwise, or has another name.
fn is_part(rt: &impl Abort, name: &str, alignment: usize, refused: Option<TypeDetailError>) {
    is_so(rt, TypeDetail::is_name(name));
    match TypeDetail::from_parts(TypeVariant::FixedSize, name, 1, alignment) {
        Ok(detail) => equal(rt, (detail.type_name(), None), (name, refused)),
        Err(error) => equal(rt, (name, Some(error)), (name, refused)),
    }
}

const LONGEST: &str = "0123456789abcdef0123456789abcdef0123456789abcdef0123456789abcdef\
    0123456789abcdef0123456789abcdef0123456789abcdef0123456789abcdef\
    0123456789abcdef0123456789abcdef0123456789abcdef0123456789abcdef\
    0123456789abcdef0123456789abcdef0123456789abcdef0123456789abcdef";

const LONGER: &str = "x0123456789abcdef0123456789abcdef0123456789abcdef0123456789abcde\
    f0123456789abcdef0123456789abcdef0123456789abcdef0123456789abcde\
    f0123456789abcdef0123456789abcdef0123456789abcdef0123456789abcde\
    f0123456789abcdef0123456789abcdef0123456789abcdef0123456789abcde\
    f";

#[test]
fn a_name_has_at_most_256_bytes(rt: HostRuntime) {
    const PARTS: &[(&str, usize, Option<TypeDetailError>)] = &[
        (LONGEST, 1, None),
        (LONGER, 3, Some(TypeDetailError::NameTooLong)),
        (LONGEST, 3, Some(TypeDetailError::AlignmentNotPowerOfTwo)),
    ];
    for (name, alignment, refused) in PARTS {
        is_part(&rt, name, *alignment, *refused);
    }
}

#[test]
fn a_name_has_bytes_from_1_to_127(rt: HostRuntime) {
    const NAMES: &[(&str, bool)] = &[
        ("u64", true),
        ("\u{1}\u{7f}", true),
        ("", false),
        ("u\0", false),
        ("u\u{80}", false),
    ];
    for (name, fact) in NAMES {
        equal(&rt, (name, TypeDetail::is_name(name)), (name, *fact));
    }
}

/// Messages whose three parts are numbers.
fn numbers(rt: &impl Abort) -> MessageTypeDetails {
    MessageTypeDetails::from::<i64, i64, i64>(TypeVariant::Dynamic).expect(rt, "types")
}

#[test]
fn three_parts_of_i64_take_48_bytes(rt: HostRuntime) {
    let details = numbers(&rt);
    let layout = details.sample_layout(2).expect(&rt, "a layout");
    equal(&rt, (layout.size, layout.alignment), (48, 8));
    equal(
        &rt,
        [layout.size.checked_mul(21), layout.size.checked_mul(22)],
        [Some(1008), Some(1056)],
    );
    equal(
        &rt,
        [
            details.user_header_ptr_from_header(0),
            details.payload_ptr_from_header(0),
        ],
        [8, 16],
    );
}

#[test]
fn a_message_is_no_longer_than_the_longest(rt: HostRuntime) {
    const LENGTHS: &[(usize, bool)] = &[
        (usize::MAX, false),
        (1152921504606846972, false),
        (1152921504606846971, true),
    ];
    let details = numbers(&rt);
    for (length, fact) in LENGTHS {
        equal(&rt, details.sample_layout(*length).is_some(), *fact);
    }
}

#[test]
fn a_greater_alignment_is_compatible_one_way(rt: HostRuntime) {
    let details = MessageTypeDetails::from::<i64, i64, i64>(TypeVariant::FixedSize);
    let details = details.expect(&rt, "types");
    let wide = part(&rt, TypeVariant::FixedSize, "i64", 16);
    let wider = MessageTypeDetails {
        header: details.header,
        user_header: wide,
        payload: wide,
    };
    equal(
        &rt,
        [
            details.is_compatible_to(&wider),
            wider.is_compatible_to(&details),
            wider.is_compatible_to(&wider),
        ],
        [true, false, true],
    );
}

#[test]
fn errors_are_told_by_their_names(rt: HostRuntime) {
    const ERRORS: &[(TypeDetailError, &str)] = &[
        (TypeDetailError::NameTooLong, "TypeDetailError::NameTooLong"),
        (
            TypeDetailError::AlignmentNotPowerOfTwo,
            "TypeDetailError::AlignmentNotPowerOfTwo",
        ),
    ];
    are_shown(&rt, rt.alloc(), ERRORS);
    let error = UniqueNodeIdError::InvalidNodeId;
    shows(&rt, rt.alloc(), &error, "UniqueNodeIdError::InvalidNodeId");
}
