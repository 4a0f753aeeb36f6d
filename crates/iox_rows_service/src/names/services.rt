use super::are_ordered;
use crate::expected::{are_shown, debugs, equal, holds, shows};
use iox_names::attribute::{Attribute, AttributeKey, AttributeValue};
use iox_names::{
    BoundedName, INTERNAL_SERVICE_PREFIX, MessagingPattern, ServiceHash, ServiceName,
    ServiceNameError,
};
use std::cmp::Ordering;
use std::convert::AsStr;
use std::process::Abort;

const SIXTY_FOUR: &str = "0123456789abcdef0123456789abcdef0123456789abcdef0123456789abcdef";

/// The same in quotation marks.
const QUOTED: &str = "\"0123456789abcdef0123456789abcdef0123456789abcdef0123456789abcdef\"";

const ONE_LESS_THAN_256: &str = "0123456789abcdef0123456789abcdef0123456789abcdef0123456789abcdef\
    0123456789abcdef0123456789abcdef0123456789abcdef0123456789abcdef\
    0123456789abcdef0123456789abcdef0123456789abcdef0123456789abcdef\
    0123456789abcdef0123456789abcdef0123456789abcdef0123456789abcde";

/// A byte more than the name of a service has, and this one is 0.
const ENDS_IN_ZERO: &str = "0123456789abcdef0123456789abcdef0123456789abcdef0123456789abcdef\
    0123456789abcdef0123456789abcdef0123456789abcdef0123456789abcdef\
    0123456789abcdef0123456789abcdef0123456789abcdef0123456789abcdef\
    0123456789abcdef0123456789abcdef0123456789abcdef0123456789abcde\0";

const TWO_HUNDRED_FIFTY_SIX: &str =
    "0123456789abcdef0123456789abcdef0123456789abcdef0123456789abcdef\
    0123456789abcdef0123456789abcdef0123456789abcdef0123456789abcdef\
    0123456789abcdef0123456789abcdef0123456789abcdef0123456789abcdef\
    0123456789abcdef0123456789abcdef0123456789abcdef0123456789abcdef";

/// Why a text is refused, if it is.
type Refused = Option<ServiceNameError>;

const LONG: Refused = Some(ServiceNameError::ExceedsMaximumLength);

const INVALID: Refused = Some(ServiceNameError::InvalidContent);

fn service_name(rt: &impl Abort, text: &str) -> ServiceName {
    ServiceName::new(text).expect(rt, "a name")
}

/// Ends the test where a text is refused otherwise as a name, or the name is another text.
fn comes<N: AsStr>(
    rt: &impl Abort,
    made: &Result<N, ServiceNameError>,
    text: &str,
    refused: Refused,
) {
    match made {
        Ok(name) => equal(rt, (name.as_str(), None), (text, refused)),
        Err(error) => equal(rt, (text, Some(*error)), (text, refused)),
    }
}

/// Ends the test where a text is refused otherwise as the name of a service.
fn is_named(rt: &impl Abort, text: &str, refused: Refused) {
    comes(rt, &ServiceName::new(text), text, refused);
    comes(rt, &ServiceName::try_from(text), text, refused);
}

/// Ends the test where a text is refused otherwise as a key, or as a value.
fn is_key(rt: &impl Abort, text: &str, refused: Refused) {
    comes(rt, &AttributeKey::new(text), text, refused);
    comes(
        rt,
        &AttributeKey::from_bytes(text.as_bytes()),
        text,
        refused,
    );
    comes(rt, &AttributeKey::try_from(text), text, refused);
    comes(rt, &AttributeValue::new(text), text, refused);
}

#[test]
fn a_service_name_has_at_most_255_bytes_from_1_to_127(rt: HostRuntime) {
    const NAMES: &[(&str, Refused)] = &[
        ("radar/left", None),
        ("a", None),
        (ONE_LESS_THAN_256, None),
        ("", INVALID),
        (ENDS_IN_ZERO, LONG),
        ("\u{1}\u{7f}", None),
        ("a\0", INVALID),
        ("\u{80}", INVALID),
        ("iox2://a", INVALID),
        ("a/iox2://", None),
    ];
    for (text, refused) in NAMES {
        is_named(&rt, text, *refused);
    }
    equal(&rt, ServiceName::max_len(), 255);
}

#[test]
fn a_key_has_bytes_from_1_to_127(rt: HostRuntime) {
    const KEYS: &[(&str, Refused)] = &[
        ("iox2://", None),
        ("\u{1}\u{7f}", None),
        ("\0", INVALID),
        ("\u{80}", INVALID),
        ("", INVALID),
    ];
    for (text, refused) in KEYS {
        is_key(&rt, text, *refused);
    }
    equal(&rt, AttributeKey::from_bytes(b"\x80").err(), INVALID);
}

#[test]
fn a_name_has_at_most_as_many_bytes_as_its_type_says(rt: HostRuntime) {
    comes(&rt, &BoundedName::<2>::try_from("ab"), "ab", None);
    comes(&rt, &BoundedName::<2>::try_from("abc"), "abc", LONG);
}

/// Ends the test where these texts are joined otherwise to a key, or to a value.
fn are_joined(rt: &impl Abort, texts: [&str; 3], key: Refused, value: Refused) {
    let [front, back, both] = texts;
    comes(rt, &AttributeKey::joined(front, back), both, key);
    comes(rt, &AttributeValue::joined(front, back), both, value);
}

#[test]
fn a_key_has_at_most_64_bytes_and_a_value_at_most_256(rt: HostRuntime) {
    const JOINED: &[([&str; 3], Refused, Refused)] = &[
        ([SIXTY_FOUR, "", SIXTY_FOUR], None, None),
        ([SIXTY_FOUR, "\0", ""], LONG, INVALID),
        ([ONE_LESS_THAN_256, "f", TWO_HUNDRED_FIFTY_SIX], LONG, None),
        ([ONE_LESS_THAN_256, "fg", ""], LONG, LONG),
        (["", "", ""], INVALID, INVALID),
    ];
    for (texts, key, value) in JOINED {
        are_joined(&rt, *texts, *key, *value);
    }
}

/// Ends the test where a text has the prefix of internal services, or has it not.
fn is_internal(rt: &impl Abort, text: &str, internal: bool) {
    equal(
        rt,
        (text, ServiceName::has_iox2_prefix(text)),
        (text, internal),
    );
}

#[test]
fn the_prefix_is_for_internal_services(rt: HostRuntime) {
    const TEXTS: &[(&str, bool)] = &[("iox2://a", true), ("iox2:/a", false), (" iox2://a", false)];
    for (text, internal) in TEXTS {
        is_internal(&rt, text, *internal);
    }
    equal(&rt, INTERNAL_SERVICE_PREFIX, "iox2://");
    comes(
        &rt,
        &ServiceName::internal_new("iox2://a"),
        "iox2://a",
        None,
    );
    comes(
        &rt,
        &ServiceName::internal_new_prefixed("a"),
        "iox2://a",
        None,
    );
    let longer = ServiceName::internal_new_prefixed(ONE_LESS_THAN_256);
    comes(&rt, &longer, "", LONG);
}

#[test]
fn a_service_name_is_its_bytes(rt: HostRuntime) {
    let name = service_name(&rt, "radar/left");
    shows(&rt, rt.alloc(), &name, "radar/left");
    debugs(&rt, rt.alloc(), &name, "\"radar/left\"");
    are_ordered(
        &rt,
        &name,
        &service_name(&rt, "radar/left"),
        Ordering::Equal,
    );
    let (b, ab) = (service_name(&rt, "b"), service_name(&rt, "ab"));
    are_ordered(&rt, &b, &ab, Ordering::Greater);
}

fn key(rt: &impl Abort, text: &str) -> AttributeKey {
    AttributeKey::new(text).expect(rt, "a key")
}

fn attribute(rt: &impl Abort, (key_text, text): (&str, &str)) -> Attribute {
    let value = AttributeValue::new(text).expect(rt, "a value");
    Attribute::new(&key(rt, key_text), &value)
}

#[test]
fn an_attribute_is_a_key_and_a_value(rt: HostRuntime) {
    let small = attribute(&rt, ("unit", "metre"));
    equal(&rt, small.value().as_str(), "metre");
    debugs(&rt, rt.alloc(), small.value(), "\"metre\"");
    let widest = attribute(&rt, (SIXTY_FOUR, TWO_HUNDRED_FIFTY_SIX));
    equal(&rt, widest.key(), &key(&rt, SIXTY_FOUR));
    equal(&rt, widest.value().as_bytes().len(), 256);
    shows(&rt, rt.alloc(), widest.key(), SIXTY_FOUR);
    debugs(&rt, rt.alloc(), widest.key(), QUOTED);
}

#[test]
fn attributes_are_ordered_by_key_then_value(rt: HostRuntime) {
    const PAIRS: &[((&str, &str), Ordering)] = &[
        (("b", "1"), Ordering::Less),
        (("a", "1"), Ordering::Greater),
        (("a", "2"), Ordering::Equal),
    ];
    for (pair, order) in PAIRS {
        are_ordered(
            &rt,
            &attribute(&rt, ("a", "2")),
            &attribute(&rt, *pair),
            *order,
        );
    }
}

#[test]
fn a_hash_is_that_of_pattern_and_name(rt: HostRuntime) {
    let name = service_name(&rt, "23");
    let hash = ServiceHash::new(&name, MessagingPattern::RequestResponse);
    equal(
        &rt,
        hash.as_str(),
        "40bd001563085fc35165329ea1ff5c5ecbdbbeef",
    );
    equal(&rt, ServiceHash::max_number_of_characters(), 40);
    let name = service_name(&rt, "3");
    let other = ServiceHash::new(&name, MessagingPattern::PublishSubscribe);
    holds(&rt, other != hash);
}

#[test]
fn a_pattern_and_an_error_are_shown(rt: HostRuntime) {
    const PATTERNS: &[(MessagingPattern, &str)] = &[
        (MessagingPattern::RequestResponse, "RequestResponse"),
        (MessagingPattern::PublishSubscribe, "PublishSubscribe"),
        (MessagingPattern::Event, "Event"),
        (MessagingPattern::Blackboard, "Blackboard"),
    ];
    are_shown(&rt, rt.alloc(), PATTERNS);
    const ERRORS: &[(ServiceNameError, &str)] = &[
        (
            ServiceNameError::InvalidContent,
            "ServiceNameError::InvalidContent",
        ),
        (
            ServiceNameError::ExceedsMaximumLength,
            "ServiceNameError::ExceedsMaximumLength",
        ),
    ];
    are_shown(&rt, rt.alloc(), ERRORS);
}
