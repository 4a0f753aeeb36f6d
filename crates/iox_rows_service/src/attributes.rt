use crate::expected::{debugs, equal, shows};
use iox_attributes::{
    AttributeDefinitionError, AttributeSet, AttributeSpecifier, AttributeVerificationError,
    AttributeVerifier, DefinitionRefusal,
};
use iox_names::attribute::{Attribute, AttributeKey, AttributeValue};
use iox_words::CallbackProgression;
use std::alloc::Global;
use std::process::Abort;

/// A key and a value.
pub type Pair<'a> = (&'a str, &'a str);

const FULL: AttributeDefinitionError = AttributeDefinitionError::ExceedsMaxSupportedAttributes;

/// The key of this text, which has to be one.
pub fn key(rt: &impl Abort, text: &str) -> AttributeKey {
    AttributeKey::new(text).expect(rt, "a key")
}

/// The value of this text, which has to be one.
pub fn value(rt: &impl Abort, text: &str) -> AttributeValue {
    AttributeValue::new(text).expect(rt, "a value")
}

/// An attribute more, if there is room.
fn define(
    rt: &impl Abort,
    specifier: &mut AttributeSpecifier,
    pair: Pair<'_>,
) -> Result<(), AttributeDefinitionError> {
    specifier.try_define(&key(rt, pair.0), &value(rt, pair.1))
}

/// An attribute more that is required, if there is room.
fn require(
    rt: &impl Abort,
    verifier: &mut AttributeVerifier,
    pair: Pair<'_>,
) -> Result<(), AttributeDefinitionError> {
    verifier.try_require(&key(rt, pair.0), &value(rt, pair.1))
}

/// A key more that is required, if there is room.
fn require_key(
    rt: &impl Abort,
    verifier: &mut AttributeVerifier,
    text: &str,
) -> Result<(), AttributeDefinitionError> {
    verifier.try_require_key(&key(rt, text))
}

/// What has these attributes.
pub fn specifier(rt: &impl Abort, pairs: &[Pair<'_>]) -> AttributeSpecifier {
    let mut specifier = AttributeSpecifier::default();
    for pair in pairs {
        equal(rt, define(rt, &mut specifier, *pair), Ok(()));
    }
    specifier
}

/// What requires these attributes, and these keys.
pub fn verifier(rt: &impl Abort, pairs: &[Pair<'_>], keys: &[&str]) -> AttributeVerifier {
    let mut verifier = AttributeVerifier::default();
    for pair in pairs {
        equal(rt, require(rt, &mut verifier, *pair), Ok(()));
    }
    for text in keys {
        equal(rt, require_key(rt, &mut verifier, text), Ok(()));
    }
    verifier
}

/// What is required of the attributes (a, 1) and (b, 2).
struct Row<'a> {
    pairs: &'a [Pair<'a>],
    keys: &'a [&'a str],
    /// What is missing first, if something is.
    missing: Option<&'a str>,
}

/// Ends the test where something else is missing, or nothing is and something should.
pub fn is_missing(
    rt: &impl Abort,
    alloc: Global,
    error: Option<&AttributeVerificationError<'_>>,
    missing: Option<&str>,
) {
    match error {
        Some(error) => shows(rt, alloc, error, missing.unwrap_or("nothing")),
        None => equal(rt, missing, None),
    }
}

/// Ends the test where another thing is missing, or what is required is not kept.
fn verifies(rt: &impl Abort, alloc: Global, set: &AttributeSet, row: &Row<'_>) {
    let verifier = verifier(rt, row.pairs, row.keys);
    let verdict = verifier.verify_requirements(set);
    is_missing(rt, alloc, verdict.as_ref().err(), row.missing);
    equal(
        rt,
        (
            row.missing,
            verifier.required_attributes().number_of_attributes(),
            verifier.required_keys().len(),
        ),
        (row.missing, row.pairs.len(), row.keys.len()),
    );
}

const DEFINED: &[Pair<'static>] = &[("a", "1"), ("b", "2")];

#[test]
fn what_is_missing_first_is_told(rt: HostRuntime) {
    const ROWS: &[Row<'static>] = &[
        Row {
            pairs: &[("b", "3"), ("a", "2")],
            keys: &["c"],
            missing: Some("AttributeVerificationError::IncompatibleAttribute(a, 2)"),
        },
        Row {
            pairs: &[("a", "1"), ("a", "1")],
            keys: &["d", "c"],
            missing: Some("AttributeVerificationError::NonExistingKey(d)"),
        },
        Row {
            pairs: &[("a", "1"), ("a", "1")],
            keys: &["b"],
            missing: None,
        },
        Row {
            pairs: &[],
            keys: &[],
            missing: None,
        },
    ];
    let specifier = specifier(&rt, DEFINED);
    for row in ROWS {
        verifies(&rt, rt.alloc(), specifier.attributes(), row);
    }
}

#[test]
fn a_missing_key_is_that_of_the_verifier(rt: HostRuntime) {
    let specifier = specifier(&rt, DEFINED);
    let verifier = verifier(&rt, &[("a", "1")], &["d", "c"]);
    let d = key(&rt, "d");
    let error = AttributeVerificationError::NonExistingKey(&d);
    equal(
        &rt,
        verifier.verify_requirements(specifier.attributes()),
        Err(error),
    );
}

/// Five pairs in their order.
const SORTED: &[Pair<'static>] = &[("a", "10"), ("a", "2"), ("a", "2"), ("ab", "1"), ("b", "1")];

/// Ends the test where an attribute of the set is another one.
fn is_at(rt: &impl Abort, set: &AttributeSet, place: usize, pair: Pair<'_>) {
    let wanted = Attribute::new(&key(rt, pair.0), &value(rt, pair.1));
    equal(rt, set.get(place), Some(&wanted));
    equal(rt, set.as_slice().get(place), Some(&wanted));
}

/// Ends the test where a set does not have the five pairs in their order.
fn is_sorted(rt: &impl Abort, set: &AttributeSet) {
    equal(
        rt,
        (set.number_of_attributes(), set.as_slice().len()),
        (5, 5),
    );
    for (place, pair) in SORTED.iter().enumerate() {
        is_at(rt, set, place, *pair);
    }
}

/// How many values of a key are visited, where the visit is stopped at the value 2.
fn visited(set: &AttributeSet, key: &AttributeKey) -> u8 {
    let mut count: u8 = 0;
    set.iter_key_values(key, |value| {
        count = count.wrapping_add(1);
        if value.as_str() == "2" {
            CallbackProgression::Stop
        } else {
            CallbackProgression::Continue
        }
    });
    count
}

/// Ends the test where a key has another value of that number.
fn has_value(rt: &impl Abort, set: &AttributeSet, index: usize, text: &str) {
    equal(
        rt,
        set.key_value(&key(rt, "a"), index),
        Some(&value(rt, text)),
    );
}

/// Ends the test where the key a does not have its three values.
fn has_values(rt: &impl Abort, set: &AttributeSet) {
    has_value(rt, set, 0, "10");
    has_value(rt, set, 2, "2");
    let a = key(rt, "a");
    equal(rt, set.key_value(&a, 3), None);
    equal(rt, set.number_of_key_values(&a), 3);
    equal(rt, visited(set, &a), 2);
}

/// Ends the test where a set of these pairs is not the same, or is the same.
fn is_same(rt: &impl Abort, set: &AttributeSet, pairs: &[Pair<'_>], fact: bool) {
    equal(rt, set == specifier(rt, pairs).attributes(), fact);
}

#[test]
fn a_set_is_sorted_and_keeps_repeats(rt: HostRuntime) {
    const PAIRS: &[Pair<'static>] = &[("b", "1"), ("a", "2"), ("ab", "1"), ("a", "10"), ("a", "2")];
    const OTHER_WAY: &[Pair<'static>] = &[
        ("a", "2"),
        ("a", "10"),
        ("ab", "1"),
        ("a", "2"),
        ("b", "1"),
    ];
    const ONCE: &[Pair<'static>] = &[("a", "2"), ("a", "10"), ("ab", "1"), ("b", "1")];
    let specifier = specifier(&rt, PAIRS);
    let set = specifier.attributes();
    is_sorted(&rt, set);
    has_values(&rt, set);
    is_same(&rt, set, OTHER_WAY, true);
    is_same(&rt, set, ONCE, false);
    is_same(&rt, set, &[], false);
}

/// Ends the test where something is missing.
fn is_met(rt: &impl Abort, verifier: &AttributeVerifier, set: &AttributeSet) {
    equal(rt, verifier.verify_requirements(set), Ok(()));
}

#[test]
fn builders_are_chained(rt: HostRuntime) {
    let (key, value) = (key(&rt, "a"), value(&rt, "1"));
    let specifier = AttributeSpecifier::new()
        .define(&key, &value)
        .expect(&rt, "room");
    debugs(
        &rt,
        rt.alloc(),
        &specifier,
        "AttributeSpecifier { attributes: [Attribute { key: \"a\", value: \"1\" }] }",
    );
    let verifier = AttributeVerifier::new()
        .require(&key, &value)
        .expect(&rt, "room");
    let verifier = verifier.require_key(&key).expect(&rt, "room");
    is_met(&rt, &verifier, specifier.attributes());
    debugs(
        &rt,
        rt.alloc(),
        &verifier,
        "AttributeVerifier { attributes: [Attribute { key: \"a\", value: \"1\" }], keys: [\"a\"] }",
    );
}

/// Ends the test where a full builder takes another attribute, or changes.
fn stays_full(rt: &impl Abort, builder: &mut AttributeSpecifier) {
    equal(rt, builder.attributes().is_full(), true);
    equal(rt, define(rt, builder, ("b", "2")), Err(FULL));
    equal(
        rt,
        builder.attributes().number_of_attributes(),
        AttributeSet::capacity(),
    );
    equal(
        rt,
        builder.attributes().number_of_key_values(&key(rt, "b")),
        0,
    );
}

#[test]
fn a_refusal_hands_the_builder_back(rt: HostRuntime) {
    let mut specifier = specifier(&rt, &[("a", "1"); 64]);
    stays_full(&rt, &mut specifier);
    let refused = specifier.define(&key(&rt, "b"), &value(&rt, "2"));
    let mut refusal = refused.expect_err(&rt, "full");
    shows(
        &rt,
        rt.alloc(),
        &refusal,
        "AttributeDefinitionError::ExceedsMaxSupportedAttributes",
    );
    debugs(
        &rt,
        rt.alloc(),
        &refusal,
        "DefinitionRefusal { error: ExceedsMaxSupportedAttributes, .. }",
    );
    equal(&rt, refusal.error, FULL);
    stays_full(&rt, &mut refusal.builder);
}

/// Ends the test where a verifier does not have 64 attributes and 64 keys.
fn is_full(rt: &impl Abort, refusal: &DefinitionRefusal<AttributeVerifier>) {
    equal(
        rt,
        (
            refusal.builder.required_keys().len(),
            refusal.builder.required_attributes().number_of_attributes(),
        ),
        (64, 64),
    );
}

#[test]
fn a_full_verifier_is_handed_back(rt: HostRuntime) {
    let verifier = verifier(&rt, &[("a", "1"); 64], &["a"; 64]);
    let refused = verifier.require(&key(&rt, "b"), &value(&rt, "2"));
    let refusal = refused.expect_err(&rt, "full");
    is_full(&rt, &refusal);
    let refusal = refusal
        .builder
        .require_key(&key(&rt, "b"))
        .expect_err(&rt, "full");
    is_full(&rt, &refusal);
    equal(&rt, AttributeDefinitionError::from(refusal), FULL);
}
