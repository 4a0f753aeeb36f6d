//! A join of which attributes are asked.
use super::TheService;
use super::asking::nodes;
use super::service::{SETTINGS, id, with};
use crate::expected::{equal, holds};
use iox_attributes::{AttributeSpecifier, AttributeVerificationError, AttributeVerifier};
use iox_model::reply::Refusal;
use iox_names::attribute::{AttributeKey, AttributeValue};
use iox_openers::{MessageTypes, ServiceDescription};
use iox_types::{MessageTypeDetails, TypeVariant};
use std::alloc::Global;
use std::process::Abort;

type Cause<'a> = AttributeVerificationError<'a>;

/// A message of one number.
fn number(rt: &impl Abort) -> MessageTypeDetails {
    let number = MessageTypeDetails::from::<u64, (), u64>(TypeVariant::FixedSize);
    number.expect(rt, "a message type")
}

fn types(rt: &impl Abort) -> MessageTypes {
    MessageTypes {
        request: number(rt),
        response: number(rt),
    }
}

fn key(rt: &impl Abort, text: &str) -> AttributeKey {
    AttributeKey::new(text).expect(rt, "a key")
}

fn value(rt: &impl Abort, text: &str) -> AttributeValue {
    AttributeValue::new(text).expect(rt, "a value")
}

/// Types, and the pairs (a, 1) and (b, 2).
fn description(rt: &impl Abort) -> ServiceDescription {
    let mut attributes = AttributeSpecifier::new();
    for (name, text) in [("a", "1"), ("b", "2")] {
        holds(
            rt,
            attributes
                .try_define(&key(rt, name), &value(rt, text))
                .is_ok(),
        );
    }
    ServiceDescription {
        types: types(rt),
        attributes,
    }
}

/// What an opener requires: these pairs and this key.
fn requiring(rt: &impl Abort, pairs: &[(&str, &str)], name: &str) -> AttributeVerifier {
    let mut verifier = AttributeVerifier::new();
    for (name, text) in pairs {
        holds(
            rt,
            verifier
                .try_require(&key(rt, *name), &value(rt, *text))
                .is_ok(),
        );
    }
    holds(rt, verifier.try_require_key(&key(rt, name)).is_ok());
    verifier
}

/// What a join is answered.
type Answer<'a> = Result<u64, Refusal<Cause<'a>>>;

/// What a node is answered that joins and requires this of types that fit.
fn join<'a>(
    rt: &impl Abort,
    service: &mut TheService,
    verifier: &'a AttributeVerifier,
) -> Answer<'a> {
    let asked = description(rt).opener_refusal(&types(rt), verifier);
    service.join(id(2), asked)
}

/// Ends the test where other nodes are there.
fn lists(rt: &impl Abort, alloc: Global, service: &TheService, wanted: &[u64]) {
    let listed = nodes(rt, alloc, service);
    equal(rt, listed.as_slice(), wanted);
}

/// Ends the test where an opener that requires this is answered otherwise, or where other nodes are
/// there then.
fn answers(
    rt: &impl Abort,
    alloc: Global,
    service: &mut TheService,
    verifier: &AttributeVerifier,
    wanted: (Answer<'_>, &[u64]),
) {
    let (answer, there) = wanted;
    equal(rt, join(rt, service, verifier), answer);
    lists(rt, alloc, service, there);
}

/// An opener that requires this is refused for that cause. Then the next that joins is number 1.
fn is_refused(rt: &impl Abort, alloc: Global, verifier: &AttributeVerifier, cause: Cause<'_>) {
    let mut service = with(rt, alloc, SETTINGS);
    let refused = Err(Refusal::IncompatibleAttributes(cause));
    answers(rt, alloc, &mut service, verifier, (refused, &[0]));
    let none = AttributeVerifier::new();
    answers(rt, alloc, &mut service, &none, (Ok(1), &[0, 1]));
}

/// An opener that requires this joins, and is number 1.
fn is_let_in(rt: &impl Abort, alloc: Global, verifier: &AttributeVerifier) {
    let mut service = with(rt, alloc, SETTINGS);
    answers(rt, alloc, &mut service, verifier, (Ok(1), &[0, 1]));
}

#[test]
fn an_opener_is_told_the_least_missing_pair(rt: HostRuntime) {
    let (a, two) = (key(&rt, "a"), value(&rt, "2"));
    let opener = requiring(&rt, &[("b", "3"), ("a", "2")], "c");
    let missing = AttributeVerificationError::IncompatibleAttribute(&a, &two);
    is_refused(&rt, rt.alloc(), &opener, missing);
}

#[test]
fn an_opener_is_told_a_missing_key(rt: HostRuntime) {
    let c = key(&rt, "c");
    let opener = requiring(&rt, &[("b", "2")], "c");
    let missing = AttributeVerificationError::NonExistingKey(&c);
    is_refused(&rt, rt.alloc(), &opener, missing);
}

#[test]
fn an_opener_with_the_attributes_joins(rt: HostRuntime) {
    let opener = requiring(&rt, &[("b", "2"), ("a", "1")], "b");
    is_let_in(&rt, rt.alloc(), &opener);
}
