//! Who opens a service, fit and unfit.
use super::starts::own_types;
use crate::expected::holds;
use iceoryx2_wire::{
    AttributeKey, AttributeValue, AttributeVerifier, MessageTypeDetails, MessageTypes, Opener,
    TypeDetail, TypeVariant,
};
use std::alloc::Global;
use std::process::Abort;

/// Requires a pair.
fn require(rt: &impl Abort, verifier: &mut AttributeVerifier, key: &str, value: &str) {
    let key = AttributeKey::new(key).expect(rt, "a key");
    let value = AttributeValue::new(value).expect(rt, "a value");
    holds(rt, verifier.try_require(&key, &value).is_ok());
}

/// Requires a key.
fn require_key(rt: &impl Abort, verifier: &mut AttributeVerifier, key: &str) {
    let key = AttributeKey::new(key).expect(rt, "a key");
    holds(rt, verifier.try_require_key(&key).is_ok());
}

/// Messages of bytes, with this header.
fn bytes(rt: &impl Abort, header: TypeDetail) -> MessageTypeDetails {
    let made = MessageTypeDetails::from::<u64, (), u8>(TypeVariant::Dynamic);
    let of_bytes = made.expect(rt, "types");
    MessageTypeDetails { header, ..of_bytes }
}

/// The service's own types, but for requests or responses of bytes.
pub(super) fn types(rt: &impl Abort, requests: bool, responses: bool) -> MessageTypes {
    let MessageTypes { request, response } = own_types(rt);
    MessageTypes {
        request: if requests {
            bytes(rt, request.header)
        } else {
            request
        },
        response: if responses {
            bytes(rt, response.header)
        } else {
            response
        },
    }
}

/// Whether its requests and its responses are of bytes, the pairs that it requires, and the keys.
type Opens = (
    (bool, bool),
    &'static [(&'static str, &'static str)],
    &'static [&'static str],
);

/// All that open a service.
const OPENERS: &[Opens] = &[
    ((false, false), &[], &[]),
    ((false, false), &[("a", "9")], &[]),
    ((true, false), &[("a", "9")], &[]),
    ((false, true), &[("a", "9")], &[]),
    ((true, true), &[("a", "9")], &[]),
    ((false, false), &[("b", "3"), ("a", "2")], &["c"]),
    ((false, false), &[("b", "2")], &["a", "d", "c"]),
    ((false, false), &[("b", "2"), ("a", "1")], &["b"]),
];

/// The place of one that fits: it requires nothing.
pub(super) const FITS: usize = 0;

/// That of one that requires a pair that no service here has.
pub(super) const UNFIT: usize = 1;

/// Those of three that do so too, and whose requests are of bytes, or whose responses are, or both.
pub(super) const REQUESTS: usize = 2;

pub(super) const RESPONSES: usize = 3;

pub(super) const BOTH: usize = 4;

/// That of one that requires two missing pairs and a missing key.
pub(super) const PAIRS: usize = 5;

/// That of one that requires two missing keys.
pub(super) const KEYS: usize = 6;

/// That of one that requires what a service has.
pub(super) const MET: usize = 7;

/// A verifier that requires these pairs and these keys.
fn requiring(rt: &impl Abort, pairs: &[(&str, &str)], keys: &[&str]) -> AttributeVerifier {
    let mut verifier = AttributeVerifier::new();
    for (key, value) in pairs {
        require(rt, &mut verifier, key, value);
    }
    for key in keys {
        require_key(rt, &mut verifier, key);
    }
    verifier
}

/// That opener.
fn opener(rt: &impl Abort, opens: &Opens) -> Opener {
    let ((requests, responses), pairs, keys) = *opens;
    Opener {
        types: types(rt, requests, responses),
        verifier: requiring(rt, pairs, keys),
    }
}

/// All of them.
pub(super) fn openers(rt: &impl Abort, alloc: Global) -> Vec<Opener> {
    let mut openers = Vec::new(alloc);
    for opens in OPENERS {
        let opener = opener(rt, opens);
        holds(rt, openers.push(opener).is_ok());
    }
    openers
}
