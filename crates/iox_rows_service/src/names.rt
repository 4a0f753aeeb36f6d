//! Texts and names: what no clause says, and each function once.
mod services;
mod texts;

use crate::expected::equal;
use std::cmp::Ordering;
use std::hash::{DefaultHasher, Hash, Hasher};
use std::process::Abort;

fn hash_of<T: Hash>(value: &T) -> u64 {
    let mut hasher = DefaultHasher::new();
    value.hash(&mut hasher);
    hasher.finish()
}

/// Ends the test where two values are ordered otherwise, or are hashed apart though they are equal.
fn are_ordered<T: PartialOrd + Hash>(rt: &impl Abort, first: &T, second: &T, order: Ordering) {
    equal(
        rt,
        (first < second, first == second, first > second),
        (order.is_lt(), order.is_eq(), order.is_gt()),
    );
    if order.is_eq() {
        equal(rt, hash_of(first), hash_of(second));
    }
}
