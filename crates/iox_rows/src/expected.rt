//! What a test asks for. These promise nothing, so that nothing of it stands in what comes after: a
//! test of many calls is checked many times faster.
use std::alloc::Global;
use std::fmt::{Debug, Display};
use std::process::Abort;

/// Ends the test if a value is not the wanted one.
pub fn equal<T: PartialEq + Debug + Drop>(rt: &impl Abort, value: T, wanted: T) {
    assert_eq!(rt; value, wanted);
}

/// Ends the test if this is not so.
pub fn holds(rt: &impl Abort, fact: bool) {
    assert!(rt; fact);
}

/// Ends the test if this is not so of what stands at a place of the row of this name.
pub fn is_so(rt: &impl Abort, name: &str, place: usize, fact: bool) {
    assert!(rt; fact, "{name}: {place}");
}

/// Ends the test if a value prints otherwise.
pub fn prints(rt: &impl Abort, alloc: Global, value: &impl Display, wanted: &str) {
    let text = value.to_string(alloc).expect(rt, wanted);
    equal(rt, text.as_str(), wanted);
}
