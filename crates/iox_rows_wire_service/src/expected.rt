//! What a test asks for. These promise nothing, so that nothing of it stands in what comes after: a
//! test of many calls is checked many times faster.
use std::fmt::Debug;
use std::process::Abort;

/// Ends the test if a value is not the wanted one.
pub fn equal<T: PartialEq + Debug + Drop>(rt: &impl Abort, value: T, wanted: T) {
    assert_eq!(rt; value, wanted);
}

/// Ends the test if this is not so.
pub fn holds(rt: &impl Abort, fact: bool) {
    assert!(rt; fact);
}

/// Ends the test if what comes at that place is not what is wanted, and shows it.
pub fn is_wanted<T: Debug>(rt: &impl Abort, place: usize, value: &T, fact: bool) {
    assert!(rt; fact, "{place}: {value:?}");
}
