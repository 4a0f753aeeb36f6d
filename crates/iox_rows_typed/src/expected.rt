//! What a test asks for. These promise nothing, so that nothing of it stands in what comes after: a
//! test of many calls is checked many times faster.
use std::fmt::Debug;
use std::process::Abort;

/// Ends the test if a value is not the wanted one.
pub fn equal<T: PartialEq + Debug + Drop>(rt: &impl Abort, value: T, wanted: T) {
    assert_eq!(rt; value, wanted);
}
