//! What a test asks for. But for `is_so` these promise nothing, so that nothing of it stands in
//! what comes after: a test of many calls is checked many times faster.
ghost use Rattle.std.specs.Prelude.{◌≡◌, true};

use std::alloc::Global;
use std::fmt::{Debug, Display};
use std::process::Abort;

/// Ends the test if a value is not the wanted one.
pub fn equal<T: PartialEq + Debug + Drop>(rt: &impl Abort, value: T, wanted: T) {
    assert_eq!(rt; value, wanted);
}

/// Ends the test if this is not so.
pub fn holds(rt: &impl Abort, fact: bool) {
    assert!(rt; fact);
}

/// The same, where a call behind it asks for the fact.
pub fn is_so(rt: &impl Abort, fact: bool)
    ensures { fact ≡ true }
{
    assert!(rt; fact);
}

/// Ends the test if a value is shown otherwise.
pub fn shows<T: Display>(rt: &impl Abort, alloc: Global, value: &T, wanted: &str) {
    let shown = format!(in alloc; "{value}").expect(rt, "memory");
    equal(rt, shown.as_str(), wanted);
}

/// The same of each value.
pub fn are_shown<T: Display>(rt: &impl Abort, alloc: Global, rows: &[(T, &str)]) {
    for (value, wanted) in rows {
        shows(rt, alloc, value, wanted);
    }
}

/// Ends the test if `Debug` shows a value otherwise.
pub fn debugs<T: Debug>(rt: &impl Abort, alloc: Global, value: &T, wanted: &str) {
    let shown = format!(in alloc; "{value:?}").expect(rt, "memory");
    equal(rt, shown.as_str(), wanted);
}
