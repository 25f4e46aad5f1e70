//! The assertions of these tests, in functions: a call of one is cheaper to prove than an assertion in place.

use drain_answer::lines::Line;
use std::fmt::Debug;
use std::process::Abort;

/// Fails the test if a line isn't the expected one, and names the case.
pub fn same_line<C: Debug + Drop>(rt: &impl Abort, case: C, given: &Line, owed: &str) {
    assert_eq!(rt; given.as_str(), owed, "{case:?}");
}

/// Fails the test if the two differ, and names the case.
pub fn same<T: PartialEq + Debug + Drop>(rt: &impl Abort, case: &str, given: T, wanted: T) {
    assert_eq!(rt; given, wanted, "{case}");
}
