//! The assertions of these tests, in functions: a call of one is cheaper to prove than an assertion in place.

use drain_answer::lines::Line;
use drain_merge::UnionBox;
use std::fmt::Debug;
use std::process::Abort;

/// Fails the test if a line isn't the expected one, and names the case.
pub fn same_line(rt: &impl Abort, case: &str, given: &Line, expected: &str) {
    assert_eq!(rt; given.as_str(), expected, "{case}");
}

/// Fails the test if a box isn't the expected one, and names the case.
pub fn same_box(rt: &impl Abort, case: &str, given: UnionBox, expected: UnionBox) {
    assert_eq!(rt; given, expected, "{case}");
}

/// Fails the test if the two differ, and names the case.
pub fn same<T: PartialEq + Debug + Drop>(rt: &impl Abort, case: &str, given: T, expected: T) {
    assert_eq!(rt; given, expected, "{case}");
}
