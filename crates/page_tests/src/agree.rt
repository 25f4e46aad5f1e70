//! The assertions of these tests, in functions: a call of one is cheaper to prove than an assertion in place.

use std::process::Abort;

/// Fails the test if a text isn't the expected one, and names the case.
pub fn same_text(rt: &impl Abort, case: &str, given: &str, wanted: &str) {
    assert_eq!(rt; given, wanted, "{case}");
}

/// Fails the test if a text doesn't contain the other.
pub fn has(rt: &impl Abort, case: &str, given: &str, part: &str) {
    assert!(rt; given.contains(part), "{case}: {given}");
}
