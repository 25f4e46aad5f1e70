//! The assertions of these tests, in functions: a call of one is cheaper to prove than an assertion in place.

use std::fmt::Debug;
use std::process::Abort;

/// Fails the test if the two differ, and names the case.
pub fn same<C: Debug + Drop, T: PartialEq + Debug + Drop>(
    rt: &impl Abort,
    case: C,
    given: T,
    expected: T,
) {
    assert_eq!(rt; given, expected, "{case:?}");
}

/// The same of numbers in row order.
pub fn same_numbers<C: Debug + Drop>(rt: &impl Abort, case: C, given: &[i64], expected: &[i64]) {
    assert_eq!(rt; given, expected, "{case:?}");
}
