//! The assertion of these tests, in functions: a proof of a call of one costs less than that of an assertion in place.

use drain_grid::Rule;
use std::fmt::Debug;
use std::process::Abort;

/// Ends the test if the two differ, and reports the case.
pub fn same<C: Debug + Drop, T: PartialEq + Debug + Drop>(
    rt: &impl Abort,
    case: C,
    given: T,
    expected: T,
) {
    assert_eq!(rt; given, expected, "{case:?}");
}

/// The same of the rules that fail, none where all hold.
pub fn same_rule(rt: &impl Abort, case: &str, given: Option<Rule>, expected: Option<Rule>) {
    assert_eq!(rt; given, expected, "{case}");
}
