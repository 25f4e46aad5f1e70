//! The assertions of these tests, in functions: a proof of a call of one costs less than that of an assertion in place.

use std::alloc::{AllocError, Global};
use std::fmt::{Debug, Display};
use std::process::Abort;

/// Ends the test if the two differ, and reports the case.
pub fn same<C: Debug + Drop, T: PartialEq + Debug + Drop>(
    rt: &impl Abort,
    case: C,
    given: T,
    expected: T,
) {
    assert_eq!(rt; given, expected, "{case:?}");
}

/// Ends the test where what is printed of a value is another text.
pub fn same_text<D: Display>(
    rt: &impl Abort,
    alloc: Global,
    value: &D,
    expected: &str,
) -> Result<(), AllocError> {
    let given = format!(in alloc; "{value}")?;
    assert_eq!(rt; given.as_str(), expected);
    Ok(())
}
