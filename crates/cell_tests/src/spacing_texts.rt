//! Texts of widths and heights: which rows they list, and which line is bad.

use crate::agree::same;
use drain_grid::{Spacing, SpacingFault, SpacingInput, Spacings, parse_spacings};
use std::alloc::Global;
use std::test::Fail;
use worked::memory::owed;

/// A width and a height.
type Distances = (u32, u32);

/// How many rows are listed, and the spacing of the first three rows and of the last that there can be; or the fault.
type Given = Result<(usize, [Distances; 4]), SpacingFault>;

/// The spacing of a row.
fn of_row(spacings: &Spacings, row: u32) -> Distances {
    let spacing = spacings.of_row(row);
    (spacing.width, spacing.height)
}

/// What is said of these rows.
fn given(alloc: Global, input: &SpacingInput<'_>) -> Given {
    let spacings = parse_spacings(alloc, input)?;
    let rows = [0, 1, 2, u32::MAX].map(|row| of_row(&spacings, row));
    Ok((spacings.listed_rows(), rows))
}

/// What a text says.
fn listed(alloc: Global, text: &str) -> Given {
    let input = SpacingInput::ByRow(text.as_bytes());
    given(alloc, &input)
}

/// Texts, each with the number of rows that it lists, and the spacing of the first three.
static TEXTS: [(&str, usize, [Distances; 3]); 10] = [
    ("", 0, [(1, 1), (1, 1), (1, 1)]),
    ("\n \t\r\n", 0, [(1, 1), (1, 1), (1, 1)]),
    ("3 4", 1, [(3, 4), (1, 1), (1, 1)]),
    ("3 4\n4 3\n", 2, [(3, 4), (4, 3), (1, 1)]),
    ("3 4\r\n4 3\r\n5 5\r\n", 3, [(3, 4), (4, 3), (5, 5)]),
    ("7 10\n8 10\n9 10\n10 10", 4, [(7, 10), (8, 10), (9, 10)]),
    ("\n\n7 10\n \n\n8 10\n\n", 2, [(7, 10), (8, 10), (1, 1)]),
    (" \t007 \t 0010\t ", 1, [(7, 10), (1, 1), (1, 1)]),
    ("1073741824 1", 1, [(1073741824, 1), (1, 1), (1, 1)]),
    ("1 1073741824", 1, [(1, 1073741824), (1, 1), (1, 1)]),
];

#[test]
fn rows_that_texts_list(rt: HostRuntime) {
    for &(text, count, [first, second, third]) in &TEXTS {
        let expected = Ok((count, [first, second, third, (1, 1)]));
        same(&rt, text, listed(rt.alloc(), text), expected);
    }
}

/// Texts, each with the line that is bad.
static BAD: [(&str, u64); 19] = [
    ("0 1", 1),
    ("1 0", 1),
    ("1073741825 1", 1),
    ("1 1073741825", 1),
    ("4294967296 1", 1),
    ("1 4294967297", 1),
    ("18446744073709551617 1", 1),
    ("1", 1),
    ("1 1 1", 1),
    ("-1 1", 1),
    ("0.7 1", 1),
    ("1e3 1", 1),
    ("1,1", 1),
    ("WIDTH HEIGHT\n1 1", 1),
    ("1 1\n1 0\n0 1", 2),
    ("1 1\nx\n0 1", 2),
    ("1 1\n\n0 1", 3),
    ("\n\r\n \t\nx", 4),
    ("1 1\n\n1 1\r\n\n1\n\n0 0", 5),
];

#[test]
fn lines_that_are_bad(rt: HostRuntime) {
    for &(text, line) in &BAD {
        let expected = Err(SpacingFault::BadSpacingLine(line));
        same(&rt, text, listed(rt.alloc(), text), expected);
    }
}

#[test]
fn one_spacing(rt: HostRuntime) -> Result<(), Fail> {
    let Some(spacing) = Spacing::new(3, 4) else {
        return Err("a spacing".into());
    };
    let narrow = given(rt.alloc(), &SpacingInput::Same(spacing));
    same(&rt, "narrow", narrow, Ok((0, [(3, 4); 4])));
    let square = given(rt.alloc(), &SpacingInput::unit());
    same(&rt, "square", square, Ok((0, [(1, 1); 4])));
    Ok(())
}

/// Faults, each with its text.
static FAULTS: [(SpacingFault, &str); 2] = [
    (
        SpacingFault::BadSpacingLine(12),
        "line 12 is not a width and a height",
    ),
    (SpacingFault::OutOfMemory, "out of memory"),
];

#[test]
fn faults_of_texts_as_texts(rt: HostRuntime) -> Result<(), Fail> {
    for &(fault, expected) in &FAULTS {
        let given = format!(in rt.alloc(); "{fault}")?;
        same(&rt, expected, given.as_str(), expected);
    }
    Ok(())
}

/// Twelve rows, with an empty line between: so the buffer grows more than once.
const TWELVE: &str = "1 9\n2 9\n\n3 9\n4 9\n5 9\n6 9\n7 9\n8 9\n9 9\n10 9\n11 9\n12 9\n";

#[test]
fn a_text_after_refused_memory(rt: HostRuntime) {
    let right = Ok((12, [(1, 9), (2, 9), (3, 9), (1, 1)]));
    let first = listed(rt.alloc(), TWELVE);
    let expected = owed(rt.alloc(), Err(SpacingFault::OutOfMemory), right);
    same(&rt, "first", first, expected);
    same(&rt, "again", listed(rt.alloc(), TWELVE), right);
}
