//! Cells of other widths and heights: what they change, and how a spacing by row is refused. The lines were worked out by
//! hand from the rules.

use crate::agree::same_line;
use crate::example::{Example, changed, one_tile};
use crate::runs::{Checked, told_given};
use drain_verdict::{Given, Spacing, SpacingInput};
use std::alloc::Global;
use std::process::Abort;
use std::test::Fail;

/// A peak of elevation 10. It falls by 3 to the east and by 4 to the southeast, and leads east.
///
/// On cells 4 wide and 3 high these slopes are 3/4 and 4/5, on square cells 3 and 4 by the root of two.
fn leads_east() -> [i64; 54] {
    [
        9, 9, 9, 9, 10, 7, 9, 9, 6, // elevations
        9, 9, 9, 9, 10, 7, 9, 9, 6, // con
        0, 2, 4, 0, 1, 4, 0, 1, 0, // dir
        1, 1, 1, 1, 1, 4, 1, 1, 6, // acc
        1, 4, 4, 2, 4, 4, 3, 4, 4, // bas
        0, 2, 2, 0, 2, 1, 0, 1, 0, // rnk
    ]
}

/// What is other where the peak leads southeast: its code, the counts and its rank.
const SOUTHEAST: [(usize, i64); 3] = [(22, 2), (32, 3), (49, 1)];

/// The line of an acceptance.
const RIGHT: &str = "accepted rows=3 cols=3 data=9 raised=0 outlets=4";

/// The line of another way from the peak.
const WRONG: &str = "rejected rule=10 Slope row=1 col=1";

/// Widths and heights, each with the lines where the peak leads east and where it leads southeast.
static CELLS: [((u32, u32), &str, &str); 7] = [
    ((1, 1), RIGHT, WRONG),
    ((1073741824, 1073741824), RIGHT, WRONG),
    ((4, 3), WRONG, RIGHT),
    ((1073741824, 805306368), WRONG, RIGHT),
    ((3, 4), RIGHT, WRONG),
    ((1, 1073741824), RIGHT, WRONG),
    ((1073741824, 1), WRONG, WRONG),
];

/// Texts by row, each with these lines.
static ROWS: [(&str, &str, &str); 14] = [
    ("1 1\n1 1\n1 1\n", RIGHT, WRONG),
    ("1 1\n4 3\n1 1", WRONG, RIGHT),
    ("\n 04\t3 \r\n\r\n4 3\n \n4 3\n\n", WRONG, RIGHT),
    ("4 3\n1 1\n4 3\n", RIGHT, WRONG),
    ("1 1\n1073741824 805306368\n1 1\n", WRONG, RIGHT),
    ("", "refused SpacingRows 0", "refused SpacingRows 0"),
    (
        "1 1\n\n1 1\n",
        "refused SpacingRows 2",
        "refused SpacingRows 2",
    ),
    (
        "4 3\n4 3\n4 3\n4 3",
        "refused SpacingRows 4",
        "refused SpacingRows 4",
    ),
    (
        "1 1\n0 1\n1 1\n",
        "refused BadSpacingLine 2",
        "refused BadSpacingLine 2",
    ),
    (
        "1 1\n1 1\n1 0\n",
        "refused BadSpacingLine 3",
        "refused BadSpacingLine 3",
    ),
    (
        "1 1\n\n1\n1 1 1\n",
        "refused BadSpacingLine 3",
        "refused BadSpacingLine 3",
    ),
    (
        "1 1 1\n",
        "refused BadSpacingLine 1",
        "refused BadSpacingLine 1",
    ),
    (
        "1.5 1\n1 1\n1 1",
        "refused BadSpacingLine 1",
        "refused BadSpacingLine 1",
    ),
    (
        "1 1\n1 1073741825\n",
        "refused BadSpacingLine 2",
        "refused BadSpacingLine 2",
    ),
];

/// Lists of sinks beside texts by row, each with its line: the list is refused first.
static LISTS: [(&str, &str, &str); 4] = [
    ("x", "1 1\nx\n1 1", "refused BadSinkLine 1"),
    ("0 0\n3 0", "x\n1 1\n1 1", "refused SinkNotData 2"),
    ("3 0", "1 1\n", "refused SinkNotData 1"),
    ("0 0", "1 1\n1 1\nx", "refused BadSpacingLine 3"),
];

/// The peak, which leads southeast or not.
fn peak(southeast: bool) -> Example {
    let numbers = leads_east();
    if southeast {
        one_tile(3, &changed(&numbers, &SOUTHEAST))
    } else {
        one_tile(3, &numbers)
    }
}

/// Fails the test if a check or an audit prints another line.
fn both_tell(
    rt: &impl Abort,
    alloc: Global,
    example: &Example,
    given: &Given,
    owed: &str,
) -> Result<(), Fail> {
    let checked = told_given(alloc, Checked::Check, example, given)?;
    same_line(rt, owed, &checked, owed);
    let audited = told_given(alloc, Checked::Audit, example, given)?;
    same_line(rt, owed, &audited, owed);
    Ok(())
}

/// Fails the test if the peak that leads east or the one that leads southeast has another line.
fn each_tells(
    rt: &impl Abort,
    alloc: Global,
    given: &Given,
    (east, southeast): (&str, &str),
) -> Result<(), Fail> {
    both_tell(rt, alloc, &peak(false), given, east)?;
    both_tell(rt, alloc, &peak(true), given, southeast)
}

#[test]
fn cells_of_one_size(rt: HostRuntime) -> Result<(), Fail> {
    for &((width, height), east, southeast) in &CELLS {
        let Some(spacing) = Spacing::new(width, height) else {
            return Err("no spacing".into());
        };
        let given = Given {
            sinks: &[],
            spacing: SpacingInput::Same(spacing),
        };
        each_tells(&rt, rt.alloc(), &given, (east, southeast))?;
    }
    Ok(())
}

#[test]
fn spacings_by_row(rt: HostRuntime) -> Result<(), Fail> {
    for &(text, east, southeast) in &ROWS {
        let given = Given {
            sinks: &[],
            spacing: SpacingInput::ByRow(text.as_bytes()),
        };
        each_tells(&rt, rt.alloc(), &given, (east, southeast))?;
    }
    Ok(())
}

#[test]
fn lists_before_spacings(rt: HostRuntime) -> Result<(), Fail> {
    for &(list, text, line) in &LISTS {
        let given = Given {
            sinks: list.as_bytes(),
            spacing: SpacingInput::ByRow(text.as_bytes()),
        };
        each_tells(&rt, rt.alloc(), &given, (line, line))?;
    }
    Ok(())
}
