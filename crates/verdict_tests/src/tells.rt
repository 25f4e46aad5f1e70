//! What every test does: it checks an example, and tests that the line is the expected one.

use crate::agree::same_line;
use crate::example::{Example, changed, one_tile};
use crate::runs::{Checked, told, told_at_once};
use drain_answer::lines::Line;
use drain_verdict::{Refusal, report};
use std::alloc::Global;
use std::process::Abort;
use std::test::Fail;
use worked::memory::owed_unless_right;

/// Fails the test if a line isn't the expected one, and names the case.
pub fn tells(
    rt: &impl Abort,
    alloc: Global,
    asked: Checked,
    case: &str,
    example: &Example,
    owed: &str,
) -> Result<(), Fail> {
    let given = told(alloc, asked, example)?;
    same_line(rt, case, &given, owed);
    Ok(())
}

/// The same of each of these, each with its line.
pub fn each_tells(
    rt: &impl Abort,
    alloc: Global,
    asked: Checked,
    cases: &[(Example, &str)],
) -> Result<(), Fail> {
    for (place, (example, line)) in cases.iter().enumerate() {
        let given = told(alloc, asked, example)?;
        same_line(rt, (*line, place), &given, line);
    }
    Ok(())
}

/// The same of a check of an example with this list, which names the case.
fn list_tells(
    rt: &impl Abort,
    alloc: Global,
    example: &Example,
    list: &str,
    owed: &str,
) -> Result<(), Fail> {
    let listing = example.listing(list);
    tells(rt, alloc, Checked::Check, list, &listing, owed)
}

/// The same of checks of an example with each of these lists.
pub fn lists_tell(
    rt: &impl Abort,
    alloc: Global,
    example: &Example,
    lists: &[(&str, &str)],
) -> Result<(), Fail> {
    for &(list, line) in lists {
        list_tells(rt, alloc, example, list, line)?;
    }
    Ok(())
}

/// Some of an example's numbers that are changed, each by its place, and the expected line.
pub type Changes = (&'static [(usize, i64)], &'static str);

/// The same of a tile of this side, with this list and these numbers, with each of these changes.
pub fn changes_tell<const N: usize>(
    rt: &impl Abort,
    alloc: Global,
    asked: Checked,
    (side, list): (u32, &str),
    numbers: &[i64; N],
    cases: &[Changes],
) -> Result<(), Fail> {
    for (place, &(changes, line)) in cases.iter().enumerate() {
        let example = one_tile(side, &changed(numbers, changes)).listing(list);
        let given = told(alloc, asked, &example)?;
        same_line(rt, (line, place), &given, line);
    }
    Ok(())
}

/// The line when bytes come at once. If the inputs run out of memory, that is its line.
fn line_told(alloc: Global, asked: Checked, example: &Example) -> Line {
    match told_at_once(alloc, asked, example) {
        Ok(line) => line,
        Err(_) => report(&Err(Refusal::OutOfMemory)),
    }
}

/// Fails the test if a line isn't the expected one, or if after it, on fresh inputs, a line isn't the right one.
pub fn tells_twice(rt: &impl Abort, alloc: Global, asked: Checked, example: &Example, right: &str) {
    let first = line_told(alloc, asked, example);
    let line = owed_unless_right(alloc, first.as_str(), "failed OutOfMemory", right);
    same_line(rt, "first", &first, line);
    same_line(rt, "again", &line_told(alloc, asked, example), right);
}
