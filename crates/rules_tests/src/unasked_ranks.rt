//! Three long rows with ranks that keep no rule, scanned by rows, with ranks checked and not. Worked out by hand from
//! the rules.

use crate::examples::{Part, accepted, rejected, same};
use crate::given_rows::{COLS, level_rows};
use crate::rows_of_numbers::verdict_by_rows;
use drain_grid::{Judged, Rule, Verdict};
use std::alloc::{AllocError, Global};
use std::test::Fail;

/// Three level rows, whose cells inside drain north; each cell has this rank.
fn long_rows(alloc: Global, rank: i64) -> Result<Vec<i64>, AllocError> {
    let mut numbers = level_rows(alloc)?;
    let cells = 3 * COLS as usize;
    for place in 0..numbers.len() {
        if place >= Part::Rnk as usize * cells {
            numbers[place] = rank;
        }
    }
    Ok(numbers)
}

/// A number of a part, by its row and column.
pub type Change = (Part, (u8, u16), i64);

/// Puts a number in its place.
pub fn put(numbers: &mut Vec<i64>, (part, (row, col), number): Change) -> Result<(), Fail> {
    let place = (part as usize * 3 + row as usize) * COLS as usize + col as usize;
    match numbers.get_mut(place) {
        Some(found) => *found = number,
        None => return Err("a place".into()),
    }
    Ok(())
}

/// The verdict without ranks on these rows with two numbers changed.
fn verdict_changed(alloc: Global, one: Change, other: Change) -> Result<Verdict, Fail> {
    let mut numbers = long_rows(alloc, UNRANKED)?;
    put(&mut numbers, one)?;
    put(&mut numbers, other)?;
    verdict_by_rows(alloc, b"", &numbers, Judged::All)
}

/// The number for no rank.
const UNRANKED: i64 = 4294967295;

/// The rank of each cell, which rasters are judged, and the rule that fails with the row and the column, if any.
static RANKS: [(&str, i64, Judged, Option<(Rule, u8, u8)>); 4] = [
    (
        "equal ranks, asked for",
        0,
        Judged::AllWithRanks,
        Some((Rule::FlatStep, 1, 1)),
    ),
    ("equal ranks", 0, Judged::All, None),
    (
        "no ranks, asked for",
        UNRANKED,
        Judged::AllWithRanks,
        Some((Rule::Missing, 0, 0)),
    ),
    ("no ranks", UNRANKED, Judged::All, None),
];

/// The verdict on the rows where this is the fault.
fn verdict_of(fault: Option<(Rule, u8, u8)>) -> Verdict {
    match fault {
        Some((rule, row, col)) => rejected(rule, row, col),
        None => accepted(3, 600, 1800, 0, 1202),
    }
}

#[test]
fn ranks_that_keep_no_rule(rt: HostRuntime) -> Result<(), Fail> {
    for &(name, rank, judged, fault) in &RANKS {
        let numbers = long_rows(rt.alloc(), rank)?;
        let given = verdict_by_rows(rt.alloc(), b"", &numbers, judged)?;
        same(&rt, name, given, verdict_of(fault));
    }
    Ok(())
}

const CORNER: (u8, u16) = (0, 0);

const INSIDE: (u8, u16) = (1, 7);

/// A number that changes nothing.
const SAME_HEIGHT: Change = (Part::Con, INSIDE, 0);

/// The rule that fails, the numbers that are changed, and the row and the column.
static CHANGES: [(Rule, Change, Change, u8, u8); 10] = [
    (
        Rule::Missing,
        (Part::Con, CORNER, -32768),
        SAME_HEIGHT,
        0,
        0,
    ),
    (Rule::BadCode, (Part::Dir, CORNER, 3), SAME_HEIGHT, 0, 0),
    (
        Rule::BelowGround,
        (Part::Con, CORNER, -1),
        SAME_HEIGHT,
        0,
        0,
    ),
    (Rule::OpenRaised, (Part::Con, CORNER, 1), SAME_HEIGHT, 0, 0),
    (Rule::OutletCode, (Part::Dir, CORNER, 1), SAME_HEIGHT, 0, 0),
    (
        Rule::Accumulation,
        (Part::Acc, CORNER, 2),
        SAME_HEIGHT,
        0,
        0,
    ),
    (Rule::SharedLabel, (Part::Bas, (0, 1), 1), SAME_HEIGHT, 0, 1),
    (
        Rule::NotLeast,
        (Part::Con, INSIDE, 1),
        (Part::Con, INSIDE, 1),
        1,
        7,
    ),
    (Rule::Label, (Part::Bas, INSIDE, 9), SAME_HEIGHT, 1, 7),
    // It leads nowhere, and its outlet counts no cell but itself.
    (
        Rule::FlatStep,
        (Part::Dir, INSIDE, 0),
        (Part::Acc, (0, 7), 1),
        1,
        7,
    ),
];

#[test]
fn the_other_rules_without_ranks(rt: HostRuntime) -> Result<(), Fail> {
    for &(rule, change, other, row, col) in &CHANGES {
        let given = verdict_changed(rt.alloc(), change, other)?;
        same(&rt, rule.name(), given, rejected(rule, row, col));
    }
    Ok(())
}
