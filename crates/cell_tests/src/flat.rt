//! Cells on and off flats, each with what the rule says of it, with ranks and without. Only what the rule reads is given.

use crate::agree::same;
use drain_flat::{fault, fault_without_ranks};
use drain_grid::{CellValues, Patch, Rule, Spacing};
use std::test::Fail;

/// The rule where it fails with ranks, and where it fails without.
type Told = [Option<Rule>; 2];

/// It fails with ranks and without.
const FAILS: Told = [Some(Rule::FlatStep); 2];

/// It fails only with ranks.
const BY_RANK: Told = [Some(Rule::FlatStep), None];

/// It holds.
const HOLDS: Told = [None; 2];

fn told(patch: &Patch) -> Told {
    [fault(patch), fault_without_ranks(patch)]
}

fn cell(z: Option<i16>, con: i64, dir: i64, rnk: i64) -> Option<CellValues> {
    CellValues::new(z, false, con, dir, 0, 0, 0, rnk)
}

/// A cell at height 5.
fn level(rnk: i64) -> Option<CellValues> {
    cell(Some(5), 5, 0, rnk)
}

fn here(dir: i64, rnk: i64) -> Result<CellValues, Fail> {
    match cell(Some(5), 5, dir, rnk) {
        Some(values) => Ok(values),
        None => Err("a cell".into()),
    }
}

/// Of the flat below, the ranks around the second cell of the second row, from the east clockwise.
const SECOND: [i64; 8] = [2, 1, 1, 0, 0, 0, 0, 0];

/// The same around its third.
const THIRD: [i64; 8] = [0, 0, 1, 1, 1, 0, 0, 0];

/// Codes and ranks of a cell, with the ranks around it and what the rule says.
static OF_A_FLAT: [(&str, i64, i64, [i64; 8], Told); 5] = [
    ("to a greater rank", 1, 1, SECOND, BY_RANK),
    ("to an equal rank", 4, 1, SECOND, BY_RANK),
    ("to the edge", 16, 1, SECOND, HOLDS),
    ("to a smaller rank", 16, 2, THIRD, HOLDS),
    ("no direction", 0, 1, SECOND, FAILS),
];

/// Cells of a flat of four by four at height 5, with these ranks:
///
/// ```text
/// 0 0 0 0
/// 0 1 2 0
/// 0 1 1 0
/// 0 0 0 0
/// ```
#[test]
fn cells_of_a_flat(rt: HostRuntime) -> Result<(), Fail> {
    for &(name, dir, rnk, ranks, expected) in &OF_A_FLAT {
        let patch = Patch {
            here: here(dir, rnk)?,
            around: [
                level(ranks[0]),
                level(ranks[1]),
                level(ranks[2]),
                level(ranks[3]),
                level(ranks[4]),
                level(ranks[5]),
                level(ranks[6]),
                level(ranks[7]),
            ],
            spacing: Spacing::unit(),
        };
        same(&rt, name, told(&patch), expected);
    }
    // Its first cell, which lies in a corner.
    let corner = Patch {
        here: here(0, 0)?,
        around: [level(0), level(1), level(0), None, None, None, None, None],
        spacing: Spacing::unit(),
    };
    same(&rt, "in a corner", told(&corner), HOLDS);
    Ok(())
}

/// The values in the east of a cell of rank 3.
#[derive(Clone, Copy)]
enum East {
    Near,
    Equal,
    Far,
    Higher,
    Lower,
    Void,
    Outside,
    Least,
    Greatest,
}

fn east_values(east: East) -> Option<CellValues> {
    match east {
        East::Near => level(2),
        East::Equal => level(3),
        East::Far => level(4),
        East::Higher => cell(Some(5), 6, 0, 2),
        East::Lower => cell(Some(4), 4, 0, 2),
        East::Void => cell(None, 5, 0, 2),
        East::Outside => None,
        East::Least => level(-2147483648),
        East::Greatest => level(4294967295),
    }
}

/// Codes next to the values in the east, each with the rule's result.
static DIRECTIONS: [(&str, i64, East, Told); 16] = [
    ("nearer", 1, East::Near, HOLDS),
    ("equal rank", 1, East::Equal, BY_RANK),
    ("greater rank", 1, East::Far, BY_RANK),
    ("higher", 1, East::Higher, FAILS),
    ("lower", 1, East::Lower, HOLDS),
    ("beside a lower", 16, East::Lower, HOLDS),
    ("code 0 beside a lower", 0, East::Lower, HOLDS),
    ("no direction", 0, East::Near, FAILS),
    ("no code", 3, East::Near, FAILS),
    ("no code, negative", -1, East::Near, FAILS),
    ("past the nearer", 2, East::Near, BY_RANK),
    ("to a void, so open", 1, East::Void, HOLDS),
    ("beside a void, so open", 16, East::Void, HOLDS),
    ("off the edge, so open", 1, East::Outside, HOLDS),
    ("the least rank", 1, East::Least, HOLDS),
    ("the greatest rank", 1, East::Greatest, BY_RANK),
];

#[test]
fn what_a_direction_leads_to(rt: HostRuntime) -> Result<(), Fail> {
    for &(name, dir, east, expected) in &DIRECTIONS {
        let mut around = [level(3); 8];
        around[0] = east_values(east);
        let here = here(dir, 3)?;
        let patch = Patch {
            here,
            around,
            spacing: Spacing::unit(),
        };
        same(&rt, name, told(&patch), expected);
    }
    Ok(())
}

#[test]
fn a_void(rt: HostRuntime) -> Result<(), Fail> {
    let Some(here) = cell(None, -32768, 255, 4294967295) else {
        return Err("a void".into());
    };
    let patch = Patch {
        here,
        around: [level(0); 8],
        spacing: Spacing::unit(),
    };
    same(&rt, "a void", told(&patch), HOLDS);
    Ok(())
}
