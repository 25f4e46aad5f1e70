//! A cell above its neighbours, on cells of some width and height: the first steepest way down, and which codes are
//! right. Only what these rules read is given.

use crate::agree::same;
use drain_grid::{CellValues, Direction, Patch, Spacing};
use drain_slope::{fault, steepest};
use std::test::Fail;

/// The greatest pixel: the con of the cell.
const TOP: i64 = 4294967295;

/// The greatest width and height.
const FAR: u32 = 1073741824;

/// A data cell so far below the cell, with this direction.
fn below(drop: i64, dir: i64) -> Option<CellValues> {
    let con = TOP.checked_sub(drop)?;
    CellValues::new(Some(0), false, con, dir, 0, 0, 0, 0)
}

/// The cell with this direction.
fn here(dir: i64) -> Result<CellValues, Fail> {
    match below(0, dir) {
        Some(cell) => Ok(cell),
        None => Err("a cell".into()),
    }
}

/// The cell, and the drops to its neighbours in the order of directions.
fn patch(here: CellValues, spacing: Spacing, drops: [i64; 8]) -> Patch {
    let around = drops.map(|drop| below(drop, 0));
    Patch {
        here,
        around,
        spacing,
    }
}

/// The first steepest way down, and the codes of directions that are right, added up.
fn told((width, height): (u32, u32), drops: [i64; 8]) -> Result<(Option<Direction>, i64), Fail> {
    let Some(spacing) = Spacing::new(width, height) else {
        return Err("a spacing".into());
    };
    let mut shown = patch(here(0)?, spacing, drops);
    let first = steepest(&shown);
    let mut right = 0;
    for code in [1, 2, 4, 8, 16, 32, 64, 128] {
        shown.here = here(code)?;
        if fault(&shown).is_none() {
            right |= code;
        }
    }
    Ok((first, right))
}

/// Width and height; drops to the east, the southeast and the south; the first steepest way down, and the right codes.
static WAYS: [(&str, (u32, u32), (i64, i64, i64), Direction, i64); 14] = [
    ("square", (1, 1), (2, 3, 0), Direction::SouthEast, 2),
    ("7 over 5", (1, 1), (5, 7, 0), Direction::East, 1),
    (
        "square, in a unit",
        (9, 9),
        (2, 3, 0),
        Direction::SouthEast,
        2,
    ),
    ("3, 4, 5", (3, 4), (3, 5, 4), Direction::East, 7),
    ("4, 3, 5", (4, 3), (3, 5, 4), Direction::South, 4),
    ("narrow", (7, 10), (5, 8, 6), Direction::East, 1),
    ("low", (10, 7), (5, 8, 6), Direction::South, 4),
    ("narrow corner", (7, 10), (5, 9, 6), Direction::SouthEast, 2),
    ("far", (FAR, FAR), (2, 3, 0), Direction::SouthEast, 2),
    ("a unit less", (FAR - 1, FAR), (7, 0, 7), Direction::East, 1),
    (
        "a unit lower",
        (FAR, FAR - 1),
        (7, 0, 7),
        Direction::South,
        4,
    ),
    ("widest", (FAR, 1), (6442450943, 0, 6), Direction::South, 4),
    // 6442450943 over the square root of 2 is between 4555500749 and 4555500750.
    (
        "the greatest drop across a corner",
        (FAR, FAR),
        (4555500749, 6442450943, 0),
        Direction::SouthEast,
        2,
    ),
    (
        "one more along the row",
        (FAR, FAR),
        (4555500750, 6442450943, 0),
        Direction::East,
        1,
    ),
];

#[test]
fn ways_over_unequal_distances(rt: HostRuntime) -> Result<(), Fail> {
    for &(name, spacing, (in_east, in_southeast, in_south), way, codes) in &WAYS {
        let drops = [in_east, in_southeast, in_south, 0, 0, 0, 0, 0];
        same(&rt, name, told(spacing, drops)?, (Some(way), codes));
    }
    Ok(())
}

/// Width and height; drops along rows, columns and across corners; the first steepest way down, and the right codes.
static ROUND: [(&str, (u32, u32), (i64, i64, i64), Direction, i64); 6] = [
    ("equal slopes", (3, 4), (3, 4, 5), Direction::East, 255),
    ("rows", (3, 4), (4, 3, 5), Direction::East, 17),
    ("columns", (4, 3), (3, 4, 5), Direction::South, 68),
    ("corners", (3, 4), (3, 4, 6), Direction::SouthEast, 170),
    ("all but rows", (3, 4), (2, 4, 5), Direction::SouthEast, 238),
    ("all but columns", (3, 4), (3, 3, 5), Direction::East, 187),
];

#[test]
fn ways_in_all_directions(rt: HostRuntime) -> Result<(), Fail> {
    for &(name, spacing, (row, col, corner), way, codes) in &ROUND {
        let drops = [row, corner, col, corner, row, corner, col, corner];
        same(&rt, name, told(spacing, drops)?, (Some(way), codes));
    }
    Ok(())
}

/// Two numbers, and whether they are a width and a height.
static DISTANCES: [(u32, u32, bool); 8] = [
    (1, 1, true),
    (FAR, 1, true),
    (1, FAR, true),
    (0, 1, false),
    (1, 0, false),
    (FAR + 1, 1, false),
    (1, FAR + 1, false),
    (4294967295, 4294967295, false),
];

#[test]
fn numbers_that_are_distances(rt: HostRuntime) {
    for &(width, height, expected) in &DISTANCES {
        let given = Spacing::new(width, height).is_some();
        same(&rt, (width, height), given, expected);
    }
}
