//! Runs of worked directions, worked out by hand from the definitions: their steps, and the first without an end.

use crate::agree::same;
use crate::run_grids::{NONE, are_ranks, certified, first_endless, to_and_fro};
use drain_grid::Cell;
use std::alloc::Global;
use std::process::Abort;
use std::test::Fail;

/// Ends the test where not every run ends, or the ranks aren't these.
fn all_end(
    rt: &impl Abort,
    alloc: Global,
    name: &str,
    shape: (u32, u32),
    voids: &[u8],
    codes: &[u8],
    ranks: &[i64],
) -> Result<(), Fail> {
    let answer = certified(alloc, shape.0, shape.1, voids, codes)?;
    same(rt, name, are_ranks(&answer, ranks), true);
    let first = first_endless(alloc, shape.0, shape.1, voids, codes)?;
    same(rt, name, first, None);
    Ok(())
}

/// A grid's rows and columns, its voids, its directions, and the ranks.
type Grid = (
    &'static str,
    (u32, u32),
    &'static [u8],
    &'static [u8],
    &'static [i64],
);

static COUNTED: [Grid; 5] = [
    (
        "each row runs to the east",
        (4, 4),
        &[0; 16],
        &[1, 1, 1, 0, 1, 1, 1, 0, 1, 1, 1, 0, 1, 1, 1, 0],
        &[3, 2, 1, 0, 3, 2, 1, 0, 3, 2, 1, 0, 3, 2, 1, 0],
    ),
    (
        "a filled pit",
        (3, 3),
        &[0; 9],
        &[0, 0, 0, 0, 1, 0, 0, 0, 0],
        &[0, 0, 0, 0, 1, 0, 0, 0, 0],
    ),
    (
        "one run through all cells, from the last to the first",
        (3, 3),
        &[0; 9],
        &[0, 16, 16, 1, 1, 64, 64, 16, 16],
        &[0, 1, 2, 5, 4, 3, 6, 7, 8],
    ),
    (
        "and from the first to the last",
        (3, 3),
        &[0; 9],
        &[1, 1, 4, 4, 16, 16, 1, 1, 0],
        &[8, 7, 6, 3, 4, 5, 2, 1, 0],
    ),
    (
        "a later walk ends where an earlier one went",
        (2, 3),
        &[0; 6],
        &[1, 1, 0, 64, 128, 32],
        &[2, 1, 0, 3, 1, 2],
    ),
];

static EACH_WAY: [Grid; 1] = [(
    "all eight directions",
    (3, 4),
    &[0; 12],
    &[2, 4, 0, 8, 128, 8, 64, 16, 0, 16, 1, 32],
    &[2, 2, 0, 2, 3, 1, 1, 2, 0, 1, 3, 2],
)];

static WITH_VOIDS: [Grid; 2] = [
    (
        "voids between two parts",
        (3, 7),
        &[
            0, 0, 0, 1, 0, 0, 0, 0, 0, 0, 1, 0, 0, 0, 0, 0, 0, 1, 0, 0, 0,
        ],
        &[
            0, 0, 0, 255, 0, 0, 0, 0, 1, 0, 255, 0, 16, 0, 0, 0, 0, 255, 0, 0, 0,
        ],
        &[
            0, 0, 0, NONE, 0, 0, 0, 0, 1, 0, NONE, 0, 1, 0, 0, 0, 0, NONE, 0, 0, 0,
        ],
    ),
    (
        "the code of a void plays no part, though it be one that goes round",
        (2, 2),
        &[1, 1, 1, 1],
        &[1, 16, 1, 16],
        &[NONE, NONE, NONE, NONE],
    ),
];

/// Ends the test where a run of one of these grids doesn't end, or its ranks aren't those.
fn each_ends(rt: &impl Abort, alloc: Global, grids: &'static [Grid]) -> Result<(), Fail> {
    for &(name, shape, voids, codes, ranks) in grids {
        all_end(rt, alloc, name, shape, voids, codes, ranks)?;
    }
    Ok(())
}

#[test]
fn counts_the_steps_of_runs(rt: HostRuntime) -> Result<(), Fail> {
    each_ends(&rt, rt.alloc(), &COUNTED)
}

#[test]
fn goes_each_way(rt: HostRuntime) -> Result<(), Fail> {
    each_ends(&rt, rt.alloc(), &EACH_WAY)
}

#[test]
fn leaves_voids_out(rt: HostRuntime) -> Result<(), Fail> {
    each_ends(&rt, rt.alloc(), &WITH_VOIDS)
}

/// No voids.
const DATA: [u8; 16] = [0; 16];

/// Voids and directions of four rows and columns, and the row and the column of the first cell whose run doesn't end.
static ENDLESS: [(&str, [u8; 16], [u8; 16], u32, u32); 9] = [
    (
        "a ring of two",
        DATA,
        [0, 0, 0, 0, 0, 1, 16, 0, 0, 16, 1, 0, 0, 0, 0, 0],
        1,
        1,
    ),
    (
        "a way into a ring",
        DATA,
        [0, 0, 0, 0, 0, 0, 0, 4, 0, 1, 4, 16, 0, 64, 16, 0],
        1,
        3,
    ),
    (
        "a number that is no code",
        DATA,
        [3, 1, 1, 0, 0, 0, 0, 0, 0, 0, 0, 0, 0, 0, 0, 0],
        0,
        0,
    ),
    (
        "the number for no data",
        DATA,
        [255, 1, 1, 0, 0, 0, 0, 0, 0, 0, 0, 0, 0, 0, 0, 0],
        0,
        0,
    ),
    (
        "a way to a number that is no code",
        DATA,
        [0, 1, 4, 0, 0, 0, 4, 0, 0, 0, 7, 0, 0, 0, 0, 0],
        0,
        1,
    ),
    (
        "off the grid",
        DATA,
        [0, 0, 0, 0, 0, 0, 0, 1, 0, 0, 0, 0, 0, 0, 0, 0],
        1,
        3,
    ),
    (
        "off the grid at a corner",
        DATA,
        [32, 0, 0, 0, 0, 0, 0, 0, 0, 0, 0, 0, 0, 0, 0, 0],
        0,
        0,
    ),
    (
        "into a void",
        [0, 0, 0, 0, 0, 0, 1, 0, 0, 0, 0, 0, 0, 0, 0, 0],
        [0, 0, 0, 0, 0, 1, 0, 0, 0, 0, 0, 0, 0, 0, 0, 0],
        1,
        1,
    ),
    (
        "two rings, the first told",
        DATA,
        [0, 0, 0, 0, 0, 0, 1, 16, 0, 0, 0, 0, 1, 16, 0, 0],
        1,
        2,
    ),
];

#[test]
fn finds_the_first_run_without_an_end(rt: HostRuntime) -> Result<(), Fail> {
    let alloc = rt.alloc();
    for &(name, voids, codes, row, col) in &ENDLESS {
        let cell = Cell { row, col };
        let ranks = certified(alloc, 4, 4, &voids, &codes)?;
        same(&rt, name, ranks.err(), Some(cell));
        let first = first_endless(alloc, 4, 4, &voids, &codes)?;
        same(&rt, name, first, Some(cell));
    }
    Ok(())
}

/// The side of a 3 arc-second tile.
const SIDE: u32 = 1201;

/// A walk of a step for each cell, from the first cell on; and then none from the others.
#[test]
fn walks_each_cell_of_a_long_run_once(rt: HostRuntime) -> Result<(), Fail> {
    let alloc = rt.alloc();
    let codes = to_and_fro(alloc, SIDE, false)?;
    let voids = vec![in alloc; 0; codes.len()]?;
    same(
        &rt,
        "to and fro",
        first_endless(alloc, SIDE, SIDE, &voids, &codes)?,
        None,
    );
    let ranks = certified(alloc, SIDE, SIDE, &voids, &codes)?;
    same(&rt, "its steps", ranks.is_ok(), true);
    Ok(())
}

#[test]
fn tells_a_long_run_that_goes_round(rt: HostRuntime) -> Result<(), Fail> {
    let alloc = rt.alloc();
    let codes = to_and_fro(alloc, SIDE, true)?;
    let voids = vec![in alloc; 0; codes.len()]?;
    let first = first_endless(alloc, SIDE, SIDE, &voids, &codes)?;
    same(&rt, "into a ring", first, Some(Cell { row: 0, col: 0 }));
    Ok(())
}
