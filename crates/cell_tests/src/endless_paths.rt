//! Where runs without an end lead, worked out by hand.

use crate::agree::same;
use crate::run_grids::endless_path;
use drain_grid::Cell;
use drain_paths::{EndlessPath, LostBy};
use std::alloc::Global;
use std::process::Abort;
use std::test::Fail;

/// Ends the test where the run of the cell doesn't go nowhere from this one, for this reason.
fn is_lost(
    rt: &impl Abort,
    alloc: Global,
    voids: &[u8],
    codes: &[u8],
    at: (u32, u32),
    why: LostBy,
) -> Result<(), Fail> {
    let start = Cell { row: 0, col: 0 };
    let lost = EndlessPath::Lost {
        cell: Cell {
            row: at.0,
            col: at.1,
        },
        by: why,
    };
    let told = endless_path(alloc, 2, 3, voids, codes, start)?;
    same(rt, why, told == Some(lost), true);
    Ok(())
}

/// Voids and directions of two rows and three columns, the cell from which the run of the first goes nowhere, and why.
static LOST: [([u8; 6], [u8; 6], (u32, u32), LostBy); 4] = [
    ([0; 6], [1, 1, 3, 0, 0, 0], (0, 2), LostBy::NoCode),
    ([0; 6], [1, 1, 1, 0, 0, 0], (0, 2), LostBy::Outside),
    ([0; 6], [64, 0, 0, 0, 0, 0], (0, 0), LostBy::Outside),
    ([0, 0, 0, 0, 1, 0], [1, 4, 0, 0, 0, 0], (0, 1), LostBy::Void),
];

#[test]
fn tells_where_a_run_is_lost(rt: HostRuntime) -> Result<(), Fail> {
    for &(voids, codes, at, why) in &LOST {
        is_lost(&rt, rt.alloc(), &voids, &codes, at, why)?;
    }
    Ok(())
}

/// The cells of a ring and how many it has, none where the run doesn't go round.
fn ring(told: Option<EndlessPath>) -> Option<(Vec<Cell>, usize)> {
    match told {
        Some(EndlessPath::Ring { cells, length }) => Some((cells, length)),
        _ => None,
    }
}

#[test]
fn tells_a_ring(rt: HostRuntime) -> Result<(), Fail> {
    let alloc = rt.alloc();
    let start = Cell { row: 0, col: 0 };
    // a tail of one cell, and three cells that go round
    let told = endless_path(alloc, 2, 3, &[0; 6], &[1, 1, 4, 0, 64, 16], start)?;
    let Some((cells, length)) = ring(told) else {
        return Err("a ring".into());
    };
    same(&rt, "how many", (length, cells.len()), (4, 4));
    same(&rt, "the tail isn't told", cells.contains(&start), false);
    let corner = Cell { row: 1, col: 2 };
    same(&rt, "the ring is", cells.contains(&corner), true);
    Ok(())
}

#[test]
fn tells_twenty_cells_of_a_long_ring(rt: HostRuntime) -> Result<(), Fail> {
    let alloc = rt.alloc();
    let mut codes = [1; 24];
    for k in 12..24 {
        codes[k] = 16;
    }
    codes[11] = 4;
    codes[12] = 64;
    let start = Cell { row: 0, col: 0 };
    let told = endless_path(alloc, 2, 12, &[0; 24], &codes, start)?;
    let Some((cells, length)) = ring(told) else {
        return Err("a ring".into());
    };
    same(&rt, "how many", (length, cells.len()), (24, 20));
    Ok(())
}

#[test]
fn tells_nothing_of_a_run_that_ends(rt: HostRuntime) -> Result<(), Fail> {
    let alloc = rt.alloc();
    let start = Cell { row: 0, col: 0 };
    let told = endless_path(alloc, 2, 3, &[0; 6], &[1, 1, 0, 0, 0, 0], start)?;
    same(&rt, "nothing", told.is_none(), true);
    Ok(())
}
