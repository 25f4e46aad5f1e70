//! The first cell where a surface isn't the filled one.

ghost use Rattle.std.specs.Prelude.{◌≡◌, ◌↔◌, ◌*◌, ◌<◌};
ghost use Rattle.drain_filled.specs.Names.{length, IfOk, IsTrue, MatchOption, pos, slice_index_or, Cell, Grid, IsBetween, IsLeastSurface, Surface, listed_at};
ghost use Rattle.drain_filled.specs.Compared.{AreOneBefore, IsFirstOther, HasCellsOf, HasHeights, IsFirstUnfilled};
ghost use Rattle.drain_filled.specs.Grounds.{HasDataCells, listed_grid};

use crate::first_marks::fill;
use crate::ground::Ground;
use drain_grid::{Cell, OutOfMemory, Sinks};
use std::alloc::Global;

/// The first data cell where the heights in row order, one for each cell, differ from the least surface that covers
/// the ground and drains; none if they are that surface.
///
/// Elevations too are in row order, one for each cell, and play no part where the ground has no data. In their place
/// any surface between them and that least surface may be given: the nearer it is, the less has to be raised. The
/// contract is about every grid that has these cells, wherever it comes from. `OutOfMemory` if memory was refused.
pub fn first_unfilled(
    alloc: Global,
    ground: &Ground,
    elevation: &[i64],
    sinks: &Sinks,
    con: &[i64],
) -> Result<Option<Cell>, OutOfMemory>
    requires elevation_counted { length elevation.now ≡ ground.now.extent.rows * ground.now.extent.cols }
    requires counted { length con.now ≡ ground.now.extent.rows * ground.now.extent.cols }
    ensures first { IfOk result (λ found. (g : Grid) (s : Surface) → HasCellsOf g (listed_grid ground.now elevation.now sinks.now) → HasHeights g s con.now → MatchOption found (IsLeastSurface g s) (IsFirstUnfilled g s)) }
    ensures between { IfOk result (λ found. (g : Grid) (s : Surface) → HasDataCells g ground.now sinks.now → IsBetween g (λ c. listed_at ground.now.extent elevation.now c) → HasHeights g s con.now → MatchOption found (IsLeastSurface g s) (IsFirstUnfilled g s)) }
{
    let heights = copied(alloc, elevation)?;
    let flood = fill(alloc, ground, heights, sinks)?;
    let (least, _marks) = flood.into_parts();
    Ok(first_other(ground, con, &least))
}

/// The same heights in memory of just their size.
fn copied(alloc: Global, heights: &[i64]) -> Result<Vec<i64>, OutOfMemory>
    ensures { IfOk result (λ copy. copy.items ≡ heights.now) }
{
    let mut copy = Vec::with_capacity(alloc, heights.len())?;
    copy.extend_from_slice(heights)?;
    Ok(copy)
}

/// The first data cell where two lists of heights in row order differ.
fn first_other(ground: &Ground, con: &[i64], least: &[i64]) -> Option<Cell>
    requires counted { length con.now ≡ ground.now.extent.rows * ground.now.extent.cols }
    requires least_counted { length least.now ≡ ground.now.extent.rows * ground.now.extent.cols }
    ensures first { MatchOption result (AreOneBefore ground.now con.now least.now (ground.now.extent.rows * ground.now.extent.cols)) (IsFirstOther ground.now con.now least.now) }
{
    let shape = ground.shape();
    for place in 0..shape.cells() {
        if !is_same_at(con, least, place) {
            let cell = shape.cell(place);
            if ground.has_data(cell) {
                return Some(cell);
            }
        }
    }
    None
}

/// Whether two lists have one height at a place.
fn is_same_at(con: &[i64], least: &[i64], place: usize) -> bool
    requires inside { place < length con.now }
    requires least_inside { place < length least.now }
    ensures { IsTrue result ↔ slice_index_or con.now place (pos 0) ≡ slice_index_or least.now place (pos 0) }
{
    is_same(con[place], least[place])
}

/// Whether two heights are equal.
fn is_same(height: i64, other: i64) -> bool
    ensures { IsTrue result ↔ height ≡ other }
{
    height == other
}
