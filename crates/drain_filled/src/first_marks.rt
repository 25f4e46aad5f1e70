//! The first marks of the cells of a ground, with which a flood begins.

ghost use Rattle.std.specs.Prelude.{◌≡◌, ◌*◌};
ghost use Rattle.drain_filled.specs.Names.{IfOk, length, IsCellOf, Grid, HasFirstMarks, IsBetween, IsFirstMark, IsSurfaceOf, listed_at};
ghost use Rattle.drain_filled.specs.Grounds.{HasDataCells};

use crate::ground::Ground;
use drain_flood::layers::{OPEN, UNREACHED, VOID};
use drain_flood::{Flood, fill_heights};
use drain_grid::{Cell, OutOfMemory, Sinks};
use std::alloc::Global;

/// The filled surface of a ground, from any heights between the ground and that surface, in row order.
pub(crate) fn fill(
    alloc: Global,
    ground: &Ground,
    heights: Vec<i64>,
    sinks: &Sinks,
) -> Result<Flood<Vec<i64>>, OutOfMemory>
    requires counted { length heights.items ≡ ground.now.extent.rows * ground.now.extent.cols }
    ensures extent { IfOk result (λ flood. flood.extent ≡ ground.now.extent) }
    ensures surface { IfOk result (λ flood. (g : Grid) → HasDataCells g ground.now sinks.now → IsBetween g (listed_at ground.now.extent heights.items) → IsSurfaceOf g flood) }
{
    let marks = marks_of(alloc, ground, sinks)?;
    fill_heights(alloc, ground.shape(), heights, marks)
}

/// The first mark of each cell, in row order.
fn marks_of(alloc: Global, ground: &Ground, sinks: &Sinks) -> Result<Vec<u8>, OutOfMemory>
    ensures counted { IfOk result (λ marks. length marks.items ≡ ground.now.extent.rows * ground.now.extent.cols) }
    ensures marks { IfOk result (λ marks. (g : Grid) → HasDataCells g ground.now sinks.now → HasFirstMarks g ground.now.extent marks.items) }
{
    let shape = ground.shape();
    let mut marks = Vec::with_capacity(alloc, shape.cells())?;
    for place in 0..shape.cells() {
        marks.push(mark_of(ground, sinks, shape.cell(place)))?;
    }
    Ok(marks)
}

/// The first mark of a cell.
fn mark_of(ground: &Ground, sinks: &Sinks, cell: Cell) -> u8
    requires inside { IsCellOf ground.now.extent cell }
    ensures mark { (g : Grid) → HasDataCells g ground.now sinks.now → IsFirstMark g cell result }
{
    if !ground.has_data(cell) {
        return VOID;
    }
    if ground.is_open(sinks, cell) {
        OPEN
    } else {
        UNREACHED
    }
}
