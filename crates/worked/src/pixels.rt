//! A raster's number at any cell.

use drain_grid::{Cell, Raster};

/// The number of a cell, if it is one of the raster's.
pub fn number(raster: &Raster, cell: Cell) -> Option<i64> {
    let shape = raster.shape();
    if cell.row < shape.rows() && cell.col < shape.cols() {
        Some(raster.value(cell))
    } else {
        None
    }
}
