//! The numbers of derived rasters, and the assertion on them.

use drain_grid::{Cell, Raster};
use drain_maker::Derived;
use std::process::Abort;

/// Means no rank.
pub const NONE: i64 = 4_294_967_295;

/// Ends the test if the two differ.
pub fn same(rt: &impl Abort, given: [[i64; 3]; 3], expected: [[i64; 3]; 3]) {
    assert_eq!(rt; given, expected);
}

/// The first three numbers of a row of each raster; -1 past the last.
pub fn numbers(derived: &Derived, row: u32) -> [[i64; 3]; 3] {
    [
        row_of(&derived.acc, row),
        row_of(&derived.bas, row),
        row_of(&derived.rnk, row),
    ]
}

fn row_of(raster: &Raster, row: u32) -> [i64; 3] {
    [
        number_at(raster, row, 0),
        number_at(raster, row, 1),
        number_at(raster, row, 2),
    ]
}

fn number_at(raster: &Raster, row: u32, col: u32) -> i64 {
    let shape = raster.shape();
    if row < shape.rows() && col < shape.cols() {
        raster.value(Cell { row, col })
    } else {
        -1
    }
}
