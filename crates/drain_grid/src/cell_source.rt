//! Where the values at the cells of a grid come from: the trait for the inputs of patches.
//!
//! A source is apart from the rasters because it need not keep them: it may read its values in place.

ghost use Rattle.std.specs.Prelude.{◌≡◌, ℕ};
ghost use Rattle.drain_grid.specs.declared.cell.Cell.{Cell};
ghost use Rattle.drain_grid.specs.Extent.{IsCellOf, Extent};
ghost use Rattle.drain_grid.specs.Spacing.{Distances};
ghost use Rattle.drain_grid.specs.Values.{Values};

use crate::cell::{Cell, Shape};
use crate::spacing::Spacing;
use crate::values::CellValues;

/// A grid that gives the values at each of its cells.
pub trait CellSource {
    /// The rows and columns of the grid.
    ghost size: { Self → Extent };

    /// The values that the source gives at a cell.
    ghost shown: { Self → Cell → Values };

    /// How far apart the cells of a row are from their neighbours.
    ghost spaced: { Self → ℕ → Distances };

    /// The rows and columns of the grid.
    fn shape(&self) -> Shape
        ensures { result ≡ size self.now };

    /// The values at a cell.
    fn values(&self, cell: Cell) -> CellValues
        requires { IsCellOf (size self.now) cell }
        ensures { result ≡ shown self.now cell };

    /// How far apart the cells of a row are from their neighbours.
    fn spacing(&self, row: u32) -> Spacing
        ensures { result ≡ spaced self.now row };
}
