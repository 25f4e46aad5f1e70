//! Where a window lies.

ghost use Rattle.std.specs.Prelude.{◌≡◌, ◌↔◌, ◌+◌, ◌^◌, ◌<◌, IsTrue};
ghost use Rattle.drain_union.specs.Windows.{IsJudgedAlong, IsOrigin};

use crate::size::UnionSize;
use drain_grid::cell::MAX_LENGTH;
use drain_grid::{Cell, Shape};

/// How many rows or columns two windows share where they meet: the ring of each, and the first judged row of each.
pub const SEAM_DEPTH: u32 = 2;

/// On which sides of a window its union goes on.
#[derive(Clone, Copy, PartialEq, Eq, Debug)]
pub struct InnerSides {
    pub north: bool,
    pub south: bool,
    pub west: bool,
    pub east: bool,
}

/// Where a window lies in a union, or in a mosaic: the row and column of its first cell there, its size, and its inner
/// sides.
#[derive(Clone, Copy, PartialEq, Eq, Debug)]
pub struct Place {
    pub top: u32,
    pub left: u32,
    pub extent: UnionSize,
    pub inner: InnerSides,
}

impl Place {
    ghost use Rattle.drain_union.specs.Windows.{IsJudgedAt};
    ghost use Rattle.drain_union.specs.Reports.{IsOnSeam};
    ghost use Rattle.drain_union.specs.Windows.{IsPlaceIn, moved};

    /// Whether it lies in a grid of this shape, and each side that isn't inner is the grid's edge.
    pub fn lies_in(&self, shape: Shape) -> bool
        ensures { IsTrue result ↔ IsPlaceIn shape self.now }
    {
        self.fits(shape.rows(), shape.cols())
    }

    /// The same of a union of so many rows and columns, which may be more than a shape has.
    pub fn fits(&self, rows: u32, cols: u32) -> bool
        ensures { IsTrue result ↔ IsPlaceIn (record { rows = rows; cols = cols }) self.now }
    {
        let bottom = end_of(self.top, self.extent.rows());
        let right = end_of(self.left, self.extent.cols());
        let rows = u64::from(rows);
        let cols = u64::from(cols);
        bottom <= rows
            && right <= cols
            && (self.inner.north || self.top == 0)
            && (self.inner.south || bottom == rows)
            && (self.inner.west || self.left == 0)
            && (self.inner.east || right == cols)
    }

    /// Whether this cell of the union is judged in the window that lies here.
    pub fn judges(&self, cell: Cell) -> bool
        ensures { IsTrue result ↔ IsJudgedAt self.now cell }
    {
        let inner = self.inner;
        judges_along(
            self.top,
            self.extent.rows(),
            inner.north,
            inner.south,
            cell.row,
        ) && judges_along(
            self.left,
            self.extent.cols(),
            inner.west,
            inner.east,
            cell.col,
        )
    }

    /// Whether a cell of it lies in one of the outermost so many rows or columns of an inner side.
    pub fn is_on_seam(&self, depth: u32, cell: Cell) -> bool
        ensures { IsTrue result ↔ IsOnSeam depth self.now cell }
    {
        let rows = self.extent.rows();
        let cols = self.extent.cols();
        let inner = self.inner;
        let inside = cell.row < rows && cell.col < cols;
        let beside_rows = (inner.north && cell.row < depth)
            || (inner.south && rows <= cell.row.saturating_add(depth));
        let beside_cols = (inner.west && cell.col < depth)
            || (inner.east && cols <= cell.col.saturating_add(depth));
        inside && (beside_rows || beside_cols)
    }

    /// The same place, if the grid begins at this cell of a larger one.
    pub fn moved(&self, by: Cell) -> Place
        requires rows { by.row + self.now.top < 2 ^ 32 }
        requires cols { by.col + self.now.left < 2 ^ 32 }
        ensures { result ≡ moved by self.now }
    {
        Place {
            top: by.row + self.top,
            left: by.col + self.left,
            extent: self.extent,
            inner: self.inner,
        }
    }
}

/// Whether one of so many rows or columns from the first on, without the outermost one on an inner side, is this one.
fn judges_along(first: u32, count: u32, inner_before: bool, inner_behind: bool, at: u32) -> bool
    ensures { IsTrue result ↔ IsJudgedAlong first count inner_before inner_behind at }
{
    let end = end_of(first, count);
    let here = u64::from(at);
    first <= at && here < end && (!inner_before || first < at) && (!inner_behind || here + 1 < end)
}

/// One more than the last of so many rows or columns from the first on.
pub fn end_of(first: u32, count: u32) -> u64
    ensures { result ≡ first + count }
{
    u64::from(first) + u64::from(count)
}

/// Whether each cell of a grid that begins at this cell of a union has a row and a column of 32 bits there.
pub fn is_origin(origin: Cell) -> bool
    ensures { IsTrue result ↔ IsOrigin origin }
{
    origin.row < u32::MAX - MAX_LENGTH + 1 && origin.col < u32::MAX - MAX_LENGTH + 1
}
