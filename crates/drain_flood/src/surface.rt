//! A filled surface: the height and the mark of each cell.

ghost use Rattle.std.specs.Prelude.{◌≡◌, ◌*◌, ◌<◌, ◌≤◌};
ghost use Rattle.drain_flood.specs.Names.{[], pos, length, slice_index_or, IsPixel};
ghost use Rattle.drain_flood.specs.declared.level_queue.TheConstants.{MAX_CELLS};

use crate::heights::HeightList;
use crate::places::columns_inverse;
use drain_grid::Shape;
use std::marker::Model;

/// A filled surface and the marks of its cells. Contracts see it as a flood without a trail, where no cell waits.
#[derive(Drop)]
pub struct Surface<C: HeightList> {
    shape: Shape,
    /// For the cells of places.
    inverse: u64,
    con: C,
    mark: Vec<u8>,
}

impl<C: HeightList> Model for Surface<C> {
    ghost use Rattle.std.specs.Prelude.{[]};
    ghost use Rattle.drain_flood.specs.Floods.{Flooding};
    ghost use Rattle.drain_flood.specs.Turns.{AreCells};

    ghost Value = { Flooding };

    ghost view = { λ s. record { extent = s.shape; con = C.numbers s.con; mark = s.mark.items; ahead = []; waiting = [] } };

    ghost invariant = { λ s. AreCells s.shape (C.numbers s.con) s.mark.items };
}

impl<C: HeightList> Surface<C> {
    /// The surface of these heights and marks.
    pub fn new(shape: Shape, con: C, mark: Vec<u8>) -> Surface<C>
        requires few { shape.rows * shape.cols ≤ MAX_CELLS }
        requires con_long { length (C.numbers con) ≡ shape.rows * shape.cols }
        requires mark_long { length mark.items ≡ shape.rows * shape.cols }
        ensures { result ≡ record { extent = shape; con = C.numbers con; mark = mark.items; ahead = []; waiting = [] } }
    {
        Surface {
            shape,
            inverse: columns_inverse(shape),
            con,
            mark,
        }
    }

    /// Returns the heights in row order, and frees the rest.
    pub fn into_heights(self) -> C
        ensures counted { length (C.numbers result) ≡ self.extent.rows * self.extent.cols }
        ensures heights { C.numbers result ≡ self.con }
    {
        self.con
    }

    /// The rows and columns of the grid.
    pub fn shape(&self) -> Shape
        ensures { result ≡ self.now.extent }
    {
        self.shape
    }

    /// The inverse of the number of columns.
    pub(crate) fn inverse(&self) -> u64 {
        self.inverse
    }

    /// The height of the cell at a place.
    #[inline(always)]
    pub(crate) fn level_at(&self, place: usize) -> i64
        requires { place < self.now.extent.rows * self.now.extent.cols }
        ensures level { result ≡ slice_index_or self.now.con place (pos 0) }
        ensures pixel { IsPixel result }
    {
        self.con.height(place)
    }

    /// The mark of the cell at a place.
    pub(crate) fn mark_at(&self, place: usize) -> u8
        requires { place < self.now.extent.rows * self.now.extent.cols }
        ensures { result ≡ slice_index_or self.now.mark place 0 }
    {
        self.mark[place]
    }

    /// The heights of all cells, in row order.
    pub(crate) fn heights(&self) -> &C
        ensures heights { C.numbers result.now ≡ self.now.con }
        ensures counted { length (C.numbers result.now) ≡ self.now.extent.rows * self.now.extent.cols }
    {
        &self.con
    }

    /// The marks of all cells, in row order.
    pub(crate) fn marks(&self) -> &[u8]
        ensures marks { result.now ≡ self.now.mark }
        ensures counted { length result.now ≡ self.now.extent.rows * self.now.extent.cols }
    {
        self.mark.as_slice()
    }
}
