//! Which cells of a grid have data, and which of these are open.

ghost use Rattle.std.specs.Prelude.{◌≡◌, ◌↔◌, ◌*◌, ◌⊎◌};
ghost use Rattle.drain_filled.specs.Names.{IsTrue, length, vec_len, Direction, IsCellOf, is_listed, UNREACHED};
ghost use Rattle.drain_filled.specs.Grounds.{IsGapBeside, data_mark};

use drain_flood::layers::UNREACHED;
use drain_grid::{Cell, Direction, Shape, Sinks};
use std::marker::Model;

/// Which cells of a grid have data: a mark for each in row order.
#[derive(Drop)]
pub struct Ground {
    shape: Shape,
    marks: Vec<u8>,
}

impl Model for Ground {
    ghost use Rattle.std.specs.Prelude.{◌≡◌, ◌*◌, length};
    ghost use Rattle.drain_filled.specs.Grounds.{DataCells};

    ghost Value = { DataCells };

    ghost view = { λ w. record { extent = w.shape; marks = w.marks.items } };

    ghost invariant = { λ w. length w.marks.items ≡ w.shape.rows * w.shape.cols };
}

impl Ground {
    /// The cells of a grid of this shape: those whose mark is 254 (`UNREACHED` of drain_flood) have data.
    pub fn new(shape: Shape, marks: Vec<u8>) -> Ground
        requires counted { vec_len marks ≡ shape.rows * shape.cols }
        ensures { result ≡ record { extent = shape; marks = marks.items } }
    {
        Ground { shape, marks }
    }

    /// The rows and columns of the grid.
    pub fn shape(&self) -> Shape
        ensures { result ≡ self.now.extent }
    {
        self.shape
    }

    /// The marks in row order.
    pub(crate) fn marks(&self) -> &[u8]
        ensures marks { result.now ≡ self.now.marks }
        ensures counted { length result.now ≡ self.now.extent.rows * self.now.extent.cols }
    {
        self.marks.as_slice()
    }

    /// Whether a cell has data.
    pub fn has_data(&self, cell: Cell) -> bool
        requires inside { IsCellOf self.now.extent cell }
        ensures { IsTrue result ↔ data_mark self.now cell ≡ UNREACHED }
    {
        self.marks[self.shape.index(cell)] == UNREACHED
    }

    /// Whether a data cell is open: listed, or beside a gap.
    pub(crate) fn is_open(&self, sinks: &Sinks, cell: Cell) -> bool
        ensures { IsTrue result ↔ (IsTrue (is_listed sinks.now cell) ⊎ ((d : Direction) × IsGapBeside self.now cell d)) }
    {
        sinks.has(cell) || self.is_beside_gap(cell)
    }

    /// Whether there is no data in some direction.
    fn is_beside_gap(&self, cell: Cell) -> bool
        ensures { IsTrue result ↔ ((d : Direction) × IsGapBeside self.now cell d) }
    {
        for direction in Direction::ALL {
            if self.is_gap(cell, direction) {
                return true;
            }
        }
        false
    }

    /// Whether there is no data in this direction: around the grid, or at a void.
    fn is_gap(&self, cell: Cell, direction: Direction) -> bool
        ensures { IsTrue result ↔ IsGapBeside self.now cell direction }
    {
        match self.shape.step(cell, direction) {
            Some(next) => !self.has_data(next),
            None => true,
        }
    }
}
