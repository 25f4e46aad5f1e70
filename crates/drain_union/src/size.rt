//! The size of a window or a union.

ghost use Rattle.std.specs.Prelude.{◌≡◌};

use drain_grid::Shape;
use std::marker::Model;

/// How many rows and columns there are. Unlike those of a grid they have no bound but that of 32 bits.
#[derive(Clone, Copy, PartialEq, Eq, Debug)]
pub struct UnionSize {
    pub rows: u32,
    pub cols: u32,
}

impl Model for UnionSize {
    ghost use Rattle.drain_grid.specs.Extent.{Extent};
    ghost use Rattle.drain_union.specs.Sizes.{FitsNumbers};

    ghost Value = { Extent };

    ghost view = { λ s. record { rows = s.rows; cols = s.cols } };

    ghost invariant = { λ s. FitsNumbers (record { rows = s.rows; cols = s.cols }) };

    ghost inverse = { λ e. record { rows = e.rows; cols = e.cols } };
}

impl UnionSize {
    /// That of a grid.
    pub fn of(shape: Shape) -> UnionSize
        ensures { result ≡ shape }
    {
        UnionSize {
            rows: shape.rows(),
            cols: shape.cols(),
        }
    }

    /// How many rows there are.
    pub fn rows(self) -> u32
        ensures { result ≡ self.rows }
    {
        self.rows
    }

    /// How many columns there are.
    pub fn cols(self) -> u32
        ensures { result ≡ self.cols }
    {
        self.cols
    }
}
