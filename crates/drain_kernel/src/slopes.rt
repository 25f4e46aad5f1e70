//! How steepness is compared along a row: fractions below the ratios of its cells' three distances.

ghost use Rattle.std.specs.Prelude.{◌≡◌};
ghost use Rattle.drain_kernel.specs.Names.{col_square, corner_square, row_square, IsBelow};

use drain_grid::{Direction, Spacing};
use drain_slope::fraction::{Fraction, fraction_below};

/// How far apart the cells of a row are, and for each two of their distances a fraction no greater than the ratio of the
/// first to the second.
#[derive(Clone, Copy)]
pub struct Slopes {
    pub(crate) spacing: Spacing,
    pub(crate) row_col: Fraction,
    pub(crate) row_corner: Fraction,
    pub(crate) col_row: Fraction,
    pub(crate) col_corner: Fraction,
    pub(crate) corner_row: Fraction,
    pub(crate) corner_col: Fraction,
    ghost row_col_below: { IsBelow (row_square spacing) (col_square spacing) row_col },
    ghost row_corner_below: { IsBelow (row_square spacing) (corner_square spacing) row_corner },
    ghost col_row_below: { IsBelow (col_square spacing) (row_square spacing) col_row },
    ghost col_corner_below: { IsBelow (col_square spacing) (corner_square spacing) col_corner },
    ghost corner_row_below: { IsBelow (corner_square spacing) (row_square spacing) corner_row },
    ghost corner_col_below: { IsBelow (corner_square spacing) (col_square spacing) corner_col },
}

impl Slopes {
    /// Those of cells that are so far apart.
    pub fn of(spacing: Spacing) -> Slopes
        ensures { result.spacing ≡ spacing }
    {
        let row = spacing.distance_square(Direction::East);
        let col = spacing.distance_square(Direction::South);
        let corner = spacing.distance_square(Direction::SouthEast);
        Slopes {
            spacing,
            row_col: fraction_below(row, col),
            row_corner: fraction_below(row, corner),
            col_row: fraction_below(col, row),
            col_corner: fraction_below(col, corner),
            corner_row: fraction_below(corner, row),
            corner_col: fraction_below(corner, col),
        }
    }

    /// How far apart the cells are.
    pub fn spacing(&self) -> Spacing
        ensures { result ≡ self.now.spacing }
    {
        self.spacing
    }
}
