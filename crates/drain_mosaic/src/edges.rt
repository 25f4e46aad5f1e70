//! The edges of a mosaic and its sample spacing, in the units of a header's place.

ghost use Rattle.std.specs.Prelude.{◌≡◌, ◌≤◌, ◌*◌, nat_abs};
ghost use Rattle.drain_mosaic.specs.Tiling.{west_edge, north_edge, spacing_of};

use crate::layout::Layout;
use drain_grid::UNITS_PER_DEGREE;
use drain_hgt::name::{HALF_TURN, POLE};

/// One degree.
const DEGREE: i128 = UNITS_PER_DEGREE as i128;

impl Layout {
    /// The west edge of the box, in units of 10^-15 degree.
    pub fn west_edge(&self) -> i128
        ensures edge { result ≡ west_edge self.now }
        ensures in_range { nat_abs result ≤ HALF_TURN * UNITS_PER_DEGREE }
    {
        i128::from(self.west()) * DEGREE
    }

    /// The north edge of the box, in units of 10^-15 degree.
    pub fn north_edge(&self) -> i128
        ensures edge { result ≡ north_edge self.now }
        ensures in_range { nat_abs result ≤ POLE * UNITS_PER_DEGREE }
    {
        i128::from(self.north()) * DEGREE
    }

    /// From one sample of a tile to the next, in units of 10^-15 degree, rounded down.
    pub fn spacing(&self) -> i128
        ensures spacing { result ≡ spacing_of self.now }
    {
        DEGREE / i128::from(self.side() - 1)
    }
}
