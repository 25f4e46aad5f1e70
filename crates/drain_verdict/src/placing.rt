//! Whether a raster lies where a mosaic does.

ghost use Rattle.std.specs.Prelude.{◌↔◌, IsTrue, ◌-◌, ◌*◌, ◌^◌, ◌≤◌, ◌*ℤ◌, pos, nat_abs};
ghost use Rattle.drain_mosaic.specs.Tiling as tiling;
ghost use Rattle.drain_verdict.specs.TileGround.{AreWithin, IsPlaced};

use drain_grid::UNITS_PER_DEGREE;
use drain_header::Header;
use drain_mosaic::Layout;

/// How far a raster's corner may lie from the mosaic's: 10^-6 degree, in units of 10^-15 degree.
const CORNER_TOLERANCE: u128 = 1_000_000_000;

/// How much a pixel's size may differ from a sample's: 10^-9 degree, in units of 10^-15 degree.
const SIZE_TOLERANCE: u128 = 1_000_000;

/// No distance that is compared is between numbers further from 0 than this.
const FARTHEST: u128 = 100_000_000_000_000_000_000_000_000_000;

/// Whether two distances are within the given number of units of one another.
fn are_within(units: u128, a: i128, b: i128) -> bool
    requires a { nat_abs a ≤ FARTHEST }
    requires b { nat_abs b ≤ FARTHEST }
    ensures { IsTrue result ↔ AreWithin units a b }
{
    (a - b).unsigned_abs() <= units
}

/// Whether the raster's west edge is the mosaic's.
fn is_at_west(layout: &Layout, header: &Header) -> bool
    ensures { IsTrue result ↔ AreWithin (10 ^ 9) header.now.place.ulx (tiling.west_edge layout.now) }
{
    are_within(CORNER_TOLERANCE, header.place.ulx, layout.west_edge())
}

/// Whether the raster's north edge is the mosaic's.
fn is_at_north(layout: &Layout, header: &Header) -> bool
    ensures { IsTrue result ↔ AreWithin (10 ^ 9) header.now.place.uly (tiling.north_edge layout.now) }
{
    are_within(CORNER_TOLERANCE, header.place.uly, layout.north_edge())
}

/// Whether pixels are as wide as samples: those from one edge of a tile to the other make up one degree.
fn is_as_wide(layout: &Layout, header: &Header) -> bool
    ensures { IsTrue result ↔ AreWithin (10 ^ 6 * (layout.now.side - 1)) (header.now.place.xdim *ℤ pos (layout.now.side - 1)) (pos UNITS_PER_DEGREE) }
{
    let steps = layout.side() - 1;
    are_within(
        SIZE_TOLERANCE * u128::from(steps),
        header.place.xdim * i128::from(steps),
        UNITS_PER_DEGREE as i128,
    )
}

/// Whether pixels are as high as samples.
fn is_as_high(layout: &Layout, header: &Header) -> bool
    ensures { IsTrue result ↔ AreWithin (10 ^ 6 * (layout.now.side - 1)) (header.now.place.ydim *ℤ pos (layout.now.side - 1)) (pos UNITS_PER_DEGREE) }
{
    let steps = layout.side() - 1;
    are_within(
        SIZE_TOLERANCE * u128::from(steps),
        header.place.ydim * i128::from(steps),
        UNITS_PER_DEGREE as i128,
    )
}

/// Whether the header's raster has the mosaic's place.
pub(crate) fn is_placed(layout: &Layout, header: &Header) -> bool
    ensures { IsTrue result ↔ IsPlaced layout.now header.now.place }
{
    is_at_west(layout, header)
        && is_at_north(layout, header)
        && is_as_wide(layout, header)
        && is_as_high(layout, header)
}
