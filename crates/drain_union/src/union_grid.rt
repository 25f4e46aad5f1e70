//! The grid whose rows and columns reports count: that of tiles on the map, or that of a raster of elevations.

ghost use Rattle.std.specs.Prelude.{◌≡◌, ◌≤◌, ◌*◌, ◌↔◌, ◌*ℤ◌, ◌-ℤ◌};
ghost use Rattle.drain_union.specs.Names.{IsTrue, pos, nat_abs, MAX_LENGTH, IsCoordinate, AreWithinPixel};
ghost use Rattle.drain_union.specs.UnionGrids.{AreCoordinates, AreOfOneRaster, CountsOn, value_of, whole_x, whole_y};

use drain_grid::Cell;
use drain_grid::cell::MAX_LENGTH;

/// Units of 10^-15 in one.
const UNITS: i128 = 1000000000000000;

/// The greatest coordinate of a header, in units of 10^-15.
const GREATEST: i128 = 10000000000000000000000000;

/// The part of a pixel by which places may differ: one in so many.
const PARTS: u32 = 100;

/// A number of a header: whole units, and what is beyond them, in units of 10^-15 and with the same sign.
#[derive(Clone, Copy, PartialEq, Eq, Debug)]
pub struct Decimal {
    pub units: i64,
    pub parts: i64,
}

/// A part of a raster of elevations: the row and column of the whole raster in which it begins, and what its header says
/// of its place, the centre of its first pixel and the sizes of a pixel.
#[derive(Clone, Copy, PartialEq, Eq, Debug)]
pub struct DemPart {
    pub at: Cell,
    pub ulx: Decimal,
    pub uly: Decimal,
    pub xdim: Decimal,
    pub ydim: Decimal,
}

/// The grid whose rows and columns a report counts.
#[derive(Clone, Copy, PartialEq, Eq, Debug)]
pub enum UnionGrid {
    /// That of tiles with this number of samples along an edge, from 90 degrees north and 180 degrees west.
    Tiles(u32),
    /// That of a raster of elevations, from its first pixel. This part of it is the window's.
    Dem(DemPart),
}

impl UnionGrid {
    /// Whether rows and columns on another grid count on this one: tiles have one side, or parts are of one raster.
    ///
    /// Parts are if both place the first pixel of the whole raster within a hundredth of a pixel, and the sizes of pixels
    /// add no more than another hundredth over 28,801 of them.
    pub fn has(&self, other: &UnionGrid) -> bool
        ensures { IsTrue result ↔ CountsOn self.now other.now }
    {
        match (self, other) {
            (UnionGrid::Tiles(side), UnionGrid::Tiles(others)) => others == side,
            (UnionGrid::Dem(part), UnionGrid::Dem(others)) => are_of_one_raster(part, others),
            _ => false,
        }
    }
}

/// The number in units of 10^-15.
fn value(decimal: Decimal) -> i128
    ensures { result ≡ value_of decimal }
{
    i128::from(decimal.units) * UNITS + i128::from(decimal.parts)
}

/// Whether a header may have the number.
fn is_coordinate(decimal: Decimal) -> bool
    ensures { IsTrue result ↔ IsCoordinate (value_of decimal) }
{
    let number = value(decimal);
    -GREATEST <= number && number <= GREATEST
}

/// Whether a header may have the numbers of a part.
fn has_coordinates(part: &DemPart) -> bool
    ensures { IsTrue result ↔ AreCoordinates part.now }
{
    is_coordinate(part.ulx)
        && is_coordinate(part.uly)
        && is_coordinate(part.xdim)
        && is_coordinate(part.ydim)
}

/// The length of so many pixels.
fn length_of(pixels: u32, size: i128) -> i128
    requires size { IsCoordinate size }
    ensures value { result ≡ pos pixels *ℤ size }
    ensures small { nat_abs result ≤ 42949672950000000000000000000000000 }
{
    i128::from(pixels) * size
}

/// How far two numbers of headers are from one another.
fn difference(a: i128, b: i128) -> u128
    requires a { IsCoordinate a }
    requires b { IsCoordinate b }
    ensures value { result ≡ nat_abs (a -ℤ b) }
    ensures small { result ≤ 20000000000000000000000000 }
{
    (a - b).unsigned_abs()
}

/// The centre of the whole raster's first pixel, along a row.
fn whole_x(part: &DemPart) -> i128
    requires { AreCoordinates part.now }
    ensures value { result ≡ whole_x part.now }
    ensures small { nat_abs result ≤ 50000000000000000000000000000000000 }
{
    let west = length_of(part.at.col, value(part.xdim));
    value(part.ulx) - west
}

/// The same along a column.
fn whole_y(part: &DemPart) -> i128
    requires { AreCoordinates part.now }
    ensures value { result ≡ whole_y part.now }
    ensures small { nat_abs result ≤ 50000000000000000000000000000000000 }
{
    let north = length_of(part.at.row, value(part.ydim));
    value(part.uly) + north
}

/// How far the two place the whole raster's first pixel from one another, along a row.
fn apart_x(part: &DemPart, other: &DemPart) -> u128
    requires here { AreCoordinates part.now }
    requires there { AreCoordinates other.now }
    ensures value { result ≡ nat_abs (whole_x other.now -ℤ whole_x part.now) }
    ensures small { result ≤ 100000000000000000000000000000000000 }
{
    (whole_x(other) - whole_x(part)).unsigned_abs()
}

/// The same along a column.
fn apart_y(part: &DemPart, other: &DemPart) -> u128
    requires here { AreCoordinates part.now }
    requires there { AreCoordinates other.now }
    ensures value { result ≡ nat_abs (whole_y other.now -ℤ whole_y part.now) }
    ensures small { result ≤ 100000000000000000000000000000000000 }
{
    (whole_y(other) - whole_y(part)).unsigned_abs()
}

/// Whether a distance, taken this often, is no more than the size of a pixel.
fn is_within_pixel(times: u32, size: i128, distance: u128) -> bool
    requires { times * distance ≤ 10000000000000000000000000000000000000 }
    ensures { IsTrue result ↔ (times * distance ≤ nat_abs size) }
{
    u128::from(times) * distance <= size.unsigned_abs()
}

/// Whether the first pixel of the whole raster lies in one column.
fn is_at_west(part: &DemPart, other: &DemPart) -> bool
    requires here { AreCoordinates part.now }
    requires there { AreCoordinates other.now }
    ensures { IsTrue result ↔ AreWithinPixel 100 (value_of part.now.xdim) (whole_x other.now) (whole_x part.now) }
{
    is_within_pixel(PARTS, value(part.xdim), apart_x(part, other))
}

/// Whether it lies in one row.
fn is_at_north(part: &DemPart, other: &DemPart) -> bool
    requires here { AreCoordinates part.now }
    requires there { AreCoordinates other.now }
    ensures { IsTrue result ↔ AreWithinPixel 100 (value_of part.now.ydim) (whole_y other.now) (whole_y part.now) }
{
    is_within_pixel(PARTS, value(part.ydim), apart_y(part, other))
}

/// Whether pixels are as wide.
fn is_as_wide(part: &DemPart, other: &DemPart) -> bool
    requires here { AreCoordinates part.now }
    requires there { AreCoordinates other.now }
    ensures { IsTrue result ↔ AreWithinPixel (100 * MAX_LENGTH) (value_of part.now.xdim) (value_of other.now.xdim) (value_of part.now.xdim) }
{
    let apart = difference(value(other.xdim), value(part.xdim));
    is_within_pixel(PARTS * MAX_LENGTH, value(part.xdim), apart)
}

/// Whether pixels are as high.
fn is_as_high(part: &DemPart, other: &DemPart) -> bool
    requires here { AreCoordinates part.now }
    requires there { AreCoordinates other.now }
    ensures { IsTrue result ↔ AreWithinPixel (100 * MAX_LENGTH) (value_of part.now.ydim) (value_of other.now.ydim) (value_of part.now.ydim) }
{
    let apart = difference(value(other.ydim), value(part.ydim));
    is_within_pixel(PARTS * MAX_LENGTH, value(part.ydim), apart)
}

/// Whether the other part is of the raster of this one.
fn are_of_one_raster(part: &DemPart, other: &DemPart) -> bool
    ensures { IsTrue result ↔ AreOfOneRaster part.now other.now }
{
    has_coordinates(part)
        && has_coordinates(other)
        && is_at_west(part, other)
        && is_at_north(part, other)
        && is_as_wide(part, other)
        && is_as_high(part, other)
}
