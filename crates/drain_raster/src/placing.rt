//! Whether one raster lies on another, by their headers.

ghost use Rattle.std.specs.Prelude.{◌≡◌, ◌≤◌, ◌*◌, ◌-ℤ◌, ◌↔◌};
ghost use Rattle.drain_raster.specs.Names.{IsTrue, nat_abs, IsCoordinate};
ghost use Rattle.drain_raster.specs.Placing.{AreWithinPixel, HasPixelSize, LiesOn};

use drain_header::Header;

/// The part of a pixel by which the corners of two rasters may differ: one in so many.
const PARTS: u32 = 100;

/// How far two coordinates are from one another.
fn distance(a: i128, b: i128) -> u128
    requires a { IsCoordinate a }
    requires b { IsCoordinate b }
    ensures value { result ≡ nat_abs (a -ℤ b) }
    ensures small { result ≤ 20000000000000000000000000 }
{
    (a - b).unsigned_abs()
}

/// Whether a distance, taken this often, is no more than the size of a pixel.
fn is_within_pixel(times: u32, size: i128, distance: u128) -> bool
    requires times { times ≤ 2880100 }
    requires distance { distance ≤ 20000000000000000000000000 }
    ensures { IsTrue result ↔ (times * distance ≤ nat_abs size) }
{
    u128::from(times) * distance <= size.unsigned_abs()
}

/// Whether the west edge is that of the elevations.
fn is_at_west(elevations: &Header, header: &Header) -> bool
    ensures { IsTrue result ↔ AreWithinPixel 100 elevations.now.place.xdim header.now.place.ulx elevations.now.place.ulx }
{
    let apart = distance(header.place.ulx, elevations.place.ulx);
    is_within_pixel(PARTS, elevations.place.xdim, apart)
}

/// Whether the north edge is that of the elevations.
fn is_at_north(elevations: &Header, header: &Header) -> bool
    ensures { IsTrue result ↔ AreWithinPixel 100 elevations.now.place.ydim header.now.place.uly elevations.now.place.uly }
{
    let apart = distance(header.place.uly, elevations.place.uly);
    is_within_pixel(PARTS, elevations.place.ydim, apart)
}

/// Whether pixels are as wide as those of the elevations.
fn is_as_wide(elevations: &Header, header: &Header) -> bool
    ensures { IsTrue result ↔ AreWithinPixel (100 * elevations.now.cols) elevations.now.place.xdim header.now.place.xdim elevations.now.place.xdim }
{
    let apart = distance(header.place.xdim, elevations.place.xdim);
    is_within_pixel(PARTS * elevations.cols, elevations.place.xdim, apart)
}

/// Whether pixels are as high as those of the elevations.
fn is_as_high(elevations: &Header, header: &Header) -> bool
    ensures { IsTrue result ↔ AreWithinPixel (100 * elevations.now.rows) elevations.now.place.ydim header.now.place.ydim elevations.now.place.ydim }
{
    let apart = distance(header.place.ydim, elevations.place.ydim);
    is_within_pixel(PARTS * elevations.rows, elevations.place.ydim, apart)
}

/// Whether the place of a product lies on a raster of elevations with as many rows and columns. The corners are at most
/// a hundredth of a pixel apart, and the sizes of pixels add at most another hundredth over the whole raster. The unit
/// of both is whatever the headers have.
pub fn lies_on(elevations: &Header, header: &Header) -> bool
    ensures { IsTrue result ↔ LiesOn elevations.now header.now.place }
{
    is_at_west(elevations, header)
        && is_at_north(elevations, header)
        && is_as_wide(elevations, header)
        && is_as_high(elevations, header)
}

/// Whether the pixels of a header have a width and a height above 0.
pub fn has_pixel_size(header: &Header) -> bool
    ensures { IsTrue result ↔ HasPixelSize header.now.place }
{
    header.place.xdim > 0 && header.place.ydim > 0
}
