//! How the definitions of this crate fit together.
//!
//! A law is a function with an empty body: its contract is the law, and code that calls it can use the law.

ghost use Rattle.drain_raster.specs.Elevations.{ElevationRowsArePixels};
ghost use Rattle.drain_raster.specs.Laws.{BytesReadBack, NumbersArePixels, RasterRowsArePixels, RasterRowsEnd, RasterRowsTakeWhatIsNeeded, RasterRowsTellLengths};

/// If a raster's pixels can encode each number, its bytes are long enough and read back to the same numbers.
pub fn bytes_read_back()
    ensures { BytesReadBack }
{}

/// The number of a body's raster at a cell is the pixel of the cell.
pub fn numbers_are_pixels()
    ensures { NumbersArePixels }
{}

/// The rows of a raster that isn't short are its pixels.
pub fn raster_rows_are_pixels()
    ensures { RasterRowsArePixels }
{}

/// A raster's rows end wrong exactly if it is short.
pub fn raster_rows_tell_lengths()
    ensures { RasterRowsTellLengths }
{}

/// All rows of a raster read the bytes that it needs, and no more.
pub fn raster_rows_take_what_is_needed()
    ensures { RasterRowsTakeWhatIsNeeded }
{}

/// The rows of a raster that isn't short have a number per column, and none follows the last; there a short one is
/// found.
pub fn raster_rows_end()
    ensures { RasterRowsEnd }
{}

/// The elevations of the rows of a raster that isn't short are those that its bytes mean.
pub fn elevation_rows_are_pixels()
    ensures { ElevationRowsArePixels }
{
    raster_rows_are_pixels();
    raster_rows_end();
}
