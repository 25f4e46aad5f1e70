//! What the contracts of a check rest on.
//!
//! A law is a function with an empty body: its contract is the law, and a caller gets the law by calling it.

ghost use Rattle.drain_verdict.specs.Laws.{RasterLaws, InputsAreTold};
ghost use Rattle.drain_verdict.specs.SameGround.{SameElevationsSameAnswer, SameElevationsSameVerdict, SamplesAreElevations, TilesAreRasters};
ghost use Rattle.drain_verdict.specs.TileRows.{TileRowLaws};

use drain_device::ByteSource;
use drain_hgt::laws::names_give_corners;
use drain_laws::{padding_keeps_first_endless, padding_keeps_runs};
use drain_mosaic::laws::{
    rows_are_first_values, rows_are_whole, rows_end, rows_tell_lengths, rows_tell_seams,
    whole_tiles_give_their_samples,
};
use drain_raster::laws::{raster_rows_are_pixels, raster_rows_end};

/// Which rows the bytes of tiles give, and what these rows say of the bytes.
pub(crate) fn tile_row_laws()
    ensures { TileRowLaws }
{
    rows_end();
    rows_are_whole();
    rows_are_first_values();
    rows_tell_seams();
    rows_tell_lengths();
    whole_tiles_give_their_samples();
}

/// Which rows the bytes of rasters give, and what these rows say of the bytes.
pub(crate) fn raster_laws()
    ensures { RasterLaws }
{
    raster_rows_end();
    raster_rows_are_pixels();
}

/// If the sources' bytes are known, the arguments encode some inputs, whatever the names are: so what `check` promises
/// of encoded inputs is promised of each such call.
pub fn inputs_are_told<R: ByteSource>()
    ensures { InputsAreTold R.bytes_left }
{
    names_give_corners();
}

/// The same elevations get the same verdict, of an audit, of a check and on judged rasters, whatever says them: tiles, or a
/// raster.
pub fn same_elevations_same_verdict()
    ensures { SameElevationsSameVerdict }
{
    padding_keeps_runs();
    padding_keeps_first_endless();
}

/// And the same answer, refusals of products too, if neither ground is refused itself and each product lies on both or on
/// neither.
///
/// Each answer about the one is an answer about the other. Unless memory runs out or a read fails, there is only one.
pub fn same_elevations_same_answer()
    ensures { SameElevationsSameAnswer }
{
    padding_keeps_runs();
    padding_keeps_first_endless();
}

/// A raster whose pixels are the samples of a tile, a square of them with -32768 for a void, has the elevations of that one
/// tile.
pub fn samples_are_elevations()
    ensures { SamplesAreElevations }
{}

/// A whole tile, with a header of 16 bits that says so, is a raster of its samples.
pub fn tiles_are_rasters()
    ensures { TilesAreRasters }
{}
