//! Elevations of one raster in samples of 16 bits, as those of tiles are, where all fit: a flood of these is quicker and
//! takes less memory.

ghost use Rattle.std.specs.Prelude.{◌≡◌, ◌<◌, ◌*◌};
ghost use Rattle.drain_maker.specs.Names.{pos, length, slice_index_or, IfOk, IfSome, true, vec_len, ArePixels, IsNoData};
ghost use Rattle.drain_maker.specs.Narrow.{AreNarrowed, IsNarrowed, IsSampleOf};
ghost use Rattle.drain_maker.specs.ProductFiles.{CanSpellAllIn};

use crate::products::look_at_each;
use drain_grid::{Elevation, KeptNumbers, OutOfMemory, Raster, Shape, VOID};
use std::alloc::Global;

/// The elevations in samples, none if one is no sample, or if voids have another number than those of tiles.
pub(crate) fn narrow_elevation(
    alloc: Global,
    dem: &Raster,
) -> Result<Option<Elevation>, OutOfMemory>
    ensures { IfOk result (λ found. IfSome found (IsNarrowed dem.now)) }
{
    let KeptNumbers::Wide(numbers) = dem.kept() else {
        return Ok(None);
    };
    match narrow_samples(alloc, numbers, dem.nodata())? {
        Some(samples) => Ok(Some(Elevation::new(dem.shape(), samples))),
        None => Ok(None),
    }
}

/// The samples of these numbers, of which one means a void.
fn narrow_samples(
    alloc: Global,
    numbers: &[i64],
    nodata: i64,
) -> Result<Option<Vec<i16>>, OutOfMemory>
    ensures { IfOk result (λ found. IfSome found (λ samples. AreNarrowed nodata numbers.now samples.items)) }
{
    let mut samples = Vec::with_capacity(alloc, numbers.len())?;
    for place in 0..numbers.len() {
        match sample_at(numbers, place, nodata) {
            Some(sample) => samples.push(sample)?,
            None => return Ok(None),
        }
    }
    Ok(Some(samples))
}

/// The sample of the number at a place.
fn sample_at(numbers: &[i64], place: usize, nodata: i64) -> Option<i16>
    requires { place < length numbers.now }
    ensures { IfSome result (IsSampleOf nodata (slice_index_or numbers.now place (pos 0))) }
{
    sample_of(numbers[place], nodata)
}

/// The sample of a number, of which one means a void.
fn sample_of(number: i64, nodata: i64) -> Option<i16>
    ensures { IfSome result (IsSampleOf nodata number) }
{
    match i16::try_from(number) {
        Ok(sample) => {
            if (number == nodata) == (sample == VOID) {
                Some(sample)
            } else {
                None
            }
        }
        Err(_) => None,
    }
}

/// The raster of heights with this no-data number.
pub(crate) fn narrow_raster(shape: Shape, nodata: i64, heights: Vec<i16>) -> Raster
    requires counted { vec_len heights ≡ shape.rows * shape.cols }
    requires nodata { IsNoData nodata }
    ensures is { result ≡ record { extent = shape; nodata = nodata; numbers = heights.items } }
    ensures pixels { ArePixels result }
    ensures spelled { CanSpellAllIn true 16 result }
{
    look_at_each(&heights);
    Raster::of_heights(shape, nodata, heights)
}
