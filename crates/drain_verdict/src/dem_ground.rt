//! The ground of one raster of elevations: its frame is its header, and its rows are its pixels.
//!
//! It has up to 28,801 rows and columns. Heights are whole numbers or floats in any unit, con's in the same. A cell is void
//! where its pixel is the no-data number of the header, or a float that isn't finite.

ghost use Rattle.std.specs.Prelude.{◌≡◌, ◌+◌, ◌≤◌};
ghost use Rattle.drain_verdict.specs.Names.{ℕ, length, IfErr, IfOk, IfSome, IsTrue, None, OnOk, Coming, nth_row, MAX_LENGTH, IsPixel, elevations};
ghost use Rattle.std.specs.List.{All};
ghost use Rattle.drain_verdict.specs.DemGround.{IsDemHeader, IsDemHeaderRefusal};
ghost use Rattle.drain_verdict.specs.InputReads.{RasterHasRead};
ghost use Rattle.drain_verdict.specs.Reading.{IsOfReading, gave_up, told_by};
ghost use Rattle.drain_verdict.specs.ToGive.{IsAfterTold};

use crate::ground::GroundInput;
use crate::next_rows::read_raster;
use drain_answer::Refusal;
use drain_device::ByteSource;
use drain_grid::{HeightKind, OutOfMemory, Shape};
use drain_header::{Header, kind_said, parse_header_of};
use drain_pixels::{GroundRow, Voids};
use drain_raster::laws::{
    elevation_rows_are_pixels, raster_rows_end, raster_rows_take_what_is_needed,
};
use drain_raster::{RasterRows, has_pixel_size, lies_on, shape, voids};
use drain_sets::RasterInput;
use std::alloc::Global;

/// A reader of the raster's rows, which are no longer than those of a grid, and the numbers that mean a void in them.
#[derive(Drop)]
pub struct DemRows {
    raster: RasterRows,
    voids: Voids,
    ghost narrow: { raster.header.cols ≤ MAX_LENGTH },
}

impl<R: ByteSource> GroundInput<R> for RasterInput<R> {
    ghost use Rattle.std.specs.Prelude.{◌≡◌};
    ghost use Rattle.drain_verdict.specs.Names.{length, header_extent, LiesOn};
    ghost use Rattle.drain_verdict.specs.DemGround.{AreHeadersKept, DemHasRead, DemTakesAtMost, DemTexts, ElevationIsItsPixels, EncodesDem, IsDemAfter, IsDemBegun, IsDemHeader, IsDemInput, dem_devices, dem_ground, dem_rows_of};

    type Key = ();

    type Frame = Header;

    type Rows = DemRows;

    ghost Texts = { DemTexts };

    ghost terrain = { dem_ground };

    ghost is_told = { ElevationIsItsPixels };

    ghost admits = { λ inputs. length inputs ≡ 1 };

    ghost encodes = { λ key inputs texts. EncodesDem R.bytes_left inputs texts };

    ghost rows_of = { dem_rows_of };

    ghost key_of = { λ header. tt };

    ghost framed = { λ header texts. IsDemHeader header texts.header };

    ghost kind = { λ header. header.kind };

    ghost extent = { λ header. header_extent header };

    ghost holds = { λ header place. LiesOn header place };

    ghost size = { λ header. 1 };

    ghost fit = { λ header inputs. IsDemInput header inputs };

    ghost begun = { λ header rows. IsDemBegun header rows.raster rows.voids };

    ghost count = { λ rows. 1 };

    ghost after = { λ rows inputs t n. IsDemAfter R.bytes_left rows.raster rows.voids inputs t n };

    ghost has_read = { λ start now failed. DemHasRead R.bytes_left R.counts (start.0.raster, start.1) (now.0.raster, now.1) failed };

    ghost within = { λ key old new. DemTakesAtMost R.bytes_left old new };

    ghost kept = { AreHeadersKept };

    ghost devices = { dem_devices };

    fn frame(_alloc: Global, _key: &(), inputs: &[RasterInput<R>]) -> Result<Header, Refusal> {
        dem_header(&inputs[0])
    }

    fn height_kind(header: &Header) -> HeightKind {
        header.kind
    }

    fn shape(header: &Header) -> Shape {
        shape(header)
    }

    fn is_placed(header: &Header, other: &Header) -> bool {
        lies_on(header, other)
    }

    fn begin(_alloc: Global, header: &Header) -> Result<DemRows, OutOfMemory> {
        let voids = voids(header);
        let raster = RasterRows::new(*header);
        Ok(DemRows { raster, voids })
    }

    fn read_row(
        rows: &mut DemRows,
        inputs: &mut [RasterInput<R>],
        out: &mut GroundRow,
    ) -> Result<(), Refusal> {
        read_elevations(&mut rows.raster, rows.voids, &mut inputs[0].body, out)
    }

    fn refusal_of_length(_header: &Header, rows: &DemRows) -> Option<Refusal> {
        // The law that all rows of a raster come, or that it is found to be short.
        raster_rows_end();
        if rows.raster.is_stopped() {
            Some(Refusal::DemShort)
        } else {
            None
        }
    }

    fn refusal_of_values(_header: &Header, _rows: &DemRows) -> Option<Refusal> {
        None
    }

    fn meaning_laws() {
        raster_rows_end();
        elevation_rows_are_pixels();
    }

    fn reading_laws() {
        raster_rows_take_what_is_needed();
    }
}

/// Reads the next row of a raster as elevations: none after the last, and none where it is short.
fn read_elevations<R: ByteSource>(
    raster: &mut RasterRows,
    voids: Voids,
    body: &mut R,
    out: &mut GroundRow,
) -> Result<(), Refusal>
    ensures rows { OnOk result ((start : Coming) (n : ℕ) → IsAfterTold raster.old (R.bytes_left body.old) start n → IsAfterTold raster.new (R.bytes_left body.new) start (n + 1) × (out.new ≡ elevations voids (nth_row n start))) }
    ensures narrow { OnOk result (length out.new ≤ raster.old.header.cols) }
    ensures pixels { OnOk result (All (λ z. IfSome z IsPixel) out.new) }
    ensures read { RasterHasRead (R.bytes_left body.old) (R.bytes_left body.new) (R.counts body.old) (R.counts body.new) raster.old raster.new (IsTrue (gave_up None (told_by result))) }
    ensures of_reading { IsOfReading (told_by result) }
    ensures keeps_len { raster.new.header.cols ≡ raster.old.header.cols }
{
    let mut pixels = out.take_pixels();
    read_raster(Ok(()), raster, body, &mut pixels)?;
    out.put_pixels(voids, pixels);
    Ok(())
}

/// The header of a raster of elevations, floats if its pixel type says so, or why it is refused: for its own first fault,
/// else since its pixels have no size.
pub fn dem_header<R>(input: &RasterInput<R>) -> Result<Header, Refusal>
    ensures header { IfOk result (λ header. IsDemHeader header input.now.header) }
    ensures refusal { IfErr result (IsDemHeaderRefusal input.now.header) }
{
    let text = input.header.as_slice();
    let header = match parse_header_of(text, kind_said(text)) {
        Ok(header) => header,
        Err(fault) => return Err(Refusal::BadDemHeader(fault)),
    };
    if !has_pixel_size(&header) {
        return Err(Refusal::BadPixelSize);
    }
    Ok(header)
}
