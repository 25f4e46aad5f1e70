//! What follows from the directions of a call, and its numbers as C reads them.

ghost use Rattle.std.specs.Prelude.{◌≡◌, ◌*◌, ◌<◌};
ghost use Rattle.drain_c.specs.Names.{[], as_five, false, length, map, pos, slice_index_or, IfErr, IfOk, AreDerivedIn, IsDeriveRefusalIn, AreCounts, IsCounts};
ghost use Rattle.drain_c.specs.Calls.{OfCall, plain_call};
ghost use Rattle.drain_c.specs.Given.{IsElevationTold, set_in};
ghost use Rattle.drain_verdict.specs.Given.{plain};
ghost use Rattle.drain_verdict.specs.GroundSets.{ForSet};
ghost use Rattle.drain_raster.specs.Bytes.{CanSpellIn};

use crate::call::{Call, Elevations};
use crate::sources::{four_inputs, raster_input, tile_inputs};
use drain_device::{ByteSource, SliceSource};
use drain_grid::{Cell, Judged, Raster, Shape};
use drain_hgt::TileInput;
use drain_maker::{DeriveRefusal, Derived, derive_on};
use drain_mosaic::laws::agreement_gives_elevation;
use drain_verdict::ground::GroundInput;
use drain_verdict::{AuditProducts, RasterInput};
use std::alloc::Global;

/// What follows from the directions of a call, whichever rasters it judges, or why nothing does.
pub fn derive_rasters<'a>(alloc: Global, call: &Call<'a>) -> Result<(Shape, Derived), DeriveRefusal>
    ensures derived { IfOk result (λ made. OfCall (plain_call call.now) (λ i. AreDerivedIn (set_in i) made.1)) }
    ensures elevation { IfOk result (λ made. OfCall (plain_call call.now) IsElevationTold) }
    ensures counts { IfOk result (λ made. AreCounts made.0 made.1) }
    ensures err { IfErr result (λ why. OfCall (plain_call call.now) (λ i. IsDeriveRefusalIn (set_in i) why)) }
{
    // The law that the elevations rest on.
    agreement_gives_elevation();
    answer_of(alloc, call)
}

/// The same without a word about elevations.
fn answer_of<'a>(alloc: Global, call: &Call<'a>) -> Result<(Shape, Derived), DeriveRefusal>
    ensures derived { IfOk result (λ made. OfCall (plain_call call.now) (λ i. AreDerivedIn (set_in i) made.1)) }
    ensures counts { IfOk result (λ made. AreCounts made.0 made.1) }
    ensures err { IfErr result (λ why. OfCall (plain_call call.now) (λ i. IsDeriveRefusalIn (set_in i) why)) }
{
    let mut four = match four_inputs(alloc, Judged::All, &call.rasters) {
        Ok(four) => four,
        Err(refusal) => return Err(DeriveRefusal::Refused(refusal)),
    };
    match &call.elevations {
        Elevations::Tiles { side, tiles } => {
            let mut owned = match tile_inputs(alloc, tiles) {
                Ok(owned) => owned,
                Err(refusal) => return Err(DeriveRefusal::Refused(refusal)),
            };
            let sources = owned.as_mut_slice();
            derived_on::<TileInput<SliceSource<'a>>>(alloc, side, sources, &mut four)
        }
        Elevations::Dem(dem) => {
            let mut dem = match raster_input(alloc, dem) {
                Ok(dem) => [dem],
                Err(refusal) => return Err(DeriveRefusal::Refused(refusal)),
            };
            derived_on::<RasterInput<SliceSource<'a>>>(alloc, &(), &mut dem, &mut four)
        }
    }
}

/// What follows from directions on a ground, with its rows and columns.
fn derived_on<'a, T: GroundInput<SliceSource<'a>>>(
    alloc: Global,
    key: &T::Key,
    inputs: &mut [T],
    products: &mut AuditProducts<SliceSource<'a>>,
) -> Result<(Shape, Derived), DeriveRefusal>
    requires admitted { T.admits inputs.old }
    ensures derived { IfOk result (λ made. ForSet T.terrain (T.encodes key.now inputs.old) ⟦<SliceSource<'a> as ByteSource>⟧.bytes_left (plain []) (as_five products.old) (λ s. AreDerivedIn s made.1)) }
    ensures counts { IfOk result (λ made. AreCounts made.0 made.1) }
    ensures err { IfErr result (λ why. ForSet T.terrain (T.encodes key.now inputs.old) ⟦<SliceSource<'a> as ByteSource>⟧.bytes_left (plain []) (as_five products.old) (λ s. IsDeriveRefusalIn s why)) }
{
    match derive_on::<SliceSource<'a>, T>(alloc, key, inputs, &[], products) {
        Ok((frame, derived)) => Ok((T::shape(&frame), derived)),
        Err(why) => Err(why),
    }
}

/// Writes the numbers of a raster, in row order.
pub fn write_numbers(raster: &Raster, numbers: &mut [u32])
    requires counts { IsCounts raster.now.extent raster.now }
    requires counted { length numbers.old ≡ raster.now.extent.rows * raster.now.extent.cols }
    ensures { map (λ n. pos n) numbers.new ≡ raster.now.numbers }
{
    for place in 0..numbers.len() {
        numbers[place] = number_in(raster, place);
    }
}

/// The number in this place in row order.
fn number_in(raster: &Raster, place: usize) -> u32
    requires counts { IsCounts raster.now.extent raster.now }
    requires inside { place < raster.now.extent.rows * raster.now.extent.cols }
    ensures { pos result ≡ slice_index_or raster.now.numbers place (pos 0) }
{
    let cols = raster.shape().cols() as usize;
    let cell = Cell {
        row: (place / cols) as u32,
        col: (place % cols) as u32,
    };
    narrow(raster.value(cell))
}

/// The number in 32 bits.
fn narrow(number: i64) -> u32
    requires { CanSpellIn false 32 number }
    ensures { pos result ≡ number }
{
    number as u32
}
