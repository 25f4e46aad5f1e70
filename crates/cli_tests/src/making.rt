//! Makes products of tiles or of one raster, and writes them as files in memory.

ghost use Rattle.std.specs.Prelude.{◌≡◌, Ok, length};

use crate::inputs::{Parts, Tile, at_zero, inputs, product};
use crate::printed::{Printed, room};
use drain_cli::runs::make_set::{make_dem_set, make_set};
use drain_cli::runs::write_set::write_and_place;
use drain_device::{ByteSink, VecSink};
use drain_files::open_failure::Placing;
use drain_grid::Product;
use drain_maker::product_header;
use drain_sets::{FILE_COUNT, SetFault, Unfollowed};
use drain_verdict::Given;
use std::alloc::{AllocError, Global};
use std::test::Fail;

/// A tile of side 3 with border 5 and a pit of 1.
const PIT: [u8; 18] = [0, 5, 0, 5, 0, 5, 0, 5, 0, 1, 0, 5, 0, 5, 0, 5, 0, 5];

/// The tile with the pit, at 0 degrees.
pub fn pit() -> [Tile<'static>; 1] {
    at_zero(&PIT)
}

/// Files that are written under their own names.
#[derive(Drop)]
struct InPlace;

impl Placing for InPlace {
    ghost has_placed = { λ old new result. result ≡ Ok tt };

    fn place(&mut self) -> Result<(), SetFault> {
        Ok(())
    }
}

/// Makes products of the tiles with this list of sinks, and writes them as these files. If none are made the files are
/// unchanged.
fn set_status<F: ByteSink>(
    alloc: Global,
    side: u32,
    tiles: &[Tile<'_>],
    sinks: &[u8],
    files: &mut [F],
    out: &mut VecSink,
) -> Result<u8, AllocError>
    requires { length files.old ≡ FILE_COUNT }
{
    let mut inputs = inputs(alloc, tiles)?;
    match make_set(
        alloc,
        side,
        inputs.as_mut_slice(),
        sinks,
        &mut Unfollowed,
        out,
    ) {
        Ok((layout, products)) => Ok(write_and_place(
            alloc,
            &product_header(&layout, Product::Con),
            &products,
            files,
            &mut InPlace,
            out,
        )),
        Err(status) => Ok(status),
    }
}

/// The same of one raster of elevations.
fn dem_status<F: ByteSink>(
    alloc: Global,
    dem: Parts<'_>,
    given: &Given,
    files: &mut [F],
    out: &mut VecSink,
) -> Result<u8, AllocError>
    requires { length files.old ≡ FILE_COUNT }
{
    let mut dem = [product(alloc, dem)?];
    match make_dem_set(alloc, &mut dem, given, &mut Unfollowed, out) {
        Ok((header, products)) => Ok(write_and_place(
            alloc,
            &header,
            &products,
            files,
            &mut InPlace,
            out,
        )),
        Err(status) => Ok(status),
    }
}

/// The output of a run that makes products of the tiles with this list of sinks, and writes them as these files.
pub fn make<F: ByteSink>(
    alloc: Global,
    side: u32,
    tiles: &[Tile<'_>],
    sinks: &[u8],
    files: &mut [F],
) -> Result<Printed, Fail>
    requires { length files.old ≡ FILE_COUNT }
{
    let mut out = VecSink::new(room(alloc)?);
    let status = set_status(alloc, side, tiles, sinks, files, &mut out)?;
    Ok(Printed::new(out.as_slice(), status)?)
}

/// The output of a run that makes products of one raster of elevations with what is given.
pub fn make_on<F: ByteSink>(
    alloc: Global,
    dem: Parts<'_>,
    given: &Given,
    files: &mut [F],
) -> Result<Printed, Fail>
    requires { length files.old ≡ FILE_COUNT }
{
    let mut out = VecSink::new(room(alloc)?);
    let status = dem_status(alloc, dem, given, files, &mut out)?;
    Ok(Printed::new(out.as_slice(), status)?)
}
