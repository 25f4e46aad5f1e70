//! The products of one raster of elevations that is read from bytes.

use crate::agree::{same, same_numbers};
use crate::raster_numbers::Numbers;
use drain_device::{ByteList, SliceSource};
use drain_grid::{ProductSet, Sinks, Spacing, Spacings};
use drain_maker::{Dem, make_dem, read_dem};
use drain_sets::Unfollowed;
use drain_verdict::{RasterInput, Refusal};
use std::alloc::{AllocError, Global};
use std::test::Fail;

/// A raster of 2 rows and 3 columns, of 16 bits, the most significant byte first, behind a byte and with two more in each
/// row.
const HEADER: &[u8] =
    b"NROWS 2\nNCOLS 3\nULXMAP 0\nULYMAP 1\nXDIM 1\nYDIM 1\nNBITS 16\nBYTEORDER M\nSKIPBYTES 1\nTOTALROWBYTES 8\n";

/// Its heights are 7, -32768, 5 and 6, -2, 5.
static BODY: [u8; 15] = [9, 0, 7, 128, 0, 0, 5, 9, 9, 0, 6, 255, 254, 0, 5];

fn input<'a>(
    alloc: Global,
    line: &[u8],
    body: &'a [u8],
) -> Result<[RasterInput<SliceSource<'a>>; 1], AllocError> {
    let mut header = HEADER.to_vec(alloc)?;
    header.extend_from_slice(line)?;
    Ok([RasterInput {
        header: ByteList::new(header),
        body: SliceSource::new(body),
    }])
}

/// What is read of this raster with one line more in its header, or the refusal.
fn read_with(alloc: Global, line: &[u8], body: &[u8]) -> Result<Result<Dem, Refusal>, AllocError> {
    let mut dem = input(alloc, line, body)?;
    Ok(read_dem(alloc, &mut dem))
}

/// The refusal; none where it was read.
fn refusal(alloc: Global, line: &[u8], body: &[u8]) -> Result<Option<Refusal>, AllocError> {
    Ok(read_with(alloc, line, body)?.err())
}

/// The products of it.
fn made_with(alloc: Global, line: &[u8]) -> Result<ProductSet, Fail> {
    let dem = match read_with(alloc, line, &BODY)? {
        Ok(dem) => dem,
        Err(Refusal::OutOfMemory) => return Err("failed OutOfMemory".into()),
        Err(_) => return Err("the raster is refused".into()),
    };
    let sinks = Sinks::none(alloc);
    let spacings = Spacings::same(alloc, Spacing::unit());
    Ok(make_dem(alloc, &dem.raster, &sinks, &spacings, &mut Unfollowed)?)
}

#[test]
fn a_height_of_a_tile_s_void_is_a_height(rt: HostRuntime) -> Result<(), Fail> {
    let products = made_with(rt.alloc(), b"")?;
    same(&rt, "nodata", products.con.nodata(), 4_294_967_296);
    let con = Numbers::of(&products.con);
    same_numbers(&rt, "con", con.as_slice(), &[7, -32768, 5, 6, -2, 5]);
    let dir = Numbers::of(&products.dir);
    same_numbers(&rt, "dir", dir.as_slice(), &[1, 0, 16, 128, 64, 32]);
    Ok(())
}

#[test]
fn a_void_is_the_header_s_number(rt: HostRuntime) -> Result<(), Fail> {
    let products = made_with(rt.alloc(), b"NODATA 5\n")?;
    same(&rt, "nodata", products.con.nodata(), 5);
    let acc = Numbers::of(&products.acc);
    same_numbers(&rt, "acc", acc.as_slice(), &[1, 4, 0, 1, 1, 0]);
    Ok(())
}

#[test]
fn a_void_is_that_of_a_tile(rt: HostRuntime) -> Result<(), Fail> {
    let products = made_with(rt.alloc(), b"NODATA -32768\n")?;
    same(&rt, "nodata", products.con.nodata(), -32768);
    let con = Numbers::of(&products.con);
    same_numbers(&rt, "con", con.as_slice(), &[7, -32768, 5, 6, -2, 5]);
    let dir = Numbers::of(&products.dir);
    same_numbers(&rt, "dir", dir.as_slice(), &[2, 255, 8, 1, 0, 16]);
    let acc = Numbers::of(&products.acc);
    same_numbers(&rt, "acc", acc.as_slice(), &[1, 0, 1, 1, 5, 1]);
    Ok(())
}

#[test]
fn a_byte_that_is_needed_is_missing(rt: HostRuntime) -> Result<(), Fail> {
    let short = BODY.get(..14).unwrap_or(&[]);
    let refused = refusal(rt.alloc(), b"", short)?;
    same(&rt, "short", refused, Some(Refusal::DemShort));
    let whole = refusal(rt.alloc(), b"", &BODY)?;
    same(&rt, "whole", whole, None);
    Ok(())
}
