//! The products of one raster of floats that is read from bytes, worked out by hand.

use crate::agree::{same, same_numbers};
use crate::raster_numbers::Numbers;
use drain_device::{ByteList, SliceSource};
use drain_grid::{HeightKind, Product, ProductSet, Sinks, Spacing, Spacings};
use drain_header::header_text;
use drain_maker::{Dem, make_dem, read_dem};
use drain_sets::{Unfollowed, header_on};
use drain_verdict::{RasterInput, Refusal};
use std::alloc::Global;
use std::test::Fail;

/// A header of floats of three columns.
const HEADER: &[u8] = b"NCOLS 3\nULXMAP 0\nULYMAP 2\nXDIM 1\nYDIM 1\nNBITS 32\nPIXELTYPE FLOAT\n";

/// The numbers of 0.1 and 0.2, and of NaN.
const TENTH: i64 = 1036831949;

const FIFTH: i64 = 1045220557;

const NAN: i64 = 2143289344;

/// Three rows of 0.2, with 0.1 in the middle.
static PIT: [u8; 36] = [
    205, 204, 76, 62, 205, 204, 76, 62, 205, 204, 76, 62, //
    205, 204, 76, 62, 205, 204, 204, 61, 205, 204, 76, 62, //
    205, 204, 76, 62, 205, 204, 76, 62, 205, 204, 76, 62,
];

/// Three rows of 2, with 1 in the middle, 0.5 in the east and 0.375 in the southeast. The numbers of these are 8388608 and
/// 12582912 below that of 1: by them the southeast were steeper.
static SLOPE: [u8; 36] = [
    0, 0, 0, 64, 0, 0, 0, 64, 0, 0, 0, 64, //
    0, 0, 0, 64, 0, 0, 128, 63, 0, 0, 0, 63, //
    0, 0, 0, 64, 0, 0, 0, 64, 0, 0, 192, 62,
];

/// NaN, 0.2 and infinity; 0.1, infinity below 0 and 0.2.
static VOIDS: [u8; 24] = [
    0, 0, 192, 127, 205, 204, 76, 62, 0, 0, 128, 127, //
    205, 204, 204, 61, 0, 0, 128, 255, 205, 204, 76, 62,
];

/// What is read of these bytes, with these lines more in the header.
fn read(alloc: Global, lines: &[u8], body: &[u8]) -> Result<Dem, Fail> {
    let mut header = HEADER.to_vec(alloc)?;
    header.extend_from_slice(lines)?;
    let mut input = [RasterInput {
        header: ByteList::new(header),
        body: SliceSource::new(body),
    }];
    match read_dem(alloc, &mut input) {
        Ok(dem) => Ok(dem),
        Err(Refusal::OutOfMemory) => Err("failed OutOfMemory".into()),
        Err(_) => Err("the raster is refused".into()),
    }
}

/// The products of them on square cells.
fn made(alloc: Global, lines: &[u8], body: &[u8]) -> Result<ProductSet, Fail> {
    let dem = read(alloc, lines, body)?;
    let sinks = Sinks::none(alloc);
    let spacings = Spacings::same(alloc, Spacing::unit().of_kind(HeightKind::Single));
    Ok(make_dem(alloc, &dem.raster, &sinks, &spacings, &mut Unfollowed)?)
}

#[test]
fn a_pit_is_filled_with_the_float_beside_it(rt: HostRuntime) -> Result<(), Fail> {
    let products = made(rt.alloc(), b"NROWS 3\n", &PIT)?;
    let con = Numbers::of(&products.con);
    same_numbers(&rt, "con", con.as_slice(), &[FIFTH; 9]);
    let rnk = Numbers::of(&products.rnk);
    same_numbers(&rt, "rnk", rnk.as_slice(), &[0, 0, 0, 0, 1, 0, 0, 0, 0]);
    Ok(())
}

#[test]
fn the_steepest_way_is_that_of_the_floats(rt: HostRuntime) -> Result<(), Fail> {
    let products = made(rt.alloc(), b"NROWS 3\n", &SLOPE)?;
    same(&rt, "dir", Numbers::of(&products.dir).list[4], 1);
    Ok(())
}

#[test]
fn what_is_not_finite_is_a_void(rt: HostRuntime) -> Result<(), Fail> {
    let products = made(rt.alloc(), b"NROWS 2\n", &VOIDS)?;
    same(&rt, "nodata", products.con.nodata(), NAN);
    let con = Numbers::of(&products.con);
    same_numbers(
        &rt,
        "con",
        con.as_slice(),
        &[NAN, FIFTH, NAN, TENTH, NAN, FIFTH],
    );
    let dir = Numbers::of(&products.dir);
    same_numbers(&rt, "dir", dir.as_slice(), &[255, 8, 255, 0, 255, 0]);
    Ok(())
}

#[test]
fn voids_have_the_header_s_number(rt: HostRuntime) -> Result<(), Fail> {
    let products = made(rt.alloc(), b"NROWS 2\nNODATA -9999\n", &VOIDS)?;
    let con = Numbers::of(&products.con);
    let void = -1176255488;
    same_numbers(
        &rt,
        "con",
        con.as_slice(),
        &[void, FIFTH, void, TENTH, void, FIFTH],
    );
    Ok(())
}

/// Whether this is the text of con's header beside floats with these lines.
fn is_text_of_con(alloc: Global, lines: &[u8], expected: &str) -> Result<bool, Fail> {
    let dem = read(alloc, lines, &VOIDS)?;
    let text = header_text(alloc, &header_on(&dem.header, Product::Con))?;
    Ok(text.as_slice() == expected.as_bytes())
}

#[test]
fn con_is_of_floats_too(rt: HostRuntime) -> Result<(), Fail> {
    let absent =
        "BYTEORDER I\nLAYOUT BIL\nNROWS 2\nNCOLS 3\nNBANDS 1\nNBITS 32\nBANDROWBYTES 12\nTOTALROWBYTES 12\nSKIPBYTES 0\nPIXELTYPE FLOAT\nULXMAP 0.000000000000000\nULYMAP 2.000000000000000\nXDIM 1.000000000000000\nYDIM 1.000000000000000\nNODATA nan\n";
    same(
        &rt,
        "absent",
        is_text_of_con(rt.alloc(), b"NROWS 2\n", absent)?,
        true,
    );
    let given =
        "BYTEORDER I\nLAYOUT BIL\nNROWS 2\nNCOLS 3\nNBANDS 1\nNBITS 32\nBANDROWBYTES 12\nTOTALROWBYTES 12\nSKIPBYTES 0\nPIXELTYPE FLOAT\nULXMAP 0.000000000000000\nULYMAP 2.000000000000000\nXDIM 1.000000000000000\nYDIM 1.000000000000000\nNODATA -9999.0\n";
    same(
        &rt,
        "given",
        is_text_of_con(rt.alloc(), b"NROWS 2\nNODATA -9999\n", given)?,
        true,
    );
    Ok(())
}
