//! Products on cells that aren't square: which way down is the steepest, worked out by hand.
//!
//! The middle cell of nine is 20 high. Three neighbours are lower: 3 lower in the east, 4 in the south, and between them
//! 5 or 6. So on cells 3 wide and 4 high three ways are equally steep, and the first of them is east.

use crate::agree::same;
use crate::made::{elevation, one_tile};
use crate::raster_numbers::Numbers;
use drain_device::{ByteList, SliceSource};
use drain_grid::{ProductSet, Sinks, SpacingInput, Spacings, parse_spacings};
use drain_maker::{make_dem, make_freeing, read_dem};
use drain_sets::Unfollowed;
use drain_verdict::{RasterInput, Refusal};
use std::alloc::Global;
use std::test::Fail;

/// What is said of the rows; the height in the southeast; how far apart the cells of each row are; and the code of the
/// middle cell.
type Case = (&'static str, u8, &'static [u8], i64);

const CASES: [Case; 9] = [
    ("square cells", 15, b"1 1\n1 1\n1 1\n", 4),
    ("square cells of 30", 15, b"30 30\n30 30\n30 30\n", 4),
    ("three ways equally steep", 15, b"1 1\n3 4\n1 1\n", 1),
    ("width and height turned", 15, b"1 1\n4 3\n1 1\n", 4),
    ("narrow cells", 15, b"1 1\n1 4\n1 1\n", 1),
    ("other rows spaced otherwise", 15, b"9 1\n3 4\n9 1\n", 1),
    ("across the corner", 14, b"1 1\n3 4\n1 1\n", 2),
    ("across the corner of squares", 14, b"1 1\n1 1\n1 1\n", 2),
    ("not across the corner", 14, b"1 1\n4 3\n1 1\n", 4),
];

/// The header of three rows and columns of 8 bits.
const HEADER: &[u8] = b"NROWS 3\nNCOLS 3\nULXMAP 0\nULYMAP 1\nXDIM 1\nYDIM 1\nNBITS 8\n";

/// The spacing of these rows.
fn spaced(alloc: Global, rows: &[u8]) -> Result<Spacings, Fail> {
    Ok(parse_spacings(alloc, &SpacingInput::ByRow(rows))?)
}

/// The products of a tile.
fn made_of_tile(alloc: Global, corner: u8, rows: &[u8]) -> Result<ProductSet, Fail> {
    let layout = one_tile(alloc, 3)?;
    let samples = [30, 30, 30, 30, 20, 17, 30, 16, i16::from(corner)];
    let elevation = elevation(&layout, Vec::from_slice(alloc, &samples)?)?;
    let spacings = spaced(alloc, rows)?;
    let sinks = Sinks::none(alloc);
    Ok(make_freeing(
        alloc,
        &layout,
        elevation,
        &sinks,
        &spacings,
        &mut Unfollowed,
    )?)
}

/// The products of a raster of elevations.
fn made_of_dem(alloc: Global, corner: u8, rows: &[u8]) -> Result<ProductSet, Fail> {
    let body = [30, 30, 30, 30, 20, 17, 30, 16, corner];
    let mut input = [RasterInput {
        header: ByteList::new(HEADER.to_vec(alloc)?),
        body: SliceSource::new(&body),
    }];
    let dem = match read_dem(alloc, &mut input) {
        Ok(dem) => dem,
        Err(Refusal::OutOfMemory) => return Err("failed OutOfMemory".into()),
        Err(_) => return Err("the raster is refused".into()),
    };
    let spacings = spaced(alloc, rows)?;
    let sinks = Sinks::none(alloc);
    Ok(make_dem(alloc, &dem.raster, &sinks, &spacings, &mut Unfollowed)?)
}

/// The code of the middle cell.
fn middle(products: &ProductSet) -> i64 {
    Numbers::of(&products.dir).list[4]
}

#[test]
fn a_tile_s_ways_are_the_steepest_on_its_spacing(rt: HostRuntime) -> Result<(), Fail> {
    for (name, corner, rows, code) in CASES {
        let products = made_of_tile(rt.alloc(), corner, rows)?;
        same(&rt, name, middle(&products), code);
    }
    Ok(())
}

#[test]
fn so_are_those_of_a_raster_of_elevations(rt: HostRuntime) -> Result<(), Fail> {
    for (name, corner, rows, code) in CASES {
        let products = made_of_dem(rt.alloc(), corner, rows)?;
        same(&rt, name, middle(&products), code);
    }
    Ok(())
}
