//! The inputs of the slope, each cut to each shorter length.

use crate::agree::same_line;
use crate::bytes::Bytes;
use crate::example::{Example, one_tile};
use crate::runs::{Checked, told, told_at_once};
use drain_grid::SetProduct;
use std::test::Fail;
use worked::grids::{SLOPE_LINE, slope};

#[test]
fn a_tile_at_each_length(rt: HostRuntime) -> Result<(), Fail> {
    let whole = one_tile(4, &slope());
    for length in 0..=32 {
        let line = if length < 32 {
            "refused BadTileLength N00E000.hgt"
        } else {
            SLOPE_LINE
        };
        let mut cut = whole;
        cut.tiles[0].body = whole.tiles[0].body.first(length);
        let given = told(rt.alloc(), Checked::Check, &cut)?;
        same_line(&rt, ("a tile", length), &given, line);
    }
    Ok(())
}

/// A product, how many bytes its raster has, and the line if there are fewer.
static RASTERS: [(SetProduct, usize, &str); 5] = [
    (SetProduct::Con, 32, "refused RasterShort con"),
    (SetProduct::Dir, 16, "refused RasterShort dir"),
    (SetProduct::Acc, 64, "refused RasterShort acc"),
    (SetProduct::Bas, 64, "refused RasterShort bas"),
    (SetProduct::Rnk, 64, "refused RasterShort rnk"),
];

#[test]
fn each_raster_at_each_length(rt: HostRuntime) -> Result<(), Fail> {
    let whole = one_tile(4, &slope());
    for &(product, needed, short) in &RASTERS {
        for length in 0..=needed {
            let line = if length < needed { short } else { SLOPE_LINE };
            let mut cut = whole;
            cut.raster_mut(product).body = whole.raster(product).body.first(length);
            let given = told(rt.alloc(), Checked::Check, &cut)?;
            same_line(&rt, (short, length), &given, line);
        }
    }
    Ok(())
}

/// The lines of con's header on the slope.
static LINES: [&str; 15] = [
    "BYTEORDER I",
    "LAYOUT BIL",
    "NROWS 4",
    "NCOLS 4",
    "NBANDS 1",
    "NBITS 16",
    "BANDROWBYTES 8",
    "TOTALROWBYTES 8",
    "SKIPBYTES 0",
    "PIXELTYPE SIGNEDINT",
    "ULXMAP 0.000000000000000",
    "ULYMAP 1.000000000000000",
    "XDIM 0.333333333333333",
    "YDIM 0.333333333333333",
    "NODATA -32768",
];

const NO_ROWS: &str = "refused BadHeader con MissingKey NROWS";

const NO_COLS: &str = "refused BadHeader con MissingKey NCOLS";

const NO_WEST: &str = "refused BadHeader con MissingKey ULXMAP";

const NO_NORTH: &str = "refused BadHeader con MissingKey ULYMAP";

const NO_WIDTH: &str = "refused BadHeader con MissingKey XDIM";

const NO_HEIGHT: &str = "refused BadHeader con MissingKey YDIM";

/// The report of a header that is cut in this line, counted from 1, after this number of its bytes or more. A keyword
/// that is cut is ignored, one without a value is reported, and the rest of a number is a number; that of YDIM is near
/// enough to a third from nine digits on.
static TOLD: [(usize, usize, &str); 32] = [
    (1, 0, NO_ROWS),
    (1, 9, "refused BadHeader con BadValue 1"),
    (1, 11, NO_ROWS),
    (2, 6, "refused BadHeader con BadValue 2"),
    (2, 10, NO_ROWS),
    (3, 5, "refused BadHeader con BadValue 3"),
    (3, 7, NO_COLS),
    (4, 5, "refused BadHeader con BadValue 4"),
    (4, 7, NO_WEST),
    (5, 6, "refused BadHeader con BadValue 5"),
    (5, 8, NO_WEST),
    (6, 5, "refused BadHeader con BadValue 6"),
    (6, 7, NO_WEST),
    (7, 12, "refused BadHeader con BadValue 7"),
    (7, 14, NO_WEST),
    (8, 13, "refused BadHeader con BadValue 8"),
    (8, 15, NO_WEST),
    (9, 9, "refused BadHeader con BadValue 9"),
    (9, 11, NO_WEST),
    (10, 9, "refused BadHeader con BadValue 10"),
    (10, 11, NO_WEST),
    (11, 6, "refused BadHeader con BadValue 11"),
    (11, 8, NO_NORTH),
    (12, 6, "refused BadHeader con BadValue 12"),
    (12, 8, NO_WIDTH),
    (13, 4, "refused BadHeader con BadValue 13"),
    (13, 6, NO_HEIGHT),
    (14, 4, "refused BadHeader con BadValue 14"),
    (14, 6, "refused Misplaced con"),
    (14, 16, SLOPE_LINE),
    (15, 6, "refused BadHeader con BadValue 15"),
    (15, 9, SLOPE_LINE),
];

/// The row of the table for a cut in this line after this number of bytes: the one after this row, if that begins here.
fn row_at(row: usize, line: usize, bytes: usize) -> usize {
    let next = row.saturating_add(1);
    match TOLD.get(next) {
        Some(&(from_line, from_bytes, _)) if from_line == line && from_bytes == bytes => next,
        _ => row,
    }
}

/// The report of this row of the table.
fn told_by(row: usize) -> &'static str {
    match TOLD.get(row) {
        Some((_, _, told)) => *told,
        None => "",
    }
}

/// The slope, whose header of con is these lines and the first bytes of one more.
fn slope_headed(before: &Bytes, line: &str, bytes: usize) -> Example {
    let mut example = one_tile(4, &slope());
    example.con.header = *before;
    let cut = Bytes::of(line.as_bytes()).first(bytes);
    example.con.header.extend(cut.as_slice());
    example
}

#[test]
fn a_header_at_each_length(rt: HostRuntime) -> Result<(), Fail> {
    let mut before = Bytes::new();
    let mut number: usize = 0;
    let mut row: usize = 0;
    for &line in &LINES {
        number = number.saturating_add(1);
        for bytes in 0..=line.len() {
            row = row_at(row, number, bytes);
            let cut = slope_headed(&before, line, bytes);
            let given = told_at_once(rt.alloc(), Checked::Check, &cut)?;
            same_line(&rt, (line, bytes), &given, told_by(row));
        }
        before.extend(line.as_bytes());
        before.push(b'\n');
    }
    if row.saturating_add(1) != TOLD.len() {
        return Err("every row of the table".into());
    }
    Ok(())
}
