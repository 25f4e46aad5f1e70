//! Rows of tiles and rasters, worked out by hand, from sources that are whole, slow, interrupted or fail.

use crate::agree::{same, same_text};
use crate::rasters::{PADDED, padded};
use drain_device::faults::ScriptSource;
use drain_device::{DeviceFault, ReadFault, RowSource, RowStep};
use drain_header::ByteOrdering;
use drain_hgt::TileRows;
use drain_raster::RasterRows;
use std::alloc::{AllocError, Global};
use std::test::Fail;
use worked::calls::{Calls, at_calls};

/// Two rows of two samples.
pub const TILE: [u8; 8] = [0x00, 0x01, 0x80, 0x00, 0xff, 0xff, 0x7f, 0xff];

/// The same and a byte after them.
const LONG_TILE: [u8; 9] = [0x00, 0x01, 0x80, 0x00, 0xff, 0xff, 0x7f, 0xff, 0x00];

/// The same without their last byte.
const SHORT_TILE: [u8; 7] = [0x00, 0x01, 0x80, 0x00, 0xff, 0xff, 0x7f];

/// The samples of the tile, in row order.
pub const SAMPLES: [i64; 4] = [1, -32768, -1, 32767];

/// What a row source answers.
pub type Answer = Result<RowStep, ReadFault>;

/// The answers to single calls.
const ROW: Answer = Ok(RowStep::Row);

const ENDED: Answer = Ok(RowStep::Ended);

const WRONG_LENGTH: Answer = Err(ReadFault::WrongLength);

const READ_FAILED: Answer = Err(ReadFault::ReadFailed);

const ALREADY_FAILED: Answer = Err(ReadFault::AlreadyFailed);

/// Two rows, and then the end.
pub const WHOLE: [Answer; 4] = [ROW, ROW, ENDED, ENDED];

/// Two rows, and then a byte too many.
const LONGER: [Answer; 4] = [ROW, ROW, WRONG_LENGTH, ALREADY_FAILED];

/// A row, and then one that isn't whole.
pub const SHORTER: [Answer; 4] = [ROW, WRONG_LENGTH, ALREADY_FAILED, ALREADY_FAILED];

/// A row, and then a read that fails.
pub const FAILED: [Answer; 4] = [ROW, READ_FAILED, ALREADY_FAILED, ALREADY_FAILED];

/// How many numbers there are, and the first four, with zeros where there are fewer.
pub type Numbers = (usize, [i64; 4]);

/// The first of these numbers, with zeros where there are fewer.
pub fn first<const N: usize>(numbers: &[i64]) -> [i64; N] {
    let mut first = [0; N];
    for (place, number) in first.iter_mut().zip(numbers) {
        *place = *number;
    }
    first
}

/// The answers to four calls, how many numbers they left in the vector, and the first of these.
pub fn four_calls<'a, S: RowSource<ScriptSource<'a>>, const N: usize>(
    alloc: Global,
    rows: &mut S,
    mut from: ScriptSource<'a>,
) -> Result<([Answer; 4], (usize, [i64; N])), AllocError> {
    let mut answers = [Ok(RowStep::Ended); 4];
    let mut numbers = Vec::new(alloc);
    let mut row = Vec::new(alloc);
    for answer in &mut answers {
        *answer = rows.next_row(&mut from, &mut row);
        numbers.extend_from_slice(&row)?;
    }
    Ok((answers, (numbers.len(), first(&numbers))))
}

/// What four calls give of a tile of side 2.
pub fn of_tile(
    alloc: Global,
    from: ScriptSource<'_>,
) -> Result<([Answer; 4], Numbers), AllocError> {
    four_calls(alloc, &mut TileRows::new(2), from)
}

/// What four calls give of the padded raster.
pub fn of_raster(
    alloc: Global,
    order: ByteOrdering,
    from: ScriptSource<'_>,
) -> Result<([Answer; 4], Numbers), AllocError> {
    four_calls(alloc, &mut RasterRows::new(padded(order)), from)
}

/// The samples of the tile's first row.
const FIRST_SAMPLES: [i64; 4] = [1, -32768, 0, 0];

/// The bytes of a tile, what four calls answer, and the numbers that they give.
static TILES: [(&[u8], [Answer; 4], Numbers); 3] = [
    (&TILE, WHOLE, (4, SAMPLES)),
    (&LONG_TILE, LONGER, (4, SAMPLES)),
    (&SHORT_TILE, SHORTER, (2, FIRST_SAMPLES)),
];

#[test]
fn a_tile_gives_its_rows(rt: HostRuntime) -> Result<(), Fail> {
    for &(bytes, expected, numbers) in &TILES {
        for most in [100, 1] {
            let given = of_tile(rt.alloc(), ScriptSource::new(bytes, most, &[]))?;
            same(&rt, (bytes.len(), most), given, (expected, numbers));
        }
    }
    Ok(())
}

/// The padded raster without its last byte.
pub const SHORT_PADDED: [u8; 9] = [0xff, 1, 0, 0xfe, 0xff, 0xaa, 0, 0x80, 2];

/// The bytes of a raster and their order, what four calls answer, and the numbers that they give.
static RASTERS: [(ByteOrdering, &[u8], [Answer; 4], Numbers); 4] = [
    (ByteOrdering::Least, &PADDED, WHOLE, (4, [1, -2, -32768, 2])),
    (
        ByteOrdering::Least,
        &SHORT_PADDED,
        SHORTER,
        (2, [1, -2, 0, 0]),
    ),
    (
        ByteOrdering::Most,
        &PADDED,
        WHOLE,
        (4, [256, -257, 128, 512]),
    ),
    (
        ByteOrdering::Most,
        &SHORT_PADDED,
        SHORTER,
        (2, [256, -257, 0, 0]),
    ),
];

#[test]
fn a_raster_gives_its_rows(rt: HostRuntime) -> Result<(), Fail> {
    for &(order, bytes, expected, numbers) in &RASTERS {
        for most in [100, 1] {
            let from = ScriptSource::new(bytes, most, &[]);
            let given = of_raster(rt.alloc(), order, from)?;
            same(&rt, (bytes.len(), most), given, (expected, numbers));
        }
    }
    Ok(())
}

/// What four calls give of the tile and of the raster: all rows, or no more than the first, since a read fails.
fn whole_or_failed(is_whole: bool) -> [([Answer; 4], Numbers); 2] {
    if is_whole {
        [(WHOLE, (4, SAMPLES)), (WHOLE, (4, [1, -2, -32768, 2]))]
    } else {
        [(FAILED, (2, FIRST_SAMPLES)), (FAILED, (2, [1, -2, 0, 0]))]
    }
}

/// A device's answer at two runs of calls, from 0 to 0 at none, and whether all rows come.
pub static RUNS: [(DeviceFault, Calls, Calls, bool); 4] = [
    (DeviceFault::Failed, (6, 6), (0, 0), false),
    (DeviceFault::Interrupted, (2, 1000), (0, 0), true),
    (DeviceFault::Interrupted, (2, 501), (506, 1004), true),
    (DeviceFault::Interrupted, (2, 501), (506, 1005), false),
];

/// At a byte a call the first row of either is there after five calls at most, and the second after ten.
#[test]
fn rows_fail_where_their_source_gives_up(rt: HostRuntime) -> Result<(), Fail> {
    let least = ByteOrdering::Least;
    for &(answer, one, other, is_whole) in &RUNS {
        let script = [at_calls(one, answer), at_calls(other, answer)];
        let [tile_owed, raster_owed] = whole_or_failed(is_whole);
        let tile = of_tile(rt.alloc(), ScriptSource::new(&TILE, 1, &script))?;
        let from = ScriptSource::new(&PADDED, 1, &script);
        let raster = of_raster(rt.alloc(), least, from)?;
        same(&rt, "a tile", tile, tile_owed);
        same(&rt, "a raster", raster, raster_owed);
    }
    Ok(())
}

/// Faults, each with its text.
static FAULTS: [(ReadFault, &str); 4] = [
    (ReadFault::WrongLength, "the input has another length"),
    (ReadFault::ReadFailed, "the read failed"),
    (ReadFault::OutOfMemory, "out of memory"),
    (ReadFault::AlreadyFailed, "an earlier call failed"),
];

#[test]
fn texts_of_faults_of_rows(rt: HostRuntime) -> Result<(), Fail> {
    for (fault, text) in &FAULTS {
        same_text(&rt, rt.alloc(), fault, text)?;
    }
    Ok(())
}
