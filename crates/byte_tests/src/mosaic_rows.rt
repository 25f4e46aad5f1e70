//! Rows of two tiles next to one another, worked out by hand, from sources that are whole, slow, interrupted or fail.

ghost use Rattle.std.specs.Prelude.{◌≡◌, ◌<◌, IfOk, length};

use crate::agree::same;
use crate::row_sources;
use crate::tiles::two_named;
use drain_device::faults::{ScriptSource, Scripted};
use drain_device::{ByteList, DeviceFault, ReadFault, RowStep};
use drain_grid::Cell;
use drain_hgt::TileInput;
use drain_mosaic::{Layout, MosaicRows};
use std::alloc::{AllocError, Global};
use std::test::Fail;
use worked::calls::at_calls;

/// The samples 1 2 and 3 4.
pub const WEST: [u8; 8] = [0, 1, 0, 2, 0, 3, 0, 4];

/// The same and a byte after them.
const LONG_WEST: [u8; 9] = [0, 1, 0, 2, 0, 3, 0, 4, 0];

/// The same without their last byte.
const SHORT_WEST: [u8; 7] = [0, 1, 0, 2, 0, 3, 0];

/// The samples 2 5 and 4 6, which have the west tile's column 2 4.
pub const EAST: [u8; 8] = [0, 2, 0, 5, 0, 4, 0, 6];

/// The same without their last byte.
const SHORT_EAST: [u8; 7] = [0, 2, 0, 5, 0, 4, 0];

/// The same with a 9 in place of the first.
const OTHER: [u8; 8] = [0, 9, 0, 5, 0, 4, 0, 6];

/// These and a byte after them.
const LONG_OTHER: [u8; 9] = [0, 9, 0, 5, 0, 4, 0, 6, 0];

/// The names of a tile and of that east of it.
pub const BESIDE: [&str; 2] = ["N00E000.hgt", "N00E001.hgt"];

/// What a call answers.
pub type Answer = Result<RowStep, ReadFault>;

/// What four calls gave: their answers; how many numbers, and the first six of them; the seam, and the tile of wrong length.
pub type Given = ([Answer; 4], (usize, [i64; 6]), Option<Cell>, Option<usize>);

/// A tile of this source.
pub fn input<'a>(alloc: Global, body: ScriptSource<'a>) -> TileInput<ScriptSource<'a>> {
    TileInput {
        name: ByteList::new(Vec::new(alloc)),
        body,
    }
}

/// What a call returns. The numbers that it leaves in the row are appended to those of the calls before.
fn call(
    rows: &mut MosaicRows,
    from: &mut [TileInput<ScriptSource<'_>>],
    row: &mut Vec<i64>,
    numbers: &mut Vec<i64>,
) -> Result<Answer, AllocError>
    requires { length from.old ≡ length rows.old.tiles.items }
    ensures { length rows.new.tiles.items ≡ length rows.old.tiles.items }
{
    let answer = rows.next_row(from, row);
    numbers.extend_from_slice(row)?;
    Ok(answer)
}

/// What four calls answer, one after the other.
fn answers(
    rows: &mut MosaicRows,
    from: &mut [TileInput<ScriptSource<'_>>],
    row: &mut Vec<i64>,
    numbers: &mut Vec<i64>,
) -> Result<[Answer; 4], AllocError>
    requires { length from.old ≡ length rows.old.tiles.items }
{
    Ok([
        call(rows, from, row, numbers)?,
        call(rows, from, row, numbers)?,
        call(rows, from, row, numbers)?,
        call(rows, from, row, numbers)?,
    ])
}

/// The rows of two tiles of side 2 with these names.
fn rows_of(alloc: Global, names: [&str; 2]) -> Result<MosaicRows, Fail>
    ensures { IfOk result (λ rows. length rows.tiles.items ≡ 2) }
{
    let layout = Layout::new(alloc, 2, &two_named(names)?)?;
    Ok(MosaicRows::new(alloc, &layout)?)
}

/// What four calls give of two tiles of side 2 with these names.
fn four_calls<'a>(
    alloc: Global,
    names: [&str; 2],
    first: ScriptSource<'a>,
    last: ScriptSource<'a>,
) -> Result<Given, Fail> {
    let mut rows = rows_of(alloc, names)?;
    let mut from = [input(alloc, first), input(alloc, last)];
    let mut numbers = Vec::new(alloc);
    let answers = answers(&mut rows, &mut from, &mut Vec::new(alloc), &mut numbers)?;
    Ok((
        answers,
        (numbers.len(), row_sources::first(&numbers)),
        rows.seam(),
        rows.wrong_length(),
    ))
}

/// What four calls give where the sources never fail.
pub fn of_bytes(
    alloc: Global,
    names: [&str; 2],
    first: &[u8],
    last: &[u8],
    most: usize,
) -> Result<Given, Fail>
    requires { 0 < most }
{
    let first = ScriptSource::new(first, most, &[]);
    let last = ScriptSource::new(last, most, &[]);
    four_calls(alloc, names, first, last)
}

/// Two rows, and then the end.
const WHOLE: [Answer; 4] = [
    Ok(RowStep::Row),
    Ok(RowStep::Row),
    Ok(RowStep::Ended),
    Ok(RowStep::Ended),
];

/// The numbers of whole tiles.
pub const NUMBERS: [i64; 6] = [1, 2, 5, 3, 4, 6];

/// The seam of tiles that differ in the middle of the first row.
const SEAM: Option<Cell> = Some(Cell { row: 0, col: 1 });

/// The bytes of two tiles, and what four calls give of them: the numbers, the seam, and the tile of wrong length.
static PAIRS: [(&[u8], &[u8], [i64; 6], Option<Cell>, Option<usize>); 7] = [
    (&WEST, &EAST, NUMBERS, None, None),
    (&WEST, &OTHER, NUMBERS, SEAM, None),
    (&LONG_WEST, &EAST, NUMBERS, None, Some(0)),
    (&LONG_WEST, &LONG_OTHER, NUMBERS, SEAM, Some(0)),
    (&SHORT_WEST, &EAST, [1, 2, 5, -32768, 4, 6], None, Some(0)),
    (&WEST, &SHORT_EAST, [1, 2, 5, 3, 4, -32768], None, Some(1)),
    (&WEST, &LONG_OTHER, NUMBERS, SEAM, Some(1)),
];

#[test]
fn rows_of_two_tiles(rt: HostRuntime) -> Result<(), Fail> {
    for &(west, east, numbers, seam, wrong) in &PAIRS {
        for most in [1, 100] {
            let given = of_bytes(rt.alloc(), BESIDE, west, east, most)?;
            let expected = (WHOLE, (6, numbers), seam, wrong);
            same(&rt, (west.len(), east.len(), most), given, expected);
        }
    }
    Ok(())
}

/// The samples 3 9 and 7 8.
const SOUTH: [u8; 8] = [0, 3, 0, 9, 0, 7, 0, 8];

/// The names of two tiles, their bytes, and their numbers.
static ABOVE: [([&str; 2], [u8; 8], [u8; 8], [i64; 6]); 2] = [
    (
        ["N01E000.hgt", "N00E000.hgt"],
        WEST,
        SOUTH,
        [1, 2, 3, 4, 7, 8],
    ),
    (
        ["N00E000.hgt", "N01E000.hgt"],
        SOUTH,
        WEST,
        [1, 2, 3, 9, 7, 8],
    ),
];

/// Three rows, and then the end.
const THREE_ROWS: [Answer; 4] = [
    Ok(RowStep::Row),
    Ok(RowStep::Row),
    Ok(RowStep::Row),
    Ok(RowStep::Ended),
];

/// Two tiles that share row 1 of 3 rows, of which the one named first gives the row's last number.
#[test]
fn rows_of_a_tile_above_another(rt: HostRuntime) -> Result<(), Fail> {
    for (names, first, last, numbers) in &ABOVE {
        let given = of_bytes(rt.alloc(), *names, first, last, 100)?;
        let expected = (
            THREE_ROWS,
            (6, *numbers),
            Some(Cell { row: 1, col: 1 }),
            None,
        );
        same(&rt, *names, given, expected);
    }
    Ok(())
}

/// A device that fails at its first, second or last call ends the rows: then no tile is reported, though the west one
/// is long.
#[test]
fn a_device_that_fails(rt: HostRuntime) -> Result<(), Fail> {
    for call in 1..4 {
        let script = [at_calls((call, call), DeviceFault::Failed)];
        let mut answers = [Err(ReadFault::AlreadyFailed); 4];
        for k in 0..call as usize - 1 {
            answers[k] = Ok(RowStep::Row);
        }
        answers[call as usize - 1] = Err(ReadFault::ReadFailed);
        for east_fails in [false, true] {
            let (west, east): (&[Scripted<DeviceFault>], &[Scripted<DeviceFault>]) = if east_fails {
                (&[], &script)
            } else {
                (&script, &[])
            };
            let first = ScriptSource::new(&LONG_WEST, 100, west);
            let last = ScriptSource::new(&EAST, 100, east);
            let (given, (count, _), _, wrong_length) = four_calls(rt.alloc(), BESIDE, first, last)?;
            let expected = (answers, 3 * (call as usize - 1), None);
            same(
                &rt,
                (call, east_fails),
                (given, count, wrong_length),
                expected,
            );
        }
    }
    Ok(())
}

/// The first answer if the western tile's device is interrupted 999 times, and the eastern one's n times.
fn interrupted(alloc: Global, times: u64) -> Result<Answer, Fail> {
    let often = [at_calls((1, 999), DeviceFault::Interrupted)];
    let more_often = [at_calls((1, times), DeviceFault::Interrupted)];
    let first = ScriptSource::new(&WEST, 100, &often);
    let last = ScriptSource::new(&EAST, 100, &more_often);
    let (answers, ..) = four_calls(alloc, BESIDE, first, last)?;
    Ok(answers[0])
}

/// Each tile's device is borne 999 times.
#[test]
fn devices_that_are_interrupted(rt: HostRuntime) -> Result<(), Fail> {
    let borne = interrupted(rt.alloc(), 999)?;
    let not_borne = interrupted(rt.alloc(), 1000)?;
    let expected = [Ok(RowStep::Row), Err(ReadFault::ReadFailed)];
    same(&rt, "999 and 1000 times", [borne, not_borne], expected);
    Ok(())
}
