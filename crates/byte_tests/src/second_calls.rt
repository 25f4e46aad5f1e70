//! Calls after one that ran out of memory give the right result. Alone, the tests have memory; `tests/refuse_memory.c`
//! refuses it.

ghost use Rattle.std.specs.Prelude.{◌≡◌, IfOk, length};

use crate::agree::same;
use crate::header_lines::CONDITIONED;
use crate::mosaic_rows::{BESIDE, EAST, NUMBERS, WEST, input, of_bytes};
use crate::rasters::{PADDED, padded};
use crate::row_sources::{SAMPLES, TILE, of_raster, of_tile};
use crate::tiles::two_named;
use drain_device::faults::ScriptSource;
use drain_device::{ReadFault, RowSource, RowStep};
use drain_grid::{Cell, Elevation, OutOfMemory, Product, Raster};
use drain_header::{ByteOrdering, header_text};
use drain_hgt::{TileFault, TileInput, TileName, TileRows, read_tile};
use drain_mosaic::{Layout, LayoutFault, MosaicRows, SeamFault, join};
use drain_pixels::PixelRow;
use drain_raster::{RasterFault, RasterRows, read_raster};
use std::alloc::Global;
use std::test::Fail;
use worked::headers::CON_TEXT;
use worked::memory::{gave_out, owed};

/// The samples of a tile of side 2, where there are four.
fn samples(alloc: Global) -> Result<Option<[i16; 4]>, TileFault> {
    let samples = read_tile(alloc, 2, &TILE)?;
    Ok(samples.as_slice().try_into().ok())
}

#[test]
fn samples_after_refused_memory(rt: HostRuntime) -> Result<(), Fail> {
    let right = Ok(Some([1, -32768, -1, 32767]));
    let first = samples(rt.alloc());
    let expected = owed(rt.alloc(), Err(TileFault::OutOfMemory), right);
    same(&rt, "first", first, expected);
    same(&rt, "again", samples(rt.alloc()), right);
    Ok(())
}

/// Whether a header's text is what it should be.
fn is_right_text(alloc: Global) -> Result<bool, OutOfMemory> {
    let text = header_text(alloc, &CONDITIONED)?;
    Ok(text.as_slice() == CON_TEXT.as_bytes())
}

#[test]
fn text_of_a_header_after_refused_memory(rt: HostRuntime) -> Result<(), Fail> {
    let first = is_right_text(rt.alloc());
    let expected = owed(rt.alloc(), Err(OutOfMemory), Ok(true));
    same(&rt, "first", first, expected);
    same(&rt, "again", is_right_text(rt.alloc()), Ok(true));
    Ok(())
}

/// The first four numbers of a raster, with zeros where there are fewer.
fn first_four(raster: &Raster) -> [i64; 4] {
    let shape = raster.shape();
    let mut numbers = [0; 4];
    for row in 0..shape.rows() {
        for col in 0..shape.cols() {
            let cell = Cell { row, col };
            if let Some(place) = numbers.get_mut(shape.index(cell)) {
                *place = raster.value(cell);
            }
        }
    }
    numbers
}

/// The numbers of the padded raster.
fn pixels(alloc: Global) -> Result<[i64; 4], RasterFault> {
    let raster = read_raster(alloc, Product::Con, &padded(ByteOrdering::Least), &PADDED)?;
    Ok(first_four(&raster))
}

#[test]
fn pixels_after_refused_memory(rt: HostRuntime) -> Result<(), Fail> {
    let right = Ok([1, -2, -32768, 2]);
    let first = pixels(rt.alloc());
    let expected = owed(rt.alloc(), Err(RasterFault::OutOfMemory), right);
    same(&rt, "first", first, expected);
    same(&rt, "again", pixels(rt.alloc()), right);
    Ok(())
}

/// The rows and columns, the west and the north of two tiles of side 2; none where they have a fault.
fn layout_of(alloc: Global, names: [TileName; 2]) -> Result<Option<[i64; 4]>, OutOfMemory> {
    match Layout::new(alloc, 2, &names) {
        Ok(layout) => Ok(Some([
            i64::from(layout.shape().rows()),
            i64::from(layout.shape().cols()),
            i64::from(layout.west()),
            i64::from(layout.north()),
        ])),
        Err(LayoutFault::OutOfMemory) => Err(OutOfMemory),
        Err(_) => Ok(None),
    }
}

#[test]
fn a_layout_after_refused_memory(rt: HostRuntime) -> Result<(), Fail> {
    let names = two_named(BESIDE)?;
    let right = Ok(Some([2, 3, 0, 1]));
    let first = layout_of(rt.alloc(), names);
    let expected = owed(rt.alloc(), Err(OutOfMemory), right);
    same(&rt, "first", first, expected);
    same(&rt, "again", layout_of(rt.alloc(), names), right);
    Ok(())
}

/// The first six heights of an elevation, with zeros where there are fewer, and for voids.
fn first_six(elevation: &Elevation) -> [i16; 6] {
    let shape = elevation.shape();
    let mut heights = [0; 6];
    for row in 0..shape.rows() {
        for col in 0..shape.cols() {
            let cell = Cell { row, col };
            if let Some(place) = heights.get_mut(shape.index(cell)) {
                *place = elevation.z(cell).unwrap_or(0);
            }
        }
    }
    heights
}

/// A tile's samples. Running out of memory is reported as that of a join.
fn tile_of(alloc: Global, samples: [i16; 4]) -> Result<Vec<i16>, SeamFault>
    ensures { IfOk result (λ tile. length tile.items ≡ 4) }
{
    match Vec::from_slice(alloc, &samples) {
        Ok(tile) => Ok(tile),
        Err(_) => Err(SeamFault::OutOfMemory),
    }
}

/// The heights of two tiles, side by side.
fn heights(alloc: Global, names: [TileName; 2]) -> Result<[i16; 6], SeamFault> {
    let west = tile_of(alloc, [1, 2, 3, 4])?;
    let east = tile_of(alloc, [2, 5, 4, 6])?;
    let Ok(layout) = Layout::new(alloc, 2, &names) else {
        return Err(SeamFault::OutOfMemory);
    };
    let elevation = join(alloc, &layout, &[west, east])?;
    Ok(first_six(&elevation))
}

#[test]
fn heights_after_refused_memory(rt: HostRuntime) -> Result<(), Fail> {
    let names = two_named(BESIDE)?;
    let right = Ok([1, 2, 5, 3, 4, 6]);
    let first = heights(rt.alloc(), names);
    let expected = owed(rt.alloc(), Err(SeamFault::OutOfMemory), right);
    same(&rt, "first", first, expected);
    same(&rt, "again", heights(rt.alloc(), names), right);
    Ok(())
}

/// What a row source answers.
type Answer = Result<RowStep, ReadFault>;

/// What five calls answer, memory being granted again before the last, and whether it gave out.
type Answers = ([Answer; 5], bool);

/// Expected of five calls: two rows and then the end; if memory ran out, some rows, that error, and nothing after it.
fn owed_answers(given: &Answers) -> [Answer; 5] {
    let (answers, gave_out) = given;
    let ended = Ok(RowStep::Ended);
    let row = Ok(RowStep::Row);
    if !*gave_out {
        return [row, row, ended, ended, ended];
    }
    let mut owed = [Err(ReadFault::AlreadyFailed); 5];
    for (place, answer) in owed.iter_mut().zip(answers) {
        match answer {
            Ok(RowStep::Row) => *place = row,
            _ => {
                *place = Err(ReadFault::OutOfMemory);
                break;
            }
        }
    }
    owed
}

/// What a call answers that has a vector of its own for its row.
fn call<'a, S: RowSource<ScriptSource<'a>>>(
    alloc: Global,
    rows: &mut S,
    from: &mut ScriptSource<'a>,
) -> Answer {
    let mut row = Vec::new(alloc);
    rows.next_row(from, &mut row)
}

/// What five calls answer.
fn five_calls<'a, S: RowSource<ScriptSource<'a>>>(
    alloc: Global,
    rows: &mut S,
    mut from: ScriptSource<'a>,
) -> Answers {
    let before = [
        call(alloc, rows, &mut from),
        call(alloc, rows, &mut from),
        call(alloc, rows, &mut from),
        call(alloc, rows, &mut from),
    ];
    let gave_out = gave_out(alloc);
    let [first, second, third, fourth] = before;
    let last = call(alloc, rows, &mut from);
    ([first, second, third, fourth, last], gave_out)
}

#[test]
fn rows_of_a_tile_after_refused_memory(rt: HostRuntime) -> Result<(), Fail> {
    let from = ScriptSource::new(&TILE, 100, &[]);
    let given = five_calls(rt.alloc(), &mut TileRows::new(2), from);
    same(&rt, "first", given.0, owed_answers(&given));
    let (_, numbers) = of_tile(rt.alloc(), ScriptSource::new(&TILE, 100, &[]))?;
    same(&rt, "again", numbers, (4, SAMPLES));
    Ok(())
}

#[test]
fn rows_of_a_raster_after_refused_memory(rt: HostRuntime) -> Result<(), Fail> {
    let least = ByteOrdering::Least;
    let from = ScriptSource::new(&PADDED, 100, &[]);
    let given = five_calls(rt.alloc(), &mut RasterRows::new(padded(least)), from);
    same(&rt, "first", given.0, owed_answers(&given));
    let (_, numbers) = of_raster(rt.alloc(), least, ScriptSource::new(&PADDED, 100, &[]))?;
    same(&rt, "again", numbers, (4, [1, -2, -32768, 2]));
    Ok(())
}

/// What a call of `next_pixels` answers that has a row of its own.
fn call_for_pixels(alloc: Global, rows: &mut RasterRows, from: &mut ScriptSource<'_>) -> Answer {
    let mut row = PixelRow::new(alloc);
    rows.next_pixels(from, &mut row)
}

/// What five calls of `next_pixels` answer.
fn five_of_pixels(alloc: Global, rows: &mut RasterRows, mut from: ScriptSource<'_>) -> Answers {
    let before = [
        call_for_pixels(alloc, rows, &mut from),
        call_for_pixels(alloc, rows, &mut from),
        call_for_pixels(alloc, rows, &mut from),
        call_for_pixels(alloc, rows, &mut from),
    ];
    let gave_out = gave_out(alloc);
    let [first, second, third, fourth] = before;
    let last = call_for_pixels(alloc, rows, &mut from);
    ([first, second, third, fourth, last], gave_out)
}

/// What five calls answer of the padded raster in this order.
fn five_of_padded(alloc: Global, order: ByteOrdering) -> Answers {
    let from = ScriptSource::new(&PADDED, 100, &[]);
    five_of_pixels(alloc, &mut RasterRows::new(padded(order)), from)
}

#[test]
fn bytes_of_pixels_after_refused_memory(rt: HostRuntime) -> Result<(), Fail> {
    let given = five_of_padded(rt.alloc(), ByteOrdering::Least);
    same(&rt, "bytes", given.0, owed_answers(&given));
    Ok(())
}

#[test]
fn numbers_of_pixels_after_refused_memory(rt: HostRuntime) -> Result<(), Fail> {
    let given = five_of_padded(rt.alloc(), ByteOrdering::Most);
    same(&rt, "numbers", given.0, owed_answers(&given));
    Ok(())
}

/// New rows of two tiles of side 2. Running out of memory is reported as that of their first row.
fn rows_of_pair(alloc: Global, names: [TileName; 2]) -> Result<MosaicRows, ReadFault>
    ensures { IfOk result (λ rows. length rows.tiles.items ≡ 2) }
{
    let Ok(layout) = Layout::new(alloc, 2, &names) else {
        return Err(ReadFault::OutOfMemory);
    };
    match MosaicRows::new(alloc, &layout) {
        Ok(rows) => Ok(rows),
        Err(_) => Err(ReadFault::OutOfMemory),
    }
}

/// What a call answers that has a vector of its own for its row.
fn call_of_pair(
    alloc: Global,
    rows: &mut MosaicRows,
    from: &mut [TileInput<ScriptSource<'_>>],
) -> Answer
    requires { length from.old ≡ length rows.old.tiles.items }
    ensures { length rows.new.tiles.items ≡ length rows.old.tiles.items }
{
    let mut row = Vec::new(alloc);
    rows.next_row(from, &mut row)
}

/// What five calls answer of two tiles side by side.
fn five_of_pair(alloc: Global, names: [TileName; 2]) -> Answers {
    let mut rows = match rows_of_pair(alloc, names) {
        Ok(rows) => rows,
        Err(fault) => {
            let mut answers = [Err(ReadFault::AlreadyFailed); 5];
            answers[0] = Err(fault);
            return (answers, gave_out(alloc));
        }
    };
    let mut from = [
        input(alloc, ScriptSource::new(&WEST, 100, &[])),
        input(alloc, ScriptSource::new(&EAST, 100, &[])),
    ];
    let first = call_of_pair(alloc, &mut rows, &mut from);
    let second = call_of_pair(alloc, &mut rows, &mut from);
    let third = call_of_pair(alloc, &mut rows, &mut from);
    let fourth = call_of_pair(alloc, &mut rows, &mut from);
    let gave_out = gave_out(alloc);
    let last = call_of_pair(alloc, &mut rows, &mut from);
    ([first, second, third, fourth, last], gave_out)
}

#[test]
fn rows_of_a_mosaic_after_refused_memory(rt: HostRuntime) -> Result<(), Fail> {
    let given = five_of_pair(rt.alloc(), two_named(BESIDE)?);
    same(&rt, "first", given.0, owed_answers(&given));
    let (_, numbers, ..) = of_bytes(rt.alloc(), BESIDE, &WEST, &EAST, 100)?;
    same(&rt, "again", numbers, (6, NUMBERS));
    Ok(())
}
