//! Rows of rasters read as numbers and as rows of pixels: each kind of pixel with numbers worked out by hand from the
//! Esri description (NBITS, PIXELTYPE, BYTEORDER, SKIPBYTES, BANDROWBYTES).

use crate::agree::same;
use crate::rasters::{NOWHERE, PADDED, padded};
use crate::row_sources::{
    Answer, FAILED, RUNS, SHORT_PADDED, SHORTER, WHOLE, first, four_calls, of_raster,
};
use drain_device::faults::ScriptSource;
use drain_device::{ByteSource, RowSource, RowStep};
use drain_grid::HeightKind;
use drain_header::ByteOrdering::{Least, Most};
use drain_header::{ByteOrdering, Header};
use drain_pixels::{PixelNumbers, PixelRow, Pixels};
use drain_raster::RasterRows;
use std::alloc::{AllocError, Global};
use std::process::Abort;
use std::test::Fail;
use worked::calls::at_calls;

/// The header of two rows of three pixels, with bytes to skip before the first row and bytes after each.
fn header(bits: u8, signed: bool, order: ByteOrdering, (skip, after): (u8, u8)) -> Header {
    let after = u32::from(after);
    let header = Header {
        rows: 2,
        cols: 3,
        bits: 32,
        order,
        signed,
        skip: u32::from(skip),
        row_bytes: 12 + after,
        place: NOWHERE,
        nodata: None,
        kind: HeightKind::Whole,
    };
    match bits {
        8 => Header {
            bits: 8,
            row_bytes: 3 + after,
            ..header
        },
        16 => Header {
            bits: 16,
            row_bytes: 6 + after,
            ..header
        },
        _ => header,
    }
}

/// Two rows of bytes.
type Rows = [&'static [u8]; 2];

const OF_8_BITS: Rows = [&[0x01, 0x80, 0xff], &[0x00, 0x7f, 0x2a]];

const OF_16_BITS: Rows = [
    &[0x01, 0x00, 0xff, 0xff, 0x00, 0x80],
    &[0x34, 0x12, 0xfe, 0xff, 0x2a, 0x01],
];

const OF_32_BITS: Rows = [
    &[
        0x01, 0x00, 0x00, 0x00, 0xff, 0xff, 0xff, 0xff, 0x00, 0x00, 0x00, 0x80,
    ],
    &[
        0x78, 0x56, 0x34, 0x12, 0x00, 0x00, 0x01, 0x00, 0xfe, 0xff, 0xff, 0xff,
    ],
];

/// The bits of a pixel, whether it has a sign, the order of its bytes, those of two rows, and the rows' numbers.
type Kind = (u8, bool, ByteOrdering, Rows, [i64; 6]);

/// Each kind of pixel that a header can have; with 8 bits the order means nothing.
static KINDS: [Kind; 12] = [
    (8, false, Least, OF_8_BITS, [1, 128, 255, 0, 127, 42]),
    (8, false, Most, OF_8_BITS, [1, 128, 255, 0, 127, 42]),
    (8, true, Least, OF_8_BITS, [1, -128, -1, 0, 127, 42]),
    (8, true, Most, OF_8_BITS, [1, -128, -1, 0, 127, 42]),
    (
        16,
        false,
        Least,
        OF_16_BITS,
        [1, 65535, 32768, 4660, 65534, 298],
    ),
    (
        16,
        false,
        Most,
        OF_16_BITS,
        [256, 65535, 128, 13330, 65279, 10753],
    ),
    (16, true, Least, OF_16_BITS, [1, -1, -32768, 4660, -2, 298]),
    (
        16,
        true,
        Most,
        OF_16_BITS,
        [256, -1, 128, 13330, -257, 10753],
    ),
    (
        32,
        false,
        Least,
        OF_32_BITS,
        [1, 4294967295, 2147483648, 305419896, 65536, 4294967294],
    ),
    (
        32,
        false,
        Most,
        OF_32_BITS,
        [16777216, 4294967295, 128, 2018915346, 256, 4278190079],
    ),
    (
        32,
        true,
        Least,
        OF_32_BITS,
        [1, -1, -2147483648, 305419896, 65536, -2],
    ),
    (
        32,
        true,
        Most,
        OF_32_BITS,
        [16777216, -1, 128, 2018915346, 256, -16777217],
    ),
];

/// How many bytes are skipped before the first row, and how many follow each row's pixels.
static GAPS: [(u8, u8); 4] = [(0, 0), (3, 2), (1, 0), (0, 5)];

/// Appends this many bytes, none of which is a pixel's.
fn push_gap(bytes: &mut Vec<u8>, count: u8) -> Result<(), AllocError> {
    for _ in 0..count {
        bytes.push(0xb7)?;
    }
    Ok(())
}

/// The bytes of a raster up to the end of its last pixel.
fn body(alloc: Global, rows: Rows, (skip, after): (u8, u8)) -> Result<Vec<u8>, AllocError> {
    let [north, south] = rows;
    let mut bytes = Vec::new(alloc);
    push_gap(&mut bytes, skip)?;
    bytes.extend_from_slice(north)?;
    push_gap(&mut bytes, after)?;
    bytes.extend_from_slice(south)?;
    Ok(bytes)
}

/// Appends numbers that are looked at one by one.
fn push_each<N: PixelNumbers>(out: &mut Vec<i64>, numbers: &N) -> Result<(), AllocError> {
    for k in 0..numbers.len() {
        out.push(numbers.at(k))?;
    }
    Ok(())
}

/// Appends the numbers of a row, as its pixels are kept.
fn push_kept(out: &mut Vec<i64>, row: &PixelRow) -> Result<(), AllocError> {
    match row.pixels() {
        Pixels::U8(pixels) => push_each(out, &pixels),
        Pixels::I16(pixels) => push_each(out, &pixels),
        Pixels::U16(pixels) => push_each(out, &pixels),
        Pixels::I32(pixels) => push_each(out, &pixels),
        Pixels::U32(pixels) => push_each(out, &pixels),
        Pixels::F32(pixels) => push_each(out, &pixels),
        Pixels::Any(pixels) => push_each(out, &pixels),
    }
}

/// How many numbers a row of pixels has, and the first of them, where both ways to look at it give the same.
pub fn numbers_of<const N: usize>(
    alloc: Global,
    row: &PixelRow,
) -> Result<(usize, [i64; N]), Fail> {
    let mut one_by_one = Vec::new(alloc);
    push_each(&mut one_by_one, row)?;
    let mut as_kept = Vec::new(alloc);
    push_kept(&mut as_kept, row)?;
    if as_kept.as_slice() != one_by_one.as_slice() || row.len() != as_kept.len() {
        return Err("the same numbers".into());
    }
    Ok((row.len(), first(&as_kept)))
}

/// The answers to four calls, how many numbers came, and the first of them.
type Read<const N: usize> = ([Answer; 4], (usize, [i64; N]));

/// What four calls of `next_pixels` give, which read into this row.
fn read_pixels<R: ByteSource, const N: usize>(
    alloc: Global,
    header: Header,
    from: &mut R,
    row: &mut PixelRow,
) -> Result<Read<N>, AllocError> {
    let mut rows = RasterRows::new(header);
    let mut answers = [Ok(RowStep::Ended); 4];
    let mut numbers = Vec::new(alloc);
    for answer in &mut answers {
        *answer = rows.next_pixels(from, row);
        push_kept(&mut numbers, row)?;
    }
    Ok((answers, (numbers.len(), first(&numbers))))
}

/// What calls of `next_row`, and of `next_pixels` into this row, give of a raster with this many bytes fewer than it
/// needs.
fn read_both(
    alloc: Global,
    (bits, signed, order, rows, _): Kind,
    gaps: (u8, u8),
    missing: usize,
    row: &mut PixelRow,
) -> Result<(Read<6>, Read<6>), AllocError> {
    let bytes = body(alloc, rows, gaps)?;
    let bytes = &bytes[..bytes.len().saturating_sub(missing)];
    let header = header(bits, signed, order, gaps);
    let from = ScriptSource::new(bytes, 100, &[]);
    let mut again = ScriptSource::new(bytes, 100, &[]);
    Ok((
        four_calls(alloc, &mut RasterRows::new(header), from)?,
        read_pixels(alloc, header, &mut again, row)?,
    ))
}

/// Ends the test where both don't give these answers and this many first numbers of a kind, for rasters of each kind
/// with this many bytes fewer than they need. One row is used for all.
fn each_kind_gives(
    rt: &impl Abort,
    alloc: Global,
    missing: usize,
    answers: [Answer; 4],
    count: usize,
) -> Result<(), Fail> {
    let mut row = PixelRow::new(alloc);
    for kind in &KINDS {
        let (bits, signed, order, _, numbers) = *kind;
        let expected = (answers, (count, first(numbers.get(..count).unwrap_or(&[]))));
        for gaps in &GAPS {
            let given = read_both(alloc, *kind, *gaps, missing, &mut row)?;
            same(
                rt,
                (bits, signed, order, *gaps),
                given,
                (expected, expected),
            );
        }
    }
    Ok(())
}

#[test]
fn rows_of_each_kind_of_pixel(rt: HostRuntime) -> Result<(), Fail> {
    each_kind_gives(&rt, rt.alloc(), 0, WHOLE, 6)
}

/// Without a byte of the last pixel the second row isn't there, and nothing is.
#[test]
fn rows_of_a_short_raster_of_each_kind(rt: HostRuntime) -> Result<(), Fail> {
    each_kind_gives(&rt, rt.alloc(), 1, SHORTER, 3)
}

/// The second row by the other call than the first.
#[test]
fn both_calls_on_one_raster(rt: HostRuntime) -> Result<(), Fail> {
    for &(bits, signed, order, bytes, expected) in &KINDS {
        let [one, two, three, four, five, six] = expected;
        let bytes = body(rt.alloc(), bytes, (3, 2))?;
        let mut rows = RasterRows::new(header(bits, signed, order, (3, 2)));
        let mut from = ScriptSource::new(&bytes, 100, &[]);
        let mut pixels = PixelRow::new(rt.alloc());
        let mut numbers = Vec::new(rt.alloc());
        rows.next_pixels(&mut from, &mut pixels)?;
        rows.next_row(&mut from, &mut numbers)?;
        let given = (numbers_of(rt.alloc(), &pixels)?, first(&numbers));
        same(
            &rt,
            (bits, signed, order),
            given,
            ((3, [one, two, three]), [four, five, six]),
        );
    }
    Ok(())
}

/// What is kept of pixels.
#[derive(Clone, Copy, PartialEq, Debug)]
enum KeptAs {
    Bytes,
    Numbers,
}

/// What is kept of a row's pixels.
fn kept_as(row: &PixelRow) -> KeptAs {
    match row.pixels() {
        Pixels::Any(_) => KeptAs::Numbers,
        _ => KeptAs::Bytes,
    }
}

/// The kinds of pixels that most rasters have: no number of them is looked at while they are read.
static USUAL: [(u8, bool); 5] = [(8, false), (16, true), (16, false), (32, true), (32, false)];

#[test]
fn pixels_of_usual_kinds_stay_bytes(rt: HostRuntime) -> Result<(), Fail> {
    for &(bits, signed) in &USUAL {
        let bytes = [0; 24];
        let mut from = ScriptSource::new(&bytes, 100, &[]);
        let mut row = PixelRow::new(rt.alloc());
        RasterRows::new(header(bits, signed, Least, (0, 0))).next_pixels(&mut from, &mut row)?;
        same(&rt, (bits, signed), kept_as(&row), KeptAs::Bytes);
    }
    Ok(())
}

/// What four calls of `next_pixels` give of the padded raster.
fn of_padded(
    alloc: Global,
    order: ByteOrdering,
    mut from: ScriptSource<'_>,
) -> Result<Read<4>, AllocError> {
    let mut row = PixelRow::new(alloc);
    read_pixels(alloc, padded(order), &mut from, &mut row)
}

/// The orders of the padded raster's bytes, with its numbers.
static ORDERS: [(ByteOrdering, [i64; 4]); 2] = [
    (Least, [1, -2, -32768, 2]),
    (Most, [256, -257, 128, 512]),
];

#[test]
fn pixels_from_slow_sources(rt: HostRuntime) -> Result<(), Fail> {
    for &(order, numbers) in &ORDERS {
        let [one, two, ..] = numbers;
        for most in [100, 3, 1] {
            let from = ScriptSource::new(&PADDED, most, &[]);
            let whole = of_padded(rt.alloc(), order, from)?;
            let from = ScriptSource::new(&SHORT_PADDED, most, &[]);
            let short = of_padded(rt.alloc(), order, from)?;
            same(&rt, (order, most), whole, (WHOLE, (4, numbers)));
            same(&rt, (order, most), short, (SHORTER, (2, [one, two, 0, 0])));
        }
    }
    Ok(())
}

/// At a byte a call the first row is there after five calls at most, and the second after ten.
#[test]
fn pixels_fail_where_their_source_gives_up(rt: HostRuntime) -> Result<(), Fail> {
    for &(order, numbers) in &ORDERS {
        let [one, two, ..] = numbers;
        for &(answer, some, others, is_whole) in &RUNS {
            let script = [at_calls(some, answer), at_calls(others, answer)];
            let from = ScriptSource::new(&PADDED, 1, &script);
            let given = of_padded(rt.alloc(), order, from)?;
            let expected = if is_whole {
                (WHOLE, (4, numbers))
            } else {
                (FAILED, (2, [one, two, 0, 0]))
            };
            same(&rt, order, given, expected);
            let from = ScriptSource::new(&PADDED, 1, &script);
            let given = of_raster(rt.alloc(), order, from)?;
            same(&rt, order, given, expected);
        }
    }
    Ok(())
}
