//! Rows of pixels of one kind put over rows of another: of what was there before nothing is left.

use crate::agree::same;
use crate::pixel_rows::numbers_of;
use drain_grid::OutOfMemory;
use drain_pixels::{PixelKind, PixelRow};
use std::alloc::Global;
use std::test::Fail;
use worked::memory::owed;

/// What a row is made of: bytes, where its kind is one of bytes, and else numbers.
#[derive(Clone, Copy, Debug)]
struct Given {
    kind: PixelKind,
    bytes: &'static [u8],
    numbers: &'static [i64],
}

/// How many numbers a row has, and the first five of them, with zeros where there are fewer.
type Numbers = (usize, [i64; 5]);

const NO_NUMBERS: Numbers = (0, [0; 5]);

/// Rows with their numbers. Of some the last pixel isn't whole.
static ROWS: [(Given, Numbers); 12] = [
    (
        Given {
            kind: PixelKind::U8,
            bytes: &[1, 0x80, 0xff],
            numbers: &[],
        },
        (3, [1, 128, 255, 0, 0]),
    ),
    (
        Given {
            kind: PixelKind::I16,
            bytes: &[1, 0, 0xff, 0xff, 0, 0x80, 0xff, 0x7f],
            numbers: &[],
        },
        (4, [1, -1, -32768, 32767, 0]),
    ),
    (
        Given {
            kind: PixelKind::I16,
            bytes: &[0x34, 0x12, 0x56],
            numbers: &[],
        },
        (1, [4660, 0, 0, 0, 0]),
    ),
    (
        Given {
            kind: PixelKind::U16,
            bytes: &[0xff, 0xff, 0x34, 0x12],
            numbers: &[],
        },
        (2, [65535, 4660, 0, 0, 0]),
    ),
    (
        Given {
            kind: PixelKind::I32,
            bytes: &[0xff, 0xff, 0xff, 0xff, 0, 0, 0, 0x80, 0, 0, 1, 0],
            numbers: &[],
        },
        (3, [-1, -2147483648, 65536, 0, 0]),
    ),
    (
        Given {
            kind: PixelKind::U32,
            bytes: &[0, 0, 1, 0, 0xff, 0xff, 0xff, 0xff],
            numbers: &[],
        },
        (2, [65536, 4294967295, 0, 0, 0]),
    ),
    (
        Given {
            kind: PixelKind::U32,
            bytes: &[0x78, 0x56, 0x34, 0x12, 1, 2, 3],
            numbers: &[],
        },
        (1, [305419896, 0, 0, 0, 0]),
    ),
    (
        Given {
            kind: PixelKind::U32,
            bytes: &[1, 2, 3],
            numbers: &[],
        },
        NO_NUMBERS,
    ),
    (
        Given {
            kind: PixelKind::F32,
            bytes: &[
                0, 0, 0x80, 0x3f, 0, 0, 0x80, 0xbf, 0, 0, 0, 0x80, 1, 0, 0xc0, 0xff, 0, 0, 0x80,
                0xff,
            ],
            numbers: &[],
        },
        (5, [1065353216, -1065353216, 0, 2143289344, -2139095040]),
    ),
    (
        Given {
            kind: PixelKind::Any,
            bytes: &[],
            numbers: &[-5, 70000, 3, -2147483648, 4294967295],
        },
        (5, [-5, 70000, 3, -2147483648, 4294967295]),
    ),
    (
        Given {
            kind: PixelKind::U8,
            bytes: &[],
            numbers: &[],
        },
        NO_NUMBERS,
    ),
    (
        Given {
            kind: PixelKind::Any,
            bytes: &[],
            numbers: &[],
        },
        NO_NUMBERS,
    ),
];

/// Replaces the row, in its own memory.
fn put(row: &mut PixelRow, given: Given) -> Result<(), Fail> {
    if given.kind == PixelKind::Any {
        let mut numbers = row.take_numbers();
        numbers.clear();
        numbers.extend_from_slice(given.numbers)?;
        row.put_numbers(numbers);
    } else {
        let mut bytes = row.take_bytes();
        bytes.clear();
        bytes.extend_from_slice(given.bytes)?;
        row.put_bytes(given.kind, bytes);
    }
    Ok(())
}

/// The numbers of a row; then of a copy of it over another row; and of that one once it is cleared.
fn numbers_over(alloc: Global, before: Given, given: Given) -> Result<[Numbers; 4], Fail> {
    let mut row = PixelRow::new(alloc);
    put(&mut row, before)?;
    let mut copy = PixelRow::new(alloc);
    copy.copy_from(&row)?;
    put(&mut row, given)?;
    let replaced = numbers_of(alloc, &row)?;
    copy.copy_from(&row)?;
    let copied = numbers_of(alloc, &copy)?;
    copy.clear();
    Ok([
        replaced,
        copied,
        numbers_of(alloc, &copy)?,
        numbers_of(alloc, &row)?,
    ])
}

#[test]
fn rows_of_one_kind_over_rows_of_another(rt: HostRuntime) -> Result<(), Fail> {
    for (first, (before, _)) in ROWS.iter().enumerate() {
        for (second, (given, expected)) in ROWS.iter().enumerate() {
            let numbers = numbers_over(rt.alloc(), *before, *given)?;
            let right = [*expected, *expected, NO_NUMBERS, *expected];
            same(&rt, (first, second), numbers, right);
        }
    }
    Ok(())
}

/// A row is empty from when its memory is taken until it is put back.
#[test]
fn rows_whose_memory_is_taken(rt: HostRuntime) -> Result<(), Fail> {
    for (case, (given, _)) in ROWS.iter().enumerate() {
        let mut row = PixelRow::new(rt.alloc());
        put(&mut row, *given)?;
        let _bytes = row.take_bytes();
        same(&rt, case, numbers_of(rt.alloc(), &row)?, NO_NUMBERS);
        put(&mut row, *given)?;
        let _numbers = row.take_numbers();
        same(&rt, case, numbers_of(rt.alloc(), &row)?, NO_NUMBERS);
    }
    Ok(())
}

/// The answer of a copy of a row of three bytes over an empty one, and how many numbers the copy has.
fn copied(alloc: Global) -> (Result<(), OutOfMemory>, usize) {
    let Ok(bytes) = Vec::from_slice(alloc, &[1, 2, 3]) else {
        return (Err(OutOfMemory), 0);
    };
    let mut row = PixelRow::new(alloc);
    row.put_bytes(PixelKind::U8, bytes);
    let mut copy = PixelRow::new(alloc);
    let answer = copy.copy_from(&row);
    (answer, copy.len())
}

#[test]
fn a_copy_after_refused_memory(rt: HostRuntime) -> Result<(), Fail> {
    let first = copied(rt.alloc());
    let expected = owed(rt.alloc(), (Err(OutOfMemory), 0), (Ok(()), 3));
    same(&rt, "first", first, expected);
    same(&rt, "again", copied(rt.alloc()), (Ok(()), 3));
    Ok(())
}
