//! Which cells of three long rows their lanes clear: no contract says that they clear most.

use crate::examples::{Part, equal};
use crate::given_rows::{COLS, level_rows};
use crate::rows_of_numbers::{is_outlet_by_lanes, kept_by_lanes};
use crate::unasked_ranks::{Change, put};
use drain_rules::Kept;
use std::test::Fail;

/// Cells before this column from the other on, none of them raised.
pub fn level(end: u32) -> Kept {
    Kept { end, raised: 0 }
}

/// A list, a row, the column from which cells are kept, and the column before which they are.
static LEVEL_ROWS: [(&str, u8, u32, u32); 12] = [
    // Cells inside, as many as are scanned for marks at a time.
    ("", 1, 1, 129),
    ("", 1, 470, 598),
    // The edge of the grid.
    ("", 1, 0, 0),
    ("", 1, 500, 599),
    ("", 1, 599, 599),
    ("", 1, 600, 600),
    ("", 0, 1, 1),
    ("", 2, 1, 1),
    // Listed sinks, in the row and next to it.
    ("1 50", 1, 1, 50),
    ("1 50", 1, 50, 50),
    ("1 50", 1, 51, 179),
    ("0 50", 1, 1, 129),
];

#[test]
fn cells_of_level_rows(rt: HostRuntime) -> Result<(), Fail> {
    let numbers = level_rows(rt.alloc())?;
    for &(text, row, from, end) in &LEVEL_ROWS {
        let kept = kept_by_lanes(rt.alloc(), text.as_bytes(), &numbers, row, from)?;
        equal(&rt, (text, row, from), kept, level(end));
    }
    Ok(())
}

/// Puts a void into the middle row, at column 50, with these numbers in place of con's, dir's, acc's, bas's and rnk's.
pub fn put_void(numbers: &mut [i64], [con, dir, acc, bas, rnk]: [i64; 5]) {
    for (part, number) in [-32768, con, dir, acc, bas, rnk].iter().enumerate() {
        if let Some(slot) = numbers.get_mut((part * 3 + 1) * COLS as usize + 50) {
            *slot = *number;
        }
    }
}

/// No-data numbers, and whether they fit 16 bits or 32, signed or not.
static NO_DATA: [i64; 8] = [-32768, -9999, -1, 0, 255, 65535, -2147483648, 4294967295];

/// The column from which cells are kept, and the column before which they are.
pub static BESIDE: [(u32, u32); 3] = [(1, 49), (49, 49), (52, 180)];

#[test]
fn cells_beside_a_void(rt: HostRuntime) -> Result<(), Fail> {
    let mut numbers = level_rows(rt.alloc())?;
    for &nodata in &NO_DATA {
        put_void(&mut numbers, [nodata; 5]);
        for &(from, end) in &BESIDE {
            let kept = kept_by_lanes(rt.alloc(), &[], &numbers, 1, from)?;
            equal(&rt, (nodata, from), kept, level(end));
        }
    }
    Ok(())
}

/// Two changes of level rows with a void at column 50 of row 1, and whether lanes find that the cell right of it is an
/// outlet that keeps the rules. Right is code 0: nothing leads there.
static OUTLETS: [(Change, Change, bool); 7] = [
    ((Part::Dir, (1, 51), 0), (Part::Con, (1, 51), 0), true),
    ((Part::Dir, (1, 51), 64), (Part::Con, (1, 51), 0), false),
    ((Part::Dir, (1, 51), 0), (Part::Con, (1, 51), 1), false),
    ((Part::Dir, (1, 51), 0), (Part::Con, (0, 51), -1), false),
    ((Part::Dir, (1, 51), 0), (Part::Acc, (1, 51), 2), false),
    // The cell below leads there.
    ((Part::Dir, (1, 51), 0), (Part::Dir, (2, 51), 64), false),
    // No void lies beside it.
    (
        (Part::Dir, (1, 51), 0),
        (Part::Elevations, (1, 50), 0),
        false,
    ),
];

#[test]
fn outlets_beside_a_void(rt: HostRuntime) -> Result<(), Fail> {
    for (case, &(one, other, expected)) in OUTLETS.iter().enumerate() {
        let mut numbers = level_rows(rt.alloc())?;
        put_void(&mut numbers, [-1; 5]);
        put(&mut numbers, one)?;
        put(&mut numbers, other)?;
        let found = is_outlet_by_lanes(rt.alloc(), &numbers, (1, 51))?;
        equal(&rt, case, found, expected);
    }
    Ok(())
}

/// Numbers put into all cells of a row of some parts: at the last that a test in 16 bits takes, past it, and at the
/// last of all.
pub static GREAT: [[(Part, u8, i64); 4]; 7] = [
    // Accumulations, of the cell and of the one that leads to it.
    [
        (Part::Dir, 2, 64),
        (Part::Acc, 2, 65533),
        (Part::Acc, 1, 65534),
        (Part::Acc, 0, 65535),
    ],
    [
        (Part::Dir, 2, 64),
        (Part::Acc, 2, 65534),
        (Part::Acc, 1, 65535),
        (Part::Acc, 0, 65536),
    ],
    [
        (Part::Dir, 2, 64),
        (Part::Acc, 2, 4294967294),
        (Part::Acc, 1, 4294967295),
        (Part::Acc, 0, 4294967295),
    ],
    // Ranks, of the cell and of the one that it leads to; the greatest number is no rank.
    [
        (Part::Rnk, 0, 65534),
        (Part::Rnk, 1, 65535),
        (Part::Rnk, 2, 65536),
        (Part::Bas, 0, 1),
    ],
    [
        (Part::Rnk, 0, 65535),
        (Part::Rnk, 1, 65536),
        (Part::Rnk, 2, 65537),
        (Part::Bas, 0, 1),
    ],
    [
        (Part::Rnk, 0, 4294967293),
        (Part::Rnk, 1, 4294967294),
        (Part::Rnk, 2, 0),
        (Part::Bas, 0, 1),
    ],
    // One label, the greatest.
    [
        (Part::Bas, 0, 4294967295),
        (Part::Bas, 1, 4294967295),
        (Part::Bas, 2, 4294967295),
        (Part::Rnk, 0, 0),
    ],
];

/// Puts a number into all cells of a row of a part.
pub fn put_row(numbers: &mut [i64], part: Part, row: u8, number: i64) {
    let first = (part as usize * 3 + row as usize) * COLS as usize;
    for col in 0..COLS as usize {
        if let Some(slot) = numbers.get_mut(first + col) {
            *slot = number;
        }
    }
}

#[test]
fn cells_with_great_numbers(rt: HostRuntime) -> Result<(), Fail> {
    for (case, parts) in GREAT.iter().enumerate() {
        let mut numbers = level_rows(rt.alloc())?;
        put_row(&mut numbers, Part::Bas, 0, 1);
        put_row(&mut numbers, Part::Bas, 1, 1);
        for &(part, row, number) in parts {
            put_row(&mut numbers, part, row, number);
        }
        let kept = kept_by_lanes(rt.alloc(), &[], &numbers, 1, 1)?;
        equal(&rt, case, kept, level(129));
    }
    Ok(())
}
