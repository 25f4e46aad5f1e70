//! Three long rows whose products are kept as the bytes of their pixels: lanes clear the same cells as of numbers, and
//! the verdict is the same. Worked out by hand from the rules.

use crate::examples::{Part, accepted, equal, rejected, same};
use crate::given_rows::level_rows;
use crate::kept_runs::{BESIDE, GREAT, level, put_row, put_void};
use crate::part_rows::{AS_NUMBERS, Kinds};
use crate::rows_of_numbers::{kept_of_kinds, verdict_of_kinds};
use crate::unasked_ranks::{Change, put};
use drain_grid::{Judged, Rule};
use drain_pixels::PixelKind::{Any, I16, I32, U8, U16, U32};
use std::alloc::{AllocError, Global};
use std::process::Abort;
use std::test::Fail;

/// Kinds that the rasters of a set often have.
const USUAL: Kinds = [I16, U8, U32, U32, U32];

/// What is kept of the products of level rows.
static KINDS: [Kinds; 9] = [
    AS_NUMBERS,
    USUAL,
    [U8; 5],
    [I16; 5],
    [U16; 5],
    [I32; 5],
    [U32; 5],
    [U8, I16, U8, I16, U8],
    [U32, Any, I16, U8, Any],
];

/// Three level rows with one label, so that 8 bits hold each number of a product.
fn rows_of_one_basin(alloc: Global) -> Result<Vec<i64>, AllocError> {
    let mut numbers = level_rows(alloc)?;
    for row in 0..3 {
        put_row(&mut numbers, Part::Bas, row, 1);
    }
    Ok(numbers)
}

#[test]
fn cells_of_level_rows_of_each_kind(rt: HostRuntime) -> Result<(), Fail> {
    let numbers = rows_of_one_basin(rt.alloc())?;
    for (case, kinds) in KINDS.iter().enumerate() {
        let kept = kept_of_kinds(rt.alloc(), &[], &numbers, *kinds, (1, 1))?;
        equal(&rt, case, kept, level(129));
    }
    Ok(())
}

/// Kinds that hold the great numbers.
static WIDE: [Kinds; 3] = [AS_NUMBERS, USUAL, [U32; 5]];

/// The cells from column 1 on that lanes of this kind clear, with these numbers in all cells of a row of some parts.
fn expect_with_rows(
    rt: &impl Abort,
    alloc: Global,
    case: usize,
    parts: &[(Part, u8, i64)],
    kinds: Kinds,
    end: u32,
) -> Result<(), Fail> {
    let mut numbers = rows_of_one_basin(alloc)?;
    for &(part, row, number) in parts {
        put_row(&mut numbers, part, row, number);
    }
    let kept = kept_of_kinds(alloc, &[], &numbers, kinds, (1, 1))?;
    equal(rt, case, kept, level(end));
    Ok(())
}

#[test]
fn cells_with_great_numbers_of_each_kind(rt: HostRuntime) -> Result<(), Fail> {
    for (case, parts) in GREAT.iter().enumerate() {
        for kinds in &WIDE {
            expect_with_rows(&rt, rt.alloc(), case, parts, *kinds, 129)?;
        }
    }
    Ok(())
}

/// Numbers put into all cells of a row, right but for 65,536 more in one of them.
static FAR: [[(Part, u8, i64); 4]; 3] = [
    // The cell counts itself and 65,534 others.
    [
        (Part::Dir, 2, 64),
        (Part::Acc, 2, 65534),
        (Part::Acc, 1, 131071),
        (Part::Acc, 0, 131072),
    ],
    // It has the label of the cell that it leads to.
    [
        (Part::Bas, 0, 1),
        (Part::Bas, 1, 65537),
        (Part::Bas, 2, 1),
        (Part::Rnk, 0, 0),
    ],
    // The cell that it leads to has a lower rank.
    [
        (Part::Rnk, 0, 65536),
        (Part::Rnk, 1, 1),
        (Part::Rnk, 2, 2),
        (Part::Bas, 0, 1),
    ],
];

#[test]
fn no_cell_is_cleared_where_upper_bits_are_wrong(rt: HostRuntime) -> Result<(), Fail> {
    for (case, parts) in FAR.iter().enumerate() {
        for kinds in &WIDE {
            expect_with_rows(&rt, rt.alloc(), case, parts, *kinds, 1)?;
        }
    }
    Ok(())
}

/// Heights in all cells of the ground and of con, and the column before which cells are cleared from 1 on.
static HEIGHTS: [(i64, i64, u32); 5] = [
    (-300, -300, 129),
    (-32767, -32767, 129),
    (32767, 32767, 129),
    // con is below its ground, or above the level at which it is left.
    (-300, -301, 1),
    (-300, 300, 1),
];

#[test]
fn cells_with_signed_heights(rt: HostRuntime) -> Result<(), Fail> {
    for (case, (ground, con, end)) in HEIGHTS.iter().enumerate() {
        let parts = [
            (Part::Elevations, 0, *ground),
            (Part::Elevations, 1, *ground),
            (Part::Elevations, 2, *ground),
            (Part::Con, 0, *ground),
            (Part::Con, 1, *con),
            (Part::Con, 2, *ground),
        ];
        for kinds in [AS_NUMBERS, USUAL] {
            expect_with_rows(&rt, rt.alloc(), case, &parts, kinds, *end)?;
        }
    }
    Ok(())
}

/// Kinds, and the numbers of con, dir, acc, bas and rnk at a void.
const AT_VOIDS: [(Kinds, [i64; 5]); 8] = [
    (USUAL, [-32768, 255, 0, 0, 4294967295]),
    (USUAL, [-9999, 0, 65535, 4294967295, 0]),
    (USUAL, [32767, 128, 65536, 2147483648, 1]),
    ([U8; 5], [255, 255, 0, 0, 255]),
    // They fit no lane.
    ([I16; 5], [-32768, -1, -1, -9999, -32768]),
    ([I32; 5], [-2147483648, -9999, -1, -1, -2147483648]),
    ([U16; 5], [65535, 65535, 65535, 65535, 65535]),
    ([U32; 5], [32768, 65536, 4294967295, 4294967295, 4294967295]),
];

#[test]
fn cells_beside_a_void_of_each_kind(rt: HostRuntime) -> Result<(), Fail> {
    let cases = AT_VOIDS;
    for (case, (kinds, nodata)) in cases.iter().enumerate() {
        let mut numbers = rows_of_one_basin(rt.alloc())?;
        put_void(&mut numbers, *nodata);
        for &(from, end) in &BESIDE {
            for kept_as in [AS_NUMBERS, *kinds] {
                let kept = kept_of_kinds(rt.alloc(), &[], &numbers, kept_as, (1, from))?;
                equal(&rt, (case, from), kept, level(end));
            }
        }
    }
    Ok(())
}

/// Kinds, and a number of the middle row at data that fits no lane.
const UNFIT: [(Kinds, Part, i64); 10] = [
    ([U32; 5], Part::Con, 32768),
    ([U32; 5], Part::Con, 65536),
    ([U32; 5], Part::Dir, 65536),
    ([U32; 5], Part::Dir, 4294967295),
    ([U16; 5], Part::Con, 32768),
    ([I32; 5], Part::Con, -32769),
    ([I32; 5], Part::Bas, -1),
    ([I16; 5], Part::Dir, -1),
    ([I16; 5], Part::Acc, -32768),
    ([I16; 5], Part::Rnk, -1),
];

/// Then no lanes are made of the row, and each cell is checked alone.
#[test]
fn numbers_that_fit_no_lane(rt: HostRuntime) -> Result<(), Fail> {
    let cases = UNFIT;
    for (case, (kinds, part, number)) in cases.iter().enumerate() {
        let mut numbers = rows_of_one_basin(rt.alloc())?;
        put(&mut numbers, (*part, (1, 300), *number))?;
        for kept_as in [AS_NUMBERS, *kinds] {
            let kept = kept_of_kinds(rt.alloc(), &[], &numbers, kept_as, (1, 1))?;
            equal(&rt, case, kept, level(1));
        }
    }
    Ok(())
}

/// The rule that fails first, the number that is changed, and the row, at the same column.
static CHANGES: [(Rule, Change, u8); 4] = [
    (Rule::NotLeast, (Part::Con, (1, 200), 1), 1),
    // The cell above counts it, and comes first.
    (Rule::Accumulation, (Part::Dir, (1, 200), 3), 0),
    (Rule::Label, (Part::Bas, (1, 200), 5000), 1),
    (Rule::FlatStep, (Part::Rnk, (1, 200), 0), 1),
];

/// Kinds that hold the numbers of level rows.
static HOLDING: [Kinds; 6] = [AS_NUMBERS, USUAL, [I16; 5], [U16; 5], [I32; 5], [U32; 5]];

#[test]
fn verdicts_on_rows_of_each_kind(rt: HostRuntime) -> Result<(), Fail> {
    for kinds in &HOLDING {
        let mut numbers = level_rows(rt.alloc())?;
        let right = verdict_of_kinds(rt.alloc(), b"", &numbers, *kinds, Judged::AllWithRanks)?;
        same(&rt, "right", right, accepted(3, 600, 1800, 0, 1202));
        for &(rule, change, row) in &CHANGES {
            numbers = level_rows(rt.alloc())?;
            put(&mut numbers, change)?;
            let wrong = verdict_of_kinds(rt.alloc(), b"", &numbers, *kinds, Judged::AllWithRanks)?;
            same(&rt, rule.name(), wrong, rejected(rule, row, 200));
        }
    }
    Ok(())
}
