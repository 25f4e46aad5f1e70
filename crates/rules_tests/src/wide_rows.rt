//! Three long rows whose elevations are pixels of any kind, with any number that means a void, or none: the verdict is
//! that on the same cells of tiles, with or without lanes.

use crate::examples::{Part, accepted, same};
use crate::given_rows::level_rows;
use crate::part_rows::Ground;
use crate::rows_of_numbers::verdict_on_ground;
use crate::unasked_ranks::put;
use drain_grid::{Judged, Product, Rule, Verdict};
use drain_pixels::PixelKind;
use std::alloc::Global;
use std::test::Fail;

/// The numbers of three level rows at this height.
fn rows_at(alloc: Global, height: i64) -> Result<Vec<i64>, Fail> {
    let mut numbers = level_rows(alloc)?;
    let cells = numbers.len() / 6;
    for place in 0..numbers.len() {
        // the elevations and con
        if place < 2 * cells {
            numbers[place] = height;
        }
    }
    Ok(numbers)
}

/// Heights, and how their pixels are kept.
static LEVELS: [(&str, i64, Ground); 13] = [
    ("a tile", 0, (PixelKind::Any, Some(-32768))),
    ("8 bits", 200, (PixelKind::U8, Some(255))),
    ("16 bits without voids", -7, (PixelKind::I16, None)),
    ("16 bits", -7, (PixelKind::I16, Some(-9999))),
    ("no sign", 65535, (PixelKind::U16, Some(0))),
    (
        "a void of 32 bits",
        32767,
        (PixelKind::I32, Some(-2147483648)),
    ),
    ("32 bits", 8848000, (PixelKind::I32, Some(-32768))),
    ("32 bits without voids", -2147483648, (PixelKind::I32, None)),
    ("one below 16 bits", -32769, (PixelKind::I32, None)),
    ("one above 16 bits", 32768, (PixelKind::I32, None)),
    ("the lowest of lanes", -2147483647, (PixelKind::I32, None)),
    ("above lanes", 2147483648, (PixelKind::U32, Some(0))),
    ("the greatest", 4294967295, (PixelKind::U32, Some(0))),
];

/// Level rows of any height are right.
#[test]
fn level_rows_of_any_height(rt: HostRuntime) -> Result<(), Fail> {
    for &(name, height, ground) in &LEVELS {
        let numbers = rows_at(rt.alloc(), height)?;
        let given = verdict_on_ground(rt.alloc(), &numbers, ground, Judged::AllWithRanks)?;
        same(&rt, name, given, accepted(3, 600, 1800, 0, 1202));
    }
    Ok(())
}

/// A number of the elevations that means a void.
static VOIDS: [(&str, i64, i64, Ground); 4] = [
    ("a tile", 0, -32768, (PixelKind::Any, Some(-32768))),
    ("16 bits", -32767, -9999, (PixelKind::I16, Some(-9999))),
    ("32 bits", 8848000, -32768, (PixelKind::I32, Some(-32768))),
    (
        "beside it",
        8848000,
        8848001,
        (PixelKind::I32, Some(8848001)),
    ),
];

/// A void in a corner: the inner cell beside it is an outlet.
#[test]
fn a_void_by_any_number(rt: HostRuntime) -> Result<(), Fail> {
    for &(name, height, void, ground) in &VOIDS {
        let mut numbers = rows_at(rt.alloc(), height)?;
        for (part, number) in [
            (Part::Elevations, void),
            (Part::Con, Product::Con.default_no_data()),
            (Part::Dir, Product::Dir.default_no_data()),
            (Part::Acc, Product::Acc.default_no_data()),
            (Part::Bas, Product::Bas.default_no_data()),
            (Part::Rnk, Product::Rnk.default_no_data()),
        ] {
            put(&mut numbers, (part, (0, 0), number))?;
        }
        put(&mut numbers, (Part::Acc, (0, 1), 1))?;
        for (part, number) in [
            (Part::Dir, 0),
            (Part::Acc, 1),
            (Part::Bas, 602),
            (Part::Rnk, 0),
        ] {
            put(&mut numbers, (part, (1, 1), number))?;
        }
        let given = verdict_on_ground(rt.alloc(), &numbers, ground, Judged::AllWithRanks)?;
        same(&rt, name, given, accepted(3, 600, 1799, 0, 1202));
    }
    Ok(())
}

/// A pit of -32768 in a row of lanes, where the number means no void.
static PITS: [(&str, Ground); 3] = [
    ("no voids", (PixelKind::I16, None)),
    ("another void", (PixelKind::I16, Some(-9999))),
    ("32 bits", (PixelKind::I32, Some(32767))),
];

/// The pit is filled: one cell is raised. If the number means a void, the cell above drains one cell.
#[test]
fn a_pit_of_the_lowest_height(rt: HostRuntime) -> Result<(), Fail> {
    let mut numbers = rows_at(rt.alloc(), 0)?;
    put(&mut numbers, (Part::Elevations, (1, 300), -32768))?;
    for &(name, ground) in &PITS {
        let given = verdict_on_ground(rt.alloc(), &numbers, ground, Judged::AllWithRanks)?;
        same(&rt, name, given, accepted(3, 600, 1800, 1, 1202));
    }
    let void = (PixelKind::I16, Some(-32768));
    let given = verdict_on_ground(rt.alloc(), &numbers, void, Judged::AllWithRanks)?;
    let expected = Verdict::Rejected {
        rule: Rule::Accumulation,
        row: 0,
        col: 300,
    };
    same(&rt, "a void", given, expected);
    Ok(())
}

/// A cell with two lower neighbours: its height, the drops to the north and to the north-east, and the code of the
/// steeper way. By the first six, twice the one square and the other differ by 1, or pass 64 bits.
static DROPS: [(&str, i64, i64, i64, i64); 9] = [
    ("16 bits, across", 0, 13860, 19601, 128),
    ("16 bits, along", 30000, 33461, 47321, 64),
    ("32 bits, across", 0, 543339720, 768398401, 128),
    ("32 bits, along", 2147483647, 1311738121, 1855077841, 64),
    ("64 bits, along", 2147483647, 3037000500, 4294967294, 64),
    ("64 bits, across", 2147483647, 3036999999, 4294967294, 128),
    ("from one above 16 bits", 32768, 1, 65537, 128),
    ("near", 8848000, 5, 7, 64),
    ("near, across", 8848000, 2, 3, 128),
];

/// The numbers of three rows with these two drops beside column 300 of the second, whose code is this one.
fn rows_with_drops(
    alloc: Global,
    (height, along, across): (i64, i64, i64),
    code: i64,
) -> Result<Vec<i64>, Fail> {
    let mut numbers = rows_at(alloc, height)?;
    for part in [Part::Elevations, Part::Con] {
        put(&mut numbers, (part, (0, 300), height.saturating_sub(along)))?;
        put(
            &mut numbers,
            (part, (0, 301), height.saturating_sub(across)),
        )?;
    }
    for (place, beside) in [
        ((0, 299), 1),
        ((0, 300), 1),
        ((0, 302), 16),
        ((1, 299), 128),
        ((1, 300), code),
        ((1, 302), 32),
    ] {
        put(&mut numbers, (Part::Dir, place, beside))?;
    }
    Ok(numbers)
}

/// The steeper way is right, and the other one isn't.
#[test]
fn the_steeper_of_two_drops(rt: HostRuntime) -> Result<(), Fail> {
    let ground = (PixelKind::I32, None);
    for &(name, height, along, across, steeper) in &DROPS {
        let drops = (height, along, across);
        let right = rows_with_drops(rt.alloc(), drops, steeper)?;
        let given = verdict_on_ground(rt.alloc(), &right, ground, Judged::ConDir)?;
        same(&rt, name, given, accepted(3, 600, 1800, 0, 1199));
        let wrong = rows_with_drops(rt.alloc(), drops, 192i64.saturating_sub(steeper))?;
        let given = verdict_on_ground(rt.alloc(), &wrong, ground, Judged::ConDir)?;
        let expected = Verdict::Rejected {
            rule: Rule::Slope,
            row: 1,
            col: 300,
        };
        same(&rt, name, given, expected);
    }
    Ok(())
}
