//! Merges of windows of parts of a raster of elevations: which parts are of one raster.

use crate::agree::same_line;
use crate::merge_answers::{FIRST, merged_on_map};
use crate::merged_windows::{NE, NW, SE, SW, WHOLE, Window};
use drain_grid::Cell;
use drain_merge::UnionSinks;
use drain_union::{Decimal, DemPart, UnionGrid};
use std::test::Fail;

/// The part that is the whole raster, of pixels 30 wide and 20 high.
pub const PART: DemPart = DemPart {
    at: FIRST,
    ulx: Decimal {
        units: 500015,
        parts: 0,
    },
    uly: Decimal {
        units: -9990,
        parts: 0,
    },
    xdim: Decimal {
        units: 30,
        parts: 0,
    },
    ydim: Decimal {
        units: 20,
        parts: 0,
    },
};

/// The part that begins in row 1 and column 2.
pub const OTHER: DemPart = DemPart {
    at: Cell { row: 1, col: 2 },
    ulx: Decimal {
        units: 500075,
        parts: 0,
    },
    uly: Decimal {
        units: -10010,
        parts: 0,
    },
    ..PART
};

/// The part of the window in the south-east, and the line; the other windows are of the whole raster.
static PARTS: [(DemPart, &str); 17] = [
    (PART, WHOLE),
    (OTHER, WHOLE),
    // A hundredth of a pixel away, and more.
    (
        DemPart {
            ulx: Decimal {
                units: 500075,
                parts: 300000000000000,
            },
            ..OTHER
        },
        WHOLE,
    ),
    (
        DemPart {
            ulx: Decimal {
                units: 500075,
                parts: 300000000000001,
            },
            ..OTHER
        },
        "refused OtherGrid 3",
    ),
    (
        DemPart {
            ulx: Decimal {
                units: 500074,
                parts: 699999999999999,
            },
            ..OTHER
        },
        "refused OtherGrid 3",
    ),
    (
        DemPart {
            uly: Decimal {
                units: -10010,
                parts: -200000000000000,
            },
            ..OTHER
        },
        WHOLE,
    ),
    (
        DemPart {
            uly: Decimal {
                units: -10010,
                parts: -200000000000001,
            },
            ..OTHER
        },
        "refused OtherGrid 3",
    ),
    (
        DemPart {
            uly: Decimal {
                units: -10009,
                parts: -799999999999999,
            },
            ..OTHER
        },
        "refused OtherGrid 3",
    ),
    // The cell is another one: a column or a row beside, or exchanged.
    (
        DemPart {
            at: Cell { row: 1, col: 3 },
            ..OTHER
        },
        "refused OtherGrid 3",
    ),
    (
        DemPart {
            at: Cell { row: 0, col: 2 },
            ..OTHER
        },
        "refused OtherGrid 3",
    ),
    (
        DemPart {
            at: Cell { row: 2, col: 1 },
            ..OTHER
        },
        "refused OtherGrid 3",
    ),
    // Pixels that add a hundredth of one over 28,801, and more.
    (
        DemPart {
            xdim: Decimal {
                units: 30,
                parts: 10416304989,
            },
            ..PART
        },
        WHOLE,
    ),
    (
        DemPart {
            xdim: Decimal {
                units: 30,
                parts: 10416304990,
            },
            ..PART
        },
        "refused OtherGrid 3",
    ),
    (
        DemPart {
            ydim: Decimal {
                units: 40,
                parts: 0,
            },
            ..PART
        },
        "refused OtherGrid 3",
    ),
    // A number that no header has.
    (
        DemPart {
            ulx: Decimal {
                units: 10000000001,
                parts: 0,
            },
            ..PART
        },
        "refused OtherGrid 3",
    ),
    (
        DemPart {
            uly: Decimal {
                units: -9223372036854775808,
                parts: 0,
            },
            ..PART
        },
        "refused OtherGrid 3",
    ),
    (
        DemPart {
            xdim: Decimal {
                units: 9223372036854775807,
                parts: 0,
            },
            ..PART
        },
        "refused OtherGrid 3",
    ),
];

#[test]
fn parts_of_one_raster(rt: HostRuntime) -> Result<(), Fail> {
    for &(part, line) in &PARTS {
        let of_whole = UnionGrid::Dem(PART);
        let windows = [
            Window {
                grid: of_whole,
                ..NW
            },
            Window {
                grid: of_whole,
                ..NE
            },
            Window {
                grid: of_whole,
                ..SW
            },
            Window {
                grid: UnionGrid::Dem(part),
                ..SE
            },
        ];
        let sinks = &UnionSinks::AsTaken;
        let given = merged_on_map(&rt, rt.alloc(), line, FIRST, &windows, sinks)?;
        same_line(&rt, line, &given, line);
    }
    Ok(())
}

/// Tiles and parts of a raster aren't of one grid, and a part with a number that no header has is of none.
#[test]
fn tiles_and_parts(rt: HostRuntime) -> Result<(), Fail> {
    let of_dem = Window {
        grid: UnionGrid::Dem(PART),
        ..NW
    };
    let of_none = Window {
        grid: UnionGrid::Dem(DemPart {
            xdim: Decimal {
                units: 10000000001,
                parts: 0,
            },
            ..PART
        }),
        ..NW
    };
    let cases: [(&[Window], &str); 3] = [
        (&[NW, of_dem], "refused OtherSide 1"),
        (&[of_dem, NE], "refused OtherGrid 1"),
        (&[of_none], "refused OtherGrid 0"),
    ];
    for (windows, line) in cases {
        let sinks = &UnionSinks::AsTaken;
        let given = merged_on_map(&rt, rt.alloc(), line, FIRST, windows, sinks)?;
        same_line(&rt, line, &given, line);
    }
    Ok(())
}
