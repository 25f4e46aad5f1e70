//! Merges of windows whose rows are spaced otherwise than by square cells.
//!
//! Windows in one half of the union have its rows 0 to 2 or 1 to 3, so the halves share rows 1 and 2.

use crate::agree::same_line;
use crate::merge_answers::merged_on_map;
use crate::merged_windows::{COLUMN, NE, NW, REST, SE, SW, WHOLE, Window};
use drain_grid::Cell;
use drain_merge::UnionSinks;
use std::test::Fail;

/// The windows in the order of the list, and the line.
static UNIONS: [(&str, &[Window], &str); 12] = [
    (
        "cells of one width and height",
        &[
            Window {
                spacings: &[(3, 4)],
                ..NW
            },
            Window {
                spacings: &[(3, 4)],
                ..NE
            },
            Window {
                spacings: &[(3, 4)],
                ..SW
            },
            Window {
                spacings: &[(3, 4)],
                ..SE
            },
        ],
        WHOLE,
    ),
    (
        "width and height changed in one window",
        &[
            Window {
                spacings: &[(3, 4)],
                ..NW
            },
            Window {
                spacings: &[(3, 4)],
                ..NE
            },
            Window {
                spacings: &[(4, 3)],
                ..SW
            },
            Window {
                spacings: &[(3, 4)],
                ..SE
            },
        ],
        "refused OtherSpacing 2",
    ),
    (
        "the same ratio in another unit",
        &[
            Window {
                spacings: &[(3, 4)],
                ..NW
            },
            Window {
                spacings: &[(6, 8)],
                ..NE
            },
            Window {
                spacings: &[(3, 4)],
                ..SW
            },
            Window {
                spacings: &[(3, 4)],
                ..SE
            },
        ],
        "refused OtherSpacing 1",
    ),
    (
        "square cells beside others",
        &[
            NW,
            NE,
            SW,
            Window {
                spacings: &[(1, 2)],
                ..SE
            },
        ],
        "refused OtherSpacing 3",
    ),
    (
        "square cells, as they are and as a list",
        &[
            NW,
            Window {
                spacings: &[(1, 1)],
                ..NE
            },
            Window {
                spacings: &[(1, 1), (1, 1), (1, 1)],
                ..SW
            },
            SE,
        ],
        WHOLE,
    ),
    (
        "rows that grow narrower",
        &[
            Window {
                spacings: &[(9, 9), (8, 9), (7, 9)],
                ..NW
            },
            Window {
                spacings: &[(9, 9), (8, 9), (7, 9)],
                ..NE
            },
            Window {
                spacings: &[(8, 9), (7, 9), (6, 9)],
                ..SW
            },
            Window {
                spacings: &[(8, 9), (7, 9), (6, 9)],
                ..SE
            },
        ],
        WHOLE,
    ),
    (
        "the list of a northern window in a southern one",
        &[
            Window {
                spacings: &[(9, 9), (8, 9), (7, 9)],
                ..NW
            },
            Window {
                spacings: &[(9, 9), (8, 9), (7, 9)],
                ..NE
            },
            Window {
                spacings: &[(9, 9), (8, 9), (7, 9)],
                ..SW
            },
            Window {
                spacings: &[(8, 9), (7, 9), (6, 9)],
                ..SE
            },
        ],
        "refused OtherSpacing 2",
    ),
    (
        "the last row alone",
        &[
            Window {
                spacings: &[(9, 9), (8, 9)],
                ..NW
            },
            Window {
                spacings: &[(9, 9), (8, 9)],
                ..NE
            },
            Window {
                spacings: &[(8, 9)],
                ..SW
            },
            Window {
                spacings: &[(8, 9), (8, 9), (7, 9)],
                ..SE
            },
        ],
        "refused OtherSpacing 3",
    ),
    (
        "rows listed up to the last that differs",
        &[
            Window {
                spacings: &[(9, 9), (8, 9)],
                ..NW
            },
            Window {
                spacings: &[(9, 9), (8, 9), (8, 9)],
                ..NE
            },
            Window {
                spacings: &[(8, 9)],
                ..SW
            },
            Window {
                spacings: &[(8, 9), (8, 9), (8, 9)],
                ..SE
            },
        ],
        WHOLE,
    ),
    (
        "windows that share no column",
        &[
            Window {
                spacings: &[(2, 1)],
                ..COLUMN
            },
            Window {
                spacings: &[(2, 1), (2, 1), (2, 1), (3, 1)],
                ..REST
            },
        ],
        "refused OtherSpacing 1",
    ),
    (
        "other no-data numbers before other spacings",
        &[
            NW,
            Window {
                spacings: &[(1, 2)],
                ..NE
            },
            Window {
                nodata: (-9999, 0),
                ..SW
            },
            SE,
        ],
        "refused OtherNoData 2",
    ),
    (
        "other spacings before a window given twice and a rejected one",
        &[
            NW,
            NW,
            Window {
                fault: Some((1, 1)),
                spacings: &[(1, 2)],
                ..SE
            },
        ],
        "refused OtherSpacing 2",
    ),
];

/// Cells of maps at which the union may begin.
static ORIGINS: [(u32, u32); 2] = [(0, 0), (4294967292, 4294967292)];

/// Rows of windows are compared where they lie in the union, wherever it begins.
#[test]
fn unions_with_spacings_on_a_map(rt: HostRuntime) -> Result<(), Fail> {
    for &(row, col) in &ORIGINS {
        for &(case, windows, line) in &UNIONS {
            let origin = Cell { row, col };
            let sinks = &UnionSinks::AsTaken;
            let given = merged_on_map(&rt, rt.alloc(), case, origin, windows, sinks)?;
            same_line(&rt, case, &given, line);
        }
    }
    Ok(())
}
