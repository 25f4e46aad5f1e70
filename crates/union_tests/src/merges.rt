//! Verdicts and refusals of a union of four windows.

use crate::agree::same_line;
use crate::merge_answers::merged_on_map;
use crate::merged_windows::{COLUMN, NE, NW, REST, RINGS, SE, SW, WHOLE, Window};
use drain_grid::Cell;
use drain_merge::UnionSinks;
use std::test::Fail;

/// The windows in the order of the list, and the line.
static UNIONS: [(&str, &[Window], &str); 19] = [
    ("the whole union", &[NW, NE, SW, SE], WHOLE),
    ("in another order", &[SE, NW, SW, NE], WHOLE),
    (
        "another no-data number of ranks alone",
        &[
            NW,
            Window {
                nodata: (-32768, -32768),
                ..NE
            },
            SW,
            SE,
        ],
        WHOLE,
    ),
    ("no report", &[], "refused NoReports"),
    (
        "counts above 32 bits",
        &[
            Window {
                counts: (4294967295, 4294967295, 4294967295),
                ..NW
            },
            Window {
                counts: (4294967295, 1, 3000000000),
                ..NE
            },
            SW,
            SE,
        ],
        "accepted rows=4 cols=4 data=8589934598 raised=4294967298 outlets=7294967297",
    ),
    (
        "a label of windows far apart",
        &[
            Window { label: 2, ..NW },
            Window { label: 9, ..NE },
            SW,
            Window { label: 2, ..SE },
        ],
        "rejected rule=15 SharedLabel row=3 col=3",
    ),
    (
        "two shared labels",
        &[
            NW,
            Window { label: 9, ..NE },
            Window { label: 9, ..SW },
            Window { label: 1, ..SE },
        ],
        "rejected rule=15 SharedLabel row=3 col=0",
    ),
    (
        "two rejected windows",
        &[
            NW,
            Window {
                fault: Some((1, 1)),
                ..SE
            },
            Window {
                fault: Some((1, 0)),
                ..SW
            },
            NE,
        ],
        "rejected rule=10 Slope row=2 col=0",
    ),
    (
        "a rejected window beside a shared label and other seams",
        &[
            NW,
            Window { label: 1, ..NE },
            Window { acc: 8, ..SW },
            Window {
                fault: Some((1, 1)),
                ..SE
            },
        ],
        "rejected rule=10 Slope row=2 col=2",
    ),
    (
        "other no-data numbers before an overlap",
        &[
            NW,
            NE,
            Window {
                nodata: (-9999, 0),
                ..SW
            },
            NW,
        ],
        "refused OtherNoData 2",
    ),
    (
        "a side where the union goes on",
        &[NW, NE, SW, Window { inner: "sw", ..SE }],
        "refused OutsideUnion 3",
    ),
    (
        "a window given twice",
        &[NW, NE, SW, SE, NE],
        "refused Overlap 1 4",
    ),
    (
        "a window of two columns, with one inner side",
        &[COLUMN, REST],
        WHOLE,
    ),
    (
        "the same window twice",
        &[COLUMN, REST, COLUMN],
        "refused Overlap 0 2",
    ),
    (
        "a window that judges no cell",
        &[RINGS, COLUMN, REST],
        "refused JudgesNothing 0",
    ),
    (
        "a window that judges no cell before one that is given twice",
        &[COLUMN, REST, COLUMN, RINGS],
        "refused JudgesNothing 3",
    ),
    (
        "a window left out",
        &[NW, SW, SE],
        "refused LeftOut row=0 col=2",
    ),
    (
        "seams that differ",
        &[NW, NE, SW, Window { acc: 8, ..SE }],
        "refused SeamsDiffer row=1 col=1",
    ),
    (
        "seams that differ before a shared label",
        &[NW, Window { acc: 8, ..NE }, SW, Window { label: 1, ..SE }],
        "refused SeamsDiffer row=0 col=1",
    ),
];

/// Cells of maps at which the union may begin. From the last one it reaches to the greatest numbers of 32 bits.
static ORIGINS: [(u32, u32); 3] = [(0, 0), (62400, 90001), (4294967292, 4294967292)];

/// Rows and columns of the lines are those of the union, wherever it begins.
#[test]
fn unions_on_a_map(rt: HostRuntime) -> Result<(), Fail> {
    for &(row, col) in &ORIGINS {
        for &(case, windows, line) in &UNIONS {
            let origin = Cell { row, col };
            let sinks = &UnionSinks::AsTaken;
            let given = merged_on_map(&rt, rt.alloc(), case, origin, windows, sinks)?;
            same_line(&rt, case, &given, line);
        }
    }
    Ok(())
}
