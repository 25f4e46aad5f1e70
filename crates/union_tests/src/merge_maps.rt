//! What a merge on a map refuses beside what a merge refuses: other sides, and other sinks than the union has.

use crate::agree::same_line;
use crate::merge_answers::{FIRST, listed, merged_on_map};
use crate::merged_windows::{NE, NW, SE, SW, WHOLE, Window};
use drain_grid::Cell;
use drain_merge::UnionSinks;
use drain_union::UnionGrid;
use std::test::Fail;

/// The windows, and the line.
static TAKEN: [(&str, &[Window], &str); 5] = [
    (
        "sinks as they are taken",
        &[
            Window {
                sinks: &[(1, 1)],
                ..NW
            },
            NE,
            SW,
            Window {
                sinks: &[(2, 2), (3, 2)],
                ..SE
            },
        ],
        WHOLE,
    ),
    (
        "two other sides",
        &[
            NW,
            Window {
                grid: UnionGrid::Tiles(3601),
                ..NE
            },
            Window {
                grid: UnionGrid::Tiles(2),
                ..SW
            },
            SE,
        ],
        "refused OtherSide 1",
    ),
    (
        "another side before other no-data numbers",
        &[
            NW,
            Window {
                nodata: (-9999, 0),
                ..NE
            },
            SW,
            Window {
                grid: UnionGrid::Tiles(2),
                ..SE
            },
        ],
        "refused OtherSide 3",
    ),
    (
        "a side where the union goes on",
        &[
            NW,
            NE,
            SW,
            SE,
            Window {
                first: (1, 2),
                ..SE
            },
        ],
        "refused OutsideUnion 1",
    ),
    (
        "two windows as far apart as can be",
        &[
            NW,
            Window {
                first: (4294967293, 1),
                ..SE
            },
        ],
        "refused OutsideUnion 1",
    ),
];

#[test]
fn windows_on_a_map(rt: HostRuntime) -> Result<(), Fail> {
    for &(case, windows, line) in &TAKEN {
        let sinks = &UnionSinks::AsTaken;
        let given = merged_on_map(&rt, rt.alloc(), case, FIRST, windows, sinks)?;
        same_line(&rt, case, &given, line);
    }
    Ok(())
}

/// The window in the north-west with a listed sink, and the one in the south-east with another.
const NW1: Window = Window {
    sinks: &[(1, 1)],
    ..NW
};

const SE1: Window = Window {
    sinks: &[(2, 2)],
    ..SE
};

/// The list of the union's sinks, the windows, and the line.
static LISTED: [(&str, &[Window], &str); 18] = [
    ("", &[NW, NE, SW, SE], WHOLE),
    ("1 1\n2 2\n", &[NW1, NE, SW, SE1], WHOLE),
    ("2 2\r\n\n1 1\n 02\t2 \n1 1", &[NW1, NE, SW, SE1], WHOLE),
    // A line that no window took, also one of the numbers on the map, or of a cell outside the union.
    ("1 1", &[NW, NE, SW, SE], "refused SinkLeftOut 1"),
    (
        "1 1\n\n \t\r\n0 3\n",
        &[NW1, NE, SW, SE],
        "refused SinkLeftOut 4",
    ),
    (
        "2 2\n0 3\n1 0\n",
        &[NW, NE, SW, SE1],
        "refused SinkLeftOut 2",
    ),
    ("62401 90002", &[NW1, NE, SW, SE], "refused SinkLeftOut 1"),
    ("1 1\n4 0", &[NW1, NE, SW, SE], "refused SinkLeftOut 2"),
    // A sink that isn't listed: the first one in the order of the reports.
    ("", &[NW1, NE, SW, SE1], "refused SinkNotListed row=1 col=1"),
    ("", &[SE1, NE, SW, NW1], "refused SinkNotListed row=2 col=2"),
    (
        "1 1",
        &[NW1, NE, SW, SE1],
        "refused SinkNotListed row=2 col=2",
    ),
    ("1 1\n3 3", &[NW1, NE, SW, SE1], "refused SinkLeftOut 2"),
    // A rejected window hides a wrong list, and so does what isn't a union.
    (
        "3 3",
        &[
            NW1,
            NE,
            SW,
            Window {
                fault: Some((1, 1)),
                ..SE
            },
        ],
        "rejected rule=10 Slope row=2 col=2",
    ),
    ("3 3", &[NW1, SW, SE], "refused LeftOut row=0 col=2"),
    (
        "3 3",
        &[NW1, NE, SW, Window { acc: 8, ..SE }],
        "refused SeamsDiffer row=1 col=1",
    ),
    // A wrong list comes before a shared label, and a right one hides nothing.
    (
        "1 1\n3 3",
        &[NW1, NE, SW, Window { label: 1, ..SE }],
        "refused SinkLeftOut 2",
    ),
    (
        "",
        &[NW1, NE, SW, Window { label: 1, ..SE }],
        "refused SinkNotListed row=1 col=1",
    ),
    (
        "1 1",
        &[NW1, NE, SW, Window { label: 1, ..SE }],
        "rejected rule=15 SharedLabel row=3 col=3",
    ),
];

/// A list counts from the union's first cell, wherever that lies on the map.
#[test]
fn lists_of_sinks(rt: HostRuntime) -> Result<(), Fail> {
    for &(text, windows, line) in &LISTED {
        let sinks = listed(rt.alloc(), text)?;
        let origin = Cell {
            row: 62400,
            col: 90001,
        };
        let given = merged_on_map(&rt, rt.alloc(), text, origin, windows, &sinks)?;
        same_line(&rt, text, &given, line);
    }
    Ok(())
}
