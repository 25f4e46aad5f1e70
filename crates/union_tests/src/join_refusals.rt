//! What windows don't make a report of a box for, and how such a report spaces its rows.

use crate::agree::{same, same_line};
use crate::merge_dems::PART;
use crate::merge_trees::{LONG_NORTH, LONG_SOUTH, SHORT_NORTH, SHORT_SOUTH};
use crate::merged_windows::{NE, NW, RINGS, SE, SW, Window, reports, spacings};
use drain_answer::lines::Line;
use drain_grid::Cell;
use drain_merge::{join, merge_line};
use drain_union::UnionGrid;
use std::alloc::Global;
use std::test::Fail;

/// The map's cell at which the union begins, the windows, and the line of the refusal, whose rows and columns are the
/// map's.
static UNFILLED: [((u32, u32), &[Window], &str); 8] = [
    ((0, 0), &[], "refused NoReports"),
    // Three windows make no box: the first cell of the fourth one is left out.
    ((0, 0), &[NW, NE, SW], "refused LeftOut row=2 col=2"),
    (
        (62400, 90001),
        &[NW, NE, SW],
        "refused LeftOut row=62402 col=90003",
    ),
    ((0, 0), &[NW, NE, SE], "refused LeftOut row=2 col=0"),
    ((0, 0), &[SW, SE, NW], "refused LeftOut row=0 col=2"),
    (
        (62400, 90001),
        &[SE, SW, NE],
        "refused LeftOut row=62400 col=90001",
    ),
    // Two windows apart: at a corner, beside one another, and one above another.
    ((0, 0), &[NW, SE], "refused LeftOut row=0 col=2"),
    (
        (62400, 90001),
        &[SW, NE],
        "refused LeftOut row=62400 col=90001",
    ),
];

/// Windows that overlap by one row or column, or by three, and some that are given twice.
static OVERLAPPING: [((u32, u32), &[Window], &str); 8] = [
    (
        (0, 0),
        &[
            NW,
            Window {
                first: (0, 7),
                ..NE
            },
        ],
        "refused LeftOut row=0 col=2",
    ),
    (
        (62400, 90001),
        &[
            Window {
                first: (7, 0),
                ..SW
            },
            NW,
        ],
        "refused LeftOut row=62402 col=90001",
    ),
    // They overlap by one column, and by three.
    (
        (0, 0),
        &[
            NW,
            Window {
                first: (0, 2),
                ..NE
            },
        ],
        "refused LeftOut row=0 col=2",
    ),
    (
        (0, 0),
        &[Window { size: (3, 4), ..NW }, Window { size: (3, 4), ..NE }],
        "refused Overlap 0 1",
    ),
    // Bricks above one another.
    (
        (0, 0),
        &[SHORT_NORTH, LONG_SOUTH],
        "refused LeftOut row=0 col=2",
    ),
    (
        (62400, 90001),
        &[SHORT_SOUTH, LONG_NORTH],
        "refused LeftOut row=62402 col=90003",
    ),
    // A window that is given twice.
    ((0, 0), &[NE, NE], "refused Overlap 0 1"),
    (
        (4294967291, 4294967291),
        &[NW, NE, SW, NE, NW],
        "refused Overlap 1 3",
    ),
];

/// Windows that differ: along their seams, in their numbers, or in their grid.
static UNLIKE: [((u32, u32), &[Window], &str); 10] = [
    // Seams that differ inside the box, and beside where the union goes on.
    (
        (0, 0),
        &[NW, Window { acc: 8, ..NE }],
        "refused SeamsDiffer row=0 col=1",
    ),
    (
        (62400, 90001),
        &[Window { acc: 8, ..SW }, NW],
        "refused SeamsDiffer row=62401 col=90001",
    ),
    (
        (4294967291, 4294967291),
        &[NW, NE, SW, Window { acc: 8, ..SE }],
        "refused SeamsDiffer row=4294967292 col=4294967292",
    ),
    // Other no-data numbers, another side, a raster and another spacing.
    (
        (0, 0),
        &[
            NW,
            Window {
                nodata: (-9999, 0),
                ..NE
            },
        ],
        "refused OtherNoData 1",
    ),
    (
        (0, 0),
        &[
            NW,
            Window {
                nodata: (-9999, 0),
                ..SW
            },
            Window {
                grid: UnionGrid::Tiles(2),
                ..NE
            },
        ],
        "refused OtherSide 2",
    ),
    (
        (0, 0),
        &[
            NW,
            Window {
                grid: UnionGrid::Dem(PART),
                ..SW
            },
        ],
        "refused OtherSide 1",
    ),
    (
        (0, 0),
        &[
            Window {
                grid: UnionGrid::Dem(PART),
                ..SW
            },
            NW,
        ],
        "refused OtherGrid 1",
    ),
    (
        (0, 0),
        &[
            NW,
            Window {
                spacings: &[(3, 4)],
                ..NE
            },
        ],
        "refused OtherSpacing 1",
    ),
    (
        (0, 0),
        &[
            NW,
            Window {
                spacings: &[(3, 4)],
                ..NW
            },
            Window {
                nodata: (-9999, 0),
                ..NE
            },
        ],
        "refused OtherNoData 2",
    ),
    (
        (0, 0),
        &[
            NW,
            NW,
            Window {
                spacings: &[(1, 1), (1, 1), (1, 2)],
                ..NE
            },
        ],
        "refused OtherSpacing 2",
    ),
];

/// Windows with a side that doesn't fit the box, one that judges no cell, and rejected ones.
static OUTSIDE: [((u32, u32), &[Window], &str); 11] = [
    // The union ends with one of them, and the other one has a ring there.
    (
        (0, 0),
        &[NW, Window { inner: "w", ..NE }],
        "refused LeftOut row=2 col=0",
    ),
    (
        (0, 0),
        &[Window { inner: "e", ..NW }, NE],
        "refused LeftOut row=2 col=2",
    ),
    (
        (62400, 90001),
        &[SE, Window { inner: "e", ..SW }],
        "refused LeftOut row=62401 col=90003",
    ),
    // An outer side that isn't a side of the box.
    (
        (0, 0),
        &[NW, Window { inner: "e", ..SW }],
        "refused OutsideUnion 1",
    ),
    (
        (0, 0),
        &[Window { inner: "s", ..NW }, NE],
        "refused OutsideUnion 0",
    ),
    // One more than the last row, and than the last column, has to be a number of 32 bits.
    ((4294967292, 0), &[NW, SW], "refused OutsideUnion 1"),
    ((0, 4294967292), &[NW, SW, NE], "refused OutsideUnion 2"),
    // A window that judges no cell, before one that is given twice.
    (
        (0, 0),
        &[NW, NE, SW, SE, NW, RINGS],
        "refused JudgesNothing 5",
    ),
    // A rejected window hides no place.
    (
        (0, 0),
        &[
            Window {
                fault: Some((0, 0)),
                ..NW
            },
            SE,
        ],
        "refused LeftOut row=0 col=2",
    ),
    (
        (0, 0),
        &[
            NW,
            Window {
                fault: Some((0, 0)),
                ..NW
            },
            Window { acc: 8, ..NE },
        ],
        "refused Overlap 0 1",
    ),
    (
        (0, 0),
        &[NW, NW, Window { acc: 8, ..NE }],
        "refused Overlap 0 1",
    ),
];

/// The line of the refusal, or none.
fn refusal(alloc: Global, origin: Cell, windows: &[Window]) -> Result<Line, Fail> {
    let windows = reports(alloc, origin, windows)?;
    match join(alloc, windows) {
        Ok(_) => Err(Fail::new("joined")),
        Err(refusal) => Ok(merge_line(&Err(refusal))),
    }
}

#[test]
fn windows_that_fill_no_box(rt: HostRuntime) -> Result<(), Fail> {
    for &((row, col), windows, line) in &UNFILLED {
        let given = refusal(rt.alloc(), Cell { row, col }, windows)?;
        same_line(&rt, line, &given, line);
    }
    Ok(())
}

#[test]
fn windows_that_overlap(rt: HostRuntime) -> Result<(), Fail> {
    for &((row, col), windows, line) in &OVERLAPPING {
        let given = refusal(rt.alloc(), Cell { row, col }, windows)?;
        same_line(&rt, line, &given, line);
    }
    Ok(())
}

#[test]
fn windows_that_differ(rt: HostRuntime) -> Result<(), Fail> {
    for &((row, col), windows, line) in &UNLIKE {
        let given = refusal(rt.alloc(), Cell { row, col }, windows)?;
        same_line(&rt, line, &given, line);
    }
    Ok(())
}

#[test]
fn windows_beside_the_box(rt: HostRuntime) -> Result<(), Fail> {
    for &((row, col), windows, line) in &OUTSIDE {
        let given = refusal(rt.alloc(), Cell { row, col }, windows)?;
        same_line(&rt, line, &given, line);
    }
    Ok(())
}

/// What the window in the north-west and the one south of it list, and what the box of both does: its rows are 0 to 2 and
/// 1 to 3.
static SPACINGS: [(&[(u32, u32)], &[(u32, u32)], &[(u32, u32)]); 10] = [
    (&[], &[], &[]),
    (&[(3, 4)], &[(3, 4)], &[(3, 4)]),
    (&[(1, 1)], &[(1, 1), (1, 1), (1, 1)], &[]),
    (
        &[(9, 9), (8, 9), (7, 9)],
        &[(8, 9), (7, 9), (6, 9)],
        &[(9, 9), (8, 9), (7, 9), (6, 9)],
    ),
    (&[(9, 9), (8, 9)], &[(8, 9)], &[(9, 9), (8, 9)]),
    (
        &[(9, 9), (8, 9), (8, 9)],
        &[(8, 9), (8, 9), (7, 9)],
        &[(9, 9), (8, 9), (8, 9), (7, 9)],
    ),
    (&[(2, 1), (1, 1)], &[], &[(2, 1), (1, 1)]),
    (
        &[],
        &[(1, 1), (1, 1), (2, 1)],
        &[(1, 1), (1, 1), (1, 1), (2, 1)],
    ),
    (
        &[(3, 4)],
        &[(3, 4), (3, 4), (3, 5)],
        &[(3, 4), (3, 4), (3, 4), (3, 5)],
    ),
    (
        &[(3, 4), (5, 4), (3, 4)],
        &[(5, 4), (3, 4)],
        &[(3, 4), (5, 4), (3, 4)],
    ),
];

/// Cells of maps at which the union may begin.
static ORIGINS: [(u32, u32); 2] = [(0, 0), (4294967291, 90001)];

#[test]
fn spacings_of_boxes(rt: HostRuntime) -> Result<(), Fail> {
    for &(row, col) in &ORIGINS {
        for &(north, south, listed) in &SPACINGS {
            let nw = Window {
                spacings: north,
                ..NW
            };
            let sw = Window {
                spacings: south,
                ..SW
            };
            let expected = spacings(rt.alloc(), listed)?;
            let from_north = reports(rt.alloc(), Cell { row, col }, &[nw, sw])?;
            let joined = join(rt.alloc(), from_north)?;
            let given = joined.report.spacings.as_slice();
            same(&rt, "from the north", given, expected.as_slice());
            let from_south = reports(rt.alloc(), Cell { row, col }, &[sw, nw])?;
            let joined = join(rt.alloc(), from_south)?;
            let given = joined.report.spacings.as_slice();
            same(&rt, "from the south", given, expected.as_slice());
        }
    }
    Ok(())
}
