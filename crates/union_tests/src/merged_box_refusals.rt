//! Merges of merges that have no verdict, and those with a list of sinks.

use crate::agree::same_line;
use crate::merge_answers::{FIRST, listed};
use crate::merge_trees::{
    LONG_NORTH, ORIGINS, SHORT_NORTH, SHORT_SOUTH, Tree, boxes, check_taller, check_tree, merged,
};
use crate::merged_windows::{NE, NW, SE, SW, WHOLE, Window};
use drain_grid::Cell;
use drain_merge::UnionBox;
use drain_union::UnionSize;
use std::test::Fail;

/// Trees whose last merge has no verdict.
static REFUSALS: [Tree; 9] = [
    (
        &[&[NW, SW], &[NE, SE], &[SW, NW]],
        (4, 4),
        "refused Overlap 0 2",
    ),
    (
        &[&[NW, SW], &[SE], &[NE, NW]],
        (4, 4),
        "refused Overlap 0 2",
    ),
    (&[&[NW, SW], &[SE]], (4, 4), "refused LeftOut row=0 col=2"),
    (
        &[&[SHORT_NORTH, LONG_NORTH], &[SHORT_SOUTH]],
        (4, 6),
        "refused LeftOut row=2 col=0",
    ),
    (
        &[
            &[NW, SW],
            &[Window { acc: 8, ..NE }, Window { acc: 8, ..SE }],
        ],
        (4, 4),
        "refused SeamsDiffer row=0 col=1",
    ),
    (
        &[
            &[NW, NE],
            &[
                Window { acc: 8, ..SE },
                Window {
                    acc: 8,
                    label: 1,
                    ..SW
                },
            ],
        ],
        (4, 4),
        "refused SeamsDiffer row=1 col=0",
    ),
    (
        &[
            &[NW, SW],
            &[
                Window {
                    nodata: (-9999, 0),
                    ..NE
                },
                Window {
                    nodata: (-9999, 0),
                    ..SE
                },
            ],
        ],
        (4, 4),
        "refused OtherNoData 1",
    ),
    (
        &[
            &[NE, SE],
            &[
                NW,
                Window {
                    spacings: &[(1, 1), (1, 1), (1, 2)],
                    ..SW
                },
            ],
        ],
        (4, 4),
        "refused OtherSpacing 1",
    ),
    (
        &[
            &[NW, SW],
            &[Window { inner: "s", ..NE }, Window { inner: "n", ..SE }],
        ],
        (4, 4),
        "refused OutsideUnion 1",
    ),
];

/// A join names cells of the map: those of the union where it begins at the map's first one.
#[test]
fn trees_without_a_verdict(rt: HostRuntime) -> Result<(), Fail> {
    for tree in &REFUSALS {
        for &(row, col) in &ORIGINS {
            check_tree(&rt, rt.alloc(), Cell { row, col }, tree)?;
        }
        check_taller(&rt, rt.alloc(), FIRST, tree)?;
    }
    Ok(())
}

/// The windows in the north-west and in the south-east, with a listed sink each.
const NW1: Window = Window {
    sinks: &[(1, 1)],
    ..NW
};

const SE1: Window = Window {
    sinks: &[(2, 2)],
    ..SE
};

/// The list of the union's sinks, the groups, and the line.
static LISTED: [(&str, &[&[Window]], &str); 4] = [
    ("1 1\n2 2\n", &[&[NW1, SW], &[NE, SE1]], WHOLE),
    (
        "2 2",
        &[&[NW1, SW], &[NE, SE1]],
        "refused SinkNotListed row=1 col=1",
    ),
    (
        "",
        &[&[NE, SE1], &[SW, NW1]],
        "refused SinkNotListed row=2 col=2",
    ),
    (
        "1 1\n2 2\n3 3\n",
        &[&[NW1, NE], &[SW, SE1]],
        "refused SinkLeftOut 3",
    ),
];

#[test]
fn trees_with_listed_sinks(rt: HostRuntime) -> Result<(), Fail> {
    let size = UnionSize { rows: 4, cols: 4 };
    for &(text, groups, line) in &LISTED {
        let sinks = listed(rt.alloc(), text)?;
        for &(row, col) in &ORIGINS {
            let origin = Cell { row, col };
            let given = boxes(rt.alloc(), origin, groups)?;
            let given = merged(&rt, rt.alloc(), UnionBox { origin, size }, given, &sinks);
            same_line(&rt, text, &given, line);
        }
    }
    Ok(())
}
