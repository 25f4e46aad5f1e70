//! Merges of merges: the line is that of one merge of all windows.

use crate::merge_trees::{
    FIRST_COLUMNS, LAST_COLUMNS, LONG_NORTH, LONG_SOUTH, MIDDLE_COLUMNS, ORIGINS, SHORT_NORTH,
    SHORT_SOUTH, Tree, WHEEL, check_taller, check_tree,
};
use crate::merged_windows::{COLUMN, NE, NW, REST, SE, SW, WHOLE, Window};
use drain_grid::Cell;
use std::alloc::Global;
use std::process::Abort;
use std::test::Fail;

const BRICKS: &str = "accepted rows=4 cols=6 data=24 raised=4 outlets=4";

const COLUMNS: &str = "accepted rows=4 cols=6 data=24 raised=3 outlets=3";

/// Trees with a verdict.
static PAIRS: [Tree; 8] = [
    (&[&[NW, NE, SW, SE]], (4, 4), WHOLE),
    // The ring of the second one is the union's first column, which the first one judges.
    (&[&[COLUMN, REST]], (4, 4), WHOLE),
    (&[&[COLUMN], &[REST]], (4, 4), WHOLE),
    // The west and the east, the north and the south, and in other orders.
    (&[&[NW, SW], &[NE, SE]], (4, 4), WHOLE),
    (&[&[NW, NE], &[SW, SE]], (4, 4), WHOLE),
    (&[&[SE, NE], &[SW, NW]], (4, 4), WHOLE),
    (&[&[SE, SW], &[NW, NE]], (4, 4), WHOLE),
    (&[&[SE], &[SW, NW], &[NE]], (4, 4), WHOLE),
];

/// Trees of columns, bricks and other shapes, and with counts above 32 bits.
static SHAPES: [Tree; 7] = [
    (
        &[&[FIRST_COLUMNS, MIDDLE_COLUMNS], &[LAST_COLUMNS]],
        (4, 6),
        COLUMNS,
    ),
    (
        &[&[LAST_COLUMNS, MIDDLE_COLUMNS], &[FIRST_COLUMNS]],
        (4, 6),
        COLUMNS,
    ),
    (
        &[&[SHORT_NORTH, LONG_NORTH], &[LONG_SOUTH, SHORT_SOUTH]],
        (4, 6),
        BRICKS,
    ),
    (
        &[&[SHORT_SOUTH, LONG_NORTH, LONG_SOUTH, SHORT_NORTH]],
        (4, 6),
        BRICKS,
    ),
    (
        &[&WHEEL],
        (6, 6),
        "accepted rows=6 cols=6 data=36 raised=5 outlets=5",
    ),
    (
        &[
            &[
                Window {
                    counts: (4294967295, 4294967295, 4294967295),
                    ..NW
                },
                Window {
                    counts: (4294967295, 1, 3000000000),
                    ..NE
                },
            ],
            &[SW, SE],
        ],
        (4, 4),
        "accepted rows=4 cols=4 data=8589934598 raised=4294967298 outlets=7294967297",
    ),
    (
        &[
            &[
                Window {
                    spacings: &[(9, 9), (8, 9), (7, 9)],
                    ..NW
                },
                Window {
                    spacings: &[(8, 9), (7, 9), (6, 9)],
                    ..SW
                },
            ],
            &[
                Window {
                    spacings: &[(8, 9), (7, 9), (6, 9)],
                    ..SE
                },
                Window {
                    spacings: &[(9, 9), (8, 9), (7, 9)],
                    ..NE
                },
            ],
        ],
        (4, 4),
        WHOLE,
    ),
];

/// Trees with rejected windows, and with labels that outlets share.
static REJECTED: [Tree; 11] = [
    // A rejected window, and several: in row 2 and column 0, in row 1 and column 3, and in row 2 and column 2.
    (
        &[
            &[
                NW,
                Window {
                    fault: Some((1, 0)),
                    ..SW
                },
            ],
            &[NE, SE],
        ],
        (4, 4),
        "rejected rule=10 Slope row=2 col=0",
    ),
    (
        &[
            &[
                NE,
                Window {
                    fault: Some((1, 1)),
                    ..SE
                },
            ],
            &[
                Window {
                    fault: Some((1, 0)),
                    ..SW
                },
                NW,
            ],
        ],
        (4, 4),
        "rejected rule=10 Slope row=2 col=0",
    ),
    (
        &[
            &[
                NW,
                Window {
                    fault: Some((2, 1)),
                    ..SW
                },
            ],
            &[
                Window {
                    fault: Some((1, 1)),
                    ..SE
                },
                Window {
                    fault: Some((1, 2)),
                    ..NE
                },
            ],
        ],
        (4, 4),
        "rejected rule=10 Slope row=1 col=3",
    ),
    (
        &[
            &[NW, NE],
            &[
                Window {
                    fault: Some((2, 2)),
                    ..SE
                },
                Window {
                    fault: Some((1, 2)),
                    ..SW
                },
            ],
        ],
        (4, 4),
        "rejected rule=10 Slope row=2 col=2",
    ),
    // A rejected window hides seams that differ in its own group and between groups, and a shared label.
    (
        &[
            &[NW, Window { label: 1, ..SW }],
            &[
                Window { acc: 8, ..NE },
                Window {
                    fault: Some((1, 1)),
                    ..SE
                },
            ],
        ],
        (4, 4),
        "rejected rule=10 Slope row=2 col=2",
    ),
    (
        &[
            &[
                NW,
                Window {
                    fault: Some((1, 1)),
                    ..NE
                },
            ],
            &[Window { acc: 8, ..SW }, Window { acc: 8, ..SE }],
        ],
        (4, 4),
        "rejected rule=10 Slope row=1 col=2",
    ),
    // A label that two outlets share, in one group, in two, and in both ways.
    (
        &[&[NW, Window { label: 1, ..SW }], &[NE, SE]],
        (4, 4),
        "rejected rule=15 SharedLabel row=3 col=0",
    ),
    (
        &[&[NW, SW], &[NE, Window { label: 1, ..SE }]],
        (4, 4),
        "rejected rule=15 SharedLabel row=3 col=3",
    ),
    (
        &[
            &[NW, Window { label: 9, ..SW }],
            &[Window { label: 9, ..SE }, Window { label: 1, ..NE }],
        ],
        (4, 4),
        "rejected rule=15 SharedLabel row=0 col=3",
    ),
    (
        &[
            &[NW, Window { label: 9, ..NE }],
            &[Window { label: 1, ..SE }, Window { label: 9, ..SW }],
        ],
        (4, 4),
        "rejected rule=15 SharedLabel row=3 col=0",
    ),
    (
        &[
            &[
                FIRST_COLUMNS,
                Window {
                    label: 1,
                    ..MIDDLE_COLUMNS
                },
            ],
            &[LAST_COLUMNS],
        ],
        (4, 6),
        "rejected rule=15 SharedLabel row=0 col=2",
    ),
];

#[test]
fn trees_of_pairs(rt: HostRuntime) -> Result<(), Fail> {
    check_trees(&rt, rt.alloc(), &PAIRS)
}

#[test]
fn trees_of_shapes(rt: HostRuntime) -> Result<(), Fail> {
    check_trees(&rt, rt.alloc(), &SHAPES)
}

#[test]
fn rejected_trees(rt: HostRuntime) -> Result<(), Fail> {
    check_trees(&rt, rt.alloc(), &REJECTED)
}

/// Fails the test if one of these trees has another line, at whichever cell the union begins, or with a step more.
fn check_trees(rt: &impl Abort, alloc: Global, trees: &[Tree]) -> Result<(), Fail> {
    for &(row, col) in &ORIGINS {
        for tree in trees {
            check_tree(rt, alloc, Cell { row, col }, tree)?;
            check_taller(rt, alloc, Cell { row, col }, tree)?;
        }
    }
    Ok(())
}
