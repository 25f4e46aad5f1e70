//! Trees of merges: windows are joined in groups, and the reports on the groups' boxes are merged.

use crate::agree::{same_box, same_line};
use crate::merged_windows::{NE, NW, SE, SW, Window, reports};
use drain_answer::lines::Line;
use drain_grid::Cell;
use drain_merge::{UnionBox, UnionSinks, join, merge_line, merge_on_map};
use drain_union::{UnionSize, WindowReport};
use std::alloc::Global;
use std::process::Abort;
use std::test::Fail;

/// Three windows side by side in a union of 6 columns.
pub const FIRST_COLUMNS: Window = Window {
    size: (4, 3),
    inner: "e",
    counts: (8, 1, 1),
    ..NW
};

pub const MIDDLE_COLUMNS: Window = Window {
    first: (0, 1),
    size: (4, 4),
    inner: "we",
    label: 2,
    outlet: (0, 2),
    ..FIRST_COLUMNS
};

pub const LAST_COLUMNS: Window = Window {
    first: (0, 3),
    inner: "w",
    label: 3,
    outlet: (0, 5),
    ..FIRST_COLUMNS
};

/// Bricks in a union of 6 columns: below the second window of the north the first one of the south goes on.
pub const SHORT_NORTH: Window = NW;

pub const LONG_NORTH: Window = Window {
    size: (3, 5),
    counts: (8, 1, 1),
    ..NE
};

pub const LONG_SOUTH: Window = Window {
    size: (3, 5),
    counts: (8, 1, 1),
    ..SW
};

pub const SHORT_SOUTH: Window = Window {
    first: (1, 3),
    outlet: (3, 5),
    ..SE
};

/// Four windows around a fifth one, in a union of 6 rows and columns: no two of the five make a box.
pub const WHEEL: [Window; 5] = [
    Window {
        size: (3, 5),
        counts: (8, 1, 1),
        ..NW
    },
    Window {
        first: (0, 3),
        size: (5, 3),
        counts: (8, 1, 1),
        ..NE
    },
    Window {
        first: (3, 1),
        size: (3, 5),
        counts: (8, 1, 1),
        ..SE
    },
    Window {
        first: (1, 0),
        size: (5, 3),
        counts: (8, 1, 1),
        ..SW
    },
    Window {
        first: (1, 1),
        size: (4, 4),
        inner: "nswe",
        label: 5,
        outlet: (2, 2),
        ..NW
    },
];

/// The windows of a tree, the rows and columns of their union, and the line.
pub type Tree = (&'static [&'static [Window]], (u32, u32), &'static str);

/// Cells of maps at which the union may begin.
pub static ORIGINS: [(u32, u32); 3] = [(0, 0), (62400, 90001), (4294967289, 4294967289)];

/// The reports on the boxes of these groups.
pub fn boxes(alloc: Global, origin: Cell, groups: &[&[Window]]) -> Result<Vec<WindowReport>, Fail> {
    let mut boxes = Vec::new(alloc);
    for group in groups {
        let windows = reports(alloc, origin, group)?;
        boxes.push(join(alloc, windows)?)?;
    }
    Ok(boxes)
}

/// The line of the merge of these reports. Fails the test if a verdict isn't that on this box.
pub fn merged(
    rt: &impl Abort,
    alloc: Global,
    bounds: UnionBox,
    boxes: Vec<WindowReport>,
    sinks: &UnionSinks,
) -> Line {
    match merge_on_map(alloc, boxes, sinks) {
        Ok(union) => {
            same_box(rt, "box", union.bounds, bounds);
            merge_line(&Ok(union))
        }
        Err(refusal) => merge_line(&Err(refusal)),
    }
}

/// The same where all reports are joined once more, and the one is merged.
pub fn merged_in_one(
    rt: &impl Abort,
    alloc: Global,
    bounds: UnionBox,
    boxes: Vec<WindowReport>,
) -> Result<Line, Fail> {
    match join(alloc, boxes) {
        Ok(whole) => {
            let mut one = Vec::new(alloc);
            one.push(whole)?;
            Ok(merged(rt, alloc, bounds, one, &UnionSinks::AsTaken))
        }
        Err(refusal) => Ok(merge_line(&Err(refusal))),
    }
}

/// Fails the test if the last merge of a tree of a union that begins here has another line.
pub fn check_tree(rt: &impl Abort, alloc: Global, origin: Cell, tree: &Tree) -> Result<(), Fail> {
    let (groups, (rows, cols), line) = *tree;
    let size = UnionSize { rows, cols };
    let given = boxes(alloc, origin, groups)?;
    let bounds = UnionBox { origin, size };
    let given = merged(rt, alloc, bounds, given, &UnionSinks::AsTaken);
    same_line(rt, line, &given, line);
    Ok(())
}

/// The same with a step more.
pub fn check_taller(rt: &impl Abort, alloc: Global, origin: Cell, tree: &Tree) -> Result<(), Fail> {
    let (groups, (rows, cols), line) = *tree;
    let size = UnionSize { rows, cols };
    let given = boxes(alloc, origin, groups)?;
    let given = merged_in_one(rt, alloc, UnionBox { origin, size }, given)?;
    same_line(rt, line, &given, line);
    Ok(())
}
