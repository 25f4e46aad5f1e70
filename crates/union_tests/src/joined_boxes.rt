//! The reports that windows make of the boxes that hold them, written down in full.

use crate::agree::same;
use crate::merge_dems::{OTHER, PART};
use crate::merged_windows::{NE, NW, SE, SW, Window, reports};
use drain_grid::Cell;
use drain_merge::join;
use drain_report::{read_report, write_report};
use drain_union::UnionGrid;
use std::test::Fail;

/// Two windows side by side, of which the eastern one is given first.
const NORTH: &str = "drain-window-report 4
side 3
window 0 0 3 4 0 1 0 0
nodata -32768 255 0 0
accepted 3 4 8 2 2
tiles 0
sinks 3
sink 1 2
sink 1 1
sink 0 0
outlets 2
outlet 1 0 0
outlet 2 0 3
seams 8
seam 1 0 5 0 5 1 7 1
seam 1 1 5 0 5 1 7 1
seam 1 2 5 0 5 1 7 1
seam 1 3 5 0 5 1 7 1
seam 2 0 5 0 5 1 7 1
seam 2 1 5 0 5 1 7 1
seam 2 2 5 0 5 1 7 1
seam 2 3 5 0 5 1 7 1
end
";

/// Two windows one above another, on a map.
const WEST: &str = "drain-window-report 4
side 3
window 62400 90001 4 3 0 0 0 1
nodata -9999 255 0 0
accepted 4 3 7 3 4
spacings 3
spacing 9 8
spacing 8 8
spacing 7 8
tiles 0
sinks 1
sink 62402 90002
outlets 2
outlet 1 62400 90001
outlet 3 62403 90001
seams 8
seam 62400 90002 5 0 5 1 7 1
seam 62400 90003 5 0 5 1 7 1
seam 62401 90002 5 0 5 1 7 1
seam 62401 90003 5 0 5 1 7 1
seam 62402 90002 5 0 5 1 7 1
seam 62402 90003 5 0 5 1 7 1
seam 62403 90002 5 0 5 1 7 1
seam 62403 90003 5 0 5 1 7 1
end
";

/// The whole union, which ends in the last row and column in which a box does.
const ALL: &str = "drain-window-report 4
side 3
window 4294967291 4294967291 4 4 0 0 0 0
nodata -32768 255 0 0
accepted 4 4 16 4 4
tiles 0
sinks 0
outlets 4
outlet 1 4294967291 4294967291
outlet 2 4294967291 4294967294
outlet 3 4294967294 4294967291
outlet 4 4294967294 4294967294
seams 0
end
";

/// The window in the south-east, as its own report has it.
const ONE: &str = "drain-window-report 4
side 3
window 1 1 3 3 1 0 1 0
nodata -32768 255 0 0
accepted 3 3 4 1 1
tiles 0
sinks 0
outlets 1
outlet 4 3 3
seams 8
seam 1 1 5 0 5 1 7 1
seam 1 2 5 0 5 1 7 1
seam 1 3 5 0 5 1 7 1
seam 2 1 5 0 5 1 7 1
seam 2 2 5 0 5 1 7 1
seam 2 3 5 0 5 1 7 1
seam 3 1 5 0 5 1 7 1
seam 3 2 5 0 5 1 7 1
end
";

/// Two windows whose outlets have one label, which the last merge finds. They are of parts of a raster.
const SHARED: &str = "drain-window-report 4
dem 1 2 500075 0 -10010 0 30 0 20 0
window 1 0 3 4 1 0 0 0
nodata -32768 255 0 0
accepted 3 4 8 2 2
tiles 0
sinks 0
outlets 2
outlet -1 3 0
outlet -1 3 3
seams 8
seam 1 0 5 0 5 1 7 1
seam 1 1 5 0 5 1 7 1
seam 1 2 5 0 5 1 7 1
seam 1 3 5 0 5 1 7 1
seam 2 0 5 0 5 1 7 1
seam 2 1 5 0 5 1 7 1
seam 2 2 5 0 5 1 7 1
seam 2 3 5 0 5 1 7 1
end
";

/// A rejected window beside an accepted one that shows seams: the fault in row 1 and column 2 of the box.
const REJECTED: &str = "drain-window-report 4
side 3
window 62401 90001 3 4 1 0 0 0
nodata -32768 255 0 0
rejected 10 1 2
spacings 2
spacing 3 4
spacing 3 5
tiles 0
sinks 0
outlets 0
seams 0
end
";

/// The map's cell at which the union begins, the windows, and the text of the report.
static BOXES: [(&str, (u32, u32), &[Window], &str); 8] = [
    (
        "the north",
        (0, 0),
        &[
            Window {
                sinks: &[(1, 2)],
                ..NE
            },
            Window {
                sinks: &[(1, 1), (0, 0)],
                ..NW
            },
        ],
        NORTH,
    ),
    (
        "the west",
        (62400, 90001),
        &[
            Window {
                nodata: (-9999, 0),
                counts: (4, 3, 1),
                spacings: &[(9, 8), (8, 8), (7, 8)],
                sinks: &[(2, 1)],
                ..NW
            },
            Window {
                nodata: (-9999, -32768),
                counts: (3, 0, 3),
                spacings: &[(8, 8), (7, 8)],
                ..SW
            },
        ],
        WEST,
    ),
    (
        "the whole union",
        (4294967291, 4294967291),
        &[SE, NW, SW, NE],
        ALL,
    ),
    ("one window", (0, 0), &[SE], ONE),
    (
        "a shared label",
        (0, 0),
        &[
            Window {
                grid: UnionGrid::Dem(OTHER),
                label: -1,
                ..SE
            },
            Window {
                grid: UnionGrid::Dem(PART),
                label: -1,
                ..SW
            },
        ],
        SHARED,
    ),
    (
        "a rejected window, other seams and a shared label",
        (62400, 90001),
        &[
            Window {
                acc: 8,
                label: 4,
                spacings: &[(3, 4), (3, 5)],
                sinks: &[(2, 1)],
                ..SW
            },
            Window {
                fault: Some((1, 1)),
                spacings: &[(3, 4), (3, 5), (3, 5)],
                ..SE
            },
        ],
        REJECTED,
    ),
    (
        "two rejected windows, the earlier row in the second",
        (62400, 90001),
        &[
            Window {
                fault: Some((2, 0)),
                spacings: &[(3, 4), (3, 5)],
                ..SW
            },
            Window {
                fault: Some((1, 1)),
                spacings: &[(3, 4), (3, 5)],
                ..SE
            },
        ],
        REJECTED,
    ),
    (
        "two rejected windows, the earlier column in the first",
        (62400, 90001),
        &[
            Window {
                fault: Some((1, 2)),
                spacings: &[(3, 4), (3, 5)],
                ..SW
            },
            Window {
                fault: Some((1, 2)),
                spacings: &[(3, 4), (3, 5)],
                ..SE
            },
        ],
        REJECTED,
    ),
];

/// A joined report is read again as it is written.
#[test]
fn boxes_of_windows(rt: HostRuntime) -> Result<(), Fail> {
    for &(case, (row, col), windows, text) in &BOXES {
        let windows = reports(rt.alloc(), Cell { row, col }, windows)?;
        let joined = write_report(rt.alloc(), &join(rt.alloc(), windows)?)?;
        same(&rt, case, joined.as_slice(), text.as_bytes());
        let again = write_report(rt.alloc(), &read_report(rt.alloc(), &joined)?)?;
        same(&rt, case, again.as_slice(), text.as_bytes());
    }
    Ok(())
}
