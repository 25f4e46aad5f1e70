//! Windows of tiles whose cells are farther apart along a column than along a row: their verdicts, and what their
//! reports list.

use crate::agree::{same, same_line};
use crate::window_inputs::{Cells, Inputs, Slope};
use crate::window_places::{Window, answer};
use drain_window::window_line;
use std::test::Fail;

/// The ground falls by 1 to the east and by 2 to the south. Water flows east, and down the last column to the south:
/// right where cells are at least three times as high as wide, and wrong where they are square.
const LEANING: Slope = Slope {
    tile: [
        0, 13, 0, 12, 0, 11, 0, 10, 0, 11, 0, 10, 0, 9, 0, 8, 0, 9, 0, 8, 0, 7, 0, 6, 0, 7, 0, 6,
        0, 5, 0, 4,
    ],
    con: [
        13, 0, 12, 0, 11, 0, 10, 0, 11, 0, 10, 0, 9, 0, 8, 0, 9, 0, 8, 0, 7, 0, 6, 0, 7, 0, 6, 0,
        5, 0, 4, 0,
    ],
    dir: [1, 1, 1, 4, 1, 1, 1, 4, 1, 1, 1, 4, 1, 1, 1, 0],
    acc: [1, 2, 3, 4, 1, 2, 3, 8, 1, 2, 3, 12, 1, 2, 3, 16],
    bas: [5, 5, 5, 5, 5, 5, 5, 5, 5, 5, 5, 5, 5, 5, 5, 5],
};

/// The spacing, the window, the line of the answer, and the widths and heights that the report lists.
static CASES: [(Cells, Window, &str, &[(u32, u32)]); 11] = [
    (
        Cells::Of(1, 1),
        (0, 0, 4, 4, ""),
        "rejected rule=10 Slope row=0 col=0",
        &[],
    ),
    (
        Cells::Of(1, 10),
        (0, 0, 4, 4, ""),
        "accepted rows=4 cols=4 data=16 raised=0 outlets=1",
        &[(1, 10)],
    ),
    (
        Cells::Of(10, 1),
        (0, 0, 4, 4, ""),
        "rejected rule=10 Slope row=0 col=0",
        &[(10, 1)],
    ),
    (
        Cells::ByRow("1 10\n1 10\n\n1 10\n1 10\n"),
        (0, 0, 3, 4, "s"),
        "accepted rows=3 cols=4 data=8 raised=0 outlets=0",
        &[(1, 10)],
    ),
    (
        Cells::ByRow("1 1\n1 1\n1 1\n1 1"),
        (1, 0, 3, 4, "n"),
        "rejected rule=10 Slope row=1 col=0",
        &[],
    ),
    // The widths are those of the window's own rows.
    (
        Cells::ByRow("1 1\n4 40\n3 40\n2 40\n"),
        (1, 0, 3, 4, "n"),
        "accepted rows=3 cols=4 data=8 raised=0 outlets=1",
        &[(4, 40), (3, 40), (2, 40)],
    ),
    (
        Cells::ByRow("1 10\n1 1\n1 10\n1 10\n"),
        (0, 0, 4, 4, ""),
        "rejected rule=10 Slope row=1 col=0",
        &[(1, 10), (1, 1), (1, 10)],
    ),
    // The row of a ring isn't judged, and is listed.
    (
        Cells::ByRow("9 9\n1 1\n1 10\n1 10\n"),
        (1, 0, 3, 4, "n"),
        "accepted rows=3 cols=4 data=8 raised=0 outlets=1",
        &[(1, 1), (1, 10)],
    ),
    (
        Cells::ByRow("1 10\n1 10\n1 10\n1 1\n"),
        (0, 0, 3, 3, "es"),
        "accepted rows=3 cols=3 data=4 raised=0 outlets=0",
        &[(1, 10)],
    ),
    (
        Cells::ByRow("1 10\n1 10\n1 0\n1 10\n"),
        (0, 0, 4, 4, ""),
        "refused BadSpacingLine 3",
        &[],
    ),
    (
        Cells::ByRow("1 10\n1 10\n1 10\n"),
        (0, 0, 3, 4, "s"),
        "refused SpacingRows 3",
        &[],
    ),
];

#[test]
fn windows_with_spacings(rt: HostRuntime) -> Result<(), Fail> {
    for &(cells, window, line, listed) in &CASES {
        let inputs = Inputs {
            cells,
            ..LEANING.listing("")
        };
        let given = answer(rt.alloc(), &inputs, window)?;
        same_line(&rt, line, &window_line(&given), line);
        if let Ok(given) = given {
            let spacings = &given.report.spacings;
            same(&rt, line, spacings.len(), listed.len());
            for (spacing, &expected) in spacings.iter().zip(listed) {
                same(&rt, line, (spacing.width, spacing.height), expected);
            }
        }
    }
    Ok(())
}
