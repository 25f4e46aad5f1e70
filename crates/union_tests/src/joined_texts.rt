//! Texts of reports that are read, joined and written: what cells show, and boxes of more rows than a grid has.

use crate::agree::{same, same_line};
use drain_answer::lines::Line;
use drain_merge::{UnionSinks, join, merge_line, merge_on_map};
use drain_report::{read_report, write_report};
use drain_union::WindowReport;
use std::alloc::Global;
use std::test::Fail;

/// Two windows of two rows that both show all their cells, each cell other numbers.
const SHOWN_WEST: &str = "drain-window-report 4
side 5
window 2 3 2 3 0 1 0 1
nodata -32768 255 0 0
accepted 2 3 2 0 0
tiles 1
tile N37W105.hgt
sinks 0
outlets 0
seams 6
seam 2 3 5 0 5 1 10 1
seam 2 4 - 0 -32768 255 0 0
seam 2 5 6 1 6 0 12 2
seam 3 3 4 0 4 1 14 1
seam 3 4 4 0 5 2 15 1
seam 3 5 3 0 3 4 16 2
end
";

const SHOWN_EAST: &str = "drain-window-report 4
side 5
window 2 4 2 3 0 1 1 0
nodata -32768 255 0 0
accepted 2 3 1 1 0
tiles 1
tile N37W104.hgt
sinks 1
sink 2 5
outlets 0
seams 6
seam 2 4 - 0 -32768 255 0 0
seam 2 5 6 1 6 0 12 2
seam 2 6 7 0 7 16 13 2
seam 3 4 4 0 5 2 15 1
seam 3 5 3 0 3 4 16 2
seam 3 6 2 0 2 8 17 2
end
";

/// The box of both. It names no tile.
const SHOWN_BOTH: &str = "drain-window-report 4
side 5
window 2 3 2 4 0 1 0 0
nodata -32768 255 0 0
accepted 2 4 3 1 0
tiles 0
sinks 1
sink 2 5
outlets 0
seams 8
seam 2 3 5 0 5 1 10 1
seam 2 4 - 0 -32768 255 0 0
seam 2 5 6 1 6 0 12 2
seam 2 6 7 0 7 16 13 2
seam 3 3 4 0 4 1 14 1
seam 3 4 4 0 5 2 15 1
seam 3 5 3 0 3 4 16 2
seam 3 6 2 0 2 8 17 2
end
";

/// A window with all rows of 32 bits but some, and one with the rest.
const TALL: &str = "drain-window-report 4
side 5
window 0 4294967294 4000000000 1 0 1 0 0
nodata -32768 255 0 0
accepted 4000000000 1 3999999999 1 1
tiles 0
sinks 0
outlets 1
outlet 9 0 4294967294
seams 2
seam 3999999998 4294967294 5 0 5 1 10 1
seam 3999999999 4294967294 6 0 6 1 11 1
end
";

const REST: &str = "drain-window-report 4
side 5
window 3999999998 4294967294 294967297 1 1 0 0 0
nodata -32768 255 0 0
accepted 294967297 1 294967296 2 1
tiles 0
sinks 0
outlets 1
outlet 3 4294967294 4294967294
seams 2
seam 3999999998 4294967294 5 0 5 1 10 1
seam 3999999999 4294967294 6 0 6 1 11 1
end
";

/// The box of both has as many rows as any.
const TALLEST: &str = "drain-window-report 4
side 5
window 0 4294967294 4294967295 1 0 0 0 0
nodata -32768 255 0 0
accepted 4294967295 1 4294967295 3 2
tiles 0
sinks 0
outlets 2
outlet 3 4294967294 4294967294
outlet 9 0 4294967294
seams 0
end
";

/// The texts of two reports, the text of the report of their box, and the line of the merge of the two and of the box.
static TEXTS: [(&str, &str, &str, &str); 3] = [
    (
        SHOWN_WEST,
        SHOWN_EAST,
        SHOWN_BOTH,
        "refused LeftOut row=1 col=0",
    ),
    (
        SHOWN_EAST,
        SHOWN_WEST,
        SHOWN_BOTH,
        "refused LeftOut row=1 col=0",
    ),
    (
        TALL,
        REST,
        TALLEST,
        "accepted rows=4294967295 cols=1 data=4294967295 raised=3 outlets=2",
    ),
];

/// The reports of these texts.
fn read(alloc: Global, texts: &[&str]) -> Result<Vec<WindowReport>, Fail> {
    let mut windows = Vec::new(alloc);
    for text in texts {
        windows.push(read_report(alloc, text.as_bytes())?)?;
    }
    Ok(windows)
}

/// The line of the merge of the reports of these texts.
fn merged(alloc: Global, texts: &[&str]) -> Result<Line, Fail> {
    let windows = read(alloc, texts)?;
    Ok(merge_line(&merge_on_map(alloc, windows, &UnionSinks::AsTaken)))
}

#[test]
fn boxes_of_texts(rt: HostRuntime) -> Result<(), Fail> {
    for &(first, second, text, line) in &TEXTS {
        let windows = read(rt.alloc(), &[first, second])?;
        let joined = write_report(rt.alloc(), &join(rt.alloc(), windows)?)?;
        same(&rt, text, joined.as_slice(), text.as_bytes());
        same_line(&rt, text, &merged(rt.alloc(), &[first, second])?, line);
        same_line(&rt, text, &merged(rt.alloc(), &[text])?, line);
    }
    Ok(())
}
