//! The text of a report on a small window, and the same with one line replaced.

use std::alloc::{AllocError, Global};

/// The lines of a window of 3 by 4 cells whose union goes on at the south; after the last one nothing follows.
static LINES: [&str; 19] = [
    "drain-window-report 4",
    "side 1201",
    "window 62400 90001 3 4 0 1 0 0",
    "nodata -2147483648 255 0 0",
    "accepted 3 4 8 1 1",
    "tiles 2",
    "tile N37W105.hgt",
    "tile S01E000.hgt",
    "sinks 2",
    "sink 62400 90004",
    "sink 62401 90002",
    "outlets 1",
    "outlet 7 62400 90004",
    "seams 3",
    "seam 62401 90001 - 0 -2147483648 255 0 0",
    "seam 62401 90002 -5 1 -5 0 8 7",
    "seam 62402 90001 -32768 0 14 64 1 7",
    "end",
    "",
];

/// The line of this number, or what replaces it; lines are counted from 1.
fn changed<'a>(line: &'a str, number: usize, change: (usize, &'a str)) -> &'a str {
    if change.0 == number { change.1 } else { line }
}

/// The lines, with one of them replaced.
pub fn changed_text(alloc: Global, change: (usize, &str)) -> Result<Vec<u8>, AllocError> {
    let mut text = Vec::new(alloc);
    for (at, line) in LINES.iter().enumerate() {
        text.extend_from_slice(changed(line, at + 1, change).as_bytes())?;
        if at + 1 < LINES.len() {
            text.extend_from_slice(b"\n")?;
        }
    }
    Ok(text)
}

/// The lines as they are.
pub fn text(alloc: Global) -> Result<Vec<u8>, AllocError> {
    changed_text(alloc, (0, ""))
}
