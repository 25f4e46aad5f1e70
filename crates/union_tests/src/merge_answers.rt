//! The lines of merges of windows.

use crate::agree::same_box;
use crate::merged_windows::{SIZE, Window, reports};
use drain_answer::lines::Line;
use drain_grid::{Cell, parse_sinks};
use drain_merge::{MapVerdict, UnionBox, UnionSinks, merge_line, merge_on_map};
use drain_union::UnionVerdict;
use std::alloc::Global;
use std::process::Abort;
use std::test::Fail;

/// The first cell of a map.
pub const FIRST: Cell = Cell { row: 0, col: 0 };

/// The line of a verdict.
pub fn verdict_line(verdict: UnionVerdict) -> Line {
    let bounds = UnionBox {
        origin: FIRST,
        size: SIZE,
    };
    merge_line(&Ok(MapVerdict { bounds, verdict }))
}

/// The line of the answer to these windows of a union that begins at this cell of a map and has these sinks. Fails the
/// test if a verdict isn't that on the union's box.
pub fn merged_on_map(
    rt: &impl Abort,
    alloc: Global,
    case: &str,
    origin: Cell,
    windows: &[Window],
    sinks: &UnionSinks,
) -> Result<Line, Fail> {
    let reports = reports(alloc, origin, windows)?;
    Ok(match merge_on_map(alloc, reports, sinks) {
        Ok(union) => {
            same_box(rt, case, union.bounds, UnionBox { origin, size: SIZE });
            merge_line(&Ok(union))
        }
        Err(refusal) => merge_line(&Err(refusal)),
    })
}

/// The sinks of this list.
pub fn listed(alloc: Global, text: &str) -> Result<UnionSinks, Fail> {
    Ok(UnionSinks::Listed(parse_sinks(alloc, text.as_bytes())?))
}
