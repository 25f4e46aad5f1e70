//! The line of a verdict on a window or a union.

ghost use Rattle.std.specs.Prelude.{◌≡◌};
ghost use Rattle.drain_union.specs.VerdictLines.{accepted_line, verdict_line};

use crate::verdict::{UnionCounts, UnionVerdict};
use drain_answer::lines::{Line, counted, push_count, rejected};

/// The line of a verdict, without a line end, in ASCII. Its rows and columns are those of the verdict.
pub fn verdict_line(verdict: &UnionVerdict) -> Line
    ensures { result.bytes ≡ verdict_line verdict.now }
{
    match verdict {
        UnionVerdict::Accepted(counts) => accepted(counts),
        UnionVerdict::Rejected(fault) => rejected(fault.rule, fault.cell.row, fault.cell.col),
    }
}

/// The line of an acceptance, with its counts.
fn accepted(counts: &UnionCounts) -> Line
    ensures { result.bytes ≡ accepted_line counts.now }
{
    let mut line = counted(counts.rows, counts.cols, counts.data_cells, counts.raised);
    line.push_str(" outlets=");
    push_count(&mut line, counts.outlets);
    line
}
