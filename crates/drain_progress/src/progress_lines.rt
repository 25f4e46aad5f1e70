//! The text of progress lines.

ghost use Rattle.std.specs.Prelude.{◌≡◌, ◌++◌, codes, decimal};
ghost use Rattle.drain_progress.specs.Progress.{before_row, stage_text};

use drain_answer::lines::{Line, push_number, words};
use drain_sets::Stage;

/// Which rows are counted.
#[derive(Clone, Copy)]
pub enum Phase {
    /// Rows of con that were read for a check.
    Checking,
    /// Rows of tiles that were read to make products of them.
    Reading,
    /// Rows of products that were written.
    Writing,
}

/// The line with the number of rows so far, and of all: `drain: row 1200 of 3601`.
pub fn row_line(phase: Phase, row: u32, rows: u32) -> Line
    ensures { result.bytes ≡ before_row phase ++ decimal row ++ codes " of " ++ decimal rows }
{
    let mut line = match phase {
        Phase::Checking => words("drain: row "),
        Phase::Reading => words("drain: reading row "),
        Phase::Writing => words("drain: writing row "),
    };
    push_number(&mut line, row);
    line.push_str(" of ");
    push_number(&mut line, rows);
    line
}

/// The line when a stage of making products begins.
pub fn stage_line(stage: Stage) -> Line
    ensures { result.bytes ≡ stage_text stage }
{
    match stage {
        Stage::Surface => words("drain: making, 1 of 4: filled elevation"),
        Stage::Directions => words("drain: making, 2 of 4: directions"),
        Stage::Counts => words("drain: making, 3 of 4: accumulation"),
        Stage::Labels => words("drain: making, 4 of 4: basin labels"),
    }
}
