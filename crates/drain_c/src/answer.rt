//! An answer as C reads it: numbers, and the line that the program prints.

ghost use Rattle.std.specs.Prelude.{◌≡◌, ◌-◌, ◌≤◌, ◌++◌};
ghost use Rattle.drain_c.specs.Names.{length, replicate};
ghost use Rattle.drain_c.specs.Shown.{ShowsAnswer, ShowsBadChoice, ShowsBadMap, ShowsBadRaster, ShowsMissing, ShowsOutcome};

use crate::found::{Found, outcome_found, status_only};
use drain_answer::outcome_report;
use drain_verdict::{Outcome, Refusal};

/// How many bytes an answer has for its line: 160 at most, and zeros behind it.
pub const LINE_SIZE: usize = 164;

/// The status, of a rejection the rule and the cell, and the line, in ASCII, with zeros behind it.
#[derive(Clone, Copy)]
#[repr(C)]
pub struct Answer {
    pub status: u32,
    pub rule: u32,
    pub row: u32,
    pub col: u32,
    pub line: [u8; 164],
}

/// Writes these numbers and this line.
pub fn show(answer: &mut Answer, found: Found, line: &str)
    requires { length line.now ≤ 160 }
    ensures { ShowsAnswer found line.now answer.new }
{
    *answer = Answer {
        status: found.status,
        rule: found.rule,
        row: found.row,
        col: found.col,
        line: with_zeros(line.as_bytes()),
    };
}

/// Says that bytes are missing, for which C had NULL.
pub fn show_missing(answer: &mut Answer)
    ensures { ShowsMissing answer.new }
{
    show(answer, status_only(2), "refused NullBytes");
}

/// Says that a number names no rasters that can be judged, or that no spacing is passed.
pub fn show_bad_choice(answer: &mut Answer)
    ensures { ShowsBadChoice answer.new }
{
    show(answer, status_only(2), "refused BadChoice");
}

/// Says that the memory for a map has another length than the map.
pub fn show_bad_map(answer: &mut Answer)
    ensures { ShowsBadMap answer.new }
{
    show(answer, status_only(2), "refused BadMapLength");
}

/// Says that the memory for a raster has another length than the raster.
pub fn show_bad_raster(answer: &mut Answer)
    ensures { ShowsBadRaster answer.new }
{
    show(answer, status_only(2), "refused BadRasterLength");
}

/// Writes the answer about the judged rasters.
pub fn show_outcome(outcome: &Result<Outcome, Refusal>, answer: &mut Answer)
    ensures { ShowsOutcome outcome.now answer.new }
{
    show(
        answer,
        outcome_found(outcome),
        outcome_report(outcome).as_str(),
    );
}

/// These bytes and zeros behind them.
fn with_zeros(bytes: &[u8]) -> [u8; 164]
    requires { length bytes.now ≤ 160 }
    ensures { result ≡ bytes.now ++ replicate (164 - length bytes.now) 0 }
{
    let mut line = [0; 164];
    line[..bytes.len()].copy_from_slice(bytes);
    line
}
