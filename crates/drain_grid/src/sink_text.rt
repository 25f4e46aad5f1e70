//! Sink lists as texts: lines `ROW COL`, where empty lines don't count.

ghost use Rattle.std.specs.Prelude.{◌≡◌, ℕ, Ok, IfOk, IfErr};
ghost use Rattle.drain_grid.specs.SinkTexts.{AreNarrow, sinks_of, IsSinkFault};

use crate::cell::Cell;
use crate::memory::OutOfMemory;
use crate::number_line::{LineSays, read_line};
use crate::numbered_cells::NumberedCells;
use crate::sinks::Sinks;
use drain_text::first_line;
use std::alloc::Global;
use thiserror::Error;

/// Why a text is no sink list.
#[derive(Clone, Copy, PartialEq, Eq, Debug, Error)]
pub enum SinkFault {
    /// The first line that has words, but not two whole numbers; lines are counted from 1.
    #[error("line {0} is not a row and a column")]
    BadSinkLine(u64),
    #[error("out of memory")]
    OutOfMemory,
}

/// The sinks that a text lists, one a line.
pub fn parse_sinks(alloc: Global, text: &[u8]) -> Result<Sinks, SinkFault>
    ensures listed { IfOk result (λ sinks. sinks_of text.now ≡ Ok sinks) }
    ensures err { IfErr result (IsSinkFault text.now) }
{
    let lines = read_lines(alloc, text)?;
    match Sinks::of(alloc, lines) {
        Ok(sinks) => Ok(sinks),
        Err(OutOfMemory) => Err(SinkFault::OutOfMemory),
    }
}

/// The lines that list a cell, in order.
fn read_lines(alloc: Global, text: &[u8]) -> Result<NumberedCells, SinkFault>
    ensures listed { IfOk result (λ lines. sinks_of text.now ≡ Ok lines) }
    ensures narrow { IfOk result (λ lines. AreNarrow lines) }
    ensures err { IfErr result (IsSinkFault text.now) }
{
    let mut lines = NumberedCells::new(alloc);
    let mut number = 1u64;
    let mut rest = text;
    loop {
        let (line, after) = first_line(rest);
        match read_line(line) {
            LineSays::Nothing => {}
            LineSays::Numbers(row, col) => {
                let Ok(_) = lines.push(number, Cell { row, col }) else {
                    return Err(SinkFault::OutOfMemory);
                };
            }
            LineSays::Other => return Err(SinkFault::BadSinkLine(number)),
        }
        let Some(next) = after else {
            return Ok(lines);
        };
        // A text has fewer than 2^64 lines, so the count stays exact.
        number = number.saturating_add(1);
        rest = next;
    }
}
