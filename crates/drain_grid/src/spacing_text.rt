//! How a user says how far apart cells are: by one spacing, or by a text of lines `WIDTH HEIGHT`, where empty lines don't
//! count.

ghost use Rattle.std.specs.Prelude.{◌≡◌, Ok, IfOk, IfErr};
ghost use Rattle.drain_grid.specs.declared.spacing_text.SpacingInput.TheVariants.{Same};
ghost use Rattle.drain_grid.specs.Spacing.{spacing_of, unit_spacing};
ghost use Rattle.drain_grid.specs.SpacingTexts.{spacings_of, spacings_said, spacing_said, IsBadRow, IsSpacingFault};

use crate::number_line::{LineSays, read_line};
use crate::spacing::Spacing;
use crate::spacings::Spacings;
use drain_text::first_line;
use std::alloc::Global;
use thiserror::Error;

/// How far apart the cells of a grid are.
#[derive(Clone, Copy, PartialEq, Eq, Debug)]
pub enum SpacingInput<'a> {
    /// All rows have this spacing.
    Same(Spacing),
    /// This text has a line for each row from the north: its width and its height.
    ByRow(&'a [u8]),
}

impl<'a> SpacingInput<'a> {
    /// Square cells.
    pub fn unit() -> SpacingInput<'a>
        ensures { result ≡ Same unit_spacing }
    {
        SpacingInput::Same(Spacing::unit())
    }
}

/// Why a text gives no spacing by row.
#[derive(Clone, Copy, PartialEq, Eq, Debug, Error)]
pub enum SpacingFault {
    /// The first line that has words, but not two whole numbers from 1 to 2^30; lines are counted from 1.
    #[error("line {0} is not a width and a height")]
    BadSpacingLine(u64),
    #[error("out of memory")]
    OutOfMemory,
}

/// The spacing that is said.
pub fn parse_spacings(alloc: Global, input: &SpacingInput<'_>) -> Result<Spacings, SpacingFault>
    ensures listed { IfOk result (λ spacings. spacings_said input.now ≡ Ok spacings) }
    ensures spacing { IfOk result (λ spacings. spacing_of spacings ≡ spacing_said input.now) }
    ensures err { IfErr result (IsSpacingFault input.now) }
{
    match input {
        SpacingInput::Same(spacing) => Ok(Spacings::same(alloc, *spacing)),
        SpacingInput::ByRow(text) => {
            let rows = read_rows(alloc, text)?;
            Ok(Spacings::of(rows))
        }
    }
}

/// The spacing of each row that a text lists, in order.
fn read_rows(alloc: Global, text: &[u8]) -> Result<Vec<Spacing>, SpacingFault>
    ensures listed { IfOk result (λ rows. spacings_of text.now ≡ Ok rows.items) }
    ensures err { IfErr result (IsBadRow text.now) }
{
    let mut rows = Vec::new(alloc);
    let mut number = 1u64;
    let mut rest = text;
    loop {
        let (line, after) = first_line(rest);
        match read_line(line) {
            LineSays::Nothing => {}
            LineSays::Numbers(width, height) => {
                let Some(spacing) = Spacing::new(width, height) else {
                    return Err(SpacingFault::BadSpacingLine(number));
                };
                let Ok(_) = rows.push(spacing) else {
                    return Err(SpacingFault::OutOfMemory);
                };
            }
            LineSays::Other => return Err(SpacingFault::BadSpacingLine(number)),
        }
        let Some(next) = after else {
            return Ok(rows);
        };
        // A text has fewer than 2^64 lines, so the count stays exact.
        number = number.saturating_add(1);
        rest = next;
    }
}
