//! How far apart cells are where products are made, from what is given; and why that is refused.
//!
//! As a check does, `make` reports a bad text of widths after all else: until then cells are square.

ghost use Rattle.std.specs.Prelude.{◌≡◌};
ghost use Rattle.drain_cli.specs.Names.{IfOk, IfErr, IfSome, None, AreGivenSpacings};
ghost use Rattle.drain_cli.specs.MadeSets.{AreSaidSpacings, IsNoSpacing, no_spacing_line, no_spacing_status};

use drain_answer::Refusal;
use drain_answer::lines::{Line, refusal_line, words};
use drain_answer::outcome::Status;
use drain_grid::{
    HeightKind, Shape, Spacing, SpacingFault, SpacingInput, Spacings, parse_spacings,
};
use drain_verdict::Given;
use std::alloc::Global;

/// Why there is no spacing.
#[derive(Clone, Copy)]
pub enum NoSpacing {
    /// This line of a text by row is bad.
    BadLine(u64),
    /// A text by row lists this number of rows, and there is another.
    OtherRows(u64),
    /// Memory was refused.
    OutOfMemory,
}

/// The spacing of each row of a grid of this shape, or square cells and why there is none.
#[derive(Drop)]
pub struct MadeSpacing {
    pub spacings: Spacings,
    pub fault: Option<NoSpacing>,
}

/// What is given for a grid of this shape, whose heights are of this kind.
pub fn spacing_to_make(alloc: Global, given: &Given, kind: HeightKind, shape: Shape) -> MadeSpacing
    ensures given { result.fault ≡ None → AreGivenSpacings kind given.now.spacing shape result.spacings }
    ensures fault { IfSome result.fault (IsNoSpacing given.now.spacing shape) }
{
    match spacings_for(alloc, given, shape) {
        Ok(spacings) => MadeSpacing {
            spacings: spacings.of_kind(kind),
            fault: None,
        },
        Err(fault) => MadeSpacing {
            spacings: Spacings::same(alloc, Spacing::unit()),
            fault: Some(fault),
        },
    }
}

/// The spacing of each row, of whole heights.
fn spacings_for(alloc: Global, given: &Given, shape: Shape) -> Result<Spacings, NoSpacing>
    ensures given { IfOk result (AreSaidSpacings given.now.spacing shape) }
    ensures fault { IfErr result (IsNoSpacing given.now.spacing shape) }
{
    let spacings = match parse_spacings(alloc, &given.spacing) {
        Ok(spacings) => spacings,
        Err(SpacingFault::BadSpacingLine(line)) => return Err(NoSpacing::BadLine(line)),
        Err(SpacingFault::OutOfMemory) => return Err(NoSpacing::OutOfMemory),
    };
    match &given.spacing {
        SpacingInput::Same(_) => Ok(spacings),
        SpacingInput::ByRow(_) => {
            let rows = spacings.listed_rows();
            if rows == shape.rows() as usize {
                Ok(spacings)
            } else {
                Err(NoSpacing::OtherRows(rows as u64))
            }
        }
    }
}

/// The line that says why there is no spacing.
pub fn line_of(why: NoSpacing) -> Line
    ensures { result.bytes ≡ no_spacing_line why }
{
    match why {
        NoSpacing::BadLine(line) => refusal_line(Refusal::BadSpacingLine(line)),
        NoSpacing::OtherRows(rows) => refusal_line(Refusal::SpacingRows(rows)),
        NoSpacing::OutOfMemory => words("failed OutOfMemory"),
    }
}

/// Its exit status.
pub fn status_of(why: NoSpacing) -> Status
    ensures { result ≡ no_spacing_status why }
{
    match why {
        NoSpacing::BadLine(_) | NoSpacing::OtherRows(_) => Status::Refused,
        NoSpacing::OutOfMemory => Status::Failed,
    }
}
