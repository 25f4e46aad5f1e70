//! Slopes on a page: over which distances they were compared, and the ways down from a cell.
//!
//! On square cells a way is shown with its drop and its key, twice the square of the drop along a row or a column and the
//! square across a corner. Else it is shown with its drop and the square of its distance. Ways between floats stand apart
//! (`float_ways`).

ghost use Rattle.std.specs.Prelude.{◌≡◌};
ghost use Rattle.drain_page.specs.Names.{IfOk, HeightKind};
ghost use Rattle.drain_page.specs.Numerals.{cons_down as lower_cons};

use crate::float_ways::{ConsDown, cons_down, push_float_ways, write_float_ways};
use crate::frame::Frame;
use crate::json_text::{JsonText, JsonValue};
use crate::names::shown_code;
use drain_findings::{Findings, Slopes};
use drain_grid::{Direction, HeightKind, Patch, Rule, Spacing};
use drain_slope::{drop, is_steeper};
use std::alloc::{AllocError, Global};

/// A way down: how far, and over which distance.
#[derive(Clone, Copy)]
pub struct WayDown {
    pub direction: Direction,
    pub drop: u64,
    pub over: Over,
}

/// What a drop is compared by.
#[derive(Clone, Copy)]
pub enum Over {
    /// On square cells, its key.
    Key(u128),
    /// On other cells, the square of the distance.
    DistanceSquare(u64),
}

/// The ways to lower neighbours.
#[derive(Drop)]
pub enum Ways {
    /// Between whole heights.
    Whole(Vec<WayDown>),
    /// Between floats: the con of each lower neighbour.
    Floats(ConsDown),
}

/// The ways to lower neighbours, if the rule is Slope.
pub(crate) fn ways_down(alloc: Global, rule: Rule, patch: &Patch) -> Result<Ways, AllocError>
    ensures floats { rule ≡ Rule.Slope → patch.now.spacing.kind ≡ HeightKind.Single → IfOk result (λ ways. ways ≡ Ways.Floats (lower_cons patch.now)) }
{
    match (rule, patch.spacing.kind) {
        (Rule::Slope, HeightKind::Whole) => Ok(Ways::Whole(whole_ways(alloc, patch)?)),
        (Rule::Slope, HeightKind::Single) => Ok(Ways::Floats(cons_down(patch))),
        _ => Ok(Ways::Whole(Vec::new(alloc))),
    }
}

/// The ways to lower neighbours between whole heights.
fn whole_ways(alloc: Global, patch: &Patch) -> Result<Vec<WayDown>, AllocError>
    requires { patch.now.spacing.kind ≡ HeightKind.Whole }
{
    let mut ways = Vec::new(alloc);
    for direction in Direction::ALL {
        let drop = drop(patch, direction);
        if drop != 0 {
            ways.push(WayDown {
                direction,
                drop,
                over: compared_by(patch, direction, drop),
            })?;
        }
    }
    Ok(ways)
}

/// What a drop in this direction is compared by.
fn compared_by(patch: &Patch, direction: Direction, drop: u64) -> Over {
    if patch.spacing != Spacing::unit() {
        return Over::DistanceSquare(patch.spacing.distance_square(direction));
    }
    let square = (drop as u128).saturating_mul(drop as u128);
    if direction.is_straight() {
        Over::Key(square.saturating_mul(2))
    } else {
        Over::Key(square)
    }
}

/// Whether a way is a steepest way down.
pub(crate) fn is_steepest(patch: &Patch, direction: Direction) -> bool {
    leads_down(patch, direction)
        && Direction::ALL
            .iter()
            .all(|other| !is_steeper(patch, *other, direction))
}

/// Whether a lower neighbour lies in this direction.
fn leads_down(patch: &Patch, direction: Direction) -> bool {
    match patch.neighbor(direction) {
        Some(there) => there.z.is_some() && there.con < patch.here.con,
        None => false,
    }
}

/// A line for each way down.
pub(crate) fn push_ways(text: &mut String, patch: &Patch, ways: &Ways) -> Result<(), AllocError> {
    match ways {
        Ways::Whole(ways) => push_whole_ways(text, patch, ways),
        Ways::Floats(cons) => push_float_ways(text, patch, cons),
    }
}

fn push_whole_ways(text: &mut String, patch: &Patch, ways: &[WayDown]) -> Result<(), AllocError> {
    for WayDown {
        direction,
        drop,
        over,
    } in ways {
        let word = shown_code(direction.code());
        write!(text, "  {word}: drop {drop}")?;
        match over {
            Over::Key(key) => write!(text, ", key {key}")?,
            Over::DistanceSquare(square) => write!(text, ", distance squared {square}")?,
        }
        text.push_str(if is_steepest(patch, *direction) {
            ", steepest\n"
        } else {
            "\n"
        })?;
    }
    Ok(())
}

/// The ways of this patch, each an object.
pub(crate) fn write_ways(json: &mut JsonText, patch: &Patch, ways: &Ways) -> Result<(), AllocError>
    ensures { json.new ≡ json.old }
{
    match ways {
        Ways::Whole(ways) => json.list("ways", ways),
        Ways::Floats(cons) => write_float_ways(json, patch, cons),
    }
}

impl JsonValue for WayDown {
    fn append(self, json: &mut JsonText) -> Result<(), AllocError> {
        json.begin_object_item()?;
        json.member("code", self.direction.code())?;
        json.member("drop", self.drop)?;
        match self.over {
            Over::Key(key) => json.member("key", key)?,
            Over::DistanceSquare(square) => json.member("distance_squared", square)?,
        }
        json.end_object()
    }
}

/// Whether a page says of square cells that they are: an acceptance on tiles does, if slopes were judged, since no cell
/// in degrees is square on the ground.
fn names_square_cells<F: Frame>(findings: &Findings<F>) -> bool {
    let is_accepted = findings.first.is_none() && findings.endless.is_none();
    is_accepted && F::words().is_in_degrees && findings.tries(Rule::Slope)
}

/// A line that says over which distances slopes were compared; of square cells only if the page names them.
pub(crate) fn push_slopes<F: Frame>(
    text: &mut String,
    findings: &Findings<F>,
) -> Result<(), AllocError> {
    match findings.slopes {
        Slopes::Cells(
            Spacing {
                width: 1,
                height: 1,
                ..
            },
        ) => {
            text.push_str(if names_square_cells(findings) {
                "slopes: square cells\n"
            } else {
                ""
            })
        }
        Slopes::Cells(Spacing { width, height, .. }) => {
            writeln!(text, "slopes: cells {width} by {height}")
        }
        Slopes::ByRow => text.push_str("slopes: widths by row\n"),
    }
}

/// The width and height of all cells, or that a text lists them; of square cells a member only if the page names them.
pub(crate) fn write_slopes<F: Frame>(
    json: &mut JsonText,
    findings: &Findings<F>,
) -> Result<(), AllocError>
    ensures { json.new ≡ json.old }
{
    match findings.slopes {
        Slopes::Cells(
            Spacing {
                width: 1,
                height: 1,
                ..
            },
        ) => {
            if names_square_cells(findings) {
                json.member("slopes", "square cells")
            } else {
                Ok(())
            }
        }
        Slopes::Cells(spacing) => json.member("slopes", spacing),
        Slopes::ByRow => json.member("slopes", "widths by row"),
    }
}

impl JsonValue for Spacing {
    fn append(self, json: &mut JsonText) -> Result<(), AllocError> {
        json.begin_object_item()?;
        json.member("width", self.width)?;
        json.member("height", self.height)?;
        json.end_object()
    }
}
