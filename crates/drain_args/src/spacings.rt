//! How far apart cells are, as the command line says it: alike everywhere, by the header, or row by row.

ghost use Rattle.drain_args.specs.Names.{IfOk, found_of};
ghost use Rattle.drain_args.specs.Requests.{IsSpacingChoice, IsSpacingOption};

use crate::given::option_given;
use crate::requests::Elevations;
use crate::spacing_texts::spacing_named;
use clap::ArgMatches;
use drain_grid::Spacing;

/// How far apart cells are.
#[derive(Clone, Copy, PartialEq, Eq, Debug)]
pub enum SpacingChoice<'a> {
    /// No option says it: cells are square.
    Unit,
    /// `--spacing W,H`: all cells have this width and height.
    Same(Spacing),
    /// `--spacing header`: all cells have the pixel size in the header of the raster of elevations.
    Header,
    /// `--widths FILE`: the text at this path says it, a line for each row.
    ByRow(&'a str),
}

/// The spacing is no spacing, is said twice, or is that of a header that isn't there.
#[derive(Clone, Copy)]
pub(crate) struct OtherSpacing;

/// How far apart cells are, by the options; `elevations` are those of the same command.
pub(crate) fn spacing_given<'a>(
    given: &ArgMatches<'a>,
    elevations: &Elevations<'_>,
) -> Result<SpacingChoice<'a>, OtherSpacing>
    ensures { IfOk result (IsSpacingOption (found_of given.now) elevations.now) }
{
    match (
        option_given(given, "spacing"),
        option_given(given, "widths"),
    ) {
        (None, None) => Ok(SpacingChoice::Unit),
        (None, Some(path)) => Ok(SpacingChoice::ByRow(path)),
        (Some(text), None) => choice_of(text, elevations),
        (Some(_), Some(_)) => Err(OtherSpacing),
    }
}

/// The choice that the text of `--spacing` names.
fn choice_of<'a>(text: &str, elevations: &Elevations<'_>) -> Result<SpacingChoice<'a>, OtherSpacing>
    ensures { IfOk result (IsSpacingChoice text.now elevations.now) }
{
    if text == "header" {
        return match elevations {
            Elevations::Dem(_) => Ok(SpacingChoice::Header),
            Elevations::Tiles(_) => Err(OtherSpacing),
        };
    }
    match spacing_named(text) {
        Some(spacing) => Ok(SpacingChoice::Same(spacing)),
        None => Err(OtherSpacing),
    }
}
