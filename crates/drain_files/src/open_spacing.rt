//! How far apart cells are, as the command line says it: read from the header of the elevations, or from a text.

ghost use Rattle.std.specs.Prelude.{◌≡◌, ◌<◌, ◌≤◌, ◌^◌};
ghost use Rattle.drain_files.specs.Names.{IfOk, MatchOption, IsGcd, Distances, IsSpacing, spacing_from};
ghost use Rattle.drain_files.specs.OpenSpacings.{AreHeaderSizes, IsHeaderSpacing, IsLowest, IsOpenSpacing, IsPixelSpacing, IsRatio, IsRounded, IsSpacingOf, greatest_size, least_size, spacing_opened};

use crate::open_files::{OpenFault, Opener, widths_at};
use crate::open_judged::OpenElevations;
use crate::simplest::{Ratio, simplest};
use drain_args::spacing_texts::spacing_of;
use drain_args::spacings::SpacingChoice;
use drain_grid::{Spacing, SpacingInput};
use drain_header::{Header, kind_said, parse_header_of};

/// How far apart cells are, with the text that says it, if one does.
#[derive(Drop)]
pub enum OpenSpacing {
    /// All rows have this spacing.
    Same(Spacing),
    /// This text has a line for each row.
    ByRow(Vec<u8>),
}

impl OpenSpacing {
    /// As a check or an audit takes it.
    pub fn input(&self) -> SpacingInput<'_>
        ensures { spacing_from result ≡ spacing_opened self.now }
    {
        match self {
            OpenSpacing::Same(spacing) => SpacingInput::Same(*spacing),
            OpenSpacing::ByRow(text) => SpacingInput::ByRow(text.as_slice()),
        }
    }
}

/// How far apart the cells of these elevations are. A text that says it is read whole.
pub fn open_spacing<R>(
    opener: &mut Opener<'_>,
    choice: &SpacingChoice<'_>,
    elevations: &OpenElevations<R>,
) -> Result<OpenSpacing, OpenFault>
    // What the request says is what is judged by.
    ensures { IfOk result (IsSpacingOf choice.now elevations.now) }
{
    match choice {
        SpacingChoice::Unit => Ok(OpenSpacing::Same(Spacing::unit())),
        SpacingChoice::Same(spacing) => Ok(OpenSpacing::Same(*spacing)),
        SpacingChoice::Header => match spacing_in_header(elevations) {
            Some(spacing) => Ok(OpenSpacing::Same(spacing)),
            None => Err(OpenFault::NoSpacing),
        },
        SpacingChoice::ByRow(path) => Ok(OpenSpacing::ByRow(widths_at(opener, path)?)),
    }
}

/// The spacing that the header of a raster of elevations says; that of square cells where there is none, or it is
/// refused. None if the ratio of the pixel sizes is none of two whole numbers from 1 to 2^30, not even rounded.
fn spacing_in_header<R>(elevations: &OpenElevations<R>) -> Option<Spacing>
    ensures { MatchOption result (Unit {0}) (IsOpenSpacing elevations.now) }
{
    match elevations {
        OpenElevations::Tiles(_) => Some(Spacing::unit()),
        OpenElevations::Dem(dem) => spacing_in_text(dem[0].header.as_slice()),
    }
}

/// The same of the header with this text, of heights of the kind that it says.
fn spacing_in_text(text: &[u8]) -> Option<Spacing>
    ensures { MatchOption result (Unit {0}) (IsHeaderSpacing text.now) }
{
    match parse_header_of(text, kind_said(text)) {
        Ok(header) => pixel_spacing(&header),
        Err(_) => Some(Spacing::unit()),
    }
}

/// The least whole numbers in the ratio of a header's XDIM and YDIM, if each is at most 2^30; else the least in the ratio
/// of two sizes for which these may stand, as headers round a second of arc. Sizes that aren't above 0 are refused later:
/// in their place stands the spacing of square cells.
pub fn pixel_spacing(header: &Header) -> Option<Spacing>
    ensures { MatchOption result ((s : Distances) → IsSpacing s → IsPixelSpacing header.now s → ⊥) (IsPixelSpacing header.now) }
{
    let xdim = header.place.xdim;
    let ydim = header.place.ydim;
    if xdim <= 0 || ydim <= 0 {
        return Some(Spacing::unit());
    }
    ratio_of(xdim.unsigned_abs(), ydim.unsigned_abs())
}

/// The least whole numbers in the ratio of these, if each is at most 2^30; else of sizes that are read as these.
fn ratio_of(width: u128, height: u128) -> Option<Spacing>
    requires { AreHeaderSizes width height }
    ensures { MatchOption result ((s : Distances) → IsSpacing s → IsRatio width height s → ⊥) (IsRatio width height) }
{
    match in_lowest_terms(width, height) {
        Some(spacing) => Some(spacing),
        None => rounded_ratio(width, height),
    }
}

/// The least whole numbers in the ratio of two sizes that are read as these, if each is at most 2^30.
fn rounded_ratio(width: u128, height: u128) -> Option<Spacing>
    requires { AreHeaderSizes width height }
    ensures { MatchOption result ((s : Distances) → IsSpacing s → IsRounded width height s → ⊥) (IsRounded width height) }
{
    let low = Ratio {
        width: least_size(width),
        height: greatest_size(height),
    };
    let high = Ratio {
        width: greatest_size(width),
        height: least_size(height),
    };
    let ratio = simplest(low, high);
    spacing_of(ratio.width, ratio.height)
}

/// The least size that a header may mean which is read as this one, in half units: of one that was rounded, half a unit
/// less, or half of its fifteenth digit.
fn least_size(size: u128) -> u128
    requires { (0 < size) × (size ≤ 10 ^ 25) }
    ensures { result ≡ least_size size }
{
    2 * size - (1 + size / FIFTEENTH_DIGIT)
}

/// The greatest, since reading drops places: up to a unit more.
fn greatest_size(size: u128) -> u128
    requires { size ≤ 10 ^ 25 }
    ensures { result ≡ greatest_size size }
{
    2 * size + (2 + size / FIFTEENTH_DIGIT)
}

/// A size by a unit of its fifteenth digit is at least this.
const FIFTEENTH_DIGIT: u128 = 100_000_000_000_000;

/// The least whole numbers in the ratio of these, if each is at most 2^30.
fn in_lowest_terms(width: u128, height: u128) -> Option<Spacing>
    requires { (0 < width) × (0 < height) }
    ensures { MatchOption result ((s : Distances) → IsSpacing s → IsLowest width height s → ⊥) (IsLowest width height) }
{
    let divisor = common_divisor(width, height);
    spacing_of(width / divisor, height / divisor)
}

/// The greatest common divisor, by Euclid's steps.
fn common_divisor(width: u128, height: u128) -> u128
    ensures { IsGcd width height result }
{
    let mut x = width;
    let mut y = height;
    while y != 0 {
        let rest = x % y;
        x = y;
        y = rest;
    }
    x
}
