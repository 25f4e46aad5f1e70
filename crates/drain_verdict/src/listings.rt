//! What is listed beside the rasters: sinks, and how far apart the cells of each row are; and why the lists are refused.
//!
//! A text with a bad line is refused only after the last row, so that earlier refusals come first. During the walk it
//! lists no sink, or unit spacing.

ghost use Rattle.std.specs.Prelude.{◌≡◌, ◌≢◌};
ghost use Rattle.drain_verdict.specs.Names.{ℕ, Err, IfOk, IfSome, Some, of_kind, spacing_of, spacing_in, spacing_from};
ghost use Rattle.drain_verdict.specs.Listings.{AreRowsCounted, IsListedSpacing, IsListingOf, IsToldOfLists, IsToldOfSpacing};
ghost use Rattle.drain_verdict.specs.Refusals.{IsOfBodies};

use crate::given::Given;
use crate::stages::{SinkListing, sink_listing, sink_refusal};
use drain_answer::Refusal;
use drain_grid::{
    HeightKind, OutOfMemory, Shape, Spacing, SpacingFault, SpacingInput, Spacings, parse_spacings,
};
use drain_rows::ListedVoids;
use std::alloc::Global;

/// How far apart the cells of each row are, unit spacing if a line is bad; the first bad line; and how many rows a text
/// without one lists.
#[derive(Drop)]
pub struct SpacingListing {
    pub spacings: Spacings,
    pub bad: Option<u64>,
    pub rows: Option<u64>,
}

/// The sinks, and how far apart cells are.
#[derive(Drop)]
pub struct Listing {
    pub sinks: SinkListing,
    pub spacing: SpacingListing,
}

/// What is listed, of a ground with heights of this kind.
pub fn listing_of(alloc: Global, given: &Given, kind: HeightKind) -> Result<Listing, OutOfMemory>
    ensures { IfOk result (λ listing. IsListingOf kind listing given.now) }
{
    let sinks = sink_listing(alloc, given.sinks)?;
    let spacing = spacing_listing(alloc, &given.spacing, kind)?;
    Ok(Listing { sinks, spacing })
}

/// The spacing that is said, for heights of this kind.
fn spacing_listing(
    alloc: Global,
    input: &SpacingInput<'_>,
    kind: HeightKind,
) -> Result<SpacingListing, OutOfMemory>
    ensures { IfOk result (IsListedSpacing kind (spacing_from input.now)) }
{
    match parse_spacings(alloc, input) {
        Ok(spacings) => {
            let rows = rows_of(input, &spacings);
            Ok(SpacingListing {
                spacings: spacings.of_kind(kind),
                bad: None,
                rows,
            })
        }
        Err(SpacingFault::BadSpacingLine(line)) => Ok(square_cells(alloc, line, kind)),
        Err(SpacingFault::OutOfMemory) => Err(OutOfMemory),
    }
}

/// Square cells, of a text with this bad line.
fn square_cells(alloc: Global, line: u64, kind: HeightKind) -> SpacingListing
    ensures spacing { (row : ℕ) → spacing_of result.spacings row ≡ of_kind kind (spacing_in (Err line) row) }
    ensures bad { result.bad ≡ Some line }
{
    SpacingListing {
        spacings: Spacings::same(alloc, Spacing::unit().of_kind(kind)),
        bad: Some(line),
        rows: None,
    }
}

/// How many rows are listed, if a text lists them.
fn rows_of(input: &SpacingInput<'_>, spacings: &Spacings) -> Option<u64>
    ensures { AreRowsCounted (spacing_from input.now) spacings.now result }
{
    match input {
        SpacingInput::Same(_) => None,
        SpacingInput::ByRow(_) => Some(spacings.listed_rows() as u64),
    }
}

/// Why the lists are refused, the sinks first.
pub fn listing_refusal(listing: &Listing, shape: Shape, voids: &ListedVoids) -> Option<Refusal>
    ensures told { IsToldOfLists listing.now shape voids.now result }
    ensures of_bodies { IfSome result IsOfBodies }
    ensures no_read { result ≢ Some Refusal.ReadFailed }
{
    if let Some(refusal) = sink_refusal(&listing.sinks, shape, voids) {
        return Some(refusal);
    }
    spacing_refusal(&listing.spacing, shape)
}

/// The first bad line of a text by row, else the number of its rows, if the grid has another number of them.
fn spacing_refusal(listing: &SpacingListing, shape: Shape) -> Option<Refusal>
    ensures told { IsToldOfSpacing listing.now shape result }
    ensures of_bodies { IfSome result IsOfBodies }
    ensures no_read { result ≢ Some Refusal.ReadFailed }
{
    if let Some(line) = listing.bad {
        return Some(Refusal::BadSpacingLine(line));
    }
    match listing.rows {
        Some(rows) if rows != u64::from(shape.rows()) => Some(Refusal::SpacingRows(rows)),
        _ => None,
    }
}
