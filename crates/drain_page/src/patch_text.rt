//! The first cell at which a rule fails: its place, its values and its neighbours', and what the rule expected.

use crate::expected::{expected_at, push_expected};
use crate::frame::{Frame, Words};
use crate::names::{Shown, shown_ground, shown_number, shown_word};
use drain_faults::FaultyPatch;
use drain_findings::Findings;
use drain_grid::{Cell, CellValues, Direction, HeightKind, NoData, Patch, SetProduct};
use std::alloc::{AllocError, Global};

/// Appends all of it: where the cell lies, the values, and what the rule expected.
pub(crate) fn push_first<F: Frame>(
    alloc: Global,
    text: &mut String,
    findings: &Findings<F>,
    first: &FaultyPatch,
) -> Result<(), AllocError> {
    let Cell { row, col } = first.cell;
    let Words { east, north, .. } = F::words();
    let eastward = findings.layout.east(col).text();
    let northward = findings.layout.north(row).text();
    writeln!(
        text,
        "first fault: row {row}, column {col}, {east} {eastward}, {north} {northward}"
    )?;
    push_patch(text, findings, &first.patch)?;
    let expected = expected_at(alloc, first, findings)?;
    push_expected(text, first, findings, &expected)
}

/// The ground and each product, three numbers by three.
fn push_patch<F: Frame>(
    text: &mut String,
    findings: &Findings<F>,
    patch: &Patch,
) -> Result<(), AllocError> {
    let rows = rows_of(patch);
    let kind = patch.spacing.kind;
    let nodata = &findings.rules.nodata;
    let whole = F::words().whole;
    write!(text, "- outside the {whole}, * listed as a sink\nground\n")?;
    push_layer(text, kind, nodata, &rows, None)?;
    for product in SetProduct::ALL {
        if findings.looks_at(product) {
            writeln!(text, "{}", product.product().name())?;
            push_layer(text, kind, nodata, &rows, Some(product))?;
        }
    }
    Ok(())
}

/// Three rows of three cells, from north to south.
pub(crate) type Rows = [[Option<CellValues>; 3]; 3];

/// A cell and its neighbours; none outside the grid.
pub(crate) fn rows_of(patch: &Patch) -> Rows {
    [
        [
            patch.neighbor(Direction::NorthWest),
            patch.neighbor(Direction::North),
            patch.neighbor(Direction::NorthEast),
        ],
        [
            patch.neighbor(Direction::West),
            Some(patch.here),
            patch.neighbor(Direction::East),
        ],
        [
            patch.neighbor(Direction::SouthWest),
            patch.neighbor(Direction::South),
            patch.neighbor(Direction::SouthEast),
        ],
    ]
}

/// One product, or the ground, three numbers by three, on heights of this kind.
fn push_layer(
    text: &mut String,
    kind: HeightKind,
    nodata: &NoData,
    rows: &Rows,
    layer: Option<SetProduct>,
) -> Result<(), AllocError> {
    for [west, middle, east] in rows {
        let west = shown_at(kind, nodata, west, layer);
        let middle = shown_at(kind, nodata, middle, layer);
        let east = shown_at(kind, nodata, east, layer);
        push_columns(text, kind, west.as_str(), middle.as_str(), east.as_str())?;
    }
    Ok(())
}

/// Three numbers in columns, which are wider on floats.
fn push_columns(
    text: &mut String,
    kind: HeightKind,
    west: &str,
    middle: &str,
    east: &str,
) -> Result<(), AllocError> {
    match kind {
        HeightKind::Whole => writeln!(text, "{west:>13}{middle:>13}{east:>13}"),
        HeightKind::Single => writeln!(text, "{west:>18}{middle:>18}{east:>18}"),
    }
}

/// A product's number there, or the ground; a dash outside the grid.
fn shown_at(
    kind: HeightKind,
    nodata: &NoData,
    cell: &Option<CellValues>,
    layer: Option<SetProduct>,
) -> Shown {
    match (cell, layer) {
        (Some(values), Some(product)) => shown_number(kind, values, product, nodata),
        (Some(values), None) => shown_ground(kind, values),
        (None, _) => shown_word("-"),
    }
}
