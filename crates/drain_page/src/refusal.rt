//! What was expected and found in refused inputs: a line each.

ghost use Rattle.std.specs.Prelude.{◌≡◌};

use crate::json_text::{JsonText, JsonValue};
use crate::kind_words::{push_kinds, write_kinds};
use crate::names::{shown_bytes, units_text};
use drain_findings::{Extent, NotData, RefusalDetail, TileValue};
use drain_grid::{MAX_SIDE, MIN_SIDE, Product};
use drain_header::Place;
use std::alloc::{AllocError, Global};

/// Appends both lines.
pub(crate) fn push_refusal(
    alloc: Global,
    text: &mut String,
    detail: &RefusalDetail,
    whole: &'static str,
) -> Result<(), AllocError> {
    match detail {
        RefusalDetail::Side(side) => writeln!(
            text,
            "expected: a side from {MIN_SIDE} to {MAX_SIDE}\nfound: {side}"
        ),
        RefusalDetail::Name(name) => writeln!(
            text,
            "expected: the name of a tile, such as N36W085.hgt\nfound: {}",
            shown_bytes(alloc, name)?
        ),
        RefusalDetail::Shape {
            product,
            expected,
            found,
        } => {
            let name = product.name();
            writeln!(
                text,
                "expected: {name} with {} rows and {} columns\nfound: {name} with {} rows and {} columns",
                expected.rows, expected.cols, found.rows, found.cols
            )
        }
        RefusalDetail::Position {
            product,
            expected,
            found,
        } => {
            push_position(text, "expected", *product, expected)?;
            push_position(text, "found", *product, found)
        }
        RefusalDetail::TileLength {
            tile,
            expected,
            found,
        } => {
            let name = tile.text();
            writeln!(
                text,
                "expected: {name} of {expected} bytes\nfound: {name} of {found} bytes"
            )
        }
        RefusalDetail::RasterLength {
            product,
            expected,
            found,
        } => {
            let name = product.name();
            writeln!(
                text,
                "expected: {name}.bil of {expected} bytes\nfound: {name}.bil of {found} bytes"
            )
        }
        RefusalDetail::Seam { first, other } => writeln!(
            text,
            "expected: one height at the cell: {} has {}\nfound: {} has {}",
            first.tile.text(),
            first.metres,
            other.tile.text(),
            other.metres
        ),
        RefusalDetail::SinkLine {
            number,
            start,
            bytes,
        } => push_line(
            alloc,
            text,
            "a row and a column, such as 12 7",
            *number,
            start,
            *bytes,
        ),
        RefusalDetail::SinkCell {
            number,
            row,
            col,
            why,
        } => {
            let (why, outside) = why_no_data(*why, whole);
            writeln!(
                text,
                "expected: line {number}: a data cell\nfound: row {row}, column {col}, {why}{outside}"
            )
        }
        RefusalDetail::SpacingLine {
            number,
            start,
            bytes,
        } => push_line(
            alloc,
            text,
            "a width and a height, such as 30 20",
            *number,
            start,
            *bytes,
        ),
        RefusalDetail::SpacingRows { expected, found } => writeln!(
            text,
            "expected: a line for each of {expected} rows\nfound: lines for {found} rows"
        ),
        RefusalDetail::PixelSize { xdim, ydim } => writeln!(
            text,
            "expected: XDIM and YDIM above 0\nfound: XDIM {}, YDIM {}",
            units_text(*xdim),
            units_text(*ydim)
        ),
        RefusalDetail::DemLength { expected, found } => writeln!(
            text,
            "expected: dem of {expected} bytes\nfound: dem of {found} bytes"
        ),
        RefusalDetail::Kind { expected, found } => push_kinds(text, *expected, *found),
    }
}

/// A product's place, as in its header.
fn push_position(
    text: &mut String,
    word: &str,
    product: Product,
    place: &Place,
) -> Result<(), AllocError> {
    writeln!(
        text,
        "{word}: {} at ULXMAP {}, ULYMAP {}, XDIM {}, YDIM {}",
        product.name(),
        units_text(place.ulx),
        units_text(place.uly),
        units_text(place.xdim),
        units_text(place.ydim)
    )
}

/// A bad line of a list, what it should be, and how much of it is shown, if it isn't the whole line.
fn push_line(
    alloc: Global,
    text: &mut String,
    expected: &'static str,
    number: u64,
    start: &[u8],
    bytes: u64,
) -> Result<(), AllocError> {
    let line = shown_bytes(alloc, start)?;
    let shown = start.len() as u64;
    writeln!(text, "expected: line {number}: {expected}")?;
    if shown >= bytes {
        writeln!(text, "found: line {number}: {line}")
    } else {
        writeln!(
            text,
            "found: line {number}, the first {shown} of {bytes} bytes: {line}"
        )
    }
}

/// Why a listed cell isn't a data cell, and of what it is outside.
fn why_no_data(why: NotData, whole: &'static str) -> (&'static str, &'static str) {
    match why {
        NotData::Void => ("a void", ""),
        NotData::Outside => ("outside the ", whole),
    }
}

/// The details of a refusal; null if there are none beyond its line. `about` names its kind.
pub(crate) fn write_refusal(
    alloc: Global,
    json: &mut JsonText,
    detail: &Option<RefusalDetail>,
) -> Result<(), AllocError>
    ensures { json.new ≡ json.old }
{
    let Some(detail) = detail else {
        return json.null("refusal");
    };
    json.begin_object("refusal")?;
    json.member("about", kind(detail))?;
    write_members(alloc, json, detail)?;
    json.end_object()
}

fn kind(detail: &RefusalDetail) -> &'static str {
    match detail {
        RefusalDetail::Side(_) => "side",
        RefusalDetail::Name(_) => "name",
        RefusalDetail::Shape { .. } => "shape",
        RefusalDetail::Position { .. } => "position",
        RefusalDetail::TileLength { .. } => "tile_length",
        RefusalDetail::RasterLength { .. } => "raster_length",
        RefusalDetail::Seam { .. } => "seam",
        RefusalDetail::SinkLine { .. } => "sink_line",
        RefusalDetail::SinkCell { .. } => "sink_cell",
        RefusalDetail::SpacingLine { .. } => "spacing_line",
        RefusalDetail::SpacingRows { .. } => "spacing_rows",
        RefusalDetail::PixelSize { .. } => "pixel_size",
        RefusalDetail::DemLength { .. } => "dem_length",
        RefusalDetail::Kind { .. } => "kind",
    }
}

fn write_members(
    alloc: Global,
    json: &mut JsonText,
    detail: &RefusalDetail,
) -> Result<(), AllocError>
    ensures { json.new ≡ json.old }
{
    match detail {
        RefusalDetail::Side(side) => write_side(json, *side),
        RefusalDetail::Name(name) => write_shown(alloc, json, name),
        RefusalDetail::Shape {
            product,
            expected,
            found,
        } => write_both(json, "product", product.name(), *expected, *found),
        RefusalDetail::Position {
            product,
            expected,
            found,
        } => write_both(json, "product", product.name(), *expected, *found),
        RefusalDetail::TileLength {
            tile,
            expected,
            found,
        } => write_both(json, "tile", tile.text().as_str(), *expected, *found),
        RefusalDetail::RasterLength {
            product,
            expected,
            found,
        } => write_both(json, "product", product.name(), *expected, *found),
        RefusalDetail::Seam { first, other } => {
            json.member("first", *first)?;
            json.member("other", *other)
        }
        RefusalDetail::SinkLine {
            number,
            start,
            bytes,
        }
        | RefusalDetail::SpacingLine {
            number,
            start,
            bytes,
        } => {
            json.member("line", *number)?;
            write_shown(alloc, json, start)?;
            json.member("bytes", *bytes)
        }
        RefusalDetail::SinkCell {
            number,
            row,
            col,
            why,
        } => write_sink_cell(json, *number, *row, *col, *why),
        RefusalDetail::PixelSize { xdim, ydim } => {
            json.begin_object("found")?;
            json.member("xdim", units_text(*xdim).as_str())?;
            json.member("ydim", units_text(*ydim).as_str())?;
            json.end_object()
        }
        RefusalDetail::SpacingRows { expected, found } => {
            json.member("expected", *expected)?;
            json.member("found", *found)
        }
        RefusalDetail::DemLength { expected, found } => {
            json.member("expected", *expected)?;
            json.member("found", *found)
        }
        RefusalDetail::Kind { expected, found } => write_kinds(json, *expected, *found),
    }
}

fn write_side(json: &mut JsonText, found: u32) -> Result<(), AllocError>
    ensures { json.new ≡ json.old }
{
    json.member("least", MIN_SIDE)?;
    json.member("greatest", MAX_SIDE)?;
    json.member("found", found)
}

/// Bytes that were found.
fn write_shown(alloc: Global, json: &mut JsonText, found: &[u8]) -> Result<(), AllocError>
    ensures { json.new ≡ json.old }
{
    let shown = shown_bytes(alloc, found)?;
    json.member("found", shown.as_str())
}

/// Which product or tile it is, and what was expected and found of it.
fn write_both<V: JsonValue>(
    json: &mut JsonText,
    which: &str,
    name: &str,
    expected: V,
    found: V,
) -> Result<(), AllocError>
    ensures { json.new ≡ json.old }
{
    json.member(which, name)?;
    json.member("expected", expected)?;
    json.member("found", found)
}

impl JsonValue for Extent {
    fn append(self, json: &mut JsonText) -> Result<(), AllocError> {
        json.begin_object_item()?;
        json.member("rows", self.rows)?;
        json.member("cols", self.cols)?;
        json.end_object()
    }
}

impl JsonValue for Place {
    /// Decimals with fifteen places as strings: a float would lose the last of them.
    fn append(self, json: &mut JsonText) -> Result<(), AllocError> {
        json.begin_object_item()?;
        json.member("ulxmap", units_text(self.ulx).as_str())?;
        json.member("ulymap", units_text(self.uly).as_str())?;
        json.member("xdim", units_text(self.xdim).as_str())?;
        json.member("ydim", units_text(self.ydim).as_str())?;
        json.end_object()
    }
}

impl JsonValue for TileValue {
    fn append(self, json: &mut JsonText) -> Result<(), AllocError> {
        json.begin_object_item()?;
        json.member("tile", self.tile.text().as_str())?;
        json.member("metres", self.metres)?;
        json.end_object()
    }
}

fn write_sink_cell(
    json: &mut JsonText,
    line: u64,
    row: u64,
    col: u64,
    why: NotData,
) -> Result<(), AllocError>
    ensures { json.new ≡ json.old }
{
    json.member("line", line)?;
    json.member("row", row)?;
    json.member("col", col)?;
    json.member(
        "found",
        match why {
            NotData::Void => "void",
            NotData::Outside => "outside",
        },
    )
}
