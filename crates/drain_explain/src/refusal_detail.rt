//! What was expected and found in refused inputs.

ghost use Rattle.std.specs.Prelude.{◌≢◌, ◌↔◌, ◌<◌, ◌≡◌, ◌-◌, ◌&&◌, if◌then◌else◌};
ghost use Rattle.drain_explain.specs.Names.{IfSome, IsTrue, length, nat_lt, option_map, slice_get, take, lines_of, spacing_from};
ghost use Rattle.drain_explain.specs.RefusalDetails.{IsHeightAt, IsSeamDetail, IsCellDetail, IsLineDetail, IsSpacingLineDetail, IsSpacingRowsDetail};

use crate::refused::FileLookup;
use drain_findings::{NotData, RefusalDetail, SHOWN_BYTES, TileValue};
use drain_grid::{Cell, Shape, VOID};
use drain_mosaic::Layout;
use drain_text::{first_line, first_word, whole_number};
use drain_verdict::SpacingInput;
use std::alloc::Global;

/// The first tile with data at the cell, and the first that gives another height there.
pub(crate) fn seam_detail<L: FileLookup>(
    layout: &Layout,
    cell: Cell,
    look: &mut L,
) -> Option<RefusalDetail>
    ensures { IfSome result (IsSeamDetail L.shows layout.now cell) }
{
    let mut first: Option<TileValue> = None;
    for i in 0..layout.len() {
        if let Some(value) = value_at(layout, i, cell, look) {
            match first {
                Some(first) if differ(&first, &value) => {
                    return Some(RefusalDetail::Seam {
                        first,
                        other: value,
                    });
                }
                Some(_) => {}
                None => first = Some(value),
            }
        }
    }
    None
}

/// Whether two tiles have different heights.
fn differ(one: &TileValue, other: &TileValue) -> bool
    ensures { IsTrue result ↔ (one.now.metres ≢ other.now.metres) }
{
    one.metres != other.metres
}

/// The height of the tile at the cell, none if the tile doesn't reach it or has a void there.
fn value_at<L: FileLookup>(layout: &Layout, i: usize, cell: Cell, look: &mut L) -> Option<TileValue>
    requires { i < length layout.now.corners }
    ensures { IfSome result (IsHeightAt L.shows layout.now cell i) }
{
    let corner = layout.place(i);
    let row = cell.row.checked_sub(corner.row)?;
    let col = cell.col.checked_sub(corner.col)?;
    let side = layout.side();
    if row >= side || col >= side {
        return None;
    }
    let start = 2 * (u64::from(row) * u64::from(side) + u64::from(col));
    match look.sample(i, start)? {
        VOID => None,
        metres => Some(TileValue {
            tile: layout.name(i),
            metres,
        }),
    }
}

/// The first bytes of the line, as in the list, and how many it has; none if memory runs out.
pub(crate) fn sink_line_detail(alloc: Global, list: &[u8], number: u64) -> Option<RefusalDetail>
    ensures { IfSome result (IsLineDetail list.now number) }
{
    let line = line_of(list, number)?;
    let start = Vec::from_slice(alloc, shown_of(line)).ok()?;
    Some(RefusalDetail::SinkLine {
        number,
        start,
        bytes: line.len() as u64,
    })
}

/// The first bytes of the line of a text by row, as in the text, and how many it has; none if memory runs out.
pub(crate) fn spacing_line_detail(
    alloc: Global,
    spacing: &SpacingInput<'_>,
    number: u64,
) -> Option<RefusalDetail>
    ensures { IfSome result (IsSpacingLineDetail (spacing_from spacing.now) number) }
{
    let SpacingInput::ByRow(text) = spacing else {
        return None;
    };
    let line = line_of(text, number)?;
    let start = Vec::from_slice(alloc, shown_of(line)).ok()?;
    let bytes = line.len() as u64;
    Some(RefusalDetail::SpacingLine {
        number,
        start,
        bytes,
    })
}

/// The rows of the grid, and how many a text by row lists.
pub(crate) fn spacing_rows_detail(shape: Shape, rows: u64) -> RefusalDetail
    ensures { IsSpacingRowsDetail shape rows result }
{
    RefusalDetail::SpacingRows {
        expected: shape.rows(),
        found: rows,
    }
}

/// The bytes of a line that are shown.
fn shown_of(line: &[u8]) -> &[u8]
    ensures { result.now ≡ take SHOWN_BYTES line.now }
{
    if line.len() <= SHOWN_BYTES {
        return line;
    }
    &line[..SHOWN_BYTES]
}

/// The cell that the line lists, and why it has no data.
pub(crate) fn sink_cell_detail(shape: Shape, list: &[u8], number: u64) -> Option<RefusalDetail>
    ensures { IfSome result (IsCellDetail shape list.now number) }
{
    let (first, after) = first_word(line_of(list, number)?)?;
    let (second, _) = first_word(after)?;
    let row = whole_number(first)?;
    let col = whole_number(second)?;
    let why = why_no_data(shape, row, col);
    Some(RefusalDetail::SinkCell {
        number,
        row: u64::from(row),
        col: u64::from(col),
        why,
    })
}

/// Why a cell has no data, by where it lies.
fn why_no_data(shape: Shape, row: u32, col: u32) -> NotData
    ensures { result ≡ (if nat_lt row shape.rows && nat_lt col shape.cols then NotData.Void else NotData.Outside) }
{
    if row < shape.rows() && col < shape.cols() {
        NotData::Void
    } else {
        NotData::Outside
    }
}

/// The line of this number, counted from 1, if the list has it.
fn line_of(list: &[u8], number: u64) -> Option<&[u8]>
    ensures { option_map (λ line. line.now) result ≡ slice_get (lines_of list.now) (number - 1) }
{
    let mut rest = list;
    for _ in 1..number {
        match first_line(rest).1 {
            Some(after) => rest = after,
            None => return None,
        }
    }
    Some(first_line(rest).0)
}
