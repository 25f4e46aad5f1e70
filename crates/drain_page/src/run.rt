//! A path without an end, in words.

ghost use Rattle.std.specs.Prelude.{◌≡◌};

use crate::frame::Frame;
use crate::json_text::{JsonText, JsonValue};
use crate::rules::placed;
use drain_findings::Findings;
use drain_grid::Cell;
use drain_paths::{EndlessPath, LostBy};
use std::alloc::AllocError;

/// Appends the cell where the path begins, and where it leads.
pub(crate) fn push_run(
    text: &mut String,
    from: Cell,
    run: &EndlessPath,
    whole: &'static str,
) -> Result<(), AllocError> {
    write!(
        text,
        "path without an end: from row {}, column {}",
        from.row, from.col
    )?;
    match run {
        EndlessPath::Ring { cells, length } => push_ring(text, cells, *length),
        EndlessPath::Lost { cell, by } => {
            let (why, outside) = why_lost(*by, whole);
            writeln!(
                text,
                "\n  path stops at row {}, column {}: {why}{outside}",
                cell.row, cell.col
            )
        }
    }
}

/// The ring's length and its cells, one a line.
fn push_ring(text: &mut String, cells: &[Cell], length: usize) -> Result<(), AllocError> {
    writeln!(text, " into a ring of {length} cells")?;
    for cell in cells {
        writeln!(text, "  row {}, column {}", cell.row, cell.col)?;
    }
    if cells.len() < length {
        writeln!(text, "  and so on")
    } else {
        Ok(())
    }
}

/// Why a path stops, and of what it leads outside.
fn why_lost(by: LostBy, whole: &'static str) -> (&'static str, &'static str) {
    match by {
        LostBy::NoCode => ("dir is no direction code", ""),
        LostBy::Outside => ("dir points outside the ", whole),
        LostBy::Void => ("dir points to a void", ""),
    }
}

/// Where the path begins, and the ring or the cell to which it leads; null if there is none.
pub(crate) fn write_run<F: Frame>(
    json: &mut JsonText,
    findings: &Findings<F>,
) -> Result<(), AllocError>
    ensures { json.new ≡ json.old }
{
    let Some((cell, run)) = &findings.endless else {
        return json.null("run");
    };
    let layout = &findings.layout;
    json.begin_object("run")?;
    json.member("from", placed(layout, *cell))?;
    write_end(json, layout, run)?;
    json.end_object()
}

/// The ring or the cell to which the path leads; the other is null.
fn write_end<F: Frame>(json: &mut JsonText, layout: &F, run: &EndlessPath) -> Result<(), AllocError>
    ensures { json.new ≡ json.old }
{
    match run {
        EndlessPath::Ring { cells, length } => {
            write_ring(json, layout, cells, *length)?;
            json.null("lost")
        }
        EndlessPath::Lost { cell, by } => {
            json.null("ring")?;
            write_lost(json, layout, *cell, *by)
        }
    }
}

/// How many cells a ring has, and its first ones.
fn write_ring<F: Frame>(
    json: &mut JsonText,
    layout: &F,
    cells: &[Cell],
    length: usize,
) -> Result<(), AllocError>
    ensures { json.new ≡ json.old }
{
    json.begin_object("ring")?;
    json.member("length", length as u64)?;
    json.begin_list("cells")?;
    for cell in cells {
        placed(layout, *cell).append(json)?;
    }
    json.end_list()?;
    json.end_object()
}

/// The cell where a path stops, and why.
fn write_lost<F: Frame>(
    json: &mut JsonText,
    layout: &F,
    cell: Cell,
    by: LostBy,
) -> Result<(), AllocError>
    ensures { json.new ≡ json.old }
{
    json.begin_object("lost")?;
    json.member("cell", placed(layout, cell))?;
    json.member(
        "by",
        match by {
            LostBy::NoCode => "no_code",
            LostBy::Outside => "outside",
            LostBy::Void => "void",
        },
    )?;
    json.end_object()
}
