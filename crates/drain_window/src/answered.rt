//! The answer from what was noted of the rows.

ghost use Rattle.std.specs.Prelude.{◌≡◌, ◌<◌};
ghost use Rattle.drain_window.specs.Names.{IsTrue, IfSome, Grid, Products, NoDataNumbers, window_at, IsOrigin, IsPlaceIn, IsSortedByLabel, ListsSinks, ListsSpacings, Agree};
ghost use Rattle.drain_window.specs.WindowLines.{refusal_line, window_line};
ghost use Rattle.std.specs.List.Sorted.{IsPermutation};
ghost use Rattle.drain_grid.specs.declared.judged.Judged.TheVariants.{All};
ghost use Rattle.drain_window.specs.WindowAnswers.{IsAnswerOn};
ghost use Rattle.drain_window.specs.WindowNotes.{AreOfWindow};
ghost use Rattle.drain_window.specs.SeamRows.{EndsInRange};
ghost use Rattle.drain_window.specs.WindowWalks.{IsSeamWalkOf, IsWindowWalkOf};

use crate::judged_area::judged_area;
use crate::laws::{walk_judges_window, walk_lists_seams};
use crate::listed_outlets::ListedOutlets;
use crate::seam_walk::SeamWalk;
use drain_answer::Refusal;
use drain_answer::lines::{self, Line, words};
use drain_grid::{Cell, Spacing};
use drain_rules::walk::{RowOutcome, Tally};
use drain_rules::{Area, Walk};
use drain_union::laws::four_numbers;
use drain_union::verdict_line::verdict_line;
use drain_union::{
    AuditNoData, Fault, Outlet, Place, Report, UnionCounts, UnionVerdict, WindowReport,
    sort_by_label,
};
use std::alloc::Global;
use thiserror::Error;

/// Why a window isn't judged.
#[derive(Clone, Copy, PartialEq, Eq, Debug, Error)]
pub enum WindowRefusal {
    /// Its inputs are refused.
    #[error("the inputs are refused")]
    Inputs(Refusal),
    /// It doesn't lie in the mosaic of the tiles, or a side where the union ends isn't the edge of the mosaic.
    #[error("the window doesn't fit the mosaic")]
    OutsideMosaic,
}

/// The line of an answer, without a line end, in ASCII. Rows and columns are those of the window.
pub fn window_line(answer: &Result<WindowReport, WindowRefusal>) -> Line
    ensures { result.bytes ≡ window_line answer.now }
{
    match answer {
        Ok(window) => verdict_line(&window.verdict),
        Err(refusal) => refusal_line(refusal),
    }
}

/// The line of a refusal, or of a failure.
pub fn refusal_line(refusal: &WindowRefusal) -> Line
    ensures { result.bytes ≡ refusal_line refusal.now }
{
    match refusal {
        WindowRefusal::Inputs(refusal) => lines::refusal_line(*refusal),
        WindowRefusal::OutsideMosaic => words("refused BadBox"),
    }
}

/// The verdict and the report from the notes of all rows of a grid, for the window at this place of it, the listed sinks
/// that it judges, and the spacing of its rows. None if the notes are of another window, which never happens.
pub(crate) fn answered(
    alloc: Global,
    place: &Place,
    origin: Cell,
    walk: Walk<ListedOutlets>,
    seams: SeamWalk,
    sinks: Vec<Cell>,
    spacings: Vec<Spacing>,
) -> Option<(UnionVerdict, Report)>
    requires placed { EndsInRange place.now }
    requires moved { IsOrigin origin }
    ensures agree { IfSome result (λ a. Agree a.0 a.1) }
    ensures answer { IfSome result (λ a. (nodata : NoDataNumbers) (g : Grid) (ps : Products) → IsPlaceIn g.extent place.now → 0 < g.extent.rows
        → IsWindowWalkOf nodata g ps g.extent.rows walk → IsSeamWalkOf (record { nodata = nodata; judged = All }) g ps g.extent.rows seams → ListsSinks (window_at origin place.now g ps) sinks.items → ListsSpacings (window_at origin place.now g ps) spacings.items → IsAnswerOn nodata origin place.now g ps a.0 a.1) }
{
    // The laws on what the notes say of the window.
    walk_judges_window();
    walk_lists_seams();
    // The law that the rules look at the four no-data numbers of a report.
    four_numbers();
    if !are_of(place, origin, &walk.labels, &seams) {
        return None;
    }
    let at = place.moved(origin);
    let nodata = AuditNoData::of(seams.nodata);
    match walk.outcome {
        RowOutcome::Sound(total) => Some((
            UnionVerdict::Accepted(counts_of(place, &total)),
            Report {
                place: at,
                spacings,
                nodata,
                holds: true,
                outlets: sorted(walk.labels.outlets),
                seams: seams.seams,
                sinks,
            },
        )),
        RowOutcome::Faulty(cell, rule) => Some((
            UnionVerdict::Rejected(Fault {
                cell: Cell {
                    row: cell.row.saturating_sub(place.top),
                    col: cell.col.saturating_sub(place.left),
                },
                rule,
            }),
            Report {
                place: at,
                spacings,
                nodata,
                holds: false,
                outlets: Vec::new(alloc),
                seams: Vec::new(alloc),
                sinks: Vec::new(alloc),
            },
        )),
    }
}

/// The size of the window, and the counts of its judged cells.
fn counts_of(place: &Place, total: &Tally) -> UnionCounts
    ensures rows { result.rows ≡ place.now.extent.rows }
    ensures cols { result.cols ≡ place.now.extent.cols }
    ensures data_cells { result.data_cells ≡ total.now.data_cells }
    ensures raised { result.raised ≡ total.now.raised }
    ensures outlets { result.outlets ≡ total.now.outlets }
{
    UnionCounts {
        rows: place.extent.rows(),
        cols: place.extent.cols(),
        data_cells: u64::from(total.data_cells),
        raised: u64::from(total.raised),
        outlets: u64::from(total.outlets),
    }
}

/// Whether the notes are of the window at this place.
fn are_of(place: &Place, origin: Cell, listed: &ListedOutlets, seams: &SeamWalk) -> bool
    requires { EndsInRange place.now }
    ensures { IsTrue result → AreOfWindow place.now origin listed.now seams.now }
{
    let area = judged_area(place);
    if !same_area(&listed.area, &area) {
        return false;
    }
    if !same_cell(listed.origin, origin) {
        return false;
    }
    if !same_place(&seams.place, place) {
        return false;
    }
    same_cell(seams.origin, origin)
}

/// Whether the two are one area.
fn same_area(a: &Area, b: &Area) -> bool
    ensures { IsTrue result → a.now ≡ b.now }
{
    a == b
}

/// Whether the two are one cell.
fn same_cell(a: Cell, b: Cell) -> bool
    ensures { IsTrue result → a ≡ b }
{
    a == b
}

/// Whether the two are one place.
fn same_place(a: &Place, b: &Place) -> bool
    ensures { IsTrue result → a.now ≡ b.now }
{
    a == b
}

/// The same outlets, sorted by label.
fn sorted(outlets: Vec<Outlet>) -> Vec<Outlet>
    ensures sorted { IsSortedByLabel result.items }
    ensures permutation { IsPermutation outlets.items result.items }
{
    let mut outlets = outlets;
    sort_by_label(outlets.as_mut_slice());
    outlets
}
