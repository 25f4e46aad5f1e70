//! The report that the reports of windows make of the smallest box that holds them.

ghost use Rattle.std.specs.Prelude.{◌≡◌};
ghost use Rattle.drain_merge.specs.Names.{cell_from, IfErr, IfOk, OnOk, Some, IsPermutation, is_accepted, IsSortedByLabel, ShowTheSame};
ghost use Rattle.drain_merge.specs.BoxReports.{AreJoinedLists, box_at, IsJoin, IsJoinedVerdict, IsJoinOver, IsJoinRefusal, IsOfBox, IsSeamRefusal};
ghost use Rattle.drain_merge.specs.Merges.{IsBoxRefusal, MakeBox};
ghost use Rattle.drain_merge.specs.Seams.{IsFirstDifference};
ghost use Rattle.drain_merge.specs.Unjudged.{HasCells};
ghost use Rattle.drain_merge.specs.declared.merge_verdict.MergeRefusal.TheVariants.{SeamsDiffer};
ghost use Rattle.drain_grid.specs.declared.cell.Cell.{Cell as CellOf};

use crate::all_lists::{Lists, all_lists};
use crate::checks::check_windows;
use crate::joined_spacings::joined_spacings;
use crate::merge_verdict::{MergeRefusal, first_fault};
use crate::outer_seams::outer_seams;
use crate::seams::first_difference;
use crate::smallest_box::smallest_box;
use crate::totals::total;
use drain_grid::Cell;
use drain_union::{Fault, Outlet, Place, Report, Shown, UnionVerdict, WindowReport, sort_by_label};
use std::alloc::Global;

/// The report on the smallest box that holds these windows, which have to fill it: as `drain_window::judge_window_on`
/// makes it of a window that is this box. So a merge of such reports is a merge of all their windows. On a side of the box the
/// union goes on unless it ends with a window there. Of a rejected window seams aren't compared, and the report of the
/// box is a rejected one. It names no tiles.
///
/// Refusals are returned in the order of `MergeRefusal`; a window with row or column 4,294,967,295 is `OutsideUnion`.
/// Labels that outlets share are left to the last merge. Memory: the lists of all windows, and the places.
pub fn join(alloc: Global, windows: Vec<WindowReport>) -> Result<WindowReport, MergeRefusal>
    // On each union of which these are the windows, it is the report of the window that the box is.
    ensures means { IfOk result (IsOfBox windows.items) }

    // What it is computed from.
    ensures lists { IfOk result (IsJoin windows.items) }

    // Each refusal comes exactly where it is the first that applies, unless memory runs out.
    ensures refusal { IfErr result (IsJoinRefusal windows.items) }
{
    let bounds = smallest_box(&windows);
    joined(alloc, &bounds, windows)
}

/// The report of this box, if the windows fill it.
pub(crate) fn joined(
    alloc: Global,
    bounds: &Place,
    windows: Vec<WindowReport>,
) -> Result<WindowReport, MergeRefusal>
    requires { HasCells bounds.now }
    ensures made { IfOk result (IsJoinOver bounds.now windows.items) }
    ensures refusal { IfErr result (IsBoxRefusal bounds.now windows.items) }
{
    check_windows(alloc, bounds, &windows)?;
    report_of(alloc, bounds, windows)
}

/// The report of this box, which the windows fill.
fn report_of(
    alloc: Global,
    bounds: &Place,
    windows: Vec<WindowReport>,
) -> Result<WindowReport, MergeRefusal>
    requires make { MakeBox bounds.now windows.items }
    requires cells { HasCells bounds.now }
    ensures made { IfOk result (IsJoinOver bounds.now windows.items) }
    ensures refusal { IfErr result (IsBoxRefusal bounds.now windows.items) }
{
    let Some(first) = windows.first() else {
        return Err(MergeRefusal::NoReports);
    };
    let grid = first.grid;
    let nodata = first.report.nodata;
    let spacings = joined_spacings(alloc, bounds, &windows)?;
    let verdict = joined_verdict(bounds, &windows);
    let lists = match verdict {
        UnionVerdict::Accepted(_) => joined_lists(alloc, bounds, windows)?,
        UnionVerdict::Rejected(_) => no_lists(alloc),
    };
    Ok(WindowReport {
        grid,
        tiles: Vec::new(alloc),
        verdict,
        report: Report {
            place: *bounds,
            spacings,
            nodata,
            holds: accepts(&verdict),
            outlets: lists.outlets,
            seams: lists.seams,
            sinks: lists.sinks,
        },
    })
}

/// Whether the verdict accepts.
fn accepts(verdict: &UnionVerdict) -> bool
    ensures { result ≡ is_accepted verdict.now }
{
    match verdict {
        UnionVerdict::Accepted(_) => true,
        UnionVerdict::Rejected(_) => false,
    }
}

/// The verdict on the box: the first fault of the windows, or the sums of their counts.
fn joined_verdict(bounds: &Place, windows: &[WindowReport]) -> UnionVerdict
    requires make { MakeBox bounds.now windows.now }
    requires cells { HasCells bounds.now }
    ensures { IsJoinedVerdict bounds.now windows.now result }
{
    match first_fault(windows) {
        Some(fault) => UnionVerdict::Rejected(Fault {
            cell: cell_in(bounds, fault.cell),
            rule: fault.rule,
        }),
        None => UnionVerdict::Accepted(total(bounds.extent, windows)),
    }
}

/// The map's cell, counted from the box's first one.
pub(crate) fn cell_in(bounds: &Place, cell: Cell) -> Cell
    ensures { result ≡ cell_from (box_at bounds.now).origin cell }
{
    Cell {
        row: cell.row.saturating_sub(bounds.top),
        col: cell.col.saturating_sub(bounds.left),
    }
}

/// Empty lists. This takes no memory.
fn no_lists(alloc: Global) -> Lists {
    Lists {
        outlets: Vec::new(alloc),
        seams: Vec::new(alloc),
        sinks: Vec::new(alloc),
    }
}

/// What windows that fill the box list, if they agree along their seams.
fn joined_lists(
    alloc: Global,
    bounds: &Place,
    windows: Vec<WindowReport>,
) -> Result<Lists, MergeRefusal>
    ensures lists { IfOk result (AreJoinedLists bounds.now windows.items) }
    ensures refusal { IfErr result (IsSeamRefusal windows.items) }
{
    let Lists {
        outlets,
        seams,
        sinks,
    } = all_lists(alloc, windows)?;
    let shown = agreed_seams(seams)?;
    let seams = outer_seams(alloc, bounds, &shown)?;
    Ok(Lists {
        outlets: sorted_outlets(outlets),
        seams,
        sinks,
    })
}

/// What is shown along seams, in row order, if it is the same wherever one cell is shown twice.
fn agreed_seams(mut seams: Vec<Shown>) -> Result<Vec<Shown>, MergeRefusal>
    ensures theirs { IfOk result (λ shown. IsPermutation seams.items shown.items) }
    ensures agree { OnOk result (ShowTheSame seams.items seams.items) }
    ensures refusal { IfErr result (λ refusal. (c : CellOf) × (refusal ≡ SeamsDiffer c) × IsFirstDifference seams.items (Some c)) }
{
    match first_difference(seams.as_mut_slice()) {
        Some(cell) => Err(MergeRefusal::SeamsDiffer(cell)),
        None => Ok(seams),
    }
}

/// The outlets, sorted by label.
fn sorted_outlets(mut outlets: Vec<Outlet>) -> Vec<Outlet>
    ensures sorted { IsSortedByLabel result.items }
    ensures theirs { IsPermutation outlets.items result.items }
{
    sort_by_label(outlets.as_mut_slice());
    outlets
}
