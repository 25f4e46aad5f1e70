//! The verdict on a union, from the reports of its windows: a join of them, and its end.

ghost use Rattle.std.specs.Prelude.{◌≡◌, map, IfOk, IfErr, OnOk};
ghost use Rattle.drain_merge.specs.Names.{cell_from};
ghost use Rattle.drain_merge.specs.BoxReports.{box_at};
ghost use Rattle.drain_merge.specs.MapBoxes.{AreTaken, AreTakenBy, HasMapSinks, IsByLabels, IsEnd, IsEndOf, IsEndRefusal, IsMapVerdict, IsMapRefusal, IsTakenRefusal, IsWhole, refusal_from, sinks_in};

use crate::joined::{cell_in, joined};
use crate::merge_verdict::MergeRefusal;
use crate::shared::first_sharing;
use crate::smallest_box::{UnionBox, whole_box};
use crate::totals::{UnionSinks, check_sinks};
use drain_grid::{Cell, Rule};
use drain_union::{Fault, Outlet, Place, Report, UnionCounts, UnionVerdict, WindowReport};
use std::alloc::Global;

/// The verdict on a union, with its box. Rows and columns of the verdict count from the box's first cell.
#[derive(Clone, Copy, PartialEq, Eq, Debug)]
pub struct MapVerdict {
    pub bounds: UnionBox,
    pub verdict: UnionVerdict,
}

/// The verdict on the union of windows whose places and cells count the rows and columns of a map: on the smallest box
/// that holds them. A side that isn't inner has to be an edge of this box. Unless a window is rejected, the windows have
/// to have taken the sinks of the union.
///
/// Refusals are returned in the order of `MergeRefusal`, and name cells of the box; a rejected window is reported before
/// seams are compared, since of such a window no seam is listed. Memory: the lists of all windows, and the places.
pub fn merge_on_map(
    alloc: Global,
    windows: Vec<WindowReport>,
    sinks: &UnionSinks,
) -> Result<MapVerdict, MergeRefusal>
    // The verdict accepts exactly if the products of the union are correct, and else it names their first fault.
    ensures means { IfOk result (IsMapVerdict windows.items) }

    // What it is computed from, and the counts.
    ensures lists { IfOk result (IsWhole windows.items) }

    // Unless a window is rejected, the union has the sinks that are listed.
    ensures sinks { IfOk result (λ verdict. HasMapSinks sinks.now windows.items) }

    // Each refusal comes where it is the first that applies, unless memory runs out.
    ensures refusal { IfErr result (IsMapRefusal sinks.now windows.items) }
{
    let bounds = whole_box(&windows);
    match joined(alloc, &bounds, windows) {
        Ok(report) => ended(alloc, report, sinks),
        Err(refusal) => Err(refusal_from(&bounds, refusal)),
    }
}

/// The refusal, with its cell counted from the box's first one.
fn refusal_from(bounds: &Place, refusal: MergeRefusal) -> MergeRefusal
    ensures { result ≡ refusal_from (box_at bounds.now).origin refusal }
{
    match refusal {
        MergeRefusal::LeftOut(cell) => MergeRefusal::LeftOut(cell_in(bounds, cell)),
        MergeRefusal::SeamsDiffer(cell) => MergeRefusal::SeamsDiffer(cell_in(bounds, cell)),
        other => other,
    }
}

/// The verdict on the union that this is the report of, if its windows took these sinks.
fn ended(alloc: Global, whole: WindowReport, sinks: &UnionSinks) -> Result<MapVerdict, MergeRefusal>
    ensures end { IfOk result (IsEnd whole) }
    ensures taken { OnOk result (AreTaken sinks.now whole) }
    ensures refusal { IfErr result (IsEndRefusal sinks.now whole) }
{
    let WindowReport {
        verdict,
        report,
        ..
    } = whole;
    let bounds = box_at(&report.place);
    let verdict = end_of(alloc, verdict, report, sinks)?;
    Ok(MapVerdict { bounds, verdict })
}

/// The same, from the report and its verdict: where this rejects, sinks and labels play no part.
fn end_of(
    alloc: Global,
    verdict: UnionVerdict,
    report: Report,
    sinks: &UnionSinks,
) -> Result<UnionVerdict, MergeRefusal>
    ensures end { IfOk result (IsEndOf verdict report) }
    ensures taken { OnOk result (AreTakenBy verdict sinks.now (sinks_in report)) }
    ensures refusal { IfErr result (IsTakenRefusal verdict sinks.now (sinks_in report)) }
{
    let UnionVerdict::Accepted(counts) = verdict else {
        return Ok(verdict);
    };
    let Report {
        place,
        outlets,
        sinks: taken,
        ..
    } = report;
    let taken = sinks_in(&place, taken);
    check_sinks(alloc, &taken, sinks)?;
    Ok(by_labels(&place, counts, outlets))
}

/// The box that lies here.
fn box_at(place: &Place) -> UnionBox
    ensures { result ≡ box_at place.now }
{
    UnionBox {
        origin: Cell {
            row: place.top,
            col: place.left,
        },
        size: place.extent,
    }
}

/// The sinks, counted from the first cell of this box.
fn sinks_in(bounds: &Place, mut sinks: Vec<Cell>) -> Vec<Cell>
    ensures { result.items ≡ map (cell_from (box_at bounds.now).origin) sinks.items }
{
    move_sinks(bounds, sinks.as_mut_slice());
    sinks
}

/// Counts sinks from the first cell of this box.
fn move_sinks(bounds: &Place, sinks: &mut [Cell])
    ensures { sinks.new ≡ map (cell_from (box_at bounds.now).origin) sinks.old }
{
    for i in 0..sinks.len() {
        sinks[i] = cell_in(bounds, sinks[i]);
    }
}

/// The verdict on a union in which the rules of a patch hold: its first label that two outlets share, or these counts.
fn by_labels(bounds: &Place, counts: UnionCounts, mut outlets: Vec<Outlet>) -> UnionVerdict
    ensures { IsByLabels (box_at bounds.now).origin counts outlets.items result }
{
    match first_sharing(outlets.as_mut_slice()) {
        Some(cell) => UnionVerdict::Rejected(Fault {
            cell: cell_in(bounds, cell),
            rule: Rule::SharedLabel,
        }),
        None => UnionVerdict::Accepted(counts),
    }
}
