//! What windows have in common: one grid, one set of no-data numbers, and labels that two outlets share.

ghost use Rattle.std.specs.Prelude.{◌≡◌, ◌↔◌, ◌<◌};
ghost use Rattle.drain_merge.specs.Names.{IfErr, IsTrue, OnOk, length, IsPermutation, SharesAt, CountsOn};
ghost use Rattle.drain_merge.specs.Merges.{HaveOneGrid, IsGridRefusal};
ghost use Rattle.drain_merge.specs.Places.{IsFirstFailing};
ghost use Rattle.drain_merge.specs.Seams.{AreInOrder, IsFirstSharing, IsLeastSharing, IsEarlierOf};

use crate::merge_verdict::{MergeRefusal, is_earlier};
use drain_grid::Cell;
use drain_union::{AuditNoData, Outlet, UnionGrid, WindowReport};

/// Refuses windows whose rows and columns count on several grids.
pub(crate) fn check_grids(windows: &[WindowReport]) -> Result<(), MergeRefusal>
    ensures one { OnOk result (HaveOneGrid windows.now) }
    ensures refusal { IfErr result (IsGridRefusal windows.now) }
{
    let Some(first) = windows.first() else {
        return Ok(());
    };
    let Some(place) = first_on_other(windows, &first.grid) else {
        return Ok(());
    };
    match first.grid {
        UnionGrid::Tiles(_) => Err(MergeRefusal::OtherSide(place)),
        UnionGrid::Dem(_) => Err(MergeRefusal::OtherGrid(place)),
    }
}

/// The first window whose rows and columns count on another grid than this.
fn first_on_other(windows: &[WindowReport], grid: &UnionGrid) -> Option<usize>
    ensures { IsFirstFailing (λ w. CountsOn grid.now w.grid) windows.now result }
{
    for i in 0..windows.len() {
        if !counts_on(grid, &windows[i]) {
            return Some(i);
        }
    }
    None
}

/// Whether rows and columns of the window count on this grid.
fn counts_on(grid: &UnionGrid, window: &WindowReport) -> bool
    ensures { IsTrue result ↔ CountsOn grid.now window.now.grid }
{
    grid.has(&window.grid)
}

/// The first window with other no-data numbers than these.
pub fn first_other_nodata(windows: &[WindowReport], nodata: AuditNoData) -> Option<usize>
    ensures { IsFirstFailing (λ w. w.report.nodata ≡ nodata) windows.now result }
{
    for i in 0..windows.len() {
        if !are_same(nodata_of(&windows[i]), nodata) {
            return Some(i);
        }
    }
    None
}

/// The window's no-data numbers.
pub fn nodata_of(window: &WindowReport) -> AuditNoData
    ensures { result ≡ window.now.report.nodata }
{
    window.report.nodata
}

/// Whether the two are the same.
fn are_same(a: AuditNoData, b: AuditNoData) -> bool
    ensures { IsTrue result ↔ (a ≡ b) }
{
    // That each has no other numbers than these four.
    let _of_a = a.con;
    let _of_b = b.con;
    a == b
}

/// The first cell, in row order, of an outlet with the label of one at an earlier cell. The list is sorted for this.
pub fn first_sharing(outlets: &mut [Outlet]) -> Option<Cell>
    ensures { IsFirstSharing outlets.old result }
{
    sort_outlets(outlets);
    least_sharing(outlets)
}

/// Sorts outlets by label, those with one label in row order.
fn sort_outlets(outlets: &mut [Outlet])
    ensures theirs { IsPermutation outlets.old outlets.new }
    ensures order { AreInOrder outlets.new }
{
    outlets.sort_unstable_by_key(|outlet| (outlet.label, outlet.cell));
}

/// The first cell, in row order, of the outlets that have the label of the one before them in the list, and another
/// cell.
fn least_sharing(outlets: &[Outlet]) -> Option<Cell>
    ensures { IsLeastSharing outlets.now (length outlets.now) result }
{
    let mut first = None;
    for place in 1..outlets.len() {
        if shares_at(outlets, place) {
            first = Some(earlier_of(first, outlets[place].cell));
        }
    }
    first
}

/// Whether the outlet at this place has the label of the one before it, and another cell.
fn shares_at(outlets: &[Outlet], place: usize) -> bool
    requires some { 0 < place }
    requires within { place < length outlets.now }
    ensures { IsTrue result ↔ SharesAt outlets.now place }
{
    let before = &outlets[place - 1];
    let here = &outlets[place];
    before.label == here.label && before.cell != here.cell
}

/// The earlier one of two cells, of which the first may be missing.
fn earlier_of(first: Option<Cell>, cell: Cell) -> Cell
    ensures { IsEarlierOf first cell result }
{
    match first {
        Some(earliest) if !is_earlier(cell, earliest) => earliest,
        _ => cell,
    }
}
