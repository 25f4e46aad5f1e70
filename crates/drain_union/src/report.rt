//! A report on one window.

ghost use Rattle.std.specs.List.Sorted.{IsPermutation};
ghost use Rattle.drain_union.specs.Reports.{IsFirstShared, IsSortedByLabel, audited, spacing_at};
ghost use Rattle.std.specs.Prelude.{◌≡◌, ◌↔◌, IsTrue};

use crate::place::Place;
use crate::seam_values::SeamValues;
use crate::union_grid::UnionGrid;
use crate::verdict::UnionVerdict;
use drain_grid::{Cell, NoData, Spacing};
use drain_hgt::TileName;
use std::marker::Model;

/// An outlet's label, and its cell in the union.
#[derive(Clone, Copy, PartialEq, Eq, PartialOrd, Ord, Debug)]
pub struct Outlet {
    pub label: i64,
    pub cell: Cell,
}

/// The first place at which a list holds an outlet with the label of the one before it and another cell, none where
/// there is no such place.
///
/// In a list that is sorted by label there is none exactly where no two outlets share a label
/// (`laws::sorted_tells_shared`).
pub fn first_shared(outlets: &[Outlet]) -> Option<usize>
    ensures { IsFirstShared outlets.now result }
{
    for place in 1..outlets.len() {
        let before = &outlets[place - 1];
        let here = &outlets[place];
        if before.label == here.label && before.cell != here.cell {
            return Some(place);
        }
    }
    None
}

/// Sorts a list by label, and outlets with one label by their cells in row order.
pub fn sort_by_label(outlets: &mut [Outlet])
    ensures sorted { IsSortedByLabel outlets.new }
    ensures permutation { IsPermutation outlets.old outlets.new }
{
    outlets.sort_unstable();
}

/// The no-data numbers of con, dir, acc and bas. An audit looks at no other ones, so windows that differ in another one
/// are still windows of one union.
#[derive(Clone, Copy, PartialEq, Eq, Debug)]
pub struct AuditNoData {
    pub con: i64,
    pub dir: i64,
    pub acc: i64,
    pub bas: i64,
}

impl Model for AuditNoData {
    ghost use Rattle.drain_union.specs.Names.{pos, NoDataNumbers, AreNoDataInRange};

    ghost Value = { NoDataNumbers };

    ghost view = { λ n. record { con = n.con; dir = n.dir; acc = n.acc; bas = n.bas; spl = pos 0; rnk = pos 0 } };

    ghost invariant = { λ n. AreNoDataInRange (record { con = n.con; dir = n.dir; acc = n.acc; bas = n.bas; spl = pos 0; rnk = pos 0 }) };

    ghost inverse = { λ n. record { con = n.con; dir = n.dir; acc = n.acc; bas = n.bas } };
}

impl AuditNoData {
    /// Those of an audit among the no-data numbers of all products.
    pub fn of(nodata: NoData) -> AuditNoData
        ensures { result ≡ audited nodata }
    {
        AuditNoData {
            con: nodata.con,
            dir: nodata.dir,
            acc: nodata.acc,
            bas: nodata.bas,
        }
    }
}

/// What a window shows at a cell of the union.
#[derive(Clone, Copy, PartialEq, Eq, Debug)]
pub struct Shown {
    pub cell: Cell,
    pub values: SeamValues,
}

/// The spacing of a row of a window, from a report's list: a row after the last one listed is as that one, and cells are
/// square if none is listed.
pub fn spacing_at(listed: &[Spacing], row: u32) -> Spacing
    ensures { result ≡ spacing_at listed.now row }
{
    match listed.last() {
        Some(last) => match listed.get(row as usize) {
            Some(spacing) => *spacing,
            None => *last,
        },
        None => Spacing::unit(),
    }
}

/// Whether two spacings are the same, for heights of one kind.
pub fn same_spacing(a: Spacing, b: Spacing) -> bool
    ensures { IsTrue result ↔ (a ≡ b) }
{
    a.width == b.width && a.height == b.height && a.kind == b.kind
}

/// A report on one window: where it lies, how far apart the cells of its rows are (`spacing_at`), the no-data numbers,
/// whether the rules hold at its judged cells, and if they do, the outlets there, what it shows along its seams, and the
/// listed sinks there.
#[derive(Drop)]
pub struct Report {
    pub place: Place,
    pub spacings: Vec<Spacing>,
    pub nodata: AuditNoData,
    pub holds: bool,
    pub outlets: Vec<Outlet>,
    pub seams: Vec<Shown>,
    pub sinks: Vec<Cell>,
}

impl Model for Report {
    ghost use Rattle.drain_union.specs.Reports;

    ghost Value = { Reports.Report };

    ghost view = { λ r. record { place = r.place; spacings = r.spacings.items; nodata = r.nodata; holds = r.holds; outlets = r.outlets.items; seams = r.seams.items; sinks = r.sinks.items } };
}

/// The report on a window with what a user and a merge need beside it: the grid whose rows and columns it counts, the names
/// of the tiles, and the verdict on the judged cells, with the size of the window and its counts, or with the first fault
/// in the window's rows and columns.
#[derive(Drop)]
pub struct WindowReport {
    pub grid: UnionGrid,
    pub tiles: Vec<TileName>,
    pub verdict: UnionVerdict,
    pub report: Report,
}
