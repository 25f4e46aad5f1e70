//! The walk over the judged cells: every rule about the judged rasters at each, up to the first fault, with the counts of the cells before it.

ghost use Rattle.std.specs.Prelude.{◌≡◌, ◌↔◌, ◌<◌, ◌⊎◌, ◌+◌, ◌^◌, ◌≤◌, ◌&&◌, if◌then◌else◌, ◌*◌};
ghost use Rattle.drain_rules.specs.Names.{IsTrue, ℤ, IfOk, IfErr, OnOk, OnErr, None, int_lt, is_some, unwrap_or, pos, IsAdmitted, MAX_LENGTH, BelowGroundHolds, IsLeastFault, IsPatchRule, tried, int_eq};
ghost use Rattle.drain_rules.specs.Compared.{IfCompared, IsTriedIf, with_labels};
ghost use Rattle.drain_rules.specs.Labels.{HasNoLabel, IsLabelOf, IsOutletByCode, HasNewLabel};
ghost use Rattle.drain_rules.specs.Areas.{IsCellStop, IsAreaStop, IsAreaTally, OfAreaRow, HasRow, AreSound, IsAreaOutcome};
ghost use Rattle.drain_rules.specs.Rows.{place, IsAtMost};
ghost use Rattle.drain_rules.specs.Walks.{IsBounded};

use crate::labels::{Labels, is_outlet_by_code};
use crate::patch_rules::{PatchRow, screened_fault};
use drain_basin::OutletLabels;
use drain_grid::{Cell, CellValues, Counts, OutOfMemory, Rule, Rules, Shape, Verdict};
use std::alloc::Global;

/// The cells of the rows from `top` up to `bottom` and of the columns from `left` up to `right`; the last row and column
/// are those before `bottom` and `right`. Of a grid that ends before, they are those in the grid.
#[derive(Clone, Copy, PartialEq, Eq, Debug)]
pub struct Area {
    pub top: u32,
    pub bottom: u32,
    pub left: u32,
    pub right: u32,
}

impl Area {
    ghost use Rattle.drain_rules.specs.Areas.{HasRow, everywhere};

    /// All cells of any grid.
    pub fn everywhere() -> Area
        ensures { result ≡ everywhere }
    {
        Area {
            top: 0,
            bottom: u32::MAX,
            left: 0,
            right: u32::MAX,
        }
    }

    /// Whether the row is one of its rows.
    pub fn has_row(&self, row: u32) -> bool
        ensures { IsTrue result ↔ HasRow self.now row }
    {
        self.top <= row && row < self.bottom
    }
}

/// Why a walk stops.
#[derive(Clone, Copy, PartialEq, Eq, Debug)]
pub enum Stop {
    /// The first rule that fails at the cell.
    Fault(Rule),
    OutOfMemory,
}

/// The first rule that is tried and fails at a column of a row, SharedLabel left out; none if they all hold.
///
/// If the cell is known not to be below its ground (`is_above`), that isn't checked again. The patch is looked at only
/// where the row doesn't show an outlet that keeps them.
fn fault_at<R: PatchRow>(row: &R, rules: &Rules, col: u32, is_above: bool) -> Option<Rule>
    requires inside { col < R.len row.now }
    requires above { IsTrue is_above → BelowGroundHolds (R.shown row.now col) }
    ensures least { IsLeastFault IsPatchRule (tried rules.now (R.shown row.now col)) result }
{
    if row.is_right_outlet(rules, col) {
        None
    } else {
        screened_fault(&row.patch(col), rules, is_above)
    }
}

/// Tries every rule about the judged rasters at a cell of a row, and keeps it if it is an outlet by its code. Returns
/// its values.
///
/// If the cell is known not to be below its ground (`is_above`), that isn't checked again. `labels` are of the outlets
/// before the cell. They are compared only if labels are judged. The cell is kept only if the other rules hold;
/// `OutOfMemory` comes only from that, at an outlet whose label is new if it is compared.
pub fn check_cell<R: PatchRow, L: Labels>(
    row: &R,
    rules: &Rules,
    cell: Cell,
    is_above: bool,
    labels: &mut L,
) -> Result<CellValues, Stop>
    requires row { cell.row < MAX_LENGTH }
    requires col { cell.col < MAX_LENGTH }
    requires inside { cell.col < R.len row.now }
    requires above { IsTrue is_above → BelowGroundHolds (R.shown row.now cell.col) }
    ensures values { IfOk result (λ here. here ≡ (R.shown row.now cell.col).here) }
    ensures passed { OnOk result (IsLeastFault (IsTriedIf L.compares rules.now.judged) (with_labels (λ v. IfCompared L.compares (L.is_new labels.old v)) (tried rules.now) (R.shown row.now cell.col)) None) }
    ensures adds { OnOk result (L.adds (R.shown row.now cell.col).here cell labels.old labels.new) }
    ensures judges { L.judges labels.new ≡ L.judges labels.old }
    ensures stopped { IfErr result (IsCellStop (tried rules.now) (IsTriedIf L.compares rules.now.judged) (λ v. IfCompared L.compares (L.is_new labels.old v)) (R.shown row.now cell.col)) }
{
    if let Some(rule) = fault_at(row, rules, cell.col, is_above) {
        return Err(Stop::Fault(rule));
    }
    let here = row.values(cell.col);
    match labels.keep(&here, cell) {
        Ok(is_new) => {
            if is_new || !rules.judged.has_bas() {
                Ok(here)
            } else {
                Err(Stop::Fault(Rule::SharedLabel))
            }
        }
        Err(OutOfMemory) => Err(Stop::OutOfMemory),
    }
}

/// Admits the label of an outlet, and returns whether it is new. Another cell has no label to admit, and none that is
/// known.
pub fn admits_label(labels: &mut OutletLabels, here: &CellValues) -> Result<bool, OutOfMemory>
    ensures is_new { IfOk result (λ is_new. IsTrue is_new ↔ HasNoLabel labels.old here.now) }
    ensures labels { OnOk result ((label : ℤ) → IsAdmitted labels.new label ↔ (IsLabelOf here.now label ⊎ IsAdmitted labels.old label)) }
    ensures err { OnErr result (IsOutletByCode here.now × ¬ IsAdmitted labels.old here.now.bas) }
{
    if is_outlet_by_code(here) {
        labels.admit(here.bas)
    } else {
        Ok(true)
    }
}

/// How many of the cells that were passed have data, are raised, and are outlets.
#[derive(Clone, Copy, PartialEq, Eq, Debug)]
pub struct Tally {
    pub data_cells: u32,
    pub raised: u32,
    pub outlets: u32,
}

impl Tally {
    /// No cell was passed.
    pub fn new() -> Tally
        ensures { result ≡ record { data_cells = 0; raised = 0; outlets = 0 } }
    {
        Tally {
            data_cells: 0,
            raised: 0,
            outlets: 0,
        }
    }

    /// Counts one cell more.
    pub fn add(&mut self, here: &CellValues)
        requires fits { self.old.data_cells + 1 < 2 ^ 32 }
        requires raised_within { self.old.raised ≤ self.old.data_cells }
        requires outlets_within { self.old.outlets ≤ self.old.data_cells }
        ensures data_cells { self.new.data_cells ≡ self.old.data_cells + (if is_some here.now.z then 1 else 0) }
        ensures raised { self.new.raised ≡ self.old.raised + (if is_some here.now.z && int_lt (unwrap_or here.now.z (pos 0)) here.now.con then 1 else 0) }
        ensures outlets { self.new.outlets ≡ self.old.outlets + (if is_some here.now.z && int_eq here.now.dir (pos 0) then 1 else 0) }
    {
        if let Some(ground) = here.z {
            self.data_cells += 1;
            if ground < here.con {
                self.raised += 1;
            }
        }
        if is_outlet_by_code(here) {
            self.outlets += 1;
        }
    }

    /// Counts this many more data cells, of which this many are raised and none is an outlet.
    pub fn add_kept(&mut self, cells: u32, raised: u32)
        requires data_fit { self.old.data_cells + cells < 2 ^ 32 }
        requires raised_fit { self.old.raised + raised < 2 ^ 32 }
        ensures data_cells { self.new.data_cells ≡ self.old.data_cells + cells }
        ensures raised { self.new.raised ≡ self.old.raised + raised }
        ensures outlets { self.new.outlets ≡ self.old.outlets }
    {
        self.data_cells += cells;
        self.raised += raised;
    }

    /// Counts the cells of a row more.
    pub fn join(&mut self, row: Tally)
        requires data_fit { self.old.data_cells + row.data_cells < 2 ^ 32 }
        requires raised_fit { self.old.raised + row.raised < 2 ^ 32 }
        requires outlets_fit { self.old.outlets + row.outlets < 2 ^ 32 }
        ensures data_cells { self.new.data_cells ≡ self.old.data_cells + row.data_cells }
        ensures raised { self.new.raised ≡ self.old.raised + row.raised }
        ensures outlets { self.new.outlets ≡ self.old.outlets + row.outlets }
    {
        self.data_cells += row.data_cells;
        self.raised += row.raised;
        self.outlets += row.outlets;
    }
}

/// Where a walk along a row stops, and why.
#[derive(Clone, Copy, PartialEq, Eq, Debug)]
pub struct RowStop {
    pub stop: Stop,
    pub col: u32,
}

/// Tries every rule about the judged rasters at the judged cells of a row, from west to east. `labels` are of the outlets in
/// the rows above, and say which cells of this row are judged.
///
/// The result holds for every grid with this row. `OutOfMemory` comes only at an outlet, whose label is new if it is compared.
pub fn check_row<R: PatchRow, L: Labels>(
    patches: &R,
    rules: &Rules,
    row: u32,
    labels: &mut L,
) -> Result<Tally, RowStop>
    requires row { row < MAX_LENGTH }
    requires judged { HasRow (L.judges labels.old) row }
    ensures tally { IfOk result (λ tally. OfAreaRow row (R.len patches.now) (R.shown patches.now) (λ g ps. L.are_before g ps (place row 0) labels.old)
        (λ g ps. IsAreaTally (tried rules.now) (IsTriedIf L.compares rules.now.judged) (L.judges labels.old) g ps row tally)) }
    ensures labels { OnOk result (OfAreaRow row (R.len patches.now) (R.shown patches.now) (λ g ps. L.are_before g ps (place row 0) labels.old)
        (λ g ps. L.are_before g ps (place (row + 1) 0) labels.new)) }
    ensures judges { L.judges labels.new ≡ L.judges labels.old }
    ensures stopped { IfErr result (λ end. OfAreaRow row (R.len patches.now) (R.shown patches.now) (λ g ps. L.are_before g ps (place row 0) labels.old)
        (λ g ps. IsAreaStop L.compares (tried rules.now) (IsTriedIf L.compares rules.now.judged) (L.judges labels.old) g ps row end)) }
    ensures bounds { IfOk result (IsAtMost MAX_LENGTH) }
    ensures narrow { R.len patches.now ≤ MAX_LENGTH }
{
    let cols = patches.cols();
    let above = patches.cells_above_ground();
    let area = labels.area();
    let end = area.right.min(cols);
    let mut tally = Tally::new();
    let mut col = area.left.min(end);
    while col < end {
        let kept = patches.kept_from(rules, col, end);
        tally.add_kept(kept.end - col, kept.raised);
        col = patches.voids_until(rules, kept.end, end);
        if col < end {
            match check_cell(patches, rules, Cell { row, col }, col < above, labels) {
                Ok(here) => tally.add(&here),
                Err(stop) => return Err(RowStop { stop, col }),
            }
            col += 1;
        }
    }
    Ok(tally)
}

/// The result of the rows so far.
#[derive(Clone, Copy, PartialEq, Eq, Debug)]
pub enum RowOutcome {
    /// Every rule that is tried holds at their judged cells, and these are their counts.
    Sound(Tally),
    /// The first cell where one fails, and the first rule that fails there.
    Faulty(Cell, Rule),
}

/// The result with one more row of the judged area, if those above are sound. `total` counts their judged cells; `labels`
/// are of their outlets.
pub fn find_in_row<R: PatchRow, L: Labels>(
    total: Tally,
    row: u32,
    patches: &R,
    rules: &Rules,
    labels: &mut L,
) -> Result<RowOutcome, OutOfMemory>
    requires row { row < MAX_LENGTH }
    requires judged { HasRow (L.judges labels.old) row }
    requires bounded { IsAtMost (row * MAX_LENGTH) total }
    ensures outcome { IfOk result (λ outcome. OfAreaRow row (R.len patches.now) (R.shown patches.now)
        (λ g ps. AreSound (tried rules.now) (IsTriedIf L.compares rules.now.judged) (L.judges labels.old) g ps row (L.are_before g ps (place row 0) labels.old) total)
        (λ g ps. IsAreaOutcome (tried rules.now) (IsTriedIf L.compares rules.now.judged) (L.judges labels.old) g ps (row + 1) (L.are_before g ps (place (row + 1) 0) labels.new) outcome)) }
    ensures bounded { IfOk result (IsBounded (row + 1)) }
    ensures judges { L.judges labels.new ≡ L.judges labels.old }
    ensures err { OnErr result (OfAreaRow row (R.len patches.now) (R.shown patches.now)
        (λ g ps. AreSound (tried rules.now) (IsTriedIf L.compares rules.now.judged) (L.judges labels.old) g ps row (L.are_before g ps (place row 0) labels.old) total)
        (λ g ps. IfCompared L.compares (HasNewLabel rules.now g ps))) }
{
    match check_row(patches, rules, row, labels) {
        Ok(tally) => {
            let mut sum = total;
            sum.join(tally);
            Ok(RowOutcome::Sound(sum))
        }
        Err(end) => match end.stop {
            Stop::Fault(rule) => Ok(RowOutcome::Faulty(Cell { row, col: end.col }, rule)),
            Stop::OutOfMemory => Err(OutOfMemory),
        },
    }
}

/// How many rows were checked, what is kept of the outlets of their judged cells, and the result.
#[derive(Drop)]
pub struct Walk<L> {
    rows: u32,
    pub labels: L,
    pub outcome: RowOutcome,
    ghost bounded: { IsBounded rows outcome },
}

impl Walk<OutletLabels> {
    ghost use Rattle.std.specs.Prelude.{◌≡◌};
    ghost use Rattle.drain_rules.specs.Names.{Grid, Products, Rules};
    ghost use Rattle.drain_rules.specs.Walks.{IsRightOfAll};
    ghost use Rattle.drain_rules.specs.Verdicts.{IsVerdictBy};

    /// A walk over all cells; no row was checked. This takes no memory.
    pub fn new(alloc: Global) -> Walk<OutletLabels>
        ensures rows { result.rows ≡ 0 }
        ensures outcome { (rules : Rules) (g : Grid) (ps : Products) → IsRightOfAll rules g ps result.rows result.labels result.outcome }
    {
        Walk::begin(OutletLabels::new(alloc))
    }

    /// The verdict on the grid of this shape, after all its rows were checked.
    pub fn verdict(&self, shape: Shape) -> Verdict
        ensures verdict { (rules : Rules) (g : Grid) (ps : Products) → g.extent ≡ shape → self.now.rows ≡ g.extent.rows
            → IsRightOfAll rules g ps self.now.rows self.now.labels self.now.outcome → IsVerdictBy rules g ps result }
    {
        match self.outcome {
            RowOutcome::Sound(total) => Verdict::Accepted(Counts {
                rows: shape.rows(),
                cols: shape.cols(),
                data_cells: total.data_cells,
                raised: total.raised,
                outlets: total.outlets,
            }),
            RowOutcome::Faulty(cell, rule) => Verdict::Rejected {
                rule,
                row: cell.row,
                col: cell.col,
            },
        }
    }
}

impl<L: Labels> Walk<L> {
    ghost use Rattle.std.specs.Prelude.{◌≡◌, ◌<◌, ◌+◌};
    ghost use Rattle.drain_rules.specs.Names.{OnErr, OnOk, MAX_LENGTH, Rules, Grid, Products};
    ghost use Rattle.drain_rules.specs.Compared.{IfCompared};
    ghost use Rattle.drain_rules.specs.Labels.{HasNewLabel};
    ghost use Rattle.drain_rules.specs.Rows.{place};
    ghost use Rattle.drain_rules.specs.Walks.{IsRightOf, OfNextRow};

    /// No row was checked.
    pub fn begin(labels: L) -> Walk<L>
        requires { (g : Grid) (ps : Products) → L.are_before g ps (place 0 0) labels }
        ensures rows { result.rows ≡ 0 }
        ensures labels { result.labels ≡ labels }
        ensures outcome { (rules : Rules) (g : Grid) (ps : Products) → IsRightOf L.compares L.judges L.are_before rules g ps result.rows result.labels result.outcome }
    {
        Walk {
            rows: 0,
            labels,
            outcome: RowOutcome::Sound(Tally::new()),
        }
    }

    /// Checks the next row. After a fault it looks at no more rows. The result is right for these rules if the rows
    /// above were checked with them too.
    ///
    /// `OutOfMemory` comes only at a data cell with code 0. If labels are compared, its label is new, and every rule that
    /// is tried holds there and at each earlier cell: no memory for its label. Then the walk is over.
    pub fn check_row<R: PatchRow>(&mut self, patches: &R, rules: &Rules) -> Result<(), OutOfMemory>
        requires row { self.old.rows < MAX_LENGTH }
        ensures rows { OnOk result (self.new.rows ≡ self.old.rows + 1) }
        ensures judges { L.judges self.new.labels ≡ L.judges self.old.labels }
        ensures outcome { OnOk result (OfNextRow (IsRightOf L.compares L.judges L.are_before rules.now) self.old.rows self.old.labels self.old.outcome (R.len patches.now) (R.shown patches.now)
            (λ g ps. IsRightOf L.compares L.judges L.are_before rules.now g ps self.new.rows self.new.labels self.new.outcome)) }
        ensures err { OnErr result (OfNextRow (IsRightOf L.compares L.judges L.are_before rules.now) self.old.rows self.old.labels self.old.outcome (R.len patches.now) (R.shown patches.now)
            (λ g ps. IfCompared L.compares (HasNewLabel rules.now g ps))) }
    {
        // A row has few columns, also one that isn't judged.
        let _cols = patches.cols();
        if let RowOutcome::Sound(total) = self.outcome {
            if self.labels.area().has_row(self.rows) {
                match find_in_row(total, self.rows, patches, rules, &mut self.labels) {
                    Ok(outcome) => self.outcome = outcome,
                    Err(OutOfMemory) => return Err(OutOfMemory),
                }
            }
        }
        self.rows += 1;
        Ok(())
    }
}
