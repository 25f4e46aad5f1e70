//! The walk along one row, patch by patch. It stops at no fault.

ghost use Rattle.std.specs.Prelude.{◌≡◌, ◌↔◌, ◌⊎◌, ◌<◌, ◌+◌};
ghost use Rattle.drain_faults.specs.Names.{IfOk, IsTrue, OnErr, OnOk, ℤ, IsSome, IsAnyRule, IsLeastFault, IsPatchRule, IsAdmitted, has_bas, IsOutletByCode, IsLabelOf, Rule, MAX_LENGTH, cells_above, IsAtMost, CountsAlong};
ghost use Rattle.drain_faults.specs.Noted.{IsNoted};
ghost use Rattle.drain_faults.specs.CellFaults.{HoldsIfTried, TellsFault, of_rule};
ghost use Rattle.drain_faults.specs.FaultMaps.{IsMapOfCells, OfRowDrawn};
ghost use Rattle.drain_faults.specs.FaultWalks.{HasNewOutlet, IsFoundAbove, OfRowFound, OfRowPatches};

use crate::fault_map::{FaultMap, SOUND, SOUND_VOID, draw_cell, draw_run};
use crate::patch_faults::{FaultyPatch, RuleFaults, note_patch, note_rules, patch_faults};
use crate::per_rule::PerRule;
use crate::product_faults::{ProductFaults, note_products};
use drain_basin::OutletLabels;
use drain_grid::{Cell, OutOfMemory, Patch, PerProduct, Rule, Rules};
use drain_rules::PatchRow;
use drain_rules::walk::{Tally, admits_label};

/// The labels of the outlets among the cells scanned if labels are judged, the cells at which each rule fails, those at
/// which each product fails alone, and the first at which any rule does.
#[derive(Drop)]
pub struct FaultTally {
    pub labels: OutletLabels,
    pub by_rule: PerRule<RuleFaults>,
    pub by_product: PerProduct<ProductFaults>,
    pub first: Option<FaultyPatch>,
}

impl FaultTally {
    /// Scans one more cell, the next in row order, with this patch, and returns the least rule that is tried and fails
    /// there. `OutOfMemory` comes only if labels are judged, at an outlet whose label is new.
    pub(crate) fn note(
        &mut self,
        cell: Cell,
        patch: &Patch,
        rules: &Rules,
    ) -> Result<Option<Rule>, OutOfMemory>
        ensures least { IfOk result (λ rule. IsLeastFault IsAnyRule (HoldsIfTried rules.now self.old.labels patch.now) rule) }
        ensures noted { OnOk result (IsNoted rules.now cell patch.now self.old self.new) }
        ensures err { OnErr result (IsTrue (has_bas rules.now.judged) × IsOutletByCode patch.now.here × ¬ IsAdmitted self.old.labels patch.now.here.bas) }
    {
        match cell_faults(patch, rules, &mut self.labels) {
            Ok(fails) => {
                note_rules(&mut self.by_rule, cell, &fails);
                note_products(&mut self.by_product, cell, patch, rules, &fails);
                let rule = fails.least();
                note_patch(&mut self.first, cell, patch, rule);
                Ok(rule)
            }
            Err(OutOfMemory) => Err(OutOfMemory),
        }
    }
}

/// For each rule whether it is tried and fails at a cell. If labels are judged it admits the cell's if it is an outlet by
/// its code, whatever fails there.
///
/// `labels` are those of the outlets before the cell. `OutOfMemory` comes only if labels are judged, at an outlet whose
/// label is new.
pub fn cell_faults(
    patch: &Patch,
    rules: &Rules,
    labels: &mut OutletLabels,
) -> Result<PerRule<bool>, OutOfMemory>
    ensures each { IfOk result (λ faults. (r : Rule) → TellsFault (of_rule faults r) (HoldsIfTried rules.now labels.old patch.now r)) }
    ensures labels { OnOk result (IsTrue (has_bas rules.now.judged) → (label : ℤ) → IsAdmitted labels.new label ↔ (IsLabelOf patch.now.here label ⊎ IsAdmitted labels.old label)) }
    ensures err { OnErr result (IsTrue (has_bas rules.now.judged) × IsOutletByCode patch.now.here × ¬ IsAdmitted labels.old patch.now.here.bas) }
{
    let faults = patch_faults(patch, rules);
    if !rules.judged.has_bas() {
        return Ok(faults);
    }
    match admits_label(labels, &patch.here) {
        Ok(is_new) => Ok(with_shared_label(faults, !is_new)),
        Err(OutOfMemory) => Err(OutOfMemory),
    }
}

/// The same with this value for SharedLabel.
fn with_shared_label(mut faults: PerRule<bool>, shared_label: bool) -> PerRule<bool>
    ensures own { result.shared_label ≡ shared_label }
    ensures others { (r : Rule) → IsPatchRule r → of_rule result r ≡ of_rule faults r }
{
    faults.shared_label = shared_label;
    faults
}

/// Scans the cells of a row, from west to east, after those of the rows above, and returns their counts.
///
/// The result is right for every grid with this row, and so is the map if there is one. `OutOfMemory` comes only with a
/// map, or if labels are judged at an outlet whose label is new.
pub(crate) fn note_row_of<R: PatchRow>(
    found: &mut FaultTally,
    map: &mut Option<FaultMap>,
    row: u32,
    patches: &R,
    rules: &Rules,
) -> Result<Tally, OutOfMemory>
    requires { row < MAX_LENGTH }
    ensures found { OnOk result (OfRowFound rules.now row (R.len patches.now) (R.shown patches.now) found.old (λ g ps. IsFoundAbove rules.now g ps (row + 1) found.new)) }
    ensures map { OnOk result (OfRowDrawn rules.now row (R.len patches.now) (R.shown patches.now) found.old map.old (λ g ps. IsMapOfCells rules.now g ps (cells_above g (row + 1)) map.new)) }
    ensures drawn { OnOk result (IsSome map.new ↔ IsSome map.old) }
    ensures tally { IfOk result (λ tally. OfRowPatches row (R.len patches.now) (R.shown patches.now) (λ g ps. CountsAlong g ps row g.extent.cols tally)) }
    ensures bounds { IfOk result (IsAtMost MAX_LENGTH) }
    ensures err { OnErr result (IsSome map.old ⊎ (IsTrue (has_bas rules.now.judged) × OfRowFound rules.now row (R.len patches.now) (R.shown patches.now) found.old HasNewOutlet)) }
{
    let cols = patches.cols();
    let mut tally = Tally::new();
    let mut col = 0;
    while col < cols {
        let kept = patches.kept_from(rules, col, cols);
        draw_run(map, SOUND, kept.end - col)?;
        tally.add_kept(kept.end - col, kept.raised);
        col = patches.voids_until(rules, kept.end, cols);
        draw_run(map, SOUND_VOID, col - kept.end)?;
        if col < cols {
            let patch = patches.patch(col);
            match found.note(Cell { row, col }, &patch, rules) {
                Ok(least) => draw_cell(map, least, &patch)?,
                Err(OutOfMemory) => return Err(OutOfMemory),
            }
            tally.add(&patch.here);
            col += 1;
        }
    }
    Ok(tally)
}
