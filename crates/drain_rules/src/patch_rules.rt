//! The first rule that fails at a cell, of those that look at its patch only.

ghost use Rattle.std.specs.Prelude.{◌≡◌, ◌<◌, ◌≤◌};
ghost use Rattle.drain_rules.specs.Names.{ℕ, IsTrue, None, MAX_LENGTH, Patch, BelowGroundHolds, surface_rules, IsLeastFault, IsPatchRule, IsFillRule, IsOnly, IsPresenceRule, IsKept, tried, has_rnk};
ghost use Rattle.drain_rules.specs.Fill.{IsRightVoid};
ghost use Rattle.drain_rules.specs.Rows.{raised_between};
ghost use Rattle.drain_kernel.specs.Rules.{rules_with};

use crate::part_rules::part_fault;
use crate::row_view::Kept;
use drain_grid::{CellValues, Judged, Patch, Rule, Rules};

/// A row of a grid that shows the patch round each of its cells.
pub trait PatchRow {
    /// How many cells the row has.
    ghost len: { Self → ℕ };

    /// The patch that it shows at a column.
    ghost shown: { Self → ℕ → Patch };

    /// How many cells the row has, at most 28,801.
    fn cols(&self) -> u32
        ensures count { result ≡ len self.now }
        ensures narrow { result ≤ MAX_LENGTH };

    /// A number of first cells that are together found not to be below their ground. It may be less than there are.
    fn cells_above_ground(&self) -> u32
        ensures { (col : ℕ) → col < result → col < len self.now → BelowGroundHolds (shown self.now col) };

    /// How far from a column on, up to another, every rule that is tried but SharedLabel is found to hold at data cells that are no
    /// outlets, and how many of them are raised. It may be fewer cells than there are, even none.
    fn kept_from(&self, rules: &Rules, from: u32, end: u32) -> Kept
        requires before { from ≤ end }
        requires inside { end ≤ len self.now }
        ensures forward { from ≤ result.end }
        ensures within { result.end ≤ end }
        ensures kept { (col : ℕ) → from ≤ col → col < result.end → IsKept (tried rules.now) (shown self.now col) }
        ensures raised { result.raised ≡ raised_between (shown self.now) from result.end };

    /// A column, at most `end`, up to which, from one on, all cells are found to be voids at which no rule that is tried fails. It may
    /// be an earlier one, even that column.
    fn voids_until(&self, rules: &Rules, from: u32, end: u32) -> u32
        requires before { from ≤ end }
        requires inside { end ≤ len self.now }
        ensures forward { from ≤ result }
        ensures within { result ≤ end }
        ensures right { (col : ℕ) → from ≤ col → col < result → IsRightVoid (tried rules.now) (shown self.now col) };

    /// Whether every rule that is tried but SharedLabel is found to hold at a column, because the cell is a right outlet. False shows
    /// nothing.
    fn is_right_outlet(&self, rules: &Rules, col: u32) -> bool
        requires { col < len self.now }
        ensures { IsTrue result → IsLeastFault IsPatchRule (tried rules.now (shown self.now col)) None };

    /// The values at a column.
    fn values(&self, col: u32) -> CellValues
        requires { col < len self.now }
        ensures { result ≡ (shown self.now col).here };

    /// The values at a column and those of its neighbours.
    fn patch(&self, col: u32) -> Patch
        requires { col < len self.now }
        ensures { result ≡ shown self.now col };
}

/// The first of the rules from VoidCell to Label that fails at the cell, none if they all hold.
///
/// Only SharedLabel is left: it is about the labels of other cells, wherever they lie.
pub fn patch_fault(patch: &Patch, rules: &Rules) -> Option<Rule>
    ensures least { IsLeastFault IsPatchRule (tried rules.now patch.now) result }
{
    screened_fault(patch, rules, false)
}

/// The first rule that fails at a cell, likewise. If the cell is known not to be below its ground (`is_above`), that isn't
/// checked again.
pub fn screened_fault(patch: &Patch, rules: &Rules, is_above: bool) -> Option<Rule>
    requires { IsTrue is_above → BelowGroundHolds patch.now }
    ensures least { IsLeastFault IsPatchRule (tried rules.now patch.now) result }
{
    match rules.judged {
        Judged::All | Judged::AllWithRanks => whole_fault(patch, rules, is_above),
        Judged::Con | Judged::ConDir | Judged::ConDirAcc | Judged::ConDirBas => {
            part_fault(patch, rules, is_above)
        }
    }
}

/// The first rule about all rasters that fails at a cell, with ranks if these are judged.
fn whole_fault(patch: &Patch, rules: &Rules, is_above: bool) -> Option<Rule>
    requires { IsTrue is_above → BelowGroundHolds patch.now }
    ensures least { IsLeastFault IsPatchRule (rules_with (has_rnk rules.now.judged) rules.now.nodata patch.now) result }
{
    if let Some(rule) = presence_fault(patch, rules) {
        return Some(rule);
    }
    if let Some(rule) = fill_fault(patch, is_above) {
        return Some(rule);
    }
    if let Some(rule) = drain_slope::fault(patch) {
        return Some(rule);
    }
    if let Some(rule) = flat_fault(patch, rules) {
        return Some(rule);
    }
    if let Some(rule) = drain_accum::fault(patch) {
        return Some(rule);
    }
    drain_basin::fault(patch)
}

/// The first of the rules on which numbers are there that fails at the cell, none if they all hold.
pub fn presence_fault(patch: &Patch, rules: &Rules) -> Option<Rule>
    ensures least { IsLeastFault IsPresenceRule (rules_with (has_rnk rules.now.judged) rules.now.nodata patch.now) result }
{
    if rules.judged.has_rnk() {
        patch.presence_fault_profile2(&rules.nodata)
    } else {
        patch.presence_fault_without_ranks(&rules.nodata)
    }
}

/// FlatStep if it fails at the cell, none if it holds.
pub fn flat_fault(patch: &Patch, rules: &Rules) -> Option<Rule>
    ensures least { IsLeastFault (IsOnly Rule.FlatStep) (rules_with (has_rnk rules.now.judged) rules.now.nodata patch.now) result }
{
    if rules.judged.has_rnk() {
        drain_flat::fault(patch)
    } else {
        drain_flat::fault_without_ranks(patch)
    }
}

/// The first of the rules on the conditioned elevation that fails at such a cell, none if they all hold.
pub(crate) fn fill_fault(patch: &Patch, is_above: bool) -> Option<Rule>
    requires { IsTrue is_above → BelowGroundHolds patch.now }
    ensures least { IsLeastFault IsFillRule (surface_rules patch.now) result }
{
    if is_above {
        drain_fill::fault_above_profile2(patch)
    } else {
        drain_fill::fault_profile2(patch)
    }
}
