//! Which of the rules that are tried and look at a patch only fail at a cell.
//!
//! Of each group of rules the crates below return the least that fails. If one can hide another of its group, that
//! other is checked alone.

ghost use Rattle.drain_faults.specs.CellFaults.{IsFirstNoted, IsWith, TellsFault, of_rule};
ghost use Rattle.std.specs.Prelude.{◌≡◌, ◌↔◌, ◌&&◌};
ghost use Rattle.drain_faults.specs.Names.{false, IsTrue, Some, None, Rule, IsLeastFault, IsPatchRule, part_rules, tried, has_rnk};
ghost use Rattle.drain_grid.specs.Direction.{IsCode};
ghost use Rattle.drain_grid.specs.PatchRules.{BadCodeWithoutSpill, NotLeastHolds, OpenRaisedWithoutSpill};
ghost use Rattle.drain_kernel.specs.Rules.{rules_with};

use crate::per_rule::PerRule;
use drain_fill::{is_above_ground, is_least, is_unraised_where_open};
use drain_grid::{Cell, CellValues, Judged, Patch, Rule, Rules};
use drain_rules::part_rules::part_fault;
use drain_rules::patch_rules::{flat_fault, presence_fault};

/// A cell at which a rule fails, its patch, and the least rule that fails there.
#[derive(Clone, Copy, PartialEq, Eq, Debug)]
pub struct FaultyPatch {
    pub cell: Cell,
    pub patch: Patch,
    pub rule: Rule,
}

/// Keeps the first so far; without one it is this cell, if a rule fails here, with the least such rule. Cells come in
/// row order.
pub fn note_patch(first: &mut Option<FaultyPatch>, cell: Cell, patch: &Patch, least: Option<Rule>)
    ensures { IsFirstNoted least cell patch.now first.old first.new }
{
    match first {
        Some(_) => {}
        None => {
            if let Some(rule) = least {
                *first = Some(FaultyPatch {
                    cell,
                    patch: *patch,
                    rule,
                });
            }
        }
    }
}

/// For each of the rules without ranks whether it is about judged rasters and fails at the cell. SharedLabel doesn't look
/// at the patch only, and counts as not failing.
pub(crate) fn part_faults(patch: &Patch, rules: &Rules) -> PerRule<bool>
    ensures each { (r : Rule) → IsPatchRule r → TellsFault (of_rule result r) (part_rules rules.now.judged rules.now.nodata patch.now r) }
    ensures shared_label { result.shared_label ≡ false }
{
    match part_fault(patch, rules, false) {
        None => PerRule::same(false),
        Some(first) => faults_from(first, patch, rules),
    }
}

/// The same at a cell at which this is the least rule that fails.
fn faults_from(first: Rule, patch: &Patch, rules: &Rules) -> PerRule<bool>
    requires { IsLeastFault IsPatchRule (part_rules rules.now.judged rules.now.nodata patch.now) (Some first) }
    ensures each { (r : Rule) → IsPatchRule r → TellsFault (of_rule result r) (part_rules rules.now.judged rules.now.nodata patch.now r) }
    ensures shared_label { result.shared_label ≡ false }
{
    let without_ranks = Rules {
        nodata: rules.nodata,
        judged: Judged::All,
    };
    let all = whole_faults(patch, &without_ranks);
    let has_dir = rules.judged.has_dir();
    PerRule {
        void_cell: is_rule(first, Rule::VoidCell),
        missing: is_rule(first, Rule::Missing),
        bad_code: are_both(has_dir, all.bad_code),
        below_ground: all.below_ground,
        open_raised: all.open_raised,
        no_spill: false,
        spill_height: false,
        spill_rank: false,
        not_least: all.not_least,
        slope: are_both(has_dir, all.slope),
        outlet_code: are_both(has_dir, all.outlet_code),
        flat_step: are_both(has_dir, all.flat_step),
        accumulation: are_both(rules.judged.has_acc(), all.accumulation),
        label: are_both(rules.judged.has_bas(), all.label),
        shared_label: all.shared_label,
    }
}

/// Whether the first rule is the other.
fn is_rule(first: Rule, rule: Rule) -> bool
    ensures { IsTrue result ↔ (first ≡ rule) }
{
    first == rule
}

/// Whether a raster is judged and its rule fails.
fn are_both(is_judged: bool, fails: bool) -> bool
    ensures { result ≡ (is_judged && fails) }
{
    is_judged && fails
}

/// The cells at which a rule fails.
#[derive(Clone, Copy, PartialEq, Eq, Debug)]
pub struct RuleFaults {
    /// How many they are.
    pub cells: u32,
    /// The first of them in row order, none if there is none.
    pub first: Option<Cell>,
}

impl RuleFaults {
    /// No cell.
    pub fn none() -> RuleFaults
        ensures { result ≡ record { cells = 0; first = None } }
    {
        RuleFaults {
            cells: 0,
            first: None,
        }
    }

    /// With one cell more, if the rule fails there. Cells come in row order.
    pub fn with(self, cell: Cell, fails: bool) -> RuleFaults
        ensures { IsWith cell fails self result }
    {
        if !fails {
            return self;
        }
        RuleFaults {
            cells: self.cells.saturating_add(1),
            first: Some(self.first.unwrap_or(cell)),
        }
    }
}

/// Adds one cell, at which these rules fail. Where none does nothing is written.
pub fn note_rules(faults: &mut PerRule<RuleFaults>, cell: Cell, fails: &PerRule<bool>)
    ensures { (r : Rule) → IsWith cell (of_rule fails.now r) (of_rule faults.old r) (of_rule faults.new r) }
{
    if fails.least().is_some() {
        *faults = with_cell(faults, cell, fails);
    }
}

/// The same of each rule.
fn with_cell(so_far: &PerRule<RuleFaults>, cell: Cell, fails: &PerRule<bool>) -> PerRule<RuleFaults>
    ensures { (r : Rule) → IsWith cell (of_rule fails.now r) (of_rule so_far.now r) (of_rule result r) }
{
    PerRule {
        void_cell: so_far.void_cell.with(cell, fails.void_cell),
        missing: so_far.missing.with(cell, fails.missing),
        bad_code: so_far.bad_code.with(cell, fails.bad_code),
        below_ground: so_far.below_ground.with(cell, fails.below_ground),
        open_raised: so_far.open_raised.with(cell, fails.open_raised),
        no_spill: so_far.no_spill.with(cell, fails.no_spill),
        spill_height: so_far.spill_height.with(cell, fails.spill_height),
        spill_rank: so_far.spill_rank.with(cell, fails.spill_rank),
        not_least: so_far.not_least.with(cell, fails.not_least),
        slope: so_far.slope.with(cell, fails.slope),
        outlet_code: so_far.outlet_code.with(cell, fails.outlet_code),
        flat_step: so_far.flat_step.with(cell, fails.flat_step),
        accumulation: so_far.accumulation.with(cell, fails.accumulation),
        label: so_far.label.with(cell, fails.label),
        shared_label: so_far.shared_label.with(cell, fails.shared_label),
    }
}

/// For each rule whether it is tried and fails at the cell. SharedLabel doesn't look at the patch only, and counts as not
/// failing.
pub fn patch_faults(patch: &Patch, rules: &Rules) -> PerRule<bool>
    ensures each { (r : Rule) → IsPatchRule r → TellsFault (of_rule result r) (tried rules.now patch.now r) }
    ensures shared_label { result.shared_label ≡ false }
{
    match rules.judged {
        Judged::All | Judged::AllWithRanks => whole_faults(patch, rules),
        Judged::Con | Judged::ConDir | Judged::ConDirAcc | Judged::ConDirBas => {
            part_faults(patch, rules)
        }
    }
}

/// The same of the rules about all rasters, with ranks if these are judged.
pub(crate) fn whole_faults(patch: &Patch, rules: &Rules) -> PerRule<bool>
    ensures each { (r : Rule) → IsPatchRule r → TellsFault (of_rule result r) (rules_with (has_rnk rules.now.judged) rules.now.nodata patch.now r) }
    ensures shared_label { result.shared_label ≡ false }
{
    let presence = presence_fault(patch, rules);
    let slope = drain_slope::fault(patch);
    PerRule {
        void_cell: is_fault(presence, Rule::VoidCell),
        missing: is_fault(presence, Rule::Missing),
        bad_code: !keeps_code(patch),
        below_ground: !is_above_ground(patch),
        open_raised: !keeps_open_ground(patch),
        no_spill: false,
        spill_height: false,
        spill_rank: false,
        not_least: !keeps_least(patch),
        slope: is_fault(slope, Rule::Slope),
        outlet_code: is_fault(slope, Rule::OutletCode),
        flat_step: is_fault(flat_fault(patch, rules), Rule::FlatStep),
        accumulation: is_fault(drain_accum::fault(patch), Rule::Accumulation),
        label: is_fault(drain_basin::fault(patch), Rule::Label),
        shared_label: false,
    }
}

/// Whether the fault is that of the rule.
fn is_fault(fault: Option<Rule>, rule: Rule) -> bool
    ensures { IsTrue result ↔ (fault ≡ Some rule) }
{
    fault == Some(rule)
}

/// Whether a data cell's direction is 0 or one of the eight codes. A void keeps the rule.
fn keeps_code(patch: &Patch) -> bool
    ensures { IsTrue result ↔ BadCodeWithoutSpill patch.now }
{
    patch.here.z.is_none() || has_code(&patch.here)
}

/// Whether the direction is 0 or one of the eight codes.
fn has_code(here: &CellValues) -> bool
    ensures { IsTrue result ↔ IsCode here.now.dir }
{
    here.dir == 0 || here.direction().is_some()
}

/// Whether an open cell is not raised.
fn keeps_open_ground(patch: &Patch) -> bool
    ensures { IsTrue result ↔ OpenRaisedWithoutSpill patch.now }
{
    match patch.here.z {
        Some(ground) => is_unraised_where_open(patch, ground),
        None => true,
    }
}

/// Whether no neighbour of a data cell shows a lower way out.
fn keeps_least(patch: &Patch) -> bool
    ensures { IsTrue result ↔ NotLeastHolds patch.now }
{
    match patch.here.z {
        Some(ground) => is_least(patch, ground),
        None => true,
    }
}
