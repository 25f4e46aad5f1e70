//! The first rule that fails at a cell, of those about some rasters that look at its patch only.

ghost use Rattle.std.specs.Prelude.{◌↔◌};
ghost use Rattle.drain_rules.specs.Names.{IsTrue, IsCode, BelowGroundHolds, IsBetween, IsLeastFault, IsOnly, IsPatchRule, IsPresenceRule, IsBlankPart, IsCompletePart, part_rules};

use crate::patch_rules::fill_fault;
use drain_grid::{CellValues, Patch, Rule, Rules};

/// The first of the rules from VoidCell to Label about the judged rasters, without ranks, that fails at the cell, none if
/// they all hold. Rules about other rasters hold.
///
/// If the cell is known not to be below its ground (`is_above`), that isn't checked again.
pub fn part_fault(patch: &Patch, rules: &Rules, is_above: bool) -> Option<Rule>
    requires { IsTrue is_above → BelowGroundHolds patch.now }
    ensures least { IsLeastFault IsPatchRule (part_rules rules.now.judged rules.now.nodata patch.now) result }
{
    if let Some(rule) = presence_fault(patch, rules) {
        return Some(rule);
    }
    if let Some(rule) = fill_fault(patch, is_above) {
        return Some(rule);
    }
    flow_fault(patch, rules)
}

/// The first of the rules on which numbers are there that fails at the cell, none if they all hold.
fn presence_fault(patch: &Patch, rules: &Rules) -> Option<Rule>
    ensures least { IsLeastFault IsPresenceRule (part_rules rules.now.judged rules.now.nodata patch.now) result }
{
    match patch.here.z {
        None if is_blank(&patch.here, rules) => None,
        None => Some(Rule::VoidCell),
        Some(_) if !is_complete(&patch.here, rules) => Some(Rule::Missing),
        Some(_) if !rules.judged.has_dir() || has_code(&patch.here) => None,
        Some(_) => Some(Rule::BadCode),
    }
}

/// Whether con, and each of dir, acc and bas that is judged, has its no-data number.
pub(crate) fn is_blank(here: &CellValues, rules: &Rules) -> bool
    ensures { IsTrue result ↔ IsBlankPart rules.now.judged rules.now.nodata here.now }
{
    let judged = rules.judged;
    let nodata = &rules.nodata;
    here.con == nodata.con
        && (!judged.has_dir() || here.dir == nodata.dir)
        && (!judged.has_acc() || here.acc == nodata.acc)
        && (!judged.has_bas() || here.bas == nodata.bas)
}

/// Whether none of them has it.
fn is_complete(here: &CellValues, rules: &Rules) -> bool
    ensures { IsTrue result ↔ IsCompletePart rules.now.judged rules.now.nodata here.now }
{
    let judged = rules.judged;
    let nodata = &rules.nodata;
    here.con != nodata.con
        && (!judged.has_dir() || here.dir != nodata.dir)
        && (!judged.has_acc() || here.acc != nodata.acc)
        && (!judged.has_bas() || here.bas != nodata.bas)
}

/// Whether the direction is 0 or one of the eight codes.
fn has_code(here: &CellValues) -> bool
    ensures { IsTrue result ↔ IsCode here.now.dir }
{
    here.dir == 0 || here.direction().is_some()
}

/// The first of the rules from Slope to Label that fails at the cell, none if they all hold.
fn flow_fault(patch: &Patch, rules: &Rules) -> Option<Rule>
    ensures least { IsLeastFault (IsBetween 10 14) (part_rules rules.now.judged rules.now.nodata patch.now) result }
{
    if !rules.judged.has_dir() {
        return None;
    }
    if let Some(rule) = drain_slope::fault(patch) {
        return Some(rule);
    }
    if let Some(rule) = drain_flat::fault_without_ranks(patch) {
        return Some(rule);
    }
    if let Some(rule) = sum_fault(patch, rules) {
        return Some(rule);
    }
    label_fault(patch, rules)
}

/// Accumulation if it fails at the cell, none if it holds or isn't judged.
fn sum_fault(patch: &Patch, rules: &Rules) -> Option<Rule>
    ensures least { IsLeastFault (IsOnly Rule.Accumulation) (part_rules rules.now.judged rules.now.nodata patch.now) result }
{
    if rules.judged.has_acc() {
        drain_accum::fault(patch)
    } else {
        None
    }
}

/// Label if it fails at the cell, none if it holds or labels aren't judged.
fn label_fault(patch: &Patch, rules: &Rules) -> Option<Rule>
    ensures least { IsLeastFault (IsOnly Rule.Label) (part_rules rules.now.judged rules.now.nodata patch.now) result }
{
    if rules.judged.has_bas() {
        drain_basin::fault(patch)
    } else {
        None
    }
}
