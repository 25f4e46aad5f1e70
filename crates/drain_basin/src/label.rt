//! The label of a cell and of the cell that its direction names.

ghost use Rattle.std.specs.Prelude.{◌≡◌, ◌↔◌, ℤ, IfSome, IsTrue, MatchOption};
ghost use Rattle.drain_basin.specs.Ahead.{IsLabelAhead};
ghost use Rattle.drain_grid.specs.Patch.{IsDataCell};
ghost use Rattle.drain_grid.specs.PatchRules.{flow_rules, LabelHolds};
ghost use Rattle.drain_grid.specs.Rule.{IsOnly, IsLeastFault};

use drain_grid::{Patch, Rule};

/// The rule Label, if it fails at the cell, none if it holds. A void keeps it.
pub fn fault(patch: &Patch) -> Option<Rule>
    ensures least { IsLeastFault (IsOnly Rule.Label) (flow_rules patch.now) result }
{
    if keeps_label(patch) {
        None
    } else {
        Some(Rule::Label)
    }
}

/// Whether the label is that of the data neighbour that the direction names, if there is one.
fn keeps_label(patch: &Patch) -> bool
    ensures { IsTrue result ↔ LabelHolds patch.now }
{
    if patch.here.z.is_none() {
        return true;
    }
    match expected_label(patch) {
        Some(label) => patch.here.bas == label,
        None => true,
    }
}

/// The label with which a data cell keeps the rule: that of the data neighbour that its direction names. None if it
/// names none: then any label keeps the rule.
pub fn expected_label(patch: &Patch) -> Option<i64>
    ensures label { MatchOption result ((label : ℤ) → ¬ IsLabelAhead patch.now label) (IsLabelAhead patch.now) }
    ensures keeps { IsDataCell patch.now → LabelHolds patch.now ↔ IfSome result (λ label. patch.now.here.bas ≡ label) }
{
    let direction = patch.here.direction()?;
    let next = patch.neighbor(direction)?;
    if next.z.is_some() {
        Some(next.bas)
    } else {
        None
    }
}
