//! The rules of the conditioned elevation at a cell: BelowGround to NotLeast.
//!
//! Products keep these rules at every cell only if `con` is the least surface from which water gets out (`drain_grid`'s
//! DESIGN.md, `least_from_rules`). They are a crate of their own because they depend on nothing else of a cell: no
//! direction, sum or label. One call looks at one cell and takes no memory.
//!
//! Source: the rules are the local form of the surface that Priority-Flood makes (Barnes, Lehman and Mulla 2014). The
//! spill parent is the cell from which that algorithm reaches a cell, and the rank falls along spill parents, as the
//! order of the visits does. That a certificate shows both, and the rules' wording, are this project's own.
#![tactic(auto)]

pub mod below;
pub mod least_way;
pub mod opening;
mod surface;

ghost use Rattle.std.specs.Prelude.{◌≡◌, ◌↔◌, ◌<ℤ◌};
ghost use Rattle.drain_fill.specs.Names.{IsTrue, Some, int_max, IsOpen, height, fill_rules, BelowGroundHolds, OpenRaisedHolds, NotLeastHolds, IsFillRule, IsAboveRule, IsLevelRule, IsSpillRule, IsLeastFault};

pub use below::first_below;
use drain_grid::{CellValues, Patch, Rule};
pub use least_way::greatest_allowed;
pub use opening::{Opening, opening_of};
pub use surface::{fault_above_profile2, fault_profile2, is_unraised_where_open};

/// The first of the six rules that fails at the cell, none if they all hold. A void keeps them all.
pub fn fault(patch: &Patch) -> Option<Rule>
    ensures least { IsLeastFault IsFillRule (fill_rules patch.now) result }
{
    if is_above_ground(patch) {
        fault_above(patch)
    } else {
        Some(Rule::BelowGround)
    }
}

/// The first of the five rules after BelowGround that fails at a cell that is not below its ground, none if they all
/// hold.
///
/// The cells of a row before the place that `first_below` returns are such cells.
pub fn fault_above(patch: &Patch) -> Option<Rule>
    requires above { BelowGroundHolds patch.now }
    ensures least { IsLeastFault IsAboveRule (fill_rules patch.now) result }
{
    let Some(ground) = patch.here.z else {
        return None;
    };
    if let Some(rule) = level_fault(patch, ground) {
        return Some(rule);
    }
    if is_least(patch, ground) {
        None
    } else {
        Some(Rule::NotLeast)
    }
}

/// Whether the cell is not below its ground. A void never is.
pub fn is_above_ground(patch: &Patch) -> bool
    ensures { IsTrue result ↔ BelowGroundHolds patch.now }
{
    match patch.here.z {
        Some(ground) => ground <= patch.here.con,
        None => true,
    }
}

/// The first of them except NotLeast that fails at a data cell, none if they hold.
fn level_fault(patch: &Patch, ground: i64) -> Option<Rule>
    requires { patch.now.here.z ≡ Some ground }
    ensures least { IsLeastFault IsLevelRule (fill_rules patch.now) result }
{
    if !patch.is_open() {
        return spill_fault(patch, ground);
    }
    if is_unraised(patch, ground) {
        None
    } else {
        Some(Rule::OpenRaised)
    }
}

/// Whether an open cell is neither raised nor has a spill parent.
fn is_unraised(patch: &Patch, ground: i64) -> bool
    requires elevation { patch.now.here.z ≡ Some ground }
    requires opened { IsOpen patch.now }
    ensures { IsTrue result ↔ OpenRaisedHolds patch.now }
{
    patch.here.con == ground && patch.here.spl == 0
}

/// The first of the rules on spill parents that fails at a cell that is not open, none if they all hold.
fn spill_fault(patch: &Patch, ground: i64) -> Option<Rule>
    requires elevation { patch.now.here.z ≡ Some ground }
    requires closed { ¬ IsOpen patch.now }
    ensures least { IsLeastFault IsSpillRule (fill_rules patch.now) result }
{
    let Some(direction) = patch.here.spill_direction() else {
        return Some(Rule::NoSpill);
    };
    // A data cell with no neighbour in some direction would be open.
    let Some(parent) = patch.neighbor(direction) else {
        unreachable!()
    };
    if !is_raised_to(patch, ground, &parent) {
        Some(Rule::SpillHeight)
    } else if !is_after(patch, &parent) {
        Some(Rule::SpillRank)
    } else {
        None
    }
}

/// Whether the cell is raised to its spill parent, and no further.
fn is_raised_to(patch: &Patch, ground: i64, parent: &CellValues) -> bool
    requires { patch.now.here.z ≡ Some ground }
    ensures { IsTrue result ↔ (patch.now.here.con ≡ int_max (height patch.now) parent.now.con) }
{
    patch.here.con == ground.max(parent.con)
}

/// Whether the spill parent has a smaller rank.
fn is_after(patch: &Patch, parent: &CellValues) -> bool
    ensures { IsTrue result ↔ (parent.now.rnk <ℤ patch.now.here.rnk) }
{
    parent.rnk < patch.here.rnk
}

/// Whether no neighbour shows a lower way out: only a cell above its ground can have one.
pub fn is_least(patch: &Patch, ground: i64) -> bool
    requires { patch.now.here.z ≡ Some ground }
    ensures { IsTrue result ↔ NotLeastHolds patch.now }
{
    patch.here.con <= ground || !patch.has_lower()
}
