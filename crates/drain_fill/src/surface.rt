//! The rules of the conditioned elevation without spill parents: BelowGround, OpenRaised and NotLeast.
//!
//! With the rules on directions they make `con` the least surface from which water gets out (law
//! `least_from_rules_profile2` of `drain_grid`).

ghost use Rattle.std.specs.Prelude.{◌≡◌, ◌↔◌};
ghost use Rattle.drain_fill.specs.Names.{IsTrue, Some, BelowGroundHolds, OpenRaisedWithoutSpill, surface_rules, IsAboveRule, IsFillRule, IsLeastFault};

use crate::{is_above_ground, is_least};
use drain_grid::{Patch, Rule};

/// The first of the three rules that fails at the cell, none if they all hold. A void keeps them all.
pub fn fault_profile2(patch: &Patch) -> Option<Rule>
    ensures least { IsLeastFault IsFillRule (surface_rules patch.now) result }
{
    if is_above_ground(patch) {
        fault_above_profile2(patch)
    } else {
        Some(Rule::BelowGround)
    }
}

/// The first of the two after BelowGround that fails at a cell that is not below its ground, none if they hold.
pub fn fault_above_profile2(patch: &Patch) -> Option<Rule>
    requires above { BelowGroundHolds patch.now }
    ensures least { IsLeastFault IsAboveRule (surface_rules patch.now) result }
{
    let Some(ground) = patch.here.z else {
        return None;
    };
    if !is_unraised_where_open(patch, ground) {
        Some(Rule::OpenRaised)
    } else if is_least(patch, ground) {
        None
    } else {
        Some(Rule::NotLeast)
    }
}

/// Whether the cell isn't open, or is not raised.
pub fn is_unraised_where_open(patch: &Patch, ground: i64) -> bool
    requires { patch.now.here.z ≡ Some ground }
    ensures { IsTrue result ↔ OpenRaisedWithoutSpill patch.now }
{
    !patch.is_open() || patch.here.con == ground
}
