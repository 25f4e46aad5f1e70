//! The rule on flats at a cell: FlatStep.
//!
//! A closed cell with no lower neighbour has nowhere to fall to, so its direction leads along the flat, to a cell of
//! its own height that is nearer to the outlet. The rank says which is nearer: it falls at each such step, so no walk
//! along a flat comes back to where it was. Any step of that kind keeps the rule. A caller that knows otherwise that
//! walks end needs no ranks: then any step to a cell of the same height keeps it. One call looks at one cell and takes
//! no memory.
//!
//! Source: directions on a flat go from cell to cell back to where Priority-Flood reached it (Barnes, Lehman and
//! Mulla 2014). That a rank shows this at each cell, and the rule's wording, are this project's own.
#![tactic(auto)]

pub mod ways;

ghost use Rattle.std.specs.Prelude.{◌↔◌};
ghost use Rattle.drain_flat.specs.Names.{IsTrue, Direction, IsClosed, HasLower, flow_rules, IsFlatStep, level_rules, IsLevelStep, Values};
ghost use Rattle.drain_grid.specs.Rule.{IsOnly, IsLeastFault};

use drain_grid::{Patch, Rule};
pub use ways::{is_flat_way, is_flat_way_without_ranks};

/// FlatStep if it fails at the cell, none if it holds. An open cell, one with a lower neighbour and a void keep it.
pub fn fault(patch: &Patch) -> Option<Rule>
    ensures least { IsLeastFault (IsOnly Rule.FlatStep) (flow_rules patch.now) result }
{
    if steps_along(patch) || !is_inner_flat(patch) {
        None
    } else {
        Some(Rule::FlatStep)
    }
}

/// The same without ranks: a step to any cell of the same height keeps the rule.
pub fn fault_without_ranks(patch: &Patch) -> Option<Rule>
    ensures least { IsLeastFault (IsOnly Rule.FlatStep) (level_rules patch.now) result }
{
    if steps_level(patch) || !is_inner_flat(patch) {
        None
    } else {
        Some(Rule::FlatStep)
    }
}

/// Whether the direction leads to a data neighbour of the same height and a smaller rank.
fn steps_along(patch: &Patch) -> bool
    ensures { IsTrue result ↔ ((d : Direction) × (n : Values) × IsFlatStep patch.now d n) }
{
    match patch.here.direction() {
        Some(direction) => is_flat_way(patch, direction),
        None => false,
    }
}

/// Whether the direction leads to a data neighbour of the same height.
fn steps_level(patch: &Patch) -> bool
    ensures { IsTrue result ↔ ((d : Direction) × (n : Values) × IsLevelStep patch.now d n) }
{
    match patch.here.direction() {
        Some(direction) => is_flat_way_without_ranks(patch, direction),
        None => false,
    }
}

/// Whether the cell is closed and has no lower neighbour.
fn is_inner_flat(patch: &Patch) -> bool
    ensures { IsTrue result ↔ (IsClosed patch.now × ¬ HasLower patch.now) }
{
    patch.here.z.is_some() && !patch.has_lower() && !patch.is_open()
}
