//! What the definitions of this crate mean together, and what they say of a surface that keeps rules 4, 5 and 9.
//!
//! A law is a function with an empty body: its contract is the law.

ghost use Rattle.drain_filled.specs.Laws.{OneLeastSurface, SameCellsSameSurface, RulesKeepConBetween, RulesKeepConLow, SameNumbersSameCell, UnfilledIsTooLow};

/// Two least surfaces of a grid are equal at each data cell.
pub fn one_least_surface()
    ensures { OneLeastSurface }
{}

/// Where a grid has the cells of another, and a surface its numbers, it is the least surface of the one if the other
/// is that of the other.
pub fn same_cells_same_surface()
    ensures { SameCellsSameSurface }
{}

/// Where rules 4, 5 and 9 hold at every cell, the conditioned elevation is nowhere above the least surface.
pub fn rules_keep_con_low()
    ensures { RulesKeepConLow }
{}

/// Where they do, it is below the least surface at its first cell that isn't filled.
pub fn unfilled_is_too_low()
    ensures { UnfilledIsTooLow }
{}

/// Where a surface has the numbers of another at data cells, it isn't filled at the same first cell.
pub fn same_numbers_same_cell()
    ensures { SameNumbersSameCell }
{}

/// Where rules 4, 5 and 9 hold at every cell, the conditioned elevation lies between the bounds of the elevations.
pub fn rules_keep_con_between()
    ensures { RulesKeepConBetween }
{}
