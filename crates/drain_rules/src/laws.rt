//! What the definition of a verdict promises.
//!
//! A law is a function with an empty body: its contract is the law, and code that calls it can use the law.

ghost use Rattle.drain_rules.specs.Laws.{EqualGridsHaveOneVerdict};
ghost use Rattle.drain_rules.specs.ThreeRows.{ThreeRowsShowPatches};

/// Grids and products that are equal at the cells of the grid have one verdict, whatever their values elsewhere.
pub fn equal_grids_have_one_verdict()
    ensures { EqualGridsHaveOneVerdict }
{}

/// Three rows of a grid show the patches of the middle one, at every column and edge.
pub fn three_rows_show_patches()
    ensures { ThreeRowsShowPatches }
{}
