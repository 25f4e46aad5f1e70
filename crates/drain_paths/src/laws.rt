//! The constants that definitions of this crate name, and what the definitions mean together.
//!
//! A law is a function with an empty body: its contract is the law.

ghost use Rattle.std.specs.Prelude.{◌≡◌};
ghost use Rattle.drain_paths.specs.Names.{Cell, Grid, Products, RunEnds};
ghost use Rattle.drain_paths.specs.declared.endless_path.EndlessPath.{EndlessPath};
ghost use Rattle.drain_paths.specs.EndlessPaths.{IsEndlessPath};
ghost use Rattle.drain_paths.specs.Laws.{CountsKeepRules, CorrectByRouting};

use crate::accumulation::DONE;
use crate::endless_path::RING_TOLD;
use crate::flow::NO_CODE;
use crate::walk::UNKNOWN;

/// The numerals of the constants that definitions name: the greatest number of 32 bits means no number of steps, and at
/// most 20 cells of a ring are reported. The greatest number of 8 bits marks a cell that has passed its count on, and is
/// the code of a cell without data. This project's own.
pub fn constants()
    ensures unknown { UNKNOWN ≡ 4294967295 }
    ensures ring_told { RING_TOLD ≡ 20 }
    ensures handed_on { DONE ≡ 255 }
    ensures no_code { NO_CODE ≡ 255 }
{}

/// A run that is reported as one without an end has none.
pub fn endless_paths_do_not_end()
    ensures { (g : Grid) → (ps : Products) → (start : Cell) → (run : EndlessPath) → IsEndlessPath g ps start run → ¬ RunEnds g ps start }
{}

/// With right counts and labels rules 13 to 15 hold at every cell, and acc and bas are the no-data numbers exactly at
/// voids.
pub fn counts_keep_rules()
    ensures { CountsKeepRules }
{}

/// Products with right counts and labels are correct exactly if their heights and directions are right.
pub fn correct_by_routing()
    ensures { CorrectByRouting }
{}
