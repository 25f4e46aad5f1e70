//! At which cells rules fail, as C reads it: a number of cells and the first of them, for each rule.

ghost use Rattle.std.specs.Prelude.{◌≡◌};
ghost use Rattle.drain_c.specs.Faults.{cells_of, ShowsFaults};

use drain_faults::{PerRule, RuleFaults};
use drain_grid::Cell;

/// The cells at which a rule fails: how many, and the first in row order. Zeros where there is none.
#[derive(Clone, Copy)]
#[repr(C)]
pub struct FaultCells {
    pub cells: u32,
    pub row: u32,
    pub col: u32,
}

/// These of each rule, in the order of their numbers, from rule 1 on.
#[derive(Clone, Copy)]
#[repr(C)]
pub struct Faults {
    pub rules: [FaultCells; 15],
}

/// The cells at which each rule fails.
pub fn faults_of(found: &PerRule<RuleFaults>) -> Faults
    ensures { ShowsFaults found.now result }
{
    Faults {
        rules: [
            cells_of(&found.void_cell),
            cells_of(&found.missing),
            cells_of(&found.bad_code),
            cells_of(&found.below_ground),
            cells_of(&found.open_raised),
            cells_of(&found.no_spill),
            cells_of(&found.spill_height),
            cells_of(&found.spill_rank),
            cells_of(&found.not_least),
            cells_of(&found.slope),
            cells_of(&found.outlet_code),
            cells_of(&found.flat_step),
            cells_of(&found.accumulation),
            cells_of(&found.label),
            cells_of(&found.shared_label),
        ],
    }
}

fn cells_of(faults: &RuleFaults) -> FaultCells
    ensures { result ≡ cells_of faults.now }
{
    let first = match faults.first {
        Some(cell) => cell,
        None => Cell { row: 0, col: 0 },
    };
    FaultCells {
        cells: faults.cells,
        row: first.row,
        col: first.col,
    }
}
