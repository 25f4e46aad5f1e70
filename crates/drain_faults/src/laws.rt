//! What the definitions of this crate name, and how they fit together.

ghost use Rattle.std.specs.Prelude.{◌≡◌, ◌↔◌};
ghost use Rattle.drain_faults.specs.Names.{SetProduct, Patch, VoidCell, Missing, Rules, tried};
ghost use Rattle.drain_faults.specs.ByProduct.{MissingHoldsOf, VoidCellHoldsOf};

use crate::fault_map::{SOUND, SOUND_VOID};

/// The numerals of the constants that definitions name: the numbers on a map where no rule fails, neither of them a
/// rule's. This project's own.
pub fn constants()
    ensures sound { SOUND ≡ 0 }
    ensures sound_void { SOUND_VOID ≡ 255 }
{}

/// The rules VoidCell and Missing hold at a cell exactly if each judged product keeps its part of them.
pub fn rules_by_product()
    ensures void_cell { (rules : Rules) (p : Patch) → tried rules p VoidCell ↔ ((product : SetProduct) → VoidCellHoldsOf rules product p) }
    ensures missing { (rules : Rules) (p : Patch) → tried rules p Missing ↔ ((product : SetProduct) → MissingHoldsOf rules product p) }
{}
