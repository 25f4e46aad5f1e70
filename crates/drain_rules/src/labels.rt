//! What a walk keeps of the outlets that it passes.

ghost use Rattle.std.specs.Prelude.{◌≡◌, ◌↔◌, ◌&&◌, ◌+◌, ◌<◌, ◌≤◌};
ghost use Rattle.drain_rules.specs.Names.{IsTrue, is_some, pos, ℕ, Bool, true, IfOk, OnOk, OnErr, int_eq, Cell, MAX_LENGTH, IsEarlier, Grid, Products, IsInside, values_at, SharedLabelHolds, Values};
ghost use Rattle.drain_rules.specs.Labels.{IsOutletByCode};
ghost use Rattle.drain_rules.specs.declared.walk.Area.{Area};
ghost use Rattle.drain_rules.specs.Areas.{HasCell, IsOutletCell, everywhere};
ghost use Rattle.drain_rules.specs.Compared.{IfCompared};
ghost use Rattle.drain_rules.specs.Rows.{place};

use crate::walk::{Area, admits_label};
use drain_basin::OutletLabels;
use drain_grid::{Cell, CellValues, OutOfMemory};

/// Whether the values are those of a data cell with the code of an outlet, 0.
pub fn is_outlet_by_code(here: &CellValues) -> bool
    ensures outlet { IsTrue result ↔ IsOutletByCode here.now }
    ensures test { result ≡ (is_some here.now.z && int_eq here.now.dir (pos 0)) }
{
    here.z.is_some() && here.dir == 0
}

/// What is kept of the outlets among the judged cells, and which cells these are.
///
/// Labels are compared by the set of them, which judges all cells; or outlets are listed, to be compared later.
pub trait Labels {
    /// Whether the labels of outlets are compared.
    ghost compares: { Bool };

    /// The cells that are judged.
    ghost judges: { Self → Area };

    /// It is kept of the judged outlets before this place in row order.
    ghost are_before: { Grid → Products → Cell → Self → Type 0 };

    /// None of the outlets has the label of a cell with these values, if it is an outlet.
    ghost is_new: { Self → Values → Type 0 };

    /// A cell with these values is kept too, if it is an outlet.
    ghost adds: { Values → Cell → Self → Self → Type 0 };

    /// The cells that are judged.
    fn area(&self) -> Area
        ensures { result ≡ judges self.now };

    /// Keeps the cell with these values if it is an outlet, and returns whether its label is new.
    fn keep(&mut self, here: &CellValues, cell: Cell) -> Result<bool, OutOfMemory>
        requires row { cell.row < MAX_LENGTH }
        requires col { cell.col < MAX_LENGTH }
        ensures is_new { IfOk result (λ new. IsTrue new ↔ IfCompared compares (is_new self.old here.now)) }
        ensures adds { OnOk result (adds here.now cell self.old self.new) }
        ensures judges { judges self.new ≡ judges self.old }
        ensures err { OnErr result (IsOutletByCode here.now × IfCompared compares (is_new self.old here.now)) };

    /// With a judged cell it is kept of the outlets before the next place.
    ghost one_more: { (g : Grid) (ps : Products) (row col : ℕ) (here : Values) (old new : Self) → IsInside g (place row col) → HasCell (judges old) (place row col)
        → here ≡ values_at g ps (place row col) → adds here (place row col) old new → are_before g ps (place row col) old → are_before g ps (place row (col + 1)) new };

    /// Cells that aren't judged outlets change nothing.
    ghost passed: { (g : Grid) (ps : Products) (p q : Cell) (labels : Self) → g.extent.cols ≤ MAX_LENGTH → p.row ≤ MAX_LENGTH → q.row ≤ MAX_LENGTH
        → ((c : Cell) → HasCell (judges labels) c → IsOutletCell g ps c → IsEarlier c p ↔ IsEarlier c q) → are_before g ps p labels → are_before g ps q labels };

    /// Compared labels show whether SharedLabel holds.
    ghost tells_shared: { (g : Grid) (ps : Products) (c : Cell) (labels : Self) → IsTrue compares → IsInside g c → are_before g ps c labels
        → is_new labels (values_at g ps c) ↔ SharedLabelHolds g ps c };

    /// Labels are compared of all cells.
    ghost of_all: { (labels : Self) → IsTrue compares → judges labels ≡ everywhere };
}

impl Labels for OutletLabels {
    ghost use Rattle.std.specs.Prelude.{◌↔◌, ◌⊎◌};
    ghost use Rattle.drain_rules.specs.Names.{true, refl, ℤ, IsAdmitted};
    ghost use Rattle.drain_rules.specs.Areas.{everywhere};
    ghost use Rattle.drain_rules.specs.Labels.{AreLabelsBefore, HasNoLabel, IsLabelOf};
    ghost use Rattle.drain_rules.specs.Laws.{labels-more, labels-passed, labels-shared};

    ghost compares = { true };

    ghost judges = { λ labels. everywhere };

    ghost are_before = { AreLabelsBefore };

    ghost is_new = { HasNoLabel };

    ghost adds = { λ here cell old new. (label : ℤ) → IsAdmitted new label ↔ (IsLabelOf here label ⊎ IsAdmitted old label) };

    ghost one_more = { λ g ps row col here old new inside judged is adds before. labels-more g ps row col here old new inside is before adds };

    ghost passed = { labels-passed };

    ghost tells_shared = { λ g ps c labels compared inside before. labels-shared g ps labels c inside before };

    ghost of_all = { λ labels compared. refl };

    fn area(&self) -> Area {
        Area::everywhere()
    }

    fn keep(&mut self, here: &CellValues, _cell: Cell) -> Result<bool, OutOfMemory> {
        admits_label(self, here)
    }
}
