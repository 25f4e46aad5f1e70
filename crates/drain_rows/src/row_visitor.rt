//! What sees the rows of a grid one after the other.

ghost use Rattle.std.specs.Prelude.{◌≡◌, ◌<◌, ◌+◌};
ghost use Rattle.drain_rows.specs.Names.{ℕ, Bool, length, OnOk, OnErr, MAX_LENGTH, Grid, Products, Rules, AreRowNumbers, patch_in, IsVerdictBy};
ghost use Rattle.drain_rows.specs.RowBuffers.{buffer_numbers};
ghost use Rattle.drain_rows.specs.GridRows.{OfNotedRow};

use crate::row_buffer::RowBuffer;
use drain_basin::OutletLabels;
use drain_grid::{OutOfMemory, Rules, Shape, Verdict};
use drain_rules::{Labels, ThreeRows, Walk};

/// Why a walk over rows stopped before the last: its source stopped, or memory ran out elsewhere.
#[derive(Clone, Copy, PartialEq, Eq, Debug, Drop)]
pub enum WalkStop<E> {
    /// The source of the rows stopped, for this reason.
    Source(E),
    /// Out of memory.
    OutOfMemory,
}

/// Notes of a grid's rows, taken from north to south.
pub trait RowVisitor {
    /// This number of rows was noted, if they are counted.
    ghost counts: { ℕ → Self → Type 0 };

    /// They are of this number of northernmost rows of the grid, under these rules.
    ghost are_of: { Rules → Grid → Products → ℕ → Self → Type 0 };

    /// They may need memory, for such a grid and its products.
    ghost wants: { Rules → Grid → Products → Type 0 };

    /// A fact about the notes that no row changes, such as that a map is among them.
    ghost lasting: { Self → Bool };

    /// Notes the next row under these rules: `row` has its numbers, and `rows` shows it with those above and below it.
    fn note(
        &mut self,
        row: &RowBuffer,
        rows: &ThreeRows<'_>,
        rules: &Rules,
    ) -> Result<(), OutOfMemory>
        requires whole { AreRowNumbers (buffer_numbers row.now) }
        requires counted { (n : ℕ) × (n < MAX_LENGTH) × counts n self.old }
        ensures counted { OnOk result ((n : ℕ) → counts n self.old → counts (n + 1) self.new) }
        ensures noted { OnOk result (OfNotedRow (buffer_numbers row.now) (length rows.now.here.numbers.z) (patch_in rows.now)
            (λ g ps r. are_of rules.now g ps r self.old → are_of rules.now g ps (r + 1) self.new)) }
        ensures lasting { OnOk result (lasting self.new ≡ lasting self.old) }
        ensures err { OnErr result (OfNotedRow (buffer_numbers row.now) (length rows.now.here.numbers.z) (patch_in rows.now)
            (λ g ps r. are_of rules.now g ps r self.old → wants rules.now g ps)) };
}

/// Notes that give the verdict once every row is noted.
pub trait VerdictVisitor: RowVisitor {
    /// The verdict on the grid of this shape, all of whose rows are noted.
    fn verdict(&self, shape: Shape) -> Verdict
        ensures { (rules : Rules) (g : Grid) (ps : Products) → g.extent ≡ shape → Self.are_of rules g ps g.extent.rows self.now → IsVerdictBy rules g ps result };
}

/// Notes of one kind, and of another, which gives the verdict if it can.
#[derive(Drop)]
pub struct BothVisitors<A, B> {
    pub first: A,
    pub second: B,
}

impl<A: RowVisitor, B: RowVisitor> RowVisitor for BothVisitors<A, B> {
    ghost use Rattle.std.specs.Prelude.{◌⊎◌};

    ghost counts = { λ n both. A.counts n both.first × B.counts n both.second };

    ghost are_of = { λ rules g ps rows both. A.are_of rules g ps rows both.first × B.are_of rules g ps rows both.second };

    ghost wants = { λ rules g ps. A.wants rules g ps ⊎ B.wants rules g ps };

    ghost lasting = { λ both. B.lasting both.second };

    fn note(
        &mut self,
        row: &RowBuffer,
        rows: &ThreeRows<'_>,
        rules: &Rules,
    ) -> Result<(), OutOfMemory> {
        self.first.note(row, rows, rules)?;
        self.second.note(row, rows, rules)
    }
}

impl<A: RowVisitor, B: VerdictVisitor> VerdictVisitor for BothVisitors<A, B> {
    fn verdict(&self, shape: Shape) -> Verdict {
        self.second.verdict(shape)
    }
}

impl<L: Labels> RowVisitor for Walk<L> {
    ghost use Rattle.std.specs.Prelude.{◌≡◌, true};
    ghost use Rattle.drain_rules.specs.Compared.{IfCompared};
    ghost use Rattle.drain_rules.specs.Labels.{HasNewLabel};
    ghost use Rattle.drain_rows.specs.GridRows.{IsWalkOf};

    ghost counts = { λ n walk. walk.rows ≡ n };

    ghost are_of = { λ rules g ps rows walk. IsWalkOf L.compares L.judges L.are_before rules g ps rows walk };

    ghost wants = { λ rules g ps. IfCompared L.compares (HasNewLabel rules g ps) };

    ghost lasting = { λ walk. true };

    fn note(
        &mut self,
        _row: &RowBuffer,
        rows: &ThreeRows<'_>,
        rules: &Rules,
    ) -> Result<(), OutOfMemory> {
        self.check_row(rows, rules)
    }
}

impl VerdictVisitor for Walk<OutletLabels> {
    fn verdict(&self, shape: Shape) -> Verdict {
        self.verdict(shape)
    }
}
