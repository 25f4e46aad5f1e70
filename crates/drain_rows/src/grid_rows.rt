//! The source of the rows of a grid and its products together.

ghost use Rattle.std.specs.Prelude.{◌≡◌};
ghost use Rattle.drain_rows.specs.Names.{ℕ, List, length, Option, Some, None, OnOk, IfErr, RowNumbers, AreRowNumbers};
ghost use Rattle.drain_rows.specs.GridRows.{IsNext, ReadsOn};
ghost use Rattle.drain_rows.specs.RowBuffers.{buffer_numbers};

use crate::row_buffer::RowBuffer;

/// A reader of a grid's rows, the northernmost first; each call borrows the tiles and products.
pub trait GridRows<T, P> {
    /// Why it stops before the last row.
    type Stop;

    /// How many tiles it reads.
    ghost count: { Self → ℕ };

    /// From such tiles and products it gives these rows, from this one on.
    ghost gives: { Self × List T × P → (ℕ → RowNumbers) → ℕ → Type 0 };

    /// This number of calls leads from the one state to the other; the last may have stopped.
    ghost has_read: { Self × List T × P → Self × List T × P → ℕ → Option Self.Stop → Type 0 };

    /// Reads the next row into the buffer; none after the last.
    fn read_row(
        &mut self,
        tiles: &mut [T],
        products: &mut P,
        out: &mut RowBuffer,
    ) -> Result<(), Self::Stop>
        requires counted { length tiles.old ≡ count self.old }
        ensures counted { count self.new ≡ count self.old }
        ensures as_many { length tiles.new ≡ length tiles.old }
        ensures next { OnOk result (IsNext (gives (self.old, tiles.old, products.old)) (gives (self.new, tiles.new, products.new)) (buffer_numbers out.new)) }
        ensures whole { OnOk result (AreRowNumbers (buffer_numbers out.new)) }
        ensures reads { OnOk result (ReadsOn has_read (self.old, tiles.old, products.old) (self.new, tiles.new, products.new) 1 None) }
        ensures stops { IfErr result (λ stop. ReadsOn has_read (self.old, tiles.old, products.old) (self.new, tiles.new, products.new) 1 (Some stop)) };
}
