//! Every row of a grid and its products, read one after another and shown to a visitor.

ghost use Rattle.std.specs.Prelude.{◌≡◌, ◌<◌, ◌+◌, ◌⊎◌};
ghost use Rattle.drain_rows.specs.Names.{ℕ, [], length, None, IfOk, IfErr, OnErr, OnOk, MAX_LENGTH, Grid, Products, spacing_of, AreRowNumbers, RowNumbers, blank, patch_in};
ghost use Rattle.drain_rows.specs.GridRows.{OfGrid, ReadsOn, IsRowsStop, AreListedVoids, OfNotedRow};
ghost use Rattle.drain_rows.specs.RowBuffers.{LanesMatch, buffer_numbers};
ghost use Rattle.drain_rows.specs.declared.row_visitor.WalkStop.TheVariants as walk_stop;

use crate::grid_rows::GridRows;
use crate::listed_voids::ListedVoids;
use crate::row_buffer::RowBuffer;
use crate::row_visitor::{RowVisitor, WalkStop};
use crate::window::{Window, read_marked};
use drain_grid::{OutOfMemory, Rules, Shape, Sinks, Spacings};
use drain_rules::ThreeRows;
use drain_rules::laws::three_rows_show_patches;
use std::alloc::Global;

/// Shows the visitor each row of the grid of this shape, with these sinks and spaced so, whose rows the source gives, and
/// returns the listed sinks that are voids.
///
/// It asks for one row more than there are, and gets none. It stops if the source does, or if memory runs out where the
/// visitor needs memory or there are sinks.
pub fn visit_rows<T, P, S: GridRows<T, P>, K: RowVisitor>(
    alloc: Global,
    shape: Shape,
    sinks: &Sinks,
    spacings: &Spacings,
    rules: &Rules,
    source: &mut S,
    tiles: &mut [T],
    products: &mut P,
    notes: &mut K,
) -> Result<ListedVoids, WalkStop<S::Stop>>
    requires counted { length tiles.old ≡ S.count source.old }
    requires uncounted { K.counts 0 notes.old }
    requires unnoted { (g : Grid) (ps : Products) → K.are_of rules.now g ps 0 notes.old }
    ensures voids { IfOk result (λ voids. OfGrid (S.gives (source.old, tiles.old, products.old)) shape sinks.now (spacing_of spacings.now) (λ g ps. AreListedVoids g voids)) }
    ensures noted { OnOk result (OfGrid (S.gives (source.old, tiles.old, products.old)) shape sinks.now (spacing_of spacings.now) (λ g ps. K.are_of rules.now g ps g.extent.rows notes.new)) }
    ensures lasting { OnOk result (K.lasting notes.new ≡ K.lasting notes.old) }
    ensures given { OnOk result ((rows : ℕ → RowNumbers) → S.gives (source.old, tiles.old, products.old) rows 0 → S.gives (source.new, tiles.new, products.new) rows (shape.rows + 1)) }
    ensures reads { OnOk result (ReadsOn S.has_read (source.old, tiles.old, products.old) (source.new, tiles.new, products.new) (shape.rows + 1) None) }
    ensures stops { IfErr result (IsRowsStop S.has_read (source.old, tiles.old, products.old) (source.new, tiles.new, products.new)
        (OfGrid (S.gives (source.old, tiles.old, products.old)) shape sinks.now (spacing_of spacings.now) (K.wants rules.now) ⊎ ¬ (sinks.now ≡ []))) }
{
    // An array is dropped by one call, in few steps of a proof; each of a window's many members takes its own.
    let mut window = [Window::new(alloc)];
    let mut voids = ListedVoids::new(alloc);
    note_rows(
        shape,
        sinks,
        spacings,
        rules,
        source,
        tiles,
        products,
        notes,
        &mut window[0],
        &mut voids,
    )?;
    Ok(voids)
}

/// Notes each row of the grid and its listed sinks that are voids, from an empty window and an empty list.
fn note_rows<T, P, S: GridRows<T, P>, K: RowVisitor>(
    shape: Shape,
    sinks: &Sinks,
    spacings: &Spacings,
    rules: &Rules,
    source: &mut S,
    tiles: &mut [T],
    products: &mut P,
    notes: &mut K,
    window: &mut Window,
    voids: &mut ListedVoids,
) -> Result<(), WalkStop<S::Stop>>
    requires counted { length tiles.old ≡ S.count source.old }
    requires uncounted { K.counts 0 notes.old }
    requires unnoted { (g : Grid) (ps : Products) → K.are_of rules.now g ps 0 notes.old }
    requires here { buffer_numbers window.old.here ≡ blank }
    requires here_lanes { LanesMatch window.old.here }
    requires none { voids.old ≡ [] }
    ensures voids { OnOk result (OfGrid (S.gives (source.old, tiles.old, products.old)) shape sinks.now (spacing_of spacings.now) (λ g ps. AreListedVoids g voids.new)) }
    ensures noted { OnOk result (OfGrid (S.gives (source.old, tiles.old, products.old)) shape sinks.now (spacing_of spacings.now) (λ g ps. K.are_of rules.now g ps g.extent.rows notes.new)) }
    ensures lasting { OnOk result (K.lasting notes.new ≡ K.lasting notes.old) }
    ensures given { OnOk result ((rows : ℕ → RowNumbers) → S.gives (source.old, tiles.old, products.old) rows 0 → S.gives (source.new, tiles.new, products.new) rows (shape.rows + 1)) }
    ensures reads { OnOk result (ReadsOn S.has_read (source.old, tiles.old, products.old) (source.new, tiles.new, products.new) (shape.rows + 1) None) }
    ensures stops { IfErr result (IsRowsStop S.has_read (source.old, tiles.old, products.old) (source.new, tiles.new, products.new)
        (OfGrid (S.gives (source.old, tiles.old, products.old)) shape sinks.now (spacing_of spacings.now) (K.wants rules.now) ⊎ ¬ (sinks.now ≡ []))) }
{
    // The law that builds a row's patches from three rows.
    three_rows_show_patches();
    read_marked(
        source,
        tiles,
        products,
        0,
        sinks,
        spacings,
        rules.judged,
        false,
        &mut window.below,
        voids,
    )?;
    for row in 0..shape.rows() {
        window.turn();
        // Below a row with lanes of 32 bits they are taken too: the lanes of three rows are compared.
        let wide = window.here.is_wide();
        read_marked(
            source,
            tiles,
            products,
            row + 1,
            sinks,
            spacings,
            rules.judged,
            wide,
            &mut window.below,
            voids,
        )?;
        let shown = window.rows();
        note_row(notes, &window.here, &shown, rules)?;
    }
    Ok(())
}

/// Notes a row of the grid.
fn note_row<K: RowVisitor, E>(
    notes: &mut K,
    row: &RowBuffer,
    rows: &ThreeRows<'_>,
    rules: &Rules,
) -> Result<(), WalkStop<E>>
    requires whole { AreRowNumbers (buffer_numbers row.now) }
    requires counted { (n : ℕ) × (n < MAX_LENGTH) × K.counts n notes.old }
    ensures counted { OnOk result ((n : ℕ) → K.counts n notes.old → K.counts (n + 1) notes.new) }
    ensures noted { OnOk result (OfNotedRow (buffer_numbers row.now) (length rows.now.here.numbers.z) (patch_in rows.now)
        (λ g ps r. K.are_of rules.now g ps r notes.old → K.are_of rules.now g ps (r + 1) notes.new)) }
    ensures lasting { OnOk result (K.lasting notes.new ≡ K.lasting notes.old) }
    ensures wants { OnErr result (OfNotedRow (buffer_numbers row.now) (length rows.now.here.numbers.z) (patch_in rows.now)
        (λ g ps r. K.are_of rules.now g ps r notes.old → K.wants rules.now g ps)) }
    ensures err { IfErr result (λ stop. stop ≡ walk_stop.OutOfMemory) }
{
    match notes.note(row, rows, rules) {
        Ok(()) => Ok(()),
        Err(OutOfMemory) => Err(WalkStop::OutOfMemory),
    }
}
