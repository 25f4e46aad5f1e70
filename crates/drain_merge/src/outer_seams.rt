//! What windows show along the seams of the box that they fill.

ghost use Rattle.std.specs.Prelude.{◌≡◌, ◌↔◌, ◌+◌, ◌<◌};
ghost use Rattle.drain_merge.specs.Names.{ℕ, IsTrue, IfOk, length, slice_index_or, Contains, IsOuter, SEAM_DEPTH};
ghost use Rattle.drain_union.specs.declared.report.Shown.{Shown as ShownOf};

use drain_grid::{Cell, OutOfMemory};
use drain_union::{Place, SEAM_DEPTH, Shown};
use std::alloc::Global;

/// Of what is shown, what lies along the seams of the box. Of neighbours that are the same one is kept.
pub(crate) fn outer_seams(
    alloc: Global,
    bounds: &Place,
    shown: &[Shown],
) -> Result<Vec<Shown>, OutOfMemory>
    ensures { IfOk result (λ outer. (x : ShownOf) → Contains outer.items x ↔ (IsOuter SEAM_DEPTH bounds.now x.cell × Contains shown.now x)) }
{
    let mut outer = Vec::new(alloc);
    for place in 0..shown.len() {
        let here = shown[place];
        if is_outer(bounds, here.cell) && !is_shown_before(shown, place) {
            outer.push(here)?;
        }
    }
    Ok(outer)
}

/// Whether the one at this place is the same as the one before it.
fn is_shown_before(shown: &[Shown], place: usize) -> bool
    requires { place < length shown.now }
    ensures { IsTrue result → (before : ℕ) × (before + 1 ≡ place) × ((d : ShownOf) → slice_index_or shown.now before d ≡ slice_index_or shown.now place d) }
{
    place > 0 && same_shown(&shown[place - 1], &shown[place])
}

/// Whether the two are the same.
fn same_shown(a: &Shown, b: &Shown) -> bool
    ensures { IsTrue result → a.now ≡ b.now }
{
    a.cell == b.cell && a.values.is(&b.values)
}

/// Whether the map's cell lies along a seam of the box.
fn is_outer(bounds: &Place, cell: Cell) -> bool
    ensures { IsTrue result ↔ IsOuter SEAM_DEPTH bounds.now cell }
{
    if cell.row < bounds.top || cell.col < bounds.left {
        return false;
    }
    let here = Cell {
        row: cell.row - bounds.top,
        col: cell.col - bounds.left,
    };
    bounds.is_on_seam(SEAM_DEPTH, here)
}
