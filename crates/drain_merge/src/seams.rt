//! What windows show along their seams.

ghost use Rattle.std.specs.Prelude.{◌↔◌};
ghost use Rattle.drain_merge.specs.Names.{IsTrue, IsPermutation};
ghost use Rattle.drain_merge.specs.Seams.{AreInRowOrder, Differ, IsFirstDifference, IsFirstDiffering};

use drain_grid::Cell;
use drain_union::Shown;

/// The first cell, in row order, at which two of these show other values. The list is sorted for this.
pub fn first_difference(seams: &mut [Shown]) -> Option<Cell>
    ensures first { IsFirstDifference seams.old result }
    ensures theirs { IsPermutation seams.old seams.new }
{
    sort_shown(seams);
    let place = first_differing(seams)?;
    Some(seams[place].cell)
}

/// Sorts what is shown in row order.
fn sort_shown(seams: &mut [Shown])
    ensures theirs { IsPermutation seams.old seams.new }
    ensures order { AreInRowOrder seams.new }
{
    seams.sort_unstable_by_key(|shown| shown.cell);
}

/// The first place in the list at which other values are shown than at the place before, and the same cell.
fn first_differing(seams: &[Shown]) -> Option<usize>
    ensures { IsFirstDiffering seams.now result }
{
    for place in 1..seams.len() {
        if differ(&seams[place - 1], &seams[place]) {
            return Some(place);
        }
    }
    None
}

/// Whether the two are of one cell and show other values.
fn differ(x: &Shown, y: &Shown) -> bool
    ensures { IsTrue result ↔ Differ x.now y.now }
{
    x.cell == y.cell && !x.values.is(&y.values)
}
