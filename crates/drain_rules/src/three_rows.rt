//! A row of a grid and its products, with the rows above and below it; and the patch round a column.

ghost use Rattle.std.specs.Prelude.{◌≡◌, ◌≤◌, ◌<◌};
ghost use Rattle.drain_rules.specs.Names.{ℕ, IsTrue, length, IsKept, AreLanesOf, tried};
ghost use Rattle.drain_rules.specs.Fill.{IsBlankVoid};
ghost use Rattle.drain_rules.specs.Rows.{values_in};
ghost use Rattle.drain_rules.specs.ThreeRows.{patch_in};

use crate::fill_input::is_blank_void;
use crate::patch_rules::PatchRow;
use crate::row_view::{Kept, RowView};
use drain_grid::{CellValues, Patch, Rules};
use drain_kernel::laws::{lanes_show_numbers, raised_are_counted};
use drain_kernel::{Lanes, falls_at, kept_until, outlet_holds_at};

/// A row, and those above and below it; empty at the grid's edge.
#[derive(Drop)]
pub struct ThreeRows<'a> {
    pub above: RowView<'a>,
    pub here: RowView<'a>,
    pub below: RowView<'a>,
}

impl PatchRow for ThreeRows<'_> {
    ghost use Rattle.std.specs.Prelude.{length};
    ghost use Rattle.drain_rules.specs.ThreeRows.{patch_in};

    ghost len = { λ rows. length rows.here.numbers.z };

    ghost shown = { patch_in };

    fn cols(&self) -> u32 {
        self.here.cols()
    }

    /// Those that the screen of the row finds; of a row with lanes none, since the kernel compares each cell with its
    /// ground.
    fn cells_above_ground(&self) -> u32 {
        match self.here.lanes() {
            Some(_) => 0,
            None => self.here.cells_above_ground(),
        }
    }

    /// Those that the lanes of the three rows clear; none if a row has no lanes.
    fn kept_from(&self, rules: &Rules, from: u32, end: u32) -> Kept {
        let (Some(above), Some(here), Some(below)) = (
            self.above.lanes(),
            self.here.lanes(),
            self.below.lanes(),
        ) else {
            return Kept::none(from);
        };
        // The laws on what lanes show, and how they count raised cells.
        lanes_show_numbers();
        raised_are_counted();
        let first = from as usize;
        let last = cleared_until(self, above, here, below, rules, first, end as usize);
        Kept {
            end: last as u32,
            raised: here.raised_between(first, last),
        }
    }

    /// As far as judged rasters have their no-data numbers at voids.
    fn voids_until(&self, rules: &Rules, from: u32, end: u32) -> u32 {
        let mut col = from;
        while col < end && self.is_blank_void_at(rules, col) {
            col += 1;
        }
        col
    }

    /// Those that the lanes of the three rows show beside voids; none if a row has no lanes, and none without an
    /// accumulation, since an outlet is shown by its sum too.
    fn is_right_outlet(&self, rules: &Rules, col: u32) -> bool {
        if !rules.judged.has_acc() {
            return false;
        }
        let (Some(above), Some(here), Some(below)) = (
            self.above.lanes(),
            self.here.lanes(),
            self.below.lanes(),
        ) else {
            return false;
        };
        // The law on what lanes show.
        lanes_show_numbers();
        outlet_holds_at(above, here, below, self.here.slopes(), rules, col as usize)
    }

    #[inline(always)]
    fn values(&self, col: u32) -> CellValues {
        self.here.values(col as usize)
    }

    fn patch(&self, col: u32) -> Patch {
        let col = col as usize;
        Patch {
            here: self.here.values(col),
            around: [
                self.here.beside(col + 1),
                self.below.beside(col + 1),
                self.below.beside(col),
                self.below.west_of(col),
                self.here.west_of(col),
                self.above.west_of(col),
                self.above.beside(col),
                self.above.beside(col + 1),
            ],
            spacing: self.here.slopes().spacing(),
        }
    }
}

impl ThreeRows<'_> {
    /// Whether the cell at a column is a void at which judged rasters have their no-data numbers.
    fn is_blank_void_at(&self, rules: &Rules, col: u32) -> bool
        requires { col < length self.now.here.numbers.z }
        ensures { IsTrue result → IsBlankVoid rules.now (values_in self.now.here col) }
    {
        let col = col as usize;
        self.here.is_void(col) && is_blank_void(&self.here.values(col), rules)
    }
}

/// How far from a column on, up to another, the lanes of the three rows clear cells: many at once up to a marked cell or a void, and
/// one by one those that lie on their ground, and fall if directions are judged, whatever is beside them.
fn cleared_until(
    rows: &ThreeRows<'_>,
    above: &Lanes,
    here: &Lanes,
    below: &Lanes,
    rules: &Rules,
    from: usize,
    end: usize,
) -> usize
    requires above_lanes { AreLanesOf above.now rows.now.above.numbers.z rows.now.above.numbers.products }
    requires here_lanes { AreLanesOf here.now rows.now.here.numbers.z rows.now.here.numbers.products }
    requires below_lanes { AreLanesOf below.now rows.now.below.numbers.z rows.now.below.numbers.products }
    requires before { from ≤ end }
    requires inside { end ≤ length rows.now.here.numbers.z }
    ensures forward { from ≤ result }
    ensures within { result ≤ end }
    ensures kept { (col : ℕ) → from ≤ col → col < result → IsKept (tried rules.now) (patch_in rows.now col) }
{
    // The law on what lanes show.
    lanes_show_numbers();
    let slopes = rows.here.slopes();
    let mut col = from;
    while col < end {
        let until = rows.here.unmarked_until(col).min(end);
        let stop = kept_until(above, here, below, slopes, rules, col, until);
        if stop == end || !falls_at(above, here, below, slopes, rules, stop) {
            return stop;
        }
        col = stop + 1;
    }
    col
}
