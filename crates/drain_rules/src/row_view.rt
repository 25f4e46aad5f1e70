//! A row of a grid and its products, as slices of numbers and of marks.

ghost use Rattle.std.specs.Prelude.{◌≡◌, ◌<◌, ◌≤◌, ◌↔◌};
ghost use Rattle.drain_rules.specs.Names.{ℕ, false, slice_index_or, IfSome, IsTrue, None, option_copied, length, pos, AreRowHeights, IsBelowAt, MAX_LENGTH, of_product, per_product, IsPixel};
ghost use Rattle.drain_rules.specs.Rows.{values_in, beside, west_neighbor, AreLanesIfAny, AreRowNumbers, grounds};

use crate::screen::{Grounds, cells_above_ground};
use drain_grid::{CellValues, PerProduct, SetProduct};
use drain_kernel::{Lanes, Slopes};
use drain_pixels::{GroundRow, PixelKind, PixelRow};
use std::marker::Model;

/// How many cells from a column on are cleared together, and how many of them are raised. More cells might pass.
#[derive(Clone, Copy, PartialEq, Eq, Debug)]
pub struct Kept {
    /// The first column that isn't cleared.
    pub end: u32,
    pub raised: u32,
}

impl Kept {
    /// No cell from this column on.
    pub fn none(from: u32) -> Kept
        ensures { result ≡ record { end = from; raised = 0 } }
    {
        Kept {
            end: from,
            raised: 0,
        }
    }
}

/// How many marks are looked at in one go. So a row whose cells are checked one by one isn't scanned to its end each
/// time.
const REACH: usize = 128;

/// A place, at most `end`, with no mark from `from` up to it: that of the next mark, if it is among the next 128.
pub fn unmarked_until(marks: &[bool], from: usize, end: usize) -> usize
    requires { from ≤ end }
    ensures forward { from ≤ result }
    ensures within { result ≤ end }
    ensures unmarked { (place : ℕ) → from ≤ place → place < result → slice_index_or marks.now place false ≡ false }
{
    if from >= marks.len() {
        return end;
    }
    let last = end.min(marks.len()).min(from + REACH);
    for place in from..last {
        if marks[place] {
            return place;
        }
    }
    last
}

/// One row: elevations, none at a void, and each product's numbers, as many of each; marks, true at a listed sink; how far
/// apart its cells are; and the lanes of its numbers if they were made. It has no numbers if there is no row; a missing
/// mark means false.
#[derive(Drop)]
pub struct RowView<'a> {
    z: &'a GroundRow,
    sinks: &'a [bool],
    slopes: &'a Slopes,
    products: PerProduct<&'a PixelRow>,
    lanes: Option<&'a Lanes>,
}

impl<'a> Model for RowView<'a> {
    ghost use Rattle.drain_rules.specs.Names.{option_copied, of_product, per_product};
    ghost use Rattle.drain_rules.specs.Rows.{IsLanedRow};
    ghost use Rattle.drain_rules.specs.Rows.{MarkedRow};

    ghost Value = { MarkedRow };

    ghost view = { λ row. record {
      numbers = record { z = row.z.now; products = per_product (λ p. (of_product row.products p).now) };
      sinks = row.sinks.now;
      spacing = row.slopes.now.spacing;
    } };

    ghost invariant = { λ row. IsLanedRow (record { z = row.z.now; products = per_product (λ p. (of_product row.products p).now) }) (option_copied row.lanes) };
}

impl<'a> RowView<'a> {
    /// The row of these numbers and marks, spaced so, with the lanes of the numbers, or none.
    pub fn new(
        z: &'a GroundRow,
        sinks: &'a [bool],
        slopes: &'a Slopes,
        products: PerProduct<&'a PixelRow>,
        lanes: Option<&'a Lanes>,
    ) -> RowView<'a>
        requires numbers { AreRowNumbers (record { z = z.now; products = per_product (λ p. (of_product products p).now) }) }
        requires laned { AreLanesIfAny (record { z = z.now; products = per_product (λ p. (of_product products p).now) }) (option_copied lanes) }
        ensures numbers { result.numbers ≡ record { z = z.entry.now; products = per_product (λ p. (of_product products.entry p).now) } }
        ensures sinks { result.sinks ≡ sinks.entry.now }
        ensures spacing { result.spacing ≡ slopes.entry.now.spacing }
    {
        RowView {
            z,
            sinks,
            slopes,
            products,
            lanes,
        }
    }

    /// How steepness is compared in it, and so how far apart its cells are from their neighbours.
    pub fn slopes(&self) -> &'a Slopes
        ensures { result.now.spacing ≡ self.now.spacing }
    {
        self.slopes
    }

    /// How many columns there are, at most 28,801.
    pub fn cols(&self) -> u32
        ensures count { result ≡ length self.now.numbers.z }
        ensures narrow { result ≤ MAX_LENGTH }
    {
        self.z.len() as u32
    }

    /// The first column whose conditioned elevation is below its ground, else the number of columns. A void counts as
    /// -32768; if a conditioned elevation doesn't fit 16 bits it may be a column before.
    pub fn cells_above_ground(&self) -> u32
        ensures within { result ≤ length self.now.numbers.z }
        ensures above { (col : ℕ) → col < result → ¬ IsBelowAt self.now.numbers.products.con (grounds self.now.numbers.z) col }
        ensures first { AreRowHeights self.now.numbers.products.con → result < length self.now.numbers.z → IsBelowAt self.now.numbers.products.con (grounds self.now.numbers.z) result }
    {
        cells_above_ground(self.products.con, &Grounds { row: self.z }) as u32
    }

    /// A column up to which no cell is marked from this one on: that of the next mark, if it is among the next 128; of
    /// a row without marks the number of columns.
    pub fn unmarked_until(&self, from: usize) -> usize
        requires { from ≤ length self.now.numbers.z }
        ensures forward { from ≤ result }
        ensures within { result ≤ length self.now.numbers.z }
        ensures unmarked { (col : ℕ) → from ≤ col → col < result → slice_index_or self.now.sinks col false ≡ false }
    {
        unmarked_until(self.sinks, from, self.z.len())
    }

    /// The lanes of its numbers, at most 28,801 of each, if they were made.
    pub fn lanes(&self) -> Option<&'a Lanes>
        ensures laned { AreLanesIfAny self.now.numbers (option_copied result) }
        ensures narrow { length self.now.numbers.z ≤ MAX_LENGTH }
    {
        self.lanes
    }

    /// The values of the row at a column; for spill parents, which no set holds, 0. It is inlined, since a patch would
    /// copy them once more.
    #[inline(always)]
    pub fn values(&self, col: usize) -> CellValues
        requires { col < length self.now.numbers.z }
        ensures { result ≡ values_in self.now col }
    {
        CellValues {
            z: self.height(col),
            sink: self.is_sink(col),
            con: self.number(SetProduct::Con, col),
            dir: self.number(SetProduct::Dir, col),
            acc: self.number(SetProduct::Acc, col),
            bas: self.number(SetProduct::Bas, col),
            spl: 0,
            rnk: self.number(SetProduct::Rnk, col),
        }
    }

    /// Whether the column is a void.
    pub fn is_void(&self, col: usize) -> bool
        requires { col < length self.now.numbers.z }
        ensures { IsTrue result ↔ (slice_index_or self.now.numbers.z col None ≡ None) }
    {
        self.height(col).is_none()
    }

    /// The same, none past the last column.
    #[inline(always)]
    pub fn beside(&self, col: usize) -> Option<CellValues>
        ensures { result ≡ beside self.now col }
    {
        if col < self.z.len() {
            Some(self.values(col))
        } else {
            None
        }
    }

    /// The values to the west of a column, none at the first.
    #[inline(always)]
    pub fn west_of(&self, col: usize) -> Option<CellValues>
        ensures { result ≡ west_neighbor self.now col }
    {
        match col {
            0 => None,
            _ => self.beside(col - 1),
        }
    }

    /// The elevation at a column, none at a void.
    #[inline(always)]
    fn height(&self, col: usize) -> Option<i64>
        requires { col < length self.now.numbers.z }
        ensures height { result ≡ slice_index_or self.now.numbers.z col None }
        ensures pixel { IfSome result IsPixel }
    {
        self.z.z(col)
    }

    /// Whether the column is marked.
    fn is_sink(&self, col: usize) -> bool
        ensures { result ≡ slice_index_or self.now.sinks col false }
    {
        self.sinks.get(col) == Some(&true)
    }

    /// The product's number at a column, found soonest in pixels as `make` writes them.
    #[inline(always)]
    fn number(&self, product: SetProduct, col: usize) -> i64
        requires { col < length self.now.numbers.z }
        ensures number { result ≡ slice_index_or (of_product self.now.numbers.products product) col (pos 0) }
        ensures pixel { IsPixel result }
    {
        let numbers = *self.products.of(product);
        numbers.number_soonest(usual_kind(product), col)
    }
}

/// The kind of pixels that `make` writes for a product. No number depends on it.
#[inline(always)]
fn usual_kind(product: SetProduct) -> PixelKind {
    match product {
        SetProduct::Con => PixelKind::I16,
        SetProduct::Dir => PixelKind::U8,
        SetProduct::Acc | SetProduct::Bas | SetProduct::Rnk => PixelKind::U32,
    }
}
