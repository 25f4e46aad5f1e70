//! A row of a grid and its products, with heights in 16 bits where these are enough, else in 32.

ghost use Rattle.std.specs.Prelude.{◌≡◌};
ghost use Rattle.drain_kernel.specs.Names.{IsTrue, false, length, vec_len, SetProduct, IfJudged, has_rnk, of_product, per_product};
ghost use Rattle.drain_kernel.specs.Columns.{AreLanesOf};
ghost use Rattle.drain_kernel.specs.LanesOf.{lanes_of};

use crate::height_lanes::HeightLanes;
use crate::lane_row::LaneRow;
use crate::product_lanes::ProductLanes;
use drain_grid::{Judged, PerProduct};
use drain_pixels::row_lanes::HeightLane;
use drain_pixels::{GroundRow, PixelRow};
use std::alloc::Global;
use std::marker::Model;

/// The numbers of a row in lanes. It has heights of 16 bits or of 32, or no row.
#[derive(Drop)]
pub struct Lanes {
    narrow: HeightLanes<u16>,
    wide: HeightLanes<u32>,
    is_wide: bool,
    products: ProductLanes,
}

impl Model for Lanes {
    ghost use Rattle.std.specs.Prelude.{◌≡◌, vec_len, if◌then◌else◌};
    ghost use Rattle.drain_kernel.specs.LaneNumbers.{LaneNumbers};

    ghost Value = { LaneNumbers };

    ghost use Rattle.drain_kernel.specs.LanesOf.{lanes_of};

    ghost view = { λ row. if row.is_wide then lanes_of 2147483648 (λ lane. lane) row.wide row.products else lanes_of 32768 (λ lane. lane) row.narrow row.products };

    ghost invariant = { λ row. vec_len row.products.dir ≡ (if row.is_wide then vec_len row.wide.z else vec_len row.narrow.z) };
}

impl Lanes {
    ghost use Rattle.std.specs.Prelude.{◌≤◌, ◌<◌, ◌-◌, ◌^◌, IfSome};
    ghost use Rattle.drain_kernel.specs.Columns.{raised_lanes};
    ghost use Rattle.drain_kernel.specs.Shown.{cols, HasRanks};

    /// No row. It takes no memory.
    pub fn new(alloc: Global) -> Lanes
        ensures { cols result ≡ 0 }
    {
        Lanes {
            narrow: HeightLanes::new(alloc),
            wide: HeightLanes::new(alloc),
            is_wide: false,
            products: ProductLanes::new(alloc),
        }
    }

    /// Whether heights are in 32 bits.
    pub fn is_wide(&self) -> bool {
        self.is_wide
    }

    /// Replaces the row by these numbers, with ranks if they are judged, and returns whether it has them now. Heights
    /// are put in 16 bits, or if these don't hold them or `wide` says so in 32. At each column but voids they must fit
    /// such bits with a sign, z not being the lowest; dir must fit 16 unsigned bits, and the others 32; memory is taken
    /// if there is too little room. Else it has no row.
    pub fn take(
        &mut self,
        z: &GroundRow,
        products: &PerProduct<&PixelRow>,
        judged: Judged,
        wide: bool,
    ) -> bool
        requires { (p : SetProduct) → length (of_product products.now p).now ≡ length z.now }
        ensures lanes { IsTrue result → AreLanesOf self.new z.now (per_product (λ p. (of_product products.now p).now)) }
        ensures ranked { IsTrue result → IfJudged (has_rnk judged) (HasRanks self.new) }
        ensures nothing { result ≡ false → cols self.new ≡ 0 }
    {
        if !wide && take_row(&mut self.narrow, &mut self.products, z, products, judged) {
            self.is_wide = false;
            return true;
        }
        self.is_wide = true;
        take_row(&mut self.wide, &mut self.products, z, products, judged)
    }

    /// How many columns there are.
    pub fn cols(&self) -> usize
        ensures { result ≡ cols self.now }
    {
        self.products.dir.len()
    }

    /// The row, if its heights are in 16 bits.
    pub(crate) fn narrow(&self) -> Option<LaneRow<'_, u16>>
        ensures { IfSome result (λ row. row ≡ self.now) }
    {
        if self.is_wide {
            None
        } else {
            Some(LaneRow {
                heights: &self.narrow,
                products: &self.products,
            })
        }
    }

    /// The row, if its heights are in 32 bits.
    pub(crate) fn wide(&self) -> Option<LaneRow<'_, u32>>
        ensures { IfSome result (λ row. row ≡ self.now) }
    {
        if self.is_wide {
            Some(LaneRow {
                heights: &self.wide,
                products: &self.products,
            })
        } else {
            None
        }
    }

    /// How many columns from one up to another have con above the ground.
    pub fn raised_between(&self, from: usize, end: usize) -> u32
        requires ordered { from ≤ end }
        requires inside { end ≤ cols self.now }
        requires fits { end - from < 2 ^ 32 }
        ensures { result ≡ raised_lanes self.now from end }
    {
        let products = &self.products;
        if self.is_wide {
            let heights = &self.wide;
            LaneRow { heights, products }.raised_between(from, end)
        } else {
            let heights = &self.narrow;
            LaneRow { heights, products }.raised_between(from, end)
        }
    }
}

/// Replaces a row's heights and its other numbers, and returns whether they fit and memory sufficed; else there is no
/// row.
fn take_row<H: HeightLane>(
    heights: &mut HeightLanes<H>,
    others: &mut ProductLanes,
    z: &GroundRow,
    products: &PerProduct<&PixelRow>,
    judged: Judged,
) -> bool
    requires { (p : SetProduct) → length (of_product products.now p).now ≡ length z.now }
    ensures even { vec_len others.new.dir ≡ vec_len heights.new.z }
    ensures lanes { IsTrue result → AreLanesOf (lanes_of H.bias H.number heights.new others.new) z.now (per_product (λ p. (of_product products.now p).now)) }
    ensures ranked { IsTrue result → IfJudged (has_rnk judged) (vec_len others.new.rnk ≡ vec_len heights.new.z) }
    ensures nothing { result ≡ false → vec_len heights.new.z ≡ 0 }
{
    if !heights.take(z, products.con) {
        others.clear();
        return false;
    }
    if !others.take(&heights.z, products, judged) {
        heights.clear();
        return false;
    }
    true
}
