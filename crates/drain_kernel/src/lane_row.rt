//! A row of lanes with heights of one width, and its numbers at a column.

ghost use Rattle.std.specs.Prelude.{◌≡◌, IsTrue, length, map, slice_index};

use crate::around::height_at;
use crate::height_lanes::HeightLanes;
use crate::lane_height::LaneHeight;
use crate::product_lanes::ProductLanes;
use drain_grid::NoData;
use drain_pixels::row_lanes::HeightLane;
use std::marker::Model;

/// The numbers of a row, with heights in lanes of this width.
#[derive(Drop)]
pub(crate) struct LaneRow<'a, H: HeightLane> {
    pub(crate) heights: &'a HeightLanes<H>,
    pub(crate) products: &'a ProductLanes,
}

impl<'a, H: HeightLane> Model for LaneRow<'a, H> {
    ghost use Rattle.std.specs.Prelude.{◌≡◌, vec_len};
    ghost use Rattle.drain_kernel.specs.LaneNumbers.{LaneNumbers};

    ghost Value = { LaneNumbers };

    ghost use Rattle.drain_kernel.specs.LanesOf.{lanes_of};

    ghost view = { λ row. lanes_of H.bias H.number row.heights.now row.products.now };

    ghost invariant = { λ row. vec_len row.products.now.dir ≡ vec_len row.heights.now.z };
}

impl<H: LaneHeight> LaneRow<'_, H> {
    ghost use Rattle.std.specs.Prelude.{◌≤◌, ◌<◌, ◌-◌, ◌+◌, ◌^◌, ◌↔◌, ◌≢◌};
    ghost use Rattle.drain_kernel.specs.Names.{cond, pos, AreCapped, AreLower, AreUpper};
    ghost use Rattle.drain_kernel.specs.Columns.{is_raised_at, raised_lanes};
    ghost use Rattle.drain_kernel.specs.Images.{at_most, lower, upper};
    ghost use Rattle.drain_kernel.specs.Shown.{cols, HasDataAt, HasRanks, lowered};

    /// How many columns there are.
    pub(crate) fn cols(&self) -> usize
        ensures { result ≡ cols self.now }
    {
        self.heights.z.len()
    }

    /// What was added to its heights.
    #[inline(always)]
    pub(crate) fn tell_bias(&self)
        ensures { self.now.bias ≡ H.bias }
    {
        let _ = &self.heights;
    }

    /// The column right of one.
    #[inline(always)]
    pub(crate) fn right_of(&self, k: usize) -> usize
        requires { k < cols self.now }
        ensures { result ≡ k + 1 }
    {
        let cols = self.cols();
        if k < cols { k + 1 } else { cols }
    }

    /// The stored elevations: 0 at a void, else with the bias added.
    #[inline(always)]
    pub(crate) fn heights(&self) -> &[H]
        ensures len { length result.now ≡ cols self.now }
        ensures are { map H.number result.now ≡ self.now.z }
    {
        &self.heights.z
    }

    /// The stored conditioned elevations.
    #[inline(always)]
    pub(crate) fn cons(&self) -> &[H]
        ensures len { length result.now ≡ cols self.now }
        ensures are { map H.number result.now ≡ self.now.con }
    {
        &self.heights.con
    }

    /// The codes.
    #[inline(always)]
    pub(crate) fn codes(&self) -> &[u16]
        ensures len { length result.now ≡ cols self.now }
        ensures are { result.now ≡ self.now.dir }
    {
        &self.products.dir
    }

    /// The accumulations.
    #[inline(always)]
    pub(crate) fn accs(&self) -> &[u32]
        ensures len { length result.now ≡ cols self.now }
        ensures are { result.now ≡ self.now.acc }
    {
        &self.products.acc
    }

    /// The accumulations, capped.
    #[inline(always)]
    pub(crate) fn capped_accs(&self) -> &[u16]
        ensures len { length result.now ≡ cols self.now }
        ensures are { AreCapped self.now.acc result.now (cols self.now) }
    {
        &self.products.capped_acc
    }

    /// The labels.
    #[inline(always)]
    pub(crate) fn labels(&self) -> &[u32]
        ensures len { length result.now ≡ cols self.now }
        ensures are { result.now ≡ self.now.bas }
    {
        &self.products.bas
    }

    /// Whether it has ranks.
    pub(crate) fn has_ranks(&self) -> bool
        ensures { IsTrue result → HasRanks self.now }
    {
        self.products.rnk.len() == self.products.dir.len()
    }

    /// The ranks, capped.
    #[inline(always)]
    pub(crate) fn capped_ranks(&self) -> &[u16]
        requires { HasRanks self.now }
        ensures len { length result.now ≡ cols self.now }
        ensures are { AreCapped self.now.rnk result.now (cols self.now) }
    {
        &self.products.capped_rnk
    }

    /// The lower halves of the ranks.
    #[inline(always)]
    pub(crate) fn low_ranks(&self) -> &[u16]
        requires { HasRanks self.now }
        ensures len { length result.now ≡ cols self.now }
        ensures are { AreLower self.now.rnk result.now (cols self.now) }
    {
        &self.products.low_rnk
    }

    /// The upper halves of the ranks.
    #[inline(always)]
    pub(crate) fn high_ranks(&self) -> &[u16]
        requires { HasRanks self.now }
        ensures len { length result.now ≡ cols self.now }
        ensures are { AreUpper self.now.rnk result.now (cols self.now) }
    {
        &self.products.high_rnk
    }

    /// The stored elevation at a column.
    #[inline(always)]
    pub(crate) fn height(&self, k: usize) -> H
        requires { k < cols self.now }
        ensures { H.number result ≡ slice_index self.now.z k }
    {
        height_at(self.heights(), k)
    }

    /// Whether it is that of a void.
    #[inline(always)]
    pub(crate) fn has_data(&self, k: usize) -> bool
        requires { k < cols self.now }
        ensures { IsTrue result ↔ HasDataAt self.now k }
    {
        !self.height(k).is_void()
    }

    /// The stored conditioned elevation at a column.
    #[inline(always)]
    pub(crate) fn con(&self, k: usize) -> H
        requires { k < cols self.now }
        ensures { H.number result ≡ slice_index self.now.con k }
    {
        height_at(self.cons(), k)
    }

    /// Whether the conditioned elevation at a column isn't its no-data number.
    #[inline(always)]
    pub(crate) fn con_differs(&self, k: usize, nodata: &NoData) -> bool
        requires { k < cols self.now }
        ensures { IsTrue result → lowered self.now.bias (slice_index self.now.con k) ≢ nodata.now.con }
    {
        self.tell_bias();
        self.con(k).con_differs(nodata)
    }

    /// The code at a column.
    #[inline(always)]
    pub(crate) fn code(&self, k: usize) -> u16
        requires { k < cols self.now }
        ensures { result ≡ slice_index self.now.dir k }
    {
        self.codes()[k]
    }

    /// The accumulation at a column.
    #[inline(always)]
    pub(crate) fn acc(&self, k: usize) -> u32
        requires { k < cols self.now }
        ensures { result ≡ slice_index self.now.acc k }
    {
        self.accs()[k]
    }

    /// The same, capped.
    #[inline(always)]
    pub(crate) fn capped_acc(&self, k: usize) -> u16
        requires { k < cols self.now }
        ensures { result ≡ at_most (slice_index self.now.acc k) }
    {
        self.capped_accs()[k]
    }

    /// The label at a column.
    #[inline(always)]
    pub(crate) fn label(&self, k: usize) -> u32
        requires { k < cols self.now }
        ensures { result ≡ slice_index self.now.bas k }
    {
        self.labels()[k]
    }

    /// The rank at a column.
    #[inline(always)]
    pub(crate) fn rank(&self, k: usize) -> u32
        requires { k < length self.now.rnk }
        ensures { result ≡ slice_index self.now.rnk k }
    {
        self.products.rnk[k]
    }

    /// The same, capped.
    #[inline(always)]
    pub(crate) fn capped_rank(&self, k: usize) -> u16
        requires inside { k < cols self.now }
        requires ranks { HasRanks self.now }
        ensures { result ≡ at_most (slice_index self.now.rnk k) }
    {
        self.capped_ranks()[k]
    }

    /// Its lower half.
    #[inline(always)]
    pub(crate) fn low_rank(&self, k: usize) -> u16
        requires inside { k < cols self.now }
        requires ranks { HasRanks self.now }
        ensures { result ≡ lower (slice_index self.now.rnk k) }
    {
        self.low_ranks()[k]
    }

    /// Its upper half.
    #[inline(always)]
    pub(crate) fn high_rank(&self, k: usize) -> u16
        requires inside { k < cols self.now }
        requires ranks { HasRanks self.now }
        ensures { result ≡ upper (slice_index self.now.rnk k) }
    {
        self.high_ranks()[k]
    }

    /// 1 where con is above the ground, else 0.
    #[inline(always)]
    fn raised(&self, k: usize) -> u32
        requires { k < cols self.now }
        ensures number { result ≡ cond (is_raised_at self.now k) 1 0 }
        ensures small { result ≤ 1 }
    {
        if self.height(k).is_below(self.con(k)) {
            1
        } else {
            0
        }
    }

    /// How many columns from one up to another have con above the ground.
    #[inline(never)]
    #[tactic(auto, using(crate::proofs::Counting::one_more))]
    pub(crate) fn raised_between(&self, from: usize, end: usize) -> u32
        requires ordered { from ≤ end }
        requires inside { end ≤ cols self.now }
        requires fits { end - from < 2 ^ 32 }
        ensures { result ≡ raised_lanes self.now from end }
    {
        let mut count = 0u32;
        for k in from..end {
            count += self.raised(k);
        }
        count
    }
}
