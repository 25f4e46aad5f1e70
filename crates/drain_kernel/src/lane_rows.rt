//! A row of lanes with the rows above and below it, all of one width, and the numbers round a column.

ghost use Rattle.std.specs.Prelude.{◌≡◌, IfSome};

use crate::around::{Eight, around, heights_around};
use crate::lane_height::LaneHeight;
use crate::lane_row::LaneRow;
use crate::lanes::Lanes;
use crate::slopes::Slopes;
use drain_grid::Judged;
use drain_pixels::row_lanes::HeightLane;
use std::marker::Model;

/// A row of lanes, and those above and below it; and how steepness is compared in it.
#[derive(Drop)]
pub(crate) struct LaneRows<'a, H: HeightLane> {
    pub(crate) above: LaneRow<'a, H>,
    pub(crate) here: LaneRow<'a, H>,
    pub(crate) below: LaneRow<'a, H>,
    pub(crate) slopes: &'a Slopes,
}

impl<'a, H: HeightLane> Model for LaneRows<'a, H> {
    ghost use Rattle.drain_kernel.specs.LaneNumbers.{ThreeLanes};

    ghost Value = { ThreeLanes };

    ghost view = { λ rows. record { above = rows.above; here = rows.here; below = rows.below; slopes = rows.slopes.now } };
}

impl<'a, H: LaneHeight> LaneRows<'a, H> {
    ghost use Rattle.std.specs.Prelude.{◌≡◌};
    ghost use Rattle.drain_kernel.specs.Names.{IfSome, IsTrue, Some, IfJudged, has_rnk};
    ghost use Rattle.drain_kernel.specs.Columns.{accs_round, codes_round, cons_round, heights_round, labels_round, ranks_round};
    ghost use Rattle.drain_kernel.specs.Eights.{eight};
    ghost use Rattle.drain_kernel.specs.Images.{EachHasImage, at_most, lower, upper};
    ghost use Rattle.drain_kernel.specs.Columns.{AreAsLong, HaveRanks, IsInnerColumn};
    ghost use Rattle.drain_kernel.specs.LaneNumbers.{HaveOneBias};
    ghost use Rattle.drain_kernel.specs.Slopes.{AreSound};

    /// Three rows, if there are three.
    pub(crate) fn of(
        above: Option<LaneRow<'a, H>>,
        here: Option<LaneRow<'a, H>>,
        below: Option<LaneRow<'a, H>>,
        slopes: &'a Slopes,
    ) -> Option<LaneRows<'a, H>>
        ensures above { IfSome result (λ rows. above.entry ≡ Some rows.above) }
        ensures here { IfSome result (λ rows. here.entry ≡ Some rows.here) }
        ensures below { IfSome result (λ rows. below.entry ≡ Some rows.below) }
        ensures slopes { IfSome result (λ rows. rows.slopes ≡ slopes.entry.now) }
    {
        let (Some(above), Some(here), Some(below)) = (above, here, below) else {
            return None;
        };
        Some(LaneRows {
            above,
            here,
            below,
            slopes,
        })
    }

    /// Whether all three rows have ranks, if ranks are judged.
    fn have_ranks(&self, judged: Judged) -> bool
        ensures { IsTrue result → IfJudged (has_rnk judged) (HaveRanks self.now) }
    {
        if judged.has_rnk() {
            self.above.has_ranks() && self.here.has_ranks() && self.below.has_ranks()
        } else {
            true
        }
    }

    /// Whether the rows have the same number of columns, and ranks if these are judged.
    pub(crate) fn are_alike(&self, judged: Judged) -> bool
        ensures lengths { IsTrue result → AreAsLong self.now }
        ensures ranks { IsTrue result → IfJudged (has_rnk judged) (HaveRanks self.now) }
        ensures bias { IsTrue result → HaveOneBias H.bias self.now }
        ensures slopes { AreSound self.now.slopes }
    {
        self.slopes.tell();
        self.above.tell_bias();
        self.here.tell_bias();
        self.below.tell_bias();
        let cols = self.here.cols();
        self.above.cols() == cols && self.below.cols() == cols && self.have_ranks(judged)
    }

    /// The stored elevations of the eight neighbours of a column: with the bias added, 0 at a void.
    #[inline(always)]
    pub(crate) fn heights_round(&self, k: usize) -> Eight<H>
        requires { IsInnerColumn self.now k }
        ensures { eight H.number result ≡ heights_round self.now k }
    {
        heights_around(
            self.above.heights(),
            self.here.heights(),
            self.below.heights(),
            k,
        )
    }

    /// The stored conditioned elevations of the eight neighbours of a column.
    #[inline(always)]
    pub(crate) fn cons_round(&self, k: usize) -> Eight<H>
        requires { IsInnerColumn self.now k }
        ensures { eight H.number result ≡ cons_round self.now k }
    {
        heights_around(self.above.cons(), self.here.cons(), self.below.cons(), k)
    }

    /// The codes of the eight neighbours of a column.
    #[inline(always)]
    pub(crate) fn codes_round(&self, k: usize) -> [u16; 8]
        requires { IsInnerColumn self.now k }
        ensures { result ≡ codes_round self.now k }
    {
        around(self.above.codes(), self.here.codes(), self.below.codes(), k)
    }

    /// The accumulations of the eight neighbours of a column.
    #[inline(always)]
    pub(crate) fn accs_round(&self, k: usize) -> [u32; 8]
        requires { IsInnerColumn self.now k }
        ensures { result ≡ accs_round self.now k }
    {
        around(self.above.accs(), self.here.accs(), self.below.accs(), k)
    }

    /// The same, capped.
    #[inline(always)]
    #[tactic(auto, using(crate::proofs::VouchedNumbers::around_images))]
    pub(crate) fn capped_accs_round(&self, k: usize) -> [u16; 8]
        requires { IsInnerColumn self.now k }
        ensures { EachHasImage at_most (accs_round self.now k) result }
    {
        around(
            self.above.capped_accs(),
            self.here.capped_accs(),
            self.below.capped_accs(),
            k,
        )
    }

    /// The labels of the eight neighbours of a column.
    #[inline(always)]
    pub(crate) fn labels_round(&self, k: usize) -> [u32; 8]
        requires { IsInnerColumn self.now k }
        ensures { result ≡ labels_round self.now k }
    {
        around(
            self.above.labels(),
            self.here.labels(),
            self.below.labels(),
            k,
        )
    }

    /// The ranks of the eight neighbours of a column, capped.
    #[inline(always)]
    #[tactic(auto, using(crate::proofs::VouchedNumbers::around_images))]
    pub(crate) fn capped_ranks_round(&self, k: usize) -> [u16; 8]
        requires inner { IsInnerColumn self.now k }
        requires ranks { HaveRanks self.now }
        ensures { EachHasImage at_most (ranks_round self.now k) result }
    {
        around(
            self.above.capped_ranks(),
            self.here.capped_ranks(),
            self.below.capped_ranks(),
            k,
        )
    }

    /// The lower halves of these ranks.
    #[inline(always)]
    #[tactic(auto, using(crate::proofs::VouchedNumbers::around_images))]
    pub(crate) fn low_ranks_round(&self, k: usize) -> [u16; 8]
        requires inner { IsInnerColumn self.now k }
        requires ranks { HaveRanks self.now }
        ensures { EachHasImage lower (ranks_round self.now k) result }
    {
        around(
            self.above.low_ranks(),
            self.here.low_ranks(),
            self.below.low_ranks(),
            k,
        )
    }

    /// Their upper halves.
    #[inline(always)]
    #[tactic(auto, using(crate::proofs::VouchedNumbers::around_images))]
    pub(crate) fn high_ranks_round(&self, k: usize) -> [u16; 8]
        requires inner { IsInnerColumn self.now k }
        requires ranks { HaveRanks self.now }
        ensures { EachHasImage upper (ranks_round self.now k) result }
    {
        around(
            self.above.high_ranks(),
            self.here.high_ranks(),
            self.below.high_ranks(),
            k,
        )
    }
}

/// The rows, if the heights of all are in 16 bits.
pub(crate) fn narrow_rows<'a>(
    above: &'a Lanes,
    here: &'a Lanes,
    below: &'a Lanes,
    slopes: &'a Slopes,
) -> Option<LaneRows<'a, u16>>
    ensures { IfSome result (λ rows. rows ≡ record { above = above.entry.now; here = here.entry.now; below = below.entry.now; slopes = slopes.entry.now }) }
{
    LaneRows::of(above.narrow(), here.narrow(), below.narrow(), slopes)
}

/// The rows, if the heights of all are in 32 bits.
pub(crate) fn wide_rows<'a>(
    above: &'a Lanes,
    here: &'a Lanes,
    below: &'a Lanes,
    slopes: &'a Slopes,
) -> Option<LaneRows<'a, u32>>
    ensures { IfSome result (λ rows. rows ≡ record { above = above.entry.now; here = here.entry.now; below = below.entry.now; slopes = slopes.entry.now }) }
{
    LaneRows::of(above.wide(), here.wide(), below.wide(), slopes)
}
