//! The tests of ranks at a column.

ghost use Rattle.std.specs.Prelude.{◌≡◌, ◌≢◌, ◌<◌, ℕ, IsTrue, false, length, pos, true};
ghost use Rattle.drain_kernel.specs.Columns.{HasRankAt, KeepsRankedWayAt, is_ranked_at, keeps_direction_at, HaveRanks, IsInnerColumn};
ghost use Rattle.drain_kernel.specs.Eights.{eight};
ghost use Rattle.drain_kernel.specs.Slopes.{is_unit, keeps_way_down};
ghost use Rattle.drain_kernel.specs.Tests.{is_ranked, is_ranked_by_halves};
ghost use Rattle.drain_kernel.specs.declared.slopes.Slopes.{Slopes};

use crate::around::{Eight, least_across, least_straight, named, named_height};
use crate::cells::differs;
use crate::column_test::ColumnTest;
use crate::columns::WaysTest;
use crate::lane_height::LaneHeight;
use crate::lane_row::LaneRow;
use crate::lane_rows::LaneRows;
use crate::near::FirstTest;
use drain_grid::NoData;
use drain_pixels::row_lanes::HeightLane;

/// Whether a neighbour is lower, or the code leads to a smaller capped rank. A code that keeps the rules of the direction
/// leads to a lower neighbour if there is one.
#[inline(always)]
fn falls_or_is_ranked<H: LaneHeight>(
    con: H,
    code: u16,
    cons: Eight<H>,
    capped_rank: u16,
    capped_ranks: [u16; 8],
) -> bool
    ensures { (bias : ℕ) (slopes : Slopes) → IsTrue result → IsTrue (keeps_way_down bias slopes (H.number con) code (eight H.number cons)) → IsTrue (is_ranked (H.number con) code (eight H.number cons) capped_rank capped_ranks) }
{
    let least = least_straight(cons).lesser(least_across(cons));
    least.is_below(con) | (named(code, capped_ranks) < capped_rank)
}

/// Whether the code leads to a smaller conditioned elevation, or to a smaller rank, by halves of ranks: so a loop takes
/// as many of them at a time as of the other numbers.
#[inline(always)]
#[tactic(auto, unfolding(crate::specs::Tests::is_ranked_by_halves))]
fn is_ranked_by_halves<H: LaneHeight>(
    con: H,
    code: u16,
    cons: Eight<H>,
    low: u16,
    lows: [u16; 8],
    high: u16,
    highs: [u16; 8],
) -> bool
    ensures { result ≡ is_ranked_by_halves (H.number con) code (eight H.number cons) low lows high highs }
{
    let next_high = named(code, highs);
    let same_high = next_high == high;
    named_height(code, cons).is_below(con)
        | (next_high < high)
        | (same_high & (named(code, lows) < low))
}

/// Whether a rank isn't the no-data number.
#[inline(always)]
fn rnk_differs(rnk: u32, nodata: &NoData) -> bool
    ensures { IsTrue result → pos rnk ≢ nodata.now.rnk }
{
    differs(rnk, nodata.rnk)
}

/// If the rules of the direction hold, the code leads to a smaller conditioned elevation, or to a smaller rank, by capped
/// ranks.
#[derive(Drop)]
pub struct CappedRanksTest<'a, H: HeightLane>(pub &'a LaneRows<'a, H>);

impl<H: LaneHeight> ColumnTest for CappedRanksTest<'_, H> {
    ghost CanTest = { λ test k. IsInnerColumn test.0.now k × HaveRanks test.0.now };

    ghost Passed = { λ test k. IsTrue (keeps_direction_at test.0.now k) → IsTrue (is_ranked_at test.0.now k) };

    #[inline(always)]
    fn passes(&self, k: usize) -> bool {
        let rows = self.0;
        let here = &rows.here;
        falls_or_is_ranked(
            here.con(k),
            here.code(k),
            rows.cons_round(k),
            here.capped_rank(k),
            rows.capped_ranks_round(k),
        )
    }
}

/// The rules of the conditioned elevation and of the direction hold, by the test that is tried first, and the code leads
/// to a smaller conditioned elevation or to a smaller rank, by capped ranks; of square cells.
#[derive(Drop)]
pub struct RankedWaysTest<'a, H: HeightLane>(pub &'a LaneRows<'a, H>);

impl<H: FirstTest> ColumnTest for RankedWaysTest<'_, H> {
    ghost CanTest = { λ test k. IsInnerColumn test.0.now k × HaveRanks test.0.now × is_unit test.0.now.slopes.spacing ≡ true };

    ghost Passed = { λ test. KeepsRankedWayAt test.0.now };

    #[inline(always)]
    fn passes(&self, k: usize) -> bool {
        let rows = self.0;
        WaysTest(&*rows).passes(k) & CappedRanksTest(&*rows).passes(k)
    }
}

/// The code leads to a smaller conditioned elevation, or to a smaller rank, however large the ranks are.
#[derive(Drop)]
pub struct RanksTest<'a, H: HeightLane>(pub &'a LaneRows<'a, H>);

impl<H: LaneHeight> ColumnTest for RanksTest<'_, H> {
    ghost CanTest = { λ test k. IsInnerColumn test.0.now k × HaveRanks test.0.now };

    ghost Passed = { λ test k. IsTrue (is_ranked_at test.0.now k) };

    ghost Failed = { λ test k. is_ranked_at test.0.now k ≡ false };

    #[inline(always)]
    #[tactic(auto, using(crate::proofs::CappedSums::by_halves))]
    fn passes(&self, k: usize) -> bool {
        let rows = self.0;
        let here = &rows.here;
        is_ranked_by_halves(
            here.con(k),
            here.code(k),
            rows.cons_round(k),
            here.low_rank(k),
            rows.low_ranks_round(k),
            here.high_rank(k),
            rows.high_ranks_round(k),
        )
    }
}

/// The rank isn't its no-data number.
#[derive(Drop)]
pub struct HasRankTest<'a, H: HeightLane> {
    pub row: &'a LaneRow<'a, H>,
    pub nodata: &'a NoData,
}

impl<H: LaneHeight> ColumnTest for HasRankTest<'_, H> {
    ghost CanTest = { λ test k. k < length test.row.now.rnk };

    ghost Passed = { λ test. HasRankAt test.nodata.now test.row.now };

    #[inline(always)]
    fn passes(&self, k: usize) -> bool {
        rnk_differs(self.row.rank(k), self.nodata)
    }
}
