//! Columns along a row, one stride at a time.

ghost use Rattle.std.specs.Prelude.{◌≡◌, ◌≤◌};
ghost use Rattle.drain_kernel.specs.Names.{IsTrue, false, true, IfJudged, has_acc, has_rnk};
ghost use Rattle.drain_kernel.specs.ConAlone.{IsClearedAt};
ghost use Rattle.drain_kernel.specs.Columns.{adds_up_at, Along, HasWayAt, IsInlandAt, KeepsCountsAt, KeepsRankedWayAt, KeepsWayAt, PassesAt, RanksPassAt, HaveRanks, IsStretch};
ghost use Rattle.drain_kernel.specs.Slopes.{is_unit, is_whole};

use crate::column_test::passes_along;
use crate::columns::{
    CappedSumTest, CountsTest, DirectionTest, FractionsTest, HeightsTest, LabelTest, MiddleSumTest,
    SumTest, SurfaceTest, WayTest, WaysTest,
};
use crate::con_alone::surfaces_pass;
use crate::in_unit::directions_by_fractions;
use crate::lane_rows::LaneRows;
use crate::near::FirstTest;
use crate::ranked::{HasRankTest, RankedWaysTest, RanksTest};
use crate::stretches::{all_inland, have_one_label};
use crate::vouched::{are_no_counts, are_no_ways};
use drain_grid::{Judged, NoData, Rules};

/// Whether the rule of the accumulation holds, if it is judged: by sums of 16 bits, else of 32, else of 64.
fn sums_pass<H: FirstTest>(rows: &LaneRows<H>, judged: Judged, from: usize, end: usize) -> bool
    requires { IsStretch rows.now from end }
    ensures { IsTrue result → Along from end (λ k. IfJudged (has_acc judged) (IsTrue (adds_up_at rows.now k))) }
{
    if judged.has_acc() {
        passes_along(&CappedSumTest(rows), from, end)
            || passes_along(&MiddleSumTest(rows), from, end)
            || passes_along(&SumTest(rows), from, end)
    } else {
        true
    }
}

/// Whether the rules of the conditioned elevation and of the direction, without ranks, hold, by squares that hold any
/// drop's; of square cells.
fn keep_ways<H: FirstTest>(rows: &LaneRows<H>, from: usize, end: usize) -> bool
    requires stretch { IsStretch rows.now from end }
    requires unit { is_unit rows.now.slopes.spacing ≡ true }
    ensures { IsTrue result → Along from end (KeepsWayAt rows.now) }
{
    passes_along(&SurfaceTest(&*rows), from, end) && passes_along(&DirectionTest(&*rows), from, end)
}

/// Whether these rules hold, by fractions; of whole heights of cells that aren't square.
fn keep_ways_by_fractions<H: FirstTest>(rows: &LaneRows<H>, from: usize, end: usize) -> bool
    requires stretch { IsStretch rows.now from end }
    requires not_unit { is_unit rows.now.slopes.spacing ≡ false }
    requires whole { is_whole rows.now.slopes.spacing.kind ≡ true }
    ensures { IsTrue result → Along from end (KeepsWayAt rows.now) }
{
    passes_along(&SurfaceTest(&*rows), from, end) && passes_along(&FractionsTest(&*rows), from, end)
}

/// Whether these rules hold, of floats: by heights in one unit, else each exactly.
fn keep_ways_by_heights<H: FirstTest>(rows: &LaneRows<H>, from: usize, end: usize) -> bool
    requires stretch { IsStretch rows.now from end }
    requires floats { is_whole rows.now.slopes.spacing.kind ≡ false }
    ensures { IsTrue result → Along from end (KeepsWayAt rows.now) }
{
    passes_along(&SurfaceTest(&*rows), from, end)
        && (directions_by_fractions(rows, from, end)
            || passes_along(&HeightsTest(&*rows), from, end))
}

/// Whether the rules of the conditioned elevation and of the direction, without ranks, hold: of square cells by the test
/// that is tried first, of heights of 16 bits by squares of 16 bits; else by squares that hold any drop's. Of other cells
/// by fractions, and of floats exactly.
fn ways_pass<H: FirstTest>(rows: &LaneRows<H>, from: usize, end: usize) -> bool
    requires { IsStretch rows.now from end }
    ensures { IsTrue result → Along from end (KeepsWayAt rows.now) }
{
    if rows.slopes.are_unit() {
        passes_along(&WaysTest(&*rows), from, end) || keep_ways(rows, from, end)
    } else if rows.slopes.are_whole() {
        keep_ways_by_fractions(rows, from, end)
    } else {
        keep_ways_by_heights(rows, from, end)
    }
}

/// Whether these rules hold, and each code leads to a smaller conditioned elevation or to a smaller rank: by numbers of
/// 16 bits in one loop, else in a loop each, by halves of ranks. Where the first rank is at the cap, others likely are too, so
/// capped ranks aren't compared.
fn ranked_ways_pass<H: FirstTest>(rows: &LaneRows<H>, from: usize, end: usize) -> bool
    requires stretch { IsStretch rows.now from end }
    requires ranks { HaveRanks rows.now }
    ensures { IsTrue result → Along from end (KeepsRankedWayAt rows.now) }
{
    if rows.slopes.are_unit()
        && rows.here.capped_rank(from) < 65535
        && passes_along(&RankedWaysTest(&*rows), from, end)
    {
        return true;
    }
    ways_pass(rows, from, end) && passes_along(&RanksTest(&*rows), from, end)
}

/// Whether the rules of the conditioned elevation and of the direction hold, and if ranks are judged those on ranks.
fn courses_pass<H: FirstTest>(rows: &LaneRows<H>, rules: &Rules, from: usize, end: usize) -> bool
    requires stretch { IsStretch rows.now from end }
    requires ranks { IfJudged (has_rnk rules.now.judged) (HaveRanks rows.now) }
    ensures ways { IsTrue result → Along from end (KeepsWayAt rows.now) }
    ensures ranks { IsTrue result → Along from end (λ k. IfJudged (has_rnk rules.now.judged) (RanksPassAt rules.now.nodata rows.now k)) }
{
    if rules.judged.has_rnk() {
        let has_rank = HasRankTest {
            row: &rows.here,
            nodata: &rules.nodata,
        };
        ranked_ways_pass(rows, from, end) && passes_along(&has_rank, from, end)
    } else {
        ways_pass(rows, from, end)
    }
}

/// Whether con and dir differ from their no-data numbers, where the cells have data and keep the rules on these.
fn ways_are_there<H: FirstTest>(
    rows: &LaneRows<H>,
    nodata: &NoData,
    from: usize,
    end: usize,
) -> bool
    requires { IsStretch rows.now from end }
    ensures { IsTrue result → Along from end (λ k. IsInlandAt rows.now k → KeepsWayAt rows.now k → HasWayAt nodata.now rows.now.here k) }
{
    let row = &rows.here;
    row.tell_bias();
    are_no_ways::<H>(nodata) || passes_along(&WayTest { row, nodata }, from, end)
}

/// Whether the rules of the accumulation and of the label hold, the first if it is judged, and acc and bas differ from
/// their no-data numbers. Where there is one label only, labels are compared with nothing else, and no number with its
/// no-data number if none can be it.
fn counts_pass<H: FirstTest>(rows: &LaneRows<H>, rules: &Rules, from: usize, end: usize) -> bool
    requires { IsStretch rows.now from end }
    ensures { IsTrue result → Along from end (KeepsCountsAt rules.now rows.now) }
{
    if !sums_pass(rows, rules.judged, from, end) {
        return false;
    }
    let row = &rows.here;
    let nodata = &rules.nodata;
    if have_one_label(rows, from, end) {
        return are_no_counts(row.label(from), rules)
            || passes_along(&CountsTest { row, nodata }, from, end);
    }
    passes_along(&LabelTest(&*rows), from, end)
        && passes_along(&CountsTest { row, nodata }, from, end)
}

/// Whether all tests pass. The test of voids comes first: at right products little else fails, and it is the cheapest.
fn all_pass<H: FirstTest>(rows: &LaneRows<H>, rules: &Rules, from: usize, end: usize) -> bool
    requires stretch { IsStretch rows.now from end }
    requires ranks { IfJudged (has_rnk rules.now.judged) (HaveRanks rows.now) }
    ensures { IsTrue result → Along from end (PassesAt rules.now rows.now) }
{
    if !all_inland(rows, from, end) {
        return false;
    }
    if !courses_pass(rows, rules, from, end) {
        return false;
    }
    if !ways_are_there(rows, &rules.nodata, from, end) {
        return false;
    }
    counts_pass(rows, rules, from, end)
}

/// Whether all tests of the judged rasters pass.
fn judged_pass<H: FirstTest>(rows: &LaneRows<H>, rules: &Rules, from: usize, end: usize) -> bool
    requires stretch { IsStretch rows.now from end }
    requires ranks { IfJudged (has_rnk rules.now.judged) (HaveRanks rows.now) }
    ensures { IsTrue result → Along from end (IsClearedAt rules.now rows.now) }
{
    if rules.judged.has_dir() {
        all_pass(rows, rules, from, end)
    } else {
        surfaces_pass(rows, &rules.nodata, from, end)
    }
}

/// Tries `stride` columns at a time from `from` on, the last time maybe fewer. Returns the start of the first stride
/// where a test fails, or `end`.
pub fn passed_strides<H: FirstTest>(
    rows: &LaneRows<H>,
    rules: &Rules,
    from: usize,
    end: usize,
    stride: usize,
) -> usize
    requires stretch { IsStretch rows.now from end }
    requires some { 1 ≤ stride }
    requires ranks { IfJudged (has_rnk rules.now.judged) (HaveRanks rows.now) }
    ensures forward { from ≤ result }
    ensures within { result ≤ end }
    ensures passed { Along from result (IsClearedAt rules.now rows.now) }
{
    let mut k = from;
    while k < end {
        let next = k + stride.min(end - k);
        if !judged_pass(rows, rules, k, next) {
            return k;
        }
        k = next;
    }
    k
}
