//! How far along a row every rule of a patch holds.

ghost use Rattle.std.specs.Prelude.{◌≡◌, ◌≤◌};
ghost use Rattle.drain_kernel.specs.Names.{IsTrue, Patch, IfJudged, has_rnk, tried};
ghost use Rattle.drain_kernel.specs.Columns.{Along, IsKept, HaveRanks, IsInnerColumn, IsShownIn, IsStretch};
ghost use Rattle.drain_kernel.specs.ConAlone.{IsClearedAt};
ghost use Rattle.drain_kernel.specs.Shown.{cols, IsInner, IsShown};

use crate::lane_height::LaneHeight;
use crate::lane_rows::{LaneRows, narrow_rows, wide_rows};
use crate::lanes::Lanes;
use crate::near::FirstTest;
use crate::slopes::Slopes;
use crate::stretches::is_inland;
use crate::strides::passed_strides;
use drain_grid::Rules;

/// How many columns are tested at once: long enough that loops of four or eight lanes pay, short enough that few
/// stretches have an outlet or a void.
const BLOCK: usize = 64;

/// How many are tested at once after a longer stretch failed.
const GROUP: usize = 8;

/// The first column from this one on whose cell or a neighbour has no data, if one is before `end`, else `end`.
fn inland_until<H: LaneHeight>(rows: &LaneRows<H>, from: usize, end: usize) -> usize
    requires { IsStretch rows.now from end }
    ensures forward { from ≤ result }
    ensures within { result ≤ end }
{
    let mut k = from;
    while k < end && is_inland(rows, k) {
        k += 1;
    }
    k
}

/// The first column that isn't cleared from one on, at most another, before the last. It goes in strides of 64; where
/// one fails, up to the next void or cell beside one: all of that, then 8 columns at a time, then column by column.
fn passed_until<H: FirstTest>(rows: &LaneRows<H>, rules: &Rules, from: usize, end: usize) -> usize
    requires stretch { IsStretch rows.now from end }
    requires ranks { IfJudged (has_rnk rules.now.judged) (HaveRanks rows.now) }
    ensures forward { from ≤ result }
    ensures within { result ≤ end }
    ensures passed { Along from result (IsClearedAt rules.now rows.now) }
{
    let by_blocks = passed_strides(rows, rules, from, end, BLOCK);
    let reach = by_blocks + BLOCK.min(end - by_blocks);
    let inland = inland_until(rows, by_blocks, reach);
    let at_once = passed_strides(rows, rules, by_blocks, inland, BLOCK);
    let by_groups = passed_strides(rows, rules, at_once, inland, GROUP);
    passed_strides(rows, rules, by_groups, inland, 1)
}

/// A column from this one on, at most `until`, before which each cell keeps the rules that are tried.
fn cleared_until<H: FirstTest>(
    rows: &LaneRows<H>,
    rules: &Rules,
    from: usize,
    until: usize,
) -> usize
    requires ordered { from ≤ until }
    requires inside { until ≤ cols rows.now.here }
    ensures forward { from ≤ result }
    ensures within { result ≤ until }
    ensures inner { Along from result (IsInnerColumn rows.now) }
    ensures kept { Along from result (λ k. (p : Patch) → p.spacing ≡ rows.now.slopes.spacing → IsShownIn rows.now k p → IsKept (tried rules.now) p) }
{
    if !rows.are_alike(rules.judged) {
        return from;
    }
    let cols = rows.here.cols();
    if from == 0 || from == cols {
        return from;
    }
    // A row of voids stops here, and one of outlets.
    let end = until.min(cols - 1);
    if from >= end || rows.here.code(from) == 0 || !is_inland(rows, from) {
        return from;
    }
    passed_until(rows, rules, from, end)
}

/// A column to which cells can be cleared from this one on, at most `until`. At each column before it the patch of the
/// three rows, for a cell that isn't a listed sink, by the slopes of its row keeps every rule that is tried, SharedLabel left out. It may be any such column,
/// even `from`, so it shows no fault. It is `from` at the first and the last column, if the rows have different lengths
/// or heights of different widths, and if ranks are judged and one row has none. Where con alone is judged, it stops at a
/// direction 0: such a cell counts as an outlet.
pub fn kept_until(
    above: &Lanes,
    here: &Lanes,
    below: &Lanes,
    slopes: &Slopes,
    rules: &Rules,
    from: usize,
    until: usize,
) -> usize
    requires ordered { from ≤ until }
    requires inside { until ≤ cols here.now }
    ensures forward { from ≤ result }
    ensures within { result ≤ until }
    ensures inner { Along from result (IsInner above.now here.now below.now) }
    ensures kept { Along from result (λ k. (p : Patch) → p.spacing ≡ slopes.now.spacing → IsShown above.now here.now below.now k p → IsKept (tried rules.now) p) }
{
    if let Some(rows) = narrow_rows(above, here, below, slopes) {
        return cleared_until(&rows, rules, from, until);
    }
    if let Some(rows) = wide_rows(above, here, below, slopes) {
        return cleared_until(&rows, rules, from, until);
    }
    from
}
