//! An outlet beside a void: a data cell on its ground with code 0 and no lower neighbour.

ghost use Rattle.std.specs.Prelude.{◌≡◌, ◌≤◌};
ghost use Rattle.drain_kernel.specs.Names.{IsTrue, None, Patch, IsLeastFault, IsPatchRule, IfJudged, has_rnk, tried};
ghost use Rattle.drain_kernel.specs.Columns.{HaveRanks, IsInnerColumn, IsShownRoundIn};
ghost use Rattle.drain_kernel.specs.Eights.{eight};
ghost use Rattle.drain_kernel.specs.Outlets.{OutletAt, keeps_outlet, keeps_outlet_at};
ghost use Rattle.drain_kernel.specs.Shown.{cols, IsInner, IsShownRound};

use crate::around::{Eight, least_across, least_straight};
use crate::falls::{cons_seen, keeps_rank, products_are_there, seen_sum_holds};
use crate::lane_height::LaneHeight;
use crate::lane_rows::{LaneRows, narrow_rows, wide_rows};
use crate::lanes::Lanes;
use crate::slopes::Slopes;
use drain_grid::Rules;

/// Whether a cell has data, is not raised, has code 0, and lies beside a void, with no lower neighbour.
#[inline(always)]
#[tactic(auto, unfolding(crate::specs::Outlets::keeps_outlet))]
fn keeps_outlet<H: LaneHeight>(
    height: H,
    con: H,
    code: u16,
    heights: Eight<H>,
    cons: Eight<H>,
) -> bool
    ensures { result ≡ keeps_outlet (H.number height) (H.number con) code (eight H.number heights) (eight H.number cons) }
{
    let nearest_void = least_straight(heights).lesser(least_across(heights));
    let least = least_straight(cons).lesser(least_across(cons));
    !height.is_void()
        & con.is_same(height)
        & (code == 0)
        & nearest_void.is_void()
        & con.is_at_most(least)
}

/// Whether the cell at a column is such an outlet; a void counts as highest.
fn outlet_holds<H: LaneHeight>(rows: &LaneRows<H>, k: usize) -> bool
    requires { IsInnerColumn rows.now k }
    ensures { result ≡ keeps_outlet_at rows.now k }
{
    let here = &rows.here;
    here.tell_bias();
    let heights = rows.heights_round(k);
    let cons = cons_seen(heights, rows.cons_round(k));
    keeps_outlet(here.height(k), here.con(k), here.code(k), heights, cons)
}

/// Whether all these tests pass at a column that isn't the first nor the last.
fn tests_pass<H: LaneHeight>(rows: &LaneRows<H>, rules: &Rules, k: usize) -> bool
    requires inner { IsInnerColumn rows.now k }
    requires ranks { IfJudged (has_rnk rules.now.judged) (HaveRanks rows.now) }
    ensures { IsTrue result → OutletAt rules.now rows.now k }
{
    // Cells with a direction stop here.
    rows.here.code(k) == 0
        && outlet_holds(rows, k)
        && seen_sum_holds(rows, k)
        && products_are_there(&rows.here, &rules.nodata, k)
        && keeps_rank(&rows.here, rules, k)
}

/// Whether the cell at a column is an outlet beside a void. Then its patch keeps the rules that are tried.
fn is_right_outlet_at<H: LaneHeight>(rows: &LaneRows<H>, rules: &Rules, k: usize) -> bool
    requires inside { k ≤ cols rows.now.here }
    ensures inner { IsTrue result → IsInnerColumn rows.now k }
    ensures kept { IsTrue result → (p : Patch) → IsShownRoundIn rows.now k p → IsLeastFault IsPatchRule (tried rules.now p) None }
{
    if !rows.are_alike(rules.judged) {
        return false;
    }
    if k == 0 || k >= rows.here.cols() - 1 {
        return false;
    }
    tests_pass(rows, rules, k)
}

/// Whether the cell at a column is an outlet beside a void. Then its patch in the three rows keeps every rule from
/// VoidCell to Label, whether it is a listed sink or not. False shows no fault. It is false at the first and the last
/// column, if the rows have different lengths or heights of different widths, and if ranks are judged and one row has
/// none.
pub fn outlet_holds_at(
    above: &Lanes,
    here: &Lanes,
    below: &Lanes,
    slopes: &Slopes,
    rules: &Rules,
    k: usize,
) -> bool
    requires inside { k ≤ cols here.now }
    ensures inner { IsTrue result → IsInner above.now here.now below.now k }
    ensures kept { IsTrue result → (p : Patch) → IsShownRound above.now here.now below.now k p → IsLeastFault IsPatchRule (tried rules.now p) None }
{
    if let Some(rows) = narrow_rows(above, here, below, slopes) {
        return is_right_outlet_at(&rows, rules, k);
    }
    if let Some(rows) = wide_rows(above, here, below, slopes) {
        return is_right_outlet_at(&rows, rules, k);
    }
    false
}
