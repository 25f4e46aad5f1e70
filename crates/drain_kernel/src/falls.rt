//! A cell that lies on its ground and falls: it keeps every rule whether it is open or not, so voids beside it and
//! listed sinks make no difference.

ghost use Rattle.std.specs.Prelude.{◌≡◌, ◌≤◌, ◌<◌, ◌==◌, if◌then◌else◌};
ghost use Rattle.drain_kernel.specs.Names.{IsTrue, Patch, IfJudged, has_acc, has_rnk, tried};
ghost use Rattle.drain_kernel.specs.Columns.{HasCountsAt, HasRankAt, HasWayAt, IsKept, HaveRanks, IsInnerColumn, IsShownRoundIn};
ghost use Rattle.drain_kernel.specs.ConAlone.{IsClearedAlone};
ghost use Rattle.drain_kernel.specs.Eights.{eight};
ghost use Rattle.drain_kernel.specs.Falls.{FallsAt, each_seen, keeps_fall, keeps_fall_at, seen_code, seen_con, seen_sum_at};
ghost use Rattle.drain_kernel.specs.Shown.{cols, HasRanks, IsInner, IsShownRound};

use crate::around::{Eight, is_direction};
use crate::cells::keeps_label;
use crate::column_test::ColumnTest;
use crate::columns::{CountsTest, WayTest};
use crate::con_alone::lies_at;
use crate::lane_height::LaneHeight;
use crate::lane_row::LaneRow;
use crate::lane_rows::{LaneRows, narrow_rows, wide_rows};
use crate::lanes::Lanes;
use crate::ranked::HasRankTest;
use crate::slopes::Slopes;
use crate::sums::adds_up;
use crate::ways_down::falls_down;
use drain_grid::{Judged, NoData, Rules};

/// A neighbour's number, if its elevation is none of a void; else another one.
#[inline(always)]
fn seen<H: LaneHeight, T: Copy>(hidden: T, z: H, number: T) -> T
    ensures { result ≡ (if H.number z == 0 then hidden else number) }
{
    if z.is_void() { hidden } else { number }
}

/// The conditioned elevations of eight neighbours, the greatest at a void.
#[inline(always)]
pub(crate) fn cons_seen<H: LaneHeight>(zs: Eight<H>, cons: Eight<H>) -> Eight<H>
    ensures { eight H.number result ≡ each_seen (seen_con H.bias) (eight H.number zs) (eight H.number cons) }
{
    let hidden = H::highest();
    Eight {
        east: seen(hidden, zs.east, cons.east),
        south_east: seen(hidden, zs.south_east, cons.south_east),
        south: seen(hidden, zs.south, cons.south),
        south_west: seen(hidden, zs.south_west, cons.south_west),
        west: seen(hidden, zs.west, cons.west),
        north_west: seen(hidden, zs.north_west, cons.north_west),
        north: seen(hidden, zs.north, cons.north),
        north_east: seen(hidden, zs.north_east, cons.north_east),
    }
}

/// The codes of eight neighbours, 0 at a void.
#[inline(always)]
fn codes_seen<H: LaneHeight>(zs: Eight<H>, codes: [u16; 8]) -> [u16; 8]
    ensures { result ≡ each_seen seen_code (eight H.number zs) codes }
{
    [
        seen(0, zs.east, codes[0]),
        seen(0, zs.south_east, codes[1]),
        seen(0, zs.south, codes[2]),
        seen(0, zs.south_west, codes[3]),
        seen(0, zs.west, codes[4]),
        seen(0, zs.north_west, codes[5]),
        seen(0, zs.north, codes[6]),
        seen(0, zs.north_east, codes[7]),
    ]
}

/// Whether the cell has data and is not raised, and its code leads down the steepest way, to a cell of its label.
#[inline(always)]
#[tactic(auto, unfolding(crate::specs::Falls::keeps_fall))]
fn keeps_fall<H: LaneHeight>(
    slopes: &Slopes,
    height: H,
    con: H,
    code: u16,
    cons: Eight<H>,
    label: u32,
    labels: [u32; 8],
) -> bool
    ensures { result ≡ keeps_fall slopes.now H.bias (H.number height) (H.number con) code (eight H.number cons) label labels }
{
    !height.is_void()
        & con.is_same(height)
        & con.is_at_most(H::highest())
        & is_direction(code)
        & falls_down(slopes, con, code, cons)
        & keeps_label(code, label, labels)
}

/// Whether the cell at a column is not raised and falls to a cell of its label; a void counts as highest.
fn fall_holds<H: LaneHeight>(rows: &LaneRows<H>, k: usize) -> bool
    requires { IsInnerColumn rows.now k }
    ensures { result ≡ keeps_fall_at rows.now k }
{
    let here = &rows.here;
    here.tell_bias();
    let cons = cons_seen(rows.heights_round(k), rows.cons_round(k));
    let labels = rows.labels_round(k);
    keeps_fall(
        rows.slopes,
        here.height(k),
        here.con(k),
        here.code(k),
        cons,
        here.label(k),
        labels,
    )
}

/// Whether the accumulation at a column is one more than what data neighbours pass on.
pub(crate) fn seen_sum_holds<H: LaneHeight>(rows: &LaneRows<H>, k: usize) -> bool
    requires { IsInnerColumn rows.now k }
    ensures { result ≡ seen_sum_at rows.now k }
{
    let codes = codes_seen(rows.heights_round(k), rows.codes_round(k));
    adds_up(rows.here.acc(k), codes, rows.accs_round(k))
}

/// Whether the accumulation is one more than that, if it is judged.
fn keeps_sum<H: LaneHeight>(rows: &LaneRows<H>, judged: Judged, k: usize) -> bool
    requires { IsInnerColumn rows.now k }
    ensures { IsTrue result → IfJudged (has_acc judged) (IsTrue (seen_sum_at rows.now k)) }
{
    if judged.has_acc() {
        seen_sum_holds(rows, k)
    } else {
        true
    }
}

/// Whether the rank isn't the no-data number, if ranks are judged.
pub(crate) fn keeps_rank<H: LaneHeight>(row: &LaneRow<H>, rules: &Rules, k: usize) -> bool
    requires inside { k < cols row.now }
    requires ranks { IfJudged (has_rnk rules.now.judged) (HasRanks row.now) }
    ensures { IsTrue result → IfJudged (has_rnk rules.now.judged) (HasRankAt rules.now.nodata row.now k) }
{
    let nodata = &rules.nodata;
    if rules.judged.has_rnk() {
        HasRankTest { row, nodata }.passes(k)
    } else {
        true
    }
}

/// Whether con, dir, acc and bas all differ from their no-data numbers. Ranks aren't looked at.
pub(crate) fn products_are_there<H: LaneHeight>(row: &LaneRow<H>, nodata: &NoData, k: usize) -> bool
    requires { k < cols row.now }
    ensures way { IsTrue result → HasWayAt nodata.now row.now k }
    ensures counts { IsTrue result → HasCountsAt nodata.now row.now k }
{
    WayTest { row, nodata }.passes(k) && CountsTest { row, nodata }.passes(k)
}

/// Whether all these tests pass at a column that isn't the first nor the last.
fn tests_pass<H: LaneHeight>(rows: &LaneRows<H>, rules: &Rules, k: usize) -> bool
    requires inner { IsInnerColumn rows.now k }
    requires ranks { IfJudged (has_rnk rules.now.judged) (HaveRanks rows.now) }
    ensures { IsTrue result → FallsAt rules.now rows.now k }
{
    // Voids and outlets stop here.
    rows.here.has_data(k)
        && rows.here.code(k) != 0
        && fall_holds(rows, k)
        && keeps_sum(rows, rules.judged, k)
        && products_are_there(&rows.here, &rules.nodata, k)
        && keeps_rank(&rows.here, rules, k)
}

/// Whether these tests pass, or where con alone is judged that it lies on its ground.
fn judged_pass<H: LaneHeight>(rows: &LaneRows<H>, rules: &Rules, k: usize) -> bool
    requires inner { IsInnerColumn rows.now k }
    requires ranks { IfJudged (has_rnk rules.now.judged) (HaveRanks rows.now) }
    ensures { IsTrue result → IsClearedAlone rules.now rows.now k }
{
    if rules.judged.has_dir() {
        tests_pass(rows, rules, k)
    } else {
        lies_at(rows, &rules.nodata, k)
    }
}

/// Whether the cell at a column lies on its ground, and falls if directions are judged. Then its patch keeps the rules that are tried.
fn is_cleared_at<H: LaneHeight>(rows: &LaneRows<H>, rules: &Rules, k: usize) -> bool
    requires inside { k ≤ cols rows.now.here }
    ensures inner { IsTrue result → IsInnerColumn rows.now k }
    ensures kept { IsTrue result → (p : Patch) → p.spacing ≡ rows.now.slopes.spacing → IsShownRoundIn rows.now k p → IsKept (tried rules.now) p }
{
    if !rows.are_alike(rules.judged) {
        return false;
    }
    if k == 0 || k >= rows.here.cols() - 1 {
        return false;
    }
    judged_pass(rows, rules, k)
}

/// Whether the cell at a column lies on its ground, and falls by the slopes of its row if directions are judged. Then its patch in the three rows keeps
/// every rule that is tried, SharedLabel left out, whether it is a listed sink or not, and whether voids are beside it. False shows no fault. It is
/// false at the first and the last column, if the rows have different lengths or heights of different widths, and if
/// ranks are judged and one row has none.
pub fn falls_at(
    above: &Lanes,
    here: &Lanes,
    below: &Lanes,
    slopes: &Slopes,
    rules: &Rules,
    k: usize,
) -> bool
    requires inside { k ≤ cols here.now }
    ensures inner { IsTrue result → IsInner above.now here.now below.now k }
    ensures kept { IsTrue result → (p : Patch) → p.spacing ≡ slopes.now.spacing → IsShownRound above.now here.now below.now k p → IsKept (tried rules.now) p }
{
    if let Some(rows) = narrow_rows(above, here, below, slopes) {
        return is_cleared_at(&rows, rules, k);
    }
    if let Some(rows) = wide_rows(above, here, below, slopes) {
        return is_cleared_at(&rows, rules, k);
    }
    false
}
