//! Tests of voids and of labels along columns, with the columns beside them.

ghost use Rattle.std.specs.Prelude.{◌≡◌, ◌≤◌, ◌<◌, ◌+◌, IsTrue, slice_index};
ghost use Rattle.drain_kernel.specs.Columns.{Along, IsDataRound, IsInlandAt, keeps_label_at, IsInnerColumn, IsStretch};
ghost use Rattle.drain_kernel.specs.Shown.{cols};

use crate::column_test::passes_along;
use crate::columns::{DataTest, OneLabelTest};
use crate::lane_height::LaneHeight;
use crate::lane_row::LaneRow;
use crate::lane_rows::LaneRows;

/// Whether the cell of a row and those left and right of it have data.
#[inline(always)]
fn is_data_round<H: LaneHeight>(row: &LaneRow<H>, k: usize) -> bool
    requires inner { 1 ≤ k }
    requires inside { k + 1 < cols row.now }
    ensures { IsTrue result → IsDataRound row.now k }
{
    row.has_data(k - 1) & row.has_data(k) & row.has_data(row.right_of(k))
}

/// Whether the cell and its neighbours have data.
#[inline(always)]
pub fn is_inland<H: LaneHeight>(rows: &LaneRows<H>, k: usize) -> bool
    requires { IsInnerColumn rows.now k }
    ensures { IsTrue result → IsInlandAt rows.now k }
{
    is_data_round(&rows.above, k) & is_data_round(&rows.here, k) & is_data_round(&rows.below, k)
}

/// Whether the cells and their neighbours all have data.
#[tactic(auto, using(crate::proofs::VouchedNumbers::inland))]
pub fn all_inland<H: LaneHeight>(rows: &LaneRows<H>, from: usize, end: usize) -> bool
    requires { IsStretch rows.now from end }
    ensures { IsTrue result → Along from end (IsInlandAt rows.now) }
{
    passes_along(&DataTest(&*rows), from - 1, rows.here.right_of(end))
}

/// Whether the cells and their neighbours have one label.
#[tactic(auto, using(crate::proofs::RightOutlets::one_label))]
pub fn have_one_label<H: LaneHeight>(rows: &LaneRows<H>, from: usize, end: usize) -> bool
    requires { IsStretch rows.now from end }
    ensures led { IsTrue result → Along from end (λ k. IsTrue (keeps_label_at rows.now k)) }
    ensures one { IsTrue result → Along from end (λ k. slice_index rows.now.here.bas k ≡ slice_index rows.now.here.bas from) }
{
    let rows = &*rows;
    let label = rows.here.label(from);
    let after = rows.here.right_of(end);
    passes_along(&OneLabelTest { rows, label }, from - 1, after)
}
