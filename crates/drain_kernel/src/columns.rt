//! The tests at a column of three rows. Each comment says what holds where the column passes.

ghost use Rattle.std.specs.Prelude.{◌≡◌, ◌<◌, ◌+◌, IsTrue, false, slice_index, true};
ghost use Rattle.drain_kernel.specs.Columns.{adds_up_at, AreDataAt, HasCountsAt, HaveLabelAt, HasWayAt, KeepsWayAt, keeps_direction_at, keeps_label_at, keeps_surface_at, IsInnerColumn, IsInRows};
ghost use Rattle.drain_kernel.specs.Shown.{cols};
ghost use Rattle.drain_kernel.specs.Slopes.{is_unit, is_whole};

use crate::cells::{
    acc_differs, bas_differs, dir_differs, keeps_direction, keeps_label, keeps_surface,
};
use crate::column_test::ColumnTest;
use crate::lane_height::LaneHeight;
use crate::lane_row::LaneRow;
use crate::lane_rows::LaneRows;
use crate::near::FirstTest;
use crate::sums::{adds_up, adds_up_by_capped, adds_up_by_middle};
use crate::ways_down::{keeps_by_fractions, keeps_by_heights};
use drain_grid::NoData;
use drain_pixels::row_lanes::HeightLane;

/// The column is no void in any of the rows.
#[derive(Drop)]
pub struct DataTest<'a, H: HeightLane>(pub &'a LaneRows<'a, H>);

impl<H: LaneHeight> ColumnTest for DataTest<'_, H> {
    ghost CanTest = { λ test. IsInRows test.0.now };

    ghost Passed = { λ test. AreDataAt test.0.now };

    #[inline(always)]
    fn passes(&self, k: usize) -> bool {
        let rows = self.0;
        rows.above.has_data(k) & rows.here.has_data(k) & rows.below.has_data(k)
    }
}

/// The column has this label in all rows.
#[derive(Drop)]
pub struct OneLabelTest<'a, H: HeightLane> {
    pub rows: &'a LaneRows<'a, H>,
    pub label: u32,
}

impl<H: LaneHeight> ColumnTest for OneLabelTest<'_, H> {
    ghost CanTest = { λ test. IsInRows test.rows.now };

    ghost Passed = { λ test. HaveLabelAt test.rows.now test.label };

    #[inline(always)]
    fn passes(&self, k: usize) -> bool {
        let rows = self.rows;
        let label = self.label;
        (rows.above.label(k) == label)
            & (rows.here.label(k) == label)
            & (rows.below.label(k) == label)
    }
}

/// The rules of the conditioned elevation hold.
#[derive(Drop)]
pub struct SurfaceTest<'a, H: HeightLane>(pub &'a LaneRows<'a, H>);

impl<H: LaneHeight> ColumnTest for SurfaceTest<'_, H> {
    ghost CanTest = { λ test. IsInnerColumn test.0.now };

    ghost Passed = { λ test k. IsTrue (keeps_surface_at test.0.now k) };

    ghost Failed = { λ test k. keeps_surface_at test.0.now k ≡ false };

    #[inline(always)]
    fn passes(&self, k: usize) -> bool {
        let rows = self.0;
        keeps_surface(rows.here.height(k), rows.here.con(k), rows.cons_round(k))
    }
}

/// The rules of the conditioned elevation and of the direction hold, without ranks, by the test that is tried first; of
/// square cells.
#[derive(Drop)]
pub struct WaysTest<'a, H: HeightLane>(pub &'a LaneRows<'a, H>);

impl<H: FirstTest> ColumnTest for WaysTest<'_, H> {
    ghost CanTest = { λ test k. IsInnerColumn test.0.now k × is_unit test.0.now.slopes.spacing ≡ true };

    ghost Passed = { λ test. KeepsWayAt test.0.now };

    #[inline(always)]
    #[tactic(auto, using(crate::proofs::Keys::unit_passes))]
    fn passes(&self, k: usize) -> bool {
        let rows = self.0;
        let here = &rows.here;
        H::keeps_way(
            here.height(k),
            here.con(k),
            here.code(k),
            rows.cons_round(k),
        )
    }
}

/// The rules of the direction hold, without ranks, however great the drops are; of square cells.
#[derive(Drop)]
pub struct DirectionTest<'a, H: HeightLane>(pub &'a LaneRows<'a, H>);

impl<H: LaneHeight> ColumnTest for DirectionTest<'_, H> {
    ghost CanTest = { λ test k. IsInnerColumn test.0.now k × is_unit test.0.now.slopes.spacing ≡ true };

    ghost Passed = { λ test k. IsTrue (keeps_direction_at test.0.now k) };

    ghost Failed = { λ test k. keeps_direction_at test.0.now k ≡ false };

    #[inline(always)]
    #[tactic(auto, using(crate::proofs::Keys::unit_passes, crate::proofs::Keys::unit_fails))]
    fn passes(&self, k: usize) -> bool {
        let rows = self.0;
        keeps_direction(rows.here.con(k), rows.here.code(k), rows.cons_round(k))
    }
}

/// The rules of the direction hold, without ranks, by fractions; of whole heights of cells that aren't square.
#[derive(Drop)]
pub struct FractionsTest<'a, H: HeightLane>(pub &'a LaneRows<'a, H>);

impl<H: LaneHeight> ColumnTest for FractionsTest<'_, H> {
    ghost CanTest = { λ test k. IsInnerColumn test.0.now k × is_unit test.0.now.slopes.spacing ≡ false × is_whole test.0.now.slopes.spacing.kind ≡ true };

    ghost Passed = { λ test k. IsTrue (keeps_direction_at test.0.now k) };

    ghost Failed = { λ test k. keeps_direction_at test.0.now k ≡ false };

    #[inline(always)]
    fn passes(&self, k: usize) -> bool {
        let rows = self.0;
        keeps_by_fractions(
            rows.slopes,
            rows.here.con(k),
            rows.here.code(k),
            rows.cons_round(k),
        )
    }
}

/// The rules of the direction hold, without ranks, exactly; of floats.
#[derive(Drop)]
pub struct HeightsTest<'a, H: HeightLane>(pub &'a LaneRows<'a, H>);

impl<H: LaneHeight> ColumnTest for HeightsTest<'_, H> {
    ghost CanTest = { λ test k. IsInnerColumn test.0.now k × is_whole test.0.now.slopes.spacing.kind ≡ false };

    ghost Passed = { λ test k. IsTrue (keeps_direction_at test.0.now k) };

    ghost Failed = { λ test k. keeps_direction_at test.0.now k ≡ false };

    #[inline(always)]
    fn passes(&self, k: usize) -> bool {
        let rows = self.0;
        rows.here.tell_bias();
        keeps_by_heights(
            rows.slopes,
            rows.here.con(k),
            rows.here.code(k),
            rows.cons_round(k),
        )
    }
}

/// The rule of the label holds.
#[derive(Drop)]
pub struct LabelTest<'a, H: HeightLane>(pub &'a LaneRows<'a, H>);

impl<H: LaneHeight> ColumnTest for LabelTest<'_, H> {
    ghost CanTest = { λ test. IsInnerColumn test.0.now };

    ghost Passed = { λ test k. IsTrue (keeps_label_at test.0.now k) };

    ghost Failed = { λ test k. keeps_label_at test.0.now k ≡ false };

    #[inline(always)]
    fn passes(&self, k: usize) -> bool {
        let rows = self.0;
        keeps_label(rows.here.code(k), rows.here.label(k), rows.labels_round(k))
    }
}

/// The rule of the accumulation holds, by capped numbers.
#[derive(Drop)]
pub struct CappedSumTest<'a, H: HeightLane>(pub &'a LaneRows<'a, H>);

impl<H: LaneHeight> ColumnTest for CappedSumTest<'_, H> {
    ghost CanTest = { λ test. IsInnerColumn test.0.now };

    ghost Passed = { λ test k. IsTrue (adds_up_at test.0.now k) };

    #[inline(always)]
    #[tactic(auto, using(crate::proofs::CappedSums::capped_sum_gives))]
    fn passes(&self, k: usize) -> bool {
        let rows = self.0;
        adds_up_by_capped(
            rows.here.capped_acc(k),
            rows.codes_round(k),
            rows.capped_accs_round(k),
        )
    }
}

/// The rule of the accumulation holds, by sums of 32 bits.
#[derive(Drop)]
pub struct MiddleSumTest<'a, H: HeightLane>(pub &'a LaneRows<'a, H>);

impl<H: LaneHeight> ColumnTest for MiddleSumTest<'_, H> {
    ghost CanTest = { λ test. IsInnerColumn test.0.now };

    ghost Passed = { λ test k. IsTrue (adds_up_at test.0.now k) };

    #[inline(always)]
    fn passes(&self, k: usize) -> bool {
        let rows = self.0;
        adds_up_by_middle(rows.here.acc(k), rows.codes_round(k), rows.accs_round(k))
    }
}

/// The rule of the accumulation holds, however large the numbers are.
#[derive(Drop)]
pub struct SumTest<'a, H: HeightLane>(pub &'a LaneRows<'a, H>);

impl<H: LaneHeight> ColumnTest for SumTest<'_, H> {
    ghost CanTest = { λ test. IsInnerColumn test.0.now };

    ghost Passed = { λ test k. IsTrue (adds_up_at test.0.now k) };

    ghost Failed = { λ test k. adds_up_at test.0.now k ≡ false };

    #[inline(always)]
    fn passes(&self, k: usize) -> bool {
        let rows = self.0;
        adds_up(rows.here.acc(k), rows.codes_round(k), rows.accs_round(k))
    }
}

/// The conditioned elevation and the direction aren't their no-data numbers.
#[derive(Drop)]
pub struct WayTest<'a, H: HeightLane> {
    pub row: &'a LaneRow<'a, H>,
    pub nodata: &'a NoData,
}

impl<H: LaneHeight> ColumnTest for WayTest<'_, H> {
    ghost CanTest = { λ test k. k < cols test.row.now };

    ghost Passed = { λ test. HasWayAt test.nodata.now test.row.now };

    #[inline(always)]
    fn passes(&self, k: usize) -> bool {
        self.row.con_differs(k, self.nodata) & dir_differs(self.row.code(k), self.nodata)
    }
}

/// The accumulation and the label aren't their no-data numbers.
#[derive(Drop)]
pub struct CountsTest<'a, H: HeightLane> {
    pub row: &'a LaneRow<'a, H>,
    pub nodata: &'a NoData,
}

impl<H: LaneHeight> ColumnTest for CountsTest<'_, H> {
    ghost CanTest = { λ test k. k < cols test.row.now };

    ghost Passed = { λ test. HasCountsAt test.nodata.now test.row.now };

    #[inline(always)]
    fn passes(&self, k: usize) -> bool {
        acc_differs(self.row.acc(k), self.nodata) & bas_differs(self.row.label(k), self.nodata)
    }
}
