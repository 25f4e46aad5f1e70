//! Heights of floats along a stretch as whole numbers of one power of two. Between such numbers fractions say which way is
//! steeper, as between whole heights.

ghost use Rattle.std.specs.Prelude.{◌≡◌, ◌*◌, ◌≤◌, ◌<◌, ◌+◌, ◌-◌, ◌^◌, ◌/◌, ◌≤ℤ◌, ◌+ℤ◌};
ghost use Rattle.drain_kernel.specs.Names.{ℕ, slice_index, neg_ℤ, pos, IfSome, IsTrue, false, magnitude_of, IsNumber};
ghost use Rattle.drain_kernel.specs.Columns.{Along, IsInnerColumn, IsStretch, keeps_direction_at};
ghost use Rattle.drain_kernel.specs.Shown.{cols};
ghost use Rattle.drain_kernel.specs.Slopes.{is_whole};
ghost use Rattle.drain_kernel.specs.Units.{AreInBlock, AreInOneBlock, AreInOneUnit, AreInUnit, IsInBlock, IsInUnit, made_offset};
ghost use Rattle.drain_kernel.specs.Around.{around_in};
ghost use Rattle.drain_kernel.specs.Eights.{eight};

use crate::around::{Eight, around};
use crate::column_test::{ColumnTest, passes_along};
use crate::lane_height::LaneHeight;
use crate::lane_row::LaneRow;
use crate::lane_rows::LaneRows;
use crate::ways_down::goes_by_fractions;
use drain_pixels::row_lanes::HeightLane;
use drain_slope::singles::{digits, height, shift};

/// By how many bits heights of one unit may differ: 24 digits and these fit 31 bits.
const MORE_BITS: u32 = 7;

/// Digits of a float times a power of two.
#[inline(always)]
fn shifted(digits: u64, up: u32) -> u32
    requires few_digits { digits < 2 ^ 24 }
    requires few_bits { up ≤ 7 }
    ensures value { result ≡ digits * 2 ^ up }
    ensures few { result < 2 ^ 31 }
{
    (digits << up) as u32
}

/// The float at a place as so many units, if it is one of at most 31 bits.
#[inline(always)]
#[tactic(auto, using(crate::proofs::Made::units_are))]
fn units_of(place: u64, unit: u32) -> Option<u32>
    requires { place ≤ 2 ^ 32 }
    ensures value { IfSome result (λ units. magnitude_of place ≡ units * 2 ^ unit) }
    ensures few { IfSome result (λ units. units < 2 ^ 31) }
{
    let digits = digits(place);
    let shift = shift(place);
    if digits == 0 {
        Some(0)
    } else if shift < unit || shift - unit > MORE_BITS {
        None
    } else {
        Some(shifted(digits, shift - unit))
    }
}

/// A height as so many units, with 2^31 added, if it is one of at most 31 bits.
#[inline(always)]
#[tactic(auto, using(crate::proofs::Made::above_0, crate::proofs::Made::below_0))]
fn lane_in_unit(number: i64, unit: u32) -> Option<u32>
    requires { IsNumber number }
    ensures { IfSome result (λ lane. IsInUnit unit (made_offset unit) number lane) }
{
    let units = units_of(number.unsigned_abs(), unit)?;
    Some(if number < 0 {
        2147483648 - units
    } else {
        2147483648 + units
    })
}

/// The conditioned elevations of a row at these columns, if they all are in this unit.
#[tactic(auto, using(crate::proofs::UnitWays::one_more))]
fn row_in_unit<H: LaneHeight>(
    row: &LaneRow<H>,
    from: usize,
    end: usize,
    unit: u32,
) -> Option<[u32; 66]>
    requires ordered { from ≤ end }
    requires inside { end ≤ cols row.now }
    requires few { end - from ≤ 66 }
    ensures { IfSome result (λ lanes. AreInUnit unit H.bias row.now.con from lanes (end - from)) }
{
    let mut lanes = [0; 66];
    for k in from..end {
        lanes[k - from] = lane_in_unit(row.con(k).height(), unit)?;
    }
    Some(lanes)
}

/// The block of a height: of floats of one exponent and sign, 2^23 numbers.
#[inline(always)]
fn block_of(height: i64) -> u64
    requires { IsNumber height }
    ensures { (n : ℕ) × (pos n ≡ height +ℤ pos 4294967296) × (n / 8388608 ≡ result) }
{
    (height + 4294967296) as u64 / 8388608
}

/// The conditioned elevation of the column is of this block.
#[derive(Drop)]
pub struct BlockTest<'a, H: HeightLane> {
    row: &'a LaneRow<'a, H>,
    block: u64,
}

impl<H: LaneHeight> ColumnTest for BlockTest<'_, H> {
    ghost CanTest = { λ test k. k < cols test.row.now };

    ghost Passed = { λ test k. IsInBlock test.block H.bias (slice_index test.row.now.con k) };

    #[inline(always)]
    fn passes(&self, k: usize) -> bool {
        block_of(self.row.con(k).height()) == self.block
    }
}

/// The rules of the direction hold, without ranks, by fractions of the numbers of floats of one block.
#[derive(Drop)]
pub struct PlacesTest<'a, H: HeightLane> {
    rows: &'a LaneRows<'a, H>,
    block: u64,
    from: usize,
    end: usize,
}

impl<H: LaneHeight> ColumnTest for PlacesTest<'_, H> {
    ghost CanTest = { λ test k. IsInnerColumn test.rows.now k × is_whole test.rows.now.slopes.spacing.kind ≡ false × (test.from + 1 ≤ k) × (k + 1 < test.end) × AreInOneBlock H.bias test.block test.rows.now test.from test.end };

    ghost Passed = { λ test k. IsTrue (keeps_direction_at test.rows.now k) };

    #[inline(always)]
    fn passes(&self, k: usize) -> bool {
        let rows = self.rows;
        rows.here.tell_bias();
        rows.slopes.tell();
        goes_by_fractions(
            rows.slopes,
            rows.here.con(k),
            rows.here.code(k),
            rows.cons_round(k),
        )
    }
}

/// Whether the conditioned elevations of a row are of this block from a column up to another.
fn are_in_block<H: LaneHeight>(row: &LaneRow<H>, block: u64, from: usize, end: usize) -> bool
    requires ordered { from ≤ end }
    requires inside { end ≤ cols row.now }
    ensures { IsTrue result → AreInBlock block H.bias row.now.con from end }
{
    passes_along(&BlockTest { row, block }, from, end)
}

/// Whether those of three rows are.
fn are_in_one_block<H: LaneHeight>(rows: &LaneRows<H>, block: u64, from: usize, end: usize) -> bool
    requires ordered { from ≤ end }
    requires above { end ≤ cols rows.now.above }
    requires here { end ≤ cols rows.now.here }
    requires below { end ≤ cols rows.now.below }
    ensures { IsTrue result → AreInOneBlock H.bias block rows.now from end }
{
    let here = are_in_block(&rows.here, block, from, end);
    let above = are_in_block(&rows.above, block, from, end);
    let below = are_in_block(&rows.below, block, from, end);
    here & above & below
}

/// Whether the rules of the direction hold, without ranks, of floats of one block. False shows nothing.
fn directions_in_block<H: LaneHeight>(rows: &LaneRows<H>, from: usize, end: usize) -> bool
    requires stretch { IsStretch rows.now from end }
    requires floats { is_whole rows.now.slopes.spacing.kind ≡ false }
    ensures { IsTrue result → Along from end (λ k. IsTrue (keeps_direction_at rows.now k)) }
{
    let left = from - 1;
    let after = rows.here.right_of(end);
    let block = block_of(rows.here.con(from).height());
    if !are_in_one_block(rows, block, left, after) {
        return false;
    }
    let test = PlacesTest {
        rows,
        block,
        from: left,
        end: after,
    };
    passes_along(&test, from, end)
}

/// The least and the greatest lane of as many columns from one on.
#[derive(Clone, Copy)]
struct Ends<H> {
    least: H,
    greatest: H,
}

impl<H: LaneHeight> Ends<H> {
    /// Those of these and of the conditioned elevations of a row.
    fn with(self, row: &LaneRow<H>, from: usize, end: usize) -> Ends<H>
        requires ordered { from ≤ end }
        requires inside { end ≤ cols row.now }
    {
        let mut least = self.least;
        let mut greatest = self.greatest;
        for k in from..end {
            least = least.lesser(row.con(k));
            greatest = greatest.greater(row.con(k));
        }
        Ends { least, greatest }
    }

    /// A unit that is small enough for the heights between them.
    fn unit(self) -> u32 {
        let low = height(self.least.height()).shift;
        let high = height(self.greatest.height()).shift;
        low.max(high).saturating_sub(MORE_BITS)
    }
}

/// The rules of the direction hold, without ranks, by fractions of heights in one unit; of floats.
#[derive(Drop)]
pub struct UnitTest<'a, H: HeightLane> {
    rows: &'a LaneRows<'a, H>,
    /// The first column, and how many there are.
    from: usize,
    count: usize,
    unit: u32,
    above: [u32; 66],
    here: [u32; 66],
    below: [u32; 66],
}

impl<'a, H: LaneHeight> UnitTest<'a, H> {
    /// That of a stretch of at most 64 columns, if all heights of these and of those beside them are in one unit.
    fn of(rows: &'a LaneRows<'a, H>, from: usize, end: usize) -> Option<UnitTest<'a, H>>
        requires { IsStretch rows.now from end }
        ensures rows { IfSome result (λ test. test.rows.now ≡ rows.entry.now) }
        ensures from { IfSome result (λ test. test.from + 1 ≡ from) }
        ensures end { IfSome result (λ test. test.from + test.count ≡ end + 1) }
        ensures few { IfSome result (λ test. test.count ≤ 66) }
        ensures taken { IfSome result (λ test. AreInOneUnit H.bias test.unit rows.entry.now test.from test.count test.above test.here test.below) }
    {
        if end - from > 64 {
            return None;
        }
        let left = from - 1;
        let after = rows.here.right_of(end);
        let at = rows.here.con(from);
        let ends = Ends {
            least: at,
            greatest: at,
        };
        let unit = ends
            .with(&rows.above, left, after)
            .with(&rows.here, left, after)
            .with(&rows.below, left, after)
            .unit();
        Some(UnitTest {
            rows,
            from: left,
            count: after - left,
            unit,
            above: row_in_unit(&rows.above, left, after, unit)?,
            here: row_in_unit(&rows.here, left, after, unit)?,
            below: row_in_unit(&rows.below, left, after, unit)?,
        })
    }

    /// The heights of the neighbours of a column.
    #[inline(always)]
    fn cons_round(&self, k: usize) -> Eight<u32>
        requires left { self.now.from + 1 ≤ k }
        requires right { k + 1 < self.now.from + 66 }
        ensures { eight (λ lane. lane) result ≡ around_in self.now.above self.now.here self.now.below (k - self.now.from) }
    {
        let [
            east,
            south_east,
            south,
            south_west,
            west,
            north_west,
            north,
            north_east,
        ] = around(&self.above, &self.here, &self.below, k - self.from);
        Eight {
            east,
            south_east,
            south,
            south_west,
            west,
            north_west,
            north,
            north_east,
        }
    }
}

impl<H: LaneHeight> ColumnTest for UnitTest<'_, H> {
    ghost CanTest = { λ test k. IsInnerColumn test.rows.now k × is_whole test.rows.now.slopes.spacing.kind ≡ false × (test.from + 1 ≤ k) × (k + 1 < test.from + test.count) × (test.count ≤ 66) × AreInOneUnit H.bias test.unit test.rows.now test.from test.count test.above test.here test.below };

    ghost Passed = { λ test k. IsTrue (keeps_direction_at test.rows.now k) };

    #[inline(always)]
    #[tactic(auto, using(crate::proofs::UnitWays::kept_in_unit))]
    fn passes(&self, k: usize) -> bool {
        let rows = self.rows;
        rows.here.tell_bias();
        rows.slopes.tell();
        goes_by_fractions(
            rows.slopes,
            self.here[k - self.from],
            rows.here.code(k),
            self.cons_round(k),
        )
    }
}

/// Whether the rules of the direction hold, without ranks, by heights in one unit; of floats. False shows nothing.
fn directions_in_unit<H: LaneHeight>(rows: &LaneRows<H>, from: usize, end: usize) -> bool
    requires stretch { IsStretch rows.now from end }
    requires floats { is_whole rows.now.slopes.spacing.kind ≡ false }
    ensures { IsTrue result → Along from end (λ k. IsTrue (keeps_direction_at rows.now k)) }
{
    match UnitTest::of(rows, from, end) {
        Some(test) => passes_along(&test, from, end),
        None => false,
    }
}

/// Whether the rules of the direction hold, without ranks, by fractions of floats; of one block, else in one unit. False
/// shows nothing.
pub(crate) fn directions_by_fractions<H: LaneHeight>(
    rows: &LaneRows<H>,
    from: usize,
    end: usize,
) -> bool
    requires stretch { IsStretch rows.now from end }
    requires floats { is_whole rows.now.slopes.spacing.kind ≡ false }
    ensures { IsTrue result → Along from end (λ k. IsTrue (keeps_direction_at rows.now k)) }
{
    directions_in_block(rows, from, end) || directions_in_unit(rows, from, end)
}
