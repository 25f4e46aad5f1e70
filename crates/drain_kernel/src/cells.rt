//! The tests at one cell, without a branch, so that a loop of them can take many cells at a time.

ghost use Rattle.std.specs.Prelude.{◌≡◌, ◌≢◌, IsTrue, pos};
ghost use Rattle.drain_kernel.specs.Eights.{eight};
ghost use Rattle.drain_kernel.specs.Tests.{keeps_direction, keeps_label, keeps_surface, falls_steepest, steps_along};

use crate::around::{
    Eight, is_direction, is_straight, least_across, least_straight, named, named_height,
};
use crate::lane_height::LaneHeight;
use drain_grid::NoData;
use drain_pixels::lane::{is_lane, is_short_lane, lane, short_lane};

/// The rules of the conditioned elevation, at a cell where all have data.
#[inline(always)]
#[tactic(auto, unfolding(crate::specs::Tests::keeps_surface))]
pub fn keeps_surface<H: LaneHeight>(height: H, con: H, cons: Eight<H>) -> bool
    ensures { result ≡ keeps_surface (H.number height) (H.number con) (eight H.number cons) }
{
    let least = least_straight(cons).lesser(least_across(cons));
    height.is_at_most(con) & con.is_at_most(height.greater(least))
}

/// Whether the code leads down the steepest way.
#[inline(always)]
#[tactic(auto, unfolding(crate::specs::Tests::falls_steepest))]
pub(crate) fn falls_steepest<H: LaneHeight>(con: H, code: u16, cons: Eight<H>) -> bool
    ensures { result ≡ falls_steepest (H.number con) code (eight H.number cons) }
{
    let next = named_height(code, cons);
    let straight = least_straight(cons);
    let across = least_across(cons);
    let along = con.drop_to(straight);
    let aslant = con.drop_to(across);
    let goes_straight = is_straight(code) & next.is_same(straight) & along.is_as_steep(aslant);
    let goes_across = !is_straight(code) & next.is_same(across) & aslant.is_as_steep_across(along);
    next.is_below(con) & (goes_straight | goes_across)
}

/// Whether no neighbour is lower, and the code leads along the flat.
#[inline(always)]
#[tactic(auto, unfolding(crate::specs::Tests::steps_along))]
pub(crate) fn steps_along<H: LaneHeight>(con: H, code: u16, cons: Eight<H>) -> bool
    ensures { result ≡ steps_along (H.number con) code (eight H.number cons) }
{
    let least = least_straight(cons).lesser(least_across(cons));
    named_height(code, cons).is_same(con) & con.is_at_most(least)
}

/// The rules of the direction, without ranks, at a cell where all have data.
#[inline(always)]
#[tactic(auto, unfolding(crate::specs::Tests::keeps_direction))]
pub fn keeps_direction<H: LaneHeight>(con: H, code: u16, cons: Eight<H>) -> bool
    ensures { result ≡ keeps_direction (H.number con) code (eight H.number cons) }
{
    let goes = falls_steepest(con, code, cons) | steps_along(con, code, cons);
    is_direction(code) & goes
}

/// The rule of the label, at a cell where all have data.
#[inline(always)]
pub fn keeps_label(code: u16, label: u32, labels: [u32; 8]) -> bool
    ensures { result ≡ keeps_label code label labels }
{
    named(u32::from(code), labels) == label
}

/// Whether a lane isn't this number, converted to a lane first: so lanes are compared with lanes, and a loop converts
/// once.
#[inline(always)]
pub fn differs(here: u32, number: i64) -> bool
    ensures { IsTrue result → pos here ≢ number }
{
    !is_lane(number) | (here != lane(number))
}

/// Whether a short lane isn't this number, converted to a short lane first.
#[inline(always)]
pub fn differs_short(here: u16, number: i64) -> bool
    ensures { IsTrue result → pos here ≢ number }
{
    !is_short_lane(number) | (here != short_lane(number))
}

/// Whether a direction isn't its no-data number.
#[inline(always)]
pub fn dir_differs(dir: u16, nodata: &NoData) -> bool
    ensures { IsTrue result → pos dir ≢ nodata.now.dir }
{
    differs_short(dir, nodata.dir)
}

/// Whether an accumulation isn't its no-data number.
#[inline(always)]
pub fn acc_differs(acc: u32, nodata: &NoData) -> bool
    ensures { IsTrue result → pos acc ≢ nodata.now.acc }
{
    differs(acc, nodata.acc)
}

/// Whether a label isn't its no-data number.
#[inline(always)]
pub fn bas_differs(bas: u32, nodata: &NoData) -> bool
    ensures { IsTrue result → pos bas ≢ nodata.now.bas }
{
    differs(bas, nodata.bas)
}
