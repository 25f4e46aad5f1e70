//! The test of the conditioned elevation and of the direction in 16 bits. Drops of at most 255 are near: their squares
//! fit.

ghost use Rattle.std.specs.Prelude.{◌≡◌, ◌≤◌, ◌*◌, IsTrue};
ghost use Rattle.drain_kernel.specs.Around.{LeadsAcross, LeadsStraight};
ghost use Rattle.drain_kernel.specs.Eights.{eight};
ghost use Rattle.drain_kernel.specs.Tests.{keeps_direction, keeps_surface};

use crate::around::{Eight, least_across, least_straight};
use crate::cells::{keeps_direction, keeps_surface};
use crate::lane_height::LaneHeight;

/// The greatest drop whose square fits 16 bits.
const GREATEST_NEAR_DROP: u16 = 255;

/// The square of a near drop.
#[inline(always)]
#[tactic(auto, using(crate::proofs::NearWays::near_square))]
fn square(drop: u16) -> u16
    ensures { drop ≤ 255 → result ≡ drop * drop }
{
    drop.wrapping_mul(drop)
}

/// Whether the code leads along a row or a column to this number.
#[inline(always)]
#[tactic(auto, using(crate::proofs::NearWays::leads_straight))]
fn leads_straight(code: u16, numbers: Eight<u16>, number: u16) -> bool
    ensures { IsTrue result → LeadsStraight code (eight (λ lane. lane) numbers) number }
{
    ((code == 1) & (numbers.east == number))
        | ((code == 4) & (numbers.south == number))
        | ((code == 16) & (numbers.west == number))
        | ((code == 64) & (numbers.north == number))
}

/// Whether the code leads across a corner to this number.
#[inline(always)]
#[tactic(auto, using(crate::proofs::NearWays::leads_across))]
fn leads_across(code: u16, numbers: Eight<u16>, number: u16) -> bool
    ensures { IsTrue result → LeadsAcross code (eight (λ lane. lane) numbers) number }
{
    ((code == 2) & (numbers.south_east == number))
        | ((code == 8) & (numbers.south_west == number))
        | ((code == 32) & (numbers.north_west == number))
        | ((code == 128) & (numbers.north_east == number))
}

/// The rules of the conditioned elevation and of the direction, without ranks, at a cell where all have data, and all
/// drops are near. Numbers above con count as con, so they are no drop and never lower.
#[inline(always)]
fn keeps_near(height: u16, con: u16, code: u16, cons: Eight<u16>) -> bool
    ensures surface { IsTrue result → IsTrue (keeps_surface height con (eight (λ lane. lane) cons)) }
    ensures direction { IsTrue result → IsTrue (keeps_direction con code (eight (λ lane. lane) cons)) }
{
    let straight = least_straight(cons).min(con);
    let across = least_across(cons).min(con);
    let along = con - straight;
    let aslant = con - across;
    let aslant_square = square(aslant);
    let along_square = square(along);
    let twice = along_square.saturating_add(along_square);
    let goes_straight = leads_straight(code, cons, straight) & (aslant_square <= twice);
    let goes_across = leads_across(code, cons, across) & (twice <= aslant_square);
    let lies = height.max(straight.min(across)) == con;
    lies & (along.max(aslant) <= GREATEST_NEAR_DROP) & (goes_straight | goes_across)
}

/// Heights of a width that has a test of surface and direction of its own.
pub trait FirstTest: LaneHeight {
    ghost use Rattle.std.specs.Prelude.{IsTrue};
    ghost use Rattle.drain_kernel.specs.Eights.{eight};
    ghost use Rattle.drain_kernel.specs.Tests.{keeps_direction, keeps_surface};

    /// Whether the rules of the conditioned elevation and of the direction hold, without ranks, at a cell where all have
    /// data. False shows no fault.
    fn keeps_way(height: Self, con: Self, code: u16, cons: Eight<Self>) -> bool
        ensures surface { IsTrue result → IsTrue (keeps_surface (Self.number height) (Self.number con) (eight Self.number cons)) }
        ensures direction { IsTrue result → IsTrue (keeps_direction (Self.number con) code (eight Self.number cons)) };
}

impl FirstTest for u16 {
    /// By drops of at most 255.
    #[inline(always)]
    fn keeps_way(height: u16, con: u16, code: u16, cons: Eight<u16>) -> bool
        ensures surface { IsTrue result → IsTrue (keeps_surface height con (eight (λ lane. lane) cons)) }
        ensures direction { IsTrue result → IsTrue (keeps_direction con code (eight (λ lane. lane) cons)) }
    {
        keeps_near(height, con, code, cons)
    }
}

impl FirstTest for u32 {
    /// By squares of 64 bits, which hold that of any drop.
    #[inline(always)]
    fn keeps_way(height: u32, con: u32, code: u16, cons: Eight<u32>) -> bool
        ensures surface { IsTrue result → IsTrue (keeps_surface height con (eight (λ lane. lane) cons)) }
        ensures direction { IsTrue result → IsTrue (keeps_direction con code (eight (λ lane. lane) cons)) }
    {
        keeps_surface(height, con, cons) & keeps_direction(con, code, cons)
    }
}
