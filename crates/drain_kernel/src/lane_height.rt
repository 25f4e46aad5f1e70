//! Heights in lanes of 16 bits or of 32, and what the tests do with them.

use crate::cells::{differs, differs_short};
use drain_grid::NoData;
use drain_pixels::row_lanes::HeightLane;
use drain_slope::fraction::Fraction;

/// A height in a lane: a number, as many above the lowest height as the height lies.
pub trait LaneHeight: HeightLane {
    ghost use Rattle.std.specs.Prelude.{◌≡◌, ◌≢◌, ◌-◌, ◌*◌, ◌==◌};
    ghost use Rattle.drain_kernel.specs.Names.{IsTrue, min, max, nat_lt, nat_le, neg_ℤ, pos, IsNumber};
    ghost use Rattle.drain_kernel.specs.Falls.{highest};
    ghost use Rattle.drain_kernel.specs.Shown.{lowered};
    ghost use Rattle.drain_kernel.specs.Tests.{is_as_steep, is_as_steep_across};

    /// The greatest.
    fn highest() -> Self
        ensures { Self.number result ≡ highest Self.bias };

    /// The height whose lane would be that of a void.
    fn lowest() -> i64
        ensures { result ≡ neg_ℤ (pos Self.bias) };

    /// The height that it holds.
    fn height(self) -> i64
        ensures is { result ≡ lowered Self.bias (Self.number self) }
        ensures number { IsNumber result };

    /// A code with as many bits as the lane, so that a loop takes as many of both at a time.
    fn of_code(code: u16) -> Self
        ensures { Self.number result ≡ code };

    /// The lesser of two.
    fn lesser(self, other: Self) -> Self
        ensures { Self.number result ≡ min (Self.number self) (Self.number other) };

    /// The greater of two.
    fn greater(self, other: Self) -> Self
        ensures { Self.number result ≡ max (Self.number self) (Self.number other) };

    /// How far the other is below, 0 if it isn't.
    fn drop_to(self, low: Self) -> Self
        ensures { Self.number result ≡ Self.number self - Self.number low };

    /// Whether they are the same.
    fn is_same(self, other: Self) -> bool
        ensures { result ≡ (Self.number self == Self.number other) };

    /// Whether it is below.
    fn is_below(self, other: Self) -> bool
        ensures { result ≡ nat_lt (Self.number self) (Self.number other) };

    /// Whether it is not above.
    fn is_at_most(self, other: Self) -> bool
        ensures { result ≡ nat_le (Self.number self) (Self.number other) };

    /// Whether this drop along a row or a column is at least as steep as that one across a corner.
    fn is_as_steep(self, aslant: Self) -> bool
        ensures { result ≡ is_as_steep (Self.number self) (Self.number aslant) };

    /// Whether this drop across a corner is at least as steep as that one along a row or a column.
    fn is_as_steep_across(self, along: Self) -> bool
        ensures { result ≡ is_as_steep_across (Self.number self) (Self.number along) };

    /// Whether this drop is no steeper than another, by a fraction.
    fn is_no_steeper(self, other: Self, fraction: Fraction) -> bool
        ensures { result ≡ nat_le (Self.number self * fraction.p) (Self.number other * fraction.q) };

    /// Whether a conditioned elevation isn't its no-data number.
    fn con_differs(self, nodata: &NoData) -> bool
        ensures { IsTrue result → lowered Self.bias (Self.number self) ≢ nodata.now.con };
}

impl LaneHeight for u16 {
    #[inline(always)]
    fn highest() -> u16 {
        65535
    }

    #[inline(always)]
    fn lowest() -> i64 {
        -32768
    }

    #[inline(always)]
    fn height(self) -> i64 {
        i64::from(self) - 32768
    }

    #[inline(always)]
    fn of_code(code: u16) -> u16 {
        code
    }

    #[inline(always)]
    fn lesser(self, other: u16) -> u16 {
        self.min(other)
    }

    #[inline(always)]
    fn greater(self, other: u16) -> u16 {
        self.max(other)
    }

    #[inline(always)]
    fn drop_to(self, low: u16) -> u16 {
        self.saturating_sub(low)
    }

    #[inline(always)]
    fn is_same(self, other: u16) -> bool {
        self == other
    }

    #[inline(always)]
    fn is_below(self, other: u16) -> bool {
        self < other
    }

    #[inline(always)]
    fn is_at_most(self, other: u16) -> bool {
        self <= other
    }

    #[inline(always)]
    fn is_as_steep(self, aslant: u16) -> bool {
        let along_square = u32::from(self) * u32::from(self);
        let aslant_square = u32::from(aslant) * u32::from(aslant);
        aslant_square / 2 + aslant_square % 2 <= along_square
    }

    #[inline(always)]
    fn is_as_steep_across(self, along: u16) -> bool {
        let along_square = u32::from(along) * u32::from(along);
        let aslant_square = u32::from(self) * u32::from(self);
        along_square <= aslant_square / 2
    }

    #[inline(always)]
    fn is_no_steeper(self, other: u16, fraction: Fraction) -> bool {
        u32::from(self) * u32::from(fraction.p) <= u32::from(other) * u32::from(fraction.q)
    }

    #[inline(always)]
    fn con_differs(self, nodata: &NoData) -> bool {
        differs_short(self, nodata.con + 32768)
    }
}

impl LaneHeight for u32 {
    #[inline(always)]
    fn highest() -> u32 {
        0xFFFF_FFFF
    }

    #[inline(always)]
    fn lowest() -> i64 {
        -2147483648
    }

    #[inline(always)]
    fn height(self) -> i64 {
        i64::from(self) - 2147483648
    }

    #[inline(always)]
    fn of_code(code: u16) -> u32 {
        u32::from(code)
    }

    #[inline(always)]
    fn lesser(self, other: u32) -> u32 {
        self.min(other)
    }

    #[inline(always)]
    fn greater(self, other: u32) -> u32 {
        self.max(other)
    }

    #[inline(always)]
    fn drop_to(self, low: u32) -> u32 {
        self.saturating_sub(low)
    }

    #[inline(always)]
    fn is_same(self, other: u32) -> bool {
        self == other
    }

    #[inline(always)]
    fn is_below(self, other: u32) -> bool {
        self < other
    }

    #[inline(always)]
    fn is_at_most(self, other: u32) -> bool {
        self <= other
    }

    #[inline(always)]
    fn is_as_steep(self, aslant: u32) -> bool {
        let along_square = u64::from(self) * u64::from(self);
        let aslant_square = u64::from(aslant) * u64::from(aslant);
        aslant_square / 2 + aslant_square % 2 <= along_square
    }

    #[inline(always)]
    fn is_as_steep_across(self, along: u32) -> bool {
        let along_square = u64::from(along) * u64::from(along);
        let aslant_square = u64::from(self) * u64::from(self);
        along_square <= aslant_square / 2
    }

    #[inline(always)]
    fn is_no_steeper(self, other: u32, fraction: Fraction) -> bool {
        u64::from(self) * u64::from(fraction.p) <= u64::from(other) * u64::from(fraction.q)
    }

    #[inline(always)]
    fn con_differs(self, nodata: &NoData) -> bool {
        differs(self, nodata.con + 2147483648)
    }
}
