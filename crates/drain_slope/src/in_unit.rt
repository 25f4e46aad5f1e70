//! Which of two slopes down from a height is steeper, exactly, for heights of like size: their shifts differ by at most
//! 7 bits.
//!
//! Such heights are whole numbers of one unit, the power of two of the least shift. They have at most 31 bits, so the
//! drops between them have at most 32, and two products of 128 bits decide.

ghost use Rattle.std.specs.Prelude.{◌≡◌, ◌<◌, ◌≤◌, ◌^◌, pos, neg_ℤ, unsigned_abs, ◌-ℤ◌, ◌*ℤ◌, ◌≤ℤ◌};
ghost use Rattle.drain_slope.specs.Singles.{ComparesDrops};
ghost use Rattle.drain_slope.specs.Terms.{IsNear, IsWithin, term_value};

use crate::is_less;
use crate::terms::Term;

/// The power of two of this exponent.
#[inline(always)]
fn power(exponent: u32) -> i64
    requires { exponent ≤ 7 }
    ensures value { result ≡ pos (2 ^ exponent) }
{
    1 << exponent
}

/// The number of a height, in 64 bits.
#[inline(always)]
fn number_of(height: Term) -> i64
    requires { IsWithin (2 ^ 24) height }
    ensures { result ≡ height.number }
{
    height.number as i64
}

/// The product of a number of at most 24 bits and a power of two of at most 7.
#[inline(always)]
fn scaled(number: i64, power: i64) -> i64
    requires low_number { neg_ℤ (pos (2 ^ 24)) ≤ℤ number }
    requires high_number { number ≤ℤ pos (2 ^ 24) }
    requires low_power { pos 0 ≤ℤ power }
    requires high_power { power ≤ℤ pos (2 ^ 7) }
    ensures value { result ≡ number *ℤ power }
    ensures low { neg_ℤ (pos (2 ^ 31)) ≤ℤ result }
    ensures high { result ≤ℤ pos (2 ^ 31) }
{
    number * power
}

/// A height as a whole number of units, of which each is the power of two of this shift.
#[inline(always)]
pub fn in_unit(height: Term, unit: u32) -> i64
    requires { IsNear unit height }
    ensures value { term_value height ≡ result *ℤ pos (2 ^ unit) }
    ensures low { neg_ℤ (pos (2 ^ 31)) ≤ℤ result }
    ensures high { result ≤ℤ pos (2 ^ 31) }
{
    scaled(number_of(height), power(height.shift - unit))
}

/// How far two heights are apart, in units.
fn apart(a: i64, b: i64) -> u64
    requires low_a { neg_ℤ (pos (2 ^ 31)) ≤ℤ a }
    requires high_a { a ≤ℤ pos (2 ^ 31) }
    requires low_b { neg_ℤ (pos (2 ^ 31)) ≤ℤ b }
    requires high_b { b ≤ℤ pos (2 ^ 31) }
    ensures value { result ≡ unsigned_abs (a -ℤ b) }
    ensures few { result < 2 ^ 33 }
{
    a.abs_diff(b)
}

/// Whether the way down to the first height is steeper than that to the second, by the squares of their distances.
pub fn is_steeper_in_unit(h: Term, f: Term, s: Term, unit: u32, over: u64, other_over: u64) -> bool
    requires h { IsNear unit h }
    requires f { IsNear unit f }
    requires s { IsNear unit s }
    requires over { over ≤ 2 ^ 61 }
    requires other { other_over ≤ 2 ^ 61 }
    ensures { ComparesDrops (term_value h) (term_value f) (term_value s) over other_over result }
{
    let here = in_unit(h, unit);
    let drop = apart(here, in_unit(f, unit));
    let other_drop = apart(here, in_unit(s, unit));
    is_less(other_drop, over, drop, other_over)
}
