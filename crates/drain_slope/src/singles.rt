//! Which of two slopes down from a height is steeper, exactly, for heights of single precision.
//!
//! Most heights are of like size, and are compared in one unit. Any others are compared by the sign of a sum.

ghost use Rattle.std.specs.Prelude.{◌≡◌, ◌≤◌, ◌<◌, ◌+◌, ◌*◌, ◌^◌, ◌-ℤ◌, ◌*ℤ◌, ◌≤ℤ◌};
ghost use Rattle.drain_slope.specs.Names.{pos, neg_ℤ, digits_of, shift_of, single_height};
ghost use Rattle.drain_slope.specs.Singles.{ComparesDrops, ComparesSlopes, IsNumber};
ghost use Rattle.drain_slope.specs.Terms.{IsWithin, term_value};

use crate::in_unit::is_steeper_in_unit;
use crate::terms::{Sum, Term, is_above_0};

/// The digits of the float at a place, counted from 0.
#[inline(always)]
pub fn digits(place: u64) -> u64
    ensures value { result ≡ digits_of place }
    ensures few { result < 2 ^ 24 }
{
    if place < 8388608 {
        place
    } else {
        8388608 + place % 8388608
    }
}

/// By how many bits they are shifted.
#[inline(always)]
pub fn shift(place: u64) -> u32
    requires { place ≤ 2 ^ 32 }
    ensures value { result ≡ shift_of place }
    ensures few { result ≤ 511 }
{
    let exponent = place / 8388608;
    if exponent == 0 {
        0
    } else {
        (exponent - 1) as u32
    }
}

/// The height of a number.
#[inline(always)]
pub fn height(number: i64) -> Term
    requires { IsNumber number }
    ensures value { term_value result ≡ single_height number }
    ensures few { IsWithin (2 ^ 24) result }
    ensures shift { result.shift ≤ 511 }
{
    let place = number.unsigned_abs();
    let digits = i128::from(digits(place));
    Term {
        number: if number < 0 { -digits } else { digits },
        shift: shift(place),
    }
}

/// The product of two numbers of at most 24 bits.
fn product_of(a: i128, b: i128) -> i128
    requires low_a { neg_ℤ (pos (2 ^ 24)) ≤ℤ a }
    requires high_a { a ≤ℤ pos (2 ^ 24) }
    requires low_b { neg_ℤ (pos (2 ^ 24)) ≤ℤ b }
    requires high_b { b ≤ℤ pos (2 ^ 24) }
    ensures value { result ≡ a *ℤ b }
    ensures low { neg_ℤ (pos (2 ^ 48)) ≤ℤ result }
    ensures high { result ≤ℤ pos (2 ^ 48) }
{
    a * b
}

/// The product of such a product and a factor.
fn scaled(a: i128, factor: i128) -> i128
    requires low_a { neg_ℤ (pos (2 ^ 48)) ≤ℤ a }
    requires high_a { a ≤ℤ pos (2 ^ 48) }
    requires low { neg_ℤ (pos (2 ^ 62)) ≤ℤ factor }
    requires high { factor ≤ℤ pos (2 ^ 62) }
    ensures value { result ≡ a *ℤ factor }
    ensures low { neg_ℤ (pos (2 ^ 110)) ≤ℤ result }
    ensures high { result ≤ℤ pos (2 ^ 110) }
{
    a * factor
}

/// The product of two heights and a factor.
fn product(a: Term, b: Term, factor: i128) -> Term
    requires a { IsWithin (2 ^ 24) a }
    requires b { IsWithin (2 ^ 24) b }
    requires factor_low { neg_ℤ (pos (2 ^ 62)) ≤ℤ factor }
    requires factor_high { factor ≤ℤ pos (2 ^ 62) }
    requires shift_a { a.shift ≤ 511 }
    requires shift_b { b.shift ≤ 511 }
    ensures value { term_value result ≡ (term_value a *ℤ term_value b) *ℤ factor }
    ensures few { IsWithin (2 ^ 110) result }
    ensures shift { result.shift ≡ a.shift + b.shift }
{
    Term {
        number: scaled(product_of(a.number, b.number), factor),
        shift: a.shift + b.shift,
    }
}

/// A number less another.
fn difference(a: u64, b: u64) -> i128
    requires a { a ≤ 2 ^ 61 }
    requires b { b ≤ 2 ^ 61 }
    ensures value { result ≡ pos a -ℤ pos b }
    ensures low { neg_ℤ (pos (2 ^ 62)) ≤ℤ result }
    ensures high { result ≤ℤ pos (2 ^ 62) }
{
    i128::from(a) - i128::from(b)
}

/// Twice a number.
fn twice(a: u64) -> i128
    requires a { a ≤ 2 ^ 61 }
    ensures value { result ≡ pos (2 * a) }
    ensures low { neg_ℤ (pos (2 ^ 62)) ≤ℤ result }
    ensures high { result ≤ℤ pos (2 ^ 62) }
{
    2 * i128::from(a)
}

/// The same below 0.
fn minus_twice(a: u64) -> i128
    requires a { a ≤ 2 ^ 61 }
    ensures value { result ≡ neg_ℤ (pos (2 * a)) }
    ensures low { neg_ℤ (pos (2 ^ 62)) ≤ℤ result }
    ensures high { result ≤ℤ pos (2 ^ 62) }
{
    -2 * i128::from(a)
}

/// Whether the way down to the first height is steeper than that to the second, by the squares of their distances.
pub fn is_steeper(here: i64, first: i64, second: i64, over: u64, other_over: u64) -> bool
    requires here { IsNumber here }
    requires first { IsNumber first }
    requires second { IsNumber second }
    requires over { over ≤ 2 ^ 61 }
    requires other { other_over ≤ 2 ^ 61 }
    ensures { ComparesSlopes here first second over other_over result }
{
    let h = height(here);
    let f = height(first);
    let s = height(second);
    let lowest = h.shift.min(f.shift).min(s.shift);
    let highest = h.shift.max(f.shift).max(s.shift);
    if highest - lowest <= 7 {
        is_steeper_in_unit(h, f, s, lowest, over, other_over)
    } else {
        is_steeper_by_terms(h, f, s, over, other_over)
    }
}

/// The same for any heights, by a sum of five products.
fn is_steeper_by_terms(h: Term, f: Term, s: Term, over: u64, other_over: u64) -> bool
    requires h { IsWithin (2 ^ 24) h }
    requires f { IsWithin (2 ^ 24) f }
    requires s { IsWithin (2 ^ 24) s }
    requires shift_h { h.shift ≤ 511 }
    requires shift_f { f.shift ≤ 511 }
    requires shift_s { s.shift ≤ 511 }
    requires over { over ≤ 2 ^ 61 }
    requires other { other_over ≤ 2 ^ 61 }
    ensures { ComparesDrops (term_value h) (term_value f) (term_value s) over other_over result }
{
    let sum = Sum {
        a: product(h, h, difference(other_over, over)),
        b: product(f, f, difference(other_over, 0)),
        c: product(s, s, difference(0, over)),
        d: product(h, f, minus_twice(other_over)),
        e: product(h, s, twice(over)),
    };
    let lowest = h.shift.min(f.shift).min(s.shift);
    let highest = h.shift.max(f.shift).max(s.shift);
    is_above_0(&sum, 2 * lowest, 2 * highest + 1)
}
