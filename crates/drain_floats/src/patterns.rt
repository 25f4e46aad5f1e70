//! Patterns of floats as numbers that are ordered as they are.

ghost use Rattle.std.specs.Prelude.{◌≡◌, pos, neg_ℤ, ◌≤ℤ◌};
ghost use Rattle.drain_floats.specs.Patterns.{IsSingle, is_finite, number_of, pattern_of};

/// The number of a pattern.
#[inline(always)]
pub fn number(pattern: u32) -> i64
    ensures value { result ≡ number_of pattern }
    ensures low { neg_ℤ (pos 2139095040) ≤ℤ result }
    ensures high { result ≤ℤ pos 2143289344 }
{
    let place = pattern % 2147483648;
    if place > 2139095040 {
        2143289344
    } else if pattern < 2147483648 {
        i64::from(pattern)
    } else {
        -i64::from(pattern - 2147483648)
    }
}

/// Whether the number is that of a finite float, neither of an infinity nor of NaN.
#[inline(always)]
pub fn is_finite(number: i64) -> bool
    ensures { result ≡ is_finite number }
{
    (-2139095039 <= number) & (number <= 2139095039)
}

/// The pattern that is written for a number.
pub fn pattern(number: i64) -> u32
    requires low { neg_ℤ (pos 2147483647) ≤ℤ number }
    requires high { number ≤ℤ pos 2147483647 }
    ensures value { result ≡ pattern_of number }
{
    if number < 0 {
        2147483648 + (-number) as u32
    } else {
        number as u32
    }
}
