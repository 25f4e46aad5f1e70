//! Decimals of a header, as whole numbers of a unit.
//!
//! A decimal may have any number of digits. Its digits are read once: those that count in the unit are added up, and a
//! sum past 128 bits stops there; of the others only whether all are zeros is kept. So a decimal is compared with its
//! limit before its further places are dropped, in one step per digit.

ghost use Rattle.std.specs.Prelude.{◌≡◌, ◌+◌, ◌*◌, ◌-◌, ◌^◌, ◌<◌, ◌≤◌, ◌==◌, if◌then◌else◌};
ghost use Rattle.drain_header.specs.Names.{length, ℕ, min, option_map, IfSome, digits_value, digits_value_after, AllDigits};
ghost use Rattle.drain_header.specs.Decimals.{parts_of, decimal_from_parts, IsOfDigits, IsScaled, Compares, with_sign, decimal_of, coordinate_of, decimal_nodata};

use crate::numeral::{Numeral, scan};

/// The greatest magnitude of a coordinate, 10^10, in units of 10^-15.
const MAX_COORDINATE: u128 = 10_000_000_000_000_000_000_000_000;

/// The greatest magnitude of a no-data number.
const MAX_NODATA: u128 = 10_000_000_000;

/// The coordinate of a word, in units of 10^-15 without further places.
pub fn coordinate(word: &[u8]) -> Option<i128>
    ensures { result ≡ coordinate_of word.now }
{
    let (negative, numeral) = decimal(word)?;
    let (units, is_exact) = in_units(&numeral, 15);
    if !is_within(units, is_exact, MAX_COORDINATE) {
        return None;
    }
    Some(signed(negative, units))
}

/// The no-data number of a word: a decimal that is a whole number.
pub fn nodata(word: &[u8]) -> Option<i64>
    ensures { result ≡ decimal_nodata word.now }
{
    let (negative, numeral) = decimal(word)?;
    let (units, is_exact) = in_units(&numeral, 0);
    if !is_exact {
        return None;
    }
    if !is_within(units, is_exact, MAX_NODATA) {
        return None;
    }
    Some(small_signed(negative, units as u64))
}

/// Whether a magnitude is at most the limit: its whole units, and whether it has no further places.
fn is_within(units: u128, is_exact: bool, limit: u128) -> bool
    ensures { Compares units is_exact limit result }
{
    if units == limit {
        is_exact
    } else {
        units < limit
    }
}

fn signed(negative: bool, magnitude: u128) -> i128
    requires { magnitude < 2 ^ 127 }
    ensures { result ≡ with_sign negative magnitude }
{
    let number = magnitude as i128;
    if negative { -number } else { number }
}

fn small_signed(negative: bool, magnitude: u64) -> i64
    requires { magnitude < 2 ^ 63 }
    ensures { result ≡ with_sign negative magnitude }
{
    let number = magnitude as i64;
    if negative { -number } else { number }
}

/// Whether a decimal has the sign `-`, and its parts.
fn decimal(word: &[u8]) -> Option<(bool, Numeral<'_>)>
    ensures value { option_map decimal_from_parts result ≡ decimal_of word.now }
    ensures digits { IfSome result (λ found. IsOfDigits found.1) }
{
    let negative = !word.is_empty() && word[0] == b'-';
    let signed = negative || !word.is_empty() && word[0] == b'+';
    let unsigned = if signed { &word[1..] } else { word };
    let numeral = scan(unsigned);
    if numeral.whole.len() + numeral.fraction.len() == 0
        || numeral.len != unsigned.len()
        || numeral.exponent.len() > 3
    {
        return None;
    }
    Some((negative, numeral))
}

/// A decimal without its sign in units of 10^-places, at most `u128::MAX`, and whether it has no further places.
fn in_units(numeral: &Numeral<'_>, places: usize) -> (u128, bool)
    requires digits { IsOfDigits numeral.now }
    requires places { places ≤ 15 }
    ensures { IsScaled (parts_of numeral.now) places result.0 result.1 }
{
    let (up, down) = scales(
        numeral.exponent_negative,
        power(numeral.exponent),
        places,
        numeral.fraction.len(),
    );
    let dropped = down.saturating_sub(up);
    let kept = (numeral.whole.len() + numeral.fraction.len()).saturating_sub(dropped);
    let kept_whole = kept.min(numeral.whole.len());
    let kept_fraction = kept - kept_whole;
    let value = append_digits(0, &numeral.whole[..kept_whole]);
    let value = append_digits(value, &numeral.fraction[..kept_fraction]);
    let value = append_noughts(value, up.saturating_sub(down));
    let is_exact = are_noughts(&numeral.whole[kept_whole..])
        && are_noughts(&numeral.fraction[kept_fraction..]);
    (value, is_exact)
}

/// The number of an exponent, without its sign.
fn power(exponent: &[u8]) -> usize
    requires digits { AllDigits 10 exponent.now }
    requires short { length exponent.now ≤ 3 }
    ensures value { result ≡ digits_value 10 exponent.now }
    ensures small { result < 1000 }
{
    append_digits(0, exponent) as usize
}

/// By how many powers of ten the digits are raised and lowered.
fn scales(negative: bool, power: usize, places: usize, fraction_length: usize) -> (usize, usize)
    requires { (power < 1000) × (places ≤ 15) × (fraction_length < 2 ^ 63) }
    ensures up { result.0 ≡ (if negative then 0 else power) + places }
    ensures down { result.1 ≡ fraction_length + (if negative then power else 0) }
{
    if negative {
        (places, fraction_length + power)
    } else {
        (places + power, fraction_length)
    }
}

/// A number with digits appended, at most `u128::MAX`.
fn append_digits(number: u128, digits: &[u8]) -> u128
    requires { AllDigits 10 digits.now }
    ensures { (n : ℕ) → number ≡ min n (2 ^ 128 - 1) → result ≡ min (digits_value_after 10 n digits.now) (2 ^ 128 - 1) }
{
    let mut value = number;
    for digit in digits {
        value = value
            .saturating_mul(10)
            .saturating_add((*digit - b'0') as u128);
    }
    value
}

/// A number with zeros appended, at most `u128::MAX`.
fn append_noughts(number: u128, count: usize) -> u128
    ensures { (n : ℕ) → number ≡ min n (2 ^ 128 - 1) → result ≡ min (n * 10 ^ count) (2 ^ 128 - 1) }
{
    let mut value = number;
    for _ in 0..count {
        value = value.saturating_mul(10);
    }
    value
}

/// Whether the digits are all zeros.
fn are_noughts(digits: &[u8]) -> bool
    requires { AllDigits 10 digits.now }
    ensures { result ≡ (digits_value 10 digits.now == 0) }
{
    for digit in digits {
        if *digit != b'0' {
            return false;
        }
    }
    true
}
