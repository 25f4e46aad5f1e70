//! Width and height of cells, from the text of `--spacing`.
//!
//! A decimal is read in units of 10^-18, which hold any that it may be. Then both are divided by ten while both stay
//! whole: what is left are the whole numbers of the least power of ten.

ghost use Rattle.std.specs.Prelude.{◌≡◌, ◌+◌, ◌*◌, ◌^◌, ◌-◌, ◌<◌};
ghost use Rattle.drain_args.specs.Names.{ℕ, MatchOption, length, list_all, digits_value, Distances, IsSpacing};
ghost use Rattle.std.specs.Char.{is_ascii_digit};
ghost use Rattle.drain_grid.specs.declared.height_kind.HeightKind.{HeightKind};
ghost use Rattle.drain_args.specs.SpacingTexts.{ArePartsOf, IsDecimal, IsFewDigits, IsLeastUnit, IsSpacingText, IsUnits};

use drain_grid::Spacing;

/// The most digits of a decimal before its point, and the most behind it.
const MAX_DIGITS: usize = 18;

/// How many units of 10^-18 are one.
const UNITS: u128 = 1_000_000_000_000_000_000;

/// The spacing that the text names, as `10,12.5`: two decimals with a comma between, the width and the height of a cell.
///
/// Both are multiplied by the least power of ten that makes both whole; each is then 1 to 2^30. None for any other text.
pub fn spacing_named(text: &str) -> Option<Spacing>
    ensures { MatchOption result ((s : Distances) → IsSpacing s → IsSpacingText text.now s → ⊥) (IsSpacingText text.now) }
{
    let (width, height) = text.split_once(',')?;
    let width = units_named(width)?;
    let height = units_named(height)?;
    let (width, height) = in_least_unit(width, height);
    spacing_of(width, height)
}

/// The decimal that the text names, in units of 10^-18.
fn units_named(text: &str) -> Option<u128>
    ensures { MatchOption result ((digits places : ℕ) → IsDecimal text.now digits places → ⊥) (IsUnits text.now) }
{
    let (whole, fraction) = parts(text);
    units_of(whole.as_bytes(), fraction.as_bytes())
}

/// What stands before the point and behind it; the whole text if it has none.
fn parts(text: &str) -> (&str, &str)
    ensures { ArePartsOf text.now result.0.now result.1.now }
{
    match text.split_once('.') {
        Some(parts) => parts,
        None => (text, ""),
    }
}

/// The decimal of these digits before and behind the point, in units of 10^-18.
fn units_of(whole: &[u8], fraction: &[u8]) -> Option<u128>
    ensures { MatchOption result ((IsFewDigits whole.now × IsFewDigits fraction.now × (0 < length whole.now + length fraction.now)) → ⊥)
        (λ units. IsFewDigits whole.now × IsFewDigits fraction.now × (0 < length whole.now + length fraction.now)
        × (units ≡ digits_value 10 whole.now * 10 ^ 18 + digits_value 10 fraction.now * 10 ^ (18 - length fraction.now))) }
{
    if whole.is_empty() && fraction.is_empty() {
        return None;
    }
    let number = number_of(whole)?;
    let behind = number_of(fraction)?;
    Some(number as u128 * UNITS + behind as u128 * unit_behind(fraction.len()) as u128)
}

/// How many units of 10^-18 are one in the last of so many places.
fn unit_behind(places: usize) -> u64
    requires { places < 19 }
    ensures value { result ≡ 10 ^ (18 - places) }
    ensures small { result < 10 ^ 18 + 1 }
{
    10u64.pow((MAX_DIGITS - places) as u32)
}

/// The number of a word of digits, 0 of an empty one; none if another byte is in it, or more than 18.
fn number_of(word: &[u8]) -> Option<u64>
    ensures { MatchOption result (IsFewDigits word.now → ⊥) (λ number. IsFewDigits word.now × (number ≡ digits_value 10 word.now) × (number < 10 ^ 18)) }
{
    if word.len() > MAX_DIGITS || !are_digits(word) {
        return None;
    }
    let mut value = 0u64;
    for byte in word {
        // A number past 64 bits would stop there: one of 18 digits has fewer.
        value = value
            .saturating_mul(10)
            .saturating_add((*byte - b'0') as u64);
    }
    Some(value)
}

fn are_digits(word: &[u8]) -> bool
    ensures { result ≡ list_all is_ascii_digit word.now }
{
    word.iter().all(|byte| byte.is_ascii_digit())
}

/// Both numbers, divided by ten while both stay whole, at most 18 times.
fn in_least_unit(width: u128, height: u128) -> (u128, u128)
    ensures { IsLeastUnit width height result.0 result.1 }
{
    let mut width_left = width;
    let mut height_left = height;
    let mut places = MAX_DIGITS;
    while places > 0 && width_left % 10 == 0 && height_left % 10 == 0 {
        width_left /= 10;
        height_left /= 10;
        places -= 1;
    }
    (width_left, height_left)
}

/// The spacing of a width and a height, of whole heights, if each is from 1 to 2^30.
pub fn spacing_of(width: u128, height: u128) -> Option<Spacing>
    ensures { MatchOption result (IsSpacing (record { width = width; height = height; kind = HeightKind.Whole }) → ⊥) (λ s. s ≡ record { width = width; height = height; kind = HeightKind.Whole }) }
{
    if width > u32::MAX as u128 || height > u32::MAX as u128 {
        return None;
    }
    Spacing::new(width as u32, height as u32)
}
