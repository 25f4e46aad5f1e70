//! Fractions of 16 bits that decide which of two ways of different distances is steeper, many cells at a time.
//!
//! Let `q / p` be no greater than the ratio of two distances. Where `drop * p <= other * q`, the first drop over its
//! distance is no greater than the other over its own. So a row of one spacing needs one fraction for each pair of
//! distances, and a cell one product for each drop. Drops of 16 bits are fractions themselves, so of these drops the
//! greatest such fraction misses none.

ghost use Rattle.std.specs.Prelude.{◌↔◌, ◌≤◌, ◌^◌, IsTrue};
ghost use Rattle.drain_slope.specs.Fractions.{IsBelow};

/// The fraction `q / p`.
#[derive(Clone, Copy, PartialEq, Eq, Debug)]
pub struct Fraction {
    pub p: u16,
    pub q: u16,
}

/// A fraction no greater than the ratio of two distances, by their squares: the greatest of 16 bits, by a walk down the
/// Stern-Brocot tree.
pub fn fraction_below(square: u64, other_square: u64) -> Fraction
    requires square { square ≤ 2 ^ 61 }
    requires other { other_square ≤ 2 ^ 61 }
    ensures { IsBelow square other_square result }
{
    let found = found_below(square, other_square);
    if is_below(found, square, other_square) {
        found
    } else {
        Fraction { p: 1, q: 0 }
    }
}

/// Whether the fraction is no greater than the ratio of two distances, and has a denominator.
fn is_below(fraction: Fraction, square: u64, other_square: u64) -> bool
    requires square { square ≤ 2 ^ 61 }
    requires other { other_square ≤ 2 ^ 61 }
    ensures { IsTrue result ↔ IsBelow square other_square fraction }
{
    let q = u128::from(fraction.q);
    let p = u128::from(fraction.p);
    let below = u128::from(other_square) * (q * q);
    let above = u128::from(square) * (p * p);
    0 < fraction.p && below <= above
}

/// The fraction at the end of the walk: from below and from above in turn, towards the ratio.
fn found_below(square: u64, other_square: u64) -> Fraction
    requires square { square ≤ 2 ^ 61 }
    requires other { other_square ≤ 2 ^ 61 }
{
    let mut low = Fraction { p: 1, q: 0 };
    let mut high = Fraction { p: 0, q: 1 };
    for _ in 0..24 {
        let lower = moved(low, high, true, square, other_square);
        let upper = moved(high, lower, false, square, other_square);
        if lower == low && upper == high {
            break;
        }
        low = lower;
        high = upper;
    }
    low
}

/// The fraction moved towards another as often as it stays on its side of the ratio, below or above: by twice as many
/// steps each time, then by half as many.
fn moved(from: Fraction, to: Fraction, below: bool, square: u64, other_square: u64) -> Fraction
    requires square { square ≤ 2 ^ 61 }
    requires other { other_square ≤ 2 ^ 61 }
{
    let mut at = from;
    let mut steps = 1u16;
    for _ in 0..15 {
        let Some(next) = stepped(at, to, steps) else {
            break;
        };
        if is_below(next, square, other_square) != below {
            break;
        }
        at = next;
        steps = steps.saturating_mul(2);
    }
    for _ in 0..15 {
        steps /= 2;
        if steps == 0 {
            break;
        }
        let Some(next) = stepped(at, to, steps) else {
            continue;
        };
        if is_below(next, square, other_square) == below {
            at = next;
        }
    }
    at
}

/// The fraction after this many steps towards another, if 16 bits hold it.
fn stepped(from: Fraction, to: Fraction, steps: u16) -> Option<Fraction> {
    let p = u32::from(from.p) + u32::from(to.p) * u32::from(steps);
    let q = u32::from(from.q) + u32::from(to.q) * u32::from(steps);
    if let (Ok(p), Ok(q)) = (u16::try_from(p), u16::try_from(q)) {
        Some(Fraction { p, q })
    } else {
        None
    }
}
