//! The degrees of a cell: to seven places for the text, and as the nearest floating-point number for JSON.
//!
//! A step is that from one sample of a tile to the next. A row is `row / steps` degrees south of the north edge, so
//! `north * steps - row` is its latitude in steps; a column's longitude is `west * steps + col`.

ghost use Rattle.std.specs.Prelude.{◌≡◌, ◌<◌, ◌≤ℤ◌, ◌+ℤ◌, ◌-ℤ◌, ◌*ℤ◌};
ghost use Rattle.drain_page.specs.Names.{neg_ℤ, pos, north_of, west_of};
ghost use Rattle.drain_page.specs.Texts.{IsRounded, steps_of};
ghost use Rattle.drain_page.specs.declared.degrees.TheConstants.{MOST_STEPS};

use crate::names::DECIMAL_LENGTH;
use arrayvec::ArrayString;
use drain_mosaic::Layout;
use std::fmt::Write;

/// A degree in units of the seventh place.
pub const PLACES: u128 = 10_000_000;

/// No cell of a mosaic is more steps than this from the equator or the meridian.
pub const MOST_STEPS: u64 = 140_741_783_322_624;

/// Whole degrees make no more steps than this.
const MOST_WHOLE_STEPS: u64 = 140_737_488_355_328;

/// An angle, by its steps and how many of these make up a degree.
#[derive(Clone, Copy)]
pub struct Degrees {
    count: i64,
    steps: u32,
    ghost some: { 0 < steps },
    ghost low: { neg_ℤ (pos MOST_STEPS) ≤ℤ count },
    ghost high: { count ≤ℤ pos MOST_STEPS },
}

impl Degrees {
    /// The nearest floating-point number.
    pub fn value(self) -> f64 {
        self.count as f64 / f64::from(self.steps)
    }

    /// With seven places after the point, the nearest, and of two the one further from 0.
    pub(crate) fn text(self) -> ArrayString<DECIMAL_LENGTH> {
        let places = in_places(self.count.unsigned_abs(), self.steps);
        let sign = if self.count < 0 && 0 < places {
            "-"
        } else {
            ""
        };
        let whole = places / PLACES;
        let fraction = places % PLACES;
        let mut shown = ArrayString::new();
        let _ = write!(shown, "{sign}{whole}.{fraction:07}");
        shown
    }
}

/// A row's latitude.
pub fn latitude(layout: &Layout, row: u32) -> Degrees
    ensures count { result.count ≡ (north_of layout.now *ℤ pos (steps_of layout.now)) -ℤ pos row }
    ensures steps { result.steps ≡ steps_of layout.now }
{
    Degrees {
        count: latitude_in_steps(layout, row),
        steps: steps_a_degree(layout),
    }
}

/// A column's longitude.
pub fn longitude(layout: &Layout, col: u32) -> Degrees
    ensures count { result.count ≡ (west_of layout.now *ℤ pos (steps_of layout.now)) +ℤ pos col }
    ensures steps { result.steps ≡ steps_of layout.now }
{
    Degrees {
        count: longitude_in_steps(layout, col),
        steps: steps_a_degree(layout),
    }
}

/// A row's latitude in steps.
fn latitude_in_steps(layout: &Layout, row: u32) -> i64
    ensures value { result ≡ (north_of layout.now *ℤ pos (steps_of layout.now)) -ℤ pos row }
    ensures low { neg_ℤ (pos MOST_STEPS) ≤ℤ result }
    ensures high { result ≤ℤ pos MOST_STEPS }
{
    in_steps(layout.north(), steps_a_degree(layout)) - i64::from(row)
}

/// A column's longitude in steps.
fn longitude_in_steps(layout: &Layout, col: u32) -> i64
    ensures value { result ≡ (west_of layout.now *ℤ pos (steps_of layout.now)) +ℤ pos col }
    ensures low { neg_ℤ (pos MOST_STEPS) ≤ℤ result }
    ensures high { result ≤ℤ pos MOST_STEPS }
{
    in_steps(layout.west(), steps_a_degree(layout)) + i64::from(col)
}

/// How many steps make up a degree.
fn steps_a_degree(layout: &Layout) -> u32
    ensures value { result ≡ steps_of layout.now }
    ensures some { 0 < result }
{
    layout.side() - 1
}

/// Whole degrees in steps.
fn in_steps(degrees: i16, steps: u32) -> i64
    ensures value { result ≡ degrees *ℤ pos steps }
    ensures low { neg_ℤ (pos MOST_WHOLE_STEPS) ≤ℤ result }
    ensures high { result ≤ℤ pos MOST_WHOLE_STEPS }
{
    i64::from(degrees) * i64::from(steps)
}

/// A number of steps of either sign, in units of the seventh place of a degree, rounded to the nearest, and of two the
/// greater.
pub fn in_places(count: u64, steps: u32) -> u128
    requires { 0 < steps }
    ensures { IsRounded count steps result }
{
    let steps = u128::from(steps);
    let count = u128::from(count) * PLACES;
    (2 * count + steps) / (2 * steps)
}
