//! The ways down from a cell between floats: each with con, the drop, and by how much it is less steep than a steepest one.
//!
//! Which neighbours are lower and which ways are steepest is exact. Drops and shares are computed in double precision, for
//! a reader.

ghost use Rattle.std.specs.Prelude.{◌≡◌};
ghost use Rattle.drain_page.specs.Numerals.{con_down, cons_down};

use crate::json_text::JsonText;
use crate::names::shown_code;
use crate::numerals::{Numeral, shown_numeral};
use drain_floats::pattern;
use drain_grid::{Direction, HeightKind, Patch};
use drain_slope::{con_below, is_steeper, steepest};
use ryu::Buffer;
use std::alloc::AllocError;
use std::num::{f32_from_bits_with_nan, nearest_f64_to_f32_with_nan, nearest_u64_to_f64};

/// The con of the lower neighbours in the order of directions, none where no lower one lies.
pub type ConsDown = [Option<i64>; 8];

pub(crate) fn cons_down(patch: &Patch) -> ConsDown
    ensures { result ≡ cons_down patch.now }
{
    [
        con_down(patch, Direction::East),
        con_down(patch, Direction::SouthEast),
        con_down(patch, Direction::South),
        con_down(patch, Direction::SouthWest),
        con_down(patch, Direction::West),
        con_down(patch, Direction::NorthWest),
        con_down(patch, Direction::North),
        con_down(patch, Direction::NorthEast),
    ]
}

/// The con of a lower neighbour in this direction, if there is one.
fn con_down(patch: &Patch, direction: Direction) -> Option<i64>
    ensures { result ≡ con_down patch.now direction }
{
    match patch.neighbor(direction) {
        Some(there) => con_below(patch, &there),
        None => None,
    }
}

/// The number of an infinity, where slopes see the float that would follow the greatest.
const INFINITY: i64 = 2139095040;

/// That float, 2^128.
const BEYOND: f64 = 340282366920938463463374607431768211456.0;

/// The float of a number.
fn float(number: i64) -> f64 {
    if number >= INFINITY {
        return BEYOND;
    }
    if number <= -INFINITY {
        return -BEYOND;
    }
    f64::from(f32_from_bits_with_nan(pattern(number)))
}

/// How far a way leads down.
fn drop_to(patch: &Patch, con: i64) -> f64 {
    float(patch.here.con) - float(con)
}

/// The square of the slope of a way.
fn slope_square(patch: &Patch, direction: Direction, con: i64) -> f64 {
    let drop = drop_to(patch, con);
    drop * drop / nearest_u64_to_f64(patch.spacing.distance_square(direction))
}

/// By how much the way in this direction is less steep than a steepest one, as a share of that; none if it is a steepest
/// one, or no way down.
fn share_lost(patch: &Patch, direction: Direction) -> Option<f64> {
    let best = steepest(patch)?;
    if !is_steeper(patch, best, direction) {
        return None;
    }
    let con = con_down(patch, direction)?;
    let con_of_best = con_down(patch, best)?;
    let ratio = slope_square(patch, direction, con) / slope_square(patch, best, con_of_best);
    Some(1.0 - ratio.sqrt())
}

/// A share with two digits, at least 10^-16: double precision tells no smaller ones.
fn two_digits(share: f64) -> f64 {
    let mut scale = 100.0;
    for _ in 0..14 {
        if share * scale < 10.0 {
            scale *= 10.0;
        }
    }
    (share * scale).round().max(1.0) / scale
}

/// Shares below this are what rounding in single precision makes of ways that are almost as steep.
const ROUNDING: f64 = 0.000001;

/// Whether the code's way is less steep than a steepest one by such a share.
fn is_off_by_rounding(patch: &Patch) -> bool {
    match patch.here.direction() {
        Some(direction) => match share_lost(patch, direction) {
            Some(share) => share < ROUNDING,
            None => false,
        },
        None => false,
    }
}

/// The drop, as the nearest float.
fn drop_word(drop: f64, digits: &mut Buffer) -> &str {
    let single = nearest_f64_to_f32_with_nan(drop);
    if single.is_finite() {
        digits.format(single)
    } else {
        digits.format(drop)
    }
}

/// A line for each way down.
pub(crate) fn push_float_ways(
    text: &mut String,
    patch: &Patch,
    cons: &ConsDown,
) -> Result<(), AllocError> {
    for direction in Direction::ALL {
        if let Some(con) = cons[direction as usize] {
            push_way(text, patch, direction, con)?;
        }
    }
    Ok(())
}

fn push_way(
    text: &mut String,
    patch: &Patch,
    direction: Direction,
    con: i64,
) -> Result<(), AllocError> {
    let mut digits = Buffer::new();
    let word = shown_code(direction.code());
    let there = shown_numeral("", Numeral::new(HeightKind::Single, con));
    let drop = drop_word(drop_to(patch, con), &mut digits);
    write!(text, "  {word}: con {there}, drop {drop}")?;
    match share_lost(patch, direction) {
        Some(share) => {
            let less = digits.format(two_digits(share));
            writeln!(text, ", less steep by {less}")
        }
        None => text.push_str(", steepest\n"),
    }
}

/// A line more, where the code's way is less steep by as little as rounding makes it.
pub(crate) fn push_rounding(text: &mut String, patch: &Patch) -> Result<(), AllocError> {
    text.push_str(if is_off_by_rounding(patch) {
        "such a difference is rounding of a tool in single precision\n"
    } else {
        ""
    })
}

/// An object for each way down.
pub(crate) fn write_float_ways(
    json: &mut JsonText,
    patch: &Patch,
    cons: &ConsDown,
) -> Result<(), AllocError>
    ensures { json.new ≡ json.old }
{
    json.begin_list("ways")?;
    for direction in Direction::ALL {
        if let Some(con) = cons[direction as usize] {
            write_way(json, patch, direction, con)?;
        }
    }
    json.end_list()
}

fn write_way(
    json: &mut JsonText,
    patch: &Patch,
    direction: Direction,
    con: i64,
) -> Result<(), AllocError>
    ensures { json.new ≡ json.old }
{
    let mut digits = Buffer::new();
    json.begin_object_item()?;
    json.member("code", direction.code())?;
    json.member("con", Numeral::new(HeightKind::Single, con))?;
    json.word("drop", drop_word(drop_to(patch, con), &mut digits))?;
    json.member("less_steep", less_steep(patch, direction))?;
    json.end_object()
}

/// The share with two digits; none of a steepest way.
fn less_steep(patch: &Patch, direction: Direction) -> Option<f64> {
    Some(two_digits(share_lost(patch, direction)?))
}
