//! Which numbers mean a void, and the elevation of a number.

ghost use Rattle.std.specs.Prelude.{◌≡◌};
ghost use Rattle.drain_pixels.specs.Ground.{height_with, single_voids, whole_voids};

use drain_floats::is_finite;
use drain_grid::HeightKind;

/// Which numbers mean a void: one, if any, and of floats each that is not finite.
#[derive(Clone, Copy, PartialEq, Eq, Debug)]
pub struct Voids {
    pub number: Option<i64>,
    pub kind: HeightKind,
}

impl Voids {
    /// Those of whole heights, of which this number, if any, means a void.
    #[inline(always)]
    pub fn of(number: Option<i64>) -> Voids
        ensures { result ≡ whole_voids number }
    {
        Voids {
            number,
            kind: HeightKind::Whole,
        }
    }
}

/// The elevation of a number, none for that of a void.
#[inline(always)]
pub fn height_with(voids: Voids, number: i64) -> Option<i64>
    ensures { result ≡ height_with voids number }
{
    match voids.kind {
        HeightKind::Whole => of_whole(voids.number, number),
        HeightKind::Single => of_single(voids.number, number),
    }
}

/// That of a whole height.
#[inline(always)]
pub fn of_whole(void: Option<i64>, number: i64) -> Option<i64>
    ensures { result ≡ height_with (whole_voids void) number }
{
    match void {
        Some(void) if number == void => None,
        _ => Some(number),
    }
}

/// That of a float.
#[inline(always)]
pub fn of_single(void: Option<i64>, number: i64) -> Option<i64>
    ensures { result ≡ height_with (single_voids void) number }
{
    if is_finite(number) {
        of_whole(void, number)
    } else {
        None
    }
}
