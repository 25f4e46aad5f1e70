//! The numbers of a row, converted to lanes in loops without a branch. At a void, where the elevation's lane is 0, a
//! product's number need not fit.

ghost use Rattle.std.specs.Prelude.{◌≡◌, IsTrue, length, map};
ghost use Rattle.drain_pixels.specs.Ground.{single_voids, whole_voids};
ghost use Rattle.drain_pixels.specs.Lanes.{AllFit, AllFitAt, AreCapped, AreGroundLanes, AreLower, AreUpper, HoldFitting};

use crate::lane::{
    ElevationLane, Fits, Narrow, Wide, capped, elevation_lane, is_elevation, is_wide_elevation,
    lower_half, upper_half, wide_elevation_lane,
};
use crate::stored::PixelNumbers;
use crate::voids::{of_single, of_whole};

/// Puts the numbers into lanes of 32 bits, and returns whether all fit, at voids too.
#[inline(never)]
pub fn put_wide<W: Wide, N: PixelNumbers + Copy>(numbers: &N, out: &mut [u32]) -> bool
    requires { length out.old ≡ length (N.numbers numbers.now) }
    ensures len { length out.new ≡ length out.old }
    ensures lanes { HoldFitting W.fits W.lane (N.numbers numbers.now) out.new (length (N.numbers numbers.now)) }
    ensures fit { IsTrue result → AllFit W.fits (N.numbers numbers.now) (length (N.numbers numbers.now)) }
{
    // A local copy: behind a reference its address would be loaded again at each column.
    let pixels = *numbers;
    let mut all = true;
    for k in 0..pixels.len() {
        let number = pixels.at(k);
        all &= W::fits(number);
        out[k] = W::lane(number);
    }
    all
}

/// Puts the numbers into lanes of 16 bits, and returns whether all fit, at voids too.
#[inline(never)]
pub fn put_narrow<W: Narrow, N: PixelNumbers + Copy>(numbers: &N, out: &mut [u16]) -> bool
    requires { length out.old ≡ length (N.numbers numbers.now) }
    ensures len { length out.new ≡ length out.old }
    ensures lanes { HoldFitting W.fits W.lane (N.numbers numbers.now) out.new (length (N.numbers numbers.now)) }
    ensures fit { IsTrue result → AllFit W.fits (N.numbers numbers.now) (length (N.numbers numbers.now)) }
{
    // A local copy: behind a reference its address would be loaded again at each column.
    let pixels = *numbers;
    let mut all = true;
    for k in 0..pixels.len() {
        let number = pixels.at(k);
        all &= W::fits(number);
        out[k] = W::lane(number);
    }
    all
}

/// Puts the elevations of whole heights, of which this one, if any, means a void, into lanes of 16 bits, and returns
/// whether all fit.
#[inline(never)]
pub fn put_ground<N: PixelNumbers + Copy>(void: Option<i64>, numbers: &N, out: &mut [u16]) -> bool
    requires { length out.old ≡ length (N.numbers numbers.now) }
    ensures len { length out.new ≡ length out.old }
    ensures lanes { IsTrue result → AreGroundLanes 32768 (whole_voids void) (N.numbers numbers.now) out.new (length (N.numbers numbers.now)) }
{
    // A local copy: behind a reference its address would be loaded again at each column.
    let pixels = *numbers;
    let mut all = true;
    for k in 0..pixels.len() {
        let z = of_whole(void, pixels.at(k));
        all &= is_elevation(z);
        out[k] = elevation_lane(z);
    }
    all
}

/// The same in lanes of 32 bits.
#[inline(never)]
pub fn put_wide_ground<N: PixelNumbers + Copy>(
    void: Option<i64>,
    numbers: &N,
    out: &mut [u32],
) -> bool
    requires { length out.old ≡ length (N.numbers numbers.now) }
    ensures len { length out.new ≡ length out.old }
    ensures lanes { IsTrue result → AreGroundLanes 2147483648 (whole_voids void) (N.numbers numbers.now) out.new (length (N.numbers numbers.now)) }
{
    // A local copy: behind a reference its address would be loaded again at each column.
    let pixels = *numbers;
    let mut all = true;
    for k in 0..pixels.len() {
        let z = of_whole(void, pixels.at(k));
        all &= is_wide_elevation(z);
        out[k] = wide_elevation_lane(z);
    }
    all
}

/// The same of floats, whose finite ones all fit.
#[inline(never)]
pub fn put_single_ground<N: PixelNumbers + Copy>(void: Option<i64>, numbers: &N, out: &mut [u32])
    requires { length out.old ≡ length (N.numbers numbers.now) }
    ensures len { length out.new ≡ length out.old }
    ensures lanes { AreGroundLanes 2147483648 (single_voids void) (N.numbers numbers.now) out.new (length (N.numbers numbers.now)) }
{
    // A local copy: behind a reference its address would be loaded again at each column.
    let pixels = *numbers;
    for k in 0..pixels.len() {
        out[k] = wide_elevation_lane(of_single(void, pixels.at(k)));
    }
}

/// Whether all numbers fit that aren't at a void.
#[inline(never)]
pub fn all_fit<W: Fits, N: PixelNumbers, Z: ElevationLane>(z: &[Z], numbers: &N) -> bool
    requires { length z.now ≡ length (N.numbers numbers.now) }
    ensures { IsTrue result → AllFitAt W.fits (map Z.number z.now) (N.numbers numbers.now) (length (N.numbers numbers.now)) }
{
    let mut all = true;
    for k in 0..numbers.len() {
        all &= W::fits(numbers.at(k)) | z[k].is_void();
    }
    all
}

/// Puts the lanes of a row into 16 bits each, 65535 where they are more.
#[inline(never)]
pub fn put_capped(numbers: &[u32], out: &mut [u16])
    requires { length out.old ≡ length numbers.now }
    ensures len { length out.new ≡ length out.old }
    ensures capped { AreCapped numbers.now out.new (length numbers.now) }
{
    for k in 0..numbers.len() {
        out[k] = capped(numbers[k]);
    }
}

/// Puts the halves of the lanes of a row into 16 bits each.
#[inline(never)]
pub fn put_halves(numbers: &[u32], low: &mut [u16], high: &mut [u16])
    requires low_room { length low.old ≡ length numbers.now }
    requires high_room { length high.old ≡ length numbers.now }
    ensures low_len { length low.new ≡ length low.old }
    ensures high_len { length high.new ≡ length high.old }
    ensures lower { AreLower numbers.now low.new (length numbers.now) }
    ensures upper { AreUpper numbers.now high.new (length numbers.now) }
{
    for k in 0..numbers.len() {
        low[k] = lower_half(numbers[k]);
        high[k] = upper_half(numbers[k]);
    }
}
