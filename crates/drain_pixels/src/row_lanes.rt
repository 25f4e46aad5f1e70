//! Vectors of lanes, filled with the numbers of a row.

ghost use Rattle.std.specs.Prelude.{◌≡◌, IsTrue, length, map, vec_len};
ghost use Rattle.drain_pixels.specs.Lanes.{AreCapped, AreGroundLanes, AreLanes, AreLanesBy, AreLower, AreUpper};

use crate::ground_row::GroundRow;
use crate::lane::{ElevationLane, Height, Long, Narrow, Short, Wide, WideHeight};
use crate::narrowing::{
    all_fit, put_capped, put_ground, put_halves, put_narrow, put_single_ground, put_wide,
    put_wide_ground,
};
use crate::pixel_row::PixelRow;
use crate::stored::{
    AnyPixels, F32Pixels, I16Pixels, I32Pixels, PixelNumbers, Pixels, U8Pixels, U16Pixels,
    U32Pixels,
};
use crate::voids::Voids;
use drain_grid::HeightKind;

/// Lanes of elevations, and of con's heights, that are taken of a row.
pub trait HeightLane: ElevationLane {
    ghost use Rattle.std.specs.Prelude.{◌≡◌, IsTrue, length, map, vec_len};
    ghost use Rattle.drain_pixels.specs.Lanes.{AreElevationLanes, AreHeightLanes};

    /// Replaces the lanes by the elevations of a row, and returns whether all fit and memory sufficed. A height fits if
    /// it has the bits of a lane and isn't the lowest of these, whose lane would be that of a void.
    fn take_elevations(numbers: &GroundRow, out: &mut Vec<Self>) -> bool
        ensures len { IsTrue result → vec_len out.new ≡ length numbers.now }
        ensures lanes { IsTrue result → AreElevationLanes Self.bias numbers.now (map Self.number out.new.items) (length numbers.now) };

    /// Replaces the lanes by a product's heights, which need not fit at voids, and returns whether the others fit and
    /// memory sufficed. It takes none if there are not as many elevation lanes.
    fn take_heights(z: &[Self], numbers: &PixelRow, out: &mut Vec<Self>) -> bool
        ensures len { IsTrue result → vec_len out.new ≡ length numbers.now }
        ensures lanes { IsTrue result → AreHeightLanes Self.bias (map Self.number z.now) numbers.now (map Self.number out.new.items) (length numbers.now) };
}

impl HeightLane for u16 {
    fn take_elevations(numbers: &GroundRow, out: &mut Vec<u16>) -> bool {
        if out.resize(numbers.len(), 0).is_err() {
            return false;
        }
        let (voids, pixels) = numbers.parts();
        match pixels {
            Pixels::U8(pixels) => hold_ground(voids, &pixels, out),
            Pixels::I16(pixels) => hold_ground(voids, &pixels, out),
            Pixels::U16(pixels) => hold_ground(voids, &pixels, out),
            Pixels::I32(pixels) => hold_ground(voids, &pixels, out),
            Pixels::U32(pixels) => hold_ground(voids, &pixels, out),
            Pixels::F32(pixels) => hold_ground(voids, &pixels, out),
            Pixels::Any(pixels) => hold_ground(voids, &pixels, out),
        }
    }

    fn take_heights(z: &[u16], numbers: &PixelRow, out: &mut Vec<u16>) -> bool {
        take_narrow::<Height, u16>(z, numbers, out)
    }
}

impl HeightLane for u32 {
    fn take_elevations(numbers: &GroundRow, out: &mut Vec<u32>) -> bool {
        if out.resize(numbers.len(), 0).is_err() {
            return false;
        }
        let (voids, pixels) = numbers.parts();
        match pixels {
            Pixels::U8(pixels) => hold_wide_ground(voids, &pixels, out),
            Pixels::I16(pixels) => hold_wide_ground(voids, &pixels, out),
            Pixels::U16(pixels) => hold_wide_ground(voids, &pixels, out),
            Pixels::I32(pixels) => hold_wide_ground(voids, &pixels, out),
            Pixels::U32(pixels) => hold_wide_ground(voids, &pixels, out),
            Pixels::F32(pixels) => hold_wide_ground(voids, &pixels, out),
            Pixels::Any(pixels) => hold_wide_ground(voids, &pixels, out),
        }
    }

    fn take_heights(z: &[u32], numbers: &PixelRow, out: &mut Vec<u32>) -> bool {
        take_wide::<WideHeight, u32>(z, numbers, out)
    }
}

/// Replaces the lanes by a product's numbers in 16 bits, which need not fit at voids, and returns whether the others
/// fit and memory sufficed. It takes none if there are not as many elevation lanes.
pub fn take_short_numbers<Z: ElevationLane>(z: &[Z], numbers: &PixelRow, out: &mut Vec<u16>) -> bool
    ensures len { IsTrue result → vec_len out.new ≡ length numbers.now }
    ensures lanes { IsTrue result → AreLanes (map Z.number z.now) numbers.now out.new.items (length numbers.now) }
{
    take_narrow::<Short, Z>(z, numbers, out)
}

/// Replaces the lanes by a product's numbers in 32 bits, which need not fit at voids, and returns whether the others
/// fit and memory sufficed. It takes none if there are not as many elevation lanes.
pub fn take_numbers<Z: ElevationLane>(z: &[Z], numbers: &PixelRow, out: &mut Vec<u32>) -> bool
    ensures len { IsTrue result → vec_len out.new ≡ length numbers.now }
    ensures lanes { IsTrue result → AreLanes (map Z.number z.now) numbers.now out.new.items (length numbers.now) }
{
    take_wide::<Long, Z>(z, numbers, out)
}

/// Replaces the lanes by numbers in 16 bits each, 65535 where they are more, and returns whether memory sufficed.
pub fn take_capped(numbers: &[u32], out: &mut Vec<u16>) -> bool
    ensures len { IsTrue result → vec_len out.new ≡ length numbers.now }
    ensures capped { IsTrue result → AreCapped numbers.now out.new.items (length numbers.now) }
{
    if out.resize(numbers.len(), 0).is_err() {
        return false;
    }
    put_capped(numbers, out);
    true
}

/// Replaces the lanes by the halves of numbers of 32 bits, and returns whether memory sufficed.
pub fn take_halves(numbers: &[u32], low: &mut Vec<u16>, high: &mut Vec<u16>) -> bool
    ensures low_len { IsTrue result → vec_len low.new ≡ length numbers.now }
    ensures high_len { IsTrue result → vec_len high.new ≡ length numbers.now }
    ensures lower { IsTrue result → AreLower numbers.now low.new.items (length numbers.now) }
    ensures upper { IsTrue result → AreUpper numbers.now high.new.items (length numbers.now) }
{
    if low.resize(numbers.len(), 0).is_err() || high.resize(numbers.len(), 0).is_err() {
        return false;
    }
    put_halves(numbers, low, high);
    true
}

/// Replaces the lanes of 16 bits by a product's numbers, and returns whether all fit that aren't at a void, and memory
/// sufficed.
fn take_narrow<W: Narrow, Z: ElevationLane>(z: &[Z], numbers: &PixelRow, out: &mut Vec<u16>) -> bool
    ensures len { IsTrue result → vec_len out.new ≡ length numbers.now }
    ensures lanes { IsTrue result → AreLanesBy W.lane (map Z.number z.now) numbers.now out.new.items (length numbers.now) }
{
    if z.len() != numbers.len() || out.resize(numbers.len(), 0).is_err() {
        return false;
    }
    match numbers.pixels() {
        Pixels::U8(pixels) => hold_narrow::<W, U8Pixels<'_>, Z>(z, &pixels, out),
        Pixels::I16(pixels) => hold_narrow::<W, I16Pixels<'_>, Z>(z, &pixels, out),
        Pixels::U16(pixels) => hold_narrow::<W, U16Pixels<'_>, Z>(z, &pixels, out),
        Pixels::I32(pixels) => hold_narrow::<W, I32Pixels<'_>, Z>(z, &pixels, out),
        Pixels::U32(pixels) => hold_narrow::<W, U32Pixels<'_>, Z>(z, &pixels, out),
        Pixels::F32(pixels) => hold_narrow::<W, F32Pixels<'_>, Z>(z, &pixels, out),
        Pixels::Any(pixels) => hold_narrow::<W, AnyPixels<'_>, Z>(z, &pixels, out),
    }
}

/// The same with lanes of 32 bits.
fn take_wide<W: Wide, Z: ElevationLane>(z: &[Z], numbers: &PixelRow, out: &mut Vec<u32>) -> bool
    ensures len { IsTrue result → vec_len out.new ≡ length numbers.now }
    ensures lanes { IsTrue result → AreLanesBy W.lane (map Z.number z.now) numbers.now out.new.items (length numbers.now) }
{
    if z.len() != numbers.len() || out.resize(numbers.len(), 0).is_err() {
        return false;
    }
    match numbers.pixels() {
        Pixels::U8(pixels) => hold_wide::<W, U8Pixels<'_>, Z>(z, &pixels, out),
        Pixels::I16(pixels) => hold_wide::<W, I16Pixels<'_>, Z>(z, &pixels, out),
        Pixels::U16(pixels) => hold_wide::<W, U16Pixels<'_>, Z>(z, &pixels, out),
        Pixels::I32(pixels) => hold_wide::<W, I32Pixels<'_>, Z>(z, &pixels, out),
        Pixels::U32(pixels) => hold_wide::<W, U32Pixels<'_>, Z>(z, &pixels, out),
        Pixels::F32(pixels) => hold_wide::<W, F32Pixels<'_>, Z>(z, &pixels, out),
        Pixels::Any(pixels) => hold_wide::<W, AnyPixels<'_>, Z>(z, &pixels, out),
    }
}

/// Puts the elevations of numbers, of which these mean a void, into lanes of 16 bits, and returns whether all fit. None
/// are taken of floats: their numbers have 32 bits.
fn hold_ground<N: PixelNumbers + Copy>(voids: Voids, numbers: &N, out: &mut [u16]) -> bool
    requires room { length out.old ≡ length (N.numbers numbers.now) }
    ensures len { length out.new ≡ length out.old }
    ensures lanes { IsTrue result → AreGroundLanes 32768 voids (N.numbers numbers.now) out.new (length (N.numbers numbers.now)) }
{
    // The lane of -32768 is 0, as that of a void: where it means one, as in a tile, no number is compared with it.
    match (voids.kind, voids.number) {
        (HeightKind::Single, _) => false,
        (HeightKind::Whole, Some(-32768)) => put_narrow::<Height, N>(numbers, out),
        (HeightKind::Whole, void) => put_ground(void, numbers, out),
    }
}

/// Puts the elevations of numbers, of which these mean a void, into lanes of 32 bits, and returns whether all fit.
fn hold_wide_ground<N: PixelNumbers + Copy>(voids: Voids, numbers: &N, out: &mut [u32]) -> bool
    requires room { length out.old ≡ length (N.numbers numbers.now) }
    ensures len { length out.new ≡ length out.old }
    ensures lanes { IsTrue result → AreGroundLanes 2147483648 voids (N.numbers numbers.now) out.new (length (N.numbers numbers.now)) }
{
    match voids.kind {
        HeightKind::Single => {
            put_single_ground(voids.number, numbers, out);
            true
        }
        HeightKind::Whole => put_wide_ground(voids.number, numbers, out),
    }
}

/// Puts the numbers into lanes of 32 bits, and returns whether all fit that aren't at a void.
fn hold_wide<W: Wide, N: PixelNumbers + Copy, Z: ElevationLane>(
    z: &[Z],
    numbers: &N,
    out: &mut [u32],
) -> bool
    requires elevations { length z.now ≡ length (N.numbers numbers.now) }
    requires room { length out.old ≡ length (N.numbers numbers.now) }
    ensures len { length out.new ≡ length out.old }
    ensures lanes { IsTrue result → AreLanesBy W.lane (map Z.number z.now) (N.numbers numbers.now) out.new (length (N.numbers numbers.now)) }
{
    put_wide::<W, N>(numbers, out) || all_fit::<W, N, Z>(z, numbers)
}

/// Puts the numbers into lanes of 16 bits, and returns whether all fit that aren't at a void.
fn hold_narrow<W: Narrow, N: PixelNumbers + Copy, Z: ElevationLane>(
    z: &[Z],
    numbers: &N,
    out: &mut [u16],
) -> bool
    requires elevations { length z.now ≡ length (N.numbers numbers.now) }
    requires room { length out.old ≡ length (N.numbers numbers.now) }
    ensures len { length out.new ≡ length out.old }
    ensures lanes { IsTrue result → AreLanesBy W.lane (map Z.number z.now) (N.numbers numbers.now) out.new (length (N.numbers numbers.now)) }
{
    put_narrow::<W, N>(numbers, out) || all_fit::<W, N, Z>(z, numbers)
}
