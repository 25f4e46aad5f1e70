//! Lanes of one number: 16 or 32 bits of the 64.

ghost use Rattle.std.specs.Prelude.{◌≡◌, ◌↔◌, ◌<◌, ◌/◌, ◌%◌, ◌^◌, ◌+ℤ◌, IsTrue, min, pos};
ghost use Rattle.drain_pixels.specs.Lanes.{IsElevationLane, is_elevation, is_height, is_lane, is_short_lane, lifted, unchanged};

/// The lower 32 of these bits.
#[inline(always)]
fn low_half(bits: u64) -> u32
    ensures { bits < 2 ^ 32 → result ≡ bits }
{
    (bits & 0xFFFF_FFFF) as u32
}

/// The lowest 16.
#[inline(always)]
fn low_quarter(bits: u64) -> u16
    ensures { bits < 2 ^ 16 → result ≡ bits }
{
    (bits & 0xFFFF) as u16
}

/// The upper 32.
#[inline(always)]
fn high_half(bits: u64) -> u32
    ensures { (result ≡ 0) ↔ (bits < 2 ^ 32) }
{
    (bits >> 32) as u32
}

/// Whether they are 16 bits at most. Halves are compared, not numbers of 64 bits, so that four go at once.
#[inline(always)]
fn is_quarter(bits: u64) -> bool
    ensures { IsTrue result ↔ (bits < 2 ^ 16) }
{
    (high_half(bits) == 0) & (low_half(bits) <= 65535)
}

/// The number, if 32 bits hold it; else its lower 32 bits.
#[inline(always)]
pub fn lane(number: i64) -> u32
    ensures { IsTrue (is_lane number) → pos result ≡ number }
{
    low_half(number.cast_unsigned())
}

/// Whether 32 unsigned bits hold the number.
#[inline(always)]
pub fn is_lane(number: i64) -> bool
    ensures { result ≡ is_lane number }
{
    high_half(number.cast_unsigned()) == 0
}

/// The number, if 16 bits hold it; else its lowest 16 bits.
#[inline(always)]
pub fn short_lane(number: i64) -> u16
    ensures { IsTrue (is_short_lane number) → pos result ≡ number }
{
    low_quarter(number.cast_unsigned())
}

/// Whether 16 unsigned bits hold the number.
#[inline(always)]
pub fn is_short_lane(number: i64) -> bool
    ensures { result ≡ is_short_lane number }
{
    is_quarter(number.cast_unsigned())
}

/// 32768 more than the number, in 64 bits.
#[inline(always)]
fn raised(number: i64) -> u64
    ensures fits { IsTrue (is_height 32768 number) ↔ (result < 2 ^ 16) }
    ensures raised { IsTrue (is_height 32768 number) → pos result ≡ number +ℤ pos 32768 }
{
    number.cast_unsigned().wrapping_add(32768)
}

/// 32768 more than a height, if it has 16 bits.
#[inline(always)]
pub fn height_lane(number: i64) -> u16
    ensures { IsTrue (is_height 32768 number) → pos result ≡ number +ℤ pos 32768 }
{
    low_quarter(raised(number))
}

/// Whether 16 signed bits hold the number.
#[inline(always)]
pub fn is_height(number: i64) -> bool
    ensures { result ≡ is_height 32768 number }
{
    is_quarter(raised(number))
}

/// Whether a lane of 16 bits holds the elevation: none, or a height of 16 bits that isn't the lowest.
#[inline(always)]
pub fn is_elevation(z: Option<i64>) -> bool
    ensures { result ≡ is_elevation 32768 z }
{
    match z {
        Some(height) => is_height(height) & (height != -32768),
        None => true,
    }
}

/// 0 at a void, else 32768 more than the height, if a lane holds it.
#[inline(always)]
pub fn elevation_lane(z: Option<i64>) -> u16
    ensures { IsTrue (is_elevation 32768 z) → IsElevationLane 32768 z result }
{
    match z {
        Some(height) => height_lane(height),
        None => 0,
    }
}

/// 2^31 more than the number, in 64 bits.
#[inline(always)]
fn wide_raised(number: i64) -> u64
    ensures fits { IsTrue (is_height 2147483648 number) ↔ (result < 2 ^ 32) }
    ensures raised { IsTrue (is_height 2147483648 number) → pos result ≡ number +ℤ pos 2147483648 }
{
    number.cast_unsigned().wrapping_add(2147483648)
}

/// 2^31 more than a height, if it has 32 bits.
#[inline(always)]
pub fn wide_height_lane(number: i64) -> u32
    ensures { IsTrue (is_height 2147483648 number) → pos result ≡ number +ℤ pos 2147483648 }
{
    low_half(wide_raised(number))
}

/// Whether 32 signed bits hold the number.
#[inline(always)]
pub fn is_wide_height(number: i64) -> bool
    ensures { result ≡ is_height 2147483648 number }
{
    high_half(wide_raised(number)) == 0
}

/// Whether a lane of 32 bits holds the elevation: none, or a height of 32 bits that isn't the lowest.
#[inline(always)]
pub fn is_wide_elevation(z: Option<i64>) -> bool
    ensures { result ≡ is_elevation 2147483648 z }
{
    match z {
        Some(height) => is_wide_height(height) & (height != -2147483648),
        None => true,
    }
}

/// 0 at a void, else 2^31 more than the height, if a lane of 32 bits holds it.
#[inline(always)]
pub fn wide_elevation_lane(z: Option<i64>) -> u32
    ensures { IsTrue (is_elevation 2147483648 z) → IsElevationLane 2147483648 z result }
{
    match z {
        Some(height) => wide_height_lane(height),
        None => 0,
    }
}

/// The number, or 65535 if it is more.
#[inline(always)]
pub fn capped(number: u32) -> u16
    ensures { result ≡ min number 65535 }
{
    number.min(65535) as u16
}

/// The lower half of a lane of 32 bits.
#[inline(always)]
pub fn lower_half(number: u32) -> u16
    ensures { result ≡ number % 65536 }
{
    (number & 0xFFFF) as u16
}

/// The upper half of a lane of 32 bits.
#[inline(always)]
pub fn upper_half(number: u32) -> u16
    ensures { result ≡ number / 65536 }
{
    (number >> 16) as u16
}

/// Numbers that fit lanes of a kind.
pub trait Fits {
    ghost use Rattle.std.specs.Prelude.{ℤ, Bool};

    /// Whether the number fits.
    ghost fits: { ℤ → Bool };

    /// Whether the number fits.
    fn fits(number: i64) -> bool
        ensures { result ≡ fits number };
}

/// Numbers that are converted to lanes of 16 bits.
pub trait Narrow: Fits {
    ghost use Rattle.std.specs.Prelude.{ℤ};

    /// What the lane of a number holds.
    ghost lane: { ℤ → ℤ };

    /// The lane of a number, if it fits; else any lane.
    fn lane(number: i64) -> u16
        ensures { IsTrue (Self.fits number) → pos result ≡ lane number };
}

/// Numbers that are converted to lanes of 32 bits.
pub trait Wide: Fits {
    ghost use Rattle.std.specs.Prelude.{ℤ};

    /// What the lane of a number holds.
    ghost lane: { ℤ → ℤ };

    /// The lane of a number, if it fits; else any lane.
    fn lane(number: i64) -> u32
        ensures { IsTrue (Self.fits number) → pos result ≡ lane number };
}

/// Numbers from 0 up, of 32 bits.
pub struct Long;

impl Fits for Long {
    ghost fits = { is_lane };

    #[inline(always)]
    fn fits(number: i64) -> bool {
        is_lane(number)
    }
}

impl Wide for Long {
    ghost lane = { unchanged };

    #[inline(always)]
    fn lane(number: i64) -> u32 {
        lane(number)
    }
}

/// Numbers from 0 up, of 16 bits.
pub struct Short;

impl Fits for Short {
    ghost fits = { is_short_lane };

    #[inline(always)]
    fn fits(number: i64) -> bool {
        is_short_lane(number)
    }
}

impl Narrow for Short {
    ghost lane = { unchanged };

    #[inline(always)]
    fn lane(number: i64) -> u16 {
        short_lane(number)
    }
}

/// Heights of 16 bits with a sign. The lane holds the height plus 32768.
pub struct Height;

impl Fits for Height {
    ghost fits = { is_height 32768 };

    #[inline(always)]
    fn fits(number: i64) -> bool {
        is_height(number)
    }
}

impl Narrow for Height {
    ghost lane = { lifted 32768 };

    #[inline(always)]
    fn lane(number: i64) -> u16 {
        height_lane(number)
    }
}

/// Heights of 32 bits with a sign. The lane holds the height plus 2^31.
pub struct WideHeight;

impl Fits for WideHeight {
    ghost fits = { is_height 2147483648 };

    #[inline(always)]
    fn fits(number: i64) -> bool {
        is_wide_height(number)
    }
}

impl Wide for WideHeight {
    ghost lane = { lifted 2147483648 };

    #[inline(always)]
    fn lane(number: i64) -> u32 {
        wide_height_lane(number)
    }
}

/// A lane of an elevation: the height with a bias added, which is half of the numbers that the lane can hold; 0 at a
/// void.
pub trait ElevationLane: Copy {
    ghost use Rattle.std.specs.Prelude.{ℕ, ◌≡◌, ◌==◌};

    /// Its number.
    ghost number: { Self → ℕ };

    /// What is added to a height.
    ghost bias: { ℕ };

    /// Whether it is that of a void.
    fn is_void(self) -> bool
        ensures { result ≡ (number self == 0) };
}

impl ElevationLane for u16 {
    ghost number = { λ lane. lane };

    ghost bias = { 32768 };

    #[inline(always)]
    fn is_void(self) -> bool {
        self == 0
    }
}

impl ElevationLane for u32 {
    ghost number = { λ lane. lane };

    ghost bias = { 2147483648 };

    #[inline(always)]
    fn is_void(self) -> bool {
        self == 0
    }
}
