//! Pixels as they are stored: the number of each, straight from its bytes.

ghost use Rattle.std.specs.Prelude.{◌≡◌, ◌<◌, ◌≤◌, ◌+◌, ◌*◌, ◌/◌, ℤ, List, drop, length, pos, slice_index_or};
ghost use Rattle.drain_pixels.specs.Stored.{f32_number, i16_number, i32_number, u16_number, u32_number, u8_number};

use byteorder::{ByteOrder, LittleEndian};
use drain_floats::number;

/// Numbers of a row that are looked at one by one.
pub trait PixelNumbers {
    /// The numbers.
    ghost numbers: { Self → List ℤ };

    /// How many there are.
    fn len(&self) -> usize
        ensures { result ≡ length (numbers self.now) };

    /// The number at a column.
    fn at(&self, k: usize) -> i64
        requires { k < length (numbers self.now) }
        ensures { result ≡ slice_index_or (numbers self.now) k (pos 0) };
}

/// Pixels of 8 bits without a sign.
#[derive(Clone, Copy)]
pub struct U8Pixels<'a> {
    pub bytes: &'a [u8],
}

impl PixelNumbers for U8Pixels<'_> {
    ghost use Rattle.drain_pixels.specs.Stored.{u8_numbers};

    ghost numbers = { λ pixels. u8_numbers pixels.bytes.now };

    #[inline(always)]
    #[tactic(auto, using(crate::proofs::StoredLemmas::u8_len))]
    fn len(&self) -> usize {
        self.bytes.len()
    }

    #[inline(always)]
    #[tactic(auto, using(crate::proofs::StoredLemmas::number_at))]
    fn at(&self, k: usize) -> i64 {
        u8_at(self.bytes, k)
    }
}

/// Pixels of 16 bits with a sign, least byte first.
#[derive(Clone, Copy)]
pub struct I16Pixels<'a> {
    pub bytes: &'a [u8],
}

impl PixelNumbers for I16Pixels<'_> {
    ghost use Rattle.drain_pixels.specs.Stored.{i16_numbers};

    ghost numbers = { λ pixels. i16_numbers pixels.bytes.now };

    #[inline(always)]
    #[tactic(auto, using(crate::proofs::StoredLemmas::i16_len))]
    fn len(&self) -> usize {
        pairs(self.bytes)
    }

    #[inline(always)]
    #[tactic(auto, using(crate::proofs::StoredLemmas::number_at))]
    fn at(&self, k: usize) -> i64 {
        i16_at(self.bytes, k)
    }
}

/// Pixels of 16 bits without a sign, least byte first.
#[derive(Clone, Copy)]
pub struct U16Pixels<'a> {
    pub bytes: &'a [u8],
}

impl PixelNumbers for U16Pixels<'_> {
    ghost use Rattle.drain_pixels.specs.Stored.{u16_numbers};

    ghost numbers = { λ pixels. u16_numbers pixels.bytes.now };

    #[inline(always)]
    #[tactic(auto, using(crate::proofs::StoredLemmas::u16_len))]
    fn len(&self) -> usize {
        pairs(self.bytes)
    }

    #[inline(always)]
    #[tactic(auto, using(crate::proofs::StoredLemmas::number_at))]
    fn at(&self, k: usize) -> i64 {
        u16_at(self.bytes, k)
    }
}

/// Pixels of 32 bits with a sign, least byte first.
#[derive(Clone, Copy)]
pub struct I32Pixels<'a> {
    pub bytes: &'a [u8],
}

impl PixelNumbers for I32Pixels<'_> {
    ghost use Rattle.drain_pixels.specs.Stored.{i32_numbers};

    ghost numbers = { λ pixels. i32_numbers pixels.bytes.now };

    #[inline(always)]
    #[tactic(auto, using(crate::proofs::StoredLemmas::i32_len))]
    fn len(&self) -> usize {
        fours(self.bytes)
    }

    #[inline(always)]
    #[tactic(auto, using(crate::proofs::StoredLemmas::number_at))]
    fn at(&self, k: usize) -> i64 {
        i32_at(self.bytes, k)
    }
}

/// Pixels of 32 bits without a sign, least byte first.
#[derive(Clone, Copy)]
pub struct U32Pixels<'a> {
    pub bytes: &'a [u8],
}

impl PixelNumbers for U32Pixels<'_> {
    ghost use Rattle.drain_pixels.specs.Stored.{u32_numbers};

    ghost numbers = { λ pixels. u32_numbers pixels.bytes.now };

    #[inline(always)]
    #[tactic(auto, using(crate::proofs::StoredLemmas::u32_len))]
    fn len(&self) -> usize {
        fours(self.bytes)
    }

    #[inline(always)]
    #[tactic(auto, using(crate::proofs::StoredLemmas::number_at))]
    fn at(&self, k: usize) -> i64 {
        u32_at(self.bytes, k)
    }
}

/// Pixels that are floats of 32 bits, least byte first. Their numbers are ordered as they are.
#[derive(Clone, Copy)]
pub struct F32Pixels<'a> {
    pub bytes: &'a [u8],
}

impl PixelNumbers for F32Pixels<'_> {
    ghost use Rattle.drain_pixels.specs.Stored.{f32_numbers};

    ghost numbers = { λ pixels. f32_numbers pixels.bytes.now };

    #[inline(always)]
    #[tactic(auto, using(crate::proofs::StoredLemmas::f32_len))]
    fn len(&self) -> usize {
        fours(self.bytes)
    }

    #[inline(always)]
    #[tactic(auto, using(crate::proofs::StoredLemmas::number_at))]
    fn at(&self, k: usize) -> i64 {
        f32_at(self.bytes, k)
    }
}

/// Numbers of 64 bits, whatever their pixels are.
#[derive(Clone, Copy)]
pub struct AnyPixels<'a> {
    pub numbers: &'a [i64],
}

impl PixelNumbers for AnyPixels<'_> {
    ghost numbers = { λ pixels. pixels.numbers.now };

    #[inline(always)]
    fn len(&self) -> usize {
        self.numbers.len()
    }

    #[inline(always)]
    fn at(&self, k: usize) -> i64 {
        let numbers = self.numbers;
        numbers[k]
    }
}

/// The pixels of a row, of one of these kinds.
#[derive(Clone, Copy)]
pub enum Pixels<'a> {
    U8(U8Pixels<'a>),
    I16(I16Pixels<'a>),
    U16(U16Pixels<'a>),
    I32(I32Pixels<'a>),
    U32(U32Pixels<'a>),
    F32(F32Pixels<'a>),
    Any(AnyPixels<'a>),
}

/// How many pixels of two bytes there are.
#[inline(always)]
fn pairs(bytes: &[u8]) -> usize
    ensures { result ≡ length bytes.now / 2 }
{
    bytes.len() / 2
}

/// How many pixels of four bytes there are.
#[inline(always)]
fn fours(bytes: &[u8]) -> usize
    ensures { result ≡ length bytes.now / 4 }
{
    bytes.len() / 4
}

/// The number at a column of pixels of 8 bits without a sign.
#[inline(always)]
fn u8_at(bytes: &[u8], k: usize) -> i64
    requires { k < length bytes.now }
    ensures { result ≡ u8_number (drop k bytes.now) }
{
    i64::from(bytes[k])
}

/// The number at a column of pixels of 16 bits with a sign.
#[inline(always)]
fn i16_at(bytes: &[u8], k: usize) -> i64
    requires { 2 * k + 2 ≤ length bytes.now }
    ensures { result ≡ i16_number (drop (2 * k) bytes.now) }
{
    i64::from(LittleEndian::read_i16(&bytes[2 * k..]))
}

/// The number at a column of pixels of 32 bits without a sign.
#[inline(always)]
fn u32_at(bytes: &[u8], k: usize) -> i64
    requires { 4 * k + 4 ≤ length bytes.now }
    ensures { result ≡ u32_number (drop (4 * k) bytes.now) }
{
    i64::from(LittleEndian::read_u32(&bytes[4 * k..]))
}

/// The number at a column of pixels of 16 bits without a sign.
#[inline(always)]
fn u16_at(bytes: &[u8], k: usize) -> i64
    requires { 2 * k + 2 ≤ length bytes.now }
    ensures { result ≡ u16_number (drop (2 * k) bytes.now) }
{
    i64::from(LittleEndian::read_u16(&bytes[2 * k..]))
}

/// The number at a column of pixels of 32 bits with a sign.
#[inline(always)]
fn i32_at(bytes: &[u8], k: usize) -> i64
    requires { 4 * k + 4 ≤ length bytes.now }
    ensures { result ≡ i32_number (drop (4 * k) bytes.now) }
{
    i64::from(LittleEndian::read_i32(&bytes[4 * k..]))
}

/// The number at a column of pixels that are floats of 32 bits.
#[inline(always)]
fn f32_at(bytes: &[u8], k: usize) -> i64
    requires { 4 * k + 4 ≤ length bytes.now }
    ensures { result ≡ f32_number (drop (4 * k) bytes.now) }
{
    number(LittleEndian::read_u32(&bytes[4 * k..]))
}
