//! The pixels of one row, in memory that is used again for the next row.

ghost use Rattle.std.specs.Prelude.{◌≡◌, ◌<◌};
ghost use Rattle.drain_pixels.specs.Names.{All, OnErr, OnOk, [], length, pos, slice_index_or, IsPixel};
ghost use Rattle.drain_pixels.specs.Stored.{numbers_as, numbers_in};

use crate::stored::{
    AnyPixels, F32Pixels, I16Pixels, I32Pixels, PixelNumbers, Pixels, U8Pixels, U16Pixels,
    U32Pixels,
};
use drain_grid::OutOfMemory;
use std::alloc::Global;
use std::marker::Model;
use std::mem::replace;

/// What is kept of a row's pixels: the bytes of the raster for the usual kinds, else numbers of 64 bits.
#[derive(Clone, Copy, PartialEq, Eq, Debug)]
pub enum PixelKind {
    /// 8 bits without a sign.
    U8,
    /// 16 bits with a sign, least byte first.
    I16,
    /// 16 bits without a sign, least byte first.
    U16,
    /// 32 bits with a sign, least byte first.
    I32,
    /// 32 bits without a sign, least byte first.
    U32,
    /// Floats of 32 bits, least byte first.
    F32,
    /// Any other pixels, kept as numbers of 64 bits.
    Any,
}

/// A row of numbers. Its model is the list of them.
///
/// It keeps the bytes of pixels of a usual kind, so a raster's row is read without a look at its numbers.
#[derive(Drop)]
pub struct PixelRow {
    kind: PixelKind,
    bytes: Vec<u8>,
    numbers: Vec<i64>,
}

impl Model for PixelRow {
    ghost use Rattle.drain_pixels.specs.Names.{ℤ, List, IsPixel};
    ghost use Rattle.drain_pixels.specs.Stored.{numbers_as};

    ghost Value = { List ℤ };

    ghost view = { λ row. numbers_as row.kind row.bytes.items row.numbers.items };
}

impl PixelRow {
    /// No numbers. It takes no memory.
    pub fn new(alloc: Global) -> PixelRow
        ensures { result ≡ [] }
    {
        PixelRow {
            kind: PixelKind::Any,
            bytes: Vec::new(alloc),
            numbers: Vec::new(alloc),
        }
    }

    /// The numbers, to be looked at one by one.
    #[inline(always)]
    pub fn pixels(&self) -> Pixels<'_>
        ensures { numbers_in result ≡ self.now }
    {
        match self.kind {
            PixelKind::U8 => Pixels::U8(U8Pixels { bytes: &self.bytes }),
            PixelKind::I16 => Pixels::I16(I16Pixels { bytes: &self.bytes }),
            PixelKind::U16 => Pixels::U16(U16Pixels { bytes: &self.bytes }),
            PixelKind::I32 => Pixels::I32(I32Pixels { bytes: &self.bytes }),
            PixelKind::U32 => Pixels::U32(U32Pixels { bytes: &self.bytes }),
            PixelKind::F32 => Pixels::F32(F32Pixels { bytes: &self.bytes }),
            PixelKind::Any => Pixels::Any(AnyPixels {
                numbers: &self.numbers,
            }),
        }
    }

    /// How many numbers there are.
    pub fn len(&self) -> usize
        ensures { result ≡ length self.now }
    {
        match self.pixels() {
            Pixels::U8(pixels) => pixels.len(),
            Pixels::I16(pixels) => pixels.len(),
            Pixels::U16(pixels) => pixels.len(),
            Pixels::I32(pixels) => pixels.len(),
            Pixels::U32(pixels) => pixels.len(),
            Pixels::F32(pixels) => pixels.len(),
            Pixels::Any(pixels) => pixels.len(),
        }
    }

    /// The number at a column.
    #[inline(never)]
    pub fn number(&self, k: usize) -> i64
        requires { k < length self.now }
        ensures { result ≡ slice_index_or self.now k (pos 0) }
    {
        match self.pixels() {
            Pixels::U8(pixels) => pixels.at(k),
            Pixels::I16(pixels) => pixels.at(k),
            Pixels::U16(pixels) => pixels.at(k),
            Pixels::I32(pixels) => pixels.at(k),
            Pixels::U32(pixels) => pixels.at(k),
            Pixels::F32(pixels) => pixels.at(k),
            Pixels::Any(pixels) => pixels.at(k),
        }
    }

    /// The number at a column, found soonest if the row has this kind, and it is `Any` or one that `make` writes.
    #[inline(always)]
    pub fn number_soonest(&self, kind: PixelKind, k: usize) -> i64
        requires { k < length self.now }
        ensures { result ≡ slice_index_or self.now k (pos 0) }
    {
        match (kind, self.pixels()) {
            (PixelKind::U8, Pixels::U8(pixels)) => pixels.at(k),
            (PixelKind::I16, Pixels::I16(pixels)) => pixels.at(k),
            (PixelKind::U32, Pixels::U32(pixels)) => pixels.at(k),
            (PixelKind::Any, Pixels::Any(pixels)) => pixels.at(k),
            _ => self.number(k),
        }
    }

    /// Forgets the numbers, and keeps the memory.
    pub fn clear(&mut self)
        ensures { self.new ≡ [] }
    {
        self.kind = PixelKind::Any;
        self.numbers.clear();
    }

    /// Where its memory is from.
    pub(crate) fn alloc(&self) -> Global {
        *self.bytes.allocator()
    }

    /// The memory for bytes, to be filled and put back. Until then there are no numbers.
    pub fn take_bytes(&mut self) -> Vec<u8>
        ensures { self.new ≡ [] }
    {
        self.clear();
        let alloc = self.alloc();
        replace(&mut self.bytes, Vec::new(alloc))
    }

    /// Replaces the numbers by those of these bytes, as many as the bytes hold.
    pub fn put_bytes(&mut self, kind: PixelKind, bytes: Vec<u8>)
        ensures numbers { self.new ≡ numbers_as kind bytes.items [] }
        ensures pixels { All IsPixel self.new }
    {
        hold_pixels(kind, &bytes);
        self.kind = kind;
        self.bytes = bytes;
        self.numbers.clear();
    }

    /// The memory for numbers, to be filled and put back. Until then there are no numbers.
    pub fn take_numbers(&mut self) -> Vec<i64>
        ensures { self.new ≡ [] }
    {
        self.clear();
        let alloc = self.alloc();
        replace(&mut self.numbers, Vec::new(alloc))
    }

    /// Replaces the numbers by these.
    pub fn put_numbers(&mut self, numbers: Vec<i64>)
        ensures { self.new ≡ numbers.items }
    {
        self.kind = PixelKind::Any;
        self.numbers = numbers;
    }

    /// Replaces the numbers by those of another row. Without memory there are none.
    pub fn copy_from(&mut self, other: &PixelRow) -> Result<(), OutOfMemory>
        ensures ok { OnOk result (self.new ≡ other.now) }
        ensures err { OnErr result (self.new ≡ []) }
    {
        self.kind = PixelKind::Any;
        self.numbers.clear();
        self.bytes.clear();
        self.bytes.extend_from_slice(&other.bytes)?;
        self.numbers.extend_from_slice(&other.numbers)?;
        self.kind = other.kind;
        Ok(())
    }
}

impl PixelNumbers for PixelRow {
    ghost numbers = { λ row. row };

    fn len(&self) -> usize {
        self.len()
    }

    fn at(&self, k: usize) -> i64 {
        self.number(k)
    }
}

/// The law that bytes of a kind hold numbers of pixels.
fn hold_pixels(kind: PixelKind, bytes: &[u8])
    ensures { All IsPixel (numbers_as kind bytes.now []) }
{
    let _bytes = bytes;
}
