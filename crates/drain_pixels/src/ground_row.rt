//! A row of elevations, in memory that is used again for the next row.

ghost use Rattle.std.specs.Prelude.{◌≡◌, ◌<◌};
ghost use Rattle.drain_pixels.specs.Names.{All, IfSome, None, [], length, slice_index_or, IsPixel};
ghost use Rattle.drain_pixels.specs.Ground.{elevations};
ghost use Rattle.drain_pixels.specs.Stored.{numbers_in};

use crate::pixel_row::{PixelKind, PixelRow};
use crate::stored::Pixels;
use crate::voids::{Voids, height_with};
use std::alloc::Global;
use std::marker::Model;
use std::mem::replace;

/// A row of elevations: numbers, some of which may mean a void. Its model is the list of elevations, none at a void.
#[derive(Drop)]
pub struct GroundRow {
    numbers: PixelRow,
    voids: Voids,
}

impl Model for GroundRow {
    ghost use Rattle.std.specs.Prelude.{ℤ, List, Option};
    ghost use Rattle.drain_pixels.specs.Ground.{elevations};

    ghost Value = { List (Option ℤ) };

    ghost view = { λ row. elevations row.voids row.numbers };
}

impl GroundRow {
    /// No elevations. It takes no memory.
    pub fn new(alloc: Global) -> GroundRow
        ensures { result ≡ [] }
    {
        GroundRow {
            numbers: PixelRow::new(alloc),
            voids: Voids::of(None),
        }
    }

    /// How many elevations there are.
    pub fn len(&self) -> usize
        ensures { result ≡ length self.now }
    {
        self.numbers.len()
    }

    /// The elevation at a column, none at a void.
    #[inline(always)]
    pub fn z(&self, k: usize) -> Option<i64>
        requires { k < length self.now }
        ensures { result ≡ slice_index_or self.now k None }
    {
        height_with(self.voids, self.numbers.number_soonest(PixelKind::Any, k))
    }

    /// Which numbers mean a void, and the numbers, for a loop over all of them.
    #[inline(always)]
    pub fn parts(&self) -> (Voids, Pixels<'_>)
        ensures { elevations result.0 (numbers_in result.1) ≡ self.now }
    {
        (self.voids, self.numbers.pixels())
    }

    /// Forgets the elevations, and keeps the memory.
    pub fn clear(&mut self)
        ensures { self.new ≡ [] }
    {
        self.numbers.clear();
    }

    /// The memory for numbers, to be filled and put back. Until then there are no elevations.
    pub fn take_numbers(&mut self) -> Vec<i64>
        ensures { self.new ≡ [] }
    {
        self.numbers.take_numbers()
    }

    /// Replaces the elevations by those of these numbers, of which these mean a void.
    pub fn put_numbers(&mut self, voids: Voids, numbers: Vec<i64>)
        ensures elevations { self.new ≡ elevations voids numbers.items }
        ensures pixels { All IsPixel numbers.items → All (λ z. IfSome z IsPixel) self.new }
    {
        self.voids = voids;
        self.numbers.put_numbers(numbers);
    }

    /// The memory for pixels, to be filled and put back. Until then there are no elevations.
    pub fn take_pixels(&mut self) -> PixelRow
        ensures { self.new ≡ [] }
    {
        let alloc = self.numbers.alloc();
        replace(&mut self.numbers, PixelRow::new(alloc))
    }

    /// Replaces the elevations by those of these pixels, of which these numbers mean a void.
    pub fn put_pixels(&mut self, voids: Voids, pixels: PixelRow)
        ensures elevations { self.new ≡ elevations voids pixels }
        ensures pixels { All IsPixel pixels → All (λ z. IfSome z IsPixel) self.new }
    {
        self.voids = voids;
        self.numbers = pixels;
    }
}
