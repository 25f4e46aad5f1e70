//! The numbers of a raster as it keeps them: as many bits as they have, whatever their pixels have.

use drain_pixels::PixelNumbers;

/// Numbers from 0 to 255.
#[derive(Clone, Copy)]
pub struct Bytes<'a> {
    pub bytes: &'a [u8],
}

impl PixelNumbers for Bytes<'_> {
    ghost use Rattle.std.specs.Prelude.{pos, map};

    ghost numbers = { λ kept. map (λ n. pos n) kept.bytes.now };

    #[inline(always)]
    fn len(&self) -> usize {
        self.bytes.len()
    }

    #[inline(always)]
    fn at(&self, k: usize) -> i64 {
        let bytes = self.bytes;
        i64::from(bytes[k])
    }
}

/// Numbers of 16 bits with a sign.
#[derive(Clone, Copy)]
pub struct Heights<'a> {
    pub heights: &'a [i16],
}

impl PixelNumbers for Heights<'_> {
    ghost numbers = { λ kept. kept.heights.now };

    #[inline(always)]
    fn len(&self) -> usize {
        self.heights.len()
    }

    #[inline(always)]
    fn at(&self, k: usize) -> i64 {
        let heights = self.heights;
        i64::from(heights[k])
    }
}

/// Numbers of 32 bits without a sign.
#[derive(Clone, Copy)]
pub struct Counts<'a> {
    pub counts: &'a [u32],
}

impl PixelNumbers for Counts<'_> {
    ghost use Rattle.std.specs.Prelude.{pos, map};

    ghost numbers = { λ kept. map (λ n. pos n) kept.counts.now };

    #[inline(always)]
    fn len(&self) -> usize {
        self.counts.len()
    }

    #[inline(always)]
    fn at(&self, k: usize) -> i64 {
        let counts = self.counts;
        i64::from(counts[k])
    }
}
