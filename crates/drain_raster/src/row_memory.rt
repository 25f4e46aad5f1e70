//! What a row's pixels are read into: a vector of numbers, or a row that may keep their bytes.

ghost use Rattle.std.specs.Prelude.{◌≡◌, ◌+◌};
ghost use Rattle.drain_raster.specs.Names.{ℕ, ℤ, [], List, length, All, IsErrOf, OnOk, PartFails, PartComes, RowComes, IsPixel};
ghost use Rattle.drain_raster.specs.RasterRows.{packed_len, pixels_behind};

use crate::number_rows::read_row;
use crate::pixel_rows::read_pixel_row;
use drain_device::{ByteSource, Patience, ReadFault, pass_part};
use drain_header::Header;
use drain_pixels::PixelRow;

/// Memory for the numbers of a row.
pub trait RowMemory {
    /// The numbers that it holds.
    ghost numbers: { Self → List ℤ };

    /// Forgets them.
    fn clear(&mut self)
        ensures { numbers self.new ≡ [] };

    /// Skips bytes and reads a row's pixels. Memory is taken before the first byte; if it runs out, nothing is read.
    fn read<R: ByteSource>(
        &mut self,
        from: &mut R,
        header: &Header,
        gap: u32,
        patience: &mut Patience,
        kept: &mut Option<Vec<u8>>,
    ) -> Result<(), ReadFault>
        ensures row { (bytes : List ℕ) × RowComes (pixels_behind header.now gap) (gap + packed_len header.now) (R.bytes_left from.old) (R.bytes_left from.new) result (numbers self.new) bytes }
        ensures counted { OnOk result (length (numbers self.new) ≡ header.now.cols) }
        ensures faults { PartFails (R.counts from.old) (R.counts from.new) patience.old patience.new (IsErrOf result ReadFault.ReadFailed) }
        ensures pixels { All IsPixel (numbers self.new) }
        ensures no_memory { IsErrOf result ReadFault.OutOfMemory → from.new ≡ from.old };
}

impl RowMemory for Vec<i64> {
    ghost numbers = { λ row. row.items };

    fn clear(&mut self) {
        self.clear();
    }

    fn read<R: ByteSource>(
        &mut self,
        from: &mut R,
        header: &Header,
        gap: u32,
        patience: &mut Patience,
        kept: &mut Option<Vec<u8>>,
    ) -> Result<(), ReadFault> {
        read_row(from, header, gap, patience, kept, self)
    }
}

impl RowMemory for PixelRow {
    ghost numbers = { λ row. row };

    fn clear(&mut self) {
        self.clear();
    }

    fn read<R: ByteSource>(
        &mut self,
        from: &mut R,
        header: &Header,
        gap: u32,
        patience: &mut Patience,
        kept: &mut Option<Vec<u8>>,
    ) -> Result<(), ReadFault> {
        read_pixel_row(from, header, gap, patience, kept, self)
    }
}

/// Skips `count` bytes, with the errors of `pass_part`. Most rows have none to skip.
pub fn skip<R: ByteSource>(
    from: &mut R,
    count: usize,
    patience: &mut Patience,
) -> Result<(), ReadFault>
    ensures bytes { (bytes : List ℕ) × PartComes count (R.bytes_left from.old) (R.bytes_left from.new) result bytes }
    ensures faults { PartFails (R.counts from.old) (R.counts from.new) patience.old patience.new (IsErrOf result ReadFault.ReadFailed) }
{
    if count == 0 {
        return Ok(());
    }
    pass_part(from, count, patience)
}
