//! The rows of a raster, one at a time.

ghost use Rattle.std.specs.Prelude.{◌≡◌, ◌≢◌, ◌↔◌};
ghost use Rattle.drain_raster.specs.Names.{All, IsErrOf, IsTrue, PartFails, full_patience, Gives, IsEmptyUnlessRow, IsLong, ReadsWithin, StaysEnded, progress_after, IsPixel};
ghost use Rattle.drain_device.specs.declared.row_source.Progress.{Progress};
ghost use Rattle.drain_raster.specs.Bytes.{padding_len};
ghost use Rattle.drain_raster.specs.RasterRows.{raster_coming, raster_most_bytes};

use crate::row_memory::RowMemory;
use drain_device::{ByteSource, Patience, Progress, ReadFault, RowSource, RowStep};
use drain_header::Header;
use drain_pixels::PixelRow;

/// A reader of a raster's rows, the northernmost first, each from west to east.
///
/// The bytes before the first row, and those between one row's pixels and the next row, are skipped when that row is
/// read, so no byte after the last pixel is read. It returns `WrongLength` at the row in which a byte of some pixel is
/// missing; `OutOfMemory` if memory for a row runs out, and then it reads nothing.
///
/// It keeps the memory of 16 KiB through which numbers are read.
///
/// Source: the Esri description of BIL files.
#[derive(Drop)]
pub struct RasterRows {
    header: Header,
    left: u32,
    gap: u32,
    progress: Progress,
    patience: Patience,
    chunk: Option<Vec<u8>>,
}

impl RasterRows {
    /// The rows of a raster with this header, from its first byte on.
    pub fn new(header: Header) -> RasterRows
        ensures header { result.header ≡ header }
        ensures left { result.left ≡ header.rows }
        ensures gap { result.gap ≡ header.skip }
        ensures going { result.progress ≡ Progress.Going }
        ensures patience { result.patience ≡ full_patience }
    {
        let left = header.rows;
        let gap = header.skip;
        RasterRows {
            header,
            left,
            gap,
            progress: Progress::Going,
            patience: Patience::new(),
            chunk: None,
        }
    }

    /// Whether it has returned a fault.
    pub fn is_stopped(&self) -> bool
        ensures { IsTrue result ↔ (self.now.progress ≡ Progress.Stopped) }
    {
        self.progress == Progress::Stopped
    }
}

impl RasterRows {
    /// Reads the next row's pixels, as `next_row` does, without a look at their numbers if they are of a usual kind.
    pub fn next_pixels<R: ByteSource>(
        &mut self,
        from: &mut R,
        out: &mut PixelRow,
    ) -> Result<RowStep, ReadFault>
        ensures rows { Gives (raster_coming self.old) (raster_coming self.new) (R.bytes_left from.old) (R.bytes_left from.new) result out.new }
        ensures empty { IsEmptyUnlessRow result out.new }
        ensures long { IsLong self.old.header.cols result out.new }
        ensures keeps_len { self.new.header.cols ≡ self.old.header.cols }
        ensures stays { StaysEnded self.old.progress result }
        ensures already { IsErrOf result ReadFault.AlreadyFailed → self.old.progress ≡ Progress.Stopped }
        ensures after { self.new.progress ≡ progress_after result }
        ensures reads_nothing { self.old.progress ≢ Progress.Going → from.new ≡ from.old }
        ensures within { ReadsWithin (raster_most_bytes self.old) (raster_most_bytes self.new) (R.bytes_left from.old) (R.bytes_left from.new) }
        ensures faults { PartFails (R.counts from.old) (R.counts from.new) self.old.patience self.new.patience (IsErrOf result ReadFault.ReadFailed) }
        ensures pixels { All IsPixel out.new }
        ensures no_memory { IsErrOf result ReadFault.OutOfMemory → from.new ≡ from.old }
    {
        self.next_into(from, out)
    }

    /// Reads the next row.
    fn next_into<R: ByteSource, O: RowMemory>(
        &mut self,
        from: &mut R,
        out: &mut O,
    ) -> Result<RowStep, ReadFault>
        ensures rows { Gives (raster_coming self.old) (raster_coming self.new) (R.bytes_left from.old) (R.bytes_left from.new) result (O.numbers out.new) }
        ensures empty { IsEmptyUnlessRow result (O.numbers out.new) }
        ensures long { IsLong self.old.header.cols result (O.numbers out.new) }
        ensures keeps_len { self.new.header.cols ≡ self.old.header.cols }
        ensures stays { StaysEnded self.old.progress result }
        ensures already { IsErrOf result ReadFault.AlreadyFailed → self.old.progress ≡ Progress.Stopped }
        ensures after { self.new.progress ≡ progress_after result }
        ensures reads_nothing { self.old.progress ≢ Progress.Going → from.new ≡ from.old }
        ensures within { ReadsWithin (raster_most_bytes self.old) (raster_most_bytes self.new) (R.bytes_left from.old) (R.bytes_left from.new) }
        ensures faults { PartFails (R.counts from.old) (R.counts from.new) self.old.patience self.new.patience (IsErrOf result ReadFault.ReadFailed) }
        ensures pixels { All IsPixel (O.numbers out.new) }
        ensures no_memory { IsErrOf result ReadFault.OutOfMemory → from.new ≡ from.old }
    {
        match self.progress {
            Progress::Done => {
                out.clear();
                return Ok(RowStep::Ended);
            }
            Progress::Stopped => {
                out.clear();
                return Err(ReadFault::AlreadyFailed);
            }
            Progress::Going => {}
        }
        if self.left == 0 {
            self.progress = Progress::Done;
            out.clear();
            return Ok(RowStep::Ended);
        }
        match out.read(
            from,
            &self.header,
            self.gap,
            &mut self.patience,
            &mut self.chunk,
        ) {
            Ok(()) => {
                self.left -= 1;
                self.gap = padding(&self.header);
                Ok(RowStep::Row)
            }
            Err(fault) => {
                self.progress = Progress::Stopped;
                Err(fault)
            }
        }
    }
}

impl<R: ByteSource> RowSource<R> for RasterRows {
    ghost coming = { raster_coming };

    ghost progress = { λ s. s.progress };

    ghost most_bytes = { raster_most_bytes };

    ghost patience = { λ s. s.patience };

    ghost row_len = { λ s. s.header.cols };

    fn next_row(&mut self, from: &mut R, out: &mut Vec<i64>) -> Result<RowStep, ReadFault>
        ensures rows { Gives (raster_coming self.old) (raster_coming self.new) (R.bytes_left from.old) (R.bytes_left from.new) result out.new.items }
        ensures empty { IsEmptyUnlessRow result out.new.items }
        ensures long { IsLong self.old.header.cols result out.new.items }
        ensures keeps_len { self.new.header.cols ≡ self.old.header.cols }
        ensures stays { StaysEnded self.old.progress result }
        ensures already { IsErrOf result ReadFault.AlreadyFailed → self.old.progress ≡ Progress.Stopped }
        ensures after { self.new.progress ≡ progress_after result }
        ensures reads_nothing { self.old.progress ≢ Progress.Going → from.new ≡ from.old }
        ensures within { ReadsWithin (raster_most_bytes self.old) (raster_most_bytes self.new) (R.bytes_left from.old) (R.bytes_left from.new) }
        ensures faults { PartFails (R.counts from.old) (R.counts from.new) self.old.patience self.new.patience (IsErrOf result ReadFault.ReadFailed) }

        // For any device: the numbers of a row are those of pixels, and memory runs out before the device is called.
        ensures pixels { All IsPixel out.new.items }
        ensures no_memory { IsErrOf result ReadFault.OutOfMemory → from.new ≡ from.old }
    {
        self.next_into(from, out)
    }
}

/// How many bytes are between one row's pixels and the next row.
fn padding(header: &Header) -> u32
    ensures { result ≡ padding_len header.now }
{
    header.row_bytes - header.cols * (u32::from(header.bits) / 8)
}
