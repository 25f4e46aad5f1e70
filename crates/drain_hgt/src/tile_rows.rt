//! The rows of a tile, one at a time.

ghost use Rattle.std.specs.Prelude.{◌≡◌, ◌≢◌, ◌↔◌, ◌≤◌, ◌*◌, ◌+◌};
ghost use Rattle.drain_hgt.specs.Names.{ℕ, List, length, All, Ok, IsErrOf, IsTrue, OnOk, cast_signed, w16, big_number, RowComes, Gives, IsEmptyUnlessRow, IsLong, ReadsWithin, StaysEnded, progress_after, IsSample, IsSide};
ghost use Rattle.drain_device.specs.Failing.{PartFails, full_patience};
ghost use Rattle.drain_device.specs.declared.row_source.Progress.{Progress};
ghost use Rattle.drain_hgt.specs.Samples.{samples_of};

use byteorder::{BigEndian, ByteOrder};
use drain_device::{
    ByteSource, Patience, Progress, ReadFault, RowSource, RowStep, read_end, read_part,
};
use drain_grid::tile::MAX_SIDE;

/// How many bytes the widest row takes: two for each sample.
const MAX_ROW_BYTES: usize = 2 * MAX_SIDE as usize;

/// A reader of a tile's rows, the northernmost first, each from west to east, in whole metres with -32768 for a void.
///
/// After the last row it reads one byte more, if there is one: a longer tile has a wrong length too. It returns
/// `WrongLength` at the row that isn't whole, or at that byte; `OutOfMemory` if memory for a row runs out: then it
/// reads nothing.
///
/// Source: the SRTM HGT documentation.
#[derive(Drop)]
pub struct TileRows {
    side: u32,
    left: u32,
    progress: Progress,
    patience: Patience,
    ghost in_range: { IsSide side },
}

impl TileRows {
    /// The rows of a tile from its first byte on. `side` is the number of samples along an edge, from 2 to 3601.
    pub fn new(side: u32) -> TileRows
        requires { IsSide side }
        ensures side { result.side ≡ side }
        ensures left { result.left ≡ side }
        ensures going { result.progress ≡ Progress.Going }
        ensures patience { result.patience ≡ full_patience }
    {
        TileRows {
            side,
            left: side,
            progress: Progress::Going,
            patience: Patience::new(),
        }
    }

    /// Whether it has returned a fault.
    pub fn is_stopped(&self) -> bool
        ensures { IsTrue result ↔ (self.now.progress ≡ Progress.Stopped) }
    {
        self.progress == Progress::Stopped
    }
}

impl<R: ByteSource> RowSource<R> for TileRows {
    ghost use Rattle.drain_hgt.specs.TileRows.{tile_coming, tile_most_bytes};

    ghost coming = { tile_coming };

    ghost progress = { λ s. s.progress };

    ghost most_bytes = { tile_most_bytes };

    ghost patience = { λ s. s.patience };

    ghost row_len = { λ s. s.side };

    fn next_row(&mut self, from: &mut R, out: &mut Vec<i64>) -> Result<RowStep, ReadFault>
        ensures rows { Gives (tile_coming self.old) (tile_coming self.new) (R.bytes_left from.old) (R.bytes_left from.new) result out.new.items }
        ensures empty { IsEmptyUnlessRow result out.new.items }
        ensures long { IsLong self.old.side result out.new.items }
        ensures keeps_len { self.new.side ≡ self.old.side }
        ensures stays { StaysEnded self.old.progress result }
        ensures already { IsErrOf result ReadFault.AlreadyFailed → self.old.progress ≡ Progress.Stopped }
        ensures after { self.new.progress ≡ progress_after result }
        ensures reads_nothing { self.old.progress ≢ Progress.Going → from.new ≡ from.old }
        ensures within { ReadsWithin (tile_most_bytes self.old) (tile_most_bytes self.new) (R.bytes_left from.old) (R.bytes_left from.new) }
        ensures faults { PartFails (R.counts from.old) (R.counts from.new) self.old.patience self.new.patience (IsErrOf result ReadFault.ReadFailed) }

        // For any device: a row leaves one fewer, its numbers are samples, and memory runs out before the device is
        // called.
        ensures left { result ≡ Ok RowStep.Row → self.new.left + 1 ≡ self.old.left }
        ensures samples { All IsSample out.new.items }
        ensures no_memory { IsErrOf result ReadFault.OutOfMemory → from.new ≡ from.old }
    {
        match self.progress {
            Progress::Done => {
                out.clear();
                return Ok(RowStep::Ended);
            }
            Progress::Stopped => {
                out.clear();
                return Err(ReadFault::AlreadyFailed);
            }
            Progress::Going => {}
        }
        if self.left == 0 {
            out.clear();
            match read_end(from, &mut self.patience) {
                Ok(()) => {
                    self.progress = Progress::Done;
                    Ok(RowStep::Ended)
                }
                Err(fault) => {
                    self.progress = Progress::Stopped;
                    Err(fault)
                }
            }
        } else {
            match read_samples(from, self.side, &mut self.patience, out) {
                Ok(()) => {
                    self.left -= 1;
                    Ok(RowStep::Row)
                }
                Err(fault) => {
                    self.progress = Progress::Stopped;
                    Err(fault)
                }
            }
        }
    }
}

/// Reads `count` samples. Memory is taken before the first byte; if it runs out, nothing is read.
fn read_samples<R: ByteSource>(
    from: &mut R,
    count: u32,
    patience: &mut Patience,
    out: &mut Vec<i64>,
) -> Result<(), ReadFault>
    requires side { IsSide count }
    ensures row { (bytes : List ℕ) × RowComes samples_of (2 * count) (R.bytes_left from.old) (R.bytes_left from.new) result out.new.items bytes }
    ensures counted { OnOk result (length out.new.items ≡ count) }
    ensures faults { PartFails (R.counts from.old) (R.counts from.new) patience.old patience.new (IsErrOf result ReadFault.ReadFailed) }
    ensures samples { All IsSample out.new.items }
    ensures no_memory { IsErrOf result ReadFault.OutOfMemory → from.new ≡ from.old }
{
    // A row of the same length as before reuses the buffer.
    if out.resize(count as usize, 0).is_err() {
        out.clear();
        return Err(ReadFault::OutOfMemory);
    }
    let mut bytes = [0; MAX_ROW_BYTES];
    let part = &mut bytes[..2 * count as usize];
    if let Err(fault) = read_part(from, part, patience) {
        out.clear();
        return Err(fault);
    }
    put_samples(out, part);
    Ok(())
}

/// Replaces the numbers by the samples of the bytes.
fn put_samples(out: &mut [i64], bytes: &[u8])
    requires { length bytes.now ≡ 2 * length out.old }
    ensures items { out.new ≡ samples_of bytes.now }
    ensures samples { All IsSample out.new }
{
    for k in 0..out.len() {
        out[k] = sample(&bytes[2 * k..]);
    }
}

/// The sample of the first two bytes.
fn sample(bytes: &[u8]) -> i64
    requires { 2 ≤ length bytes.now }
    ensures value { result ≡ cast_signed w16 (big_number 2 bytes.now) }
    ensures in_range { IsSample result }
{
    i64::from(BigEndian::read_i16(bytes))
}
