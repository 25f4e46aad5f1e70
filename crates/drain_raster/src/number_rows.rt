//! A row of a raster, read as numbers of 64 bits.

ghost use Rattle.std.specs.Prelude.{◌≡◌, ◌≤◌, ◌*◌, ◌+◌};
ghost use Rattle.drain_raster.specs.Names.{ℕ, List, length, All, IsErrOf, OnOk, PartFails, PartComes, RowComes, IsPixel};
ghost use Rattle.drain_raster.specs.Pixels.{AreSpelled};
ghost use Rattle.drain_raster.specs.declared.number_rows.TheConstants.{CHUNK_BYTES};
ghost use Rattle.drain_raster.specs.RasterRows.{raster_numbers_of, packed_len, pixels_behind, pixels_of};

use crate::pixel::Pixel;
use crate::row_memory::skip;
use byteorder::{BigEndian, ByteOrder, LittleEndian};
use drain_device::{ByteSource, Patience, ReadFault, read_part};
use drain_grid::HeightKind;
use drain_header::ByteOrdering::{Least, Most};
use drain_header::Header;
use std::alloc::Global;

/// How many pixels are read at once: 16 KiB of the largest.
const CHUNK_PIXELS: usize = 4096;

/// Room for this many pixels of the greatest size.
const CHUNK_BYTES: usize = 4 * CHUNK_PIXELS;

/// Skips bytes and reads a row's pixels. Memory is taken before the first byte; if it runs out, nothing is read.
pub fn read_row<R: ByteSource>(
    from: &mut R,
    header: &Header,
    gap: u32,
    patience: &mut Patience,
    kept: &mut Option<Vec<u8>>,
    out: &mut Vec<i64>,
) -> Result<(), ReadFault>
    ensures row { (bytes : List ℕ) × RowComes (pixels_behind header.now gap) (gap + packed_len header.now) (R.bytes_left from.old) (R.bytes_left from.new) result out.new.items bytes }
    ensures counted { OnOk result (length out.new.items ≡ header.now.cols) }
    ensures faults { PartFails (R.counts from.old) (R.counts from.new) patience.old patience.new (IsErrOf result ReadFault.ReadFailed) }
    ensures pixels { All IsPixel out.new.items }
    ensures no_memory { IsErrOf result ReadFault.OutOfMemory → from.new ≡ from.old }
{
    // A row of the same length as before reuses the buffer, and each row the chunk of the one before.
    if out.resize(header.cols as usize, 0).is_err() {
        out.clear();
        return Err(ReadFault::OutOfMemory);
    }
    let mut chunk = chunk_of(kept.take(), *out.allocator());
    if chunk.resize(CHUNK_BYTES, 0).is_err() {
        out.clear();
        return Err(ReadFault::OutOfMemory);
    }
    if let Err(fault) = skip(from, gap as usize, patience) {
        out.clear();
        return Err(fault);
    }
    if let Err(fault) = read_pixels(from, header, patience, &mut chunk, out) {
        out.clear();
        return Err(fault);
    }
    *kept = Some(chunk);
    Ok(())
}

/// The memory that was kept, or an empty vector.
fn chunk_of(kept: Option<Vec<u8>>, alloc: Global) -> Vec<u8> {
    match kept {
        Some(chunk) => chunk,
        None => Vec::new(alloc),
    }
}

/// Reads as many pixels as there are columns.
fn read_pixels<R: ByteSource>(
    from: &mut R,
    header: &Header,
    patience: &mut Patience,
    chunk: &mut [u8],
    out: &mut [i64],
) -> Result<(), ReadFault>
    requires room { CHUNK_BYTES ≤ length chunk.old }
    requires cols { length out.old ≡ header.now.cols }
    ensures bytes { (bytes : List ℕ) × PartComes (packed_len header.now) (R.bytes_left from.old) (R.bytes_left from.new) result bytes × OnOk result (out.new ≡ pixels_of header.now bytes) }
    ensures faults { PartFails (R.counts from.old) (R.counts from.new) patience.old patience.new (IsErrOf result ReadFault.ReadFailed) }
    ensures pixels { OnOk result (All IsPixel out.new) }
{
    match (header.kind, header.order) {
        (HeightKind::Whole, _) => read_whole(from, header, patience, chunk, out),
        (HeightKind::Single, Least) => read_numbers::<f32, LittleEndian, R>(
            from, header, patience, chunk, out,
        ),
        (HeightKind::Single, Most) => read_numbers::<f32, BigEndian, R>(
            from, header, patience, chunk, out,
        ),
    }
}

/// The same of whole heights.
fn read_whole<R: ByteSource>(
    from: &mut R,
    header: &Header,
    patience: &mut Patience,
    chunk: &mut [u8],
    out: &mut [i64],
) -> Result<(), ReadFault>
    requires kind { header.now.kind ≡ HeightKind.Whole }
    requires room { CHUNK_BYTES ≤ length chunk.old }
    requires cols { length out.old ≡ header.now.cols }
    ensures bytes { (bytes : List ℕ) × PartComes (packed_len header.now) (R.bytes_left from.old) (R.bytes_left from.new) result bytes × OnOk result (out.new ≡ pixels_of header.now bytes) }
    ensures faults { PartFails (R.counts from.old) (R.counts from.new) patience.old patience.new (IsErrOf result ReadFault.ReadFailed) }
    ensures pixels { OnOk result (All IsPixel out.new) }
{
    match (header.bits, header.signed, header.order) {
        (8, false, _) => read_numbers::<u8, LittleEndian, R>(from, header, patience, chunk, out),
        (8, true, _) => read_numbers::<i8, LittleEndian, R>(from, header, patience, chunk, out),
        (16, false, Least) => read_numbers::<u16, LittleEndian, R>(
            from, header, patience, chunk, out,
        ),
        (16, false, Most) => read_numbers::<u16, BigEndian, R>(from, header, patience, chunk, out),
        (16, true, Least) => read_numbers::<i16, LittleEndian, R>(
            from, header, patience, chunk, out,
        ),
        (16, true, Most) => read_numbers::<i16, BigEndian, R>(from, header, patience, chunk, out),
        (_, false, Least) => read_numbers::<u32, LittleEndian, R>(
            from, header, patience, chunk, out,
        ),
        (_, false, Most) => read_numbers::<u32, BigEndian, R>(from, header, patience, chunk, out),
        (_, true, Least) => read_numbers::<i32, LittleEndian, R>(
            from, header, patience, chunk, out,
        ),
        (_, true, Most) => read_numbers::<i32, BigEndian, R>(from, header, patience, chunk, out),
    }
}

/// Reads as many pixels of this kind, some at a time.
fn read_numbers<P: Pixel, T: ByteOrder, R: ByteSource>(
    from: &mut R,
    header: &Header,
    patience: &mut Patience,
    chunk: &mut [u8],
    out: &mut [i64],
) -> Result<(), ReadFault>
    requires room { CHUNK_BYTES ≤ length chunk.old }
    requires spelled { AreSpelled header.now P.len (P.reads T.number_of) }
    requires cols { length out.old ≡ header.now.cols }
    ensures bytes { (bytes : List ℕ) × PartComes (packed_len header.now) (R.bytes_left from.old) (R.bytes_left from.new) result bytes × OnOk result (out.new ≡ pixels_of header.now bytes) }
    ensures faults { PartFails (R.counts from.old) (R.counts from.new) patience.old patience.new (IsErrOf result ReadFault.ReadFailed) }
    ensures pixels { OnOk result (All IsPixel out.new) }
{
    // The proof knows the header's invariant once a field of it was read.
    let _bits = header.bits;
    let len = P::len();
    let mut first = 0;
    while first < out.len() {
        let came = CHUNK_PIXELS.min(out.len() - first);
        let part = &mut chunk[..came * len];
        read_part(from, part, patience)?;
        put_numbers::<P, T>(&mut out[first..first + came], part);
        first += came;
    }
    Ok(())
}

/// Replaces the numbers by those of the bytes.
fn put_numbers<P: Pixel, T: ByteOrder>(out: &mut [i64], bytes: &[u8])
    requires { length bytes.now ≡ length out.old * P.len }
    ensures items { out.new ≡ raster_numbers_of P.len (P.reads T.number_of) (length out.old) bytes.now }
    ensures pixels { All IsPixel out.new }
{
    let len = P::len();
    for k in 0..out.len() {
        let at = k * len;
        out[k] = P::number::<T>(&bytes[at..at + len]);
    }
}
