//! Writing a raster.

ghost use Rattle.std.specs.Prelude.{◌≡◌, ◌↔◌, ◌≤◌, ◌<◌, ◌+◌, ◌-◌, ◌*◌, ◌++◌};
ghost use Rattle.drain_raster.specs.Names.{ℕ, ℤ, List, All, length, take, map, replicate, Err, IsErrOf, flat_map, range_with_len, full_patience, WriteFails, HandsOver, Cell, row_cells, Pixels, IsPixel};
ghost use Rattle.drain_grid.specs.declared.cell.TheConstants.{MAX_LENGTH};
ghost use Rattle.drain_raster.specs.Pixels.{header_extent};
ghost use Rattle.drain_raster.specs.Bytes.{AreWritten, CanSpellAll, CanSpellAllAs, IsFirstOutOfRange, cells_bytes, cells_from, bytes_of_row, raster_bytes};
ghost use Rattle.drain_raster.specs.RasterRows.{Hands};
ghost use Rattle.drain_raster.specs.declared.write.TheConstants.{BUFFER_BYTES};

use crate::fault::WriteFault;
use crate::kept::{Bytes, Counts, Heights};
use crate::pixel::Pixel;
use crate::range::first_out_of_range;
use byteorder::{BigEndian, ByteOrder, LittleEndian};
use drain_device::{ByteSink, GaveUp, Patience, write_all};
use drain_grid::{HeightKind, KeptNumbers, Raster};
use drain_header::{ByteOrdering, Header};
use drain_pixels::PixelNumbers;
use drain_pixels::stored::AnyPixels;

/// The most bytes in one call of the sink.
const BUFFER_BYTES: usize = 16384;

/// How many pixels of any size the buffer has room for.
const BUFFER_PIXELS: u32 = 4096;

/// The most zeros in one call of the sink.
const ZERO_BYTES: usize = 4096;

/// Writes these bytes.
fn hand<W: ByteSink>(to: &mut W, bytes: &[u8], patience: &mut Patience) -> Result<(), GaveUp>
    ensures { Hands (W.bytes_taken to.old) (W.bytes_taken to.new) (W.counts to.old) (W.counts to.new) (W.stalls to.old) (W.stalls to.new) patience.old patience.new result bytes.now }
{
    write_all(to, bytes, patience)
}

/// Writes `count` zeros.
fn write_zeros<W: ByteSink>(to: &mut W, count: usize, patience: &mut Patience) -> Result<(), GaveUp>
    ensures { Hands (W.bytes_taken to.old) (W.bytes_taken to.new) (W.counts to.old) (W.counts to.new) (W.stalls to.old) (W.stalls to.new) patience.old patience.new result (replicate count 0) }
{
    if count == 0 {
        return Ok(());
    }
    let zeros = [0; ZERO_BYTES];
    let mut written = 0;
    while written < count {
        let next = ZERO_BYTES.min(count - written);
        hand(to, &zeros[..next], patience)?;
        written += next;
    }
    Ok(())
}

/// Puts the pixels of a row from one column up to another at the front of the bytes.
fn put_pixels<P: Pixel, T: ByteOrder>(
    bytes: &mut [u8],
    raster: &Raster,
    row: u32,
    first: u32,
    end: u32,
)
    requires spelled { CanSpellAllAs P.kind P.signed P.bits raster.now }
    requires row { row < raster.now.extent.rows }
    requires end { end ≤ raster.now.extent.cols }
    requires first { first ≤ end }
    requires room { (end - first) * P.len ≤ length bytes.old }
    ensures { take ((end - first) * P.len) bytes.new ≡ cells_bytes (P.spells T.bytes_of) raster.now (cells_from row first (end - first)) }
{
    match raster.kept() {
        KeptNumbers::Bytes(numbers) => {
            put_kept::<Bytes, P, T>(bytes, raster, &Bytes { bytes: numbers }, row, first, end)
        }
        KeptNumbers::Heights(heights) => {
            put_kept::<Heights, P, T>(bytes, raster, &Heights { heights }, row, first, end)
        }
        KeptNumbers::Counts(counts) => {
            put_kept::<Counts, P, T>(bytes, raster, &Counts { counts }, row, first, end)
        }
        KeptNumbers::Wide(numbers) => {
            put_kept::<AnyPixels, P, T>(bytes, raster, &AnyPixels { numbers }, row, first, end)
        }
    }
}

/// The same from the raster's numbers, in a loop without a branch: the compiler puts many at a time.
#[inline(never)]
fn put_kept<N: PixelNumbers + Copy, P: Pixel, T: ByteOrder>(
    bytes: &mut [u8],
    raster: &Raster,
    numbers: &N,
    row: u32,
    first: u32,
    end: u32,
)
    requires numbers { N.numbers numbers.now ≡ raster.now.numbers }
    requires counted { length raster.now.numbers ≡ raster.now.extent.rows * raster.now.extent.cols }
    requires pixels { All IsPixel raster.now.numbers }
    requires spelled { CanSpellAllAs P.kind P.signed P.bits raster.now }
    requires row { row < raster.now.extent.rows }
    requires end { end ≤ raster.now.extent.cols }
    requires first { first ≤ end }
    requires room { (end - first) * P.len ≤ length bytes.old }
    ensures { take ((end - first) * P.len) bytes.new ≡ cells_bytes (P.spells T.bytes_of) raster.now (cells_from row first (end - first)) }
{
    // A local copy: behind a reference its address would be loaded again at each number.
    let numbers = *numbers;
    let start = raster.shape().row_start(row) + first as usize;
    for k in 0..(end - first) as usize {
        let at = k * P::len();
        P::put::<T>(&mut bytes[at..], numbers.at(start + k));
    }
}

/// Writes the pixels of a row, through the buffer.
fn write_pixels<P: Pixel, T: ByteOrder, W: ByteSink>(
    to: &mut W,
    raster: &Raster,
    row: u32,
    cols: u32,
    buffer: &mut [u8],
    patience: &mut Patience,
) -> Result<(), GaveUp>
    requires len { P.len ≤ 4 }
    requires room { BUFFER_BYTES ≤ length buffer.old }
    requires spelled { CanSpellAllAs P.kind P.signed P.bits raster.now }
    requires row { row < raster.now.extent.rows }
    requires cols { cols ≡ raster.now.extent.cols }
    requires fits { cols ≤ MAX_LENGTH }
    ensures { Hands (W.bytes_taken to.old) (W.bytes_taken to.new) (W.counts to.old) (W.counts to.new) (W.stalls to.old) (W.stalls to.new) patience.old patience.new result (cells_bytes (P.spells T.bytes_of) raster.now (row_cells cols row)) }
{
    let mut first = 0;
    while first < cols {
        let end = cols.min(first + BUFFER_PIXELS);
        put_pixels::<P, T>(buffer, raster, row, first, end);
        let filled = (end - first) as usize * P::len();
        hand(to, &buffer[..filled], patience)?;
        first = end;
    }
    Ok(())
}

/// Writes a row: its pixels, and zeros up to its length.
fn write_row<P: Pixel, T: ByteOrder, W: ByteSink>(
    to: &mut W,
    header: &Header,
    raster: &Raster,
    row: u32,
    buffer: &mut [u8],
    patience: &mut Patience,
) -> Result<(), GaveUp>
    requires room { BUFFER_BYTES ≤ length buffer.old }
    requires written { AreWritten header.now P.kind P.len P.bits P.signed (P.spells T.bytes_of) }
    requires shape { raster.now.extent ≡ header_extent header.now }
    requires spelled { CanSpellAll header.now raster.now }
    requires inside { row < header.now.rows }
    ensures { Hands (W.bytes_taken to.old) (W.bytes_taken to.new) (W.counts to.old) (W.counts to.new) (W.stalls to.old) (W.stalls to.new) patience.old patience.new result (bytes_of_row header.now raster.now row) }
{
    let padding = header.row_bytes as usize - header.cols as usize * P::len();
    write_pixels::<P, T, W>(to, raster, row, header.cols, buffer, patience)?;
    write_zeros(to, padding, patience)
}

/// Writes all rows.
fn write_rows<P: Pixel, T: ByteOrder, W: ByteSink>(
    to: &mut W,
    header: &Header,
    raster: &Raster,
    patience: &mut Patience,
) -> Result<(), GaveUp>
    requires written { AreWritten header.now P.kind P.len P.bits P.signed (P.spells T.bytes_of) }
    requires shape { raster.now.extent ≡ header_extent header.now }
    requires spelled { CanSpellAll header.now raster.now }
    ensures { Hands (W.bytes_taken to.old) (W.bytes_taken to.new) (W.counts to.old) (W.counts to.new) (W.stalls to.old) (W.stalls to.new) patience.old patience.new result (flat_map (bytes_of_row header.now raster.now) (range_with_len 0 header.now.rows)) }
{
    let mut buffer = [0; BUFFER_BYTES];
    for row in 0..header.rows {
        write_row::<P, T, W>(to, header, raster, row, &mut buffer, patience)?;
    }
    Ok(())
}

/// Writes all rows, with the header's pixels.
fn write_body<W: ByteSink>(
    to: &mut W,
    header: &Header,
    raster: &Raster,
    patience: &mut Patience,
) -> Result<(), GaveUp>
    requires shape { raster.now.extent ≡ header_extent header.now }
    requires spelled { CanSpellAll header.now raster.now }
    ensures { Hands (W.bytes_taken to.old) (W.bytes_taken to.new) (W.counts to.old) (W.counts to.new) (W.stalls to.old) (W.stalls to.new) patience.old patience.new result (flat_map (bytes_of_row header.now raster.now) (range_with_len 0 header.now.rows)) }
{
    match (header.kind, header.order) {
        (HeightKind::Whole, _) => write_whole(to, header, raster, patience),
        (HeightKind::Single, ByteOrdering::Least) => {
            write_rows::<f32, LittleEndian, W>(to, header, raster, patience)
        }
        (HeightKind::Single, ByteOrdering::Most) => {
            write_rows::<f32, BigEndian, W>(to, header, raster, patience)
        }
    }
}

/// The same with pixels of whole heights.
fn write_whole<W: ByteSink>(
    to: &mut W,
    header: &Header,
    raster: &Raster,
    patience: &mut Patience,
) -> Result<(), GaveUp>
    requires kind { header.now.kind ≡ HeightKind.Whole }
    requires shape { raster.now.extent ≡ header_extent header.now }
    requires spelled { CanSpellAll header.now raster.now }
    ensures { Hands (W.bytes_taken to.old) (W.bytes_taken to.new) (W.counts to.old) (W.counts to.new) (W.stalls to.old) (W.stalls to.new) patience.old patience.new result (flat_map (bytes_of_row header.now raster.now) (range_with_len 0 header.now.rows)) }
{
    match (header.bits, header.signed, header.order) {
        (8, false, _) => write_rows::<u8, LittleEndian, W>(to, header, raster, patience),
        (8, true, _) => write_rows::<i8, LittleEndian, W>(to, header, raster, patience),
        (16, false, ByteOrdering::Least) => {
            write_rows::<u16, LittleEndian, W>(to, header, raster, patience)
        }
        (16, false, ByteOrdering::Most) => {
            write_rows::<u16, BigEndian, W>(to, header, raster, patience)
        }
        (16, true, ByteOrdering::Least) => {
            write_rows::<i16, LittleEndian, W>(to, header, raster, patience)
        }
        (16, true, ByteOrdering::Most) => {
            write_rows::<i16, BigEndian, W>(to, header, raster, patience)
        }
        (_, false, ByteOrdering::Least) => {
            write_rows::<u32, LittleEndian, W>(to, header, raster, patience)
        }
        (_, false, ByteOrdering::Most) => {
            write_rows::<u32, BigEndian, W>(to, header, raster, patience)
        }
        (_, true, ByteOrdering::Least) => {
            write_rows::<i32, LittleEndian, W>(to, header, raster, patience)
        }
        (_, true, ByteOrdering::Most) => {
            write_rows::<i32, BigEndian, W>(to, header, raster, patience)
        }
    }
}

/// Writes the zeros to skip and all rows.
fn write_all_bytes<W: ByteSink>(
    to: &mut W,
    header: &Header,
    raster: &Raster,
    patience: &mut Patience,
) -> Result<(), GaveUp>
    requires shape { raster.now.extent ≡ header_extent header.now }
    requires spelled { CanSpellAll header.now raster.now }
    ensures { Hands (W.bytes_taken to.old) (W.bytes_taken to.new) (W.counts to.old) (W.counts to.new) (W.stalls to.old) (W.stalls to.new) patience.old patience.new result (raster_bytes header.now raster.now) }
{
    write_zeros(to, header.skip as usize, patience)?;
    write_body(to, header, raster, patience)
}

/// Writes the raster's bytes: `skip` zeros, then each row's pixels and zeros up to `row_bytes`, the last row too.
///
/// `OutOfRange` gives the first cell, in row order, with a number that a pixel of this size and sign can't encode, and
/// comes before any byte is written. `WriteFailed` comes if the sink failed, stalled, or was interrupted for the
/// 1,000th time in this call; then a part of the bytes was written, from the first on. It takes no memory.
///
/// Source: the Esri description of BIL files.
pub fn write_raster<W: ByteSink>(
    to: &mut W,
    header: &Header,
    raster: &Raster,
) -> Result<(), WriteFault>
    requires shape { raster.now.extent ≡ header_extent header.now }
    ensures out_of_range { (c : Cell) → (result ≡ Err (WriteFault.OutOfRange c)) ↔ IsFirstOutOfRange header.now raster.now c }
    ensures untouched { (c : Cell) → result ≡ Err (WriteFault.OutOfRange c) → to.new ≡ to.old }
    ensures bytes { HandsOver (W.bytes_taken to.old) (W.bytes_taken to.new) result (raster_bytes header.now raster.now) }

    // The write fails exactly if the sink failed, stalled, or was interrupted for the 1,000th time.
    ensures faults { WriteFails (W.counts to.old) (W.counts to.new) (W.stalls to.old) (W.stalls to.new) (IsErrOf result WriteFault.WriteFailed) }
{
    // The proof knows the header's invariant once a field of it was read.
    let _rows = header.rows;
    if let Some(cell) = first_out_of_range(header, raster) {
        return Err(WriteFault::OutOfRange(cell));
    }
    match write_all_bytes(to, header, raster, &mut Patience::new()) {
        Ok(()) => Ok(()),
        Err(GaveUp) => Err(WriteFault::WriteFailed),
    }
}
