//! A row of a raster, read as the bytes of its pixels where they are of a usual kind.

ghost use Rattle.std.specs.Prelude.{◌≡◌, ◌*◌, ◌+◌};
ghost use Rattle.drain_raster.specs.Names.{ℕ, [], List, length, All, IsErrOf, OnOk, PartFails, RowComes, IsPixel, numbers_as};
ghost use Rattle.drain_raster.specs.Kinds.{HoldRows, IsKindOf};
ghost use Rattle.drain_raster.specs.RasterRows.{packed_len, pixels_behind};

use crate::number_rows::read_row;
use crate::row_memory::skip;
use drain_device::{ByteSource, Patience, ReadFault, read_part};
use drain_grid::HeightKind;
use drain_header::ByteOrdering::{Least, Most};
use drain_header::Header;
use drain_pixels::{PixelKind, PixelRow};

/// Skips bytes and reads a row's pixels. Memory is taken before the first byte; if it runs out, nothing is read.
pub fn read_pixel_row<R: ByteSource>(
    from: &mut R,
    header: &Header,
    gap: u32,
    patience: &mut Patience,
    kept: &mut Option<Vec<u8>>,
    out: &mut PixelRow,
) -> Result<(), ReadFault>
    ensures row { (bytes : List ℕ) × RowComes (pixels_behind header.now gap) (gap + packed_len header.now) (R.bytes_left from.old) (R.bytes_left from.new) result out.new bytes }
    ensures counted { OnOk result (length out.new ≡ header.now.cols) }
    ensures faults { PartFails (R.counts from.old) (R.counts from.new) patience.old patience.new (IsErrOf result ReadFault.ReadFailed) }
    ensures pixels { All IsPixel out.new }
    ensures no_memory { IsErrOf result ReadFault.OutOfMemory → from.new ≡ from.old }
{
    let kind = kind_of(header);
    if kind == PixelKind::Any {
        let mut numbers = out.take_numbers();
        let came = read_row(from, header, gap, patience, kept, &mut numbers);
        out.put_numbers(numbers);
        return came;
    }
    let mut bytes = out.take_bytes();
    let came = read_bytes(from, header, kind, gap, patience, &mut bytes);
    out.put_bytes(kind, bytes);
    came
}

/// Skips bytes and reads those of a row's pixels.
fn read_bytes<R: ByteSource>(
    from: &mut R,
    header: &Header,
    kind: PixelKind,
    gap: u32,
    patience: &mut Patience,
    out: &mut Vec<u8>,
) -> Result<(), ReadFault>
    requires { HoldRows header.now kind }
    ensures row { (bytes : List ℕ) × RowComes (pixels_behind header.now gap) (gap + packed_len header.now) (R.bytes_left from.old) (R.bytes_left from.new) result (numbers_as kind out.new.items []) bytes }
    ensures counted { OnOk result (length (numbers_as kind out.new.items []) ≡ header.now.cols) }
    ensures faults { PartFails (R.counts from.old) (R.counts from.new) patience.old patience.new (IsErrOf result ReadFault.ReadFailed) }
    ensures no_memory { IsErrOf result ReadFault.OutOfMemory → from.new ≡ from.old }
{
    if out.resize(packed_len(header), 0).is_err() {
        out.clear();
        return Err(ReadFault::OutOfMemory);
    }
    if let Err(fault) = skip(from, gap as usize, patience) {
        out.clear();
        return Err(fault);
    }
    if let Err(fault) = read_part(from, out, patience) {
        out.clear();
        return Err(fault);
    }
    Ok(())
}

/// How many bytes the pixels of a row take.
fn packed_len(header: &Header) -> usize
    ensures { result ≡ packed_len header.now }
{
    header.cols as usize * (header.bits as usize / 8)
}

/// The kind of a header's pixels.
fn kind_of(header: &Header) -> PixelKind
    ensures { IsKindOf header.now result }
{
    match (header.kind, header.order) {
        (HeightKind::Whole, _) => whole_kind_of(header),
        (HeightKind::Single, Least) => PixelKind::F32,
        (HeightKind::Single, Most) => PixelKind::Any,
    }
}

/// That of whole heights.
fn whole_kind_of(header: &Header) -> PixelKind
    requires { header.now.kind ≡ HeightKind.Whole }
    ensures { IsKindOf header.now result }
{
    match (header.bits, header.signed, header.order) {
        (8, false, _) => PixelKind::U8,
        (16, true, Least) => PixelKind::I16,
        (16, false, Least) => PixelKind::U16,
        (32, true, Least) => PixelKind::I32,
        (32, false, Least) => PixelKind::U32,
        _ => PixelKind::Any,
    }
}
