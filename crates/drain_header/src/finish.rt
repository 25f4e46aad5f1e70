//! A header from the values of its keywords, or the first fault of the text as a whole.

ghost use Rattle.std.specs.Prelude.{◌≡◌, ◌≤◌, ◌*◌, ◌/◌, ℕ, unwrap_or, ◌==◌, slice_index_or, None as none, Some as some, if◌then◌else◌};
ghost use Rattle.drain_header.specs.Lines.{key_order};
ghost use Rattle.drain_header.specs.Said.{said_by, sign_in};
ghost use Rattle.drain_header.specs.Finished.{AreTaken, number_or as number_told, coordinate_or_zero as coordinate_told, is_other_type_in, is_pixel_size_of, signed_in, is_pixel_size, finished};

use crate::fault::HeaderFault;
use crate::header::{ByteOrdering, Header, Place};
use crate::key::Key;
use crate::lines::Seen;
use crate::said::{coordinate, nodata, number, ordering, sign};
use crate::value::Value;
use drain_grid::HeightKind;

/// The header of heights of a kind from the values, or the first of the faults that belong to no line.
pub fn finish(seen: &Seen, kind: HeightKind) -> Result<Header, HeaderFault>
    requires { AreTaken kind seen.now }
    ensures { result ≡ finished kind seen.now }
{
    if number_or(seen, Key::Nbands, 1) != 1 {
        return Err(HeaderFault::NotOneBand);
    }
    let Some(bits) = pixel_size(kind, number_or(seen, Key::Nbits, 8)) else {
        return Err(HeaderFault::BadBits);
    };
    if has_other_type(seen, kind) {
        return Err(HeaderFault::BadPixelType);
    }
    let cols = number_or(seen, Key::Ncols, 0);
    let packed = packed_row(cols, bits);
    let row_bytes = row_bytes(seen, packed);
    if row_bytes < packed {
        return Err(HeaderFault::RowTooShort);
    }
    Ok(Header {
        rows: number_or(seen, Key::Nrows, 0),
        cols,
        bits,
        order: ordering(seen, Key::ByteOrder).unwrap_or(ByteOrdering::Least),
        signed: is_signed(seen, kind, bits),
        skip: number_or(seen, Key::SkipBytes, 0),
        row_bytes,
        place: place(seen),
        nodata: nodata(seen, Key::Nodata),
        kind,
    })
}

fn number_or(seen: &Seen, key: Key, default: u32) -> u32
    ensures { result ≡ number_told key default seen.now }
{
    number(seen, key).unwrap_or(default)
}

fn coordinate_or_zero(seen: &Seen, key: Key) -> i128
    ensures { result ≡ coordinate_told key seen.now }
{
    coordinate(seen, key).unwrap_or(0)
}

fn place(seen: &Seen) -> Place
    ensures { result ≡ record { ulx = coordinate_told Key.Ulxmap seen.now; uly = coordinate_told Key.Ulymap seen.now; xdim = coordinate_told Key.Xdim seen.now; ydim = coordinate_told Key.Ydim seen.now } }
{
    Place {
        ulx: coordinate_or_zero(seen, Key::Ulxmap),
        uly: coordinate_or_zero(seen, Key::Ulymap),
        xdim: coordinate_or_zero(seen, Key::Xdim),
        ydim: coordinate_or_zero(seen, Key::Ydim),
    }
}

/// The bits of a pixel, if that is a valid size for heights of the kind.
fn pixel_size(kind: HeightKind, bits: u32) -> Option<u8>
    ensures { result ≡ if is_pixel_size_of kind bits then some bits else none }
{
    match kind {
        HeightKind::Whole => whole_size(bits),
        HeightKind::Single => { if bits == 32 { Some(32) } else { None } }
    }
}

fn whole_size(bits: u32) -> Option<u8>
    ensures { result ≡ if is_pixel_size bits then some bits else none }
{
    match bits {
        8 => Some(8),
        16 => Some(16),
        32 => Some(32),
        _ => None,
    }
}

/// Whether the pixel type is none of the kind's; floats must have one.
fn has_other_type(seen: &Seen, kind: HeightKind) -> bool
    ensures { result ≡ is_other_type_in kind (slice_index_or seen.now (key_order Key.PixelType) none) }
{
    let value = seen[Key::PixelType as usize];
    match value {
        Some(Value::Signed(signed)) => signed.is_none(),
        Some(_) => false,
        None => matches!(kind, HeightKind::Single),
    }
}

/// How many bytes the pixels of a row need.
fn packed_row(cols: u32, bits: u8) -> u32
    requires { cols ≤ 28801 }
    ensures { result ≡ cols * bits / 8 }
{
    cols * u32::from(bits) / 8
}

fn row_bytes(seen: &Seen, packed: u32) -> u32
    ensures { result ≡ number_told Key.TotalRowBytes (number_told Key.BandRowBytes packed seen.now) seen.now }
{
    let band_row_bytes = number_or(seen, Key::BandRowBytes, packed);
    number_or(seen, Key::TotalRowBytes, band_row_bytes)
}

/// Whether pixels are signed: floats are, and by default numbers of 16 bits.
fn is_signed(seen: &Seen, kind: HeightKind, bits: u8) -> bool
    requires { number_told Key.Nbits 8 seen.now ≡ bits }
    ensures { result ≡ signed_in kind seen.now }
{
    match kind {
        HeightKind::Whole => sign(seen, Key::PixelType).unwrap_or(bits == 16),
        HeightKind::Single => true,
    }
}
