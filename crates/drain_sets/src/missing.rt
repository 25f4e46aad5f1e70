//! The header of a raster that is missing: one of bytes that lies as another raster does. It stands for a raster that
//! isn't judged, of which no number matters, and a map has it too.

ghost use Rattle.std.specs.Prelude.{◌≡◌, IfOk};
ghost use Rattle.drain_sets.specs.Missing.{IsMissingText, ReadsAsMap, map_header};

use drain_grid::{HeightKind, OutOfMemory};
use drain_header::{ByteOrdering, Header, header_text, kind_said, parse_header_of};
use std::alloc::Global;

/// The header of a raster of bytes that lies as the raster with this header does: a byte without a sign for each pixel,
/// 255 for no data, as in directions.
pub fn map_header(raster: &Header) -> Header
    ensures { result ≡ map_header raster.now }
{
    Header {
        rows: raster.rows,
        cols: raster.cols,
        bits: 8,
        order: ByteOrdering::Least,
        signed: false,
        skip: 0,
        row_bytes: raster.cols,
        place: raster.place,
        nodata: Some(255),
        kind: HeightKind::Whole,
    }
}

/// The text of that header, by the text of the header that is there, of heights of any kind. A text with a fault is copied:
/// then the raster that is there is refused, and no other.
pub fn missing_header(alloc: Global, there: &[u8]) -> Result<Vec<u8>, OutOfMemory>
    ensures text { IfOk result (λ text. IsMissingText there.now text.items) }
    ensures reads { IfOk result (λ text. ReadsAsMap there.now text.items) }
{
    match parse_header_of(there, kind_said(there)) {
        Ok(header) => header_text(alloc, &map_header(&header)),
        Err(_) => Ok(Vec::from_slice(alloc, there)?),
    }
}
