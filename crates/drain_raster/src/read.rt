//! Reading a raster.

ghost use Rattle.std.specs.Prelude.{◌≡◌, ◌↔◌, ◌<◌, ◌≤◌, ◌*◌, ◌+◌, ◌-◌, ◌++◌};
ghost use Rattle.drain_raster.specs.Names.{[], length, take, map, All, IfOk, OnOk, IsErrOf, unwrap_or, vec_len, row_cells, cells, IsPixel, IsNoData};
ghost use Rattle.std.specs.Vec.{vec_capacity};
ghost use Rattle.drain_raster.specs.Bytes.{cells_from};
ghost use Rattle.drain_raster.specs.Elevations.{voids_of};
ghost use Rattle.drain_raster.specs.Pixels.{AreSpelled, IsShort, default_number, header_extent, needed_len, pixel_at, raster_of};

use crate::fault::RasterFault;
use crate::pixel::Pixel;
use byteorder::{BigEndian, ByteOrder, LittleEndian};
use drain_grid::{HeightKind, Product, Raster, Shape};
use drain_header::{ByteOrdering, Header};
use drain_pixels::Voids;
use std::alloc::Global;

/// The number of every NaN.
const NAN: i64 = 2143289344;

/// How many numbers are decoded before they are appended together: a loop without a growing vector is the fast one.
const BUFFER_NUMBERS: u32 = 512;

/// How many bytes a raster needs: those up to the end of its last pixel, with the header's `skip` bytes before the
/// first.
///
/// It is `skip + (rows - 1) * row_bytes + cols * bits / 8`; with fewer, `read_raster` returns `Short`; it ignores more.
pub fn needed_len(header: &Header) -> usize
    ensures { result ≡ needed_len header.now }
{
    let rows_above = header.rows as usize - 1;
    let pixel_len = header.bits as usize / 8;
    header.skip as usize + rows_above * header.row_bytes as usize + header.cols as usize * pixel_len
}

/// The no-data number of a product's raster: the header's, or else the default, which is the product's, and of floats the
/// number of NaN.
pub fn nodata(header: &Header, product: Product) -> i64
    ensures number { result ≡ unwrap_or header.now.nodata (default_number header.now.kind product) }
    ensures in_range { IsNoData result }
{
    match header.nodata {
        Some(number) => number,
        None => default_number(header.kind, product),
    }
}

/// The no-data number of a product whose header has none.
fn default_number(kind: HeightKind, product: Product) -> i64
    ensures number { result ≡ default_number kind product }
    ensures in_range { IsNoData result }
{
    match kind {
        HeightKind::Whole => product.default_no_data(),
        HeightKind::Single => NAN,
    }
}

/// Which pixels mean a void: the header's no-data number, and of floats those that are not finite.
pub fn voids(header: &Header) -> Voids
    ensures { result ≡ voids_of header.now }
{
    Voids {
        number: header.nodata,
        kind: header.kind,
    }
}

/// The rows and columns of a raster with this header.
pub fn shape(header: &Header) -> Shape
    ensures { result ≡ header_extent header.now }
{
    Shape::new(header.rows, header.cols).unwrap()
}

/// Puts the numbers of a row from one column up to another at the front of the buffer.
fn put_numbers<P: Pixel, T: ByteOrder>(
    buffer: &mut [i64],
    header: &Header,
    row: u32,
    body: &[u8],
    first: u32,
    end: u32,
)
    requires spelled { AreSpelled header.now P.len (P.reads T.number_of) }
    requires inside { row < header.now.rows }
    requires long { needed_len header.now ≤ length body.now }
    requires end { end ≤ header.now.cols }
    requires first { first ≤ end }
    requires room { end - first ≤ length buffer.old }
    ensures items { take (end - first) buffer.new ≡ map (pixel_at header.now body.now) (cells_from row first (end - first)) }
    ensures pixels { All IsPixel (take (end - first) buffer.new) }
{
    let start = header.skip as usize + row as usize * header.row_bytes as usize;
    for col in first..end {
        let at = start + col as usize * P::len();
        buffer[(col - first) as usize] = P::number::<T>(&body[at..]);
    }
}

/// Appends the numbers of a row.
fn push_row<P: Pixel, T: ByteOrder>(numbers: &mut Vec<i64>, header: &Header, row: u32, body: &[u8])
    requires spelled { AreSpelled header.now P.len (P.reads T.number_of) }
    requires inside { row < header.now.rows }
    requires long { needed_len header.now ≤ length body.now }
    requires room { vec_len numbers.old + header.now.cols ≤ vec_capacity numbers.old }
    requires pixels { All IsPixel numbers.old.items }
    ensures items { numbers.new.items ≡ numbers.old.items ++ map (pixel_at header.now body.now) (row_cells header.now.cols row) }
    ensures room { vec_capacity numbers.old ≤ vec_capacity numbers.new }
    ensures pixels { All IsPixel numbers.new.items }
{
    let mut buffer = [0; BUFFER_NUMBERS as usize];
    let mut first = 0;
    while first < header.cols {
        let end = header.cols.min(first + BUFFER_NUMBERS);
        put_numbers::<P, T>(&mut buffer, header, row, body, first, end);
        let came = (end - first) as usize;
        numbers.extend_from_slice(&buffer[..came]).unwrap();
        first = end;
    }
}

/// Appends the numbers of all rows.
fn push_rows<P: Pixel, T: ByteOrder>(numbers: &mut Vec<i64>, header: &Header, body: &[u8])
    requires spelled { AreSpelled header.now P.len (P.reads T.number_of) }
    requires long { needed_len header.now ≤ length body.now }
    requires room { header.now.rows * header.now.cols ≤ vec_capacity numbers.old }
    requires empty { numbers.old.items ≡ [] }
    ensures items { numbers.new.items ≡ map (pixel_at header.now body.now) (cells (header_extent header.now)) }
    ensures len { vec_len numbers.new ≡ header.now.rows * header.now.cols }
    ensures pixels { All IsPixel numbers.new.items }
{
    for row in 0..header.rows {
        push_row::<P, T>(numbers, header, row, body);
    }
}

/// Appends the numbers of all pixels.
fn push_pixels(numbers: &mut Vec<i64>, header: &Header, body: &[u8])
    requires long { needed_len header.now ≤ length body.now }
    requires room { header.now.rows * header.now.cols ≤ vec_capacity numbers.old }
    requires empty { numbers.old.items ≡ [] }
    ensures items { numbers.new.items ≡ map (pixel_at header.now body.now) (cells (header_extent header.now)) }
    ensures len { vec_len numbers.new ≡ header.now.rows * header.now.cols }
    ensures pixels { All IsPixel numbers.new.items }
{
    match (header.kind, header.order) {
        (HeightKind::Whole, _) => push_whole(numbers, header, body),
        (HeightKind::Single, ByteOrdering::Least) => {
            push_rows::<f32, LittleEndian>(numbers, header, body)
        }
        (HeightKind::Single, ByteOrdering::Most) => {
            push_rows::<f32, BigEndian>(numbers, header, body)
        }
    }
}

/// The same of whole heights.
fn push_whole(numbers: &mut Vec<i64>, header: &Header, body: &[u8])
    requires kind { header.now.kind ≡ HeightKind.Whole }
    requires long { needed_len header.now ≤ length body.now }
    requires room { header.now.rows * header.now.cols ≤ vec_capacity numbers.old }
    requires empty { numbers.old.items ≡ [] }
    ensures items { numbers.new.items ≡ map (pixel_at header.now body.now) (cells (header_extent header.now)) }
    ensures len { vec_len numbers.new ≡ header.now.rows * header.now.cols }
    ensures pixels { All IsPixel numbers.new.items }
{
    match (header.bits, header.signed, header.order) {
        (8, false, _) => push_rows::<u8, LittleEndian>(numbers, header, body),
        (8, true, _) => push_rows::<i8, LittleEndian>(numbers, header, body),
        (16, false, ByteOrdering::Least) => push_rows::<u16, LittleEndian>(numbers, header, body),
        (16, false, ByteOrdering::Most) => push_rows::<u16, BigEndian>(numbers, header, body),
        (16, true, ByteOrdering::Least) => push_rows::<i16, LittleEndian>(numbers, header, body),
        (16, true, ByteOrdering::Most) => push_rows::<i16, BigEndian>(numbers, header, body),
        (_, false, ByteOrdering::Least) => push_rows::<u32, LittleEndian>(numbers, header, body),
        (_, false, ByteOrdering::Most) => push_rows::<u32, BigEndian>(numbers, header, body),
        (_, true, ByteOrdering::Least) => push_rows::<i32, LittleEndian>(numbers, header, body),
        (_, true, ByteOrdering::Most) => push_rows::<i32, BigEndian>(numbers, header, body),
    }
}

/// The raster of the bytes. The no-data number is the header's, or else the product's default.
///
/// The bytes are those of a BIL file of one band: `skip` bytes of anything, then each row's pixels and bytes of
/// anything up to `row_bytes`. Bytes after the last pixel are ignored. Returns `Short` if a byte of some pixel is
/// missing, else `OutOfMemory` if memory for one number per pixel, taken once, runs out.
///
/// Source: the Esri description of BIL files.
pub fn read_raster(
    alloc: Global,
    product: Product,
    header: &Header,
    body: &[u8],
) -> Result<Raster, RasterFault>
    ensures raster { IfOk result (λ raster. raster ≡ raster_of header.now (default_number header.now.kind product) body.now) }
    ensures long { OnOk result (¬ IsShort header.now body.now) }
    ensures short { IsErrOf result RasterFault.Short ↔ IsShort header.now body.now }
{
    if body.len() < needed_len(header) {
        return Err(RasterFault::Short);
    }
    let shape = shape(header);
    let Ok(mut numbers) = Vec::with_capacity(alloc, shape.cells()) else {
        return Err(RasterFault::OutOfMemory);
    };
    push_pixels(&mut numbers, header, body);
    Ok(Raster::new(shape, nodata(header, product), numbers))
}
