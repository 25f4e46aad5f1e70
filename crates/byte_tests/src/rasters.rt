//! Worked rasters: bytes with their numbers, and numbers with their bytes, each worked out by hand.

ghost use Rattle.std.specs.Prelude.{◌≡◌, IfOk, IfSome};
ghost use Rattle.drain_raster.specs.Pixels.{header_extent};

use crate::agree::{same, same_text};
use drain_device::VecSink;
use drain_grid::values::{GREATEST_PIXEL, LEAST_PIXEL};
use drain_grid::{Cell, HeightKind, Product, Raster, Shape};
use drain_header::{ByteOrdering, Header, Place};
use drain_raster::{RasterFault, WriteFault, read_raster, write_raster};
use std::alloc::{AllocError, Global};
use std::test::Fail;

/// Two by two pixels of 16 bits, a byte to skip, and one after each row.
pub const PADDED: [u8; 10] = [0xff, 1, 0, 0xfe, 0xff, 0xaa, 0, 0x80, 2, 0];

pub const NOWHERE: Place = Place {
    ulx: 0,
    uly: 0,
    xdim: 0,
    ydim: 0,
};

pub fn padded(order: ByteOrdering) -> Header
    ensures { header_extent result ≡ record { rows = 2; cols = 2 } }
{
    Header {
        rows: 2,
        cols: 2,
        bits: 16,
        order,
        signed: true,
        skip: 1,
        row_bytes: 5,
        place: NOWHERE,
        nodata: None,
        kind: HeightKind::Whole,
    }
}

/// One pixel, in a row of four bytes.
fn alone(bits: u8, signed: bool, order: ByteOrdering) -> Header
    ensures { header_extent result ≡ record { rows = 1; cols = 1 } }
{
    let header = Header {
        rows: 1,
        cols: 1,
        bits: 32,
        order,
        signed,
        skip: 0,
        row_bytes: 4,
        place: NOWHERE,
        nodata: None,
        kind: HeightKind::Whole,
    };
    match bits {
        8 => Header { bits: 8, ..header },
        16 => Header { bits: 16, ..header },
        _ => header,
    }
}

/// The raster of these numbers, where each is one of a pixel and there are as many as cells.
pub fn raster_of(
    alloc: Global,
    rows: u32,
    cols: u32,
    numbers: &[i64],
) -> Result<Option<Raster>, AllocError>
    ensures { IfOk result (λ some. IfSome some (λ raster. raster.extent ≡ record { rows = rows; cols = cols })) }
{
    let Some(shape) = Shape::new(rows, cols) else {
        return Ok(None);
    };
    let are_pixels = numbers.iter().all(|number| LEAST_PIXEL <= *number
        && *number <= GREATEST_PIXEL);
    if numbers.len() != shape.cells() || !are_pixels {
        return Ok(None);
    }
    Ok(Some(Raster::new(shape, 0, Vec::from_slice(alloc, numbers)?)))
}

/// The raster's numbers, row by row, if there are this many; else none.
pub fn numbers_in<const N: usize>(
    alloc: Global,
    raster: &Raster,
) -> Result<Option<[i64; N]>, AllocError> {
    let numbers = numbers_of(alloc, raster)?;
    Ok(numbers.as_slice().try_into().ok())
}

/// The raster's numbers, row by row.
pub fn numbers_of(alloc: Global, raster: &Raster) -> Result<Vec<i64>, AllocError> {
    let mut numbers = Vec::new(alloc);
    for row in 0..raster.shape().rows() {
        for col in 0..raster.shape().cols() {
            numbers.push(raster.value(Cell { row, col }))?;
        }
    }
    Ok(numbers)
}

/// The rows and the columns of the padded raster read in this order, and its numbers where there are four.
fn padded_in(alloc: Global, order: ByteOrdering) -> Result<((u32, u32), Option<[i64; 4]>), Fail> {
    let raster = read_raster(alloc, Product::Con, &padded(order), &PADDED)?;
    let shape = raster.shape();
    let numbers = numbers_in(alloc, &raster)?;
    Ok(((shape.rows(), shape.cols()), numbers))
}

/// The numbers of the padded raster, in both orders.
static IN_BOTH_ORDERS: [(ByteOrdering, [i64; 4]); 2] = [
    (ByteOrdering::Least, [1, -2, -32768, 2]),
    (ByteOrdering::Most, [256, -257, 128, 512]),
];

#[test]
fn a_worked_raster_is_read_in_both_orders(rt: HostRuntime) -> Result<(), Fail> {
    for &(order, expected) in &IN_BOTH_ORDERS {
        let given = padded_in(rt.alloc(), order)?;
        same(&rt, order, given, ((2, 2), Some(expected)));
    }
    Ok(())
}

/// The four numbers of the padded raster with these bytes.
fn four_numbers(alloc: Global, bytes: &[u8]) -> Result<Result<[i64; 4], RasterFault>, Fail> {
    match read_raster(alloc, Product::Con, &padded(ByteOrdering::Least), bytes) {
        Ok(raster) => match numbers_in(alloc, &raster)? {
            Some(numbers) => Ok(Ok(numbers)),
            None => Err("four numbers".into()),
        },
        Err(fault) => Ok(Err(fault)),
    }
}

/// Its last pixel ends at byte 10; the byte after its last row isn't needed, and is ignored.
#[test]
fn a_raster_is_short_before_its_last_pixel_ends(rt: HostRuntime) -> Result<(), Fail> {
    let mut bytes = [0xaa; 16];
    bytes[..10].copy_from_slice(&PADDED);
    for len in 0..=16 {
        let expected = if len < 10 {
            Err(RasterFault::Short)
        } else {
            Ok([1, -2, -32768, 2])
        };
        same(&rt, len, four_numbers(rt.alloc(), &bytes[..len])?, expected);
    }
    Ok(())
}

/// The no-data number of a raster of one pixel with this header.
fn nodata_of(alloc: Global, product: Product, header: &Header) -> Result<i64, RasterFault> {
    Ok(read_raster(alloc, product, header, &[7])?.nodata())
}

/// Products, each with its number for no data.
static NO_DATA: [(Product, i64); 6] = [
    (Product::Con, -32768),
    (Product::Dir, 255),
    (Product::Acc, 0),
    (Product::Bas, 0),
    (Product::Spl, 255),
    (Product::Rnk, 4294967295),
];

/// A header's no-data number comes before the product's.
#[test]
fn the_no_data_number_is_that_of_the_header_or_the_product(rt: HostRuntime) -> Result<(), Fail> {
    let header = alone(8, false, ByteOrdering::Least);
    let given = Header {
        nodata: Some(-9999),
        ..header
    };
    for &(product, number) in &NO_DATA {
        let of_product = nodata_of(rt.alloc(), product, &header)?;
        let of_header = nodata_of(rt.alloc(), product, &given)?;
        same(&rt, product, (of_product, of_header), (number, -9999));
    }
    Ok(())
}

/// A pixel's bits and sign, a number, and its bytes with the least significant first and with the most significant first.
type Spelling = (u8, bool, i64, [u8; 4], [u8; 4]);

/// The least and the greatest number of each kind of pixel; after a pixel come zeros.
static BOUNDS: [Spelling; 12] = [
    (8, false, 0, [0, 0, 0, 0], [0, 0, 0, 0]),
    (8, false, 255, [0xff, 0, 0, 0], [0xff, 0, 0, 0]),
    (8, true, -128, [0x80, 0, 0, 0], [0x80, 0, 0, 0]),
    (8, true, 127, [0x7f, 0, 0, 0], [0x7f, 0, 0, 0]),
    (16, false, 0, [0, 0, 0, 0], [0, 0, 0, 0]),
    (16, false, 65535, [0xff, 0xff, 0, 0], [0xff, 0xff, 0, 0]),
    (16, true, -32768, [0, 0x80, 0, 0], [0x80, 0, 0, 0]),
    (16, true, 32767, [0xff, 0x7f, 0, 0], [0x7f, 0xff, 0, 0]),
    (32, false, 0, [0, 0, 0, 0], [0, 0, 0, 0]),
    (
        32,
        false,
        4294967295,
        [0xff, 0xff, 0xff, 0xff],
        [0xff, 0xff, 0xff, 0xff],
    ),
    (32, true, -2147483648, [0, 0, 0, 0x80], [0x80, 0, 0, 0]),
    (
        32,
        true,
        2147483647,
        [0xff, 0xff, 0xff, 0x7f],
        [0x7f, 0xff, 0xff, 0xff],
    ),
];

/// What is written of a raster, with room for this many bytes at first.
pub fn written(
    alloc: Global,
    header: &Header,
    raster: &Raster,
    room: usize,
) -> Result<Vec<u8>, Fail>
    requires { raster.now.extent ≡ header_extent header.now }
{
    let mut sink = VecSink::new(Vec::with_capacity(alloc, room)?);
    write_raster(&mut sink, header, raster)?;
    Ok(sink.into_inner())
}

/// The one number of the bytes, and the four bytes that are written of it; none if there are more or fewer.
fn spelled(
    alloc: Global,
    header: &Header,
    bytes: &[u8],
) -> Result<(Option<[i64; 1]>, Option<[u8; 4]>), Fail> {
    let raster = read_raster(alloc, Product::Con, header, bytes)?;
    let written = written(alloc, header, &raster, 4)?;
    Ok((
        numbers_in(alloc, &raster)?,
        written.as_slice().try_into().ok(),
    ))
}

#[test]
fn each_kind_of_pixel_spells_its_bounds(rt: HostRuntime) -> Result<(), Fail> {
    for &(bits, signed, number, least_first, most_first) in &BOUNDS {
        for (order, bytes) in [
            (ByteOrdering::Least, least_first),
            (ByteOrdering::Most, most_first),
        ] {
            let header = alone(bits, signed, order);
            let given = spelled(rt.alloc(), &header, &bytes)?;
            let expected = (Some([number]), Some(bytes));
            same(&rt, (bits, signed, order), given, expected);
        }
    }
    Ok(())
}

/// What a write of this one number answers, and how many bytes were taken.
fn refused(
    alloc: Global,
    header: &Header,
    number: i64,
) -> Result<(Result<(), WriteFault>, usize), Fail>
    requires { header_extent header.now ≡ record { rows = 1; cols = 1 } }
{
    let Some(raster) = raster_of(alloc, 1, 1, &[number])? else {
        return Err("no raster".into());
    };
    let mut sink = VecSink::new(Vec::new(alloc));
    let written = write_raster(&mut sink, header, &raster);
    Ok((written, sink.as_slice().len()))
}

/// Numbers outside the bounds of a pixel of this many bits, signed or not.
static OUTSIDE: [(u8, bool, i64); 12] = [
    (8, false, -1),
    (8, false, 256),
    (8, true, -129),
    (8, true, 128),
    (16, false, -1),
    (16, false, 65536),
    (16, true, -32769),
    (16, true, 32768),
    (32, false, -1),
    (32, false, -2147483648),
    (32, true, 2147483648),
    (32, true, 4294967295),
];

#[test]
fn no_kind_of_pixel_spells_a_number_outside_its_bounds(rt: HostRuntime) -> Result<(), Fail> {
    for &(bits, signed, number) in &OUTSIDE {
        let header = alone(bits, signed, ByteOrdering::Least);
        let given = refused(rt.alloc(), &header, number)?;
        let fault = WriteFault::OutOfRange(Cell { row: 0, col: 0 });
        same(&rt, (bits, number), given, (Err(fault), 0));
    }
    Ok(())
}

/// Faults of reads, each with its text.
static READ_FAULTS: [(RasterFault, &str); 2] = [
    (RasterFault::Short, "the raster is too short"),
    (RasterFault::OutOfMemory, "out of memory"),
];

/// Faults of writes, each with its text.
static WRITE_FAULTS: [(WriteFault, &str); 2] = [
    (
        WriteFault::OutOfRange(Cell { row: 0, col: 1 }),
        "a number is out of range",
    ),
    (WriteFault::WriteFailed, "the write failed"),
];

#[test]
fn texts_of_faults(rt: HostRuntime) -> Result<(), Fail> {
    for (fault, text) in &READ_FAULTS {
        same_text(&rt, rt.alloc(), fault, text)?;
    }
    for (fault, text) in &WRITE_FAULTS {
        same_text(&rt, rt.alloc(), fault, text)?;
    }
    Ok(())
}
