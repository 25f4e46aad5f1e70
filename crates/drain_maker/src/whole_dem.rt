//! One raster of elevations, read whole into memory.

ghost use Rattle.drain_maker.specs.Names.{pos, map, length, slice_index_or, List, ℕ, Some, IfOk, IfErr, OnOk, IsErrOf, ReadFails, SomeReadFails, TakesAtMost, Cell, IsCellOf, index_of, IsPixel, IsShort, needed_len, raster_of, AreHeadersKept, DemTakesAtMost, DemTexts, EncodesDem, dem_devices, dem_ground, IsOfBodies, con_no_data, no_height};
ghost use Rattle.std.specs.Prelude.{◌≡◌, ◌↔◌, ◌*◌, All};
ghost use Rattle.drain_maker.specs.Dems.{IsBodyRefusal, IsDemOf, IsGroundRefusal, IsKept, IsKeptAt, IsRasterOf, kept_number};
ghost use Rattle.drain_maker.specs.OneFact.{fits_prop};
ghost use Rattle.drain_maker.specs.ProductFiles.{FitsHeader, marked_header};

use drain_answer::Refusal;
use drain_device::{BodyFault, ByteSource, read_whole};
use drain_floats::is_finite;
use drain_grid::{Cell, HeightKind, OutOfMemory, Product, Raster};
use drain_header::Header;
use drain_raster::laws::numbers_are_pixels;
use drain_raster::{RasterFault, needed_len, read_raster};
use drain_sets::product_headers::con_no_data;
use drain_verdict::{RasterInput, dem_header};
use std::alloc::Global;

/// One raster of elevations in memory, and its header. Its no-data number is that of con's header on it; a float that is not
/// finite has it too.
#[derive(Drop)]
pub struct Dem {
    pub header: Header,
    pub raster: Raster,
    ghost fits: { FitsHeader header raster } by { fits_prop header raster },
    ghost nodata: { raster.nodata ≡ con_no_data header },
}

/// The raster of elevations, or the first refusal of `check_on` that is about it: `BadDemHeader`, `BadPixelSize`;
/// `DemShort`. `OutOfMemory` and `ReadFailed` come as with `check_on`. Nothing past the last needed byte is read. Memory
/// grows with the bytes that came; that of the numbers is taken once all did.
///
/// The contract is about the bytes that the source had left, for sources whose bytes are known.
pub fn read_dem<R: ByteSource>(alloc: Global, dem: &mut [RasterInput<R>; 1]) -> Result<Dem, Refusal>
    ensures dem { IfOk result (λ read. (d : DemTexts) → EncodesDem R.bytes_left dem.old d → IsDemOf d read.header read.raster) }
    ensures refusal { IfErr result (λ refusal. (d : DemTexts) → EncodesDem R.bytes_left dem.old d → IsGroundRefusal (dem_ground d) refusal) }

    // How far it reads, when a read fails, and that the header's text is unchanged.
    ensures within { DemTakesAtMost R.bytes_left dem.old dem.new }
    ensures faults { SomeReadFails (map R.counts (dem_devices dem.old)) (map R.counts (dem_devices dem.new)) (IsErrOf result Refusal.ReadFailed) }
    ensures headers { AreHeadersKept dem.old dem.new }

    // A refusal of the header leaves the device as it was.
    ensures untouched { IfErr result (λ refusal. ¬ IsOfBodies refusal → dem.new ≡ dem.old) }
{
    let header = dem_header(&dem[0])?;
    let raster = read_pixels(alloc, &header, &mut dem[0].body)?;
    Ok(Dem { header, raster })
}

/// Reads the pixels of a raster with this header.
fn read_pixels<R: ByteSource>(
    alloc: Global,
    header: &Header,
    body: &mut R,
) -> Result<Raster, Refusal>
    ensures raster { IfOk result (λ raster. (bytes : List ℕ) → R.bytes_left body.old ≡ Some bytes → IsRasterOf header.now bytes raster) }
    ensures fits { IfOk result (FitsHeader header.now) }
    ensures nodata { IfOk result (λ raster. raster.nodata ≡ con_no_data header.now) }
    ensures refusal { IfErr result (λ refusal. (bytes : List ℕ) → R.bytes_left body.old ≡ Some bytes → IsBodyRefusal header.now bytes refusal) }
    ensures of_bodies { IfErr result IsOfBodies }
    ensures faults { ReadFails (R.counts body.old) (R.counts body.new) (IsErrOf result Refusal.ReadFailed) }
    ensures within { TakesAtMost (needed_len header.now) (R.bytes_left body.old) (R.bytes_left body.new) }
{
    // The law that the numbers of a body's raster are its pixels.
    numbers_are_pixels();
    let bytes = match read_whole(alloc, body, needed_len(header)) {
        Ok(bytes) => bytes,
        Err(BodyFault::ReadFailed) => return Err(Refusal::ReadFailed),
        Err(BodyFault::OutOfMemory) => return Err(Refusal::OutOfMemory),
    };
    match marked_raster(alloc, header, bytes) {
        Ok(raster) => Ok(raster),
        Err(RasterFault::Short) => Err(Refusal::DemShort),
        Err(RasterFault::OutOfMemory) => Err(Refusal::OutOfMemory),
    }
}

/// The raster of these bytes, with the no-data number of con's header on it, which each float has that is not finite. The
/// bytes are freed as soon as they aren't needed any more.
fn marked_raster(alloc: Global, header: &Header, bytes: Vec<u8>) -> Result<Raster, RasterFault>
    ensures raster { IfOk result (IsRasterOf header.now bytes.items) }
    ensures fits { IfOk result (FitsHeader header.now) }
    ensures nodata { IfOk result (λ raster. raster.nodata ≡ con_no_data header.now) }
    ensures short { IsErrOf result RasterFault.Short ↔ IsShort header.now bytes.items }
{
    // The law that the numbers of a body's raster are its pixels.
    numbers_are_pixels();
    let pixels = match raster_of(alloc, header, &bytes) {
        Ok(pixels) => pixels,
        Err(fault) => return Err(fault),
    };
    drop(bytes);
    match kept_raster(alloc, header.kind, pixels) {
        Ok(raster) => Ok(raster),
        Err(OutOfMemory) => Err(RasterFault::OutOfMemory),
    }
}

/// The raster of the pixels of these bytes, with that number.
fn raster_of(alloc: Global, header: &Header, bytes: &[u8]) -> Result<Raster, RasterFault>
    ensures raster { IfOk result (λ raster. raster ≡ raster_of header.now (no_height header.now.kind) bytes.now) }
    ensures fits { IfOk result (FitsHeader header.now) }
    ensures long { OnOk result (¬ IsShort header.now bytes.now) }
    ensures short { IsErrOf result RasterFault.Short ↔ IsShort header.now bytes.now }
{
    // The law that the numbers of a body's raster are its pixels.
    numbers_are_pixels();
    // The proof knows the header's invariant once a field of it was read.
    let _bits = header.bits;
    let marked = marked_header(header);
    read_raster(alloc, Product::Con, &marked, bytes)
}

/// The header with the no-data number of con's on it.
fn marked_header(header: &Header) -> Header
    ensures { result ≡ marked_header header.now }
{
    Header {
        rows: header.rows,
        cols: header.cols,
        bits: header.bits,
        order: header.order,
        signed: header.signed,
        skip: header.skip,
        row_bytes: header.row_bytes,
        place: header.place,
        nodata: Some(con_no_data(header)),
        kind: header.kind,
    }
}

/// The raster with the numbers that are kept of heights of this kind: of floats it is another one.
fn kept_raster(alloc: Global, kind: HeightKind, raster: Raster) -> Result<Raster, OutOfMemory>
    requires { kind ≡ HeightKind.Single → IsPixel raster.nodata }
    ensures { IfOk result (IsKept kind raster) }
{
    match kind {
        HeightKind::Whole => Ok(raster),
        HeightKind::Single => finite_raster(alloc, &raster),
    }
}

/// That of floats.
fn finite_raster(alloc: Global, raster: &Raster) -> Result<Raster, OutOfMemory>
    requires { IsPixel raster.now.nodata }
    ensures { IfOk result (IsKept HeightKind.Single raster.now) }
{
    let numbers = finite_numbers(alloc, raster)?;
    Ok(Raster::new(raster.shape(), raster.nodata(), numbers))
}

/// The numbers that are kept of all cells of floats, in row order.
fn finite_numbers(alloc: Global, raster: &Raster) -> Result<Vec<i64>, OutOfMemory>
    requires { IsPixel raster.now.nodata }
    ensures counted { IfOk result (λ numbers. length numbers.items ≡ raster.now.extent.rows * raster.now.extent.cols) }
    ensures pixels { IfOk result (λ numbers. All IsPixel numbers.items) }
    ensures numbers { IfOk result (λ numbers. (c : Cell) → IsCellOf raster.now.extent c → IsKeptAt raster.now c (slice_index_or numbers.items (index_of raster.now.extent c) (pos 0))) }
{
    let shape = raster.shape();
    let mut numbers = Vec::with_capacity(alloc, shape.cells())?;
    for place in 0..shape.cells() {
        numbers.push(kept_at(raster, shape.cell(place)))?;
    }
    Ok(numbers)
}

/// The number that is kept of a cell of floats.
fn kept_at(raster: &Raster, cell: Cell) -> i64
    requires inside { IsCellOf raster.now.extent cell }
    requires nodata { IsPixel raster.now.nodata }
    ensures { IsKeptAt raster.now cell result }
{
    kept_number(raster.value(cell), raster.nodata())
}

/// The number that is kept of a float: that of voids where it is not finite.
fn kept_number(number: i64, void: i64) -> i64
    ensures { result ≡ kept_number HeightKind.Single void number }
{
    if is_finite(number) { number } else { void }
}
