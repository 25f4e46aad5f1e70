//! The header of a product of a mosaic, and writing the files of a set: headers, pixels.

ghost use Rattle.std.specs.Prelude.{◌≡◌};
ghost use Rattle.drain_maker.specs.Names.{length, map, IsCoordinate, WritesFile, WritesFiles, header_beside, Pixels, raster_in, SetProduct, text_of};
ghost use Rattle.drain_maker.specs.ProductFiles.{header_bytes, made_header, mosaic_place, DerivedFit, FitHeaders, IsDerived, SetFits, WritesHeader, WritesSet, derived_bytes, derived_raster, file_bytes};
ghost use Rattle.drain_sets.specs.declared.set_files.TheConstants.{DERIVED_COUNT, FILE_COUNT};
ghost use Rattle.std.specs.List.{All};
ghost use Rattle.drain_raster.specs.Pixels as pixels;
ghost use Rattle.drain_raster.specs.Bytes.{CanSpellAll, raster_bytes};

use crate::derivation::Derived;
use crate::header_texts::has_text;
use drain_device::{ByteSink, GaveUp, Patience, write_all};
use drain_grid::{HeightKind, Product, ProductSet, Raster, SetProduct};
use drain_header::{ByteOrdering, Header, Place, header_text};
use drain_mosaic::Layout;
use drain_raster::write_raster;
use drain_sets::product_headers::{bits_of, con_header_on, header_beside, header_on, is_signed};
use drain_sets::{DERIVED_FILES, FilePart, SET_FILES, SetFault, SetFile};
use std::alloc::Global;

/// The header of a product of this mosaic.
///
/// Pixels of 16 bits signed for con, 8 for dir and spl, 32 for acc, bas and rnk; the least significant byte first, nothing to skip and
/// rows without padding. The place is the mosaic's north-west corner and the spacing of its samples, in units of 10^-15 degree, the
/// spacing rounded down. The no-data number is the product's default. It needs no memory.
pub fn product_header(layout: &Layout, product: Product) -> Header
    ensures { result ≡ made_header layout.now product }
{
    let shape = layout.shape();
    let bits = bits_of(product);
    Header {
        rows: shape.rows(),
        cols: shape.cols(),
        bits,
        order: ByteOrdering::Least,
        signed: is_signed(product),
        skip: 0,
        row_bytes: shape.cols() * u32::from(bits / 8),
        place: mosaic_place(layout),
        nodata: Some(product.default_no_data()),
        kind: HeightKind::Whole,
    }
}

/// The mosaic's place, and the spacing of its samples.
fn mosaic_place(layout: &Layout) -> Place
    ensures place { result ≡ mosaic_place layout.now }

    // Each number fits a header.
    ensures ulx_ok { IsCoordinate result.ulx }
    ensures uly_ok { IsCoordinate result.uly }
    ensures xdim_ok { IsCoordinate result.xdim }
    ensures ydim_ok { IsCoordinate result.ydim }
{
    let spacing = layout.spacing();
    Place {
        ulx: layout.west_edge(),
        uly: layout.north_edge(),
        xdim: spacing,
        ydim: spacing,
    }
}

/// Rasters of products that are written together.
trait FileSet {
    /// The raster of the product is among them.
    ghost holds: { SetProduct → Type 0 };

    /// The raster of each product that is held.
    ghost rasters: { Self → SetProduct → Pixels };

    /// The raster of a product.
    fn raster_of(&self, product: SetProduct) -> &Raster
        requires { holds product }
        ensures { result.now ≡ rasters self.now product };
}

impl FileSet for ProductSet {
    ghost holds = { λ product. Unit {0} };

    ghost rasters = { raster_in };

    fn raster_of(&self, product: SetProduct) -> &Raster {
        self.raster(product)
    }
}

impl FileSet for Derived {
    ghost holds = { IsDerived };

    ghost rasters = { derived_raster };

    fn raster_of(&self, product: SetProduct) -> &Raster {
        match product {
            SetProduct::Acc => &self.acc,
            SetProduct::Bas => &self.bas,
            SetProduct::Rnk => &self.rnk,
            SetProduct::Con | SetProduct::Dir => unreachable!(),
        }
    }
}

/// Writes the files of a product set, one after the other. The first that can't be written ends it.
///
/// Headers are those of `header_on`: con's is its own on a mosaic.
pub fn write_files<F: ByteSink>(
    alloc: Global,
    elevations: &Header,
    products: &ProductSet,
    files: &mut [F],
) -> Result<(), SetFault>
    requires counted { length files.old ≡ FILE_COUNT }
    requires written { SetFits elevations.now products.now }
    ensures { WritesSet F.ByteSink elevations.now products.now files.old files.new result }
{
    let header = con_header_on(elevations);
    let Ok(con) = header_text(alloc, &header) else {
        has_text(&header);
        return Err(SetFault::OutOfMemory);
    };
    write_listed(alloc, elevations, &con, products, &SET_FILES, files)
}

/// Writes the files of derived rasters, one after the other. The first that can't be written ends it.
///
/// Headers are those of `header_on`. What `derive_on` returns can be written: on one raster with its header, on tiles with
/// con's header for their layout.
pub fn write_derived<F: ByteSink>(
    alloc: Global,
    elevations: &Header,
    derived: &Derived,
    files: &mut [F],
) -> Result<(), SetFault>
    requires counted { length files.old ≡ DERIVED_COUNT }
    requires written { DerivedFit elevations.now derived.now }
    ensures { WritesFiles F.ByteSink files.old files.new (derived_bytes elevations.now derived.now) result }
{
    // None of them is con's header.
    write_listed(alloc, elevations, &[], derived, &DERIVED_FILES, files)
}

/// Writes the listed files of a set, one after the other, where con's header has this text. The first that can't be
/// written ends it.
fn write_listed<S: FileSet, F: ByteSink>(
    alloc: Global,
    elevations: &Header,
    con: &[u8],
    set: &S,
    list: &[SetFile],
    files: &mut [F],
) -> Result<(), SetFault>
    requires counted { length files.old ≡ length list.now }
    requires held { All (λ file. S.holds file.product) list.now }
    requires written { FitHeaders elevations.now S.holds (S.rasters set.now) }
    ensures { WritesFiles F.ByteSink files.old files.new (map (file_bytes con.now elevations.now (S.rasters set.now)) list.now) result }
{
    for (k, file) in files.iter_mut().enumerate() {
        write_file(alloc, elevations, con, set, list[k], file)?;
    }
    Ok(())
}

/// Writes one file.
fn write_file<S: FileSet, F: ByteSink>(
    alloc: Global,
    elevations: &Header,
    con: &[u8],
    set: &S,
    file: SetFile,
    to: &mut F,
) -> Result<(), SetFault>
    requires held { S.holds file.product }
    requires written { FitHeaders elevations.now S.holds (S.rasters set.now) }
    ensures { WritesFile F.ByteSink to.old to.new (file_bytes con.now elevations.now (S.rasters set.now) file) result }
{
    match file.part {
        FilePart::Header => write_header_on(alloc, elevations, con, file.product, to),
        FilePart::Raster => {
            let header = header_on(elevations, file.product.product());
            write_numbers(&header, set.raster_of(file.product), to)
        }
    }
}

/// Writes the text of a product's header, which for con is this one.
fn write_header_on<F: ByteSink>(
    alloc: Global,
    elevations: &Header,
    con: &[u8],
    product: SetProduct,
    to: &mut F,
) -> Result<(), SetFault>
    ensures { WritesFile F.ByteSink to.old to.new (header_bytes con.now elevations.now product) result }
{
    match product {
        SetProduct::Con => write_text(con, to),
        SetProduct::Dir | SetProduct::Acc | SetProduct::Bas | SetProduct::Rnk => {
            write_header_beside(alloc, elevations, product.product(), to)
        }
    }
}

/// Writes the text of the header of a product that isn't con.
fn write_header_beside<F: ByteSink>(
    alloc: Global,
    elevations: &Header,
    product: Product,
    to: &mut F,
) -> Result<(), SetFault>
    ensures { WritesFile F.ByteSink to.old to.new (text_of (header_beside elevations.now product)) result }
{
    write_header(alloc, &header_beside(elevations, product), to)
}

/// Writes the text of a header.
pub fn write_header<F: ByteSink>(alloc: Global, header: &Header, to: &mut F) -> Result<(), SetFault>
    ensures { WritesHeader F.ByteSink header.now to.old to.new result }
{
    let Ok(text) = header_text(alloc, header) else {
        has_text(header);
        return Err(SetFault::OutOfMemory);
    };
    write_text(&text, to)
}

/// Writes a text.
fn write_text<F: ByteSink>(text: &[u8], to: &mut F) -> Result<(), SetFault>
    ensures { WritesFile F.ByteSink to.old to.new text.now result }
{
    match write_all(to, text, &mut Patience::new()) {
        Ok(()) => Ok(()),
        Err(GaveUp) => Err(SetFault::WriteFailed),
    }
}

/// Writes the bytes of a raster, each of whose numbers fits a pixel.
pub fn write_numbers<F: ByteSink>(
    header: &Header,
    raster: &Raster,
    to: &mut F,
) -> Result<(), SetFault>
    requires shape { raster.now.extent ≡ pixels.header_extent header.now }
    requires written { CanSpellAll header.now raster.now }
    ensures { WritesFile F.ByteSink to.old to.new (raster_bytes header.now raster.now) result }
{
    match write_raster(to, header, raster) {
        Ok(()) => Ok(()),
        Err(_) => Err(SetFault::WriteFailed),
    }
}
