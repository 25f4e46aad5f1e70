//! The header of a product that is made on elevations with a header of their own.

ghost use Rattle.std.specs.Prelude.{◌≡◌};
ghost use Rattle.drain_sets.specs.ProductHeaders.{bits_of, con_no_data, header_beside, header_on, is_signed, no_height};

use drain_grid::{HeightKind, Product};
use drain_header::{ByteOrdering, Header};

/// The header of a product on a raster of elevations with this header; on a mosaic that of con stands for it.
///
/// It has the raster's rows, columns and place. Con has pixels of its size and sign, floats where these are, and its no-data
/// number, or if it has none 4294967296, which no pixel is, and of floats NaN's. All else is as `drain_maker::product_header` has it.
pub fn header_on(elevations: &Header, product: Product) -> Header
    ensures { result ≡ header_on elevations.now product }
{
    match product {
        Product::Con => con_header_on(elevations),
        Product::Dir | Product::Acc | Product::Bas | Product::Spl | Product::Rnk => {
            header_beside(elevations, product)
        }
    }
}

/// The header of con there.
pub fn con_header_on(elevations: &Header) -> Header
    ensures { result ≡ header_on elevations.now Product.Con }
{
    Header {
        rows: elevations.rows,
        cols: elevations.cols,
        bits: elevations.bits,
        order: ByteOrdering::Least,
        signed: elevations.signed,
        skip: 0,
        row_bytes: elevations.cols * u32::from(elevations.bits / 8),
        place: elevations.place,
        nodata: Some(con_no_data(elevations)),
        kind: elevations.kind,
    }
}

/// The header of another product there.
pub fn header_beside(elevations: &Header, product: Product) -> Header
    ensures { result ≡ header_beside elevations.now product }
{
    let bits = bits_of(product);
    Header {
        rows: elevations.rows,
        cols: elevations.cols,
        bits,
        order: ByteOrdering::Least,
        signed: false,
        skip: 0,
        row_bytes: elevations.cols * u32::from(bits / 8),
        place: elevations.place,
        nodata: Some(product.default_no_data()),
        kind: HeightKind::Whole,
    }
}

/// The no-data number of con: the elevations' own, or one that no height is.
pub fn con_no_data(elevations: &Header) -> i64
    ensures { result ≡ con_no_data elevations.now }
{
    match elevations.nodata {
        Some(number) => number,
        None => no_height(elevations.kind),
    }
}

/// A number that no height of the kind has.
fn no_height(kind: HeightKind) -> i64
    ensures { result ≡ no_height kind }
{
    match kind {
        HeightKind::Whole => NO_PIXEL,
        HeightKind::Single => NAN,
    }
}

/// A number that no pixel of whole heights is.
const NO_PIXEL: i64 = 4_294_967_296;

/// The number of NaN.
const NAN: i64 = 2_143_289_344;

/// How many bits a pixel of the product has.
pub fn bits_of(product: Product) -> u8
    ensures { result ≡ bits_of product }
{
    match product {
        Product::Dir | Product::Spl => 8,
        Product::Con => 16,
        Product::Acc | Product::Bas | Product::Rnk => 32,
    }
}

/// Whether numbers of the product can be negative.
pub fn is_signed(product: Product) -> bool
    ensures { result ≡ is_signed product }
{
    product == Product::Con
}
