//! The headers of one tile's products.

use crate::agree::same;
use crate::made::one_tile;
use drain_grid::Product;
use drain_header::header_text;
use drain_maker::product_header;
use std::alloc::Global;
use std::test::Fail;

/// Whether this is the text of the header of one tile's heights.
fn is_text_of_heights(alloc: Global, expected: &str) -> Result<bool, Fail> {
    let layout = one_tile(alloc, 3)?;
    let text = header_text(alloc, &product_header(&layout, Product::Con))?;
    Ok(text.as_slice() == expected.as_bytes())
}

#[test]
fn text_of_heights(rt: HostRuntime) -> Result<(), Fail> {
    let expected =
        "BYTEORDER I\nLAYOUT BIL\nNROWS 3\nNCOLS 3\nNBANDS 1\nNBITS 16\nBANDROWBYTES 6\nTOTALROWBYTES 6\nSKIPBYTES 0\nPIXELTYPE SIGNEDINT\nULXMAP 0.000000000000000\nULYMAP 1.000000000000000\nXDIM 0.500000000000000\nYDIM 0.500000000000000\nNODATA -32768\n";
    let is_expected = is_text_of_heights(rt.alloc(), expected)?;
    same(&rt, "heights", (expected.len(), is_expected), (230, true));
    Ok(())
}

/// The pixels of one tile's product by its header: their bits, the bytes of a row, whether they have signs, and no
/// data.
fn pixels_of(alloc: Global, product: Product) -> Result<(u8, u32, bool, Option<i64>), Fail> {
    let layout = one_tile(alloc, 3)?;
    let header = product_header(&layout, product);
    Ok((header.bits, header.row_bytes, header.signed, header.nodata))
}

/// A product, its bits, the bytes of a row, whether it has signs, and no data.
static PIXELS: [(Product, u8, u32, bool, i64); 6] = [
    (Product::Con, 16, 6, true, -32768),
    (Product::Dir, 8, 3, false, 255),
    (Product::Acc, 32, 12, false, 0),
    (Product::Bas, 32, 12, false, 0),
    (Product::Spl, 8, 3, false, 255),
    (Product::Rnk, 32, 12, false, 4294967295),
];

#[test]
fn pixels_of_each_product(rt: HostRuntime) -> Result<(), Fail> {
    for &(product, bits, row_bytes, signed, nodata) in &PIXELS {
        let expected = (bits, row_bytes, signed, Some(nodata));
        same(&rt, product, pixels_of(rt.alloc(), product)?, expected);
    }
    Ok(())
}
