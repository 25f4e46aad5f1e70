//! One tile of side 2 at 0 degrees, level, with its products, as sources in memory.

use crate::inputs::{Parts, input, products};
use drain_device::SliceSource;
use drain_grid::PerProduct;
use drain_hgt::TileInput;
use drain_verdict::{AuditProducts, Products};
use std::alloc::{AllocError, Global};

/// The header of con.
const WORDS: &[u8] =
    b"BYTEORDER I\nNROWS 2\nNCOLS 2\nNBITS 16\nPIXELTYPE SIGNEDINT\nULXMAP 0\nULYMAP 1\nXDIM 1\nYDIM 1\n";

/// That of the other products.
const BYTES: &[u8] = b"NROWS 2\nNCOLS 2\nULXMAP 0\nULYMAP 1\nXDIM 1\nYDIM 1\n";

pub const TILE: &str = "N00E000.hgt";

/// Level con.
const CON: Parts<'_> = Parts {
    header: WORDS,
    raster: &[0; 8],
};

/// Each cell drains itself alone.
const ACC: Parts<'_> = Parts {
    header: BYTES,
    raster: &[1; 4],
};

/// A raster of a byte for each cell.
fn bytes<'a>(raster: &'a [u8]) -> Parts<'a> {
    Parts {
        header: BYTES,
        raster,
    }
}

/// The tile, by this name.
pub fn tile<'a>(alloc: Global, name: &str) -> Result<TileInput<SliceSource<'a>>, AllocError> {
    input(alloc, name, &[0; 8])
}

/// The products of a check, with these codes and labels; no rank is above 0.
pub fn five<'a>(
    alloc: Global,
    codes: &'a [u8],
    labels: &'a [u8],
) -> Result<Products<SliceSource<'a>>, AllocError> {
    products(
        alloc,
        &PerProduct {
            con: CON,
            dir: bytes(codes),
            acc: ACC,
            bas: bytes(labels),
            rnk: bytes(&[0; 4]),
        },
    )
}

/// The products of an audit, with these codes and labels.
pub fn four<'a>(
    alloc: Global,
    codes: &'a [u8],
    labels: &'a [u8],
) -> Result<AuditProducts<SliceSource<'a>>, AllocError> {
    let PerProduct {
        con,
        dir,
        acc,
        bas,
        rnk: _,
    } = five(alloc, codes, labels)?;
    Ok(AuditProducts { con, dir, acc, bas })
}
