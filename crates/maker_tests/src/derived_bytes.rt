//! The bytes of a tile and of directions, with zeros for the other products.

use crate::derived::{NONE, numbers, same};
use drain_device::{ByteList, SliceSource};
use drain_hgt::TileInput;
use drain_maker::{DeriveRefusal, Derived, derive_on};
use drain_verdict::{AuditProducts, RasterInput, Refusal};
use std::alloc::{AllocError, Global};
use std::test::Fail;

/// A tile of side 2 with a void, its most significant bytes first.
static TILE: [u8; 8] = [0, 7, 128, 0, 0, 5, 0, 6];

/// The header of each product.
const HEADER: &[u8] =
    b"NROWS 2\nNCOLS 2\nULXMAP 0\nULYMAP 1\nXDIM 1\nYDIM 1\nBYTEORDER I\nNBITS 8\n";

static ZEROS: [u8; 4] = [0; 4];

fn raster<'a>(alloc: Global, body: &'a [u8]) -> Result<RasterInput<SliceSource<'a>>, AllocError> {
    Ok(RasterInput {
        header: ByteList::new(HEADER.to_vec(alloc)?),
        body: SliceSource::new(body),
    })
}

/// The products with these directions.
fn products<'a>(
    alloc: Global,
    codes: &'a [u8],
) -> Result<AuditProducts<SliceSource<'a>>, AllocError> {
    Ok(AuditProducts {
        con: raster(alloc, &ZEROS)?,
        dir: raster(alloc, codes)?,
        acc: raster(alloc, &ZEROS)?,
        bas: raster(alloc, &ZEROS)?,
    })
}

/// What follows from these directions.
fn derived_of(alloc: Global, codes: &[u8]) -> Result<Result<Derived, DeriveRefusal>, AllocError> {
    let name = ByteList::new(b"N00E000.hgt".to_vec(alloc)?);
    let body = SliceSource::new(&TILE);
    let mut tiles = [TileInput { name, body }];
    let mut read = products(alloc, codes)?;
    match derive_on(alloc, &2, &mut tiles, &[], &mut read) {
        Ok((_, derived)) => Ok(Ok(derived)),
        Err(refusal) => Ok(Err(refusal)),
    }
}

#[test]
fn derives_from_bytes(rt: HostRuntime) -> Result<(), Fail> {
    match derived_of(rt.alloc(), &[4, 255, 0, 16])? {
        Ok(derived) => {
            let first = [[1, 0, -1], [1, 0, -1], [1, NONE, -1]];
            let second = [[3, 1, -1], [1, 1, -1], [0, 1, -1]];
            same(&rt, numbers(&derived, 0), first);
            same(&rt, numbers(&derived, 1), second);
            Ok(())
        }
        Err(DeriveRefusal::Refused(Refusal::OutOfMemory)) => Err("failed OutOfMemory".into()),
        Err(_) => Err("refused".into()),
    }
}

/// Two cells that lead to each other, and one that leads to them.
#[test]
fn tells_a_ring_in_bytes(rt: HostRuntime) -> Result<(), Fail> {
    match derived_of(rt.alloc(), &[4, 255, 1, 16])? {
        Err(DeriveRefusal::NoEnd { row, col }) => {
            assert_eq!(rt; (row, col), (0, 0));
            Ok(())
        }
        Err(DeriveRefusal::Refused(Refusal::OutOfMemory)) => Err("failed OutOfMemory".into()),
        Err(_) => Err("refused".into()),
        Ok(_) => Err("every run ends".into()),
    }
}
