//! Tiles and products as sources in memory.

use drain_device::{ByteList, SliceSource};
use drain_grid::{PerProduct, SetProduct};
use drain_hgt::TileInput;
use drain_verdict::{Products, RasterInput};
use std::alloc::{AllocError, Global};

/// The name of a tile's file and its bytes.
#[derive(Clone, Copy)]
pub struct Tile<'a> {
    pub name: &'a str,
    pub bytes: &'a [u8],
}

/// One tile at 0 degrees.
pub fn at_zero<'a>(bytes: &'a [u8]) -> [Tile<'a>; 1] {
    [Tile {
        name: "N00E000.hgt",
        bytes,
    }]
}

/// A tile of this name and these bytes, as a source.
pub fn input<'a>(
    alloc: Global,
    name: &str,
    bytes: &'a [u8],
) -> Result<TileInput<SliceSource<'a>>, AllocError> {
    Ok(TileInput {
        name: ByteList::new(Vec::from_slice(alloc, name.as_bytes())?),
        body: SliceSource::new(bytes),
    })
}

/// The tiles as sources.
pub fn inputs<'a>(
    alloc: Global,
    tiles: &[Tile<'a>],
) -> Result<Vec<TileInput<SliceSource<'a>>>, AllocError> {
    let mut inputs = Vec::new(alloc);
    for tile in tiles {
        inputs.push(input(alloc, tile.name, tile.bytes)?)?;
    }
    Ok(inputs)
}

/// A product's header, and the bytes of its raster.
#[derive(Clone, Copy)]
pub struct Parts<'a> {
    pub header: &'a [u8],
    pub raster: &'a [u8],
}

/// The product of these parts.
pub fn product<'a>(
    alloc: Global,
    parts: Parts<'a>,
) -> Result<RasterInput<SliceSource<'a>>, AllocError> {
    Ok(RasterInput {
        header: ByteList::new(Vec::from_slice(alloc, parts.header)?),
        body: SliceSource::new(parts.raster),
    })
}

/// The products of these parts.
pub fn products<'a>(
    alloc: Global,
    parts: &PerProduct<Parts<'a>>,
) -> Result<Products<SliceSource<'a>>, AllocError> {
    let input = |held: SetProduct| -> Result<RasterInput<SliceSource<'_>>, AllocError> {
        product(alloc, *parts.of(held))
    };
    PerProduct::from_each(&input)
}
