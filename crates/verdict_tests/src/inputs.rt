//! The tiles and the products of an example as they are read: from sources that give all bytes at once, or one byte a
//! call and fault by a script.

use crate::example::{Example, TileBytes};
use drain_device::faults::{ScriptSource, Scripted};
use drain_device::{ByteList, ByteSource, DeviceFault, SliceSource};
use drain_grid::{PerProduct, SetProduct};
use drain_hgt::TileInput;
use drain_verdict::{Products, RasterInput};
use std::alloc::{AllocError, Global};

/// Whose source it is.
#[derive(Clone, Copy, PartialEq, Eq, Debug)]
pub enum Owner {
    Tile,
    Raster(SetProduct),
}

/// When the sources of an owner fault; the others never do.
#[derive(Clone, Copy)]
pub struct Faulty<'a> {
    pub owner: Owner,
    pub script: &'a [Scripted<DeviceFault>],
}

impl<'a> Faulty<'a> {
    /// No source faults.
    pub fn never() -> Faulty<'a> {
        Faulty {
            owner: Owner::Tile,
            script: &[],
        }
    }
}

/// How the bytes of an example are read.
pub trait Reading<'a, R: ByteSource + Drop>: Copy {
    /// The source that gives the bytes of this owner.
    fn source(self, bytes: &'a [u8], owner: Owner) -> R;
}

/// Sources give all bytes at once.
#[derive(Clone, Copy)]
pub struct AtOnce;

impl<'a> Reading<'a, SliceSource<'a>> for AtOnce {
    fn source(self, bytes: &'a [u8], _owner: Owner) -> SliceSource<'a> {
        SliceSource::new(bytes)
    }
}

impl<'a> Reading<'a, ScriptSource<'a>> for Faulty<'a> {
    /// It gives one byte a call.
    fn source(self, bytes: &'a [u8], owner: Owner) -> ScriptSource<'a> {
        if owner == self.owner {
            ScriptSource::new(bytes, 1, self.script)
        } else {
            ScriptSource::new(bytes, 1, &[])
        }
    }
}

fn list(alloc: Global, bytes: &[u8]) -> Result<ByteList, AllocError> {
    Ok(ByteList::new(bytes.to_vec(alloc)?))
}

fn tile<'a, R: ByteSource + Drop, G: Reading<'a, R>>(
    alloc: Global,
    bytes: &'a TileBytes,
    reading: G,
) -> Result<TileInput<R>, AllocError> {
    Ok(TileInput {
        name: list(alloc, bytes.name.as_slice())?,
        body: reading.source(bytes.body.as_slice(), Owner::Tile),
    })
}

/// The tiles.
pub fn tiles<'a, R: ByteSource + Drop, G: Reading<'a, R>>(
    alloc: Global,
    bytes: &'a [TileBytes],
    reading: G,
) -> Result<Vec<TileInput<R>>, AllocError> {
    let mut tiles = Vec::new(alloc);
    for bytes in bytes {
        tiles.push(tile(alloc, bytes, reading)?)?;
    }
    Ok(tiles)
}

/// An example with this header of con, which may be longer than an example has room for.
#[derive(Clone, Copy)]
pub struct ConHeaded<'a> {
    pub example: &'a Example,
    pub header: &'a [u8],
}

impl<'a> ConHeaded<'a> {
    /// An example as it is.
    pub fn by_itself(example: &'a Example) -> ConHeaded<'a> {
        ConHeaded {
            example,
            header: example.con.header.as_slice(),
        }
    }

    fn header(self, product: SetProduct) -> &'a [u8] {
        match product {
            SetProduct::Con => self.header,
            _ => self.example.raster(product).header.as_slice(),
        }
    }
}

fn raster<'a, R: ByteSource + Drop, G: Reading<'a, R>>(
    alloc: Global,
    product: SetProduct,
    headed: ConHeaded<'a>,
    reading: G,
) -> Result<RasterInput<R>, AllocError> {
    let body = headed.example.raster(product).body.as_slice();
    Ok(RasterInput {
        header: list(alloc, headed.header(product))?,
        body: reading.source(body, Owner::Raster(product)),
    })
}

/// The products.
pub fn products<'a, R: ByteSource + Drop, G: Reading<'a, R>>(
    alloc: Global,
    headed: ConHeaded<'a>,
    reading: G,
) -> Result<Products<R>, AllocError> {
    let input = |product: SetProduct| -> Result<RasterInput<R>, AllocError> {
        raster(alloc, product, headed, reading)
    };
    PerProduct::from_each(&input)
}
