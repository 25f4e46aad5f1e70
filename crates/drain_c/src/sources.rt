//! The bytes of a call as the sources that verdicts read. Names are copied, and so are headers, the first
//! 65,537 bytes of a longer one; samples and pixels are not.

ghost use Rattle.std.specs.Prelude.{◌≡◌};
ghost use Rattle.drain_c.specs.Names.{false, take, IfOk, IfErr, as_five, has_rnk};
ghost use Rattle.drain_c.specs.Given.{as_passed};
ghost use Rattle.drain_c.specs.Sources.{AreJudgedOf, AreTilesOf, IsJudgedOf, IsMissingOf, IsRasterOf, IsTileOf};
ghost use Rattle.drain_grid.specs.declared.judged.Judged.TheVariants.{AllWithRanks};

use crate::given::{CheckBytes, RasterBytes, TileBytes};
use drain_device::{ByteList, ByteSource, SliceSource};
use drain_grid::Judged;
use drain_header::MAX_HEADER_BYTES;
use drain_hgt::TileInput;
use drain_sets::missing::missing_header;
use drain_verdict::{AuditProducts, Products, RasterInput, Refusal};
use std::alloc::Global;

/// The tiles, in their order.
pub fn tile_inputs<'a>(
    alloc: Global,
    given: &[TileBytes<'a>],
) -> Result<Vec<TileInput<SliceSource<'a>>>, Refusal>
    ensures same { IfOk result (λ tiles. AreTilesOf ⟦<SliceSource<'a> as ByteSource>⟧.bytes_left given.now tiles.items) }
    ensures memory { IfErr result (λ refusal. refusal ≡ Refusal.OutOfMemory) }
{
    let mut tiles = Vec::new(alloc);
    for tile in given {
        let input = tile_input(alloc, tile)?;
        if tiles.push(input).is_err() {
            return Err(Refusal::OutOfMemory);
        }
    }
    Ok(tiles)
}

/// A tile.
fn tile_input<'a>(
    alloc: Global,
    given: &TileBytes<'a>,
) -> Result<TileInput<SliceSource<'a>>, Refusal>
    ensures same { IfOk result (λ tile. IsTileOf ⟦<SliceSource<'a> as ByteSource>⟧.bytes_left given.now tile) }
    ensures memory { IfErr result (λ refusal. refusal ≡ Refusal.OutOfMemory) }
{
    let name = byte_list(alloc, given.name.bytes)?;
    let body = SliceSource::new(given.samples.bytes);
    Ok(TileInput { name, body })
}

/// A raster.
pub fn raster_input<'a>(
    alloc: Global,
    given: &RasterBytes<'a>,
) -> Result<RasterInput<SliceSource<'a>>, Refusal>
    ensures same { IfOk result (λ raster. IsRasterOf ⟦<SliceSource<'a> as ByteSource>⟧.bytes_left (as_passed given.now) raster) }
    ensures memory { IfErr result (λ refusal. refusal ≡ Refusal.OutOfMemory) }
{
    let header = byte_list(alloc, first_bytes(given.header.bytes))?;
    let body = SliceSource::new(given.pixels.bytes);
    Ok(RasterInput { header, body })
}

/// A header, or the first bytes of one that is too long: as many as show that it is.
fn first_bytes(header: &[u8]) -> &[u8]
    ensures { result.now ≡ take 65537 header.now }
{
    if header.len() <= MAX_HEADER_BYTES {
        return header;
    }
    &header[..MAX_HEADER_BYTES + 1]
}

/// A copy of these bytes.
fn byte_list(alloc: Global, bytes: &[u8]) -> Result<ByteList, Refusal>
    ensures same { IfOk result (λ list. list ≡ bytes.now) }
    ensures memory { IfErr result (λ refusal. refusal ≡ Refusal.OutOfMemory) }
{
    match bytes.to_vec(alloc) {
        Ok(copy) => Ok(ByteList::new(copy)),
        Err(_) => Err(Refusal::OutOfMemory),
    }
}

/// The four rasters of an audit of which these are judged: con, and con's pixels in the place of each other that isn't.
pub fn four_inputs<'a>(
    alloc: Global,
    judged: Judged,
    given: &CheckBytes<'a>,
) -> Result<AuditProducts<SliceSource<'a>>, Refusal>
    ensures same { has_rnk judged ≡ false → IfOk result (λ products. AreJudgedOf ⟦<SliceSource<'a> as ByteSource>⟧.bytes_left judged given.now (as_five products)) }
    ensures memory { IfErr result (λ refusal. refusal ≡ Refusal.OutOfMemory) }
{
    let con = &given.con;
    Ok(AuditProducts {
        con: raster_input(alloc, con)?,
        dir: input_or_missing(alloc, judged.has_dir(), &given.dir, con)?,
        acc: input_or_missing(alloc, judged.has_acc(), &given.acc, con)?,
        bas: input_or_missing(alloc, judged.has_bas(), &given.bas, con)?,
    })
}

/// A raster if it is judged, else a missing one.
fn input_or_missing<'a>(
    alloc: Global,
    is_judged: bool,
    given: &RasterBytes<'a>,
    con: &RasterBytes<'a>,
) -> Result<RasterInput<SliceSource<'a>>, Refusal>
    ensures same { IfOk result (λ raster. IsJudgedOf ⟦<SliceSource<'a> as ByteSource>⟧.bytes_left is_judged given.now con.now raster) }
    ensures memory { IfErr result (λ refusal. refusal ≡ Refusal.OutOfMemory) }
{
    if is_judged {
        return raster_input(alloc, given);
    }
    missing_input(alloc, con)
}

/// A raster that isn't judged: con's pixels, a byte for each cell, under the header of a raster that lies as con does.
fn missing_input<'a>(
    alloc: Global,
    con: &RasterBytes<'a>,
) -> Result<RasterInput<SliceSource<'a>>, Refusal>
    ensures same { IfOk result (λ raster. IsMissingOf ⟦<SliceSource<'a> as ByteSource>⟧.bytes_left con.now raster) }
    ensures memory { IfErr result (λ refusal. refusal ≡ Refusal.OutOfMemory) }
{
    let Ok(text) = missing_header(alloc, first_bytes(con.header.bytes)) else {
        return Err(Refusal::OutOfMemory);
    };
    let header = ByteList::new(text);
    let body = SliceSource::new(con.pixels.bytes);
    Ok(RasterInput { header, body })
}

/// The five rasters of a check.
pub fn five_inputs<'a>(
    alloc: Global,
    given: &CheckBytes<'a>,
) -> Result<Products<SliceSource<'a>>, Refusal>
    ensures same { IfOk result (λ products. AreJudgedOf ⟦<SliceSource<'a> as ByteSource>⟧.bytes_left AllWithRanks given.now products) }
    ensures memory { IfErr result (λ refusal. refusal ≡ Refusal.OutOfMemory) }
{
    Ok(Products {
        con: raster_input(alloc, &given.con)?,
        dir: raster_input(alloc, &given.dir)?,
        acc: raster_input(alloc, &given.acc)?,
        bas: raster_input(alloc, &given.bas)?,
        rnk: raster_input(alloc, &given.rnk)?,
    })
}
