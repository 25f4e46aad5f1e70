//! Samples of tiles.
//!
//! A tile is a square of 16-bit signed samples, most significant byte first, row after row from the northernmost, each
//! row from west to east, without a header. Source: the SRTM HGT documentation.

ghost use Rattle.std.specs.Prelude.{◌≡◌, ◌*◌, ◌↔◌};
ghost use Rattle.drain_hgt.specs.Names.{IfOk, IsErrOf, length, IsSide};
ghost use Rattle.drain_hgt.specs.Samples.{IsTile, samples_of, tile_length};

use byteorder::{BigEndian, ByteOrder};
use drain_grid::tile::is_side;
use std::alloc::{AllocError, Global};
use thiserror::Error;

/// Why bytes are no tile, in the order in which the errors are returned.
#[derive(Clone, Copy, PartialEq, Eq, Debug, Error)]
pub enum TileFault {
    /// No tile has this many samples along an edge.
    #[error("no tile has this side")]
    BadSide,
    /// The tile has another number of bytes.
    #[error("the tile has another length")]
    BadLength,
    /// Out of memory for the samples.
    #[error("out of memory")]
    OutOfMemory,
}

/// How many bytes a tile has: two for each sample.
pub fn tile_length(side: u32) -> usize
    requires { IsSide side }
    ensures { result ≡ tile_length side }
{
    2 * (side as usize * side as usize)
}

/// The samples of a tile in whole metres, -32768 for a void: `side` rows from the northernmost on, west to east.
///
/// `side` is the number of samples along an edge, from 2 to 3601. Returns `BadSide` for another side, then `BadLength`
/// if there are not `2 * side * side` bytes; `OutOfMemory` if memory for the samples runs out.
pub fn read_tile(alloc: Global, side: u32, bytes: &[u8]) -> Result<Vec<i16>, TileFault>
    ensures samples { IfOk result (λ samples. samples.items ≡ samples_of bytes.now) }
    ensures counted { IfOk result (λ samples. length samples.items ≡ side * side) }

    // Faults come in this order, and each exactly where it holds.
    ensures bad_side { IsErrOf result TileFault.BadSide ↔ ¬ IsSide side }
    ensures bad_length { IsErrOf result TileFault.BadLength ↔ (IsSide side × ¬ IsTile side bytes.now) }
{
    if !is_side(side) {
        return Err(TileFault::BadSide);
    }
    if bytes.len() != tile_length(side) {
        return Err(TileFault::BadLength);
    }
    match samples(alloc, side as usize * side as usize, bytes) {
        Ok(samples) => Ok(samples),
        Err(_) => Err(TileFault::OutOfMemory),
    }
}

/// The samples of pairs of bytes. Memory is taken once.
fn samples(alloc: Global, count: usize, bytes: &[u8]) -> Result<Vec<i16>, AllocError>
    requires { length bytes.now ≡ 2 * count }
    ensures samples { IfOk result (λ samples. samples.items ≡ samples_of bytes.now) }
    ensures counted { IfOk result (λ samples. length samples.items ≡ count) }
{
    let mut samples = vec![in alloc; 0; count]?;
    BigEndian::read_i16_into(bytes, &mut samples);
    Ok(samples)
}
