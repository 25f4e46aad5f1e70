//! The tiles of a mosaic that go on together: one call for each tile that lies over a row, and one for each at the end.
//!
//! A tile of wrong length doesn't end the mosaic: it gives no row from then on, and the others go on.

ghost use Rattle.std.specs.Prelude.{◌≡◌, ◌<◌, ◌+◌};
ghost use Rattle.drain_mosaic.specs.Names.{ℕ, None, Some, Err, length, map, IfOk, IfErr, IsErrOf, IsSome, MatchOption, All, VOID, IsSample, names_of};
ghost use Rattle.drain_mosaic.specs.Streams.{end_stream, next_stream};
ghost use Rattle.drain_mosaic.specs.PlacedRows.{AreTold, ArePlacedWithin, HasRead, HaveEnded, HaveRead, IsPlacedAt, IsRowLaid, IsTileRowLaid, IsPlacedWithin, stop_of, stream_of, streams_of};

use crate::overlay::{first_of, lay_over};
use drain_device::{ByteSource, ReadFault, RowSource, RowStep};
use drain_grid::Cell;
use drain_hgt::{TileInput, TileRows};

/// A tile's rows, and the tile's north-west cell.
#[derive(Drop)]
pub struct PlacedRows {
    pub place: Cell,
    pub rows: TileRows,
}

/// Lays the next row of each tile that lies over a row of the mosaic. Finds the first column where tiles differ.
pub fn lay_tiles<R: ByteSource>(
    tiles: &mut [PlacedRows],
    from: &mut [TileInput<R>],
    side: u32,
    row: u32,
    tile_row: &mut Vec<i64>,
    out: &mut [i64],
) -> Result<Option<usize>, ReadFault>
    requires named { length from.old ≡ length tiles.old }
    requires within { (rows : ℕ) × ArePlacedWithin side rows (length out.old) tiles.old }
    ensures within { (rows : ℕ) → ArePlacedWithin side rows (length out.old) tiles.old → ArePlacedWithin side rows (length out.old) tiles.new }
    ensures at { All (IsPlacedAt side row) tiles.old → IfOk result (λ found. All (IsPlacedAt side (row + 1)) tiles.new) }
    ensures names { names_of from.new ≡ names_of from.old }
    ensures read { HaveRead R.bytes_left R.counts tiles.old tiles.new from.old from.new (IsErrOf result ReadFault.ReadFailed) }
    ensures goes_on { AreTold R.bytes_left from.old → IfOk result (λ found. streams_of R.bytes_left tiles.new from.new ≡ map (next_stream side row) (streams_of R.bytes_left tiles.old from.old)) }
    ensures laid { AreTold R.bytes_left from.old → All (λ z. z ≡ VOID) out.old → IfOk result (IsRowLaid side row (streams_of R.bytes_left tiles.old from.old) out.new) }
    ensures samples { All IsSample out.old → All IsSample out.new }
    ensures found { IfOk result (λ found. MatchOption found (Unit {0}) (λ col. col < length out.old)) }
    ensures stops { IfErr result (λ fault. stop_of (Err fault) ≡ Some fault) }
{
    let mut seam = None;
    for i in 0..tiles.len() {
        match lay_tile(&mut tiles[i], &mut from[i].body, side, row, tile_row, out) {
            Ok(found) => seam = first_of(seam, found),
            Err(fault) => return Err(fault),
        }
    }
    Ok(seam)
}

/// Lays the next row of a tile over a row of the mosaic, if the tile lies there and its row is whole.
fn lay_tile<R: ByteSource>(
    tile: &mut PlacedRows,
    from: &mut R,
    side: u32,
    row: u32,
    tile_row: &mut Vec<i64>,
    out: &mut [i64],
) -> Result<Option<usize>, ReadFault>
    requires within { (rows : ℕ) × IsPlacedWithin side rows (length out.old) tile.old }
    ensures within { (rows : ℕ) → IsPlacedWithin side rows (length out.old) tile.old → IsPlacedWithin side rows (length out.old) tile.new }
    ensures at { IsPlacedAt side row tile.old → IfOk result (λ found. IsPlacedAt side (row + 1) tile.new) }
    ensures read { HasRead (R.bytes_left from.old) (R.bytes_left from.new) (R.counts from.old) (R.counts from.new) tile.old tile.new (IsErrOf result ReadFault.ReadFailed) }
    ensures goes_on { IsSome (R.bytes_left from.old) → IfOk result (λ found. stream_of tile.new (R.bytes_left from.new) ≡ next_stream side row (stream_of tile.old (R.bytes_left from.old))) }
    ensures laid { IsSome (R.bytes_left from.old) → IfOk result (IsTileRowLaid side row (stream_of tile.old (R.bytes_left from.old)) out.old out.new) }
    ensures samples { All IsSample out.old → All IsSample out.new }
    ensures found { IfOk result (λ found. MatchOption found (Unit {0}) (λ col. col < length out.old)) }
    ensures stops { IfErr result (λ fault. stop_of (Err fault) ≡ Some fault) }
{
    if row < tile.place.row || side <= row - tile.place.row {
        return Ok(None);
    }
    let answer = tile.rows.next_row(from, tile_row);
    if let Some(fault) = stop_of(answer) {
        return Err(fault);
    }
    Ok(lay_over(out, tile.place.col as usize, tile_row))
}

/// Reads each tile to its end.
pub fn read_ends<R: ByteSource>(
    tiles: &mut [PlacedRows],
    from: &mut [TileInput<R>],
    tile_row: &mut Vec<i64>,
) -> Result<(), ReadFault>
    requires named { length from.old ≡ length tiles.old }
    ensures within { (side rows cols : ℕ) → ArePlacedWithin side rows cols tiles.old → ArePlacedWithin side rows cols tiles.new }
    ensures names { names_of from.new ≡ names_of from.old }
    ensures read { HaveRead R.bytes_left R.counts tiles.old tiles.new from.old from.new (IsErrOf result ReadFault.ReadFailed) }
    ensures goes_on { AreTold R.bytes_left from.old → IfOk result (λ done. streams_of R.bytes_left tiles.new from.new ≡ map end_stream (streams_of R.bytes_left tiles.old from.old)) }
    ensures ended { (side rows cols : ℕ) → ArePlacedWithin side rows cols tiles.old → All (IsPlacedAt side rows) tiles.old → IfOk result (λ done. HaveEnded tiles.new) }
    ensures stops { IfErr result (λ fault. stop_of (Err fault) ≡ Some fault) }
{
    for i in 0..tiles.len() {
        let answer = tiles[i].rows.next_row(&mut from[i].body, tile_row);
        if let Some(fault) = stop_of(answer) {
            return Err(fault);
        }
    }
    Ok(())
}

/// The fault of an answer that ends the mosaic's rows: of a device or of memory. A tile of wrong length doesn't end
/// them.
pub fn stop_of(answer: Result<RowStep, ReadFault>) -> Option<ReadFault>
    ensures { result ≡ stop_of answer }
{
    match answer {
        Ok(_) => None,
        Err(ReadFault::WrongLength) => None,
        Err(ReadFault::ReadFailed) => Some(ReadFault::ReadFailed),
        Err(ReadFault::OutOfMemory) => Some(ReadFault::OutOfMemory),
        Err(ReadFault::AlreadyFailed) => None,
    }
}
