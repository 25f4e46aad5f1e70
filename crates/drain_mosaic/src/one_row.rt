//! One row of a mosaic: the row of its only tile, or voids with the rows of its tiles laid over them.

ghost use Rattle.std.specs.Prelude.{◌≡◌, ◌<◌, ◌+◌, ◌∷◌};
ghost use Rattle.drain_mosaic.specs.Names.{ℕ, None, Some, Err, [], length, map, IfOk, IfErr, IsErrOf, IsSome, MatchOption, All, VOID, IsSample, names_of};
ghost use Rattle.drain_mosaic.specs.Streams.{next_stream};
ghost use Rattle.drain_mosaic.specs.PlacedRows.{AreTold, ArePlacedWithin, HasRead, HaveRead, IsPlacedAt, IsPlacedWithin, IsRowLaid, stop_of, stream_of, streams_of};

use crate::overlay::VOID_NUMBER;
use crate::placed_rows::{PlacedRows, lay_tiles, stop_of};
use drain_device::{ByteSource, ReadFault, RowSource, RowStep};
use drain_hgt::TileInput;

/// Reads a row of a mosaic from its tiles. Finds the first column where tiles differ.
pub fn read_row<R: ByteSource>(
    tiles: &mut [PlacedRows],
    from: &mut [TileInput<R>],
    side: u32,
    row: u32,
    cols: u32,
    tile_row: &mut Vec<i64>,
    out: &mut Vec<i64>,
) -> Result<Option<usize>, ReadFault>
    requires named { length from.old ≡ length tiles.old }
    requires within { (rows : ℕ) × ArePlacedWithin side rows cols tiles.old }
    ensures within { (rows : ℕ) → ArePlacedWithin side rows cols tiles.old → ArePlacedWithin side rows cols tiles.new }
    ensures at { All (IsPlacedAt side row) tiles.old → IfOk result (λ found. All (IsPlacedAt side (row + 1)) tiles.new) }
    ensures names { names_of from.new ≡ names_of from.old }
    ensures read { HaveRead R.bytes_left R.counts tiles.old tiles.new from.old from.new (IsErrOf result ReadFault.ReadFailed) }
    ensures goes_on { AreTold R.bytes_left from.old → IfOk result (λ found. streams_of R.bytes_left tiles.new from.new ≡ map (next_stream side row) (streams_of R.bytes_left tiles.old from.old)) }
    ensures laid { AreTold R.bytes_left from.old → IfOk result (IsRowLaid side row (streams_of R.bytes_left tiles.old from.old) out.new.items) }
    ensures long { IfOk result (λ found. length out.new.items ≡ cols) }
    ensures samples { IfOk result (λ found. All IsSample out.new.items) }
    ensures found { IfOk result (λ found. MatchOption found (Unit {0}) (λ col. col < cols)) }
    ensures stops { IfErr result (λ fault. stop_of (Err fault) ≡ Some fault) }
{
    if tiles.len() == 1 && side == cols {
        if let Err(fault) = read_alone(&mut tiles[0], &mut from[0].body, side, row, out) {
            return Err(fault);
        }
        return Ok(None);
    }
    if let Err(fault) = put_voids(out, cols) {
        return Err(fault);
    }
    lay_tiles(tiles, from, side, row, tile_row, out)
}

/// Reads the row of a mosaic's only tile. A row that isn't whole is voids.
fn read_alone<R: ByteSource>(
    tile: &mut PlacedRows,
    from: &mut R,
    side: u32,
    row: u32,
    out: &mut Vec<i64>,
) -> Result<(), ReadFault>
    requires within { (rows : ℕ) × IsPlacedWithin side rows side tile.old }
    ensures within { (rows : ℕ) → IsPlacedWithin side rows side tile.old → IsPlacedWithin side rows side tile.new }
    ensures at { IsPlacedAt side row tile.old → IfOk result (λ done. IsPlacedAt side (row + 1) tile.new) }
    ensures read { HasRead (R.bytes_left from.old) (R.bytes_left from.new) (R.counts from.old) (R.counts from.new) tile.old tile.new (IsErrOf result ReadFault.ReadFailed) }
    ensures goes_on { IsSome (R.bytes_left from.old) → IfOk result (λ done. stream_of tile.new (R.bytes_left from.new) ≡ next_stream side row (stream_of tile.old (R.bytes_left from.old))) }
    ensures laid { IsSome (R.bytes_left from.old) → IfOk result (λ done. IsRowLaid side row (stream_of tile.old (R.bytes_left from.old) ∷ []) out.new.items None) }
    ensures long { IfOk result (λ done. length out.new.items ≡ side) }
    ensures samples { IfOk result (λ done. All IsSample out.new.items) }
    ensures stops { IfErr result (λ fault. stop_of (Err fault) ≡ Some fault) }
{
    if row < tile.place.row || side <= row - tile.place.row {
        return put_voids(out, side);
    }
    let answer = tile.rows.next_row(from, out);
    if let Some(fault) = stop_of(answer) {
        return Err(fault);
    }
    match answer {
        Ok(RowStep::Row) => Ok(()),
        _ => put_voids(out, side),
    }
}

/// Makes a row of voids.
fn put_voids(out: &mut Vec<i64>, cols: u32) -> Result<(), ReadFault>
    ensures long { IfOk result (λ done. length out.new.items ≡ cols) }
    ensures voids { IfOk result (λ done. All (λ z. z ≡ VOID) out.new.items) }
    ensures fault { IfErr result (λ fault. fault ≡ ReadFault.OutOfMemory) }
{
    out.clear();
    if out.resize(cols as usize, VOID_NUMBER).is_err() {
        return Err(ReadFault::OutOfMemory);
    }
    Ok(())
}
