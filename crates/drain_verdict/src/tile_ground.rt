//! The ground of tiles: its frame is their layout, and its rows are those of their mosaic.

ghost use Rattle.std.specs.Prelude.{◌≡◌, ◌≢◌, ◌≤◌, ◌+◌};
ghost use Rattle.drain_verdict.specs.Names.{ℕ, length, None, Some, OnOk, IfSome, MAX_LENGTH, IsSample, IsPixel};
ghost use Rattle.std.specs.List.{All};
ghost use Rattle.drain_verdict.specs.Ground.{GroundToGive, ground_row};
ghost use Rattle.drain_verdict.specs.Reading.{IsOfReading, gave_up, told_by};
ghost use Rattle.drain_verdict.specs.TileRows.{IsMosaicAfter, IsMosaicOneMore, TilesHaveRead};

use crate::ground::GroundInput;
use crate::laws::tile_row_laws;
use crate::placing::is_placed;
use crate::stages::layout_of;
use drain_answer::Refusal;
use drain_device::{ByteSource, ReadFault};
use drain_grid::{HeightKind, OutOfMemory, Shape};
use drain_header::Header;
use drain_hgt::TileInput;
use drain_hgt::laws::one_name;
use drain_mosaic::laws::{agreement_gives_elevation, new_rows_are_of_bodies};
use drain_mosaic::{Layout, MosaicRows};
use drain_pixels::{GroundRow, Voids};
use std::alloc::Global;

/// A reader of the mosaic's rows, which are no longer than those of a grid.
#[derive(Drop)]
pub struct NarrowRows {
    mosaic: MosaicRows,
    ghost narrow: { mosaic.shape.cols ≤ MAX_LENGTH },
}

impl<R: ByteSource> GroundInput<R> for TileInput<R> {
    ghost use Rattle.std.specs.Prelude.{◌≡◌};
    ghost use Rattle.drain_verdict.specs.Names.{length, HeightKind, TilesTakeAtMost, names_of, tile_devices, extent_of};
    ghost use Rattle.drain_verdict.specs.Headline.{AreOneElevation};
    ghost use Rattle.drain_verdict.specs.Inputs.{Inputs};
    ghost use Rattle.drain_verdict.specs.Stages.{IsLayoutOf};
    ghost use Rattle.drain_verdict.specs.TileGround.{TellTiles, IsPlaced, tile_ground};
    ghost use Rattle.drain_verdict.specs.TileRows.{IsMosaicAfter, IsMosaicBegun, IsTilingOf, TilesHaveRead, tile_rows_of};
    ghost use Rattle.drain_verdict.specs.Uses.{AreNamesKept};

    type Key = u32;

    type Frame = Layout;

    type Rows = NarrowRows;

    ghost Texts = { Inputs };

    ghost terrain = { tile_ground };

    ghost is_told = { AreOneElevation };

    ghost admits = { λ tiles. Unit {0} };

    ghost encodes = { λ side tiles inputs. TellTiles R.bytes_left side tiles inputs };

    ghost rows_of = { tile_rows_of };

    ghost key_of = { λ layout. layout.side };

    ghost framed = { λ layout inputs. IsTilingOf layout inputs };

    ghost kind = { λ layout. HeightKind.Whole };

    ghost extent = { λ layout. extent_of layout };

    ghost holds = { λ layout place. IsPlaced layout place };

    ghost size = { λ layout. length layout.corners };

    ghost fit = { λ layout tiles. IsLayoutOf layout.side (names_of tiles) layout };

    ghost begun = { λ layout rows. IsMosaicBegun layout rows.mosaic };

    ghost count = { λ rows. length rows.mosaic.tiles.items };

    ghost after = { λ rows tiles t n. IsMosaicAfter R.bytes_left rows.mosaic tiles t n };

    ghost has_read = { λ start now failed. TilesHaveRead R.bytes_left R.counts (start.0.mosaic, start.1) (now.0.mosaic, now.1) failed };

    ghost within = { λ side old new. TilesTakeAtMost R.bytes_left side old new };

    ghost kept = { AreNamesKept };

    ghost devices = { tile_devices };

    fn frame(alloc: Global, side: &u32, tiles: &[TileInput<R>]) -> Result<Layout, Refusal> {
        // The law that bytes name one tile.
        one_name();
        layout_of(alloc, *side, tiles)
    }

    fn height_kind(_layout: &Layout) -> HeightKind {
        HeightKind::Whole
    }

    fn shape(layout: &Layout) -> Shape {
        layout.shape()
    }

    fn is_placed(layout: &Layout, header: &Header) -> bool {
        is_placed(layout, header)
    }

    fn begin(alloc: Global, layout: &Layout) -> Result<NarrowRows, OutOfMemory> {
        match MosaicRows::new(alloc, layout) {
            Ok(mosaic) => Ok(NarrowRows { mosaic }),
            Err(OutOfMemory) => Err(OutOfMemory),
        }
    }

    fn read_row(
        rows: &mut NarrowRows,
        tiles: &mut [TileInput<R>],
        out: &mut GroundRow,
    ) -> Result<(), Refusal> {
        read_heights(&mut rows.mosaic, tiles, out)
    }

    fn refusal_of_length(layout: &Layout, rows: &NarrowRows) -> Option<Refusal> {
        // The laws that all rows come, and that the tile of wrong length which they report is the first.
        tile_row_laws();
        match rows.mosaic.wrong_length() {
            Some(place) => Some(Refusal::BadTileLength(layout.name(place))),
            None => None,
        }
    }

    fn refusal_of_values(_layout: &Layout, rows: &NarrowRows) -> Option<Refusal> {
        // The laws that all rows come, and that the seam which they report is the first.
        tile_row_laws();
        match rows.mosaic.seam() {
            Some(cell) => Some(Refusal::SeamMismatch(cell)),
            None => None,
        }
    }

    fn meaning_laws() {
        one_name();
        new_rows_are_of_bodies::<R>();
        tile_row_laws();
        agreement_gives_elevation();
    }

    fn reading_laws() {}
}

/// Reads the next row of the mosaic as elevations: none after the last.
fn read_heights<R: ByteSource>(
    mosaic: &mut MosaicRows,
    tiles: &mut [TileInput<R>],
    out: &mut GroundRow,
) -> Result<(), Refusal>
    requires counted { length tiles.old ≡ length mosaic.old.tiles.items }
    requires narrow { mosaic.old.shape.cols ≤ MAX_LENGTH }
    ensures rows { OnOk result ((t : GroundToGive) (n : ℕ) → IsMosaicAfter R.bytes_left mosaic.old tiles.old t n → IsMosaicAfter R.bytes_left mosaic.new tiles.new t (n + 1) × (out.new ≡ ground_row t n)) }
    ensures narrow { OnOk result (length out.new ≤ MAX_LENGTH) }
    ensures pixels { OnOk result (All (λ z. IfSome z IsPixel) out.new) }
    ensures read { TilesHaveRead R.bytes_left R.counts (mosaic.old, tiles.old) (mosaic.new, tiles.new) (gave_up None (told_by result)) }
    ensures of_reading { IsOfReading (told_by result) }
    ensures keeps_shape { mosaic.new.shape ≡ mosaic.old.shape }
{
    let mut samples = out.take_numbers();
    read_samples(mosaic, tiles, &mut samples)?;
    out.put_numbers(Voids::of(Some(VOID_NUMBER)), samples);
    Ok(())
}

/// The sample of a void.
const VOID_NUMBER: i64 = -32768;

/// Reads the samples of the next row of the mosaic: none after the last.
fn read_samples<R: ByteSource>(
    mosaic: &mut MosaicRows,
    tiles: &mut [TileInput<R>],
    out: &mut Vec<i64>,
) -> Result<(), Refusal>
    requires counted { length tiles.old ≡ length mosaic.old.tiles.items }
    requires narrow { mosaic.old.shape.cols ≤ MAX_LENGTH }
    ensures rows { OnOk result ((t : GroundToGive) (n : ℕ) → IsMosaicAfter R.bytes_left mosaic.old tiles.old t n → IsMosaicOneMore R.bytes_left mosaic.new tiles.new t n out.new.items) }
    ensures narrow { OnOk result (length out.new.items ≤ MAX_LENGTH) }
    ensures samples { OnOk result (All IsSample out.new.items) }
    ensures read { TilesHaveRead R.bytes_left R.counts (mosaic.old, tiles.old) (mosaic.new, tiles.new) (gave_up None (told_by result)) }
    ensures of_reading { IsOfReading (told_by result) }
    ensures keeps_shape { mosaic.new.shape ≡ mosaic.old.shape }
{
    match mosaic.next_row(tiles, out) {
        Ok(_) => Ok(()),
        Err(ReadFault::ReadFailed) => Err(Refusal::ReadFailed),
        Err(_) => Err(Refusal::OutOfMemory),
    }
}
