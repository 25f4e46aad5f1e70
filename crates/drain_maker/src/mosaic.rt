//! The tiles of a maker's run as one elevation raster.

ghost use Rattle.std.specs.Prelude.{◌≡◌, ◌+◌, ◌*◌};
ghost use Rattle.drain_maker.specs.Names.{ℕ, List, map, length, Some, IfOk, IfErr, IsErrOf, Heights, IsSide, AllZip, ReadFails, TakesAtMost, IsTile, samples_of, tile_length, names_of, tile_devices, AreBodies, TilesTakeAtMost, AreTiles, SomeReadFails, IsOfBodies, IsTileRefusal, TellTiles, extent_of, Inputs};
ghost use Rattle.drain_maker.specs.Mosaics.{AreSamplesOf, IsOneTileRefusal, IsElevationOf, IsSeamFaultAs, IsSeamRefusal, IsMosaicOf, IsMosaicRefusal};

use drain_answer::Refusal;
use drain_device::{BodyFault, ByteSource, read_body};
use drain_grid::Elevation;
use drain_hgt::laws::one_name;
use drain_hgt::tile::tile_length;
use drain_hgt::{TileFault, TileInput, TileName, read_tile};
use drain_mosaic::laws::agreement_gives_elevation;
use drain_mosaic::{Layout, SeamFault, join};
use drain_verdict::stages::layout_of;
use std::alloc::Global;

/// Elevations that are lent, or given away: given ones are freed when they are dropped.
pub trait AsElevation {
    /// The heights.
    ghost heights: { Self → Heights };

    /// The elevations.
    fn as_elevation(&self) -> &Elevation
        ensures { result.now ≡ heights self.now };
}

impl AsElevation for Elevation {
    ghost heights = { λ e. e };

    fn as_elevation(&self) -> &Elevation {
        self
    }
}

impl AsElevation for &Elevation {
    ghost heights = { λ e. e.now };

    fn as_elevation(&self) -> &Elevation {
        self
    }
}

/// Reads the samples of each tile, in the layout's order, each northernmost row first, in whole metres.
///
/// Returns `BadTileLength` with the first tile whose body has another length than a tile of the layout's side,
/// `ReadFailed` if its device fails for good, `OutOfMemory` without memory for its bytes or samples. Devices of later
/// tiles aren't read.
pub fn read_tiles<R: ByteSource>(
    alloc: Global,
    layout: &Layout,
    tiles: &mut [TileInput<R>],
) -> Result<Vec<Vec<i16>>, Refusal>
    requires { length tiles.old ≡ length layout.now.corners }
    ensures samples { IfOk result (λ samples. (bodies : List (List ℕ)) → AreBodies R.bytes_left tiles.old bodies → AreSamplesOf layout.now.side bodies (map (λ tile. tile.items) samples.items)) }
    ensures counted { IfOk result (λ samples. AreTiles layout.now (map (λ tile. tile.items) samples.items)) }
    ensures refusal { IfErr result (λ refusal. (bodies : List (List ℕ)) → AreBodies R.bytes_left tiles.old bodies → IsTileRefusal layout.now bodies refusal) }
    ensures of_bodies { IfErr result IsOfBodies }

    // A read fails exactly if the device of some tile fails for good; each gives at most one byte more than a tile has.
    ensures faults { SomeReadFails (map R.counts (tile_devices tiles.old)) (map R.counts (tile_devices tiles.new)) (IsErrOf result Refusal.ReadFailed) }
    ensures within { AllZip (λ old new. TakesAtMost (tile_length layout.now.side + 1) (R.bytes_left old.body) (R.bytes_left new.body)) tiles.old tiles.new }
    ensures names { names_of tiles.new ≡ names_of tiles.old }
{
    let side = layout.side();
    let mut samples = Vec::new(alloc);
    for (i, tile) in tiles.iter_mut().enumerate() {
        match read_one(alloc, side, layout.name(i), &mut tile.body) {
            Ok(came) => {
                if samples.push(came).is_err() {
                    return Err(Refusal::OutOfMemory);
                }
            }
            Err(refusal) => return Err(refusal),
        }
    }
    Ok(samples)
}

/// Reads the samples of the tile of this name, and one byte more if there is one.
fn read_one<R: ByteSource>(
    alloc: Global,
    side: u32,
    name: TileName,
    body: &mut R,
) -> Result<Vec<i16>, Refusal>
    requires { IsSide side }
    ensures samples { IfOk result (λ samples. (bytes : List ℕ) → R.bytes_left body.old ≡ Some bytes → IsTile side bytes × (samples.items ≡ samples_of bytes)) }
    ensures counted { IfOk result (λ samples. length samples.items ≡ side * side) }
    ensures refusal { IfErr result (λ refusal. (bytes : List ℕ) → R.bytes_left body.old ≡ Some bytes → IsOneTileRefusal side name bytes refusal) }
    ensures of_bodies { IfErr result IsOfBodies }
    ensures faults { ReadFails (R.counts body.old) (R.counts body.new) (IsErrOf result Refusal.ReadFailed) }
    ensures within { TakesAtMost (tile_length side + 1) (R.bytes_left body.old) (R.bytes_left body.new) }
{
    let bytes = match read_body(alloc, body, tile_length(side) + 1) {
        Ok(bytes) => bytes,
        Err(BodyFault::ReadFailed) => return Err(Refusal::ReadFailed),
        Err(BodyFault::OutOfMemory) => return Err(Refusal::OutOfMemory),
    };
    match read_tile(alloc, side, &bytes) {
        Ok(samples) => Ok(samples),
        Err(TileFault::OutOfMemory) => Err(Refusal::OutOfMemory),
        Err(_) => Err(Refusal::BadTileLength(name)),
    }
}

/// Tiles put together: which they are, where they lie, and their elevations.
#[derive(Drop)]
pub struct Mosaic {
    pub layout: Layout,
    pub elevation: Elevation,
    ghost same_shape: { elevation.extent ≡ extent_of layout },
}

/// The mosaic of the tiles, or the first refusal of `check` that is about side, names or tiles: `BadSide`; `BadName`; `NoTiles`,
/// `RepeatedTile`, `BoxTooLarge`; `BadTileLength`; `SeamMismatch`. `OutOfMemory` and `ReadFailed` come as with `check`.
///
/// The contract is about the bytes that the sources had left, for sources whose bytes are known.
pub fn read_mosaic<R: ByteSource>(
    alloc: Global,
    side: u32,
    tiles: &mut [TileInput<R>],
) -> Result<Mosaic, Refusal>
    ensures mosaic { IfOk result (λ mosaic. (inputs : Inputs) → TellTiles R.bytes_left side tiles.old inputs → IsMosaicOf inputs mosaic.layout mosaic.elevation) }
    ensures refusal { IfErr result (λ refusal. (inputs : Inputs) → TellTiles R.bytes_left side tiles.old inputs → IsMosaicRefusal inputs refusal) }

    // How far it reads, when a read fails, and that names are unchanged.
    ensures within { TilesTakeAtMost R.bytes_left side tiles.old tiles.new }
    ensures faults { SomeReadFails (map R.counts (tile_devices tiles.old)) (map R.counts (tile_devices tiles.new)) (IsErrOf result Refusal.ReadFailed) }
    ensures names { names_of tiles.new ≡ names_of tiles.old }

    // A refusal of side, names or layout leaves every device as it was.
    ensures untouched { IfErr result (λ refusal. ¬ IsOfBodies refusal → tiles.new ≡ tiles.old) }
{
    // The laws that bytes name one tile, and that the joined elevation is that of the tiles' first values.
    one_name();
    agreement_gives_elevation();
    let layout = layout_of(alloc, side, tiles)?;
    let samples = read_tiles(alloc, &layout, tiles)?;
    let elevation = elevation_of(alloc, &layout, samples)?;
    Ok(Mosaic { layout, elevation })
}

/// The elevation of all tiles together, or `SeamMismatch` with the first cell where they differ; `OutOfMemory` if they
/// agree and memory is refused. `samples` are those of the tiles, in the order of the layout's names, freed once
/// joined.
fn elevation_of(
    alloc: Global,
    layout: &Layout,
    samples: Vec<Vec<i16>>,
) -> Result<Elevation, Refusal>
    requires { AreTiles layout.now (map (λ tile. tile.items) samples.items) }
    ensures elevation { IfOk result (IsElevationOf layout.now (map (λ tile. tile.items) samples.items)) }
    ensures refusal { IfErr result (IsSeamRefusal layout.now (map (λ tile. tile.items) samples.items)) }
    ensures of_bodies { IfErr result IsOfBodies }
{
    match join(alloc, layout, &samples) {
        Ok(elevation) => Ok(elevation),
        Err(fault) => Err(refusal_of(fault)),
    }
}

/// The refusal for a seam's fault.
fn refusal_of(fault: SeamFault) -> Refusal
    ensures refusal { IsSeamFaultAs fault result }
    ensures of_bodies { IsOfBodies result }
{
    match fault {
        SeamFault::SeamMismatch(cell) => Refusal::SeamMismatch(cell),
        SeamFault::OutOfMemory => Refusal::OutOfMemory,
    }
}
