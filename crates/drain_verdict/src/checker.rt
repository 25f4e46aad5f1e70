//! The check of products against the tiles or the raster of elevations that they were made from: from the bytes of devices
//! to the answer.
//!
//! `judgement.rt` says how the answer is found; here is what it means.

ghost use Rattle.drain_verdict.specs.Names.{IfAccepted, IfOk};
ghost use Rattle.drain_verdict.specs.Given.{plain};
ghost use Rattle.drain_verdict.specs.GroundSets.{ForSet, ForTexts};
ghost use Rattle.drain_verdict.specs.Inputs.{Inputs, Encode};
ghost use Rattle.drain_verdict.specs.Answers.{IsAnswer, IsAnswerIn};
ghost use Rattle.drain_verdict.specs.Headline.{AcceptedMeans, IsRight, ProductsAreRight};
ghost use Rattle.drain_verdict.specs.Uses.{CheckUses, UsesSet, set_devices};

use crate::given::Given;
use crate::ground::GroundInput;
use crate::judgement::judge_on;
use drain_answer::Refusal;
use drain_device::ByteSource;
use drain_grid::laws::correct_from_rules;
use drain_grid::{Judged, Verdict};
use drain_hgt::TileInput;
use drain_sets::Products;
use std::alloc::Global;

/// The verdict on products of the tiles on unit spacing, or the first refusal.
///
/// `side` is the number of samples along an edge of each tile, from 2 to 3601. `sinks` lists inland sinks, a line `ROW
/// COL` each; empty lines don't count. Refusals come in this order, and rules are checked only if none applies:
/// `BadSide`; `BadName` with the place of the first bad name; `NoTiles`, `RepeatedTile`, `BoxTooLarge`; product by
/// product `BadHeader`, `WrongShape`, `Misplaced`; `BadTileLength` with the first such tile; `RasterShort` with the
/// first such product; `SeamMismatch` with the first such cell; `BadSinkLine` with the first such line, counted from 1;
/// `SinkNotData` with the first line whose cell is a void or outside the mosaic. `OutOfMemory` and `ReadFailed` may
/// come at any point; the latter exactly where a source failed or was interrupted for the 1,000th time. Of a tile at
/// most one byte past its end is read, of a raster nothing past its last needed byte.
///
/// The contract is about the bytes that the sources had left, for sources whose bytes are known.
pub fn check<R: ByteSource>(
    alloc: Global,
    side: u32,
    tiles: &mut [TileInput<R>],
    sinks: &[u8],
    products: &mut Products<R>,
) -> Result<Verdict, Refusal>
    // Unless memory ran out or a read failed, the answer is that of the bytes.
    ensures answer { (inputs : Inputs) → Encode R.bytes_left side tiles.old (plain sinks.now) products.old inputs → IsAnswer inputs result }

    // Whenever it accepts, the inputs are right: `IsRight` has a field for each sentence.
    ensures right { AcceptedMeans IsRight R.bytes_left side tiles.old (plain sinks.now) products.old result }

    // How far it reads, when a read fails, and what is unchanged.
    ensures uses { CheckUses R.bytes_left R.counts side (tiles.old, products.old) (tiles.new, products.new) result }
{
    check_on::<R, TileInput<R>>(alloc, &side, tiles, &Given::plain(sinks), products)
}

/// The verdict on products of a ground, or the first refusal.
///
/// `inputs` are tiles, and `key` the number of samples along an edge of each; or one raster of elevations, its header and
/// its body, without a key. `given` has the list of sinks of `check`, and says how far apart cells are: all alike, or by a
/// text with a line `WIDTH HEIGHT` for each row from the north, two whole numbers from 1 to 2^30; empty lines don't count.
/// Refusals are those of `check`, of a raster `BadDemHeader` and `BadPixelSize` first and `DemShort` in the place of
/// `BadTileLength`; and after them `BadSpacingLine` with the first bad line of such a text, counted from 1, and
/// `SpacingRows` with the number of its rows, if the ground has another number of them. Of a raster of elevations nothing
/// past the last needed byte is read.
pub fn check_on<R: ByteSource, T: GroundInput<R>>(
    alloc: Global,
    key: &T::Key,
    inputs: &mut [T],
    given: &Given,
    products: &mut Products<R>,
) -> Result<Verdict, Refusal>
    requires admitted { T.admits inputs.old }

    // Unless memory ran out or a read failed, the answer is that of the bytes.
    ensures answer { ForSet T.terrain (T.encodes key.now inputs.old) R.bytes_left given.now products.old (λ s. IsAnswerIn s result) }

    // If it gives a verdict, the elevations are those of the inputs.
    ensures elevation { IfOk result (λ verdict. ForTexts (T.encodes key.now inputs.old) R.bytes_left given.now products.old T.is_told) }

    // Whenever it accepts, the products are right: `ProductsAreRight` has a field for each sentence.
    ensures right { IfAccepted result (ForSet T.terrain (T.encodes key.now inputs.old) R.bytes_left given.now products.old ProductsAreRight) }

    // How far it reads, when a read fails, and what is unchanged.
    ensures uses { UsesSet (λ ps. ps) (λ xs ps. set_devices T.devices xs ps) (T.within key.now) T.kept R.bytes_left R.counts (inputs.old, products.old) (inputs.new, products.new) result }
{
    // The law that turns rules kept at every cell into correct products.
    correct_from_rules();
    let ranked = Judged::AllWithRanks;
    let judgement = judge_on::<R, T, Products<R>>(alloc, key, inputs, given, products, ranked)?;
    Ok(judgement.verdict)
}
