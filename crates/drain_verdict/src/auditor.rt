//! The audit of products without a certificate, against the tiles or the raster of elevations that they were made from.
//!
//! It reads the rows of all inputs once, checks the rules that ignore ranks, and keeps the direction of each cell, in a
//! byte. After the last row it looks which paths end, but only if a rule failed: if none did, all end. That this
//! separates correct products from all others is a law of `drain_grid`.

ghost use Rattle.std.specs.Prelude.{◌↔◌, IfOk};
ghost use Rattle.drain_verdict.specs.Answers.{AreCorrect, AreCorrectIn, AuditMeans, ForAudit, IfAccepts, IsAcceptance, IsAuditAnswer, IsAuditIn};
ghost use Rattle.drain_verdict.specs.Given.{plain};
ghost use Rattle.drain_verdict.specs.GroundSets.{ForSet, ForTexts};
ghost use Rattle.drain_verdict.specs.Headline.{IsRight, ProductsAreRight, TilesAreOne, ElevationIsTheirs};
ghost use Rattle.drain_verdict.specs.Uses.{AuditUses, UsesSet, set_devices};

use crate::audit_products::ProductInputs;
use crate::given::Given;
use crate::ground::GroundInput;
use crate::judgement::judge_on;
use crate::outcome::verdict_of_both;
use drain_answer::{AuditVerdict, Refusal};
use drain_device::ByteSource;
use drain_grid::Judged;
use drain_grid::laws::{correct_is_local, ranks_play_no_part, sound_from_correct};
use drain_hgt::TileInput;
use drain_sets::AuditProducts;
use std::alloc::Global;

/// Whether the four products of the tiles are correct on unit spacing, or the first refusal.
///
/// `side`, `tiles` and `sinks` are those of `check`, and so are the refusals, of con, dir, acc and bas in this order.
/// If none applies: `NoEnd` with the first data cell in row order whose path reaches no code 0, as it meets a number
/// that is no code, goes round, or leads off the grid or into a void; else `Rejected` with the first fault of the
/// rules, with the numbers of steps of paths for ranks; else `Accepted`. The tool that made the products is not
/// trusted: a rejection means that they aren't correct. Memory: a byte for each cell of the mosaic, the labels of
/// outlets and three rows.
pub fn audit<R: ByteSource>(
    alloc: Global,
    side: u32,
    tiles: &mut [TileInput<R>],
    sinks: &[u8],
    products: &mut AuditProducts<R>,
) -> Result<AuditVerdict, Refusal>
    // Unless memory ran out or a read failed, the answer is that of the bytes.
    ensures answer { ForAudit R.bytes_left side tiles.old (plain sinks.now) products.old (λ inputs. IsAuditAnswer inputs result) }

    // If it gives a verdict, the tiles agree on one elevation raster, and it accepts exactly correct products.
    ensures tiles_agree { IfOk result (λ verdict. ForAudit R.bytes_left side tiles.old (plain sinks.now) products.old TilesAreOne) }
    ensures elevation { IfOk result (λ verdict. ForAudit R.bytes_left side tiles.old (plain sinks.now) products.old ElevationIsTheirs) }
    ensures exactly { IfOk result (λ verdict. ForAudit R.bytes_left side tiles.old (plain sinks.now) products.old (λ inputs. IsAcceptance verdict ↔ AreCorrect inputs)) }

    // Whenever it accepts, the inputs are right: `IsRight` has a field for each sentence.
    ensures right { AuditMeans IsRight R.bytes_left side tiles.old (plain sinks.now) products.old result }

    // How far it reads, when a read fails, and what is unchanged.
    ensures uses { AuditUses R.bytes_left R.counts side (tiles.old, products.old) (tiles.new, products.new) result }
{
    let given = Given::plain(sinks);
    audit_on::<R, TileInput<R>, AuditProducts<R>>(alloc, &side, tiles, &given, products)
}

/// Whether products of a ground are correct whatever their ranks, or the first refusal.
///
/// `key` and `inputs` are those of the ground, `given` and refusals those of `check_on`, and the answer without a refusal is
/// that of `audit`.
pub fn audit_on<R: ByteSource, T: GroundInput<R>, P: ProductInputs<R>>(
    alloc: Global,
    key: &T::Key,
    inputs: &mut [T],
    given: &Given,
    products: &mut P,
) -> Result<AuditVerdict, Refusal>
    requires admitted { T.admits inputs.old }

    // Unless memory ran out or a read failed, the answer is that of the bytes.
    ensures answer { ForSet T.terrain (T.encodes key.now inputs.old) R.bytes_left given.now (P.inputs products.old) (λ s. IsAuditIn s result) }

    // If it gives a verdict, the elevations are those of the inputs, and it accepts exactly correct products.
    ensures elevation { IfOk result (λ verdict. ForTexts (T.encodes key.now inputs.old) R.bytes_left given.now (P.inputs products.old) T.is_told) }
    ensures exactly { IfOk result (λ verdict. ForSet T.terrain (T.encodes key.now inputs.old) R.bytes_left given.now (P.inputs products.old) (λ s. IsAcceptance verdict ↔ AreCorrectIn s)) }

    // Whenever it accepts, the products are right: `ProductsAreRight` has a field for each sentence.
    ensures right { IfAccepts result (ForSet T.terrain (T.encodes key.now inputs.old) R.bytes_left given.now (P.inputs products.old) ProductsAreRight) }

    // How far it reads, when a read fails, and what is unchanged.
    ensures uses { UsesSet P.inputs (λ xs ps. set_devices T.devices xs (P.inputs ps)) (T.within key.now) T.kept R.bytes_left R.counts (inputs.old, products.old) (inputs.new, products.new) result }
{
    // The laws that an audit rests on.
    correct_is_local();
    ranks_play_no_part();
    sound_from_correct();
    let judgement = judge_on::<R, T, P>(alloc, key, inputs, given, products, Judged::All)?;
    Ok(verdict_of_both(&judgement.verdict, judgement.cell))
}
