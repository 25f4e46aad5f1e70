//! The audit of some rasters against the tiles or the raster of elevations that they were made from.

ghost use Rattle.std.specs.Prelude.{◌≡◌, ◌↔◌};
ghost use Rattle.drain_verdict.specs.Names.{false, IfOk, IsAcceptedOutcome, has_rnk};
ghost use Rattle.drain_verdict.specs.GroundSets.{ForSet, ForTexts};
ghost use Rattle.drain_verdict.specs.Outcomes.{AreRightIn, IsOutcomeIn};
ghost use Rattle.drain_verdict.specs.Uses.{UsesSet, set_devices};

use crate::audit_products::ProductInputs;
use crate::given::Given;
use crate::ground::GroundInput;
use crate::judgement::judge_on;
use crate::outcome::outcome_of;
use drain_answer::{Outcome, Refusal};
use drain_device::ByteSource;
use drain_grid::Judged;
use drain_grid::laws::correct_is_local;
use drain_laws::parts::{part_is_local, surface_is_part};
use std::alloc::Global;

/// Whether judged rasters of a ground are right, or the first refusal: some are if they are part of a correct set.
///
/// `key` and `inputs` are those of the ground, `given` and refusals those of an audit, of the judged rasters in their order.
/// Of a raster that isn't judged no number matters; it may be a source of ones, a byte for each cell. If no refusal applies:
/// `NoEnd` with the first data cell in row order whose path reaches no code 0, if directions are judged; else `Rejected`
/// with the first fault of the rules about the judged rasters; of con alone `NotFilled` with the first cell where it is
/// below the filled surface; else an acceptance. Memory: a byte for each cell, the labels of outlets and three rows; of
/// con alone the elevations, con and a flood. Of con alone lanes clear no cell where dir is 0, which costs time.
pub fn audit_part_on<R: ByteSource, T: GroundInput<R>, P: ProductInputs<R>>(
    alloc: Global,
    key: &T::Key,
    inputs: &mut [T],
    given: &Given,
    products: &mut P,
    judged: Judged,
) -> Result<Outcome, Refusal>
    requires admitted { T.admits inputs.old }

    // Unless memory ran out or a read failed, the answer is that of the bytes.
    ensures answer { ForSet T.terrain (T.encodes key.now inputs.old) R.bytes_left given.now (P.inputs products.old) (λ s. IsOutcomeIn judged s result) }

    // If it gives an outcome, the elevations are those of the inputs, and it accepts exactly if the judged rasters are right;
    // ranks are none of these.
    ensures elevation { IfOk result (λ outcome. ForTexts (T.encodes key.now inputs.old) R.bytes_left given.now (P.inputs products.old) T.is_told) }
    ensures exactly { has_rnk judged ≡ false → IfOk result (λ outcome. ForSet T.terrain (T.encodes key.now inputs.old) R.bytes_left given.now (P.inputs products.old) (λ s. IsAcceptedOutcome outcome ↔ AreRightIn judged s)) }

    // How far it reads, when a read fails, and what is unchanged.
    ensures uses { UsesSet P.inputs (λ xs ps. set_devices T.devices xs (P.inputs ps)) (T.within key.now) T.kept R.bytes_left R.counts (inputs.old, products.old) (inputs.new, products.new) result }
{
    // The laws that an acceptance rests on.
    correct_is_local();
    part_is_local();
    surface_is_part();
    let judgement = judge_on::<R, T, P>(alloc, key, inputs, given, products, judged)?;
    Ok(outcome_of(judged, &judgement.verdict, judgement.cell))
}
