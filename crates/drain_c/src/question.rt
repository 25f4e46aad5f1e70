//! What is asked of the inputs of a call, and the answer to their bytes, over tiles or one raster of elevations.

ghost use Rattle.drain_c.specs.Names.{IfOk};
ghost use Rattle.drain_c.specs.Questions.{IsAnswerTo};

use crate::call::{Call, Elevations};
use crate::sources::{five_inputs, four_inputs, raster_input, tile_inputs};
use drain_device::{ByteSource, SliceSource};
use drain_grid::Judged;
use drain_hgt::TileInput;
use drain_verdict::audit_products::ProductInputs;
use drain_verdict::ground::GroundInput;
use drain_verdict::{AuditProducts, Given, Products, RasterInput, Refusal};
use std::alloc::Global;

/// A question about judged rasters of a ground.
pub trait Question {
    ghost use Rattle.drain_c.specs.Names.{IfOk, IsOutcomeIn, Judged, Outcome, GroundSet};
    ghost use Rattle.drain_c.specs.Questions.{outcome_by};
    ghost use Rattle.drain_verdict.specs.GroundSets.{ForSet};

    /// What is answered where there is no refusal.
    type Answer: Drop;

    /// The outcome in an answer.
    ghost outcome: { Self.Answer → Outcome };

    /// What else an answer says of the judged rasters of a set.
    ghost says: { Judged → GroundSet → Self.Answer → Type 0 };

    /// What holds of each answer.
    ghost holds: { Self.Answer → Type 0 };

    /// The answer, or the first refusal.
    fn answer<R: ByteSource, T: GroundInput<R>, P: ProductInputs<R>>(
        alloc: Global,
        key: &T::Key,
        inputs: &mut [T],
        given: &Given,
        products: &mut P,
        judged: Judged,
    ) -> Result<Self::Answer, Refusal>
        requires admitted { T.admits inputs.old }
        ensures answer { ForSet T.terrain (T.encodes key.now inputs.old) R.bytes_left given.now (P.inputs products.old) (λ s. IsOutcomeIn judged s (outcome_by outcome result)) }
        ensures says { IfOk result (λ a. ForSet T.terrain (T.encodes key.now inputs.old) R.bytes_left given.now (P.inputs products.old) (λ s. says judged s a)) }
        ensures holds { IfOk result holds };
}

/// The answer to the bytes of a call.
pub fn answer_to<'a, Q: Question>(alloc: Global, call: &Call<'a>) -> Result<Q::Answer, Refusal>
    ensures answer { IsAnswerTo call.now Q.outcome Q.says result }
    ensures holds { IfOk result Q.holds }
{
    let is_ranked = call.judged.has_rnk();
    let (given, judged) = (&call.given, call.judged);
    match &call.elevations {
        Elevations::Tiles { side, tiles } => {
            let mut owned = tile_inputs(alloc, tiles)?;
            let sources = owned.as_mut_slice();
            if is_ranked {
                let mut five = five_inputs(alloc, &call.rasters)?;
                return Q::answer(alloc, side, sources, given, &mut five, judged);
            }
            let mut four = four_inputs(alloc, judged, &call.rasters)?;
            Q::answer(alloc, side, sources, given, &mut four, judged)
        }
        Elevations::Dem(dem) => {
            let mut dem = [raster_input(alloc, dem)?];
            if is_ranked {
                let mut dem_five = five_inputs(alloc, &call.rasters)?;
                return Q::answer(alloc, &(), &mut dem, given, &mut dem_five, judged);
            }
            let mut dem_four = four_inputs(alloc, judged, &call.rasters)?;
            Q::answer(alloc, &(), &mut dem, given, &mut dem_four, judged)
        }
    }
}
