//! The answer to the bytes of a call, over tiles or one raster of elevations.

ghost use Rattle.std.specs.Prelude.{◌≡◌, ◌↔◌};
ghost use Rattle.drain_c.specs.Names.{false, IfOk, IsAcceptedOutcome, IsTrue, has_rnk, AreRightIn, IsOutcomeIn, ProductsAreRight};
ghost use Rattle.drain_c.specs.Calls.{OfCall};
ghost use Rattle.drain_c.specs.Given.{IsElevationTold, set_in};

use crate::call::Call;
use crate::question::{Question, answer_to};
use drain_device::ByteSource;
use drain_grid::Judged;
use drain_grid::laws::{correct_from_rules, correct_is_local};
use drain_laws::parts::{part_is_local, surface_is_part};
use drain_mosaic::laws::agreement_gives_elevation;
use drain_verdict::audit_products::ProductInputs;
use drain_verdict::ground::GroundInput;
use drain_verdict::{Given, Outcome, Refusal, audit_part_on};
use std::alloc::Global;

/// The outcome for the judged rasters, or the first refusal.
pub fn judge<'a>(alloc: Global, call: &Call<'a>) -> Result<Outcome, Refusal>
    ensures answer { OfCall call.now (λ i. IsOutcomeIn call.now.judged (set_in i) result) }

    // With an outcome it is known where the elevations come from. It accepts exactly if the judged rasters are right, or,
    // with ranks, only if they are.
    ensures elevation { IfOk result (λ outcome. OfCall call.now IsElevationTold) }
    ensures exactly { has_rnk call.now.judged ≡ false → IfOk result (λ outcome. OfCall call.now (λ i. IsAcceptedOutcome outcome ↔ AreRightIn call.now.judged (set_in i))) }
    ensures right { IsTrue (has_rnk call.now.judged) → IfOk result (λ outcome. IsAcceptedOutcome outcome → OfCall call.now (λ i. ProductsAreRight (set_in i))) }
{
    // The laws that an acceptance and the elevations rest on.
    correct_is_local();
    part_is_local();
    surface_is_part();
    correct_from_rules();
    agreement_gives_elevation();
    answer_to::<Judging>(alloc, call)
}

/// The question for an outcome alone.
struct Judging;

impl Question for Judging {
    type Answer = Outcome;

    ghost outcome = { λ outcome. outcome };

    ghost says = { λ judged s outcome. Unit {0} };

    ghost holds = { λ outcome. Unit {0} };

    fn answer<R: ByteSource, T: GroundInput<R>, P: ProductInputs<R>>(
        alloc: Global,
        key: &T::Key,
        inputs: &mut [T],
        given: &Given,
        products: &mut P,
        judged: Judged,
    ) -> Result<Outcome, Refusal> {
        audit_part_on::<R, T, P>(alloc, key, inputs, given, products, judged)
    }
}
