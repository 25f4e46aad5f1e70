//! The answer to the bytes of a call with what explains it, over tiles or one raster of elevations.

ghost use Rattle.std.specs.Prelude.{◌≡◌};
ghost use Rattle.drain_c.specs.Names.{IfOk, IsSome, IsOutcomeIn};
ghost use Rattle.drain_c.specs.Calls.{OfCall};
ghost use Rattle.drain_c.specs.Explained.{AreFoundIn, explained_of, outcome_in};
ghost use Rattle.drain_c.specs.Given.{IsElevationTold, set_in};

use crate::call::Call;
use crate::question::{Question, answer_to};
use drain_device::ByteSource;
use drain_explain::{Explanation, Mapping, explain_on};
use drain_faults::{FaultMap, PerRule, RuleFaults};
use drain_grid::Judged;
use drain_mosaic::laws::agreement_gives_elevation;
use drain_verdict::audit_products::ProductInputs;
use drain_verdict::ground::GroundInput;
use drain_verdict::{Given, Outcome, Refusal};
use std::alloc::Global;

/// An outcome with the cells at which each rule fails, and a map.
#[derive(Drop)]
pub struct Explained {
    pub outcome: Outcome,
    pub by_rule: PerRule<RuleFaults>,
    pub map: Option<FaultMap>,
}

/// The outcome for the judged rasters with what explains it, or the first refusal.
pub fn explain<'a>(alloc: Global, call: &Call<'a>) -> Result<Explained, Refusal>
    ensures answer { OfCall call.now (λ i. IsOutcomeIn call.now.judged (set_in i) (outcome_in result)) }
    ensures elevation { IfOk result (λ e. OfCall call.now IsElevationTold) }
    ensures explained { IfOk result (λ e. OfCall call.now (λ i. AreFoundIn call.now.judged (set_in i) e)) }
    ensures drawn { IfOk result (λ e. IsSome e.map) }
{
    // The law that the elevations rest on.
    agreement_gives_elevation();
    answer_to::<Explaining>(alloc, call)
}

/// The question for an outcome with what explains it, and a map.
struct Explaining;

impl Question for Explaining {
    ghost use Rattle.drain_c.specs.Names.{IsSome};
    ghost use Rattle.drain_c.specs.Explained.{AreFoundIn};

    type Answer = Explained;

    ghost outcome = { λ e. e.outcome };

    ghost says = { AreFoundIn };

    ghost holds = { λ e. IsSome e.map };

    fn answer<R: ByteSource, T: GroundInput<R>, P: ProductInputs<R>>(
        alloc: Global,
        key: &T::Key,
        inputs: &mut [T],
        given: &Given,
        products: &mut P,
        judged: Judged,
    ) -> Result<Explained, Refusal> {
        let drawn = Mapping::Drawn;
        explained_of(explain_on::<R, T, P>(alloc, key, inputs, given, products, judged, drawn))
    }
}

/// An explanation without what C isn't told.
fn explained_of<F: Drop>(explanation: Result<Explanation<F>, Refusal>) -> Result<Explained, Refusal>
    ensures { result ≡ explained_of explanation }
{
    match explanation {
        Ok(Explanation { outcome, findings }) => Ok(Explained {
            outcome,
            by_rule: findings.by_rule,
            map: findings.map,
        }),
        Err(refusal) => Err(refusal),
    }
}
