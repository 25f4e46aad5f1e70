//! What is seen of a ground and its products, whatever gives the elevations.

ghost use Rattle.std.specs.Prelude.{◌≡◌, ◌<◌, ◌↔◌};
ghost use Rattle.drain_explain.specs.Names.{IfOk, IfSome, IsSome, AreNotesIn, ForSet, set_grid, IsOutcomeIn, set_devices, UsesSet};
ghost use Rattle.drain_explain.specs.Explanations.{AreFaultNotes, IsEndlessIn, outcome_in};
ghost use Rattle.drain_explain.specs.declared.fault_visitor.Mapping.TheVariants.{Drawn};

use crate::fault_visitor::{FaultVisitor, Mapping};
use crate::findings::endless_of;
use drain_answer::{Outcome, Refusal};
use drain_device::ByteSource;
use drain_grid::{Cell, Judged, OutOfMemory};
use drain_paths::EndlessPath;
use drain_verdict::Given;
use drain_verdict::audit_products::ProductInputs;
use drain_verdict::ground::GroundInput;
use drain_verdict::judgement::judge_set;
use drain_verdict::outcome::outcome_of;
use std::alloc::Global;

/// The outcome for judged rasters, the notes of every row, and without ranks the first data cell whose path doesn't end
/// with where its path leads.
#[derive(Drop)]
pub struct Seen {
    pub outcome: Outcome,
    pub notes: FaultVisitor,
    pub endless: Option<(Cell, EndlessPath)>,
}

/// Scans all rows of a ground with this frame and of its products, or returns the first refusal.
pub fn see<R: ByteSource, T: GroundInput<R>, P: ProductInputs<R>>(
    alloc: Global,
    frame: &T::Frame,
    given: &Given,
    inputs: &mut [T],
    products: &mut P,
    judged: Judged,
    mapping: Mapping,
) -> Result<Seen, Refusal>
    requires fit { T.fit frame.now inputs.old }
    ensures answer { ForSet T.terrain (T.encodes (T.key_of frame.now) inputs.old) R.bytes_left given.now (P.inputs products.old) (λ s. IsOutcomeIn judged s (outcome_in result)) }
    ensures noted { IfOk result (λ seen. ForSet T.terrain (T.encodes (T.key_of frame.now) inputs.old) R.bytes_left given.now (P.inputs products.old)
        (λ s. (0 < (set_grid s).extent.rows) × AreNotesIn AreFaultNotes judged s seen.notes)) }
    ensures endless { IfOk result (λ seen. ForSet T.terrain (T.encodes (T.key_of frame.now) inputs.old) R.bytes_left given.now (P.inputs products.old)
        (λ s. IfSome seen.endless (IsEndlessIn s seen.outcome))) }
    ensures drawn { IfOk result (λ seen. IsSome seen.notes.walk.map ↔ (mapping ≡ Drawn)) }
    ensures uses { UsesSet P.inputs (λ xs ps. set_devices T.devices xs (P.inputs ps)) (T.within (T.key_of frame.now)) T.kept R.bytes_left R.counts (inputs.old, products.old) (inputs.new, products.new) result }
{
    // The laws of what is read.
    T::reading_laws();
    let shape = T::shape(frame);
    let walk = match FaultVisitor::new(alloc, shape, mapping, judged) {
        Ok(walk) => walk,
        Err(OutOfMemory) => return Err(Refusal::OutOfMemory),
    };
    let judgement = judge_set::<R, T, P, FaultVisitor>(
        alloc, frame, given, inputs, products, judged, walk,
    )?;
    let outcome = outcome_of(judged, &judgement.verdict, judgement.cell);
    let endless = match endless_of(alloc, &judgement.flows, shape, &outcome) {
        Ok(endless) => endless,
        Err(OutOfMemory) => return Err(Refusal::OutOfMemory),
    };
    Ok(Seen {
        outcome,
        notes: judgement.walk,
        endless,
    })
}
