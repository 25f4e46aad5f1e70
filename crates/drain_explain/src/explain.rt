//! What is said of judged rasters, with what explains it.

ghost use Rattle.std.specs.Prelude.{◌≡◌, ◌↔◌};
ghost use Rattle.drain_explain.specs.Names.{IfOk, IfSome, IsSome, ForSet, ForTexts, IsOutcomeIn, set_devices, UsesSet};
ghost use Rattle.drain_explain.specs.Explanations.{AreFindingsIn, IsEndlessIn, answer_in};
ghost use Rattle.drain_explain.specs.Slopes.{slopes_of};
ghost use Rattle.drain_explain.specs.declared.fault_visitor.Mapping.TheVariants.{Drawn};

use crate::fault_visitor::Mapping;
use crate::findings::{Explanation, findings_of};
use crate::seen::see;
use crate::slopes::slopes_of;
use drain_answer::Refusal;
use drain_device::ByteSource;
use drain_grid::Judged;
use drain_verdict::Given;
use drain_verdict::audit_products::ProductInputs;
use drain_verdict::ground::GroundInput;
use std::alloc::Global;

/// The outcome for these rasters of a ground with its explanation, or its refusal: with ranks that of `check_on`, without
/// that of `audit_part_on`.
///
/// It reads what they read, in the same order, and has the same refusals. It scans all rows, where they stop looking at
/// rules, so it takes longer on rejected products. Memory is theirs, and a byte a cell more for a map; `OutOfMemory` may
/// come where they find memory. If the outcome is `NoEnd`, it says where the path leads: to a ring, or a cell that leads
/// nowhere; a check names no path.
pub fn explain_on<R: ByteSource, T: GroundInput<R>, P: ProductInputs<R>>(
    alloc: Global,
    key: &T::Key,
    inputs: &mut [T],
    given: &Given,
    products: &mut P,
    judged: Judged,
    mapping: Mapping,
) -> Result<Explanation<T::Frame>, Refusal>
    requires admitted { T.admits inputs.old }

    // The answer is that of a check or an audit of these rasters.
    ensures answer { ForSet T.terrain (T.encodes key.now inputs.old) R.bytes_left given.now (P.inputs products.old) (λ s. IsOutcomeIn judged s (answer_in result)) }

    // For an outcome, what every cell showed, with a map if one is required; where the path without an end leads; and the
    // ground's frame.
    ensures explained { IfOk result (λ e. ForSet T.terrain (T.encodes key.now inputs.old) R.bytes_left given.now (P.inputs products.old) (λ s. AreFindingsIn judged s e.findings)) }
    ensures endless { IfOk result (λ e. ForSet T.terrain (T.encodes key.now inputs.old) R.bytes_left given.now (P.inputs products.old) (λ s. IfSome e.findings.endless (IsEndlessIn s e.outcome))) }
    ensures drawn { IfOk result (λ e. IsSome e.findings.map ↔ (mapping ≡ Drawn)) }
    ensures frame { IfOk result (λ e. T.fit e.findings.layout inputs.old) }
    ensures keyed { IfOk result (λ e. T.key_of e.findings.layout ≡ key.now) }
    ensures slopes { IfOk result (λ e. e.findings.slopes ≡ slopes_of given.now.spacing) }

    // The elevations are those of the inputs.
    ensures elevation { IfOk result (λ e. ForTexts (T.encodes key.now inputs.old) R.bytes_left given.now (P.inputs products.old) T.is_told) }

    // How far it reads, when a read fails, and what is unchanged: as for a check or an audit.
    ensures uses { UsesSet P.inputs (λ xs ps. set_devices T.devices xs (P.inputs ps)) (T.within key.now) T.kept R.bytes_left R.counts (inputs.old, products.old) (inputs.new, products.new) result }
{
    // The laws of what the inputs mean and of what is read of them.
    T::meaning_laws();
    T::reading_laws();
    let frame = T::frame(alloc, key, inputs)?;
    let seen = see::<R, T, P>(alloc, &frame, given, inputs, products, judged, mapping)?;
    Ok(Explanation {
        outcome: seen.outcome,
        findings: findings_of(frame, seen.notes, seen.endless, slopes_of(given)),
    })
}
