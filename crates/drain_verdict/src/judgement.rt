//! From the bytes of inputs to what the rules and what decides besides say of the judged rasters.

ghost use Rattle.std.specs.Prelude.{◌≡◌, IfOk};
ghost use Rattle.drain_grid.specs.Grid as grid;
ghost use Rattle.drain_grid.specs.Grid.{Grid};
ghost use Rattle.drain_grid.specs.declared.judged.Rules as declared;
ghost use Rattle.drain_verdict.specs.Deciding.{AreFlowsFor};
ghost use Rattle.drain_verdict.specs.GroundSets.{AreNotesIn, ForSet, ForTexts, set_grid, set_products};
ghost use Rattle.drain_verdict.specs.Uses.{set_devices, UsesSet};
ghost use Rattle.drain_verdict.specs.Judgements.{IsJudgementIn};

use crate::audit_products::ProductInputs;
use crate::decider::{Decider, RanksDecide};
use crate::given::Given;
use crate::ground::GroundInput;
use crate::read_set::read_set;
use drain_answer::Refusal;
use drain_basin::OutletLabels;
use drain_device::ByteSource;
use drain_filled::ConRows;
use drain_grid::{Cell, Judged, OutOfMemory, Verdict};
use drain_paths::CellFlows;
use drain_rows::{BothVisitors, VerdictVisitor};
use drain_rules::Walk;
use std::alloc::Global;

/// The verdict of the rules about judged rasters, the cell that decides against these whatever the rules say, the flow
/// of each cell if directions decide, and the walk that has seen every row.
#[derive(Drop)]
pub struct Judgement<W> {
    pub verdict: Verdict,
    pub cell: Option<Cell>,
    pub flows: CellFlows,
    pub walk: W,
}

/// Judges these inputs by the walk that stops at the first fault. See `check` for the order of refusals.
pub(crate) fn judge_on<R: ByteSource, T: GroundInput<R>, P: ProductInputs<R>>(
    alloc: Global,
    key: &T::Key,
    inputs: &mut [T],
    given: &Given,
    products: &mut P,
    judged: Judged,
) -> Result<Judgement<Walk<OutletLabels>>, Refusal>
    requires admitted { T.admits inputs.old }
    ensures answer { ForSet T.terrain (T.encodes key.now inputs.old) R.bytes_left given.now (P.inputs products.old) (λ s. IsJudgementIn judged s result) }
    ensures elevation { IfOk result (λ judgement. ForTexts (T.encodes key.now inputs.old) R.bytes_left given.now (P.inputs products.old) T.is_told) }
    ensures uses { UsesSet P.inputs (λ xs ps. set_devices T.devices xs (P.inputs ps)) (T.within key.now) T.kept R.bytes_left R.counts (inputs.old, products.old) (inputs.new, products.new) result }
{
    // The laws of what the inputs mean and of what is read of them.
    T::meaning_laws();
    T::reading_laws();
    let frame = T::frame(alloc, key, inputs)?;
    let walk = Walk::new(alloc);
    judge_set::<R, T, P, Walk<OutletLabels>>(alloc, &frame, given, inputs, products, judged, walk)
}

/// Judges a ground with this frame from these inputs, or returns the first refusal: the headers of its products, the bytes
/// of the inputs and of rasters, a list of sinks and a spacing by row. The walk sees each row of the grid, and gives the
/// verdict of the rules.
///
/// Of con alone the filled surface decides besides, of rasters with directions the paths, and with ranks nothing. See
/// `check` for the order of refusals, and for how far it reads.
pub fn judge_set<R: ByteSource, T: GroundInput<R>, P: ProductInputs<R>, W: VerdictVisitor + Drop>(
    alloc: Global,
    frame: &T::Frame,
    given: &Given,
    inputs: &mut [T],
    products: &mut P,
    judged: Judged,
    walk: W,
) -> Result<Judgement<W>, Refusal>
    requires fit { T.fit frame.now inputs.old }
    requires uncounted { W.counts 0 walk }
    requires unnoted { (rules : declared.Rules) (g : Grid) (ps : grid.Products) → W.are_of rules g ps 0 walk }
    ensures answer { ForSet T.terrain (T.encodes (T.key_of frame.now) inputs.old) R.bytes_left given.now (P.inputs products.old) (λ s. IsJudgementIn judged s result) }
    ensures lasting { IfOk result (λ judgement. W.lasting judgement.walk ≡ W.lasting walk) }
    ensures noted { IfOk result (λ judgement. ForSet T.terrain (T.encodes (T.key_of frame.now) inputs.old) R.bytes_left given.now (P.inputs products.old) (λ s. AreNotesIn W.are_of judged s judgement.walk)) }
    ensures flows { IfOk result (λ judgement. ForSet T.terrain (T.encodes (T.key_of frame.now) inputs.old) R.bytes_left given.now (P.inputs products.old)
        (λ s. AreFlowsFor judged (set_grid s) (set_products s) (T.extent frame.now) judgement.flows)) }
    ensures uses { UsesSet P.inputs (λ xs ps. set_devices T.devices xs (P.inputs ps)) (T.within (T.key_of frame.now)) T.kept R.bytes_left R.counts (inputs.old, products.old) (inputs.new, products.new) result }
{
    match judged {
        Judged::Con => {
            judge_by::<R, T, P, ConRows, W>(alloc, frame, given, inputs, products, judged, walk)
        }
        Judged::ConDir | Judged::ConDirAcc | Judged::ConDirBas | Judged::All => {
            judge_by::<R, T, P, CellFlows, W>(alloc, frame, given, inputs, products, judged, walk)
        }
        Judged::AllWithRanks => {
            judge_by::<R, T, P, RanksDecide, W>(alloc, frame, given, inputs, products, judged, walk)
        }
    }
}

/// Judges by this decider.
fn judge_by<
    R: ByteSource,
    T: GroundInput<R>,
    P: ProductInputs<R>,
    D: Decider + Drop,
    W: VerdictVisitor + Drop,
>(
    alloc: Global,
    frame: &T::Frame,
    given: &Given,
    inputs: &mut [T],
    products: &mut P,
    judged: Judged,
    walk: W,
) -> Result<Judgement<W>, Refusal>
    requires decides { D.decides judged }
    requires fit { T.fit frame.now inputs.old }
    requires uncounted { W.counts 0 walk }
    requires unnoted { (rules : declared.Rules) (g : Grid) (ps : grid.Products) → W.are_of rules g ps 0 walk }
    ensures answer { ForSet T.terrain (T.encodes (T.key_of frame.now) inputs.old) R.bytes_left given.now (P.inputs products.old) (λ s. IsJudgementIn judged s result) }
    ensures lasting { IfOk result (λ judgement. W.lasting judgement.walk ≡ W.lasting walk) }
    ensures noted { IfOk result (λ judgement. ForSet T.terrain (T.encodes (T.key_of frame.now) inputs.old) R.bytes_left given.now (P.inputs products.old) (λ s. AreNotesIn W.are_of judged s judgement.walk)) }
    ensures flows { IfOk result (λ judgement. ForSet T.terrain (T.encodes (T.key_of frame.now) inputs.old) R.bytes_left given.now (P.inputs products.old)
        (λ s. D.leave (set_grid s) (set_products s) (T.extent frame.now) judgement.flows)) }
    ensures uses { UsesSet P.inputs (λ xs ps. set_devices T.devices xs (P.inputs ps)) (T.within (T.key_of frame.now)) T.kept R.bytes_left R.counts (inputs.old, products.old) (inputs.new, products.new) result }
{
    // The laws of what the inputs mean.
    T::meaning_laws();
    let mut both = BothVisitors {
        first: D::begin(alloc),
        second: walk,
    };
    let listing = read_set::<R, T, P, BothVisitors<D, W>>(
        alloc, frame, given, inputs, products, judged, &mut both,
    )?;
    let shape = T::shape(frame);
    let verdict = both.second.verdict(shape);
    let BothVisitors {
        first: decider,
        second: walk,
    } = both;
    match decider.decide(alloc, shape, &listing.sinks.sinks, judged, &verdict) {
        Ok(decided) => Ok(Judgement {
            verdict,
            cell: decided.cell,
            flows: decided.flows,
            walk,
        }),
        Err(OutOfMemory) => Err(Refusal::OutOfMemory),
    }
}
