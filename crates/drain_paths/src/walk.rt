//! The walk along a path, from a cell to the first one that is known, and back.

ghost use Rattle.std.specs.Prelude.{◌≡◌, ◌*◌, ◌≢◌, ◌<◌, ◌≤◌};
ghost use Rattle.drain_paths.specs.Names.{IfOk, length, vec_len, IfErr, MatchOption, slice_index_or, IfSome, run_steps, IsFirstEndless, IsCellOf, index_of, Grid, Products, HasData, RunEnds, Cell};
ghost use Rattle.drain_paths.specs.Walks.{first_step, first_steps_of, AreRunSteps, AreKnownFlows, IsAhead};
ghost use Rattle.drain_paths.specs.Ways.{IsRankRefusal};
ghost use Rattle.drain_paths.specs.Flows.{OfFlows, flow_at};
ghost use Rattle.drain_paths.specs.declared.flow.Flow.TheVariants.{Void};
ghost use Rattle.drain_paths.specs.CellNumbers.{cell_number, AreNumbers, AreNumbersSoFar};

use crate::cell_flows::CellFlows;
use crate::cell_numbers::{PathNumber, number_at, put_at};
use crate::flow::{CertifyRefusal, Flow, Way};
use crate::ways::{ListedFlows, Ways, next_of, way_of};
use drain_grid::{Cell, OutOfMemory, Shape};
use std::alloc::Global;

/// 0 at outlets, and no number at any other cell.
pub(crate) fn first_steps(alloc: Global, flows: &[Flow]) -> Result<Vec<u32>, OutOfMemory>
    ensures { IfOk result (λ steps. steps.items ≡ first_steps_of flows.now) }
{
    let mut steps = vec![in alloc; UNKNOWN; flows.len()]?;
    for place in 0..flows.len() {
        steps[place] = first_step(flows[place]);
    }
    Ok(steps)
}

/// The same at one cell.
fn first_step(flow: Flow) -> u32
    ensures { result ≡ first_step flow }
{
    if flow == Flow::Ends { 0 } else { UNKNOWN }
}

/// Marks a number that is not known. No run makes that many steps.
pub const UNKNOWN: u32 = u32::MAX;

/// The number of steps of each data cell's run, from the flows of all cells of a grid; `UNKNOWN` at voids.
///
/// Returns `NoEnd` with the first data cell in row order whose run doesn't reach a code 0, exactly if there is one, and
/// `OutOfMemory` if memory runs out. Walks pass each cell at most twice. It takes four bytes per cell.
pub fn count_steps(alloc: Global, flows: &[Flow], shape: Shape) -> Result<Vec<u32>, CertifyRefusal>
    requires counted { length flows.now ≡ shape.rows * shape.cols }
    ensures counted { IfOk result (λ steps. vec_len steps ≡ shape.rows * shape.cols) }
    ensures steps { IfOk result (λ steps. OfFlows shape flows.now (λ g ps. AreRunSteps g ps shape steps.items)) }
    ensures err { IfErr result (λ why. OfFlows shape flows.now (λ g ps. IsRankRefusal g ps why)) }
{
    let Ok(mut steps) = first_steps(alloc, flows) else {
        return Err(CertifyRefusal::OutOfMemory);
    };
    let ways = ListedFlows { flows };
    match number_paths::<RunSteps, ListedFlows>(&ways, shape, &mut steps) {
        Some(cell) => Err(CertifyRefusal::NoEnd(cell)),
        None => Ok(steps),
    }
}

/// A number of steps: one more for each step before.
struct RunSteps;

impl PathNumber for RunSteps {
    const UNKNOWN: u32 = UNKNOWN;

    ghost use Rattle.drain_paths.specs.declared.walk.TheConstants as constant;

    ghost UNKNOWN = { constant.UNKNOWN };

    ghost number_of = { run_steps };

    #[inline(always)]
    fn behind(number: u32, steps: usize) -> u32 {
        // A run that ends makes fewer steps than there are cells: the sum fits.
        number.saturating_add(steps as u32)
    }
}

/// How many steps lead from a data cell to one whose run is known to end, none if its own run doesn't end. Codes that
/// go round are found by the length of the walk: a run that ends makes fewer steps than there are cells.
pub fn steps_to_end(flows: &CellFlows, shape: Shape, start: Cell) -> Option<usize>
    requires counted { length flows.now ≡ shape.rows * shape.cols }
    requires inside { IsCellOf shape start }
    ensures { (g : Grid) → (ps : Products) → AreKnownFlows g ps shape flows.now → HasData g start →
        MatchOption result (¬ RunEnds g ps start) (λ _. RunEnds g ps start) }
{
    let mut here = start;
    for walked in 0..shape.cells() + 1 {
        match way_of(flows, shape, here) {
            Way::Ends => return Some(walked),
            Way::On(next) => here = next,
            Way::Lost => return None,
        }
    }
    None
}

/// Records, for n cells along the walk from a cell whose run ends, that their runs end.
pub fn put_ends(flows: &mut CellFlows, shape: Shape, start: Cell, steps: usize)
    requires counted { length flows.old ≡ shape.rows * shape.cols }
    requires inside { IsCellOf shape start }
    ensures counted { length flows.new ≡ shape.rows * shape.cols }
    ensures known { (g : Grid) → (ps : Products) → AreKnownFlows g ps shape flows.old → HasData g start → RunEnds g ps start →
        AreKnownFlows g ps shape flows.new }
{
    let mut here = start;
    for _ in 0..steps {
        match way_of(flows, shape, here) {
            Way::On(next) => {
                flows.set_ended(shape.index(here));
                here = next;
            }
            _ => return,
        }
    }
}

/// Numbers all data cells, from the numbers of the outlets. Returns the first data cell in row order whose run doesn't
/// end, if there is one. Walks pass each cell at most twice, and no memory is taken.
#[inline(always)]
pub(crate) fn number_paths<N: PathNumber, W: Ways>(
    ways: &W,
    shape: Shape,
    numbers: &mut [u32],
) -> Option<Cell>
    requires counted { length (W.flows ways.now) ≡ shape.rows * shape.cols }
    requires numbers_counted { length numbers.old ≡ shape.rows * shape.cols }
    requires so_far { OfFlows shape (W.flows ways.now) (λ g ps. AreNumbersSoFar g ps shape N.UNKNOWN N.number_of numbers.old) }
    ensures { MatchOption result
        (OfFlows shape (W.flows ways.now) (λ g ps. AreNumbers g ps shape N.UNKNOWN N.number_of numbers.new))
        (λ c. OfFlows shape (W.flows ways.now) (λ g ps. IsFirstEndless g ps c)) }
{
    for place in 0..shape.cells() {
        if let Some(cell) = number_from::<N, W>(ways, shape, numbers, place) {
            return Some(cell);
        }
    }
    None
}

/// Numbers the cell with this many cells before it, and those on its way, if it has data and no number yet. Returns the
/// cell if its run doesn't end.
fn number_from<N: PathNumber, W: Ways>(
    ways: &W,
    shape: Shape,
    numbers: &mut [u32],
    place: usize,
) -> Option<Cell>
    requires counted { length (W.flows ways.now) ≡ shape.rows * shape.cols }
    requires numbers_counted { length numbers.old ≡ shape.rows * shape.cols }
    requires inside { place < shape.rows * shape.cols }
    requires so_far { OfFlows shape (W.flows ways.now) (λ g ps. AreNumbersSoFar g ps shape N.UNKNOWN N.number_of numbers.old) }
    ensures so_far { OfFlows shape (W.flows ways.now) (λ g ps. AreNumbersSoFar g ps shape N.UNKNOWN N.number_of numbers.new) }
    ensures others { (c : Cell) → IsCellOf shape c → cell_number shape numbers.old c ≢ N.UNKNOWN → cell_number shape numbers.new c ≢ N.UNKNOWN }
    ensures here { MatchOption result
        (slice_index_or (W.flows ways.now) place Void ≢ Void → slice_index_or numbers.new place 0 ≢ N.UNKNOWN)
        (λ c. (index_of shape c ≡ place) × OfFlows shape (W.flows ways.now) (λ g ps. HasData g c × ¬ RunEnds g ps c)) }
{
    if numbers[place] != N::UNKNOWN || ways.flow(place) == Flow::Void {
        return None;
    }
    let cell = shape.cell(place);
    match number_ahead::<N, W>(ways, shape, numbers, cell) {
        Some(ahead) => {
            put_numbers::<N, W>(ways, shape, numbers, cell, ahead);
            None
        }
        None => Some(cell),
    }
}

/// A known number that a walk reached.
#[derive(Clone, Copy)]
struct Ahead {
    /// The steps to its cell.
    steps: usize,
    cell: Cell,
    number: u32,
}

/// The first known number on the way from a data cell, none if its run doesn't end. Codes that go round are found by
/// the length of the walk.
fn number_ahead<N: PathNumber, W: Ways>(
    ways: &W,
    shape: Shape,
    numbers: &[u32],
    start: Cell,
) -> Option<Ahead>
    requires counted { length (W.flows ways.now) ≡ shape.rows * shape.cols }
    requires numbers_counted { length numbers.now ≡ shape.rows * shape.cols }
    requires inside { IsCellOf shape start }
    requires has_data { flow_at shape (W.flows ways.now) start ≢ Void }
    requires so_far { OfFlows shape (W.flows ways.now) (λ g ps. AreNumbersSoFar g ps shape N.UNKNOWN N.number_of numbers.now) }
    ensures known { IfSome result (λ ahead. ahead.number ≢ N.UNKNOWN) }
    ensures few { IfSome result (λ ahead. ahead.steps ≤ shape.rows * shape.cols) }
    ensures far { IfSome result (λ ahead. cell_number shape numbers.now start ≡ N.UNKNOWN → 0 < ahead.steps) }
    ensures ahead { OfFlows shape (W.flows ways.now) (λ g ps. MatchOption result (¬ RunEnds g ps start) (IsAhead g ps N.number_of start)) }
{
    let mut here = start;
    for steps in 0..shape.cells() + 1 {
        let number = number_at(shape, numbers, here);
        if number != N::UNKNOWN {
            return Some(Ahead {
                steps,
                cell: here,
                number,
            });
        }
        match next_of(ways, shape, here) {
            Some(next) => here = next,
            None => return None,
        }
    }
    None
}

/// Numbers the cells on the way from a cell, as far as the walk went.
fn put_numbers<N: PathNumber, W: Ways>(
    ways: &W,
    shape: Shape,
    numbers: &mut [u32],
    start: Cell,
    ahead: Ahead,
)
    requires counted { length (W.flows ways.now) ≡ shape.rows * shape.cols }
    requires numbers_counted { length numbers.old ≡ shape.rows * shape.cols }
    requires inside { IsCellOf shape start }
    requires has_data { flow_at shape (W.flows ways.now) start ≢ Void }
    requires known { ahead.number ≢ N.UNKNOWN }
    requires few { ahead.steps ≤ shape.rows * shape.cols }
    requires far { 0 < ahead.steps }
    requires ahead { OfFlows shape (W.flows ways.now) (λ g ps. IsAhead g ps N.number_of start ahead) }
    requires so_far { OfFlows shape (W.flows ways.now) (λ g ps. AreNumbersSoFar g ps shape N.UNKNOWN N.number_of numbers.old) }
    ensures so_far { OfFlows shape (W.flows ways.now) (λ g ps. AreNumbersSoFar g ps shape N.UNKNOWN N.number_of numbers.new) }
    ensures here { cell_number shape numbers.new start ≢ N.UNKNOWN }
    ensures others { (c : Cell) → IsCellOf shape c → cell_number shape numbers.old c ≢ N.UNKNOWN → cell_number shape numbers.new c ≢ N.UNKNOWN }
{
    let _cells = shape.cells();
    let mut here = start;
    for walked in 0..ahead.steps {
        let number = N::behind(ahead.number, ahead.steps - walked);
        put_at(shape, numbers, here, number);
        match next_of(ways, shape, here) {
            Some(next) => here = next,
            None => return,
        }
    }
}
