//! What every cell of a grid showed, from the notes of its rows, and where a path without an end leads.

ghost use Rattle.std.specs.Prelude.{◌≡◌, ◌<◌, ◌↔◌};
ghost use Rattle.drain_explain.specs.Names.{IfOk, IfSome, IsSome, Grid, Products};
ghost use Rattle.drain_explain.specs.Explanations.{IsNamed, LeadsAt, AreFindingsOn, answer_in, findings_in, AreFaultNotes};
ghost use Rattle.drain_paths.specs.Walks.{AreKnownFlows};
ghost use Rattle.drain_grid.specs.declared.judged.Rules as declared;

use crate::fault_visitor::FaultVisitor;
use drain_answer::{Outcome, Refusal};
use drain_findings::{Findings, Slopes};
use drain_grid::{Cell, OutOfMemory, Shape};
use drain_paths::{CellFlows, EndlessPath};
use std::alloc::Global;

/// The cell whose path doesn't end, if the outcome names one, and where its path leads, from the flows of the grid's
/// cells.
pub(crate) fn endless_of(
    alloc: Global,
    flows: &CellFlows,
    shape: Shape,
    outcome: &Outcome,
) -> Result<Option<(Cell, EndlessPath)>, OutOfMemory>
    ensures named { IfOk result (λ told. IfSome told (IsNamed outcome.now)) }
    ensures run { IfOk result (λ told. (g : Grid) (ps : Products) → AreKnownFlows g ps shape flows.now → IfSome told (LeadsAt g ps)) }
{
    let Outcome::NoEnd { row, col } = outcome else {
        return Ok(None);
    };
    let cell = Cell {
        row: *row,
        col: *col,
    };
    // flows of sources whose bytes are known are those of the cells, and the cell is one of them
    if flows.len() != shape.cells() || cell.row >= shape.rows() || cell.col >= shape.cols() {
        return Ok(None);
    }
    match flows.endless_path(alloc, shape, cell)? {
        Some(run) => Ok(Some((cell, run))),
        None => Ok(None),
    }
}

/// The outcome for judged rasters of a grid, and what every cell showed.
#[derive(Drop)]
pub struct Explanation<F> {
    pub outcome: Outcome,
    pub findings: Findings<F>,
}

/// The answer that is explained, and what every cell showed if it is an outcome.
pub fn answer_and_findings<F>(
    explained: Result<Explanation<F>, Refusal>,
) -> (Result<Outcome, Refusal>, Option<Findings<F>>)
    ensures answer { result.0 ≡ answer_in explained }
    ensures findings { result.1 ≡ findings_in explained }
{
    match explained {
        Ok(Explanation { outcome, findings }) => (Ok(outcome), Some(findings)),
        Err(refusal) => (Err(refusal), None),
    }
}

/// What every cell showed, by notes of all rows.
pub(crate) fn findings_of<F>(
    layout: F,
    notes: FaultVisitor,
    endless: Option<(Cell, EndlessPath)>,
    slopes: Slopes,
) -> Findings<F>
    ensures layout { result.layout ≡ layout }
    ensures endless { result.endless ≡ endless }
    ensures slopes { result.slopes ≡ slopes }
    ensures drawn { IsSome result.map ↔ IsSome notes.walk.map }
    ensures found { (rules : declared.Rules) (g : Grid) (ps : Products) → 0 < g.extent.rows → AreFaultNotes rules g ps g.extent.rows notes → AreFindingsOn rules g ps result }
{
    let first = notes.walk.first_patch();
    let rules = notes.rules;
    let elevations = notes.elevations;
    let (by_rule, by_product, map) = notes.walk.into_faults();
    Findings {
        layout,
        rules,
        by_rule,
        by_product,
        first,
        map,
        endless,
        elevations,
        slopes,
    }
}
