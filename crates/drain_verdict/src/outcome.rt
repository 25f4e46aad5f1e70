//! The outcome for judged rasters, from the verdict of the rules and the cell that decides besides.

ghost use Rattle.drain_verdict.specs.Answers.{IsOfBoth};
ghost use Rattle.drain_verdict.specs.Outcomes.{IsOfSurface, IsOfWays, IsOutcomeOf};

use drain_answer::{AuditVerdict, Outcome};
use drain_grid::{Cell, FillCounts, Judged, Verdict};

/// The first path without an end, if there is one, else the verdict of the rules.
pub fn verdict_of_both(verdict: &Verdict, no_end: Option<Cell>) -> AuditVerdict
    ensures { IsOfBoth verdict.now no_end result }
{
    if let Some(cell) = no_end {
        return AuditVerdict::NoEnd {
            row: cell.row,
            col: cell.col,
        };
    }
    match verdict {
        Verdict::Accepted(counts) => AuditVerdict::Accepted(*counts),
        Verdict::Rejected { rule, row, col } => AuditVerdict::Rejected {
            rule: *rule,
            row: *row,
            col: *col,
        },
    }
}

/// The outcome for these rasters.
pub fn outcome_of(judged: Judged, verdict: &Verdict, cell: Option<Cell>) -> Outcome
    ensures { IsOutcomeOf judged verdict.now cell result }
{
    if judged.has_dir() {
        outcome_of_ways(verdict, cell)
    } else {
        outcome_of_surface(verdict, cell)
    }
}

/// The first path without an end, if there is one, else the verdict of the rules.
fn outcome_of_ways(verdict: &Verdict, endless: Option<Cell>) -> Outcome
    ensures { IsOfWays verdict.now endless result }
{
    if let Some(cell) = endless {
        return Outcome::NoEnd {
            row: cell.row,
            col: cell.col,
        };
    }
    match verdict {
        Verdict::Accepted(counts) => Outcome::Accepted(*counts),
        Verdict::Rejected { rule, row, col } => Outcome::Rejected {
            rule: *rule,
            row: *row,
            col: *col,
        },
    }
}

/// The first fault of the rules about the surface, if there is one, else the first cell that isn't filled.
fn outcome_of_surface(verdict: &Verdict, unfilled: Option<Cell>) -> Outcome
    ensures { IsOfSurface verdict.now unfilled result }
{
    match (verdict, unfilled) {
        (Verdict::Rejected { rule, row, col }, _) => Outcome::Rejected {
            rule: *rule,
            row: *row,
            col: *col,
        },
        (Verdict::Accepted(_), Some(cell)) => Outcome::NotFilled {
            row: cell.row,
            col: cell.col,
        },
        (Verdict::Accepted(counts), None) => Outcome::AcceptedSurface(FillCounts {
            rows: counts.rows,
            cols: counts.cols,
            data_cells: counts.data_cells,
            raised: counts.raised,
        }),
    }
}
