//! The outcome for judged rasters.

ghost use Rattle.std.specs.Prelude.{◌≡◌, ◌≤◌, length};
ghost use Rattle.drain_answer.specs.Statuses.{status_code, refusal_status};
ghost use Rattle.drain_answer.specs.OutcomeLines.{cell_line, outcome_line, outcome_report_line};

use crate::Refusal;
use crate::lines::{Line, accepted, fill_report, push_number, refusal_line, rejected, words};
use drain_grid::{Counts, FillCounts, FillVerdict, Rule};

/// Accepted exactly if the four products are correct. Else the first data cell whose path reaches no code 0; or, if
/// every path ends, the first fault: of the cells where a rule fails the first in row order, and of its failing rules
/// the first.
#[derive(Clone, Copy, PartialEq, Eq, Debug)]
pub enum AuditVerdict {
    Accepted(Counts),
    Rejected { rule: Rule, row: u32, col: u32 },
    NoEnd { row: u32, col: u32 },
}

/// How a run of the program ended.
#[derive(Clone, Copy)]
pub enum Status {
    /// Accepted, or printed.
    Done,
    /// Rejected: the input can be read, and breaks a rule.
    Rejected,
    /// Refused: the input has no verdict, or there is a usage error.
    Refused,
    /// Failed, as memory ran out or a device failed.
    Failed,
}

impl Status {
    /// The number that the program ends with.
    pub fn code(self) -> u8
        ensures { result ≡ status_code self }
    {
        self as u8
    }

    /// The status of a refusal.
    pub fn of_refusal(refusal: Refusal) -> Status
        ensures { result ≡ refusal_status refusal }
    {
        match refusal {
            Refusal::OutOfMemory | Refusal::ReadFailed => Status::Failed,
            _ => Status::Refused,
        }
    }
}

/// Accepted exactly if the judged rasters are right: `Accepted` with directions, `AcceptedSurface` of con alone. Else
/// the first data cell whose path reaches no code 0; or, if every path ends, the first fault of the rules about these
/// rasters; or, of con alone if every rule holds, the first cell where con is below the filled surface.
#[derive(Clone, Copy, PartialEq, Eq, Debug)]
pub enum Outcome {
    Accepted(Counts),
    AcceptedSurface(FillCounts),
    Rejected { rule: Rule, row: u32, col: u32 },
    NoEnd { row: u32, col: u32 },
    NotFilled { row: u32, col: u32 },
}

/// The line of an answer, without a line end, in ASCII.
pub fn outcome_report(answer: &Result<Outcome, Refusal>) -> Line
    ensures { result.bytes ≡ outcome_report_line answer.now }
{
    match answer {
        Ok(outcome) => line_of(outcome),
        Err(refusal) => refusal_line(*refusal),
    }
}

/// The line of an outcome.
fn line_of(outcome: &Outcome) -> Line
    ensures { result.bytes ≡ outcome_line outcome.now }
{
    match outcome {
        Outcome::Accepted(counts) => accepted(counts),
        Outcome::AcceptedSurface(counts) => fill_report(&Ok(FillVerdict::Accepted(*counts))),
        Outcome::Rejected { rule, row, col } => rejected(*rule, *row, *col),
        Outcome::NoEnd { row, col } => at_cell("rejected NoEnd", *row, *col),
        Outcome::NotFilled { row, col } => at_cell("rejected NotFilled", *row, *col),
    }
}

/// These words and a cell.
fn at_cell(text: &'static str, row: u32, col: u32) -> Line
    requires { length text.now ≤ 40 }
    ensures { result.bytes ≡ cell_line text.now row col }
{
    let mut line = words(text);
    line.push_str(" row=");
    push_number(&mut line, row);
    line.push_str(" col=");
    push_number(&mut line, col);
    line
}
