//! An answer in numbers: its status, and where a rule fails.

ghost use Rattle.std.specs.Prelude.{◌≡◌};
ghost use Rattle.drain_c.specs.Found.{outcome_found, place_found, refusal_found, rejection_found, status_only};

use drain_grid::Rule;
use drain_verdict::{Outcome, Refusal};

/// The status, as the program exits with it; of a rejection the number of the rule that fails, and the cell. What an
/// answer lacks is 0.
#[derive(Clone, Copy)]
pub struct Found {
    pub status: u32,
    pub rule: u32,
    pub row: u32,
    pub col: u32,
}

/// The numbers of the answer about the judged rasters. A path without an end is of no rule, and neither is a cell that
/// isn't filled: rule 0.
pub fn outcome_found(answer: &Result<Outcome, Refusal>) -> Found
    ensures { result ≡ outcome_found answer.now }
{
    match answer {
        Ok(Outcome::Accepted(_)) => status_only(0),
        Ok(Outcome::AcceptedSurface(_)) => status_only(0),
        Ok(Outcome::Rejected { rule, row, col }) => rejection_found(*rule, *row, *col),
        Ok(Outcome::NoEnd { row, col }) => place_found(*row, *col),
        Ok(Outcome::NotFilled { row, col }) => place_found(*row, *col),
        Err(refusal) => refusal_found(*refusal),
    }
}

/// The numbers of a rejection by this rule, at this cell.
fn rejection_found(rule: Rule, row: u32, col: u32) -> Found
    ensures { result ≡ rejection_found rule row col }
{
    Found {
        status: 1,
        rule: u32::from(rule.number()),
        row,
        col,
    }
}

/// The numbers of a rejection at this cell, by no rule.
fn place_found(row: u32, col: u32) -> Found
    ensures { result ≡ place_found row col }
{
    Found {
        status: 1,
        rule: 0,
        row,
        col,
    }
}

/// The numbers of a refusal, or of a failure.
fn refusal_found(refusal: Refusal) -> Found
    ensures { result ≡ refusal_found refusal }
{
    match refusal {
        Refusal::OutOfMemory | Refusal::ReadFailed => status_only(3),
        _ => status_only(2),
    }
}

/// A status, without a rule or a cell.
pub fn status_only(status: u32) -> Found
    ensures { result ≡ status_only status }
{
    Found {
        status,
        rule: 0,
        row: 0,
        col: 0,
    }
}
