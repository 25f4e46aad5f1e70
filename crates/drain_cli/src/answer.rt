//! Printing an answer, and its exit status.

ghost use Rattle.std.specs.Prelude.{◌≡◌, ◌<◌};
ghost use Rattle.drain_cli.specs.Names.{Prints, status_code};
ghost use Rattle.drain_cli.specs.JudgedRuns.{answer_line, answer_status, outcome_status};

use drain_answer::lines::Line;
use drain_answer::outcome::Status;
use drain_answer::print::print_line;
use drain_answer::{AuditVerdict, Outcome, Refusal, audit_report, outcome_report, report};
use drain_device::ByteSink;
use drain_grid::Verdict;

/// The answer of a check of five products, of an audit of four, or of an audit of some.
#[derive(Clone, Copy)]
pub enum Answer {
    Check(Result<Verdict, Refusal>),
    Audit(Result<AuditVerdict, Refusal>),
    Part(Result<Outcome, Refusal>),
}

/// Prints the line of an answer, and returns its exit status, or that of a failure if the line can't be written.
pub fn print_answer<W: ByteSink>(out: &mut W, answer: &Answer) -> u8
    ensures printed { Prints W.ByteSink out.old out.new (answer_line answer.now) (answer_status answer.now) result }
    ensures answered { result < 3 → status_code (answer_status answer.now) ≡ result }
{
    print_line(out, &line_of(answer), answer_status(answer))
}

/// The line of an answer, without a line end.
fn line_of(answer: &Answer) -> Line
    ensures { result.bytes ≡ answer_line answer.now }
{
    match answer {
        Answer::Check(answer) => report(answer),
        Answer::Audit(answer) => audit_report(answer),
        Answer::Part(answer) => outcome_report(answer),
    }
}

/// The exit status of an answer.
fn answer_status(answer: &Answer) -> Status
    ensures { result ≡ answer_status answer.now }
{
    match answer {
        Answer::Check(Ok(Verdict::Accepted(_))) | Answer::Audit(Ok(AuditVerdict::Accepted(_))) => {
            Status::Done
        }
        Answer::Check(Ok(_)) | Answer::Audit(Ok(_)) => Status::Rejected,
        Answer::Check(Err(refusal)) | Answer::Audit(Err(refusal)) => Status::of_refusal(*refusal),
        Answer::Part(outcome) => outcome_status(outcome),
    }
}

/// The exit status of an outcome.
pub fn outcome_status(outcome: &Result<Outcome, Refusal>) -> Status
    ensures { result ≡ outcome_status outcome.now }
{
    match outcome {
        Ok(Outcome::Accepted(_) | Outcome::AcceptedSurface(_)) => Status::Done,
        Ok(_) => Status::Rejected,
        Err(refusal) => Status::of_refusal(*refusal),
    }
}
