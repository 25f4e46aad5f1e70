//! Runs of `drain audit --json` and `drain check --json`: the answer is printed as one JSON object.

ghost use Rattle.std.specs.Prelude.{◌≡◌, ◌<◌, Result};
ghost use Rattle.drain_answer.specs.declared.outcome.Outcome as declared;
ghost use Rattle.drain_answer.specs.declared.refusal.Refusal as declared_refusal;
ghost use Rattle.drain_cli.specs.JsonRuns.{PrintsObject};
ghost use Rattle.drain_cli.specs.JudgedRuns.{IsOutcomeOn, outcome_code};
ghost use Rattle.drain_cli.specs.OpenedInputs.{given_in};
ghost use Rattle.drain_cli.specs.RunMeanings.{AcceptedMeans, RejectedMeans};

use crate::answer::outcome_status;
use crate::runs::judged_outcome::outcome_of;
use drain_answer::outcome::Status;
use drain_answer::outcome_report;
use drain_answer::print::print_text;
use drain_device::{ByteSink, ByteSource};
use drain_files::open_judged::{JudgedProducts, OpenElevations, OpenFiles};
use drain_page::{OUT_OF_MEMORY_ANSWER, Parts, answer_json};
use drain_verdict::{Outcome, Refusal};
use std::alloc::Global;

/// Judges the products that were opened beside their elevations, prints the object of the answer and returns the exit
/// status: that of `run_judged`.
pub fn run_judged_json<R: ByteSource, W: ByteSink>(
    alloc: Global,
    files: &mut OpenFiles<OpenElevations<R>, JudgedProducts<R>>,
    out: &mut W,
) -> u8
    // What is judged are the rasters of the products, on these elevations with these sinks and this spacing.
    ensures run { (answer : Result declared.Outcome declared_refusal.Refusal)
        × IsOutcomeOn R.ByteSource files.old.elevations files.new.elevations (given_in files.old) files.old.products files.new.products answer
        × PrintsObject W.ByteSink out.old out.new answer result }

    // A run ends with 0 only if the judged rasters are right, and an audit with 1 only if they aren't.
    ensures correct { result ≡ 0 → AcceptedMeans R.bytes_left files.old.elevations (given_in files.old) files.old.products }
    ensures not_correct { result ≡ 1 → RejectedMeans R.bytes_left files.old.elevations (given_in files.old) files.old.products }
{
    let answer = outcome_of(alloc, files);
    print_object(alloc, &answer, out)
}

/// Prints the object of an answer, or that there is no memory for it, and returns the exit status.
pub fn print_object<W: ByteSink>(
    alloc: Global,
    answer: &Result<Outcome, Refusal>,
    out: &mut W,
) -> u8
    ensures printed { PrintsObject W.ByteSink out.old out.new answer.now result }
    ensures answered { result < 3 → outcome_code answer.now ≡ result }
{
    let status = outcome_status(answer);
    let line = outcome_report(answer);
    match answer_json(alloc, line.as_str(), Parts::of(answer, status)) {
        Ok(object) => print_text(out, object.as_bytes(), status),
        Err(_) => print_text(out, OUT_OF_MEMORY_ANSWER.as_bytes(), Status::Failed),
    }
}
