//! Runs of `drain check` and `drain audit`: rasters are judged against the tiles that they were made from, or against one
//! raster of elevations, and the answer is printed.

ghost use Rattle.std.specs.Prelude.{◌≡◌};
ghost use Rattle.drain_cli.specs.Names.{Result, audit_report_line, report_line, AuditVerdict, Refusal, outcome_report_line, Outcome, Prints, Verdict, AreCorrect, ForAudit, ForCheck, IsRight};
ghost use Rattle.drain_cli.specs.JudgedRuns.{answer_status, outcome_status, IsAuditOutcome, IsCheckOutcome, IsOutcomeOn};
ghost use Rattle.drain_cli.specs.OpenedInputs.{given_in};
ghost use Rattle.drain_cli.specs.RunMeanings.{AcceptedMeans, RejectedMeans};
ghost use Rattle.drain_cli.specs.declared.answer.Answer.TheVariants.{Audit, Check};
ghost use Rattle.drain_verdict.specs.Given.{plain};

use crate::answer::{Answer, print_answer};
use crate::runs::judged_outcome::outcome_of;
use drain_device::{ByteSink, ByteSource};
use drain_files::open_judged::{JudgedProducts, OpenElevations, OpenFiles};
use drain_hgt::TileInput;
use drain_verdict::{AuditProducts, Products, audit, check};
use std::alloc::Global;

/// Checks products against their tiles, prints the line of the answer and returns the exit status.
///
/// `side` is the number of samples along an edge of each tile, and `sinks` a list of inland sinks, a line `ROW COL`
/// each. Of a tile at most one byte past its end is read, and of a raster nothing past its last needed byte. The
/// statuses: 0 accepted, 1 rejected, 2 refused, 3 if memory was refused (`failed OutOfMemory`), a source failed for
/// good (`failed ReadFailed`), or the line couldn't be written.
pub fn run_check<R: ByteSource, W: ByteSink>(
    alloc: Global,
    side: u32,
    tiles: &mut [TileInput<R>],
    sinks: &[u8],
    products: &mut Products<R>,
    out: &mut W,
) -> u8
    ensures run { (answer : Result Verdict Refusal)
        × IsCheckOutcome R.ByteSource side tiles.old tiles.new (plain sinks.now) products.old products.new answer
        × Prints W.ByteSink out.old out.new (report_line answer) (answer_status (Check answer)) result }

    // A run ends with 0 only if the tiles agree and the products are correct.
    ensures correct { result ≡ 0 → ForCheck R.bytes_left side tiles.old (plain sinks.now) products.old IsRight }
{
    let answer = check(alloc, side, tiles, sinks, products);
    print_answer(out, &Answer::Check(answer))
}

/// Audits products against their tiles on unit spacing, prints the line of the answer and returns the exit status.
///
/// Arguments, reading and statuses are those of `run_check`.
pub fn run_audit<R: ByteSource, W: ByteSink>(
    alloc: Global,
    side: u32,
    tiles: &mut [TileInput<R>],
    sinks: &[u8],
    products: &mut AuditProducts<R>,
    out: &mut W,
) -> u8
    ensures run { (answer : Result AuditVerdict Refusal)
        × IsAuditOutcome R.ByteSource side tiles.old tiles.new (plain sinks.now) products.old products.new answer
        × Prints W.ByteSink out.old out.new (audit_report_line answer) (answer_status (Audit answer)) result }

    // A run ends with 0 only if the tiles agree and the products are correct, and with 1 only if the products aren't.
    ensures correct { result ≡ 0 → ForAudit R.bytes_left side tiles.old (plain sinks.now) products.old IsRight }
    ensures not_correct { result ≡ 1 → ForAudit R.bytes_left side tiles.old (plain sinks.now) products.old (λ inputs. ¬ AreCorrect inputs) }
{
    let answer = audit(alloc, side, tiles, sinks, products);
    print_answer(out, &Answer::Audit(answer))
}

/// Judges the products that were opened beside their elevations, prints the line of the answer and returns the exit
/// status.
///
/// Reading and statuses are those of `run_check`. Of a raster that isn't judged no number matters.
pub fn run_judged<R: ByteSource, W: ByteSink>(
    alloc: Global,
    files: &mut OpenFiles<OpenElevations<R>, JudgedProducts<R>>,
    out: &mut W,
) -> u8
    // What is judged are the rasters of the products, on these elevations with these sinks and this spacing.
    ensures run { (answer : Result Outcome Refusal)
        × IsOutcomeOn R.ByteSource files.old.elevations files.new.elevations (given_in files.old) files.old.products files.new.products answer
        × Prints W.ByteSink out.old out.new (outcome_report_line answer) (outcome_status answer) result }

    // A run ends with 0 only if the judged rasters are right, and an audit with 1 only if they aren't.
    ensures correct { result ≡ 0 → AcceptedMeans R.bytes_left files.old.elevations (given_in files.old) files.old.products }
    ensures not_correct { result ≡ 1 → RejectedMeans R.bytes_left files.old.elevations (given_in files.old) files.old.products }
{
    let answer = outcome_of(alloc, files);
    print_answer(out, &Answer::Part(answer))
}
