//! A run of `drain fill`: a fill input is read, checked, and its answer printed.

ghost use Rattle.std.specs.Prelude.{◌≡◌, ◌+◌, ◌*◌};
ghost use Rattle.drain_cli.specs.Names.{TakesAtMost, IsSide, Prints};
ghost use Rattle.drain_cli.specs.FillRuns.{FillOutcome, IsFillOutcome, IsFilledIfTold, outcome_line, outcome_status};

use drain_answer::lines::{Line, words};
use drain_answer::outcome::Status;
use drain_answer::print::print_line;
use drain_device::{BodyFault, ByteSink, ByteSource, read_whole};
use drain_grid::laws::least_from_rules;
use drain_grid::tile::is_side;
use drain_rules::fill_length;
use drain_verdict::{FillRefusal, FillVerdict, check_fill, fill_report};
use std::alloc::Global;

/// An answer, or why there is none.
type FillOutcome = Result<Result<FillVerdict, FillRefusal>, BodyFault>;

/// Reads a fill input, prints the line of its answer and returns the exit status.
///
/// `side` is the number of samples along an edge of the tile. At most one byte more than an input of this
/// side has is read, and nothing if no tile has this side. Memory grows with what comes. The statuses: 0 accepted,
/// 1 rejected, 2 refused, 3 if memory was refused (`failed OutOfMemory`), the source failed for good (`failed
/// ReadFailed`), or the line couldn't be written.
pub fn run_fill<R: ByteSource, W: ByteSink>(
    alloc: Global,
    side: u32,
    input: &mut R,
    out: &mut W,
) -> u8
    ensures run { (outcome : FillOutcome)
        × IsFillOutcome R.ByteSource side input.old input.new outcome
        × Prints W.ByteSink out.old out.new (outcome_line outcome) (outcome_status outcome) result }
    ensures within { TakesAtMost (9 * (side * side) + 1) (R.bytes_left input.old) (R.bytes_left input.new) }
    ensures bad_side_reads_nothing { ¬ IsSide side → input.new ≡ input.old }

    // A run ends with 0 only if `con` is the filled surface.
    ensures filled { result ≡ 0 → IsFilledIfTold side (R.bytes_left input.old) }
{
    // The law that turns an acceptance into the filled surface.
    least_from_rules();
    let outcome = read_and_check(alloc, side, input);
    print_line(out, &line_of(&outcome), status_of(&outcome))
}

/// The answer to what the source has left.
fn read_and_check<R: ByteSource>(alloc: Global, side: u32, input: &mut R) -> FillOutcome
    ensures outcome { IsFillOutcome R.ByteSource side input.old input.new result }
    ensures within { TakesAtMost (9 * (side * side) + 1) (R.bytes_left input.old) (R.bytes_left input.new) }
    ensures bad_side_reads_nothing { ¬ IsSide side → input.new ≡ input.old }
{
    if !is_side(side) {
        return Ok(check_fill(side, &[]));
    }
    let body = read_whole(alloc, input, fill_length(side) + 1)?;
    Ok(check_fill(side, body.as_slice()))
}

/// The line of an outcome, without a line end.
fn line_of(outcome: &FillOutcome) -> Line
    ensures { result.bytes ≡ outcome_line outcome.now }
{
    match outcome {
        Ok(answer) => fill_report(answer),
        Err(BodyFault::ReadFailed) => words("failed ReadFailed"),
        Err(BodyFault::OutOfMemory) => words("failed OutOfMemory"),
    }
}

/// The exit status of an outcome.
fn status_of(outcome: &FillOutcome) -> Status
    ensures { result ≡ outcome_status outcome.now }
{
    match outcome {
        Ok(Ok(FillVerdict::Accepted(_))) => Status::Done,
        Ok(Ok(FillVerdict::Rejected { .. })) => Status::Rejected,
        Ok(Err(_)) => Status::Refused,
        Err(_) => Status::Failed,
    }
}
