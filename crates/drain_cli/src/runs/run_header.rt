//! A run of `drain header`: the text of a header is read, and the header written in this program's own form.

ghost use Rattle.std.specs.Prelude.{◌≡◌, ◌+◌, ◌++◌};
ghost use Rattle.drain_cli.specs.Names.{IfOk, codes, TakesAtMost, fault_text, PrintsText};
ghost use Rattle.drain_grid.specs.declared.height_kind.HeightKind.{HeightKind};
ghost use Rattle.drain_cli.specs.FillRuns.{HeaderOutcome, IsHeaderOutcome, IsWholeOutcome, IsToldAs, IsAnswerToldAs, header_printed, header_status};

use drain_answer::lines::{Line, words};
use drain_answer::outcome::Status;
use drain_answer::print::{print_failure, print_line, print_text};
use drain_device::{BodyFault, ByteSink, ByteSource, read_body};
use drain_header::{Header, HeaderFault, MAX_HEADER_BYTES, header_text, parse_header};
use std::alloc::Global;

/// An answer, or why there is none.
type HeaderOutcome = Result<Result<Header, HeaderFault>, BodyFault>;

/// Reads the text of a header, prints the header's lines as this program writes them, or `refused` and the fault, and
/// returns the exit status.
///
/// At most one byte more than a header can have is read. The statuses: 0 printed, 2 refused, 3 if memory was refused
/// (`failed OutOfMemory`), the source failed for good (`failed ReadFailed`), or the text couldn't be written.
pub fn run_header<R: ByteSource, W: ByteSink>(alloc: Global, input: &mut R, out: &mut W) -> u8
    ensures run { (outcome : HeaderOutcome)
        × IsHeaderOutcome R.ByteSource input.old input.new outcome
        × PrintsText W.ByteSink out.old out.new (header_printed outcome) (header_status outcome) result }
    ensures within { TakesAtMost (MAX_HEADER_BYTES + 1) (R.bytes_left input.old) (R.bytes_left input.new) }
{
    let outcome = read_header(alloc, input);
    print_outcome(alloc, out, outcome)
}

/// The answer to what the source has left.
fn read_header<R: ByteSource>(alloc: Global, input: &mut R) -> HeaderOutcome
    ensures outcome { IsHeaderOutcome R.ByteSource input.old input.new result }
    ensures whole { IsWholeOutcome result }
    ensures within { TakesAtMost (MAX_HEADER_BYTES + 1) (R.bytes_left input.old) (R.bytes_left input.new) }
{
    let body = read_body(alloc, input, MAX_HEADER_BYTES + 1)?;
    Ok(parse_header(body.as_slice()))
}

/// Prints an outcome, or that there was no memory for the text of its header.
fn print_outcome<W: ByteSink>(alloc: Global, out: &mut W, outcome: HeaderOutcome) -> u8
    requires { IsWholeOutcome outcome }
    ensures { (told : HeaderOutcome) × IsToldAs outcome told
        × PrintsText W.ByteSink out.old out.new (header_printed told) (header_status told) result }
{
    match outcome {
        Ok(answer) => print_answer(alloc, out, answer),
        Err(fault) => print_failure(out, fault),
    }
}

/// Prints the lines of a header or the line of its fault, or that there was no memory for the text of the header.
fn print_answer<W: ByteSink>(alloc: Global, out: &mut W, answer: Result<Header, HeaderFault>) -> u8
    requires { IfOk answer (λ h. h.kind ≡ HeightKind.Whole) }
    ensures { (told : HeaderOutcome) × IsAnswerToldAs answer told
        × PrintsText W.ByteSink out.old out.new (header_printed told) (header_status told) result }
{
    match answer {
        Ok(header) => match header_text(alloc, &header) {
            Ok(text) => print_text(out, text.as_slice(), Status::Done),
            Err(_) => print_failure(out, BodyFault::OutOfMemory),
        },
        Err(fault) => print_line(out, &refused(fault), Status::Refused),
    }
}

/// The line of a fault, without a line end.
fn refused(fault: HeaderFault) -> Line
    ensures { result.bytes ≡ codes "refused " ++ fault_text fault }
{
    let mut line = words("refused ");
    line.push_str(fault.text().as_str());
    line
}
