//! Printing the result of a run: one line, or the text of a header.

ghost use Rattle.std.specs.Prelude.{◌≡◌};
ghost use Rattle.drain_answer.specs.Outcomes.{failure_text};
ghost use Rattle.drain_answer.specs.Printing.{Prints, PrintsText};

use crate::lines::{LINE_LENGTH, Line};
use crate::outcome::Status;
use arrayvec::ArrayString;
use drain_device::{BodyFault, ByteSink, Patience, write_all};

/// Prints the line and its line end, and returns the exit status: that of the run, or that of a failure
/// if the sink fails for good before the last byte.
pub fn print_line<W: ByteSink>(out: &mut W, line: &Line, status: Status) -> u8
    ensures { Prints W.ByteSink out.old out.new line.now.bytes status result }
{
    let mut text = ArrayString::<{ PRINTED_LENGTH }>::new();
    text.push_str(line.as_str());
    text.push('\n');
    print_text(out, text.as_str().as_bytes(), status)
}

/// Prints the text as it is, and returns the exit status as `print_line` does.
pub fn print_text<W: ByteSink>(out: &mut W, text: &[u8], status: Status) -> u8
    ensures { PrintsText W.ByteSink out.old out.new text.now status result }
{
    match write_all(out, text, &mut Patience::new()) {
        Ok(()) => status.code(),
        Err(_) => Status::Failed.code(),
    }
}

/// Prints why there is no answer.
pub fn print_failure<W: ByteSink>(out: &mut W, fault: BodyFault) -> u8
    ensures { PrintsText W.ByteSink out.old out.new (failure_text fault) Status.Failed result }
{
    match fault {
        BodyFault::ReadFailed => print_text(out, b"failed ReadFailed\n", Status::Failed),
        BodyFault::OutOfMemory => print_text(out, b"failed OutOfMemory\n", Status::Failed),
    }
}

/// A line and its line end.
const PRINTED_LENGTH: usize = LINE_LENGTH + 1;
