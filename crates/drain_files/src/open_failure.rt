//! The line for a file that can't be opened.

ghost use Rattle.std.specs.Prelude.{◌≡◌};
ghost use Rattle.drain_files.specs.Names.{Result, IfOk, List, ℕ, SetFault, PrintsText};
ghost use Rattle.drain_files.specs.Files.{IsNamed, open_failure_line, IsOpenFailure};

use crate::open_files::OpenFault;
use drain_answer::outcome::Status;
use drain_answer::print::{print_failure, print_text};
use drain_device::{BodyFault, ByteSink};
use drain_sets::SetFault;
use std::alloc::{AllocError, Global};
use std::io;
use std::io::ErrorKind;

/// Why a file can't be opened or written.
#[derive(Clone, Copy)]
pub enum Reason {
    /// The system's error of this number.
    System(i32),
    /// An error without a number.
    Other(ErrorKind),
    /// The file is an input or another output.
    Taken,
    /// The file can't be read, or is no text of at most this many bytes.
    NoText(usize),
}

impl Reason {
    /// The reason of an error.
    pub fn of(error: &io::Error) -> Reason {
        match error.raw_os_error() {
            Some(number) => Reason::System(number),
            None => Reason::Other(error.kind()),
        }
    }
}

/// Prints the reason as `error: PATH: REASON`. Whether that can be written doesn't change the run.
pub fn print_reason(rt: &HostRuntime, path: &str, reason: Reason) {
    match reason {
        Reason::System(number) => print_error(rt, path, &io::Error::from_raw_os_error(number)),
        Reason::Other(kind) => print_error(rt, path, &io::Error::from(kind)),
        Reason::Taken => {
            let _ = eprintln!(rt; "error: {path}: it is an input or another output");
        }
        Reason::NoText(most) => {
            let _ = eprintln!(rt; "error: {path}: it can't be read, or has more than {most} bytes");
        }
    }
}

fn print_error(rt: &HostRuntime, path: &str, error: &io::Error) {
    let _ = eprintln!(rt; "error: {path}: {error}");
}

/// Files that are written under other names, and take their own when they are whole.
pub trait Placing {
    /// A call led from the one state to the other, with this result.
    ghost has_placed: { Self → Self → Result (Unit {0}) SetFault → Type 0 };

    /// Gives each file its own name.
    fn place(&mut self) -> Result<(), SetFault>
        ensures { has_placed self.old self.new result };
}

/// Gives the files their names if all of them were written, and returns what is to be reported. If one wasn't, no name
/// changes; a name that can't be given may come after others that were.
pub fn place_written<P: Placing>(
    written: Result<(), SetFault>,
    places: &mut P,
) -> Result<(), SetFault>
    ensures { IsNamed P.has_placed places.old places.new written result }
{
    written?;
    places.place()
}

/// Prints `failed Open` and the path, and returns the status of a failure. If there is no memory for the text, it
/// prints that.
pub fn print_open_failure<W: ByteSink>(alloc: Global, out: &mut W, path: &str) -> u8
    ensures { (text : List ℕ) × IsOpenFailure path.now text
        × PrintsText W.ByteSink out.old out.new text Status.Failed result }
{
    match line_of(alloc, path) {
        Ok(line) => print_text(out, line.as_slice(), Status::Failed),
        Err(_) => print_failure(out, BodyFault::OutOfMemory),
    }
}

fn line_of(alloc: Global, path: &str) -> Result<Vec<u8>, AllocError>
    ensures { IfOk result (λ line. line.items ≡ open_failure_line path.now) }
{
    let mut line = Vec::new(alloc);
    line.extend_from_slice(b"failed Open ")?;
    line.extend_from_slice(path.as_bytes())?;
    line.extend_from_slice(b"\n")?;
    Ok(line)
}

/// Prints the usage error for a header whose pixel sizes give no spacing, and returns the exit status.
pub fn print_no_spacing(rt: &HostRuntime) -> u8 {
    let _ = eprintln!(rt;
        "error: XDIM and YDIM of the header aren't in the ratio of two whole numbers up to 1073741824, not even as rounded to fifteen places: write --spacing W,H"
    );
    Status::Refused.code()
}

/// Prints why files aren't open, and returns the exit status.
pub fn print_open_fault(rt: &HostRuntime, fault: OpenFault, out: &mut impl ByteSink) -> u8 {
    match fault {
        OpenFault::Open(path, reason) => {
            let status = print_open_failure(rt.alloc(), out, path.as_str());
            print_reason(rt, path.as_str(), reason);
            status
        }
        OpenFault::Body(fault) => print_failure(out, fault),
        OpenFault::NoSpacing => print_no_spacing(rt),
    }
}
