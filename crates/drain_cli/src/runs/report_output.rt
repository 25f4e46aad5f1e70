//! The last part of a run that makes a report: it is written and gets its name, and the verdict is printed.

ghost use Rattle.std.specs.Prelude.{◌≡◌};
ghost use Rattle.drain_cli.specs.Names.{IfOk, length, vec_len, Result, IsNamed, WritesFile, SetFault, Prints};
ghost use Rattle.drain_cli.specs.WindowRuns.{IsReadable, reported_line, reported_status, text_of, verdict_status};

use drain_answer::lines::{Line, words};
use drain_answer::outcome::Status;
use drain_answer::print::print_line;
use drain_device::ByteSink;
use drain_files::file_id::FileId;
use drain_files::open_failure::{Placing, place_written, print_open_fault};
use drain_files::outputs::{Failure, Outputs};
use drain_files::whole_input::write_bytes;
use drain_report::write_report;
use drain_sets::SetFault;
use drain_union::verdict_line::verdict_line;
use drain_union::{UnionVerdict, WindowReport};
use std::alloc::{AllocError, Global};

/// The path of the report, as the list of the paths of outputs.
pub(crate) fn report_path(alloc: Global, path: &str) -> Result<Vec<String>, AllocError>
    ensures { IfOk result (λ paths. vec_len paths ≡ 1) }
{
    let mut paths = Vec::new(alloc);
    paths.push(String::from_str(alloc, path)?)?;
    Ok(paths)
}

/// Creates the file at this path and writes the report, and returns the exit status.
pub(crate) fn write_at(
    rt: &HostRuntime,
    path: &[String],
    inputs: &[FileId],
    window: &WindowReport,
    out: &mut impl ByteSink,
) -> u8
    requires { length path.now ≡ 1 }
{
    let failure = Failure::none();
    let mut outputs = Outputs::new(rt, &failure);
    let status = match outputs.begin(path, inputs) {
        Ok(mut files) => {
            let file = &mut files.as_mut_slice()[0];
            report_and_print(rt.alloc(), window, file, &mut outputs, out)
        }
        Err(fault) => print_open_fault(rt, fault, out),
    };
    outputs.end();
    status
}

/// Writes the report of a window, gives the file its name, prints the line of the verdict and returns the exit status: 0
/// accepted, 1 rejected.
///
/// If the report can't be written the line is `failed WriteFailed`, if there is no memory for its text `failed
/// OutOfMemory`; then no name is given and the status is 3, as it is if the line can't be written.
pub fn report_and_print<F: ByteSink, P: Placing, W: ByteSink>(
    alloc: Global,
    window: &WindowReport,
    file: &mut F,
    places: &mut P,
    out: &mut W,
) -> u8
    ensures run { (done told : Result (Unit {0}) SetFault)
        × WritesFile F.ByteSink file.old file.new (text_of window.now) done
        × IsReadable window.now done
        × IsNamed P.has_placed places.old places.new done told
        × Prints W.ByteSink out.old out.new (reported_line window.now.verdict told) (reported_status window.now.verdict told) result }
{
    let written = write_text(alloc, window, file);
    let told = place_written(written, places);
    print_line(
        out,
        &line_of(&window.verdict, &told),
        status_of(&window.verdict, &told),
    )
}

/// Writes the text of the report.
fn write_text<F: ByteSink>(
    alloc: Global,
    window: &WindowReport,
    file: &mut F,
) -> Result<(), SetFault>
    ensures written { WritesFile F.ByteSink file.old file.new (text_of window.now) result }
    ensures readable { IsReadable window.now result }
{
    let Ok(text) = write_report(alloc, window) else {
        return Err(SetFault::OutOfMemory);
    };
    write_bytes(file, &text)
}

/// The line for the result of writing a report with this verdict.
fn line_of(verdict: &UnionVerdict, told: &Result<(), SetFault>) -> Line
    ensures { result.bytes ≡ reported_line verdict.now told.now }
{
    match told {
        Ok(()) => verdict_line(verdict),
        Err(SetFault::WriteFailed) => words("failed WriteFailed"),
        Err(SetFault::OutOfMemory) => words("failed OutOfMemory"),
    }
}

/// Its exit status.
fn status_of(verdict: &UnionVerdict, told: &Result<(), SetFault>) -> Status
    ensures { result ≡ reported_status verdict.now told.now }
{
    match told {
        Ok(()) => verdict_status(verdict),
        Err(_) => Status::Failed,
    }
}

/// The exit status of a verdict.
pub(crate) fn verdict_status(verdict: &UnionVerdict) -> Status
    ensures { result ≡ verdict_status verdict.now }
{
    match verdict {
        UnionVerdict::Accepted(_) => Status::Done,
        UnionVerdict::Rejected(_) => Status::Rejected,
    }
}
