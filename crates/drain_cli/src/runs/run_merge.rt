//! A run of `drain merge`: reports are put together, and the verdict on the union is printed.

ghost use Rattle.std.specs.Prelude.{◌≡◌};
ghost use Rattle.drain_cli.specs.Names.{IfErr, IfOk, List, OnOk, Ok, Result, length, vec_len, IsSinkFault, sinks_of, SinkLine, SinkFault, merge_line, MapVerdict, MergeRefusal, Listed, Prints};
ghost use Rattle.drain_cli.specs.MergeRuns.{AreSinksAt, IsMergeOutcome, list_line, list_status, MakeUnion, merge_status, refused_status, UnionIsCorrect, UnionIsNotCorrect};

use crate::runs::report_input::read_or_print;
use crate::runs::report_output::verdict_status;
use crate::runs::run_join::join_files;
use drain_answer::Refusal;
use drain_answer::lines::{Line, refusal_line, words};
use drain_answer::outcome::Status;
use drain_answer::print::{print_failure, print_line};
use drain_args::requests::MergeArgs;
use drain_device::{BodyFault, ByteSink};
use drain_files::open_failure::print_open_fault;
use drain_files::open_files::{Opener, text_at};
use drain_grid::{SinkFault, parse_sinks};
use drain_merge::{MapVerdict, MergeRefusal, UnionSinks, merge_line, merge_on_map};
use drain_union::WindowReport;
use std::alloc::Global;

/// Reads the reports at these paths, one file open at a time, and the union's list of sinks, prints the line of the
/// verdict and returns the exit status; or writes the report of the windows' box, if that is requested.
pub fn merge_files(rt: &HostRuntime, args: &MergeArgs<'_>, out: &mut impl ByteSink) -> u8 {
    if let Some(path) = args.report {
        return join_files(rt, args.reports.as_slice(), path, out);
    }
    let mut opener = Opener::new(rt);
    let windows = match reports_at(&mut opener, args.reports.as_slice(), out) {
        Ok(windows) => windows,
        Err(status) => return status,
    };
    match sinks_at(&mut opener, args.sinks, out) {
        Ok(sinks) => merge_and_print(rt.alloc(), windows, &sinks, out),
        Err(status) => status,
    }
}

/// The reports at these paths, in their order. The first that can't be read is printed, and its exit status returned.
pub(crate) fn reports_at(
    opener: &mut Opener<'_>,
    paths: &[&str],
    out: &mut impl ByteSink,
) -> Result<Vec<WindowReport>, u8>
    ensures each { IfOk result (λ windows. vec_len windows ≡ length paths.now) }
{
    let mut windows = Vec::new(opener.alloc());
    for (place, path) in paths.iter().enumerate() {
        let window = report_at(opener, place, path, out)?;
        if windows.push(window).is_err() {
            return Err(print_failure(out, BodyFault::OutOfMemory));
        }
    }
    Ok(windows)
}

/// The report at this path. Its file is closed again.
fn report_at(
    opener: &mut Opener<'_>,
    place: usize,
    path: &str,
    out: &mut impl ByteSink,
) -> Result<WindowReport, u8> {
    match opener.open(path) {
        Ok(mut file) => read_or_print(opener.alloc(), place, &mut file, out),
        Err(fault) => Err(print_open_fault(opener.rt(), fault, out)),
    }
}

/// The sinks of the union: those listed at this path, if there is one.
fn sinks_at(
    opener: &mut Opener<'_>,
    path: Option<&str>,
    out: &mut impl ByteSink,
) -> Result<UnionSinks, u8>
    ensures { IfOk result (λ sinks. AreSinksAt path.entry sinks) }
{
    let Some(path) = path else {
        return Ok(UnionSinks::AsTaken);
    };
    match text_at(opener, path) {
        Ok(text) => listed_or_print(opener.alloc(), text.as_slice(), out),
        Err(fault) => Err(print_open_fault(opener.rt(), fault, out)),
    }
}

/// Puts the reports of a union's windows together, prints the line of the verdict and returns the exit status: 0
/// accepted, 1 rejected, 2 refused, 3 if memory ran out or the line can't be written.
pub fn merge_and_print<W: ByteSink>(
    alloc: Global,
    windows: Vec<WindowReport>,
    sinks: &UnionSinks,
    out: &mut W,
) -> u8
    ensures run { (outcome : Result MapVerdict MergeRefusal) × IsMergeOutcome sinks.now windows.items outcome
        × Prints W.ByteSink out.old out.new (merge_line outcome) (merge_status outcome) result }

    // For any windows of which these are the reports, a run ends with 0 only if they are the windows of one union and its
    // products are correct, and with 1 only if the products of no union of which they are the windows are correct.
    ensures correct { result ≡ 0 → UnionIsCorrect windows.items }
    ensures one_union { result ≡ 0 → MakeUnion windows.items }
    ensures not_correct { result ≡ 1 → UnionIsNotCorrect windows.items }
{
    let answer = merge_on_map(alloc, windows, sinks);
    print_line(out, &merge_line(&answer), status_of(&answer))
}

/// The exit status of an answer.
fn status_of(answer: &Result<MapVerdict, MergeRefusal>) -> Status
    ensures { result ≡ merge_status answer.now }
{
    match answer {
        Ok(union) => verdict_status(&union.verdict),
        Err(refusal) => refused_status(*refusal),
    }
}

/// The exit status of a refusal.
pub(crate) fn refused_status(refusal: MergeRefusal) -> Status
    ensures { result ≡ refused_status refusal }
{
    match refusal {
        MergeRefusal::OutOfMemory => Status::Failed,
        _ => Status::Refused,
    }
}

/// The sinks that the text lists, in rows and columns of the union. If it is no list, it prints `refused BadSinkLine
/// LINE` and returns the exit status 2; and 3 for `failed OutOfMemory`, and if the line can't be written.
pub fn listed_or_print<W: ByteSink>(
    alloc: Global,
    text: &[u8],
    out: &mut W,
) -> Result<UnionSinks, u8>
    ensures listed { IfOk result (λ sinks. (lines : List SinkLine) × (sinks_of text.now ≡ Ok lines) × (sinks ≡ Listed lines)) }
    ensures quiet { OnOk result (out.new ≡ out.old) }
    ensures refused { IfErr result (λ code. (fault : SinkFault) × IsSinkFault text.now fault × Prints W.ByteSink out.old out.new (list_line fault) (list_status fault) code) }
{
    match parse_sinks(alloc, text) {
        Ok(sinks) => Ok(UnionSinks::Listed(sinks)),
        Err(fault) => Err(print_line(out, &line_of(fault), list_status(fault))),
    }
}

/// The line of a fault of the list.
fn line_of(fault: SinkFault) -> Line
    ensures { result.bytes ≡ list_line fault }
{
    match fault {
        SinkFault::BadSinkLine(line) => refusal_line(Refusal::BadSinkLine(line)),
        SinkFault::OutOfMemory => words("failed OutOfMemory"),
    }
}

/// Its exit status.
fn list_status(fault: SinkFault) -> Status
    ensures { result ≡ list_status fault }
{
    match fault {
        SinkFault::BadSinkLine(_) => Status::Refused,
        SinkFault::OutOfMemory => Status::Failed,
    }
}
