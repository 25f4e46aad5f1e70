//! A run of `drain merge --report`: reports are put together, and the report of their windows' box is written.

ghost use Rattle.std.specs.Prelude.{◌≡◌, Result};
ghost use Rattle.drain_union.specs.declared.report.WindowReport.{WindowReport as WindowReportOf};
ghost use Rattle.drain_merge.specs.declared.merge_verdict.MergeRefusal.{MergeRefusal as RefusalOf};
ghost use Rattle.drain_cli.specs.JoinRuns.{IsBoxHandedOver, IsJoinOutcome};

use crate::runs::report_output::{report_path, write_at};
use crate::runs::run_merge::{refused_status, reports_at};
use drain_answer::outcome::Status;
use drain_answer::print::{print_failure, print_line};
use drain_device::{BodyFault, ByteSink, write_nothing};
use drain_files::open_files::Opener;
use drain_files::output_paths::print_overwriting;
use drain_merge::join;
use drain_merge::merge_verdict::refusal_line;
use drain_union::WindowReport;
use std::alloc::Global;

/// Reads the reports at these paths, one file open at a time, writes the report of their windows' box at another path,
/// prints the line of its verdict and returns the exit status. The file is created once nothing is left to refuse.
pub(crate) fn join_files(
    rt: &HostRuntime,
    reports: &[&str],
    path: &str,
    out: &mut impl ByteSink,
) -> u8 {
    // If standard output is closed no file may be opened, as the first would take its place.
    if write_nothing(out).is_err() {
        return Status::Failed.code();
    }
    let Ok(path) = report_path(rt.alloc(), path) else {
        return print_failure(out, BodyFault::OutOfMemory);
    };
    let mut opener = Opener::new(rt);
    let windows = match reports_at(&mut opener, reports, out) {
        Ok(windows) => windows,
        Err(status) => return status,
    };
    if let Some(status) = print_overwriting(&opener, "the report", path.as_slice()) {
        return status;
    }
    match join_or_print(rt.alloc(), windows, out) {
        Ok(joined) => write_at(rt, path.as_slice(), opener.ids(), &joined, out),
        Err(status) => status,
    }
}

/// The report of the box that these windows fill. If they make none, it prints why and returns the exit status: 2 for a
/// refusal, 3 for `failed OutOfMemory` and if the line can't be written.
pub fn join_or_print<W: ByteSink>(
    alloc: Global,
    windows: Vec<WindowReport>,
    out: &mut W,
) -> Result<WindowReport, u8>
    ensures run { (outcome : Result WindowReportOf RefusalOf) × IsJoinOutcome windows.items outcome × IsBoxHandedOver W.ByteSink out.old out.new outcome result }
{
    match join(alloc, windows) {
        Ok(joined) => Ok(joined),
        Err(refusal) => Err(print_line(out, &refusal_line(refusal), refused_status(refusal))),
    }
}
