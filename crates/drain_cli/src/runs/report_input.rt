//! Reading the report of one window.

ghost use Rattle.std.specs.Prelude.{◌≡◌, ◌≤◌, ◌++◌};
ghost use Rattle.drain_cli.specs.Names.{IfErr, IfOk, MatchResult, OnOk, Some, codes, decimal, length, Consumes, IsAtEnd, Prints, ContentsFit, contents_of, Agree};
ghost use Rattle.arrayvec.specs.ArrayString.{array_string_len};
ghost use Rattle.drain_union.specs.declared.report.WindowReport.{WindowReport as WindowReportOf};
ghost use Rattle.drain_cli.specs.ReportInputs.{fault_line, fault_status, IsBadReport};
ghost use Rattle.drain_cli.specs.WindowRuns.{text_of};
ghost use Rattle.drain_cli.specs.declared.runs.report_input.BadReport.{BadReport};

use drain_answer::lines::{Line, words};
use drain_answer::outcome::Status;
use drain_answer::print::print_line;
use drain_device::{BodyFault, ByteSink, ByteSource};
use drain_files::whole_input::{MAX_TEXT_BYTES, read_text};
use drain_report::{ReportFault, read_report};
use drain_union::WindowReport;
use itoa::Buffer;
use std::alloc::Global;

/// Why a report isn't read.
#[derive(Clone, Copy)]
pub enum BadReport {
    /// Its bytes aren't, or memory ran out.
    Unread(BodyFault),
    /// They aren't the text of a report.
    NoText(ReportFault),
}

/// The report that the source holds, the one in this place of the arguments, counted from 0. If it is none, it prints
/// `refused BadReport PLACE FAULT` and returns the exit status 2; and 3 for `failed OutOfMemory` and `failed ReadFailed`,
/// and if the line can't be written.
pub fn read_or_print<R: ByteSource, W: ByteSink>(
    alloc: Global,
    place: usize,
    from: &mut R,
    out: &mut W,
) -> Result<WindowReport, u8>
    ensures read { IfOk result (λ window. Consumes (R.bytes_left from.old) (R.bytes_left from.new) (text_of window) × IsAtEnd (R.bytes_left from.new)) }
    ensures agree { IfOk result (λ window. Agree window.verdict window.report) }

    // A report that was written is read again, unless the run fails.
    ensures back { (w : WindowReportOf) → ContentsFit (contents_of w) → R.bytes_left from.old ≡ Some (text_of w) → MatchResult result (λ window. contents_of window ≡ contents_of w) (λ code. code ≡ 3) }
    ensures quiet { OnOk result (out.new ≡ out.old) }
    ensures refused { IfErr result (λ code. (why : BadReport) × IsBadReport R.ByteSource from.old from.new why × Prints W.ByteSink out.old out.new (fault_line place why) (fault_status why) code) }
{
    match read_window(alloc, from) {
        Ok(window) => Ok(window),
        Err(why) => Err(print_line(out, &line_of(place, why), status_of(why))),
    }
}

/// The report that the source holds.
#[tactic(auto, unfolding(crate::specs::WindowRuns::text_of))]
fn read_window<R: ByteSource>(alloc: Global, from: &mut R) -> Result<WindowReport, BadReport>
    ensures read { IfOk result (λ window. Consumes (R.bytes_left from.old) (R.bytes_left from.new) (text_of window) × IsAtEnd (R.bytes_left from.new)) }
    ensures agree { IfOk result (λ window. Agree window.verdict window.report) }
    ensures back { (w : WindowReportOf) → ContentsFit (contents_of w) → R.bytes_left from.old ≡ Some (text_of w) → MatchResult result (λ window. contents_of window ≡ contents_of w) (λ why. fault_status why ≡ Status.Failed) }
    ensures why { IfErr result (IsBadReport R.ByteSource from.old from.new) }
{
    let text = match read_text(alloc, from, MAX_TEXT_BYTES) {
        Ok(text) => text,
        Err(fault) => return Err(BadReport::Unread(fault)),
    };
    match read_report(alloc, &text) {
        Ok(report) => Ok(report),
        Err(fault) => Err(BadReport::NoText(fault)),
    }
}

/// The line that says why the report in this place isn't read.
fn line_of(place: usize, why: BadReport) -> Line
    ensures { result.bytes ≡ fault_line place why }
{
    match why {
        BadReport::Unread(BodyFault::ReadFailed) => words("failed ReadFailed"),
        BadReport::Unread(BodyFault::OutOfMemory) | BadReport::NoText(ReportFault::OutOfMemory) => {
            words("failed OutOfMemory")
        }
        BadReport::NoText(ReportFault::WrongVersion) => bad_report(place, "WrongVersion"),
        BadReport::NoText(ReportFault::AfterEnd) => bad_report(place, "AfterEnd"),
        BadReport::NoText(ReportFault::MissingLine(line)) => bad_line(place, "MissingLine ", line),
        BadReport::NoText(ReportFault::BadLine(line)) => bad_line(place, "BadLine ", line),
        BadReport::NoText(ReportFault::OutOfRange(line)) => bad_line(place, "OutOfRange ", line),
    }
}

/// The line of a fault of the whole text.
fn bad_report(place: usize, fault: &str) -> Line
    requires { length fault.now ≤ 40 }
    ensures text { result.bytes ≡ codes "refused BadReport " ++ decimal place ++ codes " " ++ fault.now }
    ensures len { array_string_len result ≤ 100 }
{
    let mut line = words("refused BadReport ");
    let mut digits = Buffer::new();
    line.push_str(digits.format(place));
    line.push_str(" ");
    line.push_str(fault);
    line
}

/// The line of a fault of one line, counted from 1.
fn bad_line(place: usize, fault: &str, number: u64) -> Line
    requires { length fault.now ≤ 40 }
    ensures { result.bytes ≡ codes "refused BadReport " ++ decimal place ++ codes " " ++ fault.now ++ decimal number }
{
    let mut line = bad_report(place, fault);
    let mut digits = Buffer::new();
    line.push_str(digits.format(number));
    line
}

/// The exit status: failed if memory ran out or the source failed, else refused.
fn status_of(why: BadReport) -> Status
    ensures { result ≡ fault_status why }
{
    match why {
        BadReport::Unread(_) | BadReport::NoText(ReportFault::OutOfMemory) => Status::Failed,
        BadReport::NoText(_) => Status::Refused,
    }
}
