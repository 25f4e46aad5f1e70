//! Reading a report.

ghost use Rattle.std.specs.Prelude.{◌≡◌};
ghost use Rattle.drain_report.specs.Names.{ℕ, IfErr, IfOk, OnOk, IsOk, MatchResult, Agree, is_accepted};
ghost use Rattle.drain_report.specs.Faults.{FaultFits, IsAt, IsEndFault};
ghost use Rattle.drain_report.specs.Contents.{Contents, ContentsFit, contents_of, end_line, report_text};

use crate::fault::ReportFault;
use crate::head::read_head;
use crate::lines::{Lines, after_word, unread};
use crate::lists::read_list;
use crate::spacings::read_spacings;
use drain_union::{Report, UnionVerdict, WindowReport};
use std::alloc::Global;

/// The report that a text holds.
///
/// The lines stand in the order in which they are written, each number as it is printed; the first line that differs
/// is the fault.
pub fn read_report(alloc: Global, text: &[u8]) -> Result<WindowReport, ReportFault>
    ensures sound { IfOk result (λ window. text.now ≡ report_text (contents_of window)) }
    ensures holds { IfOk result (λ window. Agree window.verdict window.report) }

    // What was written is read again, unless memory runs out.
    ensures back { (w : Contents) → ContentsFit w → text.now ≡ report_text w → MatchResult result (λ window. contents_of window ≡ w) (λ fault. fault ≡ ReportFault.OutOfMemory) }

    // What a fault says of the text.
    ensures fault { IfErr result (FaultFits text.now) }
{
    let (head, lines) = match read_head(text) {
        Ok(read) => read,
        Err(fault) => return Err(fault),
    };
    let (spacings, lines) = match read_spacings(alloc, lines) {
        Ok(read) => read,
        Err(fault) => return Err(fault),
    };
    let (tiles, lines) = match read_list(alloc, lines, "tiles") {
        Ok(read) => read,
        Err(fault) => return Err(fault),
    };
    let (sinks, lines) = match read_list(alloc, lines, "sinks") {
        Ok(read) => read,
        Err(fault) => return Err(fault),
    };
    let (outlets, lines) = match read_list(alloc, lines, "outlets") {
        Ok(read) => read,
        Err(fault) => return Err(fault),
    };
    let (seams, lines) = match read_list(alloc, lines, "seams") {
        Ok(read) => read,
        Err(fault) => return Err(fault),
    };
    if let Err(fault) = read_end(lines) {
        return Err(fault);
    }
    Ok(WindowReport {
        grid: head.grid,
        tiles,
        verdict: head.verdict,
        report: Report {
            place: head.place,
            spacings,
            nodata: head.nodata,
            holds: accepts(&head.verdict),
            outlets,
            seams,
            sinks,
        },
    })
}

/// Whether the rules hold, by the verdict.
fn accepts(verdict: &UnionVerdict) -> bool
    ensures { result ≡ is_accepted verdict.now }
{
    match verdict {
        UnionVerdict::Accepted(_) => true,
        UnionVerdict::Rejected(_) => false,
    }
}

/// Reads the last line, after which nothing follows.
fn read_end(lines: Lines) -> Result<(), ReportFault>
    ensures sound { OnOk result (lines.entry.rest.now ≡ end_line) }
    ensures back { lines.entry.rest.now ≡ end_line → IsOk result }
    ensures fault { (feeds : ℕ) → IsAt feeds lines.entry.number lines.entry.rest.now → IfErr result (IsEndFault feeds lines.entry.number lines.entry.rest.now) }
{
    let Some(rest) = after_word(lines.rest, b"end\n") else {
        return Err(unread(lines));
    };
    if rest.is_empty() {
        Ok(())
    } else {
        Err(ReportFault::AfterEnd)
    }
}
