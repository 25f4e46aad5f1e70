//! Writing a report.

ghost use Rattle.std.specs.Prelude.{◌≡◌};
ghost use Rattle.drain_report.specs.Names.{IfOk, OnOk, Agree};
ghost use Rattle.drain_report.specs.Contents.{ContentsFit, contents_of, report_text};

use crate::head::{Head, push_head};
use crate::lines::push;
use crate::lists::push_list;
use crate::spacings::push_spacings;
use drain_grid::OutOfMemory;
use drain_union::WindowReport;
use std::alloc::Global;

/// The text of a report, in ASCII.
///
/// The lists are as long as 32 bits count, and counts of cells are signed numbers of 64 bits; a longer list and a larger
/// count are refused as memory is.
pub fn write_report(alloc: Global, window: &WindowReport) -> Result<Vec<u8>, OutOfMemory>
    ensures written { IfOk result (λ text. text.items ≡ report_text (contents_of window.now)) }

    // So from this text the report is read again.
    ensures in_range { OnOk result (Agree window.now.verdict window.now.report → ContentsFit (contents_of window.now)) }
{
    let mut text = Vec::new(alloc);
    let report = &window.report;
    let head = Head {
        grid: window.grid,
        place: report.place,
        nodata: report.nodata,
        verdict: window.verdict,
    };
    push_head(&mut text, &head)?;
    push_spacings(&mut text, &report.spacings)?;
    push_list(&mut text, "tiles", &window.tiles)?;
    push_list(&mut text, "sinks", &report.sinks)?;
    push_list(&mut text, "outlets", &report.outlets)?;
    push_list(&mut text, "seams", &report.seams)?;
    push(&mut text, b"end\n")?;
    Ok(text)
}
