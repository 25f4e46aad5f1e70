//! What all windows list, put together.

ghost use Rattle.std.specs.Prelude.{◌≡◌, ◌++◌, [], IfOk};
ghost use Rattle.drain_merge.specs.Places.{all_outlets, all_seams, all_sinks};

use drain_grid::{Cell, OutOfMemory};
use drain_union::{Outlet, Shown, WindowReport};
use std::alloc::Global;

/// What windows list: their outlets, what they show along their seams, and the listed sinks that they took.
#[derive(Drop)]
pub(crate) struct Lists {
    pub outlets: Vec<Outlet>,
    pub seams: Vec<Shown>,
    pub sinks: Vec<Cell>,
}

/// The lists of all windows. Room for all is taken first; those of a window are freed once they are copied.
pub(crate) fn all_lists(alloc: Global, windows: Vec<WindowReport>) -> Result<Lists, OutOfMemory>
    ensures outlets { IfOk result (λ lists. lists.outlets.items ≡ all_outlets windows.items) }
    ensures seams { IfOk result (λ lists. lists.seams.items ≡ all_seams windows.items) }
    ensures sinks { IfOk result (λ lists. lists.sinks.items ≡ all_sinks windows.items) }
{
    let mut lists = room_for(alloc, &windows)?;
    for window in windows {
        lists = with_window(lists, window)?;
    }
    Ok(lists)
}

/// Empty lists with room for those of these windows.
fn room_for(alloc: Global, windows: &[WindowReport]) -> Result<Lists, OutOfMemory>
    ensures outlets { IfOk result (λ lists. lists.outlets.items ≡ []) }
    ensures seams { IfOk result (λ lists. lists.seams.items ≡ []) }
    ensures sinks { IfOk result (λ lists. lists.sinks.items ≡ []) }
{
    let mut outlets = 0usize;
    let mut seams = 0usize;
    let mut sinks = 0usize;
    for window in windows {
        outlets = outlets.saturating_add(window.report.outlets.len());
        seams = seams.saturating_add(window.report.seams.len());
        sinks = sinks.saturating_add(window.report.sinks.len());
    }
    Ok(Lists {
        outlets: Vec::with_capacity(alloc, outlets)?,
        seams: Vec::with_capacity(alloc, seams)?,
        sinks: Vec::with_capacity(alloc, sinks)?,
    })
}

/// The lists with those of one window more.
fn with_window(mut lists: Lists, window: WindowReport) -> Result<Lists, OutOfMemory>
    ensures outlets { IfOk result (λ more. more.outlets.items ≡ lists.outlets.items ++ window.report.outlets) }
    ensures seams { IfOk result (λ more. more.seams.items ≡ lists.seams.items ++ window.report.seams) }
    ensures sinks { IfOk result (λ more. more.sinks.items ≡ lists.sinks.items ++ window.report.sinks) }
{
    lists.outlets.extend_from_slice(&window.report.outlets)?;
    lists.seams.extend_from_slice(&window.report.seams)?;
    lists.sinks.extend_from_slice(&window.report.sinks)?;
    Ok(lists)
}
