//! How far apart the cells of the rows of a box are, from the windows that fill it.

ghost use Rattle.std.specs.Prelude.{◌≡◌, ◌↔◌, ◌+◌, ◌-◌, ◌<◌, ◌^◌};
ghost use Rattle.drain_merge.specs.Names.{ℕ, take, IsTrue, IfOk, [], length, All, spacing_at};
ghost use Rattle.drain_merge.specs.BoxReports.{HasRow, IsSpacingOfRow, SpacesBox, spacing_in};
ghost use Rattle.drain_merge.specs.Merges.{HaveOneSpacing};
ghost use Rattle.drain_merge.specs.Unjudged.{HasCells};

use drain_grid::{OutOfMemory, Spacing};
use drain_union::place::end_of;
use drain_union::{Place, WindowReport, spacing_at};
use std::alloc::Global;

/// The spacing of each row of the box, from the windows that have it. Rows at the end that are as the one before them are
/// left out.
pub(crate) fn joined_spacings(
    alloc: Global,
    bounds: &Place,
    windows: &[WindowReport],
) -> Result<Vec<Spacing>, OutOfMemory>
    requires one { HaveOneSpacing windows.now }
    requires cells { HasCells bounds.now }
    ensures { IfOk result (λ listed. SpacesBox bounds.now windows.now listed.items) }
{
    if none_lists(windows) {
        return Ok(Vec::new(alloc));
    }
    let listed = spacings_of_rows(alloc, bounds, windows)?;
    Ok(shortened(listed))
}

/// Whether no window lists the spacing of a row: cells are square.
fn none_lists(windows: &[WindowReport]) -> bool
    ensures { IsTrue result → All (λ w. w.report.spacings ≡ []) windows.now }
{
    for window in windows {
        if !lists_none(window) {
            return false;
        }
    }
    true
}

/// Whether the window lists the spacing of no row.
fn lists_none(window: &WindowReport) -> bool
    ensures { IsTrue result → window.now.report.spacings ≡ [] }
{
    window.report.spacings.is_empty()
}

/// The spacing of each row of the box.
fn spacings_of_rows(
    alloc: Global,
    bounds: &Place,
    windows: &[WindowReport],
) -> Result<Vec<Spacing>, OutOfMemory>
    requires cells { HasCells bounds.now }
    ensures len { IfOk result (λ listed. length listed.items ≡ bounds.now.extent.rows) }
    ensures each { IfOk result (λ listed. (row : ℕ) → row < bounds.now.extent.rows → IsSpacingOfRow windows.now (bounds.now.top + row) (spacing_at listed.items row)) }
{
    let mut listed = Vec::new(alloc);
    for row in 0..bounds.extent.rows() {
        listed.push(spacing_of_row(windows, bounds.top + row))?;
    }
    Ok(listed)
}

/// The spacing of this row of the map in the first window that has it, 1 and 1 if none has it.
fn spacing_of_row(windows: &[WindowReport], row: u32) -> Spacing
    ensures { IsSpacingOfRow windows.now row result }
{
    for window in windows {
        if has_row(window, row) {
            return spacing_in(window, row);
        }
    }
    Spacing::unit()
}

/// Whether the map's row is one of the window's.
fn has_row(window: &WindowReport, row: u32) -> bool
    ensures { IsTrue result ↔ HasRow window.now row }
{
    let place = window.report.place;
    place.top <= row && u64::from(row) < end_of(place.top, place.extent.rows())
}

/// The spacing that the window lists for this row of the map.
fn spacing_in(window: &WindowReport, row: u32) -> Spacing
    ensures { result ≡ spacing_in window.now row }
{
    spacing_at(
        &window.report.spacings,
        row.saturating_sub(window.report.place.top),
    )
}

/// The list without the rows at its end that are as the one before them.
fn shortened(listed: Vec<Spacing>) -> Vec<Spacing>
    ensures { (row : ℕ) → spacing_at result.items row ≡ spacing_at listed.items row }
{
    let mut listed = listed;
    while last_repeats(&listed) {
        listed.pop();
    }
    listed
}

/// Whether there is a last one, and without it each row is spaced as with it.
fn last_repeats(listed: &[Spacing]) -> bool
    ensures some { IsTrue result → 0 < length listed.now }
    ensures same { IsTrue result → (row : ℕ) → spacing_at (take (length listed.now - 1) listed.now) row ≡ spacing_at listed.now row }
{
    let count = listed.len();
    if count == 0 {
        return false;
    }
    let last = listed[count - 1];
    let before = if count == 1 {
        Spacing::unit()
    } else {
        listed[count - 2]
    };
    last.width == before.width && last.height == before.height && last.kind == before.kind
}
