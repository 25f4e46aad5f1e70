//! Whether windows agree on how far apart the cells of their rows are.
//!
//! Windows side by side share rows and hardly a cell, so what they show along their seams isn't enough. Reports on
//! different distances can't be merged: no one grid has them all.

ghost use Rattle.std.specs.Prelude.{◌≡◌, ◌↔◌, ◌+◌, ◌<◌, ◌≤◌, ◌^◌};
ghost use Rattle.drain_merge.specs.Names.{IsTrue, ℕ, SpacedAlike, spacing_at};
ghost use Rattle.drain_merge.specs.Merges.{HaveRowsAlike, IsFirstSpacedOther};
ghost use Rattle.drain_merge.specs.Places.{IsFirstFailing};

use drain_grid::Spacing;
use drain_union::place::end_of;
use drain_union::{Report, WindowReport, same_spacing, spacing_at};

/// The first window that lists another spacing than an earlier one for a row that both have.
pub(crate) fn first_other_spacing(windows: &[WindowReport]) -> Option<usize>
    ensures { IsFirstSpacedOther windows.now result }
{
    for later in 0..windows.len() {
        if let Some(_earlier) = first_unlike(&windows[..later], &windows[later]) {
            return Some(later);
        }
    }
    None
}

/// The first of the windows that lists another spacing than this one for a row that both have.
fn first_unlike(windows: &[WindowReport], window: &WindowReport) -> Option<usize>
    ensures { IsFirstFailing (λ v. HaveRowsAlike v window.now) windows.now result }
{
    for i in 0..windows.len() {
        if !have_rows_alike(&windows[i], window) {
            return Some(i);
        }
    }
    None
}

/// Whether the rows that both windows have are listed as spaced the same.
fn have_rows_alike(a: &WindowReport, b: &WindowReport) -> bool
    ensures { IsTrue result ↔ HaveRowsAlike a.now b.now }
{
    are_spaced_alike(&a.report, &b.report)
}

/// The same of their reports.
fn are_spaced_alike(a: &Report, b: &Report) -> bool
    ensures { IsTrue result ↔ SpacedAlike a.now b.now }
{
    let top = a.place.top.max(b.place.top);
    let end_a = end_of(a.place.top, a.place.extent.rows());
    let end_b = end_of(b.place.top, b.place.extent.rows());
    let count = end_a.min(end_b).saturating_sub(u64::from(top));
    same_rows(
        &a.spacings,
        &b.spacings,
        top - a.place.top,
        top - b.place.top,
        count as u32,
    )
}

/// Whether so many rows, from one of the first list and from one of the second, are spaced the same.
fn same_rows(a: &[Spacing], b: &[Spacing], from_a: u32, from_b: u32, count: u32) -> bool
    requires of_a { from_a + count < 2 ^ 32 }
    requires of_b { from_b + count < 2 ^ 32 }
    ensures { IsTrue result ↔ ((k : ℕ) → k < count → spacing_at a.now (from_a + k) ≡ spacing_at b.now (from_b + k)) }
{
    for k in 0..rows_to_compare(a, b, count) {
        if !same_spacing(spacing_at(a, from_a + k), spacing_at(b, from_b + k)) {
            return false;
        }
    }
    true
}

/// How many of so many rows are compared: of two windows that list a row at most, one.
fn rows_to_compare(a: &[Spacing], b: &[Spacing], count: u32) -> u32
    ensures few { result ≤ count }
    ensures enough { (from_a from_b : ℕ) → ((k : ℕ) → k < result → spacing_at a.now (from_a + k) ≡ spacing_at b.now (from_b + k)) → (k : ℕ) → k < count → spacing_at a.now (from_a + k) ≡ spacing_at b.now (from_b + k) }
{
    if a.len() <= 1 && b.len() <= 1 {
        count.min(1)
    } else {
        count
    }
}
