//! What all windows of a union count and list, put together.

ghost use Rattle.std.specs.Prelude.{◌≡◌, ◌↔◌, ◌+◌};
ghost use Rattle.drain_merge.specs.Names.{IfErr, IfOk, IsTrue, OnOk, Cell, is_among};
ghost use Rattle.drain_merge.specs.UnionSinks.{IsFirstLeftOut, IsFirstNotListed, IsListedRefusal, IsSinkRefusal, TakeLines, TakeSinks};
ghost use Rattle.drain_merge.specs.Places.{places_of};
ghost use Rattle.drain_merge.specs.Totals.{AreCountsOf, capped, data_cells_of, raised_of, outlets_of};

use crate::merge_verdict::MergeRefusal;
use drain_grid::{Cell, OutOfMemory, Sinks};
use drain_union::{Place, UnionCounts, UnionSize, UnionVerdict, WindowReport};
use std::alloc::Global;
use std::collections::BTreeSet;

/// Which sinks a union has.
#[derive(Drop)]
pub enum UnionSinks {
    /// Those that its windows took.
    AsTaken,
    /// Those of this list, whose rows and columns count from the union's first cell.
    Listed(Sinks),
}

/// Refuses windows that took these sinks, if the union has others.
pub(crate) fn check_sinks(
    alloc: Global,
    taken: &[Cell],
    union: &UnionSinks,
) -> Result<(), MergeRefusal>
    ensures same { OnOk result (TakeSinks union.now taken.now) }
    ensures refusal { IfErr result (IsSinkRefusal union.now taken.now) }
{
    match union {
        UnionSinks::AsTaken => Ok(()),
        UnionSinks::Listed(listed) => check_listed(alloc, taken, listed),
    }
}

/// Refuses windows that took these sinks, if the list has others.
fn check_listed(alloc: Global, taken: &[Cell], listed: &Sinks) -> Result<(), MergeRefusal>
    ensures same { OnOk result (TakeLines listed.now taken.now) }
    ensures refusal { IfErr result (IsListedRefusal listed.now taken.now) }
{
    let set = set_of(alloc, taken)?;
    if let Some(line) = first_left_out(listed, &set) {
        return Err(MergeRefusal::SinkLeftOut(line));
    }
    match first_not_listed(taken, listed) {
        Some(cell) => Err(MergeRefusal::SinkNotListed(cell)),
        None => Ok(()),
    }
}

/// The cells as a set.
fn set_of(alloc: Global, cells: &[Cell]) -> Result<BTreeSet<Cell>, OutOfMemory>
    ensures { IfOk result (λ set. (c : Cell) → is_among set.keys c ≡ is_among cells.now c) }
{
    let mut set = BTreeSet::new(alloc);
    for cell in cells {
        set.insert(*cell)?;
    }
    Ok(set)
}

/// The number of the first line whose cell isn't in the set.
fn first_left_out(listed: &Sinks, taken: &BTreeSet<Cell>) -> Option<u64>
    ensures { IsFirstLeftOut listed.now taken.now.keys result }
{
    for i in 0..listed.count() {
        let (line, cell) = listed.entry(i);
        if !taken.contains(&cell) {
            return Some(line);
        }
    }
    None
}

/// The first of these cells that isn't listed.
fn first_not_listed(taken: &[Cell], listed: &Sinks) -> Option<Cell>
    ensures { IsFirstNotListed listed.now taken.now result }
{
    for cell in taken {
        if !listed.has(*cell) {
            return Some(*cell);
        }
    }
    None
}

/// The counts of a union of this size: the sums of those of its windows.
pub(crate) fn total(size: UnionSize, windows: &[WindowReport]) -> UnionCounts
    ensures { AreCountsOf size windows.now result }
{
    let mut counts = UnionCounts {
        rows: size.rows(),
        cols: size.cols(),
        data_cells: 0,
        raised: 0,
        outlets: 0,
    };
    for window in windows {
        counts = with_window(counts, window);
    }
    counts
}

/// The counts with those of one window more.
fn with_window(counts: UnionCounts, window: &WindowReport) -> UnionCounts
    ensures rows { result.rows ≡ counts.rows }
    ensures cols { result.cols ≡ counts.cols }
    ensures data_cells { result.data_cells ≡ capped (counts.data_cells + data_cells_of window.now) }
    ensures raised { result.raised ≡ capped (counts.raised + raised_of window.now) }
    ensures outlets { result.outlets ≡ capped (counts.outlets + outlets_of window.now) }
{
    match &window.verdict {
        UnionVerdict::Accepted(more) => UnionCounts {
            rows: counts.rows,
            cols: counts.cols,
            data_cells: counts.data_cells.saturating_add(more.data_cells),
            raised: counts.raised.saturating_add(more.raised),
            outlets: counts.outlets.saturating_add(more.outlets),
        },
        UnionVerdict::Rejected { .. } => counts,
    }
}

/// Where the windows lie.
pub(crate) fn places(alloc: Global, windows: &[WindowReport]) -> Result<Vec<Place>, OutOfMemory>
    ensures { IfOk result (λ places. places.items ≡ places_of windows.now) }
{
    let mut places = Vec::new(alloc);
    for window in windows {
        places.push(window.report.place)?;
    }
    Ok(places)
}
