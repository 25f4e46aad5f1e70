//! Whether places fill a box, found fast where they do.
//!
//! The box's columns are parted where judged columns of a place end. Places are laid from north to south: each has to
//! begin, in all parts that it takes, where the ones laid there before end.

ghost use Rattle.std.specs.Prelude.{◌≡◌, ◌<◌, ◌≤◌};
ghost use Rattle.drain_merge.specs.Names.{length, slice_index, IsTrue, IfOk, IfSome, IsNonDecreasing, IsPermutation};
ghost use Rattle.drain_merge.specs.Filling.{AreEndsOf, AreLaid, Fill, IsLaid, IsMoved, ReachAllOver};

use crate::edges::{bottom_of, left_of, right_of, top_of};
use crate::unjudged::rising_with;
use drain_grid::OutOfMemory;
use drain_union::Place;
use std::alloc::Global;

/// Whether the places judge each cell that the box judges, and none in common. A no is no answer: places that stick out
/// of the box, or have no judged rows or columns, may get it too.
pub(crate) fn fills(alloc: Global, bounds: &Place, places: &[Place]) -> Result<bool, OutOfMemory>
    ensures { IfOk result (λ yes. IsTrue yes → Fill bounds.now places.now) }
{
    let from_north = from_north(alloc, places)?;
    let ends = ends_in(alloc, bounds, places)?;
    if !are_ends_of(bounds, &ends) {
        return Ok(false);
    }
    let Some(levels) = levels_of(alloc, &ends, top_of(bounds), &from_north)? else {
        return Ok(false);
    };
    Ok(reach(&ends, &levels, bottom_of(bounds)))
}

/// These places, those first that begin farther north.
fn from_north(alloc: Global, places: &[Place]) -> Result<Vec<Place>, OutOfMemory>
    ensures { IfOk result (λ sorted. IsPermutation places.now sorted.items) }
{
    let copied: Result<Vec<Place>, _> = places.iter().copied().collect(alloc);
    let mut sorted = copied?;
    sorted.sort_unstable_by_key(|place| top_of(place));
    Ok(sorted)
}

/// The box's first judged column, and the ends of the judged columns of places, from west to east.
fn ends_in(alloc: Global, bounds: &Place, places: &[Place]) -> Result<Vec<u64>, OutOfMemory>
    ensures { IfOk result (λ ends. IsNonDecreasing ends.items) }
{
    let ends: Result<Vec<u64>, _> = places.iter().map(|place| right_of(place)).collect(alloc);
    let mut rising = rising_with(ends?, left_of(bounds))?;
    rising.dedup();
    Ok(rising)
}

/// Whether these ends begin and end where the judged columns of the box do.
fn are_ends_of(bounds: &Place, ends: &[u64]) -> bool
    ensures { IsTrue result → AreEndsOf bounds.now ends.now }
{
    let count = ends.len();
    count > 0 && ends[0] == left_of(bounds) && ends[count - 1] == right_of(bounds)
}

/// For each of these ends but the last, the end of the judged rows of the places there, which are laid one by one; none
/// where a place doesn't begin where earlier ones end.
fn levels_of(
    alloc: Global,
    ends: &[u64],
    start: u64,
    places: &[Place],
) -> Result<Option<Vec<u64>>, OutOfMemory>
    requires { IsNonDecreasing ends.now }
    ensures { IfOk result (λ levels. IfSome levels (λ all. AreLaid start ends.now all.items places.now)) }
{
    let mut levels = vec![in alloc; start; ends.len()]?;
    for place in places {
        if !lay(ends, levels.as_mut_slice(), place) {
            return Ok(None);
        }
    }
    Ok(Some(levels))
}

/// Lays a place on the others: whether it begins where they end.
fn lay(ends: &[u64], levels: &mut [u64], place: &Place) -> bool
    requires rise { IsNonDecreasing ends.now }
    requires sized { length levels.old ≡ length ends.now }
    ensures { IsTrue result → IsLaid ends.now levels.old place.now levels.new }
{
    let top = top_of(place);
    let bottom = bottom_of(place);
    if bottom < top {
        return false;
    }
    let Some(from) = index_of(ends, left_of(place)) else {
        return false;
    };
    let Some(to) = index_of(ends, right_of(place)) else {
        return false;
    };
    move_levels(levels, from, to, top, bottom)
}

/// Where this end stands among those.
fn index_of(ends: &[u64], end: u64) -> Option<usize>
    ensures { IfSome result (λ i. (i < length ends.now) × (slice_index ends.now i ≡ end)) }
{
    ends.binary_search(&end).ok()
}

/// Moves levels down to the bottom, from one up to another: whether all of them were at the top.
fn move_levels(levels: &mut [u64], from: usize, to: usize, top: u64, bottom: u64) -> bool
    requires { to ≤ length levels.old }
    ensures { IsTrue result → IsMoved from to top bottom levels.old levels.new }
{
    for k in from..to {
        if levels[k] != top {
            return false;
        }
        levels[k] = bottom;
    }
    true
}

/// Whether each level but the last is the bottom.
fn reach(ends: &[u64], levels: &[u64], bottom: u64) -> bool
    requires { length levels.now ≡ length ends.now }
    ensures { IsTrue result → ReachAllOver ends.now bottom levels.now }
{
    for k in 1..ends.len() {
        if levels[k - 1] != bottom {
            return false;
        }
    }
    true
}
