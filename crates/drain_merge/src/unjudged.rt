//! The first cell of a box that no window judges.

ghost use Rattle.std.specs.Prelude.{◌≡◌, ◌↔◌, ◌<◌, ◌≤◌, ◌^◌, ◌++◌, ◌∷◌};
ghost use Rattle.drain_merge.specs.Names.{[], map, length, IsTrue, IfOk, IsNonDecreasing, IsPermutation, judged_bottom, judged_left, judged_right, judged_top};
ghost use Rattle.drain_merge.specs.Unjudged.{HasCells, IsFirstUnjudged, IsFirstInRow, IsFirstCrossing, IsNewBetween};

use crate::edges::{bottom_of, is_judged, left_of, right_of, top_of};
use drain_grid::{Cell, OutOfMemory};
use drain_union::Place;
use drain_union::place::end_of;
use std::alloc::Global;

/// Whether each row and column of the box is a number of 32 bits.
pub(crate) fn has_cells(bounds: &Place) -> bool
    ensures { IsTrue result ↔ HasCells bounds.now }
{
    let end = u64::from(u32::MAX) + 1;
    end_of(bounds.top, bounds.extent.rows()) <= end
        && end_of(bounds.left, bounds.extent.cols()) <= end
}

/// The first cell that the box judges, in row order, and that none of these windows judges.
pub(crate) fn first_unjudged(
    alloc: Global,
    bounds: &Place,
    places: &[Place],
) -> Result<Option<Cell>, OutOfMemory>
    requires { HasCells bounds.now }
    ensures { IfOk result (IsFirstUnjudged bounds.now places.now) }
{
    let rows = corner_rows(alloc, bounds, places)?;
    let cols = corner_cols(alloc, bounds, places)?;
    Ok(first_crossing(bounds, &rows, &cols, places))
}

/// The corner rows of these windows in the box, from north to south.
fn corner_rows(alloc: Global, bounds: &Place, places: &[Place]) -> Result<Vec<u64>, OutOfMemory>
    ensures rising { IfOk result (λ rows. IsNonDecreasing rows.items) }
    ensures theirs { IfOk result (λ rows. IsPermutation (map judged_bottom places.now ++ judged_top bounds.now ∷ []) rows.items) }
{
    let ends: Result<Vec<u64>, _> = places.iter().map(|place| bottom_of(place)).collect(alloc);
    rising_with(ends?, top_of(bounds))
}

/// The corner columns of these windows in the box, from west to east.
fn corner_cols(alloc: Global, bounds: &Place, places: &[Place]) -> Result<Vec<u64>, OutOfMemory>
    ensures rising { IfOk result (λ cols. IsNonDecreasing cols.items) }
    ensures theirs { IfOk result (λ cols. IsPermutation (map judged_right places.now ++ judged_left bounds.now ∷ []) cols.items) }
{
    let ends: Result<Vec<u64>, _> = places.iter().map(|place| right_of(place)).collect(alloc);
    rising_with(ends?, left_of(bounds))
}

/// These ends and the first number, the smallest first.
pub(crate) fn rising_with(mut ends: Vec<u64>, first: u64) -> Result<Vec<u64>, OutOfMemory>
    ensures rising { IfOk result (λ corners. IsNonDecreasing corners.items) }
    ensures theirs { IfOk result (λ corners. IsPermutation (ends.items ++ first ∷ []) corners.items) }
{
    ends.push(first)?;
    ends.sort_unstable();
    Ok(ends)
}

/// The first crossing of these rows and columns, in row order, that the box judges and no window does.
fn first_crossing(bounds: &Place, rows: &[u64], cols: &[u64], places: &[Place]) -> Option<Cell>
    requires cells { HasCells bounds.now }
    requires rows_rise { IsNonDecreasing rows.now }
    requires cols_rise { IsNonDecreasing cols.now }
    ensures { IsFirstCrossing bounds.now rows.now cols.now places.now result }
{
    let top = top_of(bounds);
    let bottom = bottom_of(bounds);
    let left = left_of(bounds);
    let right = right_of(bounds);
    for i in 0..rows.len() {
        if is_new_between(rows, i, top, bottom) {
            let row = rows[i] as u32;
            if let Some(col) = first_along(left, right, row, cols, places) {
                return Some(Cell { row, col });
            }
        }
    }
    None
}

/// The first of these columns of a row, from one up to another, that no window judges.
fn first_along(from: u64, end: u64, row: u32, cols: &[u64], places: &[Place]) -> Option<u32>
    requires cells { end ≤ 2 ^ 32 }
    requires rise { IsNonDecreasing cols.now }
    ensures { IsFirstInRow from end row cols.now places.now result }
{
    for i in 0..cols.len() {
        if is_new_between(cols, i, from, end) {
            let col = cols[i] as u32;
            if !is_judged(places, Cell { row, col }) {
                return Some(col);
            }
        }
    }
    None
}

/// Whether the number at this place is one from here up to the end, and isn't the one before it.
fn is_new_between(numbers: &[u64], place: usize, from: u64, end: u64) -> bool
    requires { place < length numbers.now }
    ensures { IsTrue result ↔ IsNewBetween numbers.now place from end }
{
    let number = numbers[place];
    from <= number && number < end && (place == 0 || numbers[place - 1] != number)
}
