//! How far apart the cells of a window's rows are, as its report lists it.

ghost use Rattle.std.specs.Prelude.{◌≡◌, ◌<◌, ◌≤◌};
ghost use Rattle.drain_window.specs.Names.{IfOk, spacing_of};
ghost use Rattle.drain_window.specs.JudgedRows.{AreRowsOf, IsEnough};
ghost use Rattle.drain_window.specs.SeamRows.{EndsInRange};

use drain_grid::{OutOfMemory, Spacing, Spacings};
use drain_union::{Place, same_spacing};
use std::alloc::Global;

/// The spacing of the rows of the window at this place: those up to the last one that differs from the row before it.
pub(crate) fn judged_spacings(
    alloc: Global,
    spacings: &Spacings,
    place: &Place,
) -> Result<Vec<Spacing>, OutOfMemory>
    requires placed { EndsInRange place.now }
    ensures { IfOk result (λ listed. AreRowsOf (spacing_of spacings.now) place.now listed.items) }
{
    let mut listed = Vec::new(alloc);
    for row in 0..rows_to_list(spacings, place) {
        listed.push(spacings.of_row(place.top + row))?;
    }
    Ok(listed)
}

/// How many rows are listed: the others are as the last of them, and all are square if it is none.
fn rows_to_list(spacings: &Spacings, place: &Place) -> u32
    requires placed { EndsInRange place.now }
    ensures few { result ≤ place.now.extent.rows }
    ensures enough { IsEnough (spacing_of spacings.now) place.now result }
{
    let mut rows = 0;
    let mut last = Spacing::unit();
    for row in 0..place.extent.rows() {
        let here = spacings.of_row(place.top + row);
        if !same_spacing(here, last) {
            rows = row + 1;
            last = here;
        }
    }
    rows
}
