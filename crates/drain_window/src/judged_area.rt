//! The judged cells of a window.

ghost use Rattle.std.specs.Prelude.{◌≡◌};
ghost use Rattle.drain_window.specs.Names.{IfOk, length, IsJudgedAt, IsOrigin};
ghost use Rattle.drain_window.specs.JudgedAreas.{judged_area, AreLinesInside, union_cell};
ghost use Rattle.drain_window.specs.SeamRows.{EndsInRange};

use drain_grid::{Cell, OutOfMemory, Sinks};
use drain_rules::Area;
use drain_union::Place;
use std::alloc::Global;

/// The cells of the place that are judged: all but the ring of its inner sides.
pub(crate) fn judged_area(place: &Place) -> Area
    requires { EndsInRange place.now }
    ensures { result ≡ judged_area place.now }
{
    let inner = place.inner;
    let bottom = place.top + place.extent.rows();
    let right = place.left + place.extent.cols();
    Area {
        top: place.top + u32::from(inner.north),
        bottom: bottom.saturating_sub(u32::from(inner.south)),
        left: place.left + u32::from(inner.west),
        right: right.saturating_sub(u32::from(inner.east)),
    }
}

/// The union's cells of these sinks that the window at this place of a mosaic judges; the mosaic begins at the union's
/// cell `origin`.
pub(crate) fn judged_sinks(
    alloc: Global,
    sinks: &Sinks,
    place: &Place,
    origin: Cell,
) -> Result<Vec<Cell>, OutOfMemory>
    requires placed { EndsInRange place.now }
    requires moved { IsOrigin origin }
    ensures { IfOk result (λ cells. AreLinesInside origin place.now sinks.now (length sinks.now) cells.items) }
{
    let mut cells = Vec::new(alloc);
    for i in 0..sinks.count() {
        let (_line, cell) = sinks.entry(i);
        if place.judges(cell) {
            cells.push(union_cell(place, origin, cell))?;
        }
    }
    Ok(cells)
}

/// The union's cell that is this judged cell of the mosaic.
fn union_cell(place: &Place, origin: Cell, cell: Cell) -> Cell
    requires placed { EndsInRange place.now }
    requires moved { IsOrigin origin }
    requires judged { IsJudgedAt place.now cell }
    ensures { result ≡ union_cell origin cell }
{
    Cell {
        row: origin.row + cell.row,
        col: origin.col + cell.col,
    }
}
