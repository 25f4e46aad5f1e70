//! The filled surface of a ground with the marks of its cells, from which ways are found.

ghost use Rattle.std.specs.Prelude.{◌≡◌, ◌*◌, ◌<◌};
ghost use Rattle.drain_filled.specs.Names.{ℕ, IfOk, IsNone, length, pos, slice_index_or, Cell, Grid, IsInside, height_at, IsPixel, IsSurfaceOf, con_at};
ghost use Rattle.drain_filled.specs.Compared.{HasHeights};
ghost use Rattle.drain_filled.specs.Grounds.{ArePixelHeights, HasDataCells, IsVoided};

use crate::first_marks::fill;
use crate::ground::Ground;
use drain_flood::layers::UNREACHED;
use drain_flood::{Surface, WideHeights};
use drain_grid::values::{GREATEST_PIXEL, LEAST_PIXEL};
use drain_grid::{OutOfMemory, Sinks};
use std::alloc::Global;

/// The filled surface of a ground, with this number at each void.
///
/// Elevations are in row order, one for each cell, and play no part where the ground has no data. The surface takes their
/// memory. `OutOfMemory` if memory was refused.
pub fn filled_surface(
    alloc: Global,
    ground: &Ground,
    elevation: Vec<i64>,
    sinks: &Sinks,
    void: i64,
) -> Result<Surface<WideHeights>, OutOfMemory>
    requires elevation_counted { length elevation.items ≡ ground.now.extent.rows * ground.now.extent.cols }
    requires void { IsPixel void }
    ensures extent { IfOk result (λ surface. surface.extent ≡ ground.now.extent) }
    ensures surface { IfOk result (λ surface. (g : Grid) → HasDataCells g ground.now sinks.now → HasHeights g (height_at g) elevation.items → ArePixelHeights g → IsSurfaceOf g surface) }
    ensures voids { IfOk result (λ surface. (g : Grid) → HasDataCells g ground.now sinks.now → (c : Cell) → IsInside g c → IsNone (g.elevation c) → con_at g.extent surface c ≡ void) }
{
    let shape = ground.shape();
    let _cells = shape.cells();
    let flood = fill(alloc, ground, elevation, sinks)?;
    let (mut con, marks) = flood.into_parts();
    put_voids(ground, void, &mut con);
    Ok(Surface::new(shape, WideHeights::new(con), marks))
}

/// Puts this number at each cell without data. Heights that are pixels stay.
fn put_voids(ground: &Ground, void: i64, con: &mut Vec<i64>)
    requires counted { length con.old.items ≡ ground.now.extent.rows * ground.now.extent.cols }
    requires void { IsPixel void }
    ensures len { length con.new.items ≡ length con.old.items }
    ensures each { (k : ℕ) → k < length con.old.items → IsVoided void (slice_index_or ground.now.marks k 0) (slice_index_or con.old.items k (pos 0)) (slice_index_or con.new.items k (pos 0)) }
{
    let marks = ground.marks();
    for place in 0..con.len() {
        con[place] = voided(void, marks[place], con[place]);
    }
}

/// The height where there is data, else this number.
fn voided(void: i64, mark: u8, height: i64) -> i64
    requires { IsPixel void }
    ensures { IsVoided void mark height result }
{
    if mark == UNREACHED {
        height.clamp(LEAST_PIXEL, GREATEST_PIXEL)
    } else {
        void
    }
}
