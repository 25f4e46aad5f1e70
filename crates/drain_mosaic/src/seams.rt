//! The joined elevation of tiles.
//!
//! A row of the mosaic starts as voids, and each tile over it fills the voids that it has samples for. So a cell gets
//! the value of the first tile that has one, and a later tile with another value is a seam fault.
//!
//! Running out of memory hides no seam: the check for seams also works without memory, so a seam fault comes exactly if
//! there is one.

ghost use Rattle.std.specs.Prelude.{◌≡◌, ◌⊎◌, ◌+◌, ◌-◌, ◌*◌, ◌≤◌, ◌<◌, map, length, slice_range, IfOk, IfErr, IsOk, EachIndex, slice_index_or};
ghost use Rattle.drain_grid.specs.WholeGrid.{elevation_at};
ghost use Rattle.drain_mosaic.specs.Tiling.{extent_of};
ghost use Rattle.drain_mosaic.specs.Mosaic.{AreTiles, tiles_of, TilesAgree, IsElevation, IsFirstSeam};
ghost use Rattle.drain_mosaic.specs.JoinedRows.{IsLeastOf, ConflictAt, IsLaidOver, IsJoinedRow, first_of, filled};

use crate::first_seam::first_seam;
use crate::layout::Layout;
use crate::overlay::first_of;
use drain_grid::{Cell, Elevation, VOID};
use std::alloc::Global;
use thiserror::Error;

/// Why tiles have no joined elevation.
#[derive(Clone, Copy, PartialEq, Eq, Debug, Error)]
pub enum SeamFault {
    /// Two tiles give the cell different values.
    #[error("two tiles differ at a cell")]
    SeamMismatch(Cell),
    /// The tiles agree, and memory for the samples runs out.
    #[error("out of memory")]
    OutOfMemory,
}

/// The joined elevation: at each cell the one data value of the tiles that cover it, void if none has data.
///
/// `tiles` has the samples of each tile, in the order of the layout's names. Returns `SeamMismatch` with the first cell
/// in row order with two different values, if there is one, and `OutOfMemory` only if the tiles agree.
pub fn join(alloc: Global, layout: &Layout, tiles: &[Vec<i16>]) -> Result<Elevation, SeamFault>
    requires tiles { AreTiles layout.now (map (λ tile. tile.items) tiles.now) }
    ensures shape { IfOk result (λ elevation. elevation.extent ≡ extent_of layout.now) }
    ensures agree { IsOk result → TilesAgree layout.now (tiles_of layout.now.corners (map (λ tile. tile.items) tiles.now)) }
    ensures values { IfOk result (λ elevation. IsElevation layout.now (tiles_of layout.now.corners (map (λ tile. tile.items) tiles.now)) (elevation_at elevation)) }
    ensures seam { (cell : Cell) → result ≡ Err (SeamFault.SeamMismatch cell) → IsFirstSeam layout.now (tiles_of layout.now.corners (map (λ tile. tile.items) tiles.now)) cell }

    // Running out of memory never hides a seam.
    ensures wants_memory { result ≡ Err SeamFault.OutOfMemory → TilesAgree layout.now (tiles_of layout.now.corners (map (λ tile. tile.items) tiles.now)) }
{
    match vec![in alloc; VOID; layout.shape().cells()] {
        Ok(room) => match elevation_of(layout, tiles, room) {
            Ok(elevation) => Ok(elevation),
            Err(cell) => Err(SeamFault::SeamMismatch(cell)),
        },
        Err(_) => match first_seam(layout, tiles) {
            Some(cell) => Err(SeamFault::SeamMismatch(cell)),
            None => Err(SeamFault::OutOfMemory),
        },
    }
}

/// The joined elevation, in a buffer of a sample per cell; or the first cell with two values. This takes no memory.
fn elevation_of(layout: &Layout, tiles: &[Vec<i16>], room: Vec<i16>) -> Result<Elevation, Cell>
    requires tiles { AreTiles layout.now (map (λ tile. tile.items) tiles.now) }
    requires room { length room.items ≡ (extent_of layout.now).rows * (extent_of layout.now).cols }
    ensures shape { IfOk result (λ elevation. elevation.extent ≡ extent_of layout.now) }
    ensures agree { IsOk result → TilesAgree layout.now (tiles_of layout.now.corners (map (λ tile. tile.items) tiles.now)) }
    ensures values { IfOk result (λ elevation. IsElevation layout.now (tiles_of layout.now.corners (map (λ tile. tile.items) tiles.now)) (elevation_at elevation)) }
    ensures seam { IfErr result (IsFirstSeam layout.now (tiles_of layout.now.corners (map (λ tile. tile.items) tiles.now))) }
{
    let shape = layout.shape();
    let cols = shape.cols() as usize;
    let mut samples = room;
    for row in 0..shape.rows() {
        let from = row as usize * cols;
        if let Some(col) = join_row(layout, tiles, row, &mut samples[from..from + cols]) {
            return Err(Cell {
                row,
                col: col as u32,
            });
        }
    }
    Ok(Elevation::new(shape, samples))
}

/// Makes one row of the mosaic, and finds its first cell with two values.
fn join_row(layout: &Layout, tiles: &[Vec<i16>], row: u32, out: &mut [i16]) -> Option<usize>
    requires tiles { AreTiles layout.now (map (λ tile. tile.items) tiles.now) }
    requires row { row < (extent_of layout.now).rows }
    requires cols { length out.old ≡ (extent_of layout.now).cols }
    ensures { IsJoinedRow layout.now (tiles_of layout.now.corners (map (λ tile. tile.items) tiles.now)) row out.new result }
{
    out.fill(VOID);
    let side = layout.side();
    let mut seam = None;
    for i in 0..tiles.len() {
        let found = lay_tile(out, row, layout.place(i), side, &tiles[i]);
        seam = first_of(seam, found);
    }
    seam
}

/// Lays a tile over a row of the mosaic, if it lies there: see `lay_over`. `place` is the tile's north-west cell.
fn lay_tile(out: &mut [i16], row: u32, place: Cell, side: u32, tile: &[i16]) -> Option<usize>
    requires room { place.col + side ≤ length out.old }
    requires whole { length tile.now ≡ side * side }
    ensures over { place.row ≤ row → row < place.row + side → IsLaidOver place.col (slice_range tile.now ((row - place.row) * side) ((row - place.row) * side + side)) out.old out.new result }
    ensures beside { (row < place.row) ⊎ (place.row + side ≤ row) → (out.new ≡ out.old) × (result ≡ None) }
{
    if row < place.row || side <= row - place.row {
        return None;
    }
    let from = (row - place.row) as usize * side as usize;
    lay_over(out, place.col as usize, &tile[from..from + side as usize])
}

/// Lays a part over a row from `left` on: it fills the voids there. Finds the first column where both have data and differ.
fn lay_over(row: &mut [i16], left: usize, part: &[i16]) -> Option<usize>
    requires { left + length part.now ≤ length row.old }
    ensures { IsLaidOver left part.now row.old row.new result }
{
    let under = &mut row[left..left + part.len()];
    let conflict = first_conflict(under, part);
    fill_voids(under, part);
    match conflict {
        Some(k) => Some(left + k),
        None => None,
    }
}

/// The first place where both have data and the samples differ.
fn first_conflict(here: &[i16], other: &[i16]) -> Option<usize>
    requires { length here.now ≡ length other.now }
    ensures { IsLeastOf (ConflictAt here.now other.now) (length here.now) result }
{
    for k in 0..here.len() {
        if here[k] != VOID && other[k] != VOID && here[k] != other[k] {
            return Some(k);
        }
    }
    None
}

/// Replaces each void by the other sample.
fn fill_voids(here: &mut [i16], other: &[i16])
    requires { length here.old ≡ length other.now }
    ensures { EachIndex here.new (λ k. slice_index_or here.new k VOID ≡ filled (slice_index_or here.old k VOID) (slice_index_or other.now k VOID)) }
{
    for k in 0..here.len() {
        here[k] = if here[k] == VOID { other[k] } else { here[k] };
    }
}
