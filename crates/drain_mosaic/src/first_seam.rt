//! The first seam, found without memory and without a buffer.
//!
//! Each cell looks at each tile. This is slow, so `join` uses it only if memory for the mosaic's samples runs out.

ghost use Rattle.std.specs.Prelude.{◌≡◌, ◌↔◌, ◌⊎◌, ◌+◌, ◌-◌, ◌*◌, ◌≤◌, ◌<◌};
ghost use Rattle.drain_mosaic.specs.Names.{map, length, IsTrue, MatchOption, None, height_from, tile_sample_at};
ghost use Rattle.drain_mosaic.specs.Mosaic.{AreTiles, tiles_of, TilesAgree, HasTwoValues, IsFirstSeam};
ghost use Rattle.drain_mosaic.specs.JoinedRows.{IsSeamAlong, AreTwo};

use crate::layout::Layout;
use drain_grid::Cell;
use drain_grid::tile::height_from;

/// The first cell in row order with two values, none if the tiles agree. This takes no memory.
pub fn first_seam(layout: &Layout, tiles: &[Vec<i16>]) -> Option<Cell>
    requires { AreTiles layout.now (map (λ tile. tile.items) tiles.now) }
    ensures { MatchOption result (TilesAgree layout.now (tiles_of layout.now.corners (map (λ tile. tile.items) tiles.now))) (IsFirstSeam layout.now (tiles_of layout.now.corners (map (λ tile. tile.items) tiles.now))) }
{
    let rows = layout.shape().rows();
    for row in 0..rows {
        if let Some(col) = seam_along(layout, tiles, row) {
            return Some(Cell { row, col });
        }
    }
    None
}

/// The first column of a row where the cell has two values.
fn seam_along(layout: &Layout, tiles: &[Vec<i16>], row: u32) -> Option<u32>
    requires { AreTiles layout.now (map (λ tile. tile.items) tiles.now) }
    ensures { IsSeamAlong layout.now (tiles_of layout.now.corners (map (λ tile. tile.items) tiles.now)) row result }
{
    let cols = layout.shape().cols();
    for col in 0..cols {
        if has_two_values(layout, tiles, Cell { row, col }) {
            return Some(col);
        }
    }
    None
}

/// Whether two tiles give the cell different values: whether one gives another than the first.
fn has_two_values(layout: &Layout, tiles: &[Vec<i16>], cell: Cell) -> bool
    requires { AreTiles layout.now (map (λ tile. tile.items) tiles.now) }
    ensures { IsTrue result ↔ HasTwoValues layout.now (tiles_of layout.now.corners (map (λ tile. tile.items) tiles.now)) cell }
{
    let side = layout.side();
    let mut first = None;
    for i in 0..tiles.len() {
        let value = value_at(layout.place(i), side, &tiles[i], cell);
        if are_two(first, value) {
            return true;
        }
        first = first.or(value);
    }
    false
}

/// The value that a tile gives the cell, none if it gives none. `place` is the tile's north-west cell.
fn value_at(place: Cell, side: u32, tile: &[i16], cell: Cell) -> Option<i16>
    requires { length tile.now ≡ side * side }
    ensures over { place.row ≤ cell.row → cell.row < place.row + side → place.col ≤ cell.col → cell.col < place.col + side → result ≡ height_from (tile_sample_at side tile.now (cell.row - place.row) (cell.col - place.col)) }
    ensures beside { (cell.row < place.row) ⊎ (place.row + side ≤ cell.row) ⊎ (cell.col < place.col) ⊎ (place.col + side ≤ cell.col) → result ≡ None }
{
    if cell.row < place.row || side <= cell.row - place.row {
        return None;
    }
    if cell.col < place.col || side <= cell.col - place.col {
        return None;
    }
    let row = (cell.row - place.row) as usize;
    let col = (cell.col - place.col) as usize;
    height_from(tile[row * side as usize + col])
}

/// Whether both are values, and differ.
fn are_two(one: Option<i16>, other: Option<i16>) -> bool
    ensures { IsTrue result ↔ AreTwo one other }
{
    one.is_some() && other.is_some() && one != other
}
