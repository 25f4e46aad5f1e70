//! Tiles in the union of all tiles on a map, which begins at 90 degrees north and 180 degrees west.

ghost use Rattle.std.specs.Prelude.{◌≡◌, ◌≤◌, ◌*◌, ◌-◌, ◌-ℤ◌};
ghost use Rattle.drain_window.specs.Names.{IfOk, nat_abs, IsSide, HALF_TURN, IsOrigin};
ghost use Rattle.drain_window.specs.WindowLines.{map_origin};

use crate::window_ground::WindowGround;
use drain_device::ByteSource;
use drain_grid::{Cell, OutOfMemory};
use drain_hgt::name::{HALF_TURN, POLE};
use drain_hgt::{TileInput, TileName};
use drain_mosaic::Layout;
use drain_union::UnionGrid;
use std::alloc::Global;

impl<R: ByteSource> WindowGround<R> for TileInput<R> {
    ghost use Rattle.drain_window.specs.Names.{names_of};
    ghost use Rattle.drain_window.specs.WindowAnswers.{IsOfTiles};

    type At = ();

    ghost in_range = { λ at. Unit {0} };

    ghost named = { λ at side tiles grid corners. IsOfTiles side (names_of tiles) grid corners };

    fn is_in_range(_at: &()) -> bool {
        true
    }

    fn in_union(
        alloc: Global,
        layout: &Layout,
        _at: &(),
    ) -> Result<(Cell, UnionGrid, Vec<TileName>), OutOfMemory> {
        let tiles = tile_names(alloc, layout)?;
        Ok((map_origin(layout), UnionGrid::Tiles(layout.side()), tiles))
    }
}

/// The tiles, in the order given.
fn tile_names(alloc: Global, layout: &Layout) -> Result<Vec<TileName>, OutOfMemory>
    ensures { IfOk result (λ tiles. tiles.items ≡ layout.now.corners) }
{
    let mut tiles = Vec::new(alloc);
    for i in 0..layout.len() {
        tiles.push(layout.name(i))?;
    }
    Ok(tiles)
}

/// The row and the column of the mosaic's first cell on the map.
fn map_origin(layout: &Layout) -> Cell
    ensures origin { result ≡ map_origin layout.now }
    ensures fits { IsOrigin result }
{
    let side = layout.side();
    Cell {
        row: samples_between(side, layout.north(), POLE as i16),
        col: samples_between(side, -(HALF_TURN as i16), layout.west()),
    }
}

/// How many rows or columns of tiles lie between two degrees.
fn samples_between(side: u32, from: i16, to: i16) -> u32
    requires side { IsSide side }
    requires from { nat_abs from ≤ HALF_TURN }
    requires to { nat_abs to ≤ HALF_TURN }
    ensures count { result ≡ nat_abs (to -ℤ from) * (side - 1) }
    ensures few { result ≤ 235926000 }
{
    u32::from((to - from).unsigned_abs()) * (side - 1)
}
