//! Terrains that are hard to drain, with listed sinks inside. Their products must be accepted with the list, each listed cell stays at its own
//! ground, and a listed local minimum is an outlet.

ghost use Rattle.std.specs.Prelude.{◌≡◌};
ghost use Rattle.drain_mosaic.specs.Tiling.{extent_of};

use crate::agree::same;
use crate::made::{elevation, judged, one_tile};
use crate::terrain_samples::{TERRAINS, Terrain, samples};
use drain_grid::{Cell, Direction, Elevation, ProductSet, Sinks, Verdict, parse_sinks};
use drain_mosaic::Layout;
use std::alloc::Global;
use std::test::Fail;
use worked::pixels::number;

/// The elevation of a cell; none at a void and outside the grid.
fn ground(elevation: &Elevation, cell: Cell) -> Option<i64> {
    let shape = elevation.shape();
    if cell.row < shape.rows() && cell.col < shape.cols() {
        elevation.z(cell).map(i64::from)
    } else {
        None
    }
}

/// Whether the list has a cell of a tile: two in five of those inside that have data.
fn is_listed(elevation: &Elevation, side: u32, cell: Cell) -> bool {
    let inside = 1..side.saturating_sub(1);
    let is_chosen = cell.row.wrapping_mul(3).wrapping_add(cell.col) % 5 < 2;
    inside.contains(&cell.row)
        && inside.contains(&cell.col)
        && is_chosen
        && ground(elevation, cell).is_some()
}

/// The list of the chosen cells of a tile, a line each.
fn list_of(alloc: Global, elevation: &Elevation, side: u32) -> Result<String, Fail> {
    let mut list = String::new(alloc);
    for row in 0..side {
        for col in 0..side {
            if is_listed(elevation, side, Cell { row, col }) {
                write!(list, "{row} {col}\n")?;
            }
        }
    }
    Ok(list)
}

/// Whether no neighbour of a cell is lower on the tile.
fn is_local_minimum(elevation: &Elevation, cell: Cell) -> bool {
    for direction in Direction::ALL {
        if let Some(next) = elevation.shape().step(cell, direction) {
            let is_lower = match (ground(elevation, next), ground(elevation, cell)) {
                (Some(beside), Some(own)) => beside < own,
                _ => false,
            };
            if is_lower {
                return false;
            }
        }
    }
    true
}

/// The findings at the listed cells of a tile.
#[derive(Clone, Copy)]
struct Tally {
    /// How many are local minima.
    minima: u32,
    /// How many are not at their own ground.
    raised: u32,
    /// How many local minima are no outlets.
    draining: u32,
}

/// Scans the listed cells of a tile.
fn found(elevation: &Elevation, products: &ProductSet, side: u32) -> Tally {
    let mut found = Tally {
        minima: 0,
        raised: 0,
        draining: 0,
    };
    for row in 0..side {
        for col in 0..side {
            let cell = Cell { row, col };
            if is_listed(elevation, side, cell) {
                let is_minimum = is_local_minimum(elevation, cell);
                let is_outlet = number(&products.dir, cell) == Some(0);
                let is_level = number(&products.con, cell) == ground(elevation, cell);
                found.minima = found.minima.saturating_add(u32::from(is_minimum));
                found.raised = found.raised.saturating_add(u32::from(!is_level));
                found.draining = found
                    .draining
                    .saturating_add(u32::from(is_minimum && !is_outlet));
            }
        }
    }
    found
}

/// The chosen cells of a tile as sinks.
fn sinks_of(alloc: Global, elevation: &Elevation, side: u32) -> Result<Sinks, Fail> {
    let list = list_of(alloc, elevation, side)?;
    Ok(parse_sinks(alloc, list.as_bytes())?)
}

/// The findings at the listed cells of a tile after products of it were made, and whether they are accepted.
fn tile_made(
    alloc: Global,
    layout: &Layout,
    elevation: &Elevation,
    sinks: &Sinks,
    side: u32,
) -> Result<(Tally, bool), Fail>
    requires { elevation.now.extent ≡ extent_of layout.now }
{
    let (products, verdict) = judged(alloc, layout, elevation, sinks)?;
    let found = found(elevation, &products, side);
    Ok((found, matches!(verdict, Verdict::Accepted(_))))
}

/// The same of a terrain.
fn terrain_made(
    alloc: Global,
    side: u32,
    terrain: Terrain,
    lowered: i16,
) -> Result<(Tally, bool), Fail> {
    let layout = one_tile(alloc, side)?;
    let elevation = elevation(&layout, samples(alloc, side, terrain, lowered)?)?;
    let sinks = sinks_of(alloc, &elevation, side)?;
    tile_made(alloc, &layout, &elevation, &sinks, side)
}

/// The sides of the tiles.
static SIDES: [u32; 3] = [9, 12, 17];

#[test]
fn listed_cells_of_hard_terrains(rt: HostRuntime) -> Result<(), Fail> {
    for &terrain in &TERRAINS {
        for &side in &SIDES {
            let (found, is_accepted) = terrain_made(rt.alloc(), side, terrain, 3)?;
            // A cone falls everywhere from its inside to its edge.
            let has_minima = !matches!(terrain, Terrain::Cone);
            let counted = (0 < found.minima, found.raised, found.draining);
            let given = (is_accepted, counted);
            same(&rt, (terrain, side), given, (true, (has_minima, 0, 0)));
        }
    }
    Ok(())
}
