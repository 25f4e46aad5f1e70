//! Terrains that are hard to drain, of any side.

use drain_grid::VOID;
use std::alloc::Global;
use std::test::Fail;

/// A terrain over the rows and columns of a tile.
#[derive(Clone, Copy, Debug)]
pub enum Terrain {
    Flat,
    Cone,
    /// A wall one cell high that winds inwards.
    Spiral,
    Checkerboard,
    /// Pseudo-random heights from 0 to 6.
    Rough,
    /// The same with voids, about one in eleven.
    Holed,
}

/// How far a cell is from the nearest edge of its tile.
fn depth(side: u32, row: u32, col: u32) -> u32 {
    let from_south = side.abs_diff(row).saturating_sub(1);
    let from_east = side.abs_diff(col).saturating_sub(1);
    row.min(col).min(from_south).min(from_east)
}

impl Terrain {
    /// The sample of a cell. `noise` is a pseudo-random number.
    fn sample(self, side: u32, row: u32, col: u32, noise: u32) -> u32 {
        let depth = depth(side, row, col);
        match self {
            Terrain::Flat => 0,
            Terrain::Cone => depth,
            Terrain::Spiral => {
                let is_passage = row.abs_diff(col) == 1 && col < row && col < side / 2;
                u32::from((depth % 2 == 1) != is_passage)
            }
            Terrain::Checkerboard => row.abs_diff(col) % 2,
            Terrain::Rough | Terrain::Holed => noise % 7,
        }
    }
}

/// The samples of a tile, each lowered by this number of metres.
pub fn samples(alloc: Global, side: u32, terrain: Terrain, lowered: i16) -> Result<Vec<i16>, Fail> {
    let mut samples = Vec::new(alloc);
    let mut state: u32 = side;
    for row in 0..side {
        for col in 0..side {
            // A linear congruential generator with the constants of Numerical Recipes.
            state = state.wrapping_mul(1664525).wrapping_add(1013904223);
            let noise = state >> 16;
            let sample = if matches!(terrain, Terrain::Holed) && noise % 11 == 0 {
                VOID
            } else {
                i16::try_from(terrain.sample(side, row, col, noise))?.wrapping_sub(lowered)
            };
            samples.push(sample)?;
        }
    }
    Ok(samples)
}

/// Each of them.
pub static TERRAINS: [Terrain; 6] = [
    Terrain::Flat,
    Terrain::Cone,
    Terrain::Spiral,
    Terrain::Checkerboard,
    Terrain::Rough,
    Terrain::Holed,
];
