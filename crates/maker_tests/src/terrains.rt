//! Terrains that are hard to drain. Their products must be accepted.

use crate::agree::same;
use crate::made::{accepted, one_tile};
use crate::terrain_samples::{TERRAINS, Terrain, samples};
use drain_grid::{Counts, VOID};
use drain_hgt::TileName;
use drain_mosaic::Layout;
use std::alloc::Global;
use std::process::Abort;
use std::test::Fail;

/// A tile of side 5 with an edge of ones, and inside samples 0 or 2 by the bits of the choice.
fn with_edge(alloc: Global, choice: u32) -> Result<Vec<i16>, Fail> {
    let mut samples = Vec::new(alloc);
    let mut bits = choice;
    for row in 0..5u32 {
        for col in 0..5u32 {
            if (1..4).contains(&row) && (1..4).contains(&col) {
                samples.push(if bits % 2 == 1 { 2 } else { 0 })?;
                bits /= 2;
            } else {
                samples.push(1)?;
            }
        }
    }
    Ok(samples)
}

/// How many zeros the tile of a choice has, and the counts of the verdict on its products.
fn choice_made(alloc: Global, choice: u32) -> Result<(usize, Counts), Fail> {
    let samples = with_edge(alloc, choice)?;
    let zeros = samples.iter().filter(|sample| **sample == 0).count();
    let layout = one_tile(alloc, 5)?;
    Ok((zeros, accepted(alloc, &layout, samples)?))
}

/// The first choice of an eighth of them that has other counts in the verdict, and these counts.
///
/// A test of all of them would repeat the first ones for each allocation that is refused in it.
fn first_wrong(alloc: Global, eighth: u8) -> Result<Option<(u32, Counts)>, Fail> {
    for place in 0..64 {
        let choice = 64 * u32::from(eighth) + place;
        let (zeros, counts) = choice_made(alloc, choice)?;
        let expected = Counts {
            rows: 5,
            cols: 5,
            data_cells: 25,
            raised: u32::try_from(zeros)?,
            outlets: 16,
        };
        if counts != expected {
            return Ok(Some((choice, counts)));
        }
    }
    Ok(None)
}

/// Fails the test if the verdict has other counts for a choice of an eighth of them.
fn none_wrong(rt: &impl Abort, alloc: Global, eighth: u8) -> Result<(), Fail> {
    same(rt, eighth, first_wrong(alloc, eighth)?, None);
    Ok(())
}

#[test]
fn tiles_of_nine_inner_samples_from_0(rt: HostRuntime) -> Result<(), Fail> {
    none_wrong(&rt, rt.alloc(), 0)
}

#[test]
fn tiles_of_nine_inner_samples_from_64(rt: HostRuntime) -> Result<(), Fail> {
    none_wrong(&rt, rt.alloc(), 1)
}

#[test]
fn tiles_of_nine_inner_samples_from_128(rt: HostRuntime) -> Result<(), Fail> {
    none_wrong(&rt, rt.alloc(), 2)
}

#[test]
fn tiles_of_nine_inner_samples_from_192(rt: HostRuntime) -> Result<(), Fail> {
    none_wrong(&rt, rt.alloc(), 3)
}

#[test]
fn tiles_of_nine_inner_samples_from_256(rt: HostRuntime) -> Result<(), Fail> {
    none_wrong(&rt, rt.alloc(), 4)
}

#[test]
fn tiles_of_nine_inner_samples_from_320(rt: HostRuntime) -> Result<(), Fail> {
    none_wrong(&rt, rt.alloc(), 5)
}

#[test]
fn tiles_of_nine_inner_samples_from_384(rt: HostRuntime) -> Result<(), Fail> {
    none_wrong(&rt, rt.alloc(), 6)
}

#[test]
fn tiles_of_nine_inner_samples_from_448(rt: HostRuntime) -> Result<(), Fail> {
    none_wrong(&rt, rt.alloc(), 7)
}

/// The counts of the verdict on the products of two tiles with a gap between them.
fn apart_made(alloc: Global) -> Result<Counts, Fail> {
    let first = TileName::parse(b"N00E000.hgt")?;
    let last = TileName::parse(b"N00E002.hgt")?;
    let layout = Layout::new(alloc, 3, &[first, last])?;
    let v = VOID;
    let samples = [
        0, 0, 0, v, 0, 0, 0, 0, 0, 0, v, 0, 0, 0, 0, 0, 0, v, 0, 0, 0,
    ];
    accepted(alloc, &layout, Vec::from_slice(alloc, &samples)?)
}

#[test]
fn tiles_apart(rt: HostRuntime) -> Result<(), Fail> {
    let expected = Counts {
        rows: 3,
        cols: 7,
        data_cells: 18,
        raised: 0,
        outlets: 16,
    };
    same(&rt, "apart", apart_made(rt.alloc())?, expected);
    Ok(())
}

/// The counts of the verdict on the products of a terrain.
fn terrain_made(alloc: Global, side: u32, terrain: Terrain, lowered: i16) -> Result<Counts, Fail> {
    let layout = one_tile(alloc, side)?;
    let samples = samples(alloc, side, terrain, lowered)?;
    accepted(alloc, &layout, samples)
}

/// The sides of the tiles.
static SIDES: [u32; 8] = [2, 3, 4, 5, 8, 17, 33, 65];

#[test]
fn hard_terrains(rt: HostRuntime) -> Result<(), Fail> {
    for &terrain in &TERRAINS {
        for &side in &SIDES {
            let counts = terrain_made(rt.alloc(), side, terrain, 0)?;
            let given = (counts.rows, counts.cols);
            same(&rt, terrain, given, (side, side));
        }
    }
    Ok(())
}

/// The sides of the tiles that are lowered.
static SIDES_OF_LOWERED: [u32; 5] = [2, 3, 5, 8, 17];

/// By how many metres they are lowered.
static LOWERED: [i16; 2] = [1, 3];

#[test]
fn hard_terrains_whose_heights_cross_0(rt: HostRuntime) -> Result<(), Fail> {
    for &terrain in &TERRAINS {
        for &side in &SIDES_OF_LOWERED {
            let counts = terrain_made(rt.alloc(), side, terrain, 0)?;
            for &lowered in &LOWERED {
                let given = terrain_made(rt.alloc(), side, terrain, lowered)?;
                same(&rt, terrain, given, counts);
            }
        }
    }
    Ok(())
}
