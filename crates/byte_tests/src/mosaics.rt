//! Worked mosaics, from the format's own rows. Seams and layouts have files of their own.

ghost use Rattle.std.specs.Prelude.{◌≡◌, ◌*◌, IfOk, All, map, length};
ghost use Rattle.drain_grid.specs.Grid.{IsSide};

mod boxes;
mod layouts;
mod seams;

use crate::agree::same;
use crate::tiles::{four_named, two_named};
use drain_grid::{Cell, Elevation, VOID};
use drain_mosaic::{Layout, SeamFault, join};
use std::alloc::{AllocError, Global};
use std::test::Fail;

/// The samples of an elevation in row order.
fn samples(alloc: Global, elevation: &Elevation) -> Result<Vec<i16>, Fail> {
    let shape = elevation.shape();
    let mut samples = Vec::new(alloc);
    for row in 0..shape.rows() {
        for col in 0..shape.cols() {
            samples.push(elevation.z(Cell { row, col }).unwrap_or(VOID))?;
        }
    }
    Ok(samples)
}

/// Two tiles of these samples.
fn two_tiles<const N: usize>(
    alloc: Global,
    samples: &[[i16; N]; 2],
) -> Result<[Vec<i16>; 2], AllocError>
    ensures { IfOk result (λ tiles. All (λ tile. length tile ≡ N) (map (λ tile. tile.items) tiles)) }
{
    Ok([
        Vec::from_slice(alloc, &samples[0])?,
        Vec::from_slice(alloc, &samples[1])?,
    ])
}

/// Four tiles of these samples.
fn four_tiles<const N: usize>(
    alloc: Global,
    samples: &[[i16; N]; 4],
) -> Result<[Vec<i16>; 4], AllocError>
    ensures { IfOk result (λ tiles. All (λ tile. length tile ≡ N) (map (λ tile. tile.items) tiles)) }
{
    let [first, second] = two_tiles(alloc, &[samples[0], samples[1]])?;
    let [third, fourth] = two_tiles(alloc, &[samples[2], samples[3]])?;
    Ok([first, second, third, fourth])
}

/// The samples of two tiles of this side together.
fn two_joined<const N: usize>(
    alloc: Global,
    side: u32,
    names: [&str; 2],
    tiles: &[[i16; N]; 2],
) -> Result<Vec<i16>, Fail>
    requires side { IsSide side }
    requires samples { N ≡ side * side }
{
    let layout = Layout::new(alloc, side, &two_named(names)?)?;
    let elevation = join(alloc, &layout, &two_tiles(alloc, tiles)?)?;
    samples(alloc, &elevation)
}

/// What four tiles of side 2 give together.
fn four_joined(
    alloc: Global,
    names: [&str; 4],
    tiles: &[[i16; 4]; 4],
) -> Result<Result<Elevation, SeamFault>, Fail> {
    let layout = Layout::new(alloc, 2, &four_named(names)?)?;
    Ok(join(alloc, &layout, &four_tiles(alloc, tiles)?))
}

/// The samples of an elevation that was made.
fn samples_made(alloc: Global, made: Result<Elevation, SeamFault>) -> Result<Vec<i16>, Fail> {
    samples(alloc, &made?)
}

/// The fault of tiles; none where they give an elevation.
fn seam_fault(made: Result<Elevation, SeamFault>) -> Option<SeamFault> {
    match made {
        Ok(_) => None,
        Err(fault) => Some(fault),
    }
}

/// Turns the sample at a place of a tile to 0.
fn turn<const N: usize>(tiles: &mut [[i16; N]], tile: usize, place: usize) {
    if let Some(tile) = tiles.get_mut(tile) {
        if let Some(sample) = tile.get_mut(place) {
            *sample = 0;
        }
    }
}

/// The samples of two tiles, and those of their mosaic.
static PAIRS: [([i16; 4], [i16; 4], [i16; 6]); 3] = [
    ([1, 2, 3, 4], [2, 5, 4, 6], [1, 2, 5, 3, 4, 6]),
    ([1, 2, 3, 4], [VOID, 5, 4, 6], [1, 2, 5, 3, 4, 6]),
    ([1, VOID, 3, VOID], [2, 5, VOID, 6], [1, 2, 5, 3, VOID, 6]),
];

#[test]
fn tiles_side_by_side(rt: HostRuntime) -> Result<(), Fail> {
    for &(west, east, expected) in &PAIRS {
        let names = ["N00E000.hgt", "N00E001.hgt"];
        let given = two_joined(rt.alloc(), 2, names, &[west, east])?;
        same(&rt, east, given.as_slice(), expected.as_slice());
    }
    Ok(())
}

/// The names of four tiles in a square: north-west, north-east, south-west, south-east.
const SQUARE: [&str; 4] = ["N01E000.hgt", "N01E001.hgt", "N00E000.hgt", "N00E001.hgt"];

/// The north of a square, and how many tiles it has.
fn north_of_square(alloc: Global) -> Result<(i16, usize), Fail> {
    let layout = Layout::new(alloc, 2, &four_named(SQUARE)?)?;
    Ok((layout.north(), layout.len()))
}

/// Four tiles of side 2 in a square, the last but one with this sample in its north-east corner.
fn square(alloc: Global, sample: i16) -> Result<Result<Elevation, SeamFault>, Fail> {
    let tiles = [
        [1, 2, 4, VOID],
        [2, 3, VOID, 6],
        [4, sample, 7, 8],
        [5, 6, 8, 9],
    ];
    four_joined(alloc, SQUARE, &tiles)
}

#[test]
fn tiles_in_a_square(rt: HostRuntime) -> Result<(), Fail> {
    same(&rt, "its layout", north_of_square(rt.alloc())?, (2, 4));
    let given = samples_made(rt.alloc(), square(rt.alloc(), VOID)?)?;
    let expected = [1, 2, 3, 4, 5, 6, 7, 8, 9];
    same(&rt, "samples", given.as_slice(), expected.as_slice());
    let expected = SeamFault::SeamMismatch(Cell { row: 1, col: 1 });
    same(
        &rt,
        "a seam",
        seam_fault(square(rt.alloc(), 0)?),
        Some(expected),
    );
    Ok(())
}

/// Two tiles of zeros, of side 3.
#[test]
fn tiles_with_a_gap_between_them(rt: HostRuntime) -> Result<(), Fail> {
    let names = ["N00E000.hgt", "N00E002.hgt"];
    let given = two_joined(rt.alloc(), 3, names, &[[0; 9]; 2])?;
    let v = VOID;
    let expected = [
        0, 0, 0, v, 0, 0, 0, 0, 0, 0, v, 0, 0, 0, 0, 0, 0, v, 0, 0, 0,
    ];
    same(&rt, "a gap", given.as_slice(), expected.as_slice());
    Ok(())
}

/// A box of 8 by 8 tiles of side 2, of which only the corners are there, each of one number.
fn largest_box(alloc: Global) -> Result<Result<Elevation, SeamFault>, Fail> {
    let names = ["N00E000.hgt", "N07E007.hgt", "N00E007.hgt", "N07E000.hgt"];
    four_joined(alloc, names, &[[1; 4], [2; 4], [3; 4], [4; 4]])
}

/// Places in the largest box, and the samples there.
static LARGEST_BOX: [(usize, i16); 10] = [
    (0, 4),
    (1, 4),
    (2, VOID),
    (7, 2),
    (8, 2),
    (9, 4),
    (40, VOID),
    (71, 3),
    (72, 1),
    (80, 3),
];

#[test]
fn corners_of_the_largest_box(rt: HostRuntime) -> Result<(), Fail> {
    let given = samples_made(rt.alloc(), largest_box(rt.alloc())?)?;
    same(&rt, "samples", Some(given.len()), Some(81));
    for &(place, sample) in &LARGEST_BOX {
        same(&rt, place, given.get(place).copied(), Some(sample));
    }
    Ok(())
}
