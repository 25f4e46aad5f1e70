//! Boxes of eight tiles, worked by hand, and a wide and a tall mosaic: that memory suffices for them is no clause.

ghost use Rattle.std.specs.Prelude.{◌≡◌, ◌*◌, IfOk, All, map, length};
ghost use Rattle.drain_grid.specs.Grid.{IsSide};

use super::{samples_made, seam_fault, turn};
use crate::agree::same;
use crate::tiles::{four_named, two_named};
use drain_grid::{Cell, Elevation};
use drain_hgt::{NameFault, TileName};
use drain_mosaic::{Layout, SeamFault, join};
use std::alloc::{AllocError, Global};
use std::test::Fail;

/// Eight tiles by their names.
fn eight_named(names: &[&str; 8]) -> Result<[TileName; 8], NameFault> {
    let [first, second, third, fourth] = four_named([names[0], names[1], names[2], names[3]])?;
    let [fifth, sixth, seventh, eighth] = four_named([names[4], names[5], names[6], names[7]])?;
    Ok([first, second, third, fourth, fifth, sixth, seventh, eighth])
}

/// Eight tiles of these samples.
fn eight_tiles(alloc: Global, samples: &[[i16; 4]; 8]) -> Result<[Vec<i16>; 8], AllocError>
    ensures { IfOk result (λ tiles. All (λ tile. length tile ≡ 4) (map (λ tile. tile.items) tiles)) }
{
    Ok([
        Vec::from_slice(alloc, &samples[0])?,
        Vec::from_slice(alloc, &samples[1])?,
        Vec::from_slice(alloc, &samples[2])?,
        Vec::from_slice(alloc, &samples[3])?,
        Vec::from_slice(alloc, &samples[4])?,
        Vec::from_slice(alloc, &samples[5])?,
        Vec::from_slice(alloc, &samples[6])?,
        Vec::from_slice(alloc, &samples[7])?,
    ])
}

/// What eight tiles of side 2 give together.
fn eight(
    alloc: Global,
    names: &[&str; 8],
    samples: &[[i16; 4]; 8],
) -> Result<Result<Elevation, SeamFault>, Fail> {
    let layout = Layout::new(alloc, 2, &eight_named(names)?)?;
    Ok(join(alloc, &layout, &eight_tiles(alloc, samples)?))
}

/// Eight tiles from west to east, in 2 rows and 9 columns.
static WIDE: [&str; 8] = [
    "N00E000.hgt",
    "N00E001.hgt",
    "N00E002.hgt",
    "N00E003.hgt",
    "N00E004.hgt",
    "N00E005.hgt",
    "N00E006.hgt",
    "N00E007.hgt",
];

/// Eight tiles from north to south, in 9 rows and 2 columns.
static TALL: [&str; 8] = [
    "N07E000.hgt",
    "N06E000.hgt",
    "N05E000.hgt",
    "N04E000.hgt",
    "N03E000.hgt",
    "N02E000.hgt",
    "N01E000.hgt",
    "N00E000.hgt",
];

/// The tiles of a row: 1 to 9 along its north, 11 to 19 along its south.
static ROW: [[i16; 4]; 8] = [
    [1, 2, 11, 12],
    [2, 3, 12, 13],
    [3, 4, 13, 14],
    [4, 5, 14, 15],
    [5, 6, 15, 16],
    [6, 7, 16, 17],
    [7, 8, 17, 18],
    [8, 9, 18, 19],
];

/// The tiles of a column: 1 to 9 along its west, 11 to 19 along its east.
static COLUMN: [[i16; 4]; 8] = [
    [1, 11, 2, 12],
    [2, 12, 3, 13],
    [3, 13, 4, 14],
    [4, 14, 5, 15],
    [5, 15, 6, 16],
    [6, 16, 7, 17],
    [7, 17, 8, 18],
    [8, 18, 9, 19],
];

/// The fault of these tiles with one sample turned to 0.
fn fault_of_turned(
    alloc: Global,
    names: &[&str; 8],
    samples: &[[i16; 4]; 8],
    tile: usize,
    place: usize,
) -> Result<Option<SeamFault>, Fail> {
    let mut samples = *samples;
    turn(&mut samples, tile, place);
    Ok(seam_fault(eight(alloc, names, &samples)?))
}

#[test]
fn eight_tiles_that_agree(rt: HostRuntime) -> Result<(), Fail> {
    let given = samples_made(rt.alloc(), eight(rt.alloc(), &WIDE, &ROW)?)?;
    let expected = [
        1, 2, 3, 4, 5, 6, 7, 8, 9, 11, 12, 13, 14, 15, 16, 17, 18, 19,
    ];
    same(&rt, "wide", given.as_slice(), expected.as_slice());
    let given = samples_made(rt.alloc(), eight(rt.alloc(), &TALL, &COLUMN)?)?;
    let expected = [
        1, 11, 2, 12, 3, 13, 4, 14, 5, 15, 6, 16, 7, 17, 8, 18, 9, 19,
    ];
    same(&rt, "tall", given.as_slice(), expected.as_slice());
    Ok(())
}

/// Each tile but the first differs in turn from the one before it, at the first and at the last of the cells that they share.
#[test]
fn eight_tiles_that_differ(rt: HostRuntime) -> Result<(), Fail> {
    for seam in 1..8u32 {
        let tile = seam as usize;
        for (place, row) in [(0, 0), (2, 1)] {
            let fault = fault_of_turned(rt.alloc(), &WIDE, &ROW, tile, place)?;
            let expected = SeamFault::SeamMismatch(Cell { row, col: seam });
            same(&rt, (tile, place), fault, Some(expected));
        }
        for (place, col) in [(0, 0), (1, 1)] {
            let fault = fault_of_turned(rt.alloc(), &TALL, &COLUMN, tile, place)?;
            let expected = SeamFault::SeamMismatch(Cell { row: seam, col });
            same(&rt, (tile, place), fault, Some(expected));
        }
    }
    Ok(())
}

/// A tile of one sample.
fn level(alloc: Global, side: u32, sample: i16) -> Result<Vec<i16>, AllocError>
    requires { IsSide side }
    ensures { IfOk result (λ tile. length tile.items ≡ side * side) }
{
    vec![in alloc; sample; side as usize * side as usize]
}

/// A tile of 1 and one of 2.
fn one_and_two(alloc: Global, side: u32) -> Result<[Vec<i16>; 2], AllocError>
    requires { IsSide side }
    ensures { IfOk result (λ tiles. All (λ tile. length tile ≡ side * side) (map (λ tile. tile.items) tiles)) }
{
    Ok([level(alloc, side, 1)?, level(alloc, side, 2)?])
}

/// Rows, columns, and samples: the first, the last and the middle one.
type Shown = ((u32, u32), [Option<i16>; 3]);

/// What two tiles show together, the first of 1 and the last of 2.
fn of_two(alloc: Global, side: u32, names: [&str; 2]) -> Result<Shown, Fail>
    requires { IsSide side }
{
    let layout = Layout::new(alloc, side, &two_named(names)?)?;
    let elevation = join(alloc, &layout, &one_and_two(alloc, side)?)?;
    Ok(shown(&elevation))
}

/// What an elevation shows.
fn shown(elevation: &Elevation) -> Shown {
    let shape = elevation.shape();
    let (south, east) = (shape.rows() - 1, shape.cols() - 1);
    let first = elevation.z(Cell { row: 0, col: 0 });
    let last = elevation.z(Cell {
        row: south,
        col: east,
    });
    let middle = elevation.z(Cell {
        row: south / 2,
        col: east / 2,
    });
    ((shape.rows(), shape.cols()), [first, last, middle])
}

/// The names of two tiles of side 1201, and the rows and columns of their mosaic.
static LONG_BOXES: [([&str; 2], u32, u32); 2] = [
    (["N00E000.hgt", "N00E007.hgt"], 1201, 9601),
    (["N07E000.hgt", "N00E000.hgt"], 9601, 1201),
];

/// As wide and as tall as a box of tiles of side 1201 can be.
#[test]
fn widest_and_tallest(rt: HostRuntime) -> Result<(), Fail> {
    for &(names, rows, cols) in &LONG_BOXES {
        let given = of_two(rt.alloc(), 1201, names)?;
        same(&rt, names, given, ((rows, cols), [Some(1), Some(2), None]));
    }
    Ok(())
}
