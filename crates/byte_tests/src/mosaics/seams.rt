//! Where tiles differ: wherever they share cells, and the first of several places, worked by hand.

ghost use Rattle.std.specs.Prelude.{map};
ghost use Rattle.drain_mosaic.specs.Mosaic.{AreTiles};

use super::{SQUARE, four_tiles, turn, two_tiles};
use crate::agree::same;
use crate::tiles::{four_named, two_named};
use drain_grid::{Cell, VOID};
use drain_mosaic::first_seam::first_seam;
use drain_mosaic::{Layout, SeamFault, join};
use std::alloc::Global;
use std::test::Fail;

/// The cell that a join names, none where it gives an elevation. Without memory the same cell is named.
fn seam_of(alloc: Global, layout: &Layout, tiles: &[Vec<i16>]) -> Result<Option<Cell>, Fail>
    requires { AreTiles layout.now (map (λ tile. tile.items) tiles.now) }
{
    let seam = match join(alloc, layout, tiles) {
        Err(SeamFault::SeamMismatch(cell)) => Some(cell),
        Err(fault) => return Err(fault.into()),
        Ok(_) => None,
    };
    if first_seam(layout, tiles) != seam {
        return Err("another cell without memory".into());
    }
    Ok(seam)
}

/// The seam of two tiles of side 3.
fn seam_of_pair(
    alloc: Global,
    names: [&str; 2],
    first: [i16; 9],
    last: [i16; 9],
) -> Result<Option<Cell>, Fail> {
    let layout = Layout::new(alloc, 3, &two_named(names)?)?;
    let tiles = two_tiles(alloc, &[first, last])?;
    seam_of(alloc, &layout, &tiles)
}

/// The seam of two tiles of side 3, with the one named first and with the other named first.
fn seams_both_ways(
    alloc: Global,
    names: [&str; 2],
    first: [i16; 9],
    last: [i16; 9],
) -> Result<[Option<Cell>; 2], Fail> {
    let [one, other] = names;
    Ok([
        seam_of_pair(alloc, [one, other], first, last)?,
        seam_of_pair(alloc, [other, one], last, first)?,
    ])
}

/// The samples of the eastern tile, and the row of the seam; none where the tiles agree.
static EASTERN: [(&str, [i16; 9], Option<u32>); 11] = [
    ("agree", [3, 0, 0, 6, 0, 0, 9, 0, 0], None),
    ("first row", [0, 0, 0, 6, 0, 0, 9, 0, 0], Some(0)),
    ("inner row", [3, 0, 0, 0, 0, 0, 9, 0, 0], Some(1)),
    ("last row", [3, 0, 0, 6, 0, 0, 0, 0, 0], Some(2)),
    ("every row", [0, 0, 0, 0, 0, 0, 0, 0, 0], Some(0)),
    ("last rows", [3, 0, 0, 0, 0, 0, 0, 0, 0], Some(1)),
    ("after a void", [VOID, 0, 0, VOID, 0, 0, 0, 0, 0], Some(2)),
    ("voids", [VOID, 0, 0, VOID, 0, 0, VOID, 0, 0], None),
    ("by one", [3, 0, 0, 7, 0, 0, 9, 0, 0], Some(1)),
    ("by sign", [-3, 0, 0, 6, 0, 0, 9, 0, 0], Some(0)),
    ("extremes", [32767, 0, 0, -32767, 0, 0, 9, 0, 0], Some(0)),
];

/// Two tiles that share column 2 of 3 rows and 5 columns.
#[test]
fn one_beside_the_other(rt: HostRuntime) -> Result<(), Fail> {
    let west = [1, 2, 3, 4, 5, 6, 7, 8, 9];
    for &(case, east, row) in &EASTERN {
        let expected = row.map(|row| Cell { row, col: 2 });
        let seams = seams_both_ways(rt.alloc(), ["N00E000.hgt", "N00E001.hgt"], west, east)?;
        same(&rt, case, seams, [expected, expected]);
    }
    Ok(())
}

/// The samples of the southern tile, and the column of the seam; none where the tiles agree.
static SOUTHERN: [(&str, [i16; 9], Option<u32>); 9] = [
    ("agree", [7, 8, 9, 0, 0, 0, 0, 0, 0], None),
    ("first column", [0, 8, 9, 0, 0, 0, 0, 0, 0], Some(0)),
    ("inner column", [7, 0, 9, 0, 0, 0, 0, 0, 0], Some(1)),
    ("last column", [7, 8, 0, 0, 0, 0, 0, 0, 0], Some(2)),
    ("every column", [0, 0, 0, 0, 0, 0, 0, 0, 0], Some(0)),
    ("both ends", [0, 8, 0, 0, 0, 0, 0, 0, 0], Some(0)),
    ("last columns", [7, 0, 0, 0, 0, 0, 0, 0, 0], Some(1)),
    ("after a void", [VOID, VOID, 0, 0, 0, 0, 0, 0, 0], Some(2)),
    ("voids", [VOID, VOID, VOID, 0, 0, 0, 0, 0, 0], None),
];

/// Two tiles that share row 2 of 5 rows and 3 columns.
#[test]
fn one_above_the_other(rt: HostRuntime) -> Result<(), Fail> {
    let north = [1, 2, 3, 4, 5, 6, 7, 8, 9];
    for &(case, south, col) in &SOUTHERN {
        let expected = col.map(|col| Cell { row: 2, col });
        let seams = seams_both_ways(rt.alloc(), ["N01E000.hgt", "N00E000.hgt"], north, south)?;
        same(&rt, case, seams, [expected, expected]);
    }
    Ok(())
}

/// The seam of four tiles of side 3 in a square of 5 by 5 cells: north-west, north-east, south-west, south-east.
fn seam_of_square(alloc: Global, tiles: [[i16; 9]; 4]) -> Result<Option<Cell>, Fail> {
    let layout = Layout::new(alloc, 3, &four_named(SQUARE)?)?;
    let tiles = four_tiles(alloc, &tiles)?;
    seam_of(alloc, &layout, &tiles)
}

/// Four tiles that agree: the cells of the square are numbered from 1 in row order.
fn square() -> [[i16; 9]; 4] {
    [
        [1, 2, 3, 6, 7, 8, 11, 12, 13],
        [3, 4, 5, 8, 9, 10, 13, 14, 15],
        [11, 12, 13, 16, 17, 18, 21, 22, 23],
        [13, 14, 15, 18, 19, 20, 23, 24, 25],
    ]
}

/// The square with these samples where its four tiles meet.
fn meeting(samples: [i16; 4]) -> [[i16; 9]; 4] {
    let [
        mut north_west,
        mut north_east,
        mut south_west,
        mut south_east,
    ] = square();
    let [at_north_west, at_north_east, at_south_west, at_south_east] = samples;
    north_west[8] = at_north_west;
    north_east[6] = at_north_east;
    south_west[2] = at_south_west;
    south_east[0] = at_south_east;
    [north_west, north_east, south_west, south_east]
}

/// The cell where four tiles meet, where they differ.
fn centre(differ: bool) -> Option<Cell> {
    if differ {
        Some(Cell { row: 2, col: 2 })
    } else {
        None
    }
}

/// The samples where four tiles meet, and whether they differ.
static MEETINGS: [(&str, [i16; 4], bool); 15] = [
    ("all the same", [13, 13, 13, 13], false),
    ("all voids", [VOID, VOID, VOID, VOID], false),
    ("north-west alone", [13, VOID, VOID, VOID], false),
    ("south-east alone", [VOID, VOID, VOID, 13], false),
    ("north-west and north-east", [1, 2, VOID, VOID], true),
    ("north-west and south-west", [1, VOID, 2, VOID], true),
    ("north-west and south-east", [1, VOID, VOID, 2], true),
    ("north-east and south-west", [VOID, 1, 2, VOID], true),
    ("north-east and south-east", [VOID, 1, VOID, 2], true),
    ("south-west and south-east", [VOID, VOID, 1, 2], true),
    ("north-west from the others", [1, 13, 13, 13], true),
    ("north-east from the others", [13, 1, 13, 13], true),
    ("south-west from the others", [13, 13, 1, 13], true),
    ("south-east from the others", [13, 13, 13, 1], true),
    ("each from each", [1, 2, 3, 4], true),
];

/// The four tiles meet at one cell, each with a sample of its own there.
#[test]
fn corners_of_four_tiles(rt: HostRuntime) -> Result<(), Fail> {
    for &(case, samples, differ) in &MEETINGS {
        let seam = seam_of_square(rt.alloc(), meeting(samples))?;
        same(&rt, case, seam, centre(differ));
    }
    Ok(())
}

/// The square with the samples at one or two places turned to 0: a tile, and a place in it.
fn with_zeros(places: [(usize, usize); 2]) -> [[i16; 9]; 4] {
    let mut tiles = square();
    let [(tile, place), (other, other_place)] = places;
    turn(&mut tiles, tile, place);
    turn(&mut tiles, other, other_place);
    tiles
}

/// One or two samples that are turned to 0, each by its tile and its place in it, and the row and the column of the seam.
static EDGES: [(&str, (usize, usize), (usize, usize), u32, u32); 13] = [
    ("first row", (1, 0), (1, 0), 0, 2),
    ("above the corners", (1, 3), (1, 3), 1, 2),
    ("first column", (2, 0), (2, 0), 2, 0),
    ("before the corners", (2, 1), (2, 1), 2, 1),
    ("after the corners", (3, 1), (3, 1), 2, 3),
    ("last column", (3, 2), (3, 2), 2, 4),
    ("below the corners", (3, 3), (3, 3), 3, 2),
    ("last row", (3, 6), (3, 6), 4, 2),
    ("first and last row", (3, 6), (1, 0), 0, 2),
    ("first and last column", (3, 2), (2, 0), 2, 0),
    ("last column and last row", (3, 6), (3, 2), 2, 4),
    ("first row and first column", (2, 0), (1, 0), 0, 2),
    ("corners and last column", (3, 2), (3, 0), 2, 2),
];

/// One or two samples of the two eastern or southern tiles are turned to 0.
#[test]
fn edges_of_four_tiles(rt: HostRuntime) -> Result<(), Fail> {
    for &(case, one, other, row, col) in &EDGES {
        let seam = seam_of_square(rt.alloc(), with_zeros([one, other]))?;
        same(&rt, case, seam, Some(Cell { row, col }));
    }
    Ok(())
}
