//! Worked layouts: boxes, and the faults of lists, up to the 64 tiles of a full box.

ghost use Rattle.drain_grid.specs.Grid.{IsSide};

use crate::agree::same;
use crate::tiles::{four_named, two_named};
use drain_grid::tile::is_side;
use drain_hgt::{NameFault, TileName};
use drain_mosaic::{Layout, LayoutFault};
use std::alloc::Global;
use std::test::Fail;

/// The layout of two tiles: its rows and columns, its west and north, its side and length, and its last tile.
fn told(
    alloc: Global,
    side: u32,
    names: [TileName; 2],
) -> Result<((u32, u32), (i16, i16), (u32, usize), TileName), LayoutFault>
    requires { IsSide side }
{
    let layout = Layout::new(alloc, side, &names)?;
    let shape = layout.shape();
    Ok((
        (shape.rows(), shape.cols()),
        (layout.west(), layout.north()),
        (layout.side(), layout.len()),
        layout.name(1),
    ))
}

/// A side, the names of two tiles, and their mosaic's rows, columns, west and north.
static BOXES: [(u32, [&str; 2], (u32, u32), (i16, i16)); 5] = [
    (3601, ["N00E000.hgt", "N00E007.hgt"], (3601, 28801), (0, 1)),
    (3, ["N00E000.hgt", "N00E002.hgt"], (3, 7), (0, 1)),
    (2, ["S08W180.hgt", "S01W173.hgt"], (9, 9), (-180, 0)),
    (
        1201,
        ["N89E179.hgt", "N82E179.hgt"],
        (9601, 1201),
        (179, 90),
    ),
    (2, ["S90W001.hgt", "S90E000.hgt"], (2, 3), (-1, -89)),
];

#[test]
fn boxes_of_tiles(rt: HostRuntime) -> Result<(), Fail> {
    for &(side, names, sizes, place) in &BOXES {
        let [first, last] = two_named(names)?;
        assert!(rt; is_side(side));
        let given = told(rt.alloc(), side, [first, last])?;
        same(&rt, names, given, (sizes, place, (side, 2), last));
    }
    Ok(())
}

/// The fault of tiles of side 2, none where they make a mosaic.
fn fault_of(alloc: Global, tiles: &[TileName]) -> Option<LayoutFault> {
    Layout::new(alloc, 2, tiles).err()
}

/// The fault of four tiles of side 2 with these names.
fn fault_of_four(alloc: Global, names: [&str; 4]) -> Result<Option<LayoutFault>, NameFault> {
    Ok(fault_of(alloc, &four_named(names)?))
}

/// The fault of a list in which the tile of this name comes again; where there is none, of one whose box is too large.
fn fault_told(again: Option<&str>) -> Result<LayoutFault, NameFault> {
    match again {
        Some(name) => Ok(LayoutFault::RepeatedTile(TileName::parse(name.as_bytes())?)),
        None => Ok(LayoutFault::BoxTooLarge),
    }
}

/// Names of tiles, and which of them comes again; none where their box is too large.
static FOUR_TILES: [(&str, [&str; 4], Option<&str>); 5] = [
    (
        "two pairs",
        ["n00e000.hgt", "N00E000.HGT", "N00E001.hgt", "n00e001.hgt"],
        Some("N00E000.hgt"),
    ),
    (
        "a pair inside another",
        ["N00E000.hgt", "N00E001.hgt", "n00e001.hgt", "n00e000.hgt"],
        Some("N00E001.hgt"),
    ),
    (
        "too wide",
        ["N00E000.hgt", "N00E008.hgt", "N01E000.hgt", "N02E000.hgt"],
        None,
    ),
    (
        "too tall",
        ["N00E000.hgt", "S08E000.hgt", "N01E000.hgt", "N02E000.hgt"],
        None,
    ),
    (
        "too wide, with a pair",
        ["N00E000.hgt", "N00E008.hgt", "N01E000.hgt", "N00E000.hgt"],
        Some("N00E000.hgt"),
    ),
];

#[test]
fn tiles_that_make_no_mosaic(rt: HostRuntime) -> Result<(), Fail> {
    let none = fault_of(rt.alloc(), &[]);
    same(&rt, "no tiles", none, Some(LayoutFault::NoTiles));
    for &(case, names, again) in &FOUR_TILES {
        let given = fault_of_four(rt.alloc(), names)?;
        same(&rt, case, given, Some(fault_told(again)?));
    }
    Ok(())
}

/// Appends the tile of this name to the others; none if the name is empty.
fn push_named(tiles: &mut Vec<TileName>, name: &str) -> Result<(), Fail> {
    if !name.is_empty() {
        tiles.push(TileName::parse(name.as_bytes())?)?;
    }
    Ok(())
}

/// The tile whose south-west corner has these degrees, each below 10.
fn tile_at(lat: u8, lon: u8) -> Result<TileName, NameFault> {
    let mut name = *b"N00E000.hgt";
    name[2] = b'0'.saturating_add(lat);
    name[6] = b'0'.saturating_add(lon);
    TileName::parse(&name)
}

/// The 64 tiles of the box from N00E000 to N07E007, row by row from the south, between two more: none where a name is empty.
fn full_box(alloc: Global, front: &str, back: &str) -> Result<Vec<TileName>, Fail> {
    let mut tiles = Vec::new(alloc);
    push_named(&mut tiles, front)?;
    for lat in 0..8 {
        for lon in 0..8 {
            tiles.push(tile_at(lat, lon)?)?;
        }
    }
    push_named(&mut tiles, back)?;
    Ok(tiles)
}

#[test]
fn a_full_box(rt: HostRuntime) -> Result<(), Fail> {
    let names = full_box(rt.alloc(), "", "")?;
    let layout = Layout::new(rt.alloc(), 2, &names)?;
    let shape = layout.shape();
    let sizes = (shape.rows(), shape.cols(), layout.len());
    let mut places = [(0, 0); 4];
    for (place, tile) in places.iter_mut().zip([0, 7, 56, 63]) {
        assert!(rt; tile < layout.len());
        let cell = layout.place(tile);
        *place = (cell.row, cell.col);
    }
    let expected = [(7, 0), (7, 7), (0, 0), (0, 7)];
    same(&rt, "a full box", (sizes, places), ((9, 9, 64), expected));
    Ok(())
}

/// The fault of a full box between two more tiles.
fn fault_of_box(alloc: Global, front: &str, back: &str) -> Result<Option<LayoutFault>, Fail> {
    let names = full_box(alloc, front, back)?;
    Ok(fault_of(alloc, &names))
}

/// The names of tiles before a full box and after it, and which tile comes again; none if the box is too large.
static BESIDE_A_BOX: [(&str, &str, &str, Option<&str>); 12] = [
    ("first tile first", "N00E000.hgt", "", Some("N00E000.hgt")),
    ("first tile last", "", "N00E000.hgt", Some("N00E000.hgt")),
    ("inner tile first", "N03E004.hgt", "", Some("N03E004.hgt")),
    ("inner tile last", "", "N03E004.hgt", Some("N03E004.hgt")),
    ("last tile first", "N07E007.hgt", "", Some("N07E007.hgt")),
    ("last tile last", "", "N07E007.hgt", Some("N07E007.hgt")),
    (
        "both ends",
        "N07E007.hgt",
        "N00E000.hgt",
        Some("N07E007.hgt"),
    ),
    (
        "a repeated tile, and a large box",
        "N00E000.hgt",
        "N08E000.hgt",
        Some("N00E000.hgt"),
    ),
    ("a tile to the north", "", "N08E000.hgt", None),
    ("a tile to the east", "", "N00E008.hgt", None),
    ("a tile to the south", "S01E000.hgt", "", None),
    ("a tile to the west", "N00W001.hgt", "", None),
];

#[test]
fn faults_of_many_tiles(rt: HostRuntime) -> Result<(), Fail> {
    for &(case, front, back, again) in &BESIDE_A_BOX {
        let given = fault_of_box(rt.alloc(), front, back)?;
        same(&rt, case, given, Some(fault_told(again)?));
    }
    Ok(())
}
