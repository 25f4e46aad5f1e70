//! Lists of sinks: what they change, on one tile and on two. The lines were worked out by hand from the rules.

use crate::example::{Example, one_tile, products_on, tile, tile_on};
use crate::faults::{FaultyCalls, fails_at_each_call, tells_beside};
use crate::inputs::Owner;
use crate::runs::Checked;
use crate::tells::{Changes, changes_tell, lists_tell, tells};
use drain_device::DeviceFault;
use drain_grid::SetProduct;
use std::alloc::Global;
use std::test::Fail;
use worked::grids::{
    LISTED_PIT_LINE, LISTED_PIT_SINKS, PIT_LINE, UNLISTED_PIT_LINE, listed_pit, pit,
};
use worked::shafts::Shafts;

/// The listed pit with a list.
pub fn listed_pit_with(text: &str) -> Example {
    one_tile(3, &listed_pit()).listing(text)
}

/// The filled pit with a list.
pub fn filled_pit_with(text: &str) -> Example {
    one_tile(3, &pit()).listing(text)
}

/// Lists for the listed pit, each with the expected line.
static LISTED_PIT_LISTS: [(&str, &str); 7] = [
    ("1 1\n1 1", LISTED_PIT_LINE),
    ("1 1\n", LISTED_PIT_LINE),
    ("\r\n \t1\t01 \r\n\n", LISTED_PIT_LINE),
    ("2 2\n1 1\n0 0\n0 1", LISTED_PIT_LINE),
    ("", UNLISTED_PIT_LINE),
    ("\n \n\r\n", UNLISTED_PIT_LINE),
    ("0 0\n0 1\n0 2\n1 0\n1 2\n2 0\n2 1\n2 2", UNLISTED_PIT_LINE),
];

#[test]
fn a_pit_that_is_listed_and_not(rt: HostRuntime) -> Result<(), Fail> {
    lists_tell(&rt, rt.alloc(), &listed_pit_with(""), &LISTED_PIT_LISTS)
}

/// Lists for the filled pit, each with the expected line.
static FILLED_PIT_LISTS: [(&str, &str); 4] = [
    ("", PIT_LINE),
    ("0 0", PIT_LINE),
    ("0 0\n0 1\n0 2\n1 0\n1 2\n2 0\n2 1\n2 2", PIT_LINE),
    ("1 1", "rejected rule=5 OpenRaised row=1 col=1"),
];

#[test]
fn a_filled_pit_with_sinks(rt: HostRuntime) -> Result<(), Fail> {
    lists_tell(&rt, rt.alloc(), &filled_pit_with(""), &FILLED_PIT_LISTS)
}

/// A level tile of side 5 whose middle is a void: so each other cell is an outlet with a label of its own.
fn land_round_a_void() -> [i64; 150] {
    let mut numbers = [0; 150];
    for (place, number) in numbers.iter_mut().enumerate() {
        *number = match (place / 25, place % 25) {
            (0 | 1, 12) => -32768,
            (2, 12) => 255,
            (5, 12) => 4294967295,
            (3, cell) if cell != 12 => 1,
            (4, cell) if cell != 12 => cell as i64 + 1,
            _ => 0,
        };
    }
    numbers
}

/// The level tile round a void.
pub fn round_a_void() -> Example {
    let grid = "NROWS 5\nNCOLS 5\nULXMAP 0\nULYMAP 1\nXDIM 0.25\nYDIM 0.25\n";
    tile_on(5, "N00E000.hgt", grid, &land_round_a_void())
}

/// The line of the land round a void.
const RIGHT: &str = "accepted rows=5 cols=5 data=24 raised=0 outlets=24";

/// Lists for land with a void inside, each with the expected line.
static VOID_LISTS: [(&str, &str); 8] = [
    ("", RIGHT),
    ("1 1\n4 4", RIGHT),
    ("2 2", "refused SinkNotData 1"),
    ("1 1\n\n2 2\n3 3", "refused SinkNotData 3"),
    ("5 0\n2 2", "refused SinkNotData 1"),
    ("2 2\n5 0", "refused SinkNotData 1"),
    ("0 0\n5 0\n2 2", "refused SinkNotData 2"),
    ("0 0\n2 2\n0 5", "refused SinkNotData 2"),
];

#[test]
fn a_void_inside_the_land(rt: HostRuntime) -> Result<(), Fail> {
    lists_tell(&rt, rt.alloc(), &round_a_void(), &VOID_LISTS)
}

/// The places of two tiles of side 3, the second next to the first or below it.
#[derive(Clone, Copy)]
pub enum Lie {
    Beside,
    Below,
}

impl Lie {
    /// Its rows, its columns, the first lines of its headers, and the names of its tiles.
    fn mosaic(self) -> (u8, u16, &'static str, [&'static str; 2]) {
        match self {
            Lie::Beside => (
                3,
                5,
                "NROWS 3\nNCOLS 5\nULXMAP 0\nULYMAP 1\nXDIM 0.5\nYDIM 0.5\n",
                ["N00E000.hgt", "N00E001.hgt"],
            ),
            Lie::Below => (
                5,
                3,
                "NROWS 5\nNCOLS 3\nULXMAP 0\nULYMAP 1\nXDIM 0.5\nYDIM 0.5\n",
                ["N00E000.hgt", "S01E000.hgt"],
            ),
        }
    }
}

/// Two level tiles with these products and this list.
fn two_level_tiles(lie: Lie, products: &[i64], text: &str) -> Example {
    let (_, _, grid, names) = lie.mosaic();
    let mut example = products_on(3, grid, products);
    for name in names {
        example.push_tile(tile(name, &[0; 9]));
    }
    example.listing(text)
}

/// Two level tiles whose products are right if this cell is listed, with this list.
pub fn two_tiles(alloc: Global, lie: Lie, cell: (u8, u16), text: &str) -> Result<Example, Fail> {
    let (rows, cols, _, _) = lie.mosaic();
    let shafts = Shafts {
        rows,
        cols,
        listed: &[cell],
    };
    let numbers = shafts.numbers(alloc)?;
    match numbers.get(15..) {
        Some(products) => Ok(two_level_tiles(lie, products, text)),
        None => Err("products".into()),
    }
}

const RIGHT_BESIDE: &str = "accepted rows=3 cols=5 data=15 raised=0 outlets=13";

const RIGHT_BELOW: &str = "accepted rows=5 cols=3 data=15 raised=0 outlets=13";

const OPEN_OF_ITSELF: &str = "accepted rows=3 cols=5 data=15 raised=0 outlets=12";

/// The places of the tiles, the cell at which the products are right, the list, and the expected line.
static TWO_TILES: [(Lie, (u8, u16), &str, &str); 18] = [
    (Lie::Beside, (1, 1), "1 1", RIGHT_BESIDE),
    (Lie::Beside, (1, 2), "1 2", RIGHT_BESIDE),
    (Lie::Beside, (1, 3), "1 3\n", RIGHT_BESIDE),
    (Lie::Beside, (1, 3), "2 4\n0 2\n1 3\n2 2", RIGHT_BESIDE),
    (Lie::Beside, (2, 4), "2 4", OPEN_OF_ITSELF),
    (Lie::Beside, (0, 4), "0 4", OPEN_OF_ITSELF),
    (Lie::Beside, (2, 0), "2 0\n1 4", OPEN_OF_ITSELF),
    (
        Lie::Beside,
        (1, 2),
        "",
        "rejected rule=12 FlatStep row=1 col=2",
    ),
    (
        Lie::Beside,
        (1, 3),
        "1 2",
        "rejected rule=11 OutletCode row=1 col=2",
    ),
    (
        Lie::Beside,
        (1, 2),
        "1 3",
        "rejected rule=12 FlatStep row=1 col=2",
    ),
    (Lie::Beside, (1, 2), "1 5", "refused SinkNotData 1"),
    (Lie::Beside, (1, 2), "1 2\n3 2", "refused SinkNotData 2"),
    (Lie::Below, (1, 1), "1 1", RIGHT_BELOW),
    (Lie::Below, (2, 1), "2 1", RIGHT_BELOW),
    (Lie::Below, (3, 1), "4 2\n3 1\n2 2", RIGHT_BELOW),
    (
        Lie::Below,
        (3, 1),
        "2 1",
        "rejected rule=11 OutletCode row=2 col=1",
    ),
    (Lie::Below, (3, 1), "3 1\n5 1", "refused SinkNotData 2"),
    (Lie::Below, (3, 1), "1 3\n3 1", "refused SinkNotData 1"),
];

/// A cell of the first tile, one of the seam, of the second tile, and of the last row and column.
#[test]
fn sinks_of_two_tiles(rt: HostRuntime) -> Result<(), Fail> {
    for &(lie, cell, text, line) in &TWO_TILES {
        let example = two_tiles(rt.alloc(), lie, cell, text)?;
        tells(&rt, rt.alloc(), Checked::Check, text, &example, line)?;
    }
    Ok(())
}

/// The lists for which a source fails, and the expected line if it doesn't.
static BESIDE_A_FAULT: [(&str, &str); 4] = [
    (LISTED_PIT_SINKS, LISTED_PIT_LINE),
    ("2 2\n", UNLISTED_PIT_LINE),
    ("1 1\nx", "refused BadSinkLine 2"),
    ("1 1\n\n3 3", "refused SinkNotData 3"),
];

/// Owners of sources, each with the number of calls of its source.
static CALLS: [(Owner, u64); 4] = [
    (Owner::Tile, 19),
    (Owner::Raster(SetProduct::Con), 18),
    (Owner::Raster(SetProduct::Dir), 9),
    (Owner::Raster(SetProduct::Rnk), 36),
];

#[test]
fn sources_that_fail_beside_a_list(rt: HostRuntime) -> Result<(), Fail> {
    for &(text, line) in &BESIDE_A_FAULT {
        let pit = listed_pit_with(text);
        for &asked in &CALLS {
            fails_at_each_call(&rt, rt.alloc(), text, &pit, asked, line)?;
        }
    }
    Ok(())
}

/// An owner, the first and the last call of its source that is interrupted, and whether that is retried.
static INTERRUPTIONS: [(Owner, u64, u64, bool); 8] = [
    (Owner::Tile, 1, 999, true),
    (Owner::Tile, 5, 1003, true),
    (Owner::Tile, 1, 1000, false),
    (Owner::Tile, 5, 1004, false),
    (Owner::Raster(SetProduct::Dir), 1, 999, true),
    (Owner::Raster(SetProduct::Dir), 5, 1003, true),
    (Owner::Raster(SetProduct::Dir), 1, 1000, false),
    (Owner::Raster(SetProduct::Dir), 5, 1004, false),
];

#[test]
fn sources_that_are_interrupted_beside_a_list(rt: HostRuntime) -> Result<(), Fail> {
    for &(text, line) in &BESIDE_A_FAULT {
        let pit = listed_pit_with(text);
        for &(owner, first, last, is_borne) in &INTERRUPTIONS {
            let owed = if is_borne { line } else { "failed ReadFailed" };
            let calls = FaultyCalls {
                owner,
                first,
                last,
                answer: DeviceFault::Interrupted,
            };
            tells_beside(&rt, rt.alloc(), Checked::Check, text, &pit, calls, owed)?;
        }
    }
    Ok(())
}

/// A number of the listed pit that is changed, and the line of the rejection.
static RULES: [Changes; 6] = [
    (&[(13, 0)], "rejected rule=4 BelowGround row=1 col=1"),
    (&[(13, 2)], "rejected rule=5 OpenRaised row=1 col=1"),
    (&[(18, 1)], "rejected rule=10 Slope row=0 col=0"),
    (&[(22, 1)], "rejected rule=11 OutletCode row=1 col=1"),
    (&[(31, 8)], "rejected rule=13 Accumulation row=1 col=1"),
    (&[(36, 2)], "rejected rule=14 Label row=0 col=0"),
];

/// Rules that ignore sinks, at the listed pit with one number changed; its samples and its products are 9 each.
#[test]
fn rules_beside_a_list(rt: HostRuntime) -> Result<(), Fail> {
    changes_tell(
        &rt,
        rt.alloc(),
        Checked::Check,
        (3, LISTED_PIT_SINKS),
        &listed_pit(),
        &RULES,
    )
}
