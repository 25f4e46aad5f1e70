//! Products made with listed sinks: tiles worked out by hand, and lists that name cells without data.

ghost use Rattle.std.specs.Prelude.{◌≡◌};
ghost use Rattle.drain_mosaic.specs.Tiling.{extent_of};

use crate::agree::{same, same_numbers};
use crate::made::{con_of_nine, elevation, numbers_made, one_tile};
use crate::raster_numbers::Numbers;
use drain_grid::{Elevation, SetProduct, SinkFault, VOID, parse_sinks};
use drain_hgt::TileName;
use drain_maker::{MakeRefusal, make};
use drain_mosaic::Layout;
use std::alloc::Global;
use std::process::Abort;
use std::test::Fail;
use worked::memory::owed_unless_right;

/// A tile's side and its samples.
type Tile<'a> = (u32, &'a [i16]);

/// The numbers of a product made of one tile with the sinks of the text.
fn made(alloc: Global, tile: Tile, list: &str, product: SetProduct) -> Result<Numbers, Fail> {
    let sinks = parse_sinks(alloc, list.as_bytes())?;
    numbers_made(alloc, tile, &sinks, product)
}

/// Fails the test if a product made of one tile with the sinks of the text has other numbers.
fn gives(
    rt: &impl Abort,
    alloc: Global,
    tile: Tile,
    list: &str,
    product: SetProduct,
    expected: &[i64],
) -> Result<(), Fail> {
    let given = made(alloc, tile, list, product)?;
    same_numbers(rt, (product, list), given.as_slice(), expected);
    Ok(())
}

/// A pit in the middle, lower than the edge.
const PIT: [i16; 9] = [5, 5, 5, 5, 1, 5, 5, 5, 5];

/// A product, and its numbers.
static OF_PIT: [(SetProduct, [i64; 9]); 5] = [
    (SetProduct::Con, [5, 5, 5, 5, 1, 5, 5, 5, 5]),
    (SetProduct::Dir, [2, 4, 8, 1, 0, 16, 128, 64, 32]),
    (SetProduct::Acc, [1, 1, 1, 1, 9, 1, 1, 1, 1]),
    (SetProduct::Bas, [1; 9]),
    (SetProduct::Rnk, [0; 9]),
];

/// Lists of the pit.
static PIT_LISTS: [&str; 3] = ["1 1", "1 1\n1 1", "\n1 1\r\n\n0 2\n1 1\n"];

#[test]
fn a_listed_pit_is_the_one_outlet(rt: HostRuntime) -> Result<(), Fail> {
    for &(product, expected) in &OF_PIT {
        for &list in &PIT_LISTS {
            gives(&rt, rt.alloc(), (3, &PIT), list, product, &expected)?;
        }
    }
    Ok(())
}

/// Three columns inside an edge of nines.
static COLUMNS: [i16; 25] = [
    9, 9, 9, 9, 9, 9, 3, 8, 2, 9, 9, 3, 8, 2, 9, 9, 3, 8, 2, 9, 9, 9, 9, 9, 9,
];

/// A list, and the heights of the left, the middle and the right column.
static LOWEST_WAYS: [(&str, i64, i64, i64); 5] = [
    ("", 9, 9, 9),
    ("2 1", 3, 8, 8),
    ("2 2", 8, 8, 8),
    ("3 3", 8, 8, 2),
    ("2 1\n2 3", 3, 8, 2),
];

/// Three columns inside an edge of nines, of heights 3, 8 and 2. With a sink on the left one the right one fills up to the middle one.
#[test]
fn water_gets_to_a_listed_sink_over_the_lowest_way(rt: HostRuntime) -> Result<(), Fail> {
    for &(list, left, middle, right) in &LOWEST_WAYS {
        let (l, m, r) = (left, middle, right);
        let expected = [
            9, 9, 9, 9, 9, 9, l, m, r, 9, 9, l, m, r, 9, 9, l, m, r, 9, 9, 9, 9, 9, 9,
        ];
        gives(
            &rt,
            rt.alloc(),
            (5, &COLUMNS),
            list,
            SetProduct::Con,
            &expected,
        )?;
    }
    Ok(())
}

/// The ranks of a flat whose middle is listed.
static OF_FLAT: [i64; 25] = [
    0, 0, 0, 0, 0, 0, 1, 1, 1, 0, 0, 1, 0, 1, 0, 0, 1, 1, 1, 0, 0, 0, 0, 0, 0,
];

/// A sink on a flat is an outlet, and ranks are steps to it or to the edge.
#[test]
fn ranks_round_a_listed_cell_of_a_flat(rt: HostRuntime) -> Result<(), Fail> {
    let flat = (5, [7; 25].as_slice());
    gives(&rt, rt.alloc(), flat, "2 2", SetProduct::Rnk, &OF_FLAT)
}

/// A product, and its numbers in each row.
static OF_SLOPE: [(SetProduct, [i64; 4]); 3] = [
    (SetProduct::Con, [4, 3, 2, 1]),
    (SetProduct::Dir, [1, 1, 1, 0]),
    (SetProduct::Acc, [1, 2, 3, 4]),
];

/// Rows that fall from west to east.
static SLOPE: [i16; 16] = [4, 3, 2, 1, 4, 3, 2, 1, 4, 3, 2, 1, 4, 3, 2, 1];

/// Listed cells of a slope drain on: they are open, and no outlets.
#[test]
fn listed_cells_of_a_slope_drain_on(rt: HostRuntime) -> Result<(), Fail> {
    for &(product, row) in &OF_SLOPE {
        let [a, b, c, d] = row;
        let expected = [a, b, c, d, a, b, c, d, a, b, c, d, a, b, c, d];
        let list = "1 1\n2 2";
        gives(&rt, rt.alloc(), (4, &SLOPE), list, product, &expected)?;
    }
    Ok(())
}

/// A tile with a void inside.
static WITH_A_VOID: [i16; 25] = [
    5, 4, 5, 6, 5, 4, 3, 6, 6, 5, 5, 6, 1, 6, 5, 5, 6, 6, 2, VOID, 5, 5, 5, 5, 5,
];

/// Lists of cells that are open without them.
static OPEN_CELLS: [&str; 4] = ["0 0", "4 4\n\n0 3\n2 0\n0 3", "3 3", "2 3\n3 3\n1 0"];

/// What is open without a list is unchanged: cells of the edge, and a cell next to a void.
#[test]
fn listed_cells_that_are_open_change_nothing(rt: HostRuntime) -> Result<(), Fail> {
    for product in SetProduct::ALL {
        let without = made(rt.alloc(), (5, &WITH_A_VOID), "", product)?;
        for &list in &OPEN_CELLS {
            let expected = without.as_slice();
            gives(&rt, rt.alloc(), (5, &WITH_A_VOID), list, product, expected)?;
        }
    }
    Ok(())
}

/// Why nothing is made of these elevations with the sinks of the text.
fn refusal_of(
    alloc: Global,
    layout: &Layout,
    elevation: &Elevation,
    list: &str,
) -> Result<Option<MakeRefusal>, Fail>
    requires { elevation.now.extent ≡ extent_of layout.now }
{
    let sinks = parse_sinks(alloc, list.as_bytes())?;
    Ok(make(alloc, layout, elevation, &sinks).err())
}

/// The same of one tile.
fn refusal(alloc: Global, (side, samples): Tile, list: &str) -> Result<Option<MakeRefusal>, Fail> {
    let layout = one_tile(alloc, side)?;
    let elevation = elevation(&layout, Vec::from_slice(alloc, samples)?)?;
    refusal_of(alloc, &layout, &elevation, list)
}

/// A void in the middle.
const HOLED: [i16; 9] = [5, 5, 5, 5, VOID, 5, 5, 5, 5];

/// The side of a tile, its samples, the list, and the least line whose cell has no data.
static OFF_THE_DATA: [(u32, &[i16], &str, u64); 10] = [
    (2, &[VOID; 4], "0 0", 1),
    (2, &[VOID; 4], "\n \n0 0\n1 1", 3),
    (3, &PIT, "0 0\n3 0", 2),
    (3, &PIT, "0 3", 1),
    (3, &PIT, "1 1\n\n\n0 3\n9 9", 4),
    (3, &PIT, "2 2\r\n\r\n2 2\r\n3 3\r\n", 4),
    (3, &PIT, "4294967295 4294967295", 1),
    (3, &HOLED, "0 0\n\n1 1\n3 3\n1 1", 3),
    (3, &HOLED, "3 3\n1 1", 1),
    (3, &HOLED, "0 1\n0 1\n1 1\n1 1", 3),
];

#[test]
fn the_least_line_without_data_is_told(rt: HostRuntime) -> Result<(), Fail> {
    for &(side, samples, list, line) in &OFF_THE_DATA {
        let told = refusal(rt.alloc(), (side, samples), list)?;
        same(&rt, list, told, Some(MakeRefusal::SinkNotData(line)));
    }
    Ok(())
}

/// The first nine numbers of con made of the pit with these sinks. If its inputs run out of memory, that counts as the
/// maker's own.
fn con_with(alloc: Global, name: TileName, list: &str) -> Result<Option<[i64; 9]>, MakeRefusal> {
    match parse_sinks(alloc, list.as_bytes()) {
        Ok(sinks) => con_of_nine(alloc, name, &PIT, &sinks),
        Err(SinkFault::OutOfMemory) => Err(MakeRefusal::OutOfMemory),
        Err(SinkFault::BadSinkLine(_)) => Ok(None),
    }
}

/// Normally memory is there; `tests/refuse_memory.c` refuses it.
#[test]
fn a_listed_pit_after_refused_memory(rt: HostRuntime) -> Result<(), Fail> {
    let name = TileName::parse(b"N00E000.hgt")?;
    let right = Ok(Some([5, 5, 5, 5, 1, 5, 5, 5, 5]));
    let first = con_with(rt.alloc(), name, "1 1");
    let expected = owed_unless_right(rt.alloc(), first, Err(MakeRefusal::OutOfMemory), right);
    same(&rt, "first", first, expected);
    same(&rt, "again", con_with(rt.alloc(), name, "1 1"), right);
    Ok(())
}

/// The same with a list whose second line is outside the tile.
#[test]
fn a_sink_outside_after_refused_memory(rt: HostRuntime) -> Result<(), Fail> {
    let name = TileName::parse(b"N00E000.hgt")?;
    let right = Err(MakeRefusal::SinkNotData(2));
    let first = con_with(rt.alloc(), name, "1 1\n1 3");
    let expected = owed_unless_right(rt.alloc(), first, Err(MakeRefusal::OutOfMemory), right);
    same(&rt, "first", first, expected);
    let again = con_with(rt.alloc(), name, "1 1\n1 3");
    same(&rt, "again", again, right);
    Ok(())
}
