//! The numbers of small tiles' products.

use crate::agree::{same, same_numbers};
use crate::made::{accepted, con_of_nine, numbers_made, one_tile};
use crate::raster_numbers::Numbers;
use drain_grid::{Counts, SetProduct, Sinks, VOID};
use drain_hgt::TileName;
use drain_maker::MakeRefusal;
use std::alloc::Global;
use std::process::Abort;
use std::test::Fail;
use worked::memory::owed_unless_right;

/// The numbers of a product made of one tile.
fn made(alloc: Global, tile: (u32, &[i16]), product: SetProduct) -> Result<Numbers, Fail> {
    numbers_made(alloc, tile, &Sinks::none(alloc), product)
}

/// Fails the test if a product made of one tile has other numbers.
fn gives(
    rt: &impl Abort,
    alloc: Global,
    tile: (u32, &[i16]),
    product: SetProduct,
    expected: &[i64],
) -> Result<(), Fail> {
    let given = made(alloc, tile, product)?;
    same_numbers(rt, product, given.as_slice(), expected);
    Ok(())
}

/// The sample of a tile, a product, and its numbers.
static OF_FOUR: [(i16, SetProduct, [i64; 4]); 10] = [
    (0, SetProduct::Con, [0, 0, 0, 0]),
    (0, SetProduct::Dir, [0, 0, 0, 0]),
    (0, SetProduct::Acc, [1, 1, 1, 1]),
    (0, SetProduct::Bas, [1, 2, 3, 4]),
    (0, SetProduct::Rnk, [0, 0, 0, 0]),
    (VOID, SetProduct::Con, [-32768, -32768, -32768, -32768]),
    (VOID, SetProduct::Dir, [255, 255, 255, 255]),
    (VOID, SetProduct::Acc, [0, 0, 0, 0]),
    (VOID, SetProduct::Bas, [0, 0, 0, 0]),
    (
        VOID,
        SetProduct::Rnk,
        [4294967295, 4294967295, 4294967295, 4294967295],
    ),
];

#[test]
fn tiles_of_four_samples(rt: HostRuntime) -> Result<(), Fail> {
    for &(sample, product, expected) in &OF_FOUR {
        gives(&rt, rt.alloc(), (2, &[sample; 4]), product, &expected)?;
    }
    Ok(())
}

/// A product, and its numbers.
static OF_SLOPE: [(SetProduct, [i64; 16]); 4] = [
    (
        SetProduct::Con,
        [4, 3, 2, 1, 4, 3, 2, 1, 4, 3, 2, 1, 4, 3, 2, 1],
    ),
    (
        SetProduct::Dir,
        [1, 1, 1, 0, 1, 1, 1, 0, 1, 1, 1, 0, 1, 1, 1, 0],
    ),
    (
        SetProduct::Acc,
        [1, 2, 3, 4, 1, 2, 3, 4, 1, 2, 3, 4, 1, 2, 3, 4],
    ),
    (
        SetProduct::Bas,
        [1, 1, 1, 1, 2, 2, 2, 2, 3, 3, 3, 3, 4, 4, 4, 4],
    ),
];

/// Rows that fall from west to east.
static SLOPE: [i16; 16] = [4, 3, 2, 1, 4, 3, 2, 1, 4, 3, 2, 1, 4, 3, 2, 1];

#[test]
fn slope_to_the_east(rt: HostRuntime) -> Result<(), Fail> {
    for &(product, expected) in &OF_SLOPE {
        gives(&rt, rt.alloc(), (4, &SLOPE), product, &expected)?;
    }
    Ok(())
}

/// The ranks of a flat.
static OF_FLAT: [i64; 25] = [
    0, 0, 0, 0, 0, 0, 1, 1, 1, 0, 0, 1, 2, 1, 0, 0, 1, 1, 1, 0, 0, 0, 0, 0, 0,
];

/// A flat at the edge of the grid is crossed by the shortest path.
#[test]
fn ranks_on_a_flat(rt: HostRuntime) -> Result<(), Fail> {
    gives(&rt, rt.alloc(), (5, &[7; 25]), SetProduct::Rnk, &OF_FLAT)
}

/// A pit in the middle, lower than the edge.
static PIT: [i16; 9] = [5, 5, 5, 5, 1, 5, 5, 5, 5];

/// A product, its number at the edge, and in the middle; none if that isn't 0.
static OF_PIT: [(SetProduct, i64, Option<i64>); 3] = [
    (SetProduct::Con, 5, Some(5)),
    (SetProduct::Dir, 0, None),
    (SetProduct::Rnk, 0, Some(1)),
];

/// A pit of one cell is filled, and drains to one of the eight cells of the edge: which of them isn't defined.
#[test]
fn pit_in_the_middle(rt: HostRuntime) -> Result<(), Fail> {
    for &(product, edge, middle) in &OF_PIT {
        let mut given = made(rt.alloc(), (3, &PIT), product)?;
        let in_middle = given.list[4];
        given.list[4] = edge;
        same_numbers(&rt, product, given.as_slice(), &[edge; 9]);
        let is_right = match middle {
            Some(expected) => in_middle == expected,
            None => in_middle != 0,
        };
        same(&rt, (product, in_middle), is_right, true);
    }
    Ok(())
}

/// The accumulations at a pit, by size.
static COUNTS_OF_PIT: [i64; 9] = [1, 1, 1, 1, 1, 1, 1, 1, 2];

#[test]
fn accumulation_at_a_pit(rt: HostRuntime) -> Result<(), Fail> {
    let mut counts = made(rt.alloc(), (3, &PIT), SetProduct::Acc)?;
    let in_middle = counts.list[4];
    counts.list[..9].sort_unstable();
    same(&rt, "in the middle", in_middle, 1);
    same_numbers(&rt, "counts", counts.as_slice(), &COUNTS_OF_PIT);
    Ok(())
}

/// The first nine numbers of con made of the pit without listed sinks.
fn con_without_sinks(alloc: Global, name: TileName) -> Result<Option<[i64; 9]>, MakeRefusal> {
    con_of_nine(alloc, name, &PIT, &Sinks::none(alloc))
}

/// The counts of the products made of the pit.
fn counts_of_pit(alloc: Global) -> Result<Counts, Fail> {
    let layout = one_tile(alloc, 3)?;
    accepted(alloc, &layout, Vec::from_slice(alloc, &PIT)?)
}

/// Normally memory is there; `tests/refuse_memory.c` refuses it.
#[test]
fn pit_after_refused_memory(rt: HostRuntime) -> Result<(), Fail> {
    let name = TileName::parse(b"N00E000.hgt")?;
    let right = Ok(Some([5; 9]));
    let first = con_without_sinks(rt.alloc(), name);
    let expected = owed_unless_right(rt.alloc(), first, Err(MakeRefusal::OutOfMemory), right);
    same(&rt, "first", first, expected);
    same(&rt, "again", con_without_sinks(rt.alloc(), name), right);
    let counted = Counts {
        rows: 3,
        cols: 3,
        data_cells: 9,
        raised: 1,
        outlets: 8,
    };
    same(&rt, "accepted", counts_of_pit(rt.alloc())?, counted);
    Ok(())
}
