//! Values of whole rasters, product sets and elevations, and the patches that they show.

ghost use Rattle.std.specs.Prelude.{◌≡◌, IfOk};

use crate::agree::same;
use crate::grid::values;
use drain_grid::{
    Cell, Direction, Elevation, NoData, Patch, ProductSet, Raster, SetProduct, Shape, Sinks, VOID,
    parse_sinks,
};
use std::alloc::{AllocError, Global};
use std::test::Fail;
use worked::pixels::number;

/// A raster of two by two cells, none of which has the number for no data.
fn two_by_two(alloc: Global, shape: Shape, numbers: [u16; 4]) -> Result<Raster, AllocError>
    requires { shape ≡ record { rows = 2; cols = 2 } }
    ensures { IfOk result (λ raster. raster.extent ≡ shape) }
{
    let [a, b, c, d] = numbers;
    let pixels = vec![in alloc; a as i64, b as i64, c as i64, d as i64]?;
    Ok(Raster::new(shape, -1, pixels))
}

/// Products whose numbers show the product, by their tens, and the cell.
fn numbered(alloc: Global, shape: Shape) -> Result<ProductSet, AllocError>
    requires { shape ≡ record { rows = 2; cols = 2 } }
    ensures { IfOk result (λ products. products.con.extent ≡ shape) }
{
    Ok(ProductSet {
        con: two_by_two(alloc, shape, [10, 11, 12, 13])?,
        dir: two_by_two(alloc, shape, [20, 21, 22, 23])?,
        acc: two_by_two(alloc, shape, [30, 31, 32, 33])?,
        bas: two_by_two(alloc, shape, [40, 41, 42, 43])?,
        rnk: two_by_two(alloc, shape, [50, 51, 52, 53])?,
    })
}

/// The patch of its second cell, with a void to the south-west.
fn numbered_patch(alloc: Global, sinks: &Sinks) -> Result<Patch, AllocError> {
    let Some(shape) = Shape::new(2, 2) else {
        unreachable!()
    };
    let elevation = Elevation::new(shape, vec![in alloc; 7, 8, VOID, 9]?);
    let products = numbered(alloc, shape)?;
    Ok(products.patch(&elevation, sinks, Cell { row: 0, col: 1 }))
}

/// Directions from that cell, each with the elevation and the numbers there.
static BESIDE_THE_SECOND: [(Direction, Option<i16>, [i64; 6]); 3] = [
    (Direction::West, Some(7), [10, 20, 30, 40, 0, 50]),
    (Direction::SouthWest, None, [12, 22, 32, 42, 0, 52]),
    (Direction::South, Some(9), [13, 23, 33, 43, 0, 53]),
];

/// For spill parents, which no set holds, they give 0.
#[test]
fn what_whole_rasters_show(rt: HostRuntime) -> Result<(), Fail> {
    let patch = numbered_patch(rt.alloc(), &Sinks::none(rt.alloc()))?;
    let here = values(Some(8), [11, 21, 31, 41, 0, 51])?;
    same(&rt, "here", Some(patch.here), Some(here));
    for &(direction, z, numbers) in &BESIDE_THE_SECOND {
        let expected = values(z, numbers)?;
        same(&rt, direction, patch.neighbor(direction), Some(expected));
    }
    for outside in [Direction::East, Direction::North] {
        same(&rt, outside, patch.neighbor(outside), None);
    }
    Ok(())
}

/// Whether that cell is shown as listed, and its neighbours in the west and the southwest.
fn shown_as_listed(alloc: Global, text: &str) -> Result<[Option<bool>; 3], Fail> {
    let sinks = parse_sinks(alloc, text.as_bytes())?;
    let patch = numbered_patch(alloc, &sinks)?;
    Ok([
        Some(patch.here.sink),
        patch.neighbor(Direction::West).map(|values| values.sink),
        patch
            .neighbor(Direction::SouthWest)
            .map(|values| values.sink),
    ])
}

/// Lists, each with which of those cells it lists.
static LISTED: [(&str, [bool; 3]); 5] = [
    ("", [false, false, false]),
    ("0 1\n", [true, false, false]),
    ("0 0\n0 0", [false, true, false]),
    ("1 0\n0 1", [true, false, true]),
    ("0 2\n2 1\n1 1", [false, false, false]),
];

#[test]
fn listed_cells_of_whole_rasters(rt: HostRuntime) -> Result<(), Fail> {
    for &(text, expected) in &LISTED {
        let given = shown_as_listed(rt.alloc(), text)?;
        same(&rt, text, given, expected.map(Some));
    }
    Ok(())
}

/// A product set's values: con's shape, con's number at the second cell and that of each raster, and each no-data
/// number.
fn numbers_told(alloc: Global) -> Result<(Shape, [Option<i64>; 6], NoData), Fail> {
    let Some(shape) = Shape::new(2, 2) else {
        return Err("a shape".into());
    };
    let products = numbered(alloc, shape)?;
    let cell = Cell { row: 0, col: 1 };
    let numbers = [
        number(&products.con, cell),
        number(products.raster(SetProduct::Con), cell),
        number(products.raster(SetProduct::Dir), cell),
        number(products.raster(SetProduct::Acc), cell),
        number(products.raster(SetProduct::Bas), cell),
        number(products.raster(SetProduct::Rnk), cell),
    ];
    Ok((products.con.shape(), numbers, products.nodata()))
}

/// For spill parents, which no set holds, the no-data number is the default one.
#[test]
fn what_a_product_set_tells(rt: HostRuntime) -> Result<(), Fail> {
    let (shape, numbers, nodata) = numbers_told(rt.alloc())?;
    let given = ((shape.rows(), shape.cols()), numbers);
    let expected = [11, 11, 21, 31, 41, 51].map(Some);
    same(&rt, "products", given, ((2, 2), expected));
    let codes = [nodata.dir, nodata.spl];
    let given = (nodata.con, codes, nodata.acc, nodata.bas, nodata.rnk);
    same(&rt, "no data", given, (-1, [-1, 255], -1, -1, -1));
    Ok(())
}

/// Elevations: their shape, and the heights of their two cells, of which one is a void.
fn heights_told(alloc: Global) -> Result<(Shape, [Option<i16>; 2]), Fail> {
    let Some(shape) = Shape::new(1, 2) else {
        return Err("a shape".into());
    };
    let elevation = Elevation::new(shape, vec![in alloc; 8, VOID]?);
    let east = elevation.z(Cell { row: 0, col: 1 });
    Ok((
        elevation.shape(),
        [elevation.z(Cell { row: 0, col: 0 }), east],
    ))
}

#[test]
fn what_elevations_tell(rt: HostRuntime) -> Result<(), Fail> {
    let (shape, heights) = heights_told(rt.alloc())?;
    let given = ((shape.rows(), shape.cols()), heights);
    same(&rt, "elevations", given, ((1, 2), [Some(8), None]));
    Ok(())
}
