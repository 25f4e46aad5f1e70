//! Worked values of the small calls, from the tables of the formats that they come from.

ghost use Rattle.std.specs.Prelude.{◌≡◌};

use crate::agree::same;
use drain_grid::tile::{height_from, is_side};
use drain_grid::{
    Cell, CellValues, Code, Direction, NoData, Patch, PerProduct, Product, Raster, Rule,
    SetProduct, Shape, Spacing,
};
use std::test::Fail;

/// Rows and columns, and whether they make a shape.
static SHAPES: [(u32, u32, bool); 6] = [
    (1, 1, true),
    (28801, 28801, true),
    (0, 5, false),
    (5, 0, false),
    (28802, 5, false),
    (5, 28802, false),
];

#[test]
fn shapes_and_their_cells(rt: HostRuntime) -> Result<(), Fail> {
    for &(rows, cols, is_shape) in &SHAPES {
        same(
            &rt,
            (rows, cols),
            Shape::new(rows, cols).is_some(),
            is_shape,
        );
    }
    let Some(shape) = Shape::new(3, 4) else {
        return Err("a shape".into());
    };
    let cell = Cell { row: 1, col: 2 };
    let sizes = ((shape.rows(), shape.cols()), shape.cells());
    let given = (sizes, shape.index(cell), shape.cell(6));
    same(&rt, (3, 4), given, (((3, 4), 12), 6, cell));
    Ok(())
}

/// A direction, its code, whether it is straight, and the row and the column that it leads to from the middle of three by three cells.
static AROUND: [(Direction, i64, bool, u32, u32); 8] = [
    (Direction::East, 1, true, 1, 2),
    (Direction::SouthEast, 2, false, 2, 2),
    (Direction::South, 4, true, 2, 1),
    (Direction::SouthWest, 8, false, 2, 0),
    (Direction::West, 16, true, 1, 0),
    (Direction::NorthWest, 32, false, 0, 0),
    (Direction::North, 64, true, 0, 1),
    (Direction::NorthEast, 128, false, 0, 2),
];

#[test]
fn steps_codes_and_what_they_name(rt: HostRuntime) -> Result<(), Fail> {
    let Some(shape) = Shape::new(3, 3) else {
        return Err("a shape".into());
    };
    for &(direction, code, straight, row, col) in &AROUND {
        let told = (direction.code(), direction.is_straight());
        same(&rt, direction, told, (code, straight));
        let centre = Cell { row: 1, col: 1 };
        let to = shape.step(centre, direction);
        same(&rt, direction, to, Some(Cell { row, col }));
    }
    let corner = Cell { row: 2, col: 2 };
    let outside = Direction::SouthWest;
    same(&rt, outside, shape.step(corner, outside), None);
    Ok(())
}

/// Numbers, each with the direction that it names.
static DIRECTIONS: [(i64, Direction); 8] = [
    (1, Direction::East),
    (2, Direction::SouthEast),
    (4, Direction::South),
    (8, Direction::SouthWest),
    (16, Direction::West),
    (32, Direction::NorthWest),
    (64, Direction::North),
    (128, Direction::NorthEast),
];

/// Numbers that name no direction, each with its code.
static NO_DIRECTIONS: [(i64, Option<Code>); 6] = [
    (0, Some(Code::Outlet)),
    (3, None),
    (255, None),
    (-128, None),
    (256, None),
    (-1, None),
];

#[test]
fn codes_of_numbers(rt: HostRuntime) -> Result<(), Fail> {
    for &(number, direction) in &DIRECTIONS {
        let given = (Code::from_number(number), Code::direction_named(number));
        let expected = (Some(Code::To(direction)), Some(direction));
        same(&rt, number, given, expected);
    }
    for &(number, code) in &NO_DIRECTIONS {
        let given = (Code::from_number(number), Code::direction_named(number));
        same(&rt, number, given, (code, None));
    }
    let led = values(Some(0), [0, 16, 0, 0, 4, 0])?;
    let given = [led.direction(), led.spill_direction()];
    same(
        &rt,
        "directions",
        given,
        [Some(Direction::West), Some(Direction::South)],
    );
    Ok(())
}

#[test]
fn samples_sides_and_rules(rt: HostRuntime) {
    for (side, lawful) in [(1, false), (2, true), (3601, true), (3602, false)] {
        same(&rt, side, is_side(side), lawful);
    }
    let heights = [height_from(-32768), height_from(-32767)];
    let numbers = (Rule::VoidCell.number(), Rule::SharedLabel.number());
    same(
        &rt,
        "heights, numbers",
        (heights, numbers),
        ([None, Some(-32767)], (1, 15)),
    );
    same(&rt, "a name", Rule::SpillHeight.name(), "SpillHeight");
}

/// A level cell: with data, and the same con as ground.
fn level(height: i16) -> Option<CellValues> {
    CellValues::new(Some(height), false, height as i64, 0, 0, 0, 0, 0)
}

#[test]
fn open_and_lower_cells(rt: HostRuntime) -> Result<(), Fail> {
    let Some(here) = level(5) else {
        return Err("values".into());
    };
    let void = CellValues::new(None, false, -32768, 255, 0, 0, 255, 4294967295);
    let mut patch = Patch {
        here,
        around: [level(5); 8],
        spacing: Spacing::unit(),
    };
    let inside = (patch.is_open(), patch.has_lower());
    patch.around[3] = void;
    let beside_a_void = (patch.is_open(), patch.has_lower());
    patch.around[3] = None;
    let on_the_edge = (patch.is_open(), patch.has_lower());
    patch.around[3] = level(4);
    let beside_a_lower = (patch.is_open(), patch.has_lower());
    same(&rt, "inside", inside, (false, false));
    same(&rt, "beside a void", beside_a_void, (true, false));
    same(&rt, "on the edge", on_the_edge, (true, false));
    same(&rt, "beside a lower cell", beside_a_lower, (false, true));
    let southwest = patch.neighbor(Direction::SouthWest);
    same(&rt, "a neighbor", southwest, level(4));
    let void_as_data = CellValues::new(Some(-32768), false, 0, 0, 0, 0, 0, 0);
    same(&rt, "a void's number", void_as_data, None);
    let no_pixel = CellValues::new(Some(0), false, 0, 0, 4294967296, 0, 0, 0);
    same(&rt, "a number that no pixel spells", no_pixel, None);
    Ok(())
}

/// A cell's values in the order of `CellValues::new`.
pub fn values(
    z: Option<i16>,
    [con, dir, acc, bas, spl, rnk]: [i64; 6],
) -> Result<CellValues, Fail> {
    match CellValues::new(z, false, con, dir, acc, bas, spl, rnk) {
        Some(values) => Ok(values),
        None => Err("values".into()),
    }
}

/// The names of the products in their order, and their default no-data numbers.
static DEFAULTS: [(&str, i64); 6] = [
    ("con", -32768),
    ("dir", 255),
    ("acc", 0),
    ("bas", 0),
    ("spl", 255),
    ("rnk", 4294967295),
];

#[test]
fn products_and_their_defaults(rt: HostRuntime) {
    let ours = NoData::defaults();
    let of_defaults = [ours.con, ours.dir, ours.acc, ours.bas, ours.spl, ours.rnk];
    for place in 0..6 {
        let (name, number) = DEFAULTS[place];
        let product = Product::ALL[place];
        same(&rt, name, product.name(), name);
        let numbers = (product.default_no_data(), of_defaults[place]);
        same(&rt, name, numbers, (number, number));
    }
}

/// A set has all of them but spill parents, in their order.
#[test]
fn products_that_a_set_holds(rt: HostRuntime) {
    let given = SetProduct::ALL.map(|held| held.product().name());
    same(&rt, "held", given, ["con", "dir", "acc", "bas", "rnk"]);
}

#[test]
fn one_thing_for_each_product(rt: HostRuntime) -> Result<(), Fail> {
    let defaults = |held: SetProduct| -> Result<i64, SetProduct> {
        Ok(held.product().default_no_data())
    };
    let Ok(numbers) = PerProduct::from_each(&defaults) else {
        return Err("numbers".into());
    };
    let given = (numbers.con, SetProduct::ALL.map(|held| *numbers.of(held)));
    let expected = (-32768, [-32768, 255, 0, 0, 4294967295]);
    same(&rt, "numbers", given, expected);
    let above_zero = |held: SetProduct| -> Result<i64, SetProduct> {
        match held.product().default_no_data() {
            0 => Err(held),
            number => Ok(number),
        }
    };
    let first = PerProduct::from_each(&above_zero).err();
    same(&rt, "the first that fails", first, Some(SetProduct::Acc));
    Ok(())
}

/// Rasters that keep their numbers in 8, 16 or 32 bits show them as they are.
#[test]
fn narrow_rasters(rt: HostRuntime) -> Result<(), Fail> {
    let alloc = rt.alloc();
    let Some(shape) = Shape::new(1, 2) else {
        return Err("a shape".into());
    };
    let bytes = Raster::of_bytes(shape, 255, vec![in alloc; 0, 255]?);
    same(&rt, "bytes", west_and_east(&bytes), (0, 255));
    let heights = Raster::of_heights(shape, -1, vec![in alloc; -32768, 32767]?);
    same(&rt, "heights", west_and_east(&heights), (-32768, 32767));
    let counts = Raster::of_counts(shape, 0, vec![in alloc; 1, 4294967295]?);
    same(&rt, "counts", west_and_east(&counts), (1, 4294967295));
    Ok(())
}

/// The numbers of a raster of one row and two columns.
fn west_and_east(raster: &Raster) -> (i64, i64)
    requires { raster.now.extent ≡ record { rows = 1; cols = 2 } }
{
    let west = Cell { row: 0, col: 0 };
    let east = Cell { row: 0, col: 1 };
    (raster.value(west), raster.value(east))
}
