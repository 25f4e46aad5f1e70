//! Surfaces given alone: the first cell where one isn't the filled one. The least surfaces were worked out by hand.

use crate::examples::equal;
use drain_filled::{Ground, first_unfilled};
use drain_flood::layers::{UNREACHED, VOID};
use drain_grid::{Cell, Shape, parse_sinks};
use std::alloc::Global;
use std::test::Fail;

/// The heights of the 12 cells of three rows.
type Heights = [i64; 12];

/// A grid of three rows and four columns, and a surface on it, by its name: the ground; the cell without data, if there
/// is one; the sinks; what the surface is at cells 5 and 6, which alone aren't on the edge, as elsewhere it is the
/// ground; and the first cell where it isn't the filled one.
type Given = (
    &'static str,
    Heights,
    Option<usize>,
    &'static str,
    [i64; 2],
    Option<Cell>,
);

const CELL_5: Option<Cell> = Some(Cell { row: 1, col: 1 });

const CELL_6: Option<Cell> = Some(Cell { row: 1, col: 2 });

/// The rim of a basin, the highest number of 32 bits, that of a notch in it, and the lowest with a sign.
const RIM: i64 = 3_000_000_000;

const TOP: i64 = 4_294_967_295;

const NOTCH: i64 = 2_147_483_648;

const LOW: i64 = -2_147_483_648;

static BASIN: Heights = [RIM, RIM, RIM, RIM, RIM, 5, LOW, RIM, RIM, RIM, RIM, RIM];

static NOTCHED: Heights = [TOP, TOP, TOP, NOTCH, TOP, LOW, LOW, TOP, TOP, TOP, TOP, TOP];

/// A basin whose rim has a notch of -32,768, the number of a tile's voids.
static CENTIMETRES: Heights = [0, 0, 0, 0, 0, -40_000, -40_001, 0, 0, -32_768, 0, 0];

/// A ridge of 9 in cell 5 beside a pit in cell 6.
static RIDGE: Heights = [7, 7, 7, 7, 7, 9, 1, 7, 7, 7, 7, 7];

static GIVEN: [Given; 18] = [
    ("a filled basin", BASIN, None, "", [RIM, RIM], None),
    ("an unfilled basin", BASIN, None, "", [5, LOW], CELL_5),
    (
        "half a filled basin",
        BASIN,
        None,
        "",
        [RIM, RIM - 1],
        CELL_6,
    ),
    ("a flat basin too low", BASIN, None, "", [5, 5], CELL_5),
    (
        "a basin with a notch",
        NOTCHED,
        None,
        "",
        [NOTCH, NOTCH],
        None,
    ),
    (
        "below the notch",
        NOTCHED,
        None,
        "",
        [NOTCH - 1, NOTCH],
        CELL_5,
    ),
    (
        "a notch of -32768",
        CENTIMETRES,
        None,
        "",
        [-32_768, -32_768],
        None,
    ),
    (
        "below -32768",
        CENTIMETRES,
        None,
        "",
        [-32_768, -32_769],
        CELL_6,
    ),
    (
        "the void in place of the notch",
        CENTIMETRES,
        Some(9),
        "",
        [-40_000, -40_001],
        None,
    ),
    ("a void beside one cell", BASIN, Some(0), "", [5, 5], None),
    (
        "a void, and the lower cell isn't filled",
        BASIN,
        Some(0),
        "",
        [5, 4],
        CELL_6,
    ),
    ("a filled pit beside a ridge", RIDGE, None, "", [9, 7], None),
    ("a pit beside a ridge", RIDGE, None, "", [9, 1], CELL_6),
    ("a sink in the pit", RIDGE, None, "1 2", [9, 1], None),
    ("a sink on the ridge", RIDGE, None, "1 1", [9, 7], None),
    (
        "a sink in the lowest cell",
        BASIN,
        None,
        "1 2",
        [5, LOW],
        None,
    ),
    (
        "a sink in the higher cell",
        BASIN,
        None,
        "1 1",
        [5, 5],
        None,
    ),
    ("sinks in both", BASIN, None, "1 1\n1 2", [5, LOW], None),
];

/// A surface that is too high: it lies above the filled one.
static TOO_HIGH: [Given; 3] = [
    (
        "a basin above its rim",
        BASIN,
        None,
        "",
        [RIM + 1, RIM],
        CELL_5,
    ),
    (
        "raised for nothing",
        NOTCHED,
        None,
        "",
        [NOTCH, NOTCH + 1],
        CELL_6,
    ),
    (
        "a sink that is filled",
        BASIN,
        None,
        "1 1",
        [RIM, RIM],
        CELL_5,
    ),
];

/// The surface of a row of the table.
fn surface_of(given: &Given) -> Heights {
    let &(_, ground, _, _, inside, _) = given;
    let mut con = ground;
    con[5] = inside[0];
    con[6] = inside[1];
    con
}

/// The first cell of a row of the table, where the surface is raised from these heights.
fn first_from(alloc: Global, given: &Given, heights: &Heights) -> Result<Option<Cell>, Fail> {
    let &(_, _, void, text, _, _) = given;
    let shape = Shape::new(3, 4).ok_or("the shape")?;
    let mut marks = Vec::new(alloc);
    for place in 0..shape.cells() {
        marks.push(if void == Some(place) { VOID } else { UNREACHED })?;
    }
    let counted = marks.len() == shape.cells() && heights.len() == shape.cells();
    if !counted {
        return Err("the cells".into());
    }
    let ground = Ground::new(shape, marks);
    let sinks = parse_sinks(alloc, text.as_bytes())?;
    Ok(first_unfilled(alloc, &ground, heights, &sinks, &surface_of(given))?)
}

#[test]
fn from_the_ground(rt: HostRuntime) -> Result<(), Fail> {
    for given in &GIVEN {
        let first = first_from(rt.alloc(), given, &given.1)?;
        equal(&rt, given.0, first, given.5);
    }
    Ok(())
}

/// Where the surface isn't too high it may itself be raised.
#[test]
fn from_the_surface(rt: HostRuntime) -> Result<(), Fail> {
    for given in &GIVEN {
        let first = first_from(rt.alloc(), given, &surface_of(given))?;
        equal(&rt, given.0, first, given.5);
    }
    Ok(())
}

#[test]
fn too_high(rt: HostRuntime) -> Result<(), Fail> {
    for given in &TOO_HIGH {
        let first = first_from(rt.alloc(), given, &given.1)?;
        equal(&rt, given.0, first, given.5);
    }
    Ok(())
}
