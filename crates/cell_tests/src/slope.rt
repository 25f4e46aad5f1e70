//! A cell with given heights in the east, the southeast and the south: its first steepest way down, its drop, and
//! the rule that fails. Only what these rules read is given.

ghost use Rattle.std.specs.Prelude.{◌≡◌};
ghost use Rattle.drain_grid.specs.declared.height_kind.HeightKind.{HeightKind};

use crate::agree::{same, same_rule};
use drain_grid::{CellValues, Direction, Patch, Rule, Spacing};
use drain_slope::{drop, fault, steepest};
use std::test::Fail;

/// A cell with an elevation, con and dir; none where a number can't be a cell's.
fn cell(z: Option<i16>, con: i64, dir: i64) -> Option<CellValues> {
    CellValues::new(z, false, con, dir, 0, 0, 0, 0)
}

/// A data cell at this conditioned elevation.
fn at(con: i64) -> Option<CellValues> {
    cell(Some(0), con, 0)
}

/// A data cell at con 10 with this direction.
fn on_ten(dir: i64) -> Result<CellValues, Fail> {
    match cell(Some(0), 10, dir) {
        Some(cell) => Ok(cell),
        None => Err("a cell".into()),
    }
}

/// A cell with neighbours in the east, the southeast and the south, and another in each of the other directions.
fn patch(here: CellValues, east: i64, southeast: i64, south: i64, other: i64) -> Patch
    ensures { result.spacing.kind ≡ HeightKind.Whole }
{
    let mut around = [at(other); 8];
    around[0] = at(east);
    around[1] = at(southeast);
    around[2] = at(south);
    Patch {
        here,
        around,
        spacing: Spacing::unit(),
    }
}

const LEAST: i64 = -2147483648;

const GREATEST: i64 = 4294967295;

const EAST: Option<Direction> = Some(Direction::East);

/// The con of a cell, those in the east, the southeast, the south and elsewhere, the first steepest way down, and its drop.
static WAYS_DOWN: [(&str, i64, (i64, i64, i64, i64), Option<Direction>, u64); 9] = [
    (
        "9 across a corner over 8",
        10,
        (8, 7, 10, 10),
        Some(Direction::SouthEast),
        3,
    ),
    ("50 over 49 across a corner", 10, (5, 3, 10, 10), EAST, 5),
    (
        "equal drops",
        32767,
        (-32767, -32767, 32767, 32767),
        EAST,
        65534,
    ),
    ("equal slopes", 10, (8, 10, 8, 10), EAST, 2),
    ("a later one", 10, (9, 10, 8, 10), Some(Direction::South), 2),
    (
        "the whole range of pixels",
        GREATEST,
        (LEAST, GREATEST, 2147483648, GREATEST),
        EAST,
        6442450943,
    ),
    ("level", 10, (10, 10, 10, 10), None, 0),
    ("a pit", 10, (11, 12, 13, 11), None, 0),
    ("the least", LEAST, (LEAST, 0, GREATEST, 0), None, 0),
];

#[test]
fn steepest_ways_down(rt: HostRuntime) -> Result<(), Fail> {
    for &(name, con, (in_east, in_southeast, in_south, other), expected, dropped) in &WAYS_DOWN {
        let Some(here) = at(con) else {
            return Err(name.into());
        };
        let shown = patch(here, in_east, in_southeast, in_south, other);
        let way = steepest(&shown);
        let given = (way, drop(&shown, way.unwrap_or(Direction::East)));
        same(&rt, name, given, (expected, dropped));
    }
    Ok(())
}

#[test]
fn voids_and_the_outside(rt: HostRuntime) -> Result<(), Fail> {
    let here = on_ten(0)?;
    let mut shown = patch(here, 10, 10, 10, 10);
    shown.around[0] = cell(None, -100, 0);
    shown.around[1] = None;
    same(&rt, "a void is not lower", steepest(&shown), None);
    shown.around[7] = at(9);
    let past = Some(Direction::NorthEast);
    same(&rt, "past a void", steepest(&shown), past);
    let Some(void) = cell(None, 10, 0) else {
        return Err("a void".into());
    };
    shown.here = void;
    same(&rt, "at a void", steepest(&shown), None);
    Ok(())
}

/// Codes, each with the rule that fails.
static ON_A_SLOPE: [(&str, i64, Option<Rule>); 7] = [
    ("east", 1, None),
    ("south", 4, None),
    ("southeast", 2, Some(Rule::Slope)),
    ("west", 16, Some(Rule::Slope)),
    ("no direction", 0, Some(Rule::Slope)),
    ("no code", 3, Some(Rule::Slope)),
    ("no code, negative", -1, Some(Rule::Slope)),
];

#[test]
fn codes_on_a_slope(rt: HostRuntime) -> Result<(), Fail> {
    for &(name, dir, expected) in &ON_A_SLOPE {
        let here = on_ten(dir)?;
        let mut shown = patch(here, 8, 10, 8, 10);
        let inside = fault(&shown);
        // An open cell keeps the same rule.
        shown.around[6] = None;
        same(&rt, name, (inside, fault(&shown)), (expected, expected));
    }
    // A lower neighbour is not enough.
    let here = on_ten(1)?;
    let gentle = patch(here, 9, 10, 8, 10);
    same_rule(&rt, "a gentle slope", fault(&gentle), Some(Rule::Slope));
    Ok(())
}

/// Codes, each with the rule that fails.
static NO_WAY_DOWN: [(&str, i64, Option<Rule>); 3] = [
    ("no direction", 0, None),
    ("east", 1, Some(Rule::OutletCode)),
    ("no code", 3, Some(Rule::OutletCode)),
];

#[test]
fn codes_with_no_way_down(rt: HostRuntime) -> Result<(), Fail> {
    for &(name, dir, expected) in &NO_WAY_DOWN {
        let here = on_ten(dir)?;
        let mut shown = patch(here, 10, 10, 10, 10);
        let on_a_flat = fault(&shown);
        shown.around[3] = None;
        let on_the_edge = fault(&shown);
        shown.around[3] = cell(None, -32768, 255);
        let beside_a_void = fault(&shown);
        let Some(void) = cell(None, 10, dir) else {
            return Err("a void".into());
        };
        shown.here = void;
        let at_a_void = fault(&shown);
        shown.around[0] = at(5);
        let over_a_cell = fault(&shown);
        let given = [
            on_a_flat,
            on_the_edge,
            beside_a_void,
            at_a_void,
            over_a_cell,
        ];
        same(&rt, name, given, [None, expected, expected, None, None]);
    }
    Ok(())
}
