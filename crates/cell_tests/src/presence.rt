//! Which cells have numbers, and which numbers are codes: with spill parents, without, and without ranks too. The numbers are con, dir, acc, bas, spl and rnk,
//! and those for no data are the defaults.

use crate::agree::same;
use crate::grid::values;
use drain_grid::{CellValues, NoData, Patch, Rule, Spacing};
use std::process::Abort;
use std::test::Fail;

/// The first rule that fails with spill parents, without, and without ranks too.
type Told = [Option<Rule>; 3];

/// The results for a cell with this in each direction.
fn told(here: CellValues, beside: Option<CellValues>) -> Told {
    let patch = Patch {
        here,
        around: [beside; 8],
        spacing: Spacing::unit(),
    };
    let nodata = NoData::defaults();
    [
        patch.presence_fault(&nodata),
        patch.presence_fault_profile2(&nodata),
        patch.presence_fault_without_ranks(&nodata),
    ]
}

/// Ends the test if a cell of these numbers has another result, whatever is next to it.
fn same_presence(
    rt: &impl Abort,
    name: &str,
    z: Option<i16>,
    numbers: [i64; 6],
    expected: Told,
) -> Result<(), Fail> {
    let here = values(z, numbers)?;
    let given = (told(here, None), told(here, Some(here)));
    same(rt, name, given, (expected, expected));
    Ok(())
}

const NONE: Told = [None; 3];

const VOID_CELL: Told = [Some(Rule::VoidCell); 3];

const MISSING: Told = [Some(Rule::Missing); 3];

const BAD_CODE: Told = [Some(Rule::BadCode); 3];

/// The number for no rank.
const UNRANKED: i64 = 4294967295;

/// It fails only with spill parents.
const SPILL: Told = [Some(Rule::VoidCell), None, None];

/// It fails only with ranks.
const RANK: Told = [Some(Rule::VoidCell), Some(Rule::VoidCell), None];

/// Numbers of a void, each with its result.
static OF_VOIDS: [(&str, [i64; 6], Told); 11] = [
    ("the six numbers", [-32768, 255, 0, 0, 255, UNRANKED], NONE),
    ("a height", [0, 255, 0, 0, 255, UNRANKED], VOID_CELL),
    ("a direction", [-32768, 0, 0, 0, 255, UNRANKED], VOID_CELL),
    (
        "an accumulation",
        [-32768, 255, 1, 0, 255, UNRANKED],
        VOID_CELL,
    ),
    ("a label", [-32768, 255, 0, 1, 255, UNRANKED], VOID_CELL),
    ("a rank", [-32768, 255, 0, 0, 255, 0], RANK),
    ("no spill parent", [-32768, 255, 0, 0, 0, UNRANKED], SPILL),
    ("a spill parent", [-32768, 255, 0, 0, 1, UNRANKED], SPILL),
    ("no spill code", [-32768, 255, 0, 0, 3, UNRANKED], SPILL),
    ("a rank beside spill", [-32768, 255, 0, 0, 1, 0], RANK),
    ("a rank, a label", [-32768, 255, 0, 1, 255, 0], VOID_CELL),
];

#[test]
fn numbers_of_voids(rt: HostRuntime) -> Result<(), Fail> {
    for &(name, numbers, expected) in &OF_VOIDS {
        same_presence(&rt, name, None, numbers, expected)?;
    }
    Ok(())
}

const NO_NUMBER: Option<Rule> = Some(Rule::Missing);

const NO_CODE: Option<Rule> = Some(Rule::BadCode);

/// Numbers of a data cell, each with its result.
static OF_DATA: [(&str, [i64; 6], Told); 17] = [
    ("an outlet", [5, 0, 1, 1, 0, 0], NONE),
    ("a spill parent", [5, 64, 1, 1, 128, 2], NONE),
    ("no height", [-32768, 0, 1, 1, 0, 0], MISSING),
    ("no direction", [5, 255, 1, 1, 0, 0], MISSING),
    ("no accumulation", [5, 0, 0, 1, 0, 0], MISSING),
    ("no label", [5, 0, 1, 0, 0, 0], MISSING),
    (
        "no rank",
        [5, 0, 1, 1, 0, UNRANKED],
        [NO_NUMBER, NO_NUMBER, None],
    ),
    ("no spill", [5, 0, 1, 1, 255, 0], [NO_NUMBER, None, None]),
    ("nothing", [-32768, 255, 0, 0, 255, UNRANKED], MISSING),
    (
        "no rank, no code",
        [5, 3, 1, 1, 0, UNRANKED],
        [NO_NUMBER, NO_NUMBER, NO_CODE],
    ),
    ("no rank, no label", [5, 0, 1, 0, 0, UNRANKED], MISSING),
    ("no code", [5, 3, 1, 1, 0, 0], BAD_CODE),
    ("no code, negative", [5, -1, 1, 1, 0, 0], BAD_CODE),
    ("past the codes", [5, 256, 1, 1, 0, 0], BAD_CODE),
    ("no spill code", [5, 0, 1, 1, 3, 0], [NO_CODE, None, None]),
    ("no codes", [5, 3, 1, 1, 3, 0], BAD_CODE),
    (
        "no code, no spill",
        [5, 3, 1, 1, 255, 0],
        [NO_NUMBER, NO_CODE, NO_CODE],
    ),
];

#[test]
fn numbers_of_data_cells(rt: HostRuntime) -> Result<(), Fail> {
    for &(name, numbers, expected) in &OF_DATA {
        same_presence(&rt, name, Some(5), numbers, expected)?;
    }
    Ok(())
}
