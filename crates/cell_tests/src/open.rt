//! Data cells that are listed sinks are open for each rule that looks, and voids are not. Each cell has the results of
//! the rules of three crates, listed and not. Its neighbours have height 5 and rank 0.

use crate::agree::same;
use crate::fill::{BELOW, NO_SPILL, RAISED};
use drain_fill::{fault as fill_fault, fault_profile2};
use drain_flat::fault as flat_fault;
use drain_grid::{CellValues, Patch, Rule, Spacing};
use drain_slope::fault as slope_fault;
use std::test::Fail;

/// An elevation, and con, dir, spl and rnk.
type Numbers = (Option<i16>, [i64; 4]);

/// Which of rules 4 to 9, of these without spill parents, 10 and 11, and 12 fails.
type Faults = [Option<Rule>; 4];

/// Whether a cell is open, and which of these rules fail.
type Told = (bool, Faults);

/// The results for a cell whose neighbours are listed or not.
fn told_beside(here: CellValues, are_listed: bool) -> Told {
    let beside = CellValues::new(Some(5), are_listed, 5, 0, 0, 0, 0, 0);
    let patch = Patch {
        here,
        around: [beside; 8],
        spacing: Spacing::unit(),
    };
    let faults = [
        fill_fault(&patch),
        fault_profile2(&patch),
        slope_fault(&patch),
        flat_fault(&patch),
    ];
    (patch.is_open(), faults)
}

/// The results for a cell of these numbers that is listed or not, as its neighbours are.
fn told((z, numbers): Numbers, is_listed: bool, are_listed: bool) -> Option<Told> {
    let [con, dir, spl, rnk] = numbers;
    match CellValues::new(z, is_listed, con, dir, 0, 0, spl, rnk) {
        Some(here) => Some(told_beside(here, are_listed)),
        None => None,
    }
}

const SLOPE: Option<Rule> = Some(Rule::Slope);

const CODE: Option<Rule> = Some(Rule::OutletCode);

const STEP: Option<Rule> = Some(Rule::FlatStep);

/// A name, the ground, the numbers, and the rules that fail where the cell is listed and where it is not.
static CELLS: [(&str, i16, [i64; 4], Faults, Faults); 10] = [
    (
        "a pit at its ground",
        1,
        [1, 0, 0, 0],
        [None, None, None, None],
        [NO_SPILL, None, None, STEP],
    ),
    (
        "a filled pit",
        1,
        [5, 1, 1, 1],
        [RAISED, RAISED, CODE, None],
        [None, None, None, None],
    ),
    (
        "a raised pit without a spill code",
        1,
        [5, 0, 0, 0],
        [RAISED, RAISED, None, None],
        [NO_SPILL, None, None, STEP],
    ),
    (
        "level, with a spill code",
        5,
        [5, 0, 1, 1],
        [RAISED, None, None, None],
        [None, None, None, STEP],
    ),
    (
        "level, with a direction",
        5,
        [5, 1, 0, 1],
        [None, None, CODE, None],
        [NO_SPILL, None, None, None],
    ),
    (
        "a pit that is raised too high",
        1,
        [6, 1, 1, 1],
        [RAISED, RAISED, None, None],
        [Some(Rule::SpillHeight), Some(Rule::NotLeast), None, None],
    ),
    (
        "level, with an equal rank",
        5,
        [5, 1, 1, 0],
        [RAISED, None, CODE, None],
        [Some(Rule::SpillRank), None, None, STEP],
    ),
    (
        "a peak",
        9,
        [9, 1, 0, 0],
        [None, None, None, None],
        [NO_SPILL, None, None, None],
    ),
    (
        "a peak without a direction",
        9,
        [9, 0, 0, 0],
        [None, None, SLOPE, None],
        [NO_SPILL, None, SLOPE, None],
    ),
    (
        "below its ground",
        5,
        [4, 0, 0, 0],
        [BELOW, BELOW, None, None],
        [BELOW, BELOW, None, STEP],
    ),
];

#[test]
fn cells_that_are_listed_and_not(rt: HostRuntime) -> Result<(), Fail> {
    for &(name, z, numbers, listed, unlisted) in &CELLS {
        let numbers = (Some(z), numbers);
        let given = (
            told(numbers, true, false),
            told(numbers, false, false),
            told(numbers, false, true),
        );
        let expected = (
            Some((true, listed)),
            Some((false, unlisted)),
            Some((false, unlisted)),
        );
        same(&rt, name, given, expected);
    }
    Ok(())
}

#[test]
fn voids_that_are_listed_and_not(rt: HostRuntime) {
    let no_rule = Some((false, [None; 4]));
    for numbers in [[-32768, 255, 255, 4294967295], [0, 3, 3, 0], [5, 1, 1, 1]] {
        let given = (
            told((None, numbers), true, false),
            told((None, numbers), false, false),
        );
        same(&rt, numbers, given, (no_rule, no_rule));
    }
}
