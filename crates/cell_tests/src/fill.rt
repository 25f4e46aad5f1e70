//! Patches of which only what these rules read is given, each with the first rule that fails, with spill parents and without; and slices
//! with their first place below the ground.

ghost use Rattle.std.specs.Prelude.{◌↔◌, ◌<◌, IsTrue};
ghost use Rattle.drain_grid.specs.PatchRules.{BelowGroundHolds};

use crate::agree::{same, same_rule};
use drain_fill::{fault, fault_above_profile2, fault_profile2, first_below};
use drain_grid::{CellValues, Patch, Rule, Spacing};
use std::process::Abort;
use std::test::Fail;

/// The values next to the cell.
#[derive(Clone, Copy)]
enum Beside {
    Rim,
    Crest,
    Sunk,
    Void,
    Outside,
    Least,
    Greatest,
}

use Beside::{Crest, Greatest, Least, Outside, Rim, Sunk, Void};

fn cell(z: Option<i16>, con: i64, spl: i64, rnk: i64) -> Option<CellValues> {
    CellValues::new(z, false, con, 0, 0, 0, spl, rnk)
}

fn neighbor(beside: Beside) -> Option<CellValues> {
    let (z, con, spl, rnk) = match beside {
        Rim => (Some(5), 5, 0, 0),
        Crest => (Some(7), 7, 0, 0),
        Sunk => (Some(9), 5, 0, 0),
        Void => (None, -32768, 255, 4294967295),
        Outside => return None,
        Least => (Some(5), -2147483648, 0, 4294967294),
        Greatest => (Some(5), 4294967295, 0, -2147483648),
    };
    cell(z, con, spl, rnk)
}

/// One neighbour in the east, and another in each of the other directions.
fn patch(here: CellValues, east: Beside, other: Beside) -> Patch {
    let mut around = [neighbor(other); 8];
    around[0] = neighbor(east);
    Patch {
        here,
        around,
        spacing: Spacing::unit(),
    }
}

/// Whether the cell is not below its ground. A void never is.
fn is_above_ground(patch: &Patch) -> bool
    ensures { IsTrue result ↔ BelowGroundHolds patch.now }
{
    match patch.here.z {
        Some(ground) => ground <= patch.here.con,
        None => true,
    }
}

/// The first of the rules after BelowGround that fails, spill parents aside. They aren't checked if the cell is below
/// ground.
fn fault_above(patch: &Patch) -> Option<Option<Rule>> {
    if is_above_ground(patch) {
        Some(fault_above_profile2(patch))
    } else {
        None
    }
}

/// Ends the test where another rule fails first, spill parents aside; also among those after BelowGround.
fn same_without_spill(rt: &impl Abort, name: &str, patch: &Patch, expected: Option<Rule>) {
    same_rule(rt, name, fault_profile2(patch), expected);
    let above = if expected == Some(Rule::BelowGround) {
        None
    } else {
        Some(expected)
    };
    same(rt, name, fault_above(patch), above);
}

pub const BELOW: Option<Rule> = Some(Rule::BelowGround);

pub const RAISED: Option<Rule> = Some(Rule::OpenRaised);

pub const NO_SPILL: Option<Rule> = Some(Rule::NoSpill);

const HEIGHT: Option<Rule> = Some(Rule::SpillHeight);

const RANK: Option<Rule> = Some(Rule::SpillRank);

const NOT_LEAST: Option<Rule> = Some(Rule::NotLeast);

/// The values in the east, the numbers con, spl and rnk, and the rule that fails with spill parents and without.
static PIT: [(&str, Beside, i64, i64, i64, Option<Rule>, Option<Rule>); 25] = [
    ("a filled pit", Rim, 5, 1, 1, None, None),
    ("under its ground", Sunk, 5, 1, 1, None, None),
    ("below ground", Rim, 0, 1, 1, BELOW, BELOW),
    ("no spill parent", Rim, 5, 0, 1, NO_SPILL, None),
    ("no spill code", Rim, 5, 3, 1, NO_SPILL, None),
    ("no data for spill", Rim, 5, 255, 1, NO_SPILL, None),
    ("not raised", Rim, 1, 1, 1, HEIGHT, None),
    ("raised halfway", Rim, 3, 1, 1, HEIGHT, None),
    ("too high", Rim, 6, 1, 1, HEIGHT, NOT_LEAST),
    ("too high, no spill", Rim, 6, 0, 1, NO_SPILL, NOT_LEAST),
    ("equal ranks", Rim, 5, 1, 0, RANK, None),
    ("smaller rank", Rim, 5, 1, -1, RANK, None),
    ("past a crest", Crest, 5, 2, 1, None, None),
    ("needless crest", Crest, 7, 1, 1, NOT_LEAST, NOT_LEAST),
    ("not its crest", Crest, 7, 2, 1, HEIGHT, NOT_LEAST),
    ("open", Outside, 1, 0, 1, None, None),
    ("open, raised", Outside, 5, 0, 1, RAISED, RAISED),
    ("open, not least", Outside, 6, 0, 1, RAISED, RAISED),
    ("open, below", Outside, 0, 0, 1, BELOW, BELOW),
    ("open, spill", Outside, 1, 1, 1, RAISED, None),
    ("open, no code", Outside, 1, 3, 1, RAISED, None),
    ("beside a void", Void, 1, 0, 1, None, None),
    ("to a void", Void, 1, 1, 1, RAISED, None),
    ("raised by a void", Void, 5, 0, 1, RAISED, RAISED),
    ("as a void", Void, -32768, 1, 1, BELOW, BELOW),
];

/// The code of the spill parent and the rank, then the rule that fails with spill parents, and that which fails
/// without.
#[test]
fn cells_in_a_pit(rt: HostRuntime) -> Result<(), Fail> {
    for &(name, east, con, spl, rnk, expected, without_spill) in &PIT {
        let Some(here) = cell(Some(1), con, spl, rnk) else {
            return Err(name.into());
        };
        let shown = patch(here, east, Rim);
        same_rule(&rt, name, fault(&shown), expected);
        same_without_spill(&rt, name, &shown, without_spill);
    }
    Ok(())
}

/// The greatest number of a pixel.
const MOST: i64 = 4294967295;

/// An elevation, the numbers con, spl and rnk, the values next to the cell, and the rule that fails.
static AT_BOUNDS: [(&str, Option<i16>, i64, i64, i64, Beside, Option<Rule>); 5] = [
    ("a void", None, -32768, 255, MOST, Least, None),
    ("a void with numbers", None, 0, 3, 0, Outside, None),
    ("greatest", Some(1), MOST, 128, MOST, Greatest, None),
    ("deepest", Some(-32767), -32767, 64, MOST, Least, None),
    ("least", Some(1), -2147483648, 64, 0, Least, BELOW),
];

/// Without spill parents the same rules fail.
#[test]
fn voids_and_bounds(rt: HostRuntime) -> Result<(), Fail> {
    for &(name, z, con, spl, rnk, beside, expected) in &AT_BOUNDS {
        let Some(here) = cell(z, con, spl, rnk) else {
            return Err("a number that no pixel spells".into());
        };
        let shown = patch(here, beside, beside);
        same_rule(&rt, name, fault(&shown), expected);
        same_without_spill(&rt, name, &shown, expected);
    }
    Ok(())
}

/// The first place below the ground, none where slices differ in length.
fn first_place(con: &[i16], z: &[i16]) -> Option<Option<usize>> {
    if con.len() != z.len() {
        return None;
    }
    Some(first_below(con, z))
}

/// Slices of con and of the ground, and the first place below it.
static PLACES: [(&str, &[i16], &[i16], Option<usize>); 6] = [
    ("the greatest over the least", &[32767], &[-32768], None),
    ("the least below the greatest", &[-32768], &[32767], Some(0)),
    ("one of three", &[5, 4, 3], &[5, 4, 4], Some(2)),
    ("two of three", &[5, 3, 3], &[5, 4, 4], Some(1)),
    ("no places", &[], &[], None),
    (
        "the last of 17",
        &[0, 0, 0, 0, 0, 0, 0, 0, 0, 0, 0, 0, 0, 0, 0, 0, -1],
        &[0; 17],
        Some(16),
    ),
];

#[test]
fn places_below_the_ground(rt: HostRuntime) -> Result<(), Fail> {
    for &(name, con, z, expected) in &PLACES {
        same(&rt, name, first_place(con, z), Some(expected));
    }
    Ok(())
}

/// The first place below the ground among n sevens, at most 67, two of which are sixes.
fn first_of_two(len: usize, place: usize, second: usize) -> Option<Option<usize>>
    requires place { place < 67 }
    requires second { second < 67 }
{
    let mut con = [7; 67];
    con[place] = 6;
    con[second] = 6;
    let z = [7; 67];
    first_place(con.get(..len)?, z.get(..len)?)
}

/// Heights that are equal but in one place, and then in the last place too.
#[test]
fn the_first_place_of_each_length(rt: HostRuntime) -> Result<(), Fail> {
    let of_none = first_place(&[7; 67][..0], &[7; 67][..0]);
    same(&rt, (0, 0), of_none, Some(None));
    for len in 1..68 {
        for place in 0..len {
            for second in [place, len - 1] {
                let found = first_of_two(len, place, second);
                same(&rt, (len, second), found, Some(Some(place)));
            }
        }
    }
    Ok(())
}
