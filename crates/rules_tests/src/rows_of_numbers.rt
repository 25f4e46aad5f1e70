//! The verdict on three rows of 600 columns, gone over by rows, and their faults: with lanes of their numbers, and without.

ghost use Rattle.std.specs.Prelude.{◌≡◌, ◌<◌, ◌+◌, OnOk};

use crate::given_rows::{
    COLS, Given, Numbers, Room, marks_of, numbers_round, rules_about, three_rows,
};
use crate::part_rows::{AS_NUMBERS, Ground, Kinds, OF_TILES};
use drain_basin::OutletLabels;
use drain_faults::FaultWalk;
use drain_grid::{Judged, Shape, Sinks, Spacing, Verdict, parse_sinks};
use drain_kernel::Slopes;
use drain_rules::{Kept, PatchRow, ThreeRows, Walk};
use std::alloc::Global;
use std::test::Fail;

/// Checks the next row.
fn check_row(
    walk: &mut Walk<OutletLabels>,
    given: Given<'_>,
    row: u8,
    room: &mut Room,
) -> Result<(), Fail>
    requires { walk.old.rows < 3 }
    ensures { OnOk result (walk.new.rows ≡ walk.old.rows + 1) }
{
    let numbers = numbers_round(given, row)?;
    check_numbers(walk, given, &numbers, row, room)
}

/// The same of these numbers.
fn check_numbers(
    walk: &mut Walk<OutletLabels>,
    given: Given<'_>,
    numbers: &Numbers,
    row: u8,
    room: &mut Room,
) -> Result<(), Fail>
    requires { walk.old.rows < 3 }
    ensures { OnOk result (walk.new.rows ≡ walk.old.rows + 1) }
{
    let slopes = Slopes::of(Spacing::unit());
    let rows = three_rows(given, numbers, &slopes, row, room);
    Ok(walk.check_row(&rows, &rules_about(given.judged))?)
}

/// Checks all three rows.
fn check_rows(walk: &mut Walk<OutletLabels>, given: Given<'_>, room: &mut Room) -> Result<(), Fail>
    requires { walk.old.rows ≡ 0 }
{
    check_row(walk, given, 0, room)?;
    check_row(walk, given, 1, room)?;
    check_row(walk, given, 2, room)
}

/// The verdict on these rows.
fn verdict_of(alloc: Global, given: Given<'_>) -> Result<Verdict, Fail> {
    let shape = Shape::new(3, COLS.into()).ok_or("a shape")?;
    let mut room = Room::new(alloc);
    let mut walk = Walk::new(alloc);
    check_rows(&mut walk, given, &mut room)?;
    Ok(walk.verdict(shape))
}

/// Looks for faults in the next row.
fn note_row(walk: &mut FaultWalk, given: Given<'_>, row: u8, room: &mut Room) -> Result<(), Fail>
    requires { walk.old.rows < 3 }
    ensures { OnOk result (walk.new.rows ≡ walk.old.rows + 1) }
{
    let numbers = numbers_round(given, row)?;
    note_numbers(walk, given, &numbers, row, room)
}

/// The same of these numbers.
fn note_numbers(
    walk: &mut FaultWalk,
    given: Given<'_>,
    numbers: &Numbers,
    row: u8,
    room: &mut Room,
) -> Result<(), Fail>
    requires { walk.old.rows < 3 }
    ensures { OnOk result (walk.new.rows ≡ walk.old.rows + 1) }
{
    let slopes = Slopes::of(Spacing::unit());
    let rows = three_rows(given, numbers, &slopes, row, room);
    Ok(walk.note_row(&rows, &rules_about(given.judged))?)
}

/// Looks for faults in all three rows.
fn note_rows(walk: &mut FaultWalk, given: Given<'_>, room: &mut Room) -> Result<(), Fail>
    requires { walk.old.rows ≡ 0 }
{
    note_row(walk, given, 0, room)?;
    note_row(walk, given, 1, room)?;
    note_row(walk, given, 2, room)
}

/// The faults of the numbers of the six parts, with ranks, with lanes or without.
pub fn faults_by_rows(alloc: Global, numbers: &[i64], is_laned: bool) -> Result<FaultWalk, Fail> {
    let marks = marks_of(&Sinks::none(alloc));
    let given = Given {
        alloc,
        numbers,
        marks: &marks,
        ground: OF_TILES,
        kinds: AS_NUMBERS,
        judged: Judged::AllWithRanks,
        is_laned,
    };
    let mut walk = FaultWalk::new(alloc);
    note_rows(&mut walk, given, &mut Room::new(alloc))?;
    Ok(walk)
}

/// The cells of a row that lanes clear from a column on.
pub fn kept_by_lanes(
    alloc: Global,
    text: &[u8],
    numbers: &[i64],
    row: u8,
    from: u32,
) -> Result<Kept, Fail> {
    kept_of_kinds(alloc, text, numbers, AS_NUMBERS, (row, from))
}

/// The same where the products are kept as these kinds.
pub fn kept_of_kinds(
    alloc: Global,
    text: &[u8],
    numbers: &[i64],
    kinds: Kinds,
    place: (u8, u32),
) -> Result<Kept, Fail> {
    let given = Given {
        alloc,
        numbers,
        marks: &marks_of(&parse_sinks(alloc, text)?),
        ground: OF_TILES,
        kinds,
        judged: Judged::AllWithRanks,
        is_laned: true,
    };
    kept_in_row(given, Spacing::unit(), place)
}

/// The cells of the second row that lanes clear from its second column on, where cells are so far apart.
pub fn kept_when_spaced(alloc: Global, numbers: &[i64], spacing: Spacing) -> Result<Kept, Fail> {
    let given = Given {
        alloc,
        numbers,
        marks: &marks_of(&Sinks::none(alloc)),
        ground: OF_TILES,
        kinds: AS_NUMBERS,
        judged: Judged::AllWithRanks,
        is_laned: true,
    };
    kept_in_row(given, spacing, (1, 1))
}

/// The cells of the second row that lanes clear from a column on, where con alone is judged.
pub fn kept_by_con(alloc: Global, text: &[u8], numbers: &[i64], from: u32) -> Result<Kept, Fail> {
    let given = Given {
        alloc,
        numbers,
        marks: &marks_of(&parse_sinks(alloc, text)?),
        ground: OF_TILES,
        kinds: AS_NUMBERS,
        judged: Judged::Con,
        is_laned: true,
    };
    kept_in_row(given, Spacing::unit(), (1, from))
}

/// The cells of a row that lanes clear from a column on, where cells are so far apart.
fn kept_in_row(given: Given<'_>, spacing: Spacing, (row, from): (u8, u32)) -> Result<Kept, Fail> {
    let numbers = numbers_round(given, row)?;
    let slopes = Slopes::of(spacing);
    let mut room = Room::new(given.alloc);
    let rows = three_rows(given, &numbers, &slopes, row, &mut room);
    kept_from(given, &rows, from)
}

/// The same of these rows.
fn kept_from(given: Given<'_>, rows: &ThreeRows<'_>, from: u32) -> Result<Kept, Fail> {
    if from > rows.cols() {
        return Err("a column".into());
    }
    Ok(rows.kept_from(&rules_about(given.judged), from, rows.cols()))
}

/// Whether lanes find that a cell is an outlet that keeps the rules.
pub fn is_outlet_by_lanes(
    alloc: Global,
    numbers: &[i64],
    (row, col): (u8, u32),
) -> Result<bool, Fail> {
    let marks = marks_of(&Sinks::none(alloc));
    let given = Given {
        alloc,
        numbers,
        marks: &marks,
        ground: OF_TILES,
        kinds: AS_NUMBERS,
        judged: Judged::AllWithRanks,
        is_laned: true,
    };
    let numbers = numbers_round(given, row)?;
    let slopes = Slopes::of(Spacing::unit());
    let mut room = Room::new(alloc);
    let rows = three_rows(given, &numbers, &slopes, row, &mut room);
    Ok(col < rows.cols() && rows.is_right_outlet(&rules_about(Judged::AllWithRanks), col))
}

/// The verdict on the numbers of the six parts, with the sinks of a text, the same with lanes and without; with ranks
/// or not.
pub fn verdict_by_rows(
    alloc: Global,
    text: &[u8],
    numbers: &[i64],
    judged: Judged,
) -> Result<Verdict, Fail> {
    verdict_of_kinds(alloc, text, numbers, AS_NUMBERS, judged)
}

/// The same where the products are kept as these kinds.
pub fn verdict_of_kinds(
    alloc: Global,
    text: &[u8],
    numbers: &[i64],
    kinds: Kinds,
    judged: Judged,
) -> Result<Verdict, Fail> {
    let sinks = parse_sinks(alloc, text)?;
    let marks = marks_of(&sinks);
    verdict_either_way(
        alloc,
        Given {
            alloc,
            numbers,
            marks: &marks,
            ground: OF_TILES,
            kinds,
            judged,
            is_laned: true,
        },
    )
}

/// The same where the elevations are kept as these pixels.
pub fn verdict_on_ground(
    alloc: Global,
    numbers: &[i64],
    ground: Ground,
    judged: Judged,
) -> Result<Verdict, Fail> {
    let marks = marks_of(&Sinks::none(alloc));
    verdict_either_way(
        alloc,
        Given {
            alloc,
            numbers,
            marks: &marks,
            ground,
            kinds: AS_NUMBERS,
            judged,
            is_laned: true,
        },
    )
}

/// The verdict with lanes. It fails if that without lanes is another.
fn verdict_either_way(alloc: Global, laned: Given<'_>) -> Result<Verdict, Fail> {
    let plain = Given {
        is_laned: false,
        ..laned
    };
    let verdict = verdict_of(alloc, laned)?;
    if verdict_of(alloc, plain)? != verdict {
        return Err("lanes change the verdict".into());
    }
    Ok(verdict)
}
