//! Worked products and their verdicts, all worked out by hand from the rules.

use crate::examples::{Part, accepted, changed, rejected, same, verdict_on, verdict_with};
use drain_grid::{Rule, Verdict};
use std::alloc::Global;
use std::test::Fail;
use worked::grids::{level, needless_crest, parted, pit, ring, slope, voids};

#[test]
fn accepts_right_products(rt: HostRuntime) -> Result<(), Fail> {
    let alloc = rt.alloc();
    let on_pit = verdict_on(alloc, 3, 3, &pit())?;
    same(&rt, "a pit", on_pit, accepted(3, 3, 9, 1, 8));
    let on_level = verdict_on(alloc, 2, 2, &level())?;
    same(&rt, "level", on_level, accepted(2, 2, 4, 0, 4));
    let on_voids = verdict_on(alloc, 2, 2, &voids())?;
    same(&rt, "voids", on_voids, accepted(2, 2, 0, 0, 0));
    let on_slope = verdict_on(alloc, 4, 4, &slope())?;
    same(&rt, "a slope", on_slope, accepted(4, 4, 16, 0, 4));
    let on_parted = verdict_on(alloc, 3, 7, &parted())?;
    same(&rt, "parted", on_parted, accepted(3, 7, 18, 0, 16));
    Ok(())
}

/// The verdict on this example with one number changed.
fn verdict_changed(
    alloc: Global,
    side: u8,
    numbers: &[i64],
    part: Part,
    (row, col): (u8, u8),
    number: i64,
) -> Result<Verdict, Fail> {
    let numbers = changed(alloc, side, numbers, part, row, col, number)?;
    verdict_on(alloc, side.into(), side.into(), &numbers)
}

/// A product whose number at a cell is another, the number, the rule that fails, and the row and the column.
static CHANGED_SLOPES: [(Part, i64, Rule, u8, u8); 6] = [
    (Part::Dir, 3, Rule::BadCode, 0, 0),
    (Part::Con, 2, Rule::BelowGround, 0, 0),
    (Part::Con, 5, Rule::OpenRaised, 0, 0),
    (Part::Dir, 2, Rule::Slope, 1, 0),
    (Part::Acc, 5, Rule::Accumulation, 1, 3),
    (Part::Bas, 9, Rule::Label, 0, 0),
];

#[test]
fn rejects_a_changed_slope(rt: HostRuntime) -> Result<(), Fail> {
    for &(part, number, rule, row, col) in &CHANGED_SLOPES {
        let verdict = verdict_changed(rt.alloc(), 4, &slope(), part, (row, col), number)?;
        same(&rt, rule.name(), verdict, rejected(rule, row, col));
    }
    Ok(())
}

/// A product whose number in the middle is another, the number, the rule that fails, and the row and the column.
static CHANGED_PITS: [(&str, Part, i64, Rule, u8, u8); 4] = [
    ("too high", Part::Con, 6, Rule::NotLeast, 1, 1),
    ("filled halfway", Part::Con, 3, Rule::Slope, 0, 0),
    ("no direction", Part::Dir, 0, Rule::FlatStep, 1, 1),
    ("the rank of the next", Part::Rnk, 0, Rule::FlatStep, 1, 1),
];

#[test]
fn rejects_a_changed_pit(rt: HostRuntime) -> Result<(), Fail> {
    for &(name, part, number, rule, row, col) in &CHANGED_PITS {
        let verdict = verdict_changed(rt.alloc(), 3, &pit(), part, (1, 1), number)?;
        same(&rt, name, verdict, rejected(rule, row, col));
    }
    Ok(())
}

#[test]
fn rejects_by_the_other_rules(rt: HostRuntime) -> Result<(), Fail> {
    let alloc = rt.alloc();
    let acc_at_a_void = verdict_changed(alloc, 2, &voids(), Part::Acc, (1, 0), 1)?;
    let void_cell = rejected(Rule::VoidCell, 1, 0);
    same(&rt, "a void", acc_at_a_void, void_cell);
    let missing = verdict_with(alloc, 0, 2, 2, &level())?;
    same(
        &rt,
        "a cell with data, whose number is that for no data",
        missing,
        rejected(Rule::Missing, 0, 0),
    );
    let no_outlet = verdict_changed(alloc, 2, &level(), Part::Dir, (0, 0), 1)?;
    let outlet_code = rejected(Rule::OutletCode, 0, 0);
    same(&rt, "no outlet", no_outlet, outlet_code);
    let crest = verdict_on(alloc, 3, 3, &needless_crest())?;
    let not_least = rejected(Rule::NotLeast, 1, 1);
    same(&rt, "a needless crest", crest, not_least);
    let ring = verdict_on(alloc, 4, 4, &ring())?;
    same(&rt, "a ring", ring, rejected(Rule::FlatStep, 1, 1));
    Ok(())
}

#[test]
fn rejects_two_outlets_of_one_label(rt: HostRuntime) -> Result<(), Fail> {
    let alloc = rt.alloc();
    let mut numbers = Vec::from_slice(alloc, &slope())?;
    for col in 0..4 {
        numbers = changed(alloc, 4, &numbers, Part::Bas, 1, col, 1)?;
    }
    let verdict = verdict_on(alloc, 4, 4, &numbers)?;
    let shared_label = rejected(Rule::SharedLabel, 1, 3);
    same(&rt, "two outlets", verdict, shared_label);
    Ok(())
}

/// The verdict on the slope with two numbers changed, each at its part, row and column.
fn verdict_changed_twice(
    alloc: Global,
    (one, (row, col), first): (Part, (u8, u8), i64),
    (other, place, last): (Part, (u8, u8), i64),
) -> Result<Verdict, Fail> {
    let numbers = changed(alloc, 4, &slope(), one, row, col, first)?;
    verdict_changed(alloc, 4, &numbers, other, place, last)
}

/// The cell whose accumulation is another, the cell whose con is, the rule that fails first, and the row and the column.
static TWO_FAULTS: [(&str, (u8, u8), (u8, u8), Rule, u8, u8); 2] = [
    (
        "the first cell, though its rule is the later one",
        (0, 3),
        (2, 0),
        Rule::Accumulation,
        0,
        3,
    ),
    (
        "the first rule at a cell",
        (0, 0),
        (0, 0),
        Rule::BelowGround,
        0,
        0,
    ),
];

#[test]
fn tells_the_first_of_two_faults(rt: HostRuntime) -> Result<(), Fail> {
    for &(name, sum, con, rule, row, col) in &TWO_FAULTS {
        let sum = (Part::Acc, sum, 5);
        let con = (Part::Con, con, 2);
        let verdict = verdict_changed_twice(rt.alloc(), sum, con)?;
        same(&rt, name, verdict, rejected(rule, row, col));
    }
    Ok(())
}
