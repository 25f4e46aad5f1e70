//! Labels of a cell and the next, and of outlets.

use crate::agree::{same, same_rule};
use drain_basin::{OutletLabels, fault};
use drain_grid::{CellValues, OutOfMemory, Patch, Rule, Spacing};
use std::alloc::Global;
use std::process::Abort;
use std::test::Fail;
use worked::memory::gave_out;

/// The patch of a cell with this direction and label 5, whose east has label 7 and whose other neighbours have label 5.
fn patch(dir: i64) -> Result<Patch, Fail> {
    let Some(here) = CellValues::new(Some(0), false, 0, dir, 1, 5, 0, 0) else {
        return Err("values".into());
    };
    let mut around = [Some(here); 8];
    around[0] = CellValues::new(Some(0), false, 0, 0, 1, 7, 0, 0);
    Ok(Patch {
        here,
        around,
        spacing: Spacing::unit(),
    })
}

/// Codes, each with the rule that fails.
static DIRECTIONS: [(&str, i64, Option<Rule>); 5] = [
    ("east", 1, Some(Rule::Label)),
    ("southeast", 2, None),
    ("no direction", 0, None),
    ("no code", 3, None),
    ("void", 255, None),
];

#[test]
fn hands_a_label_on_along_a_direction(rt: HostRuntime) -> Result<(), Fail> {
    for &(name, dir, answer) in &DIRECTIONS {
        same_rule(&rt, name, fault(&patch(dir)?), answer);
    }
    let mut to_a_void = patch(1)?;
    to_a_void.around[0] = CellValues::new(None, false, 0, 0, 1, 7, 0, 0);
    same_rule(
        &rt,
        "a void has no label to hand on",
        fault(&to_a_void),
        None,
    );
    let mut to_the_outside = patch(1)?;
    to_the_outside.around[0] = None;
    same_rule(&rt, "to the outside", fault(&to_the_outside), None);
    Ok(())
}

/// Labels in the order in which they come, each with whether it is new.
static LABELS: [(i64, bool); 43] = [
    (7, true),
    (7, false),
    (8, true),
    (-2147483648, true),
    (4294967295, true),
    (8, false),
    (-2147483648, false),
    // The ends of a word's half, of a word and of what a label can be, and labels that lie whole words apart.
    (15, true),
    (16, true),
    (23, true),
    (39, true),
    (63, true),
    (64, true),
    (71, true),
    (0, true),
    (-1, true),
    (-16, true),
    (-17, true),
    (-64, true),
    (-65, true),
    (i64::MIN, true),
    (i64::MAX, true),
    (15, false),
    (16, false),
    (63, false),
    (64, false),
    (0, false),
    (-1, false),
    (i64::MIN, false),
    (i64::MAX, false),
    (7, false),
    // 7 in its lower 32 bits.
    (4294967303, true),
    (30064771079, true),
    (-4294967289, true),
    (i64::MIN + 7, true),
    (31, true),
    (32, true),
    (4294967303, false),
    (30064771079, false),
    (-4294967289, false),
    (i64::MIN + 7, false),
    (31, false),
    (-2147483648, false),
];

/// Admits a label, again if memory was refused the first time, which only a new one can need.
fn admits(rt: &impl Abort, alloc: Global, labels: &mut OutletLabels, label: i64, is_new: bool) {
    let mut answer = labels.admit(label);
    if answer == Err(OutOfMemory) {
        same(rt, (label, "is new"), is_new, true);
        same(rt, (label, "refused"), gave_out(alloc), true);
        answer = labels.admit(label);
    }
    same(rt, label, answer, Ok(is_new));
}

#[test]
fn admits_each_label_once_after_refused_memory(rt: HostRuntime) -> Result<(), Fail> {
    let mut labels = OutletLabels::new(rt.alloc());
    for &(label, is_new) in &LABELS {
        admits(&rt, rt.alloc(), &mut labels, label, is_new);
    }
    Ok(())
}

/// Each number below 1024 once, in an order without a pattern.
fn scattered(number: u16) -> i64 {
    i64::from(number.wrapping_mul(389) % 1024)
}

/// The lowest labels get words of their own while labels come, in order or in none, and blocks move into these words. If
/// memory for the words is refused the labels go into the map. A label is known afterwards, and none that didn't come.
#[test]
fn admits_labels_in_any_order_after_refused_memory(rt: HostRuntime) -> Result<(), Fail> {
    let mut rising = OutletLabels::new(rt.alloc());
    let mut mixed = OutletLabels::new(rt.alloc());
    for number in 0..512u16 {
        admits(&rt, rt.alloc(), &mut rising, i64::from(number), true);
        admits(&rt, rt.alloc(), &mut mixed, scattered(number), true);
    }
    for number in 0..1024u16 {
        admits(
            &rt,
            rt.alloc(),
            &mut rising,
            i64::from(number),
            number >= 512,
        );
        admits(
            &rt,
            rt.alloc(),
            &mut mixed,
            scattered(number),
            number >= 512,
        );
    }
    Ok(())
}

/// Labels of which no two share a word, too high for the words of the lowest.
fn far_apart(number: u8) -> i64 {
    (i64::from(number) + 1) * 4096
}

/// Enough labels that the tree of words grows. A call that runs out of memory keeps the earlier labels, and is made
/// again.
#[test]
fn holds_its_labels_after_refused_memory(rt: HostRuntime) -> Result<(), Fail> {
    let mut labels = OutletLabels::new(rt.alloc());
    for number in 0..40u8 {
        let label = far_apart(number);
        let answer = labels.admit(label);
        if answer != Ok(true) {
            same(&rt, (number, "refused"), answer, Err(OutOfMemory));
            for earlier in 0..number {
                let admitted = labels.admit(far_apart(earlier));
                same(&rt, (earlier, "before"), admitted, Ok(false));
            }
            same(&rt, number, gave_out(rt.alloc()), true);
            same(&rt, (number, "again"), labels.admit(label), Ok(true));
        }
    }
    for number in 0..40u8 {
        let admitted = labels.admit(far_apart(number));
        same(&rt, (number, "at the end"), admitted, Ok(false));
    }
    Ok(())
}
