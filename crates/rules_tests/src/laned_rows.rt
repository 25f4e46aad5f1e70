//! Three long rows with one number changed, at a stride's first and last column: the fault is found there, with or
//! without lanes.

use crate::examples::{Part, accepted, same};
use crate::given_rows::level_rows;
use crate::rows_of_numbers::verdict_by_rows;
use crate::unasked_ranks::put;
use drain_grid::{Judged, Rule, Verdict};
use std::alloc::Global;
use std::test::Fail;

/// The columns at which strides of 64, of 8 and of 1 begin and end.
static COLUMNS: [u16; 14] = [
    1, 64, 65, 128, 129, 512, 513, 576, 577, 584, 585, 592, 593, 598,
];

/// The rule fails first at this row and column.
fn rejected(rule: Rule, row: u32, col: u16) -> Verdict {
    Verdict::Rejected {
        rule,
        row,
        col: col.into(),
    }
}

/// The verdict on three level rows, whose cells inside drain north, with this number of a part at a column of the second.
fn verdict_at(
    alloc: Global,
    part: Part,
    col: u16,
    number: i64,
    judged: Judged,
) -> Result<Verdict, Fail> {
    let mut numbers = level_rows(alloc)?;
    put(&mut numbers, (part, (1, col), number))?;
    verdict_by_rows(alloc, b"", &numbers, judged)
}

/// A label that is no other cell's.
#[test]
fn a_label_at_the_ends_of_strides(rt: HostRuntime) -> Result<(), Fail> {
    for &col in &COLUMNS {
        let given = verdict_at(rt.alloc(), Part::Bas, col, 5000, Judged::AllWithRanks)?;
        same(&rt, "a label", given, rejected(Rule::Label, 1, col));
    }
    Ok(())
}

/// Water that goes nowhere, and the cell above counts it: that is reported first.
#[test]
fn a_code_at_the_ends_of_strides(rt: HostRuntime) -> Result<(), Fail> {
    for &col in &COLUMNS {
        let given = verdict_at(rt.alloc(), Part::Dir, col, 0, Judged::All)?;
        same(&rt, "a code", given, rejected(Rule::Accumulation, 0, col));
    }
    Ok(())
}

/// Ranks that fit no lane.
static UNFIT: [(&str, i64); 2] = [("less than 0", -1), ("the least pixel", -2147483648)];

/// Ranks of 33 bits and below 0 fit no lane: then each cell is checked alone, and without ranks nothing changes.
#[test]
fn ranks_that_fit_no_lane(rt: HostRuntime) -> Result<(), Fail> {
    for &(name, rank) in &UNFIT {
        let given = verdict_at(rt.alloc(), Part::Rnk, 300, rank, Judged::All)?;
        same(&rt, name, given, accepted(3, 600, 1800, 0, 1202));
    }
    Ok(())
}
