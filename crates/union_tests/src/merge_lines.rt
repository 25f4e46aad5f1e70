//! The line of each answer.

use crate::agree::same_line;
use crate::merge_answers::verdict_line;
use drain_grid::{Cell, Rule};
use drain_merge::{Clash, MergeRefusal, merge_line};
use drain_union::{Fault, UnionCounts, UnionVerdict};

/// Verdicts, each with its line.
static VERDICTS: [(UnionVerdict, &str); 4] = [
    (
        UnionVerdict::Accepted(UnionCounts {
            rows: 1,
            cols: 2,
            data_cells: 0,
            raised: 10,
            outlets: 4294967296,
        }),
        "accepted rows=1 cols=2 data=0 raised=10 outlets=4294967296",
    ),
    (
        UnionVerdict::Accepted(UnionCounts {
            rows: 4294967295,
            cols: 4294967294,
            data_cells: 18446744073709551615,
            raised: 18446744073709551614,
            outlets: 10000000000000000000,
        }),
        "accepted rows=4294967295 cols=4294967294 data=18446744073709551615 raised=18446744073709551614 outlets=10000000000000000000",
    ),
    (
        UnionVerdict::Rejected(Fault {
            cell: Cell {
                row: 0,
                col: 4294967295,
            },
            rule: Rule::VoidCell,
        }),
        "rejected rule=1 VoidCell row=0 col=4294967295",
    ),
    (
        UnionVerdict::Rejected(Fault {
            cell: Cell {
                row: 4294967295,
                col: 7,
            },
            rule: Rule::SharedLabel,
        }),
        "rejected rule=15 SharedLabel row=4294967295 col=7",
    ),
];

#[test]
fn lines_of_verdicts(rt: HostRuntime) {
    for &(verdict, line) in &VERDICTS {
        same_line(&rt, line, &verdict_line(verdict), line);
    }
}

/// Refusals, each with its line.
static REFUSALS: [(MergeRefusal, &str); 14] = [
    (MergeRefusal::NoReports, "refused NoReports"),
    (MergeRefusal::OtherSide(0), "refused OtherSide 0"),
    (MergeRefusal::OtherNoData(12), "refused OtherNoData 12"),
    (
        MergeRefusal::OtherSpacing(18446744073709551615),
        "refused OtherSpacing 18446744073709551615",
    ),
    (
        MergeRefusal::OutsideUnion(18446744073709551615),
        "refused OutsideUnion 18446744073709551615",
    ),
    (MergeRefusal::JudgesNothing(3), "refused JudgesNothing 3"),
    (
        MergeRefusal::Overlap(Clash {
            earlier: 3,
            later: 10,
        }),
        "refused Overlap 3 10",
    ),
    (
        MergeRefusal::Overlap(Clash {
            earlier: 18446744073709551614,
            later: 18446744073709551615,
        }),
        "refused Overlap 18446744073709551614 18446744073709551615",
    ),
    (
        MergeRefusal::LeftOut(Cell { row: 0, col: 1 }),
        "refused LeftOut row=0 col=1",
    ),
    (
        MergeRefusal::SeamsDiffer(Cell {
            row: 4294967295,
            col: 4294967294,
        }),
        "refused SeamsDiffer row=4294967295 col=4294967294",
    ),
    (MergeRefusal::SinkLeftOut(1), "refused SinkLeftOut 1"),
    (
        MergeRefusal::SinkLeftOut(18446744073709551615),
        "refused SinkLeftOut 18446744073709551615",
    ),
    (
        MergeRefusal::SinkNotListed(Cell { row: 20, col: 0 }),
        "refused SinkNotListed row=20 col=0",
    ),
    (MergeRefusal::OutOfMemory, "failed OutOfMemory"),
];

#[test]
fn lines_of_refusals(rt: HostRuntime) {
    for &(refusal, line) in &REFUSALS {
        same_line(&rt, line, &merge_line(&Err(refusal)), line);
    }
}
