//! Products with listed sinks. The verdicts were worked out by hand from the rules.

use crate::examples::{accepted, rejected, same, verdict_listing};
use crate::given_rows::COLS;
use crate::rows_of_numbers::verdict_by_rows;
use drain_grid::{Judged, Rule, Verdict};
use std::alloc::Global;
use std::process::Abort;
use std::test::Fail;
use worked::grids::{LISTED_PIT_SINKS, listed_pit, parted, pit, voids};
use worked::shafts::Shafts;

/// Lists, each with whether it has the pit.
static OF_LISTED_PIT: [(&str, bool); 6] = [
    (LISTED_PIT_SINKS, true),
    ("1 1\n1 1\n01 1", true),
    ("0 0\n\n9 9\n1 1\n0 4\n4 0\n2 2", true),
    ("", false),
    // Cells next to it and outside the grid, one of which has its place if rows had no end.
    ("0 0\n0 1\n0 2\n1 0\n1 2\n2 0\n2 1\n2 2", false),
    ("0 4\n4 0\n3 3\n11 1\n1 11\n1 4294967295", false),
];

/// Ends the test where the verdict on these 3 by 3 cells with one of these lists is another than if the list has the
/// pit, or hasn't.
fn each_list(
    rt: &impl Abort,
    alloc: Global,
    numbers: &[i64],
    lists: &[(&str, bool)],
    (listed, unlisted): (Verdict, Verdict),
) -> Result<(), Fail> {
    for &(text, is_listed) in lists {
        let expected = if is_listed { listed } else { unlisted };
        let given = verdict_listing(alloc, text.as_bytes(), 3, 3, numbers)?;
        same(rt, text, given, expected);
    }
    Ok(())
}

#[test]
fn a_pit_that_is_listed_and_not(rt: HostRuntime) -> Result<(), Fail> {
    let verdicts = (accepted(3, 3, 9, 0, 1), rejected(Rule::FlatStep, 1, 1));
    each_list(&rt, rt.alloc(), &listed_pit(), &OF_LISTED_PIT, verdicts)
}

/// Lists, each with whether it has the pit.
static OF_FILLED_PIT: [(&str, bool); 5] = [
    ("", false),
    ("0 0", false),
    ("0 0\n0 1\n0 2\n1 0\n1 2\n2 0\n2 1\n2 2", false),
    ("3 0\n0 3\n3 3\n0 4\n4294967295 4294967295", false),
    ("1 1", true),
];

/// Cells that are open of themselves, and cells outside the grid, change nothing.
#[test]
fn a_filled_pit_with_sinks(rt: HostRuntime) -> Result<(), Fail> {
    let verdicts = (rejected(Rule::OpenRaised, 1, 1), accepted(3, 3, 9, 1, 8));
    each_list(&rt, rt.alloc(), &pit(), &OF_FILLED_PIT, verdicts)
}

/// Lists of voids.
static OF_VOIDS: [&str; 4] = ["0 3", "1 3", "2 3", "0 3\n1 3\n2 3\n7 3"];

#[test]
fn listed_voids(rt: HostRuntime) -> Result<(), Fail> {
    for &text in &OF_VOIDS {
        let given = verdict_listing(rt.alloc(), text.as_bytes(), 3, 7, &parted())?;
        same(&rt, text, given, accepted(3, 7, 18, 0, 16));
    }
    let beside = verdict_listing(rt.alloc(), b"1 3\n1 5", 3, 7, &parted())?;
    let no_outlet = rejected(Rule::OutletCode, 1, 5);
    same(&rt, "a flat's inner cell", beside, no_outlet);
    let on_voids = verdict_listing(rt.alloc(), b"0 0\n1 1", 2, 2, &voids())?;
    same(&rt, "voids", on_voids, accepted(2, 2, 0, 0, 0));
    Ok(())
}

/// The verdict on a level grid of five rows and columns that is right where this cell is listed, but where this is the list.
fn level_verdict(
    alloc: Global,
    (row, col): (u8, u8),
    (listed_row, listed_col): (u8, u8),
) -> Result<Verdict, Fail> {
    let shafts = Shafts {
        rows: 5,
        cols: 5,
        listed: &[(row, col.into())],
    };
    let text = format!(in alloc; "{listed_row} {listed_col}\n")?;
    verdict_listing(alloc, text.as_bytes(), 5, 5, &shafts.numbers(alloc)?)
}

/// Expected of a cell inside if the list swaps its row and column: then another cell is the sink, and directions show
/// it.
fn turned(row: u8, col: u8) -> Verdict {
    if row < col {
        rejected(Rule::FlatStep, row, col)
    } else {
        rejected(Rule::OutletCode, col, row)
    }
}

#[test]
fn each_cell_of_a_level_grid(rt: HostRuntime) -> Result<(), Fail> {
    for row in 0..5 {
        for col in 0..5 {
            let is_inside = (1..4).contains(&row) && (1..4).contains(&col);
            let (listed, unlisted) = if is_inside {
                (
                    accepted(5, 5, 25, 0, 17),
                    rejected(Rule::FlatStep, row, col),
                )
            } else {
                (accepted(5, 5, 25, 0, 16), accepted(5, 5, 25, 0, 16))
            };
            let given = level_verdict(rt.alloc(), (row, col), (row, col))?;
            same(&rt, "listed", given, listed);
            let given = level_verdict(rt.alloc(), (row, col), (5, 5))?;
            same(&rt, "not listed", given, unlisted);
            let given = level_verdict(rt.alloc(), (row, col), (col, row))?;
            let owed = if is_inside && row != col {
                turned(row, col)
            } else {
                listed
            };
            same(&rt, "turned", given, owed);
        }
    }
    Ok(())
}

/// Columns of the middle one of three long rows.
static LISTED: [u16; 7] = [1, 255, 256, 257, 511, 512, 598];

/// The verdicts on three long rows that are right if these columns of the middle one are listed: by rasters and by
/// rows. One of them is missing in the list, and these lines come first.
fn long_verdicts(alloc: Global, left_out: u16, more: &str) -> Result<[Verdict; 2], Fail> {
    let shafts = Shafts {
        rows: 3,
        cols: COLS,
        listed: &LISTED.map(|col| (1, col)),
    };
    let numbers = shafts.numbers(alloc)?;
    let mut text = Vec::new(alloc);
    text.extend_from_slice(more.as_bytes())?;
    for &col in &LISTED {
        if col != left_out {
            let line = format!(in alloc; "1 {col}\n")?;
            text.extend_from_slice(line.as_bytes())?;
        }
    }
    Ok([
        verdict_listing(alloc, &text, 3, COLS.into(), &numbers)?,
        verdict_by_rows(alloc, &text, &numbers, Judged::AllWithRanks)?,
    ])
}

/// The column that is left out, the lines in front, and the rule and the column that fail in the middle row, if any.
static LONG_ROWS: [(u16, &str, Option<(Rule, u32)>); 11] = [
    (0, "", None),
    (
        0,
        "2 300\n1 599\n1 0\n0 256\n0 0\n2 599\n1 600\n3 1\n1 256\n",
        None,
    ),
    (0, "1 300\n", Some((Rule::OutletCode, 300))),
    (0, "1 258\n1 300\n", Some((Rule::OutletCode, 258))),
    (1, "", Some((Rule::FlatStep, 1))),
    (255, "", Some((Rule::FlatStep, 255))),
    (256, "", Some((Rule::FlatStep, 256))),
    (257, "0 257\n2 257\n", Some((Rule::FlatStep, 257))),
    (511, "", Some((Rule::FlatStep, 511))),
    (512, "", Some((Rule::FlatStep, 512))),
    (598, "0 1198\n", Some((Rule::FlatStep, 598))),
];

#[test]
fn long_rows_by_rasters_and_by_rows(rt: HostRuntime) -> Result<(), Fail> {
    for &(left_out, more, fault) in &LONG_ROWS {
        let expected = long_verdict(fault);
        let [by_rasters, by_rows] = long_verdicts(rt.alloc(), left_out, more)?;
        same(&rt, "by rasters", by_rasters, expected);
        same(&rt, "by rows", by_rows, expected);
    }
    Ok(())
}

/// The verdict on the long rows where this is the fault in the middle one.
fn long_verdict(fault: Option<(Rule, u32)>) -> Verdict {
    match fault {
        Some((rule, col)) => Verdict::Rejected { rule, row: 1, col },
        None => accepted(3, 600, 1800, 0, 1209),
    }
}
