//! Three long level rows where con alone is judged: which cells their lanes clear, and the verdict with lanes and without.
//! No contract says that they clear most. Worked out by hand from the rules.

use crate::examples::{Part, accepted, equal, rejected};
use crate::given_rows::level_rows;
use crate::rows_of_numbers::{kept_by_con, verdict_by_rows};
use crate::unasked_ranks::{Change, put};
use drain_grid::{Judged, Rule, Verdict};
use drain_rules::Kept;
use std::alloc::Global;
use std::test::Fail;

/// A number that changes nothing.
const NOTHING: Change = (Part::Con, (1, 1), 0);

/// A void at column 50 of the row needs two changes.
const VOID: Change = (Part::Elevations, (1, 50), -32768);

const BLANK: Change = (Part::Con, (1, 50), -32768);

/// Level rows with these changes.
fn rows_with(alloc: Global, changes: &[Change]) -> Result<Vec<i64>, Fail> {
    let mut numbers = level_rows(alloc)?;
    for change in changes {
        put(&mut numbers, *change)?;
    }
    Ok(numbers)
}

/// A list, changes of the rows, the column from which cells are kept, the one before which they are, and how many of them
/// are raised. The last column isn't kept, as the first.
static KEPT: [(&str, [Change; 3], u32, u32, u32); 17] = [
    ("", [NOTHING; 3], 1, 599, 0),
    ("", [NOTHING; 3], 470, 599, 0),
    ("", [NOTHING; 3], 0, 0, 0),
    ("", [NOTHING; 3], 599, 599, 0),
    // A listed sink on its ground, and one that is raised.
    ("1 50", [NOTHING; 3], 1, 599, 0),
    (
        "1 50",
        [(Part::Elevations, (1, 50), -1), NOTHING, NOTHING],
        1,
        50,
        0,
    ),
    // A pit that is filled, inside and beside a void.
    (
        "",
        [(Part::Elevations, (1, 70), -1), NOTHING, NOTHING],
        1,
        599,
        1,
    ),
    (
        "",
        [VOID, BLANK, (Part::Elevations, (1, 51), -1)],
        51,
        51,
        0,
    ),
    // A void.
    ("", [VOID, BLANK, NOTHING], 1, 50, 0),
    ("", [VOID, BLANK, NOTHING], 51, 599, 0),
    ("", [VOID, (Part::Con, (1, 50), 0), NOTHING], 1, 50, 0),
    // Con below the ground, and above a lower way out.
    ("", [(Part::Con, (1, 70), -1), NOTHING, NOTHING], 1, 70, 0),
    ("", [(Part::Con, (1, 70), 1), NOTHING, NOTHING], 1, 70, 0),
    // Con that isn't there.
    (
        "",
        [(Part::Con, (1, 70), -32768), NOTHING, NOTHING],
        1,
        70,
        0,
    ),
    // Of directions and accumulations it matters only that a code 0 isn't kept.
    (
        "",
        [
            (Part::Dir, (1, 70), 3),
            (Part::Acc, (1, 71), 9),
            (Part::Bas, (1, 72), 9),
        ],
        1,
        599,
        0,
    ),
    ("", [(Part::Dir, (1, 70), 0), NOTHING, NOTHING], 1, 70, 0),
    ("", [(Part::Dir, (1, 70), 0), NOTHING, NOTHING], 70, 70, 0),
];

#[test]
fn cells_that_lanes_clear(rt: HostRuntime) -> Result<(), Fail> {
    for (case, (text, changes, from, end, raised)) in KEPT.iter().enumerate() {
        let numbers = rows_with(rt.alloc(), changes)?;
        let kept = kept_by_con(rt.alloc(), text.as_bytes(), &numbers, *from)?;
        let (end, raised) = (*end, *raised);
        equal(&rt, case, kept, Kept { end, raised });
    }
    Ok(())
}

/// A list, changes of the rows, and the rule that fails with the column; else how many cells have data and are raised.
static VERDICTS: [(&str, [Change; 3], Result<(u32, u32), (Rule, u8)>); 10] = [
    ("", [NOTHING; 3], Ok((1800, 0))),
    (
        "",
        [(Part::Elevations, (1, 70), -1), NOTHING, NOTHING],
        Ok((1800, 1)),
    ),
    ("", [VOID, BLANK, NOTHING], Ok((1799, 0))),
    (
        "",
        [VOID, (Part::Con, (1, 50), 0), NOTHING],
        Err((Rule::VoidCell, 50)),
    ),
    (
        "",
        [(Part::Con, (1, 70), -32768), NOTHING, NOTHING],
        Err((Rule::Missing, 70)),
    ),
    (
        "",
        [(Part::Con, (1, 70), -1), NOTHING, NOTHING],
        Err((Rule::BelowGround, 70)),
    ),
    (
        "",
        [(Part::Con, (1, 70), 1), NOTHING, NOTHING],
        Err((Rule::NotLeast, 70)),
    ),
    (
        "",
        [VOID, BLANK, (Part::Elevations, (1, 51), -1)],
        Err((Rule::OpenRaised, 51)),
    ),
    (
        "1 50",
        [(Part::Elevations, (1, 50), -1), NOTHING, NOTHING],
        Err((Rule::OpenRaised, 50)),
    ),
    (
        "",
        [
            (Part::Dir, (1, 70), 3),
            (Part::Acc, (1, 71), 9),
            (Part::Bas, (1, 72), 9),
        ],
        Ok((1800, 0)),
    ),
];

/// The verdict where this is found.
fn verdict_of(found: Result<(u32, u32), (Rule, u8)>) -> Verdict {
    match found {
        Ok((data_cells, raised)) => accepted(3, 600, data_cells, raised, 1202),
        Err((rule, col)) => rejected(rule, 1, col),
    }
}

#[test]
fn verdicts_on_con_alone(rt: HostRuntime) -> Result<(), Fail> {
    for (case, (text, changes, found)) in VERDICTS.iter().enumerate() {
        let numbers = rows_with(rt.alloc(), changes)?;
        let verdict = verdict_by_rows(rt.alloc(), text.as_bytes(), &numbers, Judged::Con)?;
        equal(&rt, case, verdict, verdict_of(*found));
    }
    Ok(())
}
