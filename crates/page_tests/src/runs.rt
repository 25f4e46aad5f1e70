//! Paths without an end: rings and paths that lead nowhere.

use crate::worked::{Form, no_fault, page_has};
use drain_answer::Outcome;
use drain_grid::{Cell, Judged};
use drain_mosaic::Layout;
use drain_page::Facts;
use drain_paths::{EndlessPath, LostBy};
use std::alloc::Global;
use std::test::Fail;

/// The facts of an audit in which the path of row 0, column 3 doesn't end.
fn no_end(alloc: Global, run: EndlessPath) -> Result<Facts<Layout>, Fail> {
    let mut findings = no_fault(alloc, Judged::All)?;
    findings.endless = Some((Cell { row: 0, col: 3 }, run));
    Ok(Facts {
        answer: Ok(Outcome::NoEnd { row: 0, col: 3 }),
        refusal: None,
        findings: Some(findings),
    })
}

/// A ring of this number of cells, of which two are printed.
fn ring(alloc: Global, length: usize) -> Result<Facts<Layout>, Fail> {
    let told = [Cell { row: 1, col: 1 }, Cell { row: 1, col: 2 }];
    let cells = told.to_vec(alloc)?;
    no_end(alloc, EndlessPath::Ring { cells, length })
}

/// A case of a ring, how many cells it has, and its text.
static RINGS: [(&str, usize, &str); 2] = [
    (
        "two cells",
        2,
        "ranks: not checked\n\npath without an end: from row 0, column 3 into a ring of 2 cells\n  row 1, column 1\n  row 1, column 2\n",
    ),
    (
        "three cells",
        3,
        "3 cells\n  row 1, column 1\n  row 1, column 2\n  and so on\n",
    ),
];

/// The JSON of the ring of three cells.
static RING_AS_JSON: &str =
    r#""run":{"from":{"row":0,"col":3,"longitude":-104.0,"latitude":38.0},"ring":{"length":3,"cells":[{"row":1,"col":1,"longitude":-104.66666666666667,"latitude":37.666666666666664},{"row":1,"col":2,"longitude":-104.33333333333333,"latitude":37.666666666666664}]},"lost":null},"schema":1,"status":1,"rule":null,"name":"NoEnd","row":0,"col":3}"#;

#[test]
fn rings(rt: HostRuntime) -> Result<(), Fail> {
    for &(case, length, words) in &RINGS {
        let facts = ring(rt.alloc(), length)?;
        page_has(&rt, rt.alloc(), Form::Text, case, facts, words)?;
    }
    let facts = ring(rt.alloc(), 3)?;
    page_has(&rt, rt.alloc(), Form::Json, "as JSON", facts, RING_AS_JSON)
}

/// Why a path leads nowhere, with its words and its name.
static LOST: [(LostBy, &str, &str); 3] = [
    (
        LostBy::NoCode,
        "  path stops at row 3, column 0: dir is no direction code\n",
        "no_code",
    ),
    (
        LostBy::Outside,
        "  path stops at row 3, column 0: dir points outside the mosaic\n",
        "outside",
    ),
    (
        LostBy::Void,
        "  path stops at row 3, column 0: dir points to a void\n",
        "void",
    ),
];

/// The JSON of each of them.
static LOST_AS_JSON: &str =
    r#""ring":null,"lost":{"cell":{"row":3,"col":0,"longitude":-105.0,"latitude":37.0},"by":""#;

fn lost(alloc: Global, by: LostBy) -> Result<Facts<Layout>, Fail> {
    let cell = Cell { row: 3, col: 0 };
    no_end(alloc, EndlessPath::Lost { cell, by })
}

#[test]
fn lost_runs(rt: HostRuntime) -> Result<(), Fail> {
    for (by, words, name) in &LOST {
        for (form, part) in [
            (Form::Text, *words),
            (Form::Json, LOST_AS_JSON),
            (Form::Json, *name),
        ] {
            let facts = lost(rt.alloc(), *by)?;
            page_has(&rt, rt.alloc(), form, name, facts, part)?;
        }
    }
    Ok(())
}
