//! What a page says of slopes: on cells that aren't square, all alike or listed by a text, and on square cells in degrees.

use crate::agree::has;
use crate::worked::{Form, Numbers, accepted, cell, cells, no_fault, page_has, page_of, rejected};
use drain_faults::FaultyPatch;
use drain_findings::Slopes;
use drain_grid::{Cell, Judged, Patch, Rule, Spacing};
use drain_mosaic::Layout;
use drain_page::Facts;
use std::alloc::Global;
use std::test::Fail;

/// The ground of the neighbours in the east, southeast and south of a cell of 9 metres, and its numbers.
static NEIGHBOURS: [(i16, Numbers); 3] = [
    (6, (6, 0, 1, 7, 9)),
    (4, (4, 0, 1, 7, 9)),
    (5, (5, 0, 1, 7, 9)),
];

/// Cells of 3 by 4: the ways to the east, to the southeast and to the south are equally steep.
fn three_ties() -> Result<Patch, Fail> {
    let mut around = [None; 8];
    for (place, &(ground, numbers)) in around.iter_mut().zip(&NEIGHBOURS) {
        *place = Some(cell(ground, false, numbers)?);
    }
    let Some(spacing) = Spacing::new(3, 4) else {
        return Err("a spacing".into());
    };
    Ok(Patch {
        here: cell(9, false, (9, 16, 1, 7, 9))?,
        around,
        spacing,
    })
}

/// The facts of one fault of Slope there.
fn facts(alloc: Global, slopes: Slopes) -> Result<Facts<Layout>, Fail> {
    let mut findings = no_fault(alloc, Judged::AllWithRanks)?;
    findings.by_rule.slope = cells(1, 1, 2);
    findings.first = Some(FaultyPatch {
        cell: Cell { row: 1, col: 2 },
        patch: three_ties()?,
        rule: Rule::Slope,
    });
    findings.slopes = slopes;
    Ok(rejected(Rule::Slope, 1, 2, findings))
}

/// Parts of a page in a form: on cells of 3 by 4, and on cells that a text lists.
static PARTS: [(Form, bool, &str); 5] = [
    (Form::Text, false, "\n\nslopes: cells 3 by 4\n"),
    (Form::Text, true, "\n\nslopes: widths by row\n"),
    (
        Form::Text,
        false,
        "\n  E 1: drop 3, distance squared 9, steepest\n  SE 2: drop 5, distance squared 25, steepest\n  S 4: drop 4, distance squared 16, steepest\n",
    ),
    (
        Form::Json,
        false,
        r#""cols":4,"slopes":{"width":3,"height":4},"ranks":true"#,
    ),
    (
        Form::Json,
        true,
        r#""cols":4,"slopes":"widths by row","ranks":true"#,
    ),
];

#[test]
fn on_other_cells(rt: HostRuntime) -> Result<(), Fail> {
    let Some(spacing) = Spacing::new(3, 4) else {
        return Err("a spacing".into());
    };
    for &(form, by_row, part) in &PARTS {
        let slopes = if by_row {
            Slopes::ByRow
        } else {
            Slopes::Cells(spacing)
        };
        let page = page_of(rt.alloc(), form, &facts(rt.alloc(), slopes)?)?;
        has(&rt, "a part of the page", &page, part);
    }
    Ok(())
}

#[test]
fn ways_as_json(rt: HostRuntime) -> Result<(), Fail> {
    let page = page_of(rt.alloc(), Form::Json, &facts(rt.alloc(), Slopes::ByRow)?)?;
    has(
        &rt,
        "the ways",
        &page,
        r#""ways":[{"code":1,"drop":3,"distance_squared":9},{"code":2,"drop":5,"distance_squared":25},{"code":4,"drop":4,"distance_squared":16}]"#,
    );
    Ok(())
}

/// Parts of a page on square cells, with what is judged: no rule fails.
static ON_SQUARE_CELLS: [(Form, Judged, &str); 4] = [
    (
        Form::Text,
        Judged::ConDir,
        "\n\nslopes: square cells\nhold: ",
    ),
    (
        Form::Json,
        Judged::AllWithRanks,
        r#""cols":4,"slopes":"square cells","ranks":true"#,
    ),
    (Form::Text, Judged::Con, "\n\nhold: "),
    (Form::Json, Judged::Con, r#""cols":4,"ranks":false"#),
];

#[test]
fn on_square_cells(rt: HostRuntime) -> Result<(), Fail> {
    for &(form, judged, part) in &ON_SQUARE_CELLS {
        let facts = accepted(no_fault(rt.alloc(), judged)?);
        page_has(&rt, rt.alloc(), form, "square cells", facts, part)?;
    }
    Ok(())
}
