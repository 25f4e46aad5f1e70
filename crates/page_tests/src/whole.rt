//! A page with two rules that fail, as text and as JSON; and pages with nothing to explain.

use crate::agree::same_text;
use crate::whole_pages::{JSON, TEXT};
use crate::worked::{
    Form, Numbers, accepted, cell, cells, no_cell, no_fault, page_of, product, rejected, void,
};
use drain_answer::outcome::Status;
use drain_answer::{Outcome, Refusal};
use drain_faults::FaultyPatch;
use drain_findings::Findings;
use drain_grid::{Cell, Judged, Patch, Rule, Spacing};
use drain_mosaic::Layout;
use drain_page::{
    Facts, OUT_OF_MEMORY_ANSWER, OUT_OF_MEMORY_OBJECT, Parts, answer_json, failure_json,
};
use std::alloc::Global;
use std::test::Fail;

/// The ground of four neighbours from the east on, whether each is a listed sink, and its numbers.
static NEIGHBOURS: [(i16, bool, Numbers); 4] = [
    (4, true, (4, 0, 9, 7, 1)),
    (-8, false, (8, 8, 4294967295, 7, 6)),
    (7, false, (7, 128, 2, 7, 5)),
    (6, false, (6, 3, 1, 7, 4)),
];

/// A cell on the northern edge next to a void and a listed sink.
fn edge() -> Result<Patch, &'static str> {
    let mut around = [None; 8];
    for (place, &(ground, sink, numbers)) in around.iter_mut().zip(&NEIGHBOURS) {
        *place = Some(cell(ground, sink, numbers)?);
    }
    around[4] = Some(void()?);
    let here = cell(5, false, (5, 1, 0, 7, 3))?;
    Ok(Patch {
        here,
        around,
        spacing: Spacing::unit(),
    })
}

fn two_rules(alloc: Global) -> Result<Findings<Layout>, Fail> {
    let mut findings = no_fault(alloc, Judged::AllWithRanks)?;
    findings.by_rule.missing = cells(2, 0, 1);
    findings.by_rule.slope = cells(1, 2, 0);
    findings.by_product.acc = product(no_cell(), cells(2, 0, 1));
    findings.first = Some(FaultyPatch {
        cell: Cell { row: 0, col: 1 },
        patch: edge()?,
        rule: Rule::Missing,
    });
    Ok(findings)
}

#[test]
fn a_whole_text(rt: HostRuntime) -> Result<(), Fail> {
    let facts = rejected(Rule::Missing, 0, 1, two_rules(rt.alloc())?);
    let text = page_of(rt.alloc(), Form::Text, &facts)?;
    same_text(&rt, "two rules", &text, TEXT);
    Ok(())
}

#[test]
fn a_whole_json(rt: HostRuntime) -> Result<(), Fail> {
    let facts = rejected(Rule::Missing, 0, 1, two_rules(rt.alloc())?);
    let json = page_of(rt.alloc(), Form::Json, &facts)?;
    let line = json.strip_suffix("\n").unwrap_or("no line end");
    same_text(&rt, "two rules", line, JSON);
    Ok(())
}

/// The page of an acceptance.
static ACCEPTED: &str = "accepted rows=4 cols=4 data=15 raised=2 outlets=3

slopes: square cells
hold: 1 VoidCell, 2 Missing, 3 BadCode, 4 BelowGround, 5 OpenRaised, 9 NotLeast, 10 Slope, 11 OutletCode, 12 FlatStep, 13 Accumulation, 14 Label, 15 SharedLabel
not tried: 6 NoSpill, 7 SpillHeight, 8 SpillRank
ranks: not checked
";

#[test]
fn an_acceptance(rt: HostRuntime) -> Result<(), Fail> {
    let facts = accepted(no_fault(rt.alloc(), Judged::All)?);
    let text = page_of(rt.alloc(), Form::Text, &facts)?;
    same_text(&rt, "an acceptance", &text, ACCEPTED);
    Ok(())
}

/// The facts of a refusal without details.
fn no_tiles() -> Facts<Layout> {
    Facts {
        answer: Err(Refusal::NoTiles),
        refusal: None,
        findings: None,
    }
}

/// The page of that refusal as JSON.
static NO_TILES: &str =
    "{\"answer\":\"refused NoTiles\",\"refusal\":null,\"rows\":null,\"cols\":null,\"ranks\":null,\"rules\":[],\"products\":[],\"patch\":null,\"expected\":null,\"run\":null,\"schema\":1,\"status\":2,\"rule\":null,\"name\":null,\"row\":null,\"col\":null}\n";

#[test]
fn the_line_alone(rt: HostRuntime) -> Result<(), Fail> {
    let text = page_of(rt.alloc(), Form::Text, &no_tiles())?;
    same_text(&rt, "no tiles", &text, "refused NoTiles\n");
    let json = page_of(rt.alloc(), Form::Json, &no_tiles())?;
    same_text(&rt, "no tiles as JSON", &json, NO_TILES);
    Ok(())
}

#[test]
fn the_object_without_memory(rt: HostRuntime) -> Result<(), Fail> {
    let json = failure_json(rt.alloc(), "failed OutOfMemory")?;
    same_text(&rt, "no memory", &json, OUT_OF_MEMORY_OBJECT);
    let json = answer_json(rt.alloc(), "failed OutOfMemory", Parts::failed())?;
    same_text(&rt, "no memory for an answer", &json, OUT_OF_MEMORY_ANSWER);
    Ok(())
}

/// The end of an answer's object, for each kind of answer: status, rule, name, row and column.
fn parts_of_answers() -> [(Result<Outcome, Refusal>, Status, &'static str); 6] {
    [
        (
            Ok(Outcome::Rejected {
                rule: Rule::NotLeast,
                row: 29,
                col: 5,
            }),
            Status::Rejected,
            r#""status":1,"rule":9,"name":"NotLeast","row":29,"col":5}"#,
        ),
        (
            Ok(Outcome::NoEnd { row: 3, col: 0 }),
            Status::Rejected,
            r#""status":1,"rule":null,"name":"NoEnd","row":3,"col":0}"#,
        ),
        (
            Ok(Outcome::NotFilled { row: 0, col: 7 }),
            Status::Rejected,
            r#""status":1,"rule":null,"name":"NotFilled","row":0,"col":7}"#,
        ),
        (
            Err(Refusal::SeamMismatch(Cell { row: 1, col: 2 })),
            Status::Refused,
            r#""status":2,"rule":null,"name":null,"row":1,"col":2}"#,
        ),
        (
            Err(Refusal::NoTiles),
            Status::Refused,
            r#""status":2,"rule":null,"name":null,"row":null,"col":null}"#,
        ),
        (
            Err(Refusal::ReadFailed),
            Status::Failed,
            r#""status":3,"rule":null,"name":null,"row":null,"col":null}"#,
        ),
    ]
}

#[test]
fn the_parts_of_an_answer(rt: HostRuntime) -> Result<(), Fail> {
    let cases = parts_of_answers();
    for (answer, status, parts) in &cases {
        let json = answer_json(rt.alloc(), "the line", Parts::of(answer, *status))?;
        let wanted = format!(in rt.alloc(); "{{\"answer\":\"the line\",\"schema\":1,{parts}\n")?;
        same_text(&rt, parts, &json, &wanted);
    }
    Ok(())
}
