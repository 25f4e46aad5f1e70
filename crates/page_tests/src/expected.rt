//! What each rule expected, at a cell of ground 5 with neighbours in the east and the southeast, and others at 9.

use crate::worked::{Form, Numbers, cell, one_fault, page_has, rejected, values, void};
use drain_grid::{CellValues, Judged, Patch, Rule, Spacing};
use drain_mosaic::Layout;
use drain_page::Facts;
use std::alloc::Global;
use std::test::Fail;

/// A cell with a fault, and the end of its page as text, and the part of it in JSON.
struct Row {
    case: &'static str,
    rule: Rule,
    judged: Judged,
    sink: bool,
    here: Numbers,
    east: Numbers,
    southeast: Numbers,
    text: &'static str,
    json: &'static str,
}

static ROWS: [Row; 14] = [
    Row {
        case: "a code that is none",
        rule: Rule::BadCode,
        judged: Judged::AllWithRanks,
        sink: false,
        here: (5, 3, 1, 7, 9),
        east: (9, 0, 1, 7, 9),
        southeast: (9, 0, 1, 7, 9),
        text: "rule 3 BadCode\nexpected: dir 0, 1, 2, 4, 8, 16, 32, 64 or 128\nfound: dir ? 3\n",
        json: r#"{"rule":3,"name":"BadCode","product":"dir","found":3,"number":null,"products":[],"codes":[0,1,2,4,8,16,32,64,128],"ways":[],"open":null}"#,
    },
    Row {
        case: "below the ground",
        rule: Rule::BelowGround,
        judged: Judged::All,
        sink: false,
        here: (4, 1, 1, 7, 9),
        east: (9, 0, 1, 7, 9),
        southeast: (9, 0, 1, 7, 9),
        text: "rule 4 BelowGround\nexpected: con at least the ground, 5\nfound: con 4\n",
        json: r#"{"rule":4,"name":"BelowGround","product":"con","found":4,"number":5,"products":[],"codes":[],"ways":[],"open":null}"#,
    },
    Row {
        case: "a listed sink raised",
        rule: Rule::OpenRaised,
        judged: Judged::AllWithRanks,
        sink: true,
        here: (6, 0, 1, 7, 9),
        east: (9, 0, 1, 7, 9),
        southeast: (9, 0, 1, 7, 9),
        text: "rule 5 OpenRaised\nexpected: con equal to the ground, 5, at a listed sink\nfound: con 6\n",
        json: r#"{"rule":5,"name":"OpenRaised","product":"con","found":6,"number":5,"products":[],"codes":[],"ways":[],"open":"sink"}"#,
    },
    Row {
        case: "a lower way out",
        rule: Rule::NotLeast,
        judged: Judged::AllWithRanks,
        sink: false,
        here: (9, 0, 1, 7, 9),
        east: (7, 0, 1, 7, 9),
        southeast: (9, 0, 1, 7, 9),
        text: "rule 9 NotLeast\nexpected: con at most 7\nfound: con 9\n",
        json: r#"{"rule":9,"name":"NotLeast","product":"con","found":9,"number":7,"products":[],"codes":[],"ways":[],"open":null}"#,
    },
    Row {
        case: "a lower way out below the ground",
        rule: Rule::NotLeast,
        judged: Judged::AllWithRanks,
        sink: false,
        here: (9, 0, 1, 7, 9),
        east: (8, 0, 1, 7, 9),
        southeast: (3, 0, 1, 7, 9),
        text: "rule 9 NotLeast\nexpected: con at most 5\nfound: con 9\n",
        json: r#"{"rule":9,"name":"NotLeast","product":"con","found":9,"number":5,"products":[],"codes":[],"ways":[],"open":null}"#,
    },
    Row {
        case: "steeper across a corner",
        rule: Rule::Slope,
        judged: Judged::AllWithRanks,
        sink: false,
        here: (9, 0, 1, 7, 9),
        east: (7, 0, 1, 7, 9),
        southeast: (6, 0, 1, 7, 9),
        text: "rule 10 Slope\nexpected: dir of a steepest descent\n  E 1: drop 2, key 8\n  SE 2: drop 3, key 9, steepest\nfound: dir outlet 0\n",
        json: r#"{"rule":10,"name":"Slope","product":"dir","found":0,"number":null,"products":[],"codes":[2],"ways":[{"code":1,"drop":2,"key":8},{"code":2,"drop":3,"key":9}],"open":null}"#,
    },
    Row {
        case: "an outlet that leads on",
        rule: Rule::OutletCode,
        judged: Judged::AllWithRanks,
        sink: true,
        here: (5, 4, 1, 7, 9),
        east: (9, 0, 1, 7, 9),
        southeast: (9, 0, 1, 7, 9),
        text: "rule 11 OutletCode\nexpected: dir 0, with no lower neighbour, at a listed sink\nfound: dir S 4\n",
        json: r#"{"rule":11,"name":"OutletCode","product":"dir","found":4,"number":0,"products":[],"codes":[0],"ways":[],"open":"sink"}"#,
    },
    Row {
        case: "a smaller rank in the east",
        rule: Rule::FlatStep,
        judged: Judged::AllWithRanks,
        sink: false,
        here: (5, 2, 1, 7, 3),
        east: (5, 0, 1, 7, 2),
        southeast: (5, 0, 1, 7, 3),
        text: "rule 12 FlatStep\nexpected: dir to a neighbour with the same con and a smaller rnk: E 1\nfound: dir SE 2\n",
        json: r#"{"rule":12,"name":"FlatStep","product":"dir","found":2,"number":null,"products":[],"codes":[1],"ways":[],"open":null}"#,
    },
    Row {
        case: "no ranks asked",
        rule: Rule::FlatStep,
        judged: Judged::All,
        sink: false,
        here: (5, 4, 1, 7, 3),
        east: (5, 0, 1, 7, 9),
        southeast: (5, 0, 1, 7, 3),
        text: "rule 12 FlatStep\nexpected: dir to a neighbour with the same con: E 1, SE 2\nfound: dir S 4\n",
        json: r#"{"rule":12,"name":"FlatStep","product":"dir","found":4,"number":null,"products":[],"codes":[1,2],"ways":[],"open":null}"#,
    },
    Row {
        case: "no step along the flat",
        rule: Rule::FlatStep,
        judged: Judged::AllWithRanks,
        sink: false,
        here: (5, 1, 1, 7, 1),
        east: (5, 0, 1, 7, 2),
        southeast: (5, 0, 1, 7, 1),
        text: "rule 12 FlatStep\nexpected: dir to a neighbour with the same con and a smaller rnk: none\nfound: dir E 1\n",
        json: r#"{"rule":12,"name":"FlatStep","product":"dir","found":1,"number":null,"products":[],"codes":[],"ways":[],"open":null}"#,
    },
    Row {
        case: "two cells flow in",
        rule: Rule::Accumulation,
        judged: Judged::AllWithRanks,
        sink: false,
        here: (5, 0, 4, 7, 9),
        east: (9, 16, 10, 7, 9),
        southeast: (9, 32, 20, 7, 9),
        text: "rule 13 Accumulation\nexpected: acc 31\nfound: acc 4\n",
        json: r#"{"rule":13,"name":"Accumulation","product":"acc","found":4,"number":31,"products":[],"codes":[],"ways":[],"open":null}"#,
    },
    Row {
        case: "another label ahead",
        rule: Rule::Label,
        judged: Judged::AllWithRanks,
        sink: false,
        here: (9, 1, 4, 7, 9),
        east: (7, 0, 10, 8, 9),
        southeast: (9, 0, 1, 7, 9),
        text: "rule 14 Label\nexpected: bas of the cell that dir points to, 8\nfound: bas 7\n",
        json: r#"{"rule":14,"name":"Label","product":"bas","found":7,"number":8,"products":[],"codes":[],"ways":[],"open":null}"#,
    },
    Row {
        case: "a label again",
        rule: Rule::SharedLabel,
        judged: Judged::AllWithRanks,
        sink: false,
        here: (5, 0, 1, 7, 9),
        east: (9, 0, 1, 7, 9),
        southeast: (9, 0, 1, 7, 9),
        text: "rule 15 SharedLabel\nexpected: bas that no earlier outlet has\nfound: bas 7\n",
        json: r#"{"rule":15,"name":"SharedLabel","product":"bas","found":7,"number":null,"products":[],"codes":[],"ways":[],"open":null}"#,
    },
    Row {
        case: "numbers missing",
        rule: Rule::Missing,
        judged: Judged::All,
        sink: false,
        here: (5, 255, 0, 7, 4294967295),
        east: (9, 0, 1, 7, 9),
        southeast: (9, 0, 1, 7, 9),
        text: "rule 2 Missing\nexpected: a number at a data cell, in dir, acc\n",
        json: r#"{"rule":2,"name":"Missing","product":null,"found":null,"number":null,"products":["dir","acc"],"codes":[],"ways":[],"open":null}"#,
    },
];

/// The cell of a row, amid its neighbours.
fn patch(row: &Row) -> Result<Patch, &'static str> {
    let mut around = [Some(cell(9, false, (9, 0, 1, 7, 9))?); 8];
    around[0] = Some(cell(3, false, row.east)?);
    around[1] = Some(cell(3, false, row.southeast)?);
    Ok(Patch {
        here: cell(5, row.sink, row.here)?,
        around,
        spacing: Spacing::unit(),
    })
}

fn facts(alloc: Global, row: &Row) -> Result<Facts<Layout>, Fail> {
    let findings = one_fault(alloc, row.rule, row.judged, patch(row)?)?;
    Ok(rejected(row.rule, 1, 2, findings))
}

#[test]
fn each_rule_in_words(rt: HostRuntime) -> Result<(), Fail> {
    for row in &ROWS {
        let facts = facts(rt.alloc(), row)?;
        page_has(&rt, rt.alloc(), Form::Text, row.case, facts, row.text)?;
    }
    Ok(())
}

#[test]
fn each_rule_as_json(rt: HostRuntime) -> Result<(), Fail> {
    for row in &ROWS {
        let facts = facts(rt.alloc(), row)?;
        page_has(&rt, rt.alloc(), Form::Json, row.case, facts, row.json)?;
    }
    Ok(())
}

/// A raised open cell with this in the north.
fn open_beside(alloc: Global, north: Option<CellValues>) -> Result<Facts<Layout>, Fail> {
    let mut around = [Some(cell(9, false, (9, 0, 1, 7, 9))?); 8];
    around[6] = north;
    let here = cell(5, false, (6, 0, 1, 7, 9))?;
    let patch = Patch {
        here,
        around,
        spacing: Spacing::unit(),
    };
    let findings = one_fault(alloc, Rule::OpenRaised, Judged::AllWithRanks, patch)?;
    Ok(rejected(Rule::OpenRaised, 1, 2, findings))
}

/// Whether a void is in the north, and what is expected of the cell.
static OPEN: [(&str, bool, &str); 2] = [
    (
        "the edge",
        false,
        "expected: con equal to the ground, 5, on the edge of the mosaic\n",
    ),
    (
        "a void",
        true,
        "expected: con equal to the ground, 5, next to a void\n",
    ),
];

#[test]
fn why_cells_are_open(rt: HostRuntime) -> Result<(), Fail> {
    for &(case, beside_a_void, expected) in &OPEN {
        let north = if beside_a_void { Some(void()?) } else { None };
        let facts = open_beside(rt.alloc(), north)?;
        page_has(&rt, rt.alloc(), Form::Text, case, facts, expected)?;
    }
    Ok(())
}

/// A void with numbers of its own.
fn numbered_void(alloc: Global, judged: Judged) -> Result<Facts<Layout>, Fail> {
    let patch = Patch {
        here: values(None, false, (4, 255, 0, 0, 3), 255)?,
        around: [None; 8],
        spacing: Spacing::unit(),
    };
    Ok(rejected(
        Rule::VoidCell,
        1,
        2,
        one_fault(alloc, Rule::VoidCell, judged, patch)?,
    ))
}

/// Which rasters are judged, and what is expected of the void.
static NUMBERED: [(&str, Judged, &str); 2] = [
    (
        "ranks asked",
        Judged::AllWithRanks,
        "expected: no data at a void, in con, rnk\n",
    ),
    (
        "ranks unasked",
        Judged::All,
        "expected: no data at a void, in con\n",
    ),
];

#[test]
fn voids_with_numbers(rt: HostRuntime) -> Result<(), Fail> {
    for &(case, judged, expected) in &NUMBERED {
        let facts = numbered_void(rt.alloc(), judged)?;
        page_has(&rt, rt.alloc(), Form::Text, case, facts, expected)?;
    }
    Ok(())
}
