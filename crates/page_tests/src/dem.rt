//! Pages on one raster of elevations: 3 rows by 4 columns, with the centre of its first pixel at 500000.5 east and 0.25
//! south, and pixels 30 wide and 10^-15 high.

use crate::agree::same_text;
use crate::dem_pages::{JSON, TEXT};
use crate::refusals::refused;
use crate::worked::{Form, cells, no_fault_on, page_has, page_of, rejected};
use drain_answer::{Outcome, Refusal};
use drain_faults::FaultyPatch;
use drain_findings::{ElevationRange, Findings, NotData, RefusalDetail};
use drain_grid::{Cell, CellValues, Counts, Judged, Patch, Rule, Spacing};
use drain_header::{Header, parse_header};
use drain_page::Facts;
use drain_paths::{EndlessPath, LostBy};
use std::test::Fail;

/// The header of the raster.
static HEADER: &[u8] =
    b"BYTEORDER I\nLAYOUT BIL\nNROWS 3\nNCOLS 4\nNBANDS 1\nNBITS 32\nPIXELTYPE SIGNEDINT\nULXMAP 500000.5\nULYMAP -0.25\nXDIM 30\nYDIM 0.000000000000001\nNODATA -9999\n";

fn header() -> Result<Header, Fail> {
    Ok(parse_header(HEADER)?)
}

/// A data cell whose con is its ground.
fn cell(ground: i64, dir: i64, acc: i64) -> Result<CellValues, &'static str> {
    match CellValues::of_height(Some(ground), false, ground, dir, acc, 7, 0, 0) {
        Some(values) => Ok(values),
        None => Err("the values of a cell"),
    }
}

/// The cell of row 2 and column 3, the corner, which falls to the west, and its neighbours.
fn corner() -> Result<Patch, &'static str> {
    let mut around = [None; 8];
    around[4] = Some(cell(-100000, 16, 2)?);
    around[5] = Some(cell(2147483647, 1, 1)?);
    around[6] = Some(cell(100000, 4, 1)?);
    Ok(Patch {
        here: cell(3, 0, 1)?,
        around,
        spacing: Spacing::unit(),
    })
}

/// Findings with one fault of Slope, at the corner.
fn one_slope() -> Result<Findings<Header>, Fail> {
    let mut findings = no_fault_on(header()?, Judged::ConDirAcc);
    findings.by_rule.slope = cells(1, 2, 3);
    findings.elevations = Some(ElevationRange {
        least: -100000,
        greatest: 2147483647,
    });
    findings.first = Some(FaultyPatch {
        cell: Cell { row: 2, col: 3 },
        patch: corner()?,
        rule: Rule::Slope,
    });
    Ok(findings)
}

#[test]
fn a_whole_text(rt: HostRuntime) -> Result<(), Fail> {
    let facts = rejected(Rule::Slope, 2, 3, one_slope()?);
    let text = page_of(rt.alloc(), Form::Text, &facts)?;
    same_text(&rt, "one slope", &text, TEXT);
    Ok(())
}

#[test]
fn a_whole_json(rt: HostRuntime) -> Result<(), Fail> {
    let facts = rejected(Rule::Slope, 2, 3, one_slope()?);
    let json = page_of(rt.alloc(), Form::Json, &facts)?;
    let line = json.strip_suffix("\n").unwrap_or("no line end");
    same_text(&rt, "one slope", line, JSON);
    Ok(())
}

/// The facts of an acceptance with these elevations.
fn accepted(elevations: Option<ElevationRange>) -> Result<Facts<Header>, Fail> {
    let mut findings = no_fault_on(header()?, Judged::ConDirAcc);
    findings.elevations = elevations;
    let counts = Counts {
        rows: 3,
        cols: 4,
        data_cells: 12,
        raised: 0,
        outlets: 10,
    };
    Ok(Facts {
        answer: Ok(Outcome::Accepted(counts)),
        refusal: None,
        findings: Some(findings),
    })
}

#[test]
fn without_a_data_cell(rt: HostRuntime) -> Result<(), Fail> {
    let words = "outlets=10\n\nhold: 1 VoidCell";
    page_has(
        &rt,
        rt.alloc(),
        Form::Text,
        "as text",
        accepted(None)?,
        words,
    )?;
    let members = r#""refusal":null,"rows":3,"cols":4,"elevation":null,"ranks":false"#;
    page_has(
        &rt,
        rt.alloc(),
        Form::Json,
        "as JSON",
        accepted(None)?,
        members,
    )
}

#[test]
fn one_height(rt: HostRuntime) -> Result<(), Fail> {
    let range = ElevationRange {
        least: -7,
        greatest: -7,
    };
    let words = "outlets=10\n\nelevation from -7 to -7\nhold: 1 VoidCell";
    page_has(
        &rt,
        rt.alloc(),
        Form::Text,
        "as text",
        accepted(Some(range))?,
        words,
    )
}

/// The facts of a path that leaves the raster.
fn lost() -> Result<Facts<Header>, Fail> {
    let mut findings = no_fault_on(header()?, Judged::All);
    let run = EndlessPath::Lost {
        cell: Cell { row: 1, col: 0 },
        by: LostBy::Outside,
    };
    findings.endless = Some((Cell { row: 2, col: 2 }, run));
    Ok(Facts {
        answer: Ok(Outcome::NoEnd { row: 2, col: 2 }),
        refusal: None,
        findings: Some(findings),
    })
}

#[test]
fn a_path_that_leaves_it(rt: HostRuntime) -> Result<(), Fail> {
    let words = "  path stops at row 1, column 0: dir points outside the raster\n";
    page_has(&rt, rt.alloc(), Form::Text, "as text", lost()?, words)?;
    let members =
        r#""run":{"from":{"row":2,"col":2,"x":500060.500000000000000,"y":-0.250000000000002},"ring":null,"lost":{"cell":{"row":1,"col":0,"x":500000.500000000000000,"y":-0.250000000000001},"by":"outside"}},"schema":1,"status":1,"rule":null,"name":"NoEnd","row":2,"col":2}"#;
    page_has(&rt, rt.alloc(), Form::Json, "as JSON", lost()?, members)
}

/// Refusals of this number of kinds, by number.
fn refusal(kind: usize) -> Facts<Header> {
    match kind {
        0 => refused(
            Refusal::BadPixelSize,
            RefusalDetail::PixelSize {
                xdim: -30_000_000_000_000_000,
                ydim: 0,
            },
        ),
        1 => refused(
            Refusal::DemShort,
            RefusalDetail::DemLength {
                expected: 48,
                found: 47,
            },
        ),
        _ => refused(
            Refusal::SinkNotData(3),
            RefusalDetail::SinkCell {
                number: 3,
                row: 4,
                col: 7,
                why: NotData::Outside,
            },
        ),
    }
}

/// For each of them its page as text, and as JSON.
static WANTED: [(&str, &str); 3] = [
    (
        "refused BadPixelSize dem\n\nexpected: XDIM and YDIM above 0\nfound: XDIM -30.000000000000000, YDIM 0.000000000000000\n",
        r#"{"answer":"refused BadPixelSize dem","refusal":{"about":"pixel_size","found":{"xdim":"-30.000000000000000","ydim":"0.000000000000000"}},"rows":null,"cols":null,"elevation":null,"ranks":null,"rules":[],"products":[],"patch":null,"expected":null,"run":null,"schema":1,"status":2,"rule":null,"name":null,"row":null,"col":null}"#,
    ),
    (
        "refused RasterShort dem\n\nexpected: dem of 48 bytes\nfound: dem of 47 bytes\n",
        r#"{"answer":"refused RasterShort dem","refusal":{"about":"dem_length","expected":48,"found":47},"rows":null,"cols":null,"elevation":null,"#,
    ),
    (
        "refused SinkNotData 3\n\nexpected: line 3: a data cell\nfound: row 4, column 7, outside the raster\n",
        r#""refusal":{"about":"sink_cell","line":3,"row":4,"col":7,"found":"outside"},"rows":null"#,
    ),
];

#[test]
fn each_refusal(rt: HostRuntime) -> Result<(), Fail> {
    for (kind, (words, members)) in WANTED.iter().enumerate() {
        for (form, part) in [(Form::Text, words), (Form::Json, members)] {
            page_has(&rt, rt.alloc(), form, part, refusal(kind), part)?;
        }
    }
    Ok(())
}

/// Where the first centre of a raster in millimetres lies, with pixels of 30 m; and the line of a rule that fails one row
/// below and one column east of it.
static LONG_PLACES: [(&str, &str); 3] = [
    // 25 and 26 bytes
    (
        "ULXMAP 500000000\nULYMAP 4000030000\n",
        "\n10 Slope                1      1      1 500030000.000000000000000 4000000000.000000000000000\n",
    ),
    // 27 and 25 bytes
    (
        "ULXMAP 9999990000\nULYMAP 100030000\n",
        "\n10 Slope                1      1      1 10000020000.000000000000000 100000000.000000000000000\n",
    ),
    // 24 bytes, and 26 with the sign
    (
        "ULXMAP 49970000\nULYMAP -499970000\n",
        "\n10 Slope                1      1      1  50000000.000000000000000 -500000000.000000000000000\n",
    ),
];

#[test]
fn a_space_before_each_coordinate(rt: HostRuntime) -> Result<(), Fail> {
    for &(place, line) in &LONG_PLACES {
        let text = format!(in rt.alloc();
            "NROWS 3\nNCOLS 4\nNBITS 16\nXDIM 30000\nYDIM 30000\n{place}"
        )?;
        let mut findings = no_fault_on(parse_header(text.as_bytes())?, Judged::ConDirAcc);
        findings.by_rule.slope = cells(1, 1, 1);
        let facts = rejected(Rule::Slope, 1, 1, findings);
        page_has(&rt, rt.alloc(), Form::Text, place, facts, line)?;
    }
    Ok(())
}
