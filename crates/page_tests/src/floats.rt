//! Pages on a raster of floats, 3 rows by 4 columns. A float stands in the facts by its pattern, less the sign and negated
//! for a negative one; patterns, drops and shares were computed with numpy.

use crate::agree::same_text;
use crate::refusals::refused;
use crate::worked::{Form, cells, no_fault_on, page_has, page_of, rejected};
use drain_answer::Refusal;
use drain_faults::FaultyPatch;
use drain_findings::{ElevationRange, Findings, RefusalDetail, Slopes};
use drain_grid::{Cell, CellValues, HeightKind, Judged, NoData, Patch, Product, Rule, Spacing};
use drain_header::{Header, HeaderFault, parse_header_of};
use drain_page::Facts;
use std::test::Fail;

/// The header of the raster.
static HEADER: &[u8] =
    b"NROWS 3\nNCOLS 4\nNBITS 32\nPIXELTYPE FLOAT\nULXMAP 0.5\nULYMAP 2.5\nXDIM 1\nYDIM 1\nNODATA -9999\n";

const NAN: i64 = 2143289344;

const INFINITY: i64 = 2139095040;
/// 3000, the height of neighbours that no row names.
const HIGH: i64 = 1161527296;
/// -9999, no data.
const NO_DATA: i64 = -1176255488;

/// A cell with a fault of a rule, the con of its neighbours in the east, the southeast and the south, and the end of its
/// page as text, and a part of it as JSON.
struct Row {
    case: &'static str,
    rule: Rule,
    ground: i64,
    con: i64,
    dir: i64,
    beside: [i64; 3],
    text: &'static str,
    json: &'static str,
}

static ROWS: [Row; 6] = [
    Row {
        case: "one float less steep",
        rule: Rule::Slope,
        // 1.5, beside 0.25, 3000 and the float after 0.25
        ground: 1069547520,
        con: 1069547520,
        dir: 4,
        beside: [1048576000, HIGH, 1048576001],
        text: "  E 1: con 0.25, drop 1.25, steepest\n  S 4: con 0.25000003, drop 1.25, less steep by 2.4e-8\nfound: dir S 4\nsuch a difference is rounding of a tool in single precision\n",
        json: r#""found":4,"number":null,"products":[],"codes":[1],"ways":[{"code":1,"con":0.25,"drop":1.25,"less_steep":null},{"code":4,"con":0.25000003,"drop":1.25,"less_steep":2.4e-8}],"open":null}"#,
    },
    Row {
        case: "less steep by far",
        rule: Rule::Slope,
        // 713.58, beside 712.31, 711.02 and 712.3
        ground: 1144153375,
        con: 1144153375,
        dir: 1,
        beside: [1144132567, 1144111432, 1144132403],
        text: "  E 1: con 712.31, drop 1.2700195, less steep by 0.3\n  SE 2: con 711.02, drop 2.5599976, steepest\n  S 4: con 712.3, drop 1.2800293, less steep by 0.29\nfound: dir E 1\n",
        json: r#""codes":[2],"ways":[{"code":1,"con":712.31,"drop":1.2700195,"less_steep":0.3},{"code":2,"con":711.02,"drop":2.5599976,"less_steep":null},{"code":4,"con":712.3,"drop":1.2800293,"less_steep":0.29}],"open":null}"#,
    },
    Row {
        case: "the two least floats",
        rule: Rule::Slope,
        // the least float but one, beside the least one
        ground: 2,
        con: 2,
        dir: 0,
        beside: [1, HIGH, HIGH],
        text: "  E 1: con 1e-45, drop 1e-45, steepest\nfound: dir outlet 0\n",
        json: r#""ways":[{"code":1,"con":1e-45,"drop":1e-45,"less_steep":null}]"#,
    },
    Row {
        case: "a tenth on a ground of two tenths",
        rule: Rule::BelowGround,
        ground: 1045220557,
        con: 1036831949,
        dir: 1,
        beside: [HIGH, HIGH, HIGH],
        text: "rule 4 BelowGround\nexpected: con at least the ground, 0.2\nfound: con 0.1\n",
        json: r#"{"rule":4,"name":"BelowGround","product":"con","found":0.1,"number":0.2,"products":[],"codes":[],"ways":[],"open":null}"#,
    },
    Row {
        case: "NaN where there are data",
        rule: Rule::NotLeast,
        ground: 1045220557,
        con: NAN,
        dir: 1,
        beside: [1048576000, HIGH, HIGH],
        text: "rule 9 NotLeast\nexpected: con at most 0.25\nfound: con nan\n",
        json: r#""product":"con","found":"nan","number":0.25,"#,
    },
    Row {
        case: "an infinity",
        rule: Rule::NotLeast,
        ground: -1056964608,
        con: INFINITY,
        dir: 1,
        beside: [HIGH, HIGH, -1056964608],
        text: "rule 9 NotLeast\nexpected: con at most -0.5\nfound: con inf\n",
        json: r#""product":"con","found":"inf","number":-0.5,"#,
    },
];

/// A cell on the ground.
fn cell(ground: Option<i64>, con: i64, dir: i64) -> Result<CellValues, &'static str> {
    match CellValues::of_height(ground, false, con, dir, 1, 7, 0, 0) {
        Some(values) => Ok(values),
        None => Err("the values of a cell"),
    }
}

/// The cell of a row amid its neighbours, with a void in the northwest.
fn patch(row: &Row) -> Result<Patch, &'static str> {
    let [east, southeast, south] = row.beside;
    let mut around = [Some(cell(Some(HIGH), HIGH, 1)?); 8];
    around[0] = Some(cell(Some(east), east, 1)?);
    around[1] = Some(cell(Some(southeast), southeast, 1)?);
    around[2] = Some(cell(Some(south), south, 1)?);
    around[5] = Some(cell(None, NO_DATA, 255)?);
    Ok(Patch {
        here: cell(Some(row.ground), row.con, row.dir)?,
        around,
        spacing: Spacing::unit().of_kind(HeightKind::Single),
    })
}

/// No-data numbers, of con -9999.
fn nodata() -> NoData {
    let mut nodata = NoData::defaults();
    nodata.con = NO_DATA;
    nodata
}

/// Findings with no fault, on elevations from the least float to 8848.86.
fn findings() -> Result<Findings<Header>, Fail> {
    let header = parse_header_of(HEADER, HeightKind::Single)?;
    let mut findings = no_fault_on(header, Judged::ConDirAcc);
    findings.rules.nodata = nodata();
    findings.elevations = Some(ElevationRange {
        least: -2139095039,
        greatest: 1175077745,
    });
    Ok(findings)
}

fn facts(row: &Row) -> Result<Facts<Header>, Fail> {
    let mut findings = findings()?;
    findings.by_rule.slope = cells(1, 1, 2);
    findings.first = Some(FaultyPatch {
        cell: Cell { row: 1, col: 2 },
        patch: patch(row)?,
        rule: row.rule,
    });
    Ok(rejected(row.rule, 1, 2, findings))
}

#[test]
fn each_row_in_words(rt: HostRuntime) -> Result<(), Fail> {
    for row in &ROWS {
        let page = page_of(rt.alloc(), Form::Text, &facts(row)?)?;
        let end = if page.ends_with(row.text) {
            row.text
        } else {
            page.as_str()
        };
        same_text(&rt, row.case, end, row.text);
    }
    Ok(())
}

#[test]
fn each_row_as_json(rt: HostRuntime) -> Result<(), Fail> {
    for row in &ROWS {
        page_has(&rt, rt.alloc(), Form::Json, row.case, facts(row)?, row.json)?;
    }
    Ok(())
}

/// Parts of the page of the first row.
static PARTS: [(Form, &str); 4] = [
    (
        Form::Text,
        "\n\nelevation from -3.4028235e38 to 8848.86\nrule",
    ),
    (
        Form::Text,
        "ground\n              void            3000.0            3000.0\n            3000.0               1.5              0.25\n            3000.0        0.25000003            3000.0\ncon\n           no data            3000.0",
    ),
    (
        Form::Json,
        r#""elevation":{"least":-3.4028235e38,"greatest":8848.86},"ranks":false"#,
    ),
    (
        Form::Json,
        r#""values":[[{"ground":null,"sink":false,"con":null,"dir":null,"acc":1,"bas":null,"rnk":null},{"ground":3000.0,"sink":false,"con":3000.0,"dir":1,"#,
    ),
];

#[test]
fn heights_as_decimals(rt: HostRuntime) -> Result<(), Fail> {
    for &(form, part) in &PARTS {
        page_has(&rt, rt.alloc(), form, "heights", facts(&ROWS[0])?, part)?;
    }
    Ok(())
}

#[test]
fn on_oblong_cells(rt: HostRuntime) -> Result<(), Fail> {
    let Some(spacing) = Spacing::new(30, 20) else {
        return Err("a spacing".into());
    };
    let mut findings = findings()?;
    findings.slopes = Slopes::Cells(spacing.of_kind(HeightKind::Single));
    let facts = rejected(Rule::Slope, 1, 2, findings);
    let part = "8848.86\nslopes: cells 30 by 20\n";
    page_has(&rt, rt.alloc(), Form::Text, "oblong cells", facts, part)
}

/// The facts of a con of the other kind than these elevations.
fn other_kind(expected: HeightKind, found: HeightKind) -> Facts<Header> {
    refused(
        Refusal::BadHeader(Product::Con, HeaderFault::BadPixelType),
        RefusalDetail::Kind { expected, found },
    )
}

/// The kind of the elevations, and a part of a page in this form.
static KINDS: [(HeightKind, HeightKind, Form, &str); 4] = [
    (
        HeightKind::Single,
        HeightKind::Whole,
        Form::Text,
        "refused BadHeader con BadPixelType\n\nexpected: con of floats, as the DEM has: write con as PIXELTYPE FLOAT with NBITS 32\nfound: con without PIXELTYPE FLOAT\n",
    ),
    (
        HeightKind::Whole,
        HeightKind::Single,
        Form::Text,
        "\n\nexpected: con of whole numbers, as the DEM has: write con as PIXELTYPE SIGNEDINT or UNSIGNEDINT\nfound: con with PIXELTYPE FLOAT\n",
    ),
    (
        HeightKind::Single,
        HeightKind::Whole,
        Form::Json,
        r#""refusal":{"about":"kind","product":"con","expected":"floats","found":"whole numbers"},"rows":null"#,
    ),
    (
        HeightKind::Whole,
        HeightKind::Single,
        Form::Json,
        r#""refusal":{"about":"kind","product":"con","expected":"whole numbers","found":"floats"},"rows":null"#,
    ),
];

#[test]
fn a_con_of_another_kind(rt: HostRuntime) -> Result<(), Fail> {
    for &(expected, found, form, part) in &KINDS {
        let facts = other_kind(expected, found);
        page_has(&rt, rt.alloc(), form, part, facts, part)?;
    }
    Ok(())
}
