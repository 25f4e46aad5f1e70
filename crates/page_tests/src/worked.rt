//! Facts to make pages of: a mosaic of 4 by 4 cells at three steps a degree, with its north-west corner at 38 degrees
//! north and 105 west.

use crate::agree::has;
use drain_answer::outcome::Status;
use drain_answer::{Outcome, Refusal};
use drain_faults::{FaultyPatch, PerRule, ProductFaults, RuleFaults};
use drain_findings::{Findings, Slopes};
use drain_grid::{
    Cell, CellValues, Counts, Judged, NoData, Patch, PerProduct, Rule, Rules, Spacing,
};
use drain_hgt::TileName;
use drain_mosaic::Layout;
use drain_page::{Facts, Frame, page_json, page_text};
use std::alloc::Global;
use std::process::Abort;
use std::test::Fail;

/// Its one tile, of side 4.
fn layout(alloc: Global) -> Result<Layout, Fail> {
    let tile = TileName::parse(b"N37W105.hgt")?;
    Ok(Layout::new(alloc, 4, &[tile])?)
}

/// The numbers of con, dir, acc, bas and rnk.
pub type Numbers = (i64, i64, i64, i64, i64);

/// A cell with this spill code.
pub fn values(
    ground: Option<i16>,
    sink: bool,
    numbers: Numbers,
    spl: i64,
) -> Result<CellValues, &'static str> {
    let (con, dir, acc, bas, rnk) = numbers;
    match CellValues::new(ground, sink, con, dir, acc, bas, spl, rnk) {
        Some(values) => Ok(values),
        None => Err("the values of a cell"),
    }
}

/// A data cell.
pub fn cell(ground: i16, sink: bool, numbers: Numbers) -> Result<CellValues, &'static str> {
    values(Some(ground), sink, numbers, 0)
}

/// A void with the no-data numbers.
pub fn void() -> Result<CellValues, &'static str> {
    values(None, false, (-32768, 255, 0, 0, 4294967295), 255)
}

/// No cell.
pub fn no_cell() -> RuleFaults {
    RuleFaults {
        cells: 0,
        first: None,
    }
}

/// This number of cells, the first of them this.
pub fn cells(cells: u32, row: u32, col: u32) -> RuleFaults {
    RuleFaults {
        cells,
        first: Some(Cell { row, col }),
    }
}

/// A product with these cells at fault, at voids and at data cells.
pub fn product(at_voids: RuleFaults, at_data: RuleFaults) -> ProductFaults {
    ProductFaults { at_voids, at_data }
}

/// Findings with no fault.
pub fn no_fault(alloc: Global, judged: Judged) -> Result<Findings<Layout>, Fail> {
    Ok(no_fault_on(layout(alloc)?, judged))
}

/// Findings with no fault, on a grid that lies there.
pub fn no_fault_on<F>(layout: F, judged: Judged) -> Findings<F> {
    Findings {
        layout,
        rules: Rules {
            nodata: NoData::defaults(),
            judged,
        },
        by_rule: PerRule::same(no_cell()),
        by_product: PerProduct {
            con: product(no_cell(), no_cell()),
            dir: product(no_cell(), no_cell()),
            acc: product(no_cell(), no_cell()),
            bas: product(no_cell(), no_cell()),
            rnk: product(no_cell(), no_cell()),
        },
        first: None,
        map: None,
        endless: None,
        elevations: None,
        slopes: Slopes::Cells(Spacing::unit()),
    }
}

/// Findings with one fault of this rule, at this patch.
pub fn one_fault(
    alloc: Global,
    rule: Rule,
    judged: Judged,
    patch: Patch,
) -> Result<Findings<Layout>, Fail> {
    let mut findings = no_fault(alloc, judged)?;
    set(&mut findings.by_rule, rule, cells(1, 1, 2));
    findings.first = Some(FaultyPatch {
        cell: Cell { row: 1, col: 2 },
        patch,
        rule,
    });
    Ok(findings)
}

fn set(by_rule: &mut PerRule<RuleFaults>, rule: Rule, faults: RuleFaults) {
    match rule {
        Rule::VoidCell => by_rule.void_cell = faults,
        Rule::Missing => by_rule.missing = faults,
        Rule::BadCode => by_rule.bad_code = faults,
        Rule::BelowGround => by_rule.below_ground = faults,
        Rule::OpenRaised => by_rule.open_raised = faults,
        Rule::NoSpill => by_rule.no_spill = faults,
        Rule::SpillHeight => by_rule.spill_height = faults,
        Rule::SpillRank => by_rule.spill_rank = faults,
        Rule::NotLeast => by_rule.not_least = faults,
        Rule::Slope => by_rule.slope = faults,
        Rule::OutletCode => by_rule.outlet_code = faults,
        Rule::FlatStep => by_rule.flat_step = faults,
        Rule::Accumulation => by_rule.accumulation = faults,
        Rule::Label => by_rule.label = faults,
        Rule::SharedLabel => by_rule.shared_label = faults,
    }
}

/// The facts of a rejection.
pub fn rejected<F>(rule: Rule, row: u32, col: u32, findings: Findings<F>) -> Facts<F> {
    Facts {
        answer: Ok(Outcome::Rejected { rule, row, col }),
        refusal: None,
        findings: Some(findings),
    }
}

/// The facts of an acceptance.
pub fn accepted<F>(findings: Findings<F>) -> Facts<F> {
    let counts = Counts {
        rows: 4,
        cols: 4,
        data_cells: 15,
        raised: 2,
        outlets: 3,
    };
    Facts {
        answer: Ok(Outcome::Accepted(counts)),
        refusal: None,
        findings: Some(findings),
    }
}

/// How a page is printed.
#[derive(Clone, Copy)]
pub enum Form {
    Text,
    Json,
}

/// The exit status of an answer.
fn status_of(answer: &Result<Outcome, Refusal>) -> Status {
    match answer {
        Ok(Outcome::Accepted(_) | Outcome::AcceptedSurface(_)) => Status::Done,
        Ok(_) => Status::Rejected,
        Err(refusal) => Status::of_refusal(*refusal),
    }
}

/// The page in this form.
pub fn page_of<F: Frame>(alloc: Global, form: Form, facts: &Facts<F>) -> Result<String, Fail> {
    match form {
        Form::Text => Ok(String::from_utf8(page_text(alloc, facts)?)?),
        Form::Json => Ok(page_json(alloc, facts, status_of(&facts.answer))?),
    }
}

/// Fails the test if the page in this form doesn't contain this, and names the case.
pub fn page_has<F: Frame + Drop>(
    rt: &impl Abort,
    alloc: Global,
    form: Form,
    case: &str,
    facts: Facts<F>,
    part: &str,
) -> Result<(), Fail> {
    has(rt, case, &page_of(alloc, form, &facts)?, part);
    Ok(())
}
