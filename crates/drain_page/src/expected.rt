//! What the first rule that fails at a cell expected there.

ghost use Rattle.std.specs.Prelude.{◌≡◌};

use crate::float_ways::push_rounding;
use crate::frame::Frame;
use crate::json_text::{JsonText, JsonValue};
use crate::names::{Shown, shown_code, shown_number, shown_rule, shown_word};
use crate::numerals::{Numeral, kind_of, numeral_if_any, shown_numeral};
use crate::slopes::{Ways, is_steepest, push_ways, ways_down, write_ways};
use drain_faults::FaultyPatch;
use drain_faults::product_faults::{nodata_of, number_at};
use drain_fill::{Opening, greatest_allowed, opening_of};
use drain_findings::{Findings, judged_product};
use drain_flat::{is_flat_way, is_flat_way_without_ranks};
use drain_grid::{CellValues, Code, HeightKind, Judged, Patch, Rule, SetProduct};
use std::alloc::{AllocError, Global};

/// The nine codes.
const CODES: [i64; 9] = [0, 1, 2, 4, 8, 16, 32, 64, 128];

/// What a rule expected at a cell. What it says nothing about is none or empty.
#[derive(Drop)]
pub struct Expected {
    /// The product whose number is wrong, of rules 3 to 15.
    pub product: Option<SetProduct>,
    /// The kind of its numbers.
    pub kind: HeightKind,
    /// The number that it should have; of rule BelowGround the least, of rule NotLeast the greatest.
    pub number: Option<i64>,
    /// The products at fault, of rules VoidCell and Missing.
    pub products: Vec<SetProduct>,
    /// The codes that dir may have.
    pub codes: Vec<i64>,
    /// The ways down, of rule Slope.
    pub ways: Ways,
    /// Why the cell is open, if the rule is about open cells.
    pub open: Option<Opening>,
}

/// What the rule expected at this cell, the first at which any fails.
pub(crate) fn expected_at<F>(
    alloc: Global,
    first: &FaultyPatch,
    findings: &Findings<F>,
) -> Result<Expected, AllocError> {
    let FaultyPatch { rule, patch, .. } = first;
    let product = judged_product(*rule);
    Ok(Expected {
        product,
        kind: kind_judged(patch, product),
        number: expected_number(*rule, patch),
        products: products_at_fault(alloc, *rule, &patch.here, findings)?,
        codes: allowed_codes(alloc, *rule, patch, findings.rules.judged)?,
        ways: ways_down(alloc, *rule, patch)?,
        open: opening(*rule, patch),
    })
}

/// The kind of the numbers of a product that is judged on this patch.
fn kind_judged(patch: &Patch, product: Option<SetProduct>) -> HeightKind {
    match product {
        Some(product) => kind_of(patch.spacing.kind, product),
        None => HeightKind::Whole,
    }
}

/// The number that the product should have.
fn expected_number(rule: Rule, patch: &Patch) -> Option<i64> {
    match rule {
        Rule::BelowGround | Rule::OpenRaised => Some(patch.here.z.unwrap_or(0)),
        Rule::NotLeast => greatest_allowed(patch),
        Rule::OutletCode => Some(0),
        Rule::Accumulation => Some(drain_accum::expected(patch)),
        Rule::Label => drain_basin::expected_label(patch),
        _ => None,
    }
}

/// The products that have a number at a void, or none at a data cell.
fn products_at_fault<F>(
    alloc: Global,
    rule: Rule,
    here: &CellValues,
    findings: &Findings<F>,
) -> Result<Vec<SetProduct>, AllocError> {
    let mut products = Vec::new(alloc);
    for product in SetProduct::ALL {
        if findings.looks_at(product) && is_at_fault(rule, here, findings, product) {
            products.push(product)?;
        }
    }
    Ok(products)
}

fn is_at_fault<F>(
    rule: Rule,
    here: &CellValues,
    findings: &Findings<F>,
    product: SetProduct,
) -> bool {
    let is_blank = number_at(here, product) == nodata_of(&findings.rules.nodata, product);
    match rule {
        Rule::VoidCell => !is_blank,
        Rule::Missing => is_blank,
        _ => false,
    }
}

/// The codes that dir may have, if it is wrong.
fn allowed_codes(
    alloc: Global,
    rule: Rule,
    patch: &Patch,
    judged: Judged,
) -> Result<Vec<i64>, AllocError> {
    let mut codes = Vec::new(alloc);
    for code in CODES {
        if is_allowed(rule, patch, judged, code) {
            codes.push(code)?;
        }
    }
    Ok(codes)
}

/// Whether dir may have this code.
fn is_allowed(rule: Rule, patch: &Patch, judged: Judged, code: i64) -> bool {
    match (rule, Code::from_number(code)) {
        (Rule::BadCode, _) => true,
        (Rule::OutletCode, Some(Code::Outlet)) => true,
        (Rule::Slope, Some(Code::To(direction))) => is_steepest(patch, direction),
        (Rule::FlatStep, Some(Code::To(direction))) => {
            if judged.has_rnk() {
                is_flat_way(patch, direction)
            } else {
                is_flat_way_without_ranks(patch, direction)
            }
        }
        _ => false,
    }
}

/// Why the cell is open, if the rule is about open cells.
fn opening(rule: Rule, patch: &Patch) -> Option<Opening> {
    match rule {
        Rule::OpenRaised | Rule::OutletCode => opening_of(patch),
        _ => None,
    }
}

/// Appends the rule and these lines.
pub(crate) fn push_expected<F: Frame>(
    text: &mut String,
    first: &FaultyPatch,
    findings: &Findings<F>,
    expected: &Expected,
) -> Result<(), AllocError> {
    write!(text, "rule {}\nexpected: ", shown_rule(first.rule))?;
    push_expectation(
        text,
        first.rule,
        findings.rules.judged,
        expected,
        F::words().whole,
    )?;
    text.push_str("\n")?;
    push_ways(text, &first.patch, &expected.ways)?;
    match expected.product {
        Some(product) => {
            let kind = first.patch.spacing.kind;
            let number = shown_number(kind, &first.patch.here, product, &findings.rules.nodata);
            writeln!(text, "found: {} {number}", product.product().name())?;
            push_note(text, first, expected)
        }
        None => Ok(()),
    }
}

/// A line on a difference of slopes that rounding makes, of ways between floats.
fn push_note(
    text: &mut String,
    first: &FaultyPatch,
    expected: &Expected,
) -> Result<(), AllocError> {
    match expected.ways {
        Ways::Whole(_) => Ok(()),
        Ways::Floats(_) => push_rounding(text, &first.patch),
    }
}

/// The number that was expected, in words; empty if there is none.
fn shown_expected(expected: &Expected) -> Shown {
    match numeral_if_any(expected.kind, expected.number) {
        Some(numeral) => shown_numeral("", numeral),
        None => shown_word(""),
    }
}

/// Appends what was expected.
fn push_expectation(
    text: &mut String,
    rule: Rule,
    judged: Judged,
    expected: &Expected,
    whole: &'static str,
) -> Result<(), AllocError> {
    let (opened, edge) = at_opening(expected.open, whole);
    let number = shown_expected(expected);
    match (rule, expected.number) {
        (Rule::VoidCell, _) => push_products(text, "no data at a void, in ", &expected.products),
        (Rule::Missing, _) => {
            push_products(text, "a number at a data cell, in ", &expected.products)
        }
        (Rule::BadCode, _) => text.push_str("dir 0, 1, 2, 4, 8, 16, 32, 64 or 128"),
        (Rule::BelowGround, Some(_)) => write!(text, "con at least the ground, {number}"),
        (Rule::OpenRaised, Some(_)) => write!(
            text,
            "con equal to the ground, {number}{opened}{edge}"
        ),
        (Rule::NotLeast, Some(_)) => write!(text, "con at most {number}"),
        (Rule::NotLeast, None) => text.push_str("any con"),
        (Rule::Slope, _) => text.push_str("dir of a steepest descent"),
        (Rule::OutletCode, _) => write!(text, "dir 0, with no lower neighbour{opened}{edge}"),
        (Rule::FlatStep, _) => push_along(text, &expected.codes, judged),
        (Rule::Accumulation, Some(_)) => write!(text, "acc {number}"),
        (Rule::Label, Some(_)) => { write!(text, "bas of the cell that dir points to, {number}") }
        (Rule::Label, None) => text.push_str("any bas"),
        (Rule::SharedLabel, _) => text.push_str("bas that no earlier outlet has"),
        _ => text.push_str("nothing"),
    }
}

/// These words and the products' names.
fn push_products(
    text: &mut String,
    words: &str,
    products: &[SetProduct],
) -> Result<(), AllocError> {
    text.push_str(words)?;
    let mut separator = "";
    for product in products {
        write!(text, "{separator}{}", product.product().name())?;
        separator = ", ";
    }
    Ok(())
}

/// Why the cell is open, and of what it is on the edge.
fn at_opening(open: Option<Opening>, whole: &'static str) -> (&'static str, &'static str) {
    match open {
        Some(Opening::Sink) => (", at a listed sink", ""),
        Some(Opening::Edge) => (", on the edge of the ", whole),
        Some(Opening::Void) => (", next to a void", ""),
        None => ("", ""),
    }
}

/// The allowed steps along a flat.
fn push_along(text: &mut String, codes: &[i64], judged: Judged) -> Result<(), AllocError> {
    text.push_str(if judged.has_rnk() {
        "dir to a neighbour with the same con and a smaller rnk: "
    } else {
        "dir to a neighbour with the same con: "
    })?;
    let mut separator = "";
    for code in codes {
        write!(text, "{separator}{}", shown_code(*code))?;
        separator = ", ";
    }
    text.push_str(if codes.is_empty() { "none" } else { "" })
}

/// What was expected; null if no rule fails. A member that the rule doesn't use is null or empty.
pub(crate) fn write_expected<F>(
    alloc: Global,
    json: &mut JsonText,
    findings: &Findings<F>,
) -> Result<(), AllocError>
    ensures { json.new ≡ json.old }
{
    let Some(first) = &findings.first else {
        return json.null("expected");
    };
    let expected = expected_at(alloc, first, findings)?;
    let found = match expected.product {
        Some(product) => {
            let number = number_at(&first.patch.here, product);
            Some(Numeral::new(expected.kind, number))
        }
        None => None,
    };
    json.begin_object("expected")?;
    json.member("rule", first.rule.number())?;
    json.member("name", first.rule.name())?;
    json.member("product", expected.product)?;
    json.member("found", found)?;
    write_members(json, &first.patch, &expected)
}

/// The other members, and the end of the object.
fn write_members(json: &mut JsonText, patch: &Patch, expected: &Expected) -> Result<(), AllocError>
    ensures { json.new ≡ json.old }
{
    json.member("number", numeral_if_any(expected.kind, expected.number))?;
    json.list("products", &expected.products)?;
    json.list("codes", &expected.codes)?;
    write_ways(json, patch, &expected.ways)?;
    json.member("open", expected.open)?;
    json.end_object()
}

/// Why a cell is open, by a word.
impl JsonValue for Opening {
    fn append(self, json: &mut JsonText) -> Result<(), AllocError> {
        self.name().append(json)
    }
}
