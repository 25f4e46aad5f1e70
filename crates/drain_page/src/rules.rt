//! A table of the rules that fail, and lines of those that hold and of those not checked.

ghost use Rattle.std.specs.Prelude.{◌≡◌};

use crate::frame::{Coordinate, Frame, Words};
use crate::json_text::{JsonText, JsonValue};
use crate::names::{shown_indented, shown_rule};
use drain_faults::{ProductFaults, RULES, RuleFaults};
use drain_findings::Findings;
use drain_grid::{Cell, Rule, SetProduct};
use std::alloc::AllocError;

/// Appends the table and the lines.
pub(crate) fn push_rules<F: Frame>(
    text: &mut String,
    findings: &Findings<F>,
) -> Result<(), AllocError> {
    push_table(text, findings)?;
    push_names(text, "hold:", findings, Standing::Holds)?;
    push_names(text, "not tried:", findings, Standing::Untried)?;
    if findings.rules.judged.has_rnk() {
        Ok(())
    } else {
        text.push_str("ranks: not checked\n")
    }
}

/// What is known of a rule.
#[derive(Clone, Copy, PartialEq, Eq)]
enum Standing {
    Fails,
    Holds,
    Untried,
}

fn standing_of<F>(findings: &Findings<F>, rule: Rule) -> Standing {
    if !findings.tries(rule) {
        Standing::Untried
    } else if findings.by_rule.of(rule).cells != 0 {
        Standing::Fails
    } else {
        Standing::Holds
    }
}

/// A line for each rule that fails, below a line of headings; nothing if all rules hold.
fn push_table<F: Frame>(text: &mut String, findings: &Findings<F>) -> Result<(), AllocError> {
    let mut headings = F::words().headings;
    for rule in RULES {
        if standing_of(findings, rule) == Standing::Fails {
            text.push_str(headings)?;
            headings = "";
            push_failing(text, findings, rule)?;
        }
    }
    Ok(())
}

/// The line of a rule, and below those of its products, if it is VoidCell or Missing.
fn push_failing<F: Frame>(
    text: &mut String,
    findings: &Findings<F>,
    rule: Rule,
) -> Result<(), AllocError> {
    let name = shown_rule(rule);
    let faults = findings.by_rule.of(rule);
    push_faults(text, name.as_str(), &findings.layout, faults)?;
    match rule {
        Rule::VoidCell | Rule::Missing => push_products(text, findings, rule),
        _ => Ok(()),
    }
}

/// A line for each product that is at fault.
fn push_products<F: Frame>(
    text: &mut String,
    findings: &Findings<F>,
    rule: Rule,
) -> Result<(), AllocError> {
    for product in SetProduct::ALL {
        let faults = findings.by_product.of(product);
        let faults = match rule {
            Rule::VoidCell => faults.at_voids,
            _ => faults.at_data,
        };
        if findings.looks_at(product) && faults.cells != 0 {
            let name = shown_indented(product.product().name());
            push_faults(text, name.as_str(), &findings.layout, &faults)?;
        }
    }
    Ok(())
}

/// What fails, at how many cells, and the first: its row and column, and where it lies.
fn push_faults<F: Frame>(
    text: &mut String,
    name: &str,
    layout: &F,
    faults: &RuleFaults,
) -> Result<(), AllocError> {
    let cells = faults.cells;
    write!(text, "{name:<15}{cells:>10}")?;
    if let Some(cell) = faults.first {
        push_place(text, layout, cell)?;
    }
    text.push_str("\n")
}

/// A cell's row and column, and where it lies, in columns. A long coordinate too has a space before it.
fn push_place<F: Frame>(text: &mut String, layout: &F, cell: Cell) -> Result<(), AllocError> {
    let Cell { row, col } = cell;
    let east = layout.east(col).text();
    let north = layout.north(row).text();
    let (east, north) = (east.as_str(), north.as_str());
    if F::words().is_wide {
        write!(text, "{row:>7}{col:>7} {east:>25} {north:>25}")
    } else {
        write!(text, "{row:>7}{col:>7}{east:>14}{north:>14}")
    }
}

/// A line of the rules of which this is known, behind these words.
fn push_names<F>(
    text: &mut String,
    label: &'static str,
    findings: &Findings<F>,
    known: Standing,
) -> Result<(), AllocError> {
    text.push_str(label)?;
    let mut separator = " ";
    for rule in RULES {
        if standing_of(findings, rule) == known {
            write!(text, "{separator}{}", shown_rule(rule))?;
            separator = ", ";
        }
    }
    text.push_str(if separator == " " { " none\n" } else { "\n" })
}

/// Each rule that was checked.
pub(crate) fn write_rules<F: Frame>(
    json: &mut JsonText,
    findings: &Findings<F>,
) -> Result<(), AllocError>
    ensures { json.new ≡ json.old }
{
    json.begin_list("rules")?;
    for rule in RULES {
        if findings.tries(rule) {
            write_rule(json, &findings.layout, rule, findings.by_rule.of(rule))?;
        }
    }
    json.end_list()
}

fn write_rule<F: Frame>(
    json: &mut JsonText,
    layout: &F,
    rule: Rule,
    faults: &RuleFaults,
) -> Result<(), AllocError>
    ensures { json.new ≡ json.old }
{
    json.begin_object_item()?;
    json.member("rule", rule.number())?;
    json.member("name", rule.name())?;
    end_with_faults(json, layout, faults)
}

/// Each product that was checked, with its faults by rules VoidCell and Missing.
pub(crate) fn write_products<F: Frame>(
    json: &mut JsonText,
    findings: &Findings<F>,
) -> Result<(), AllocError>
    ensures { json.new ≡ json.old }
{
    json.begin_list("products")?;
    for product in SetProduct::ALL {
        if findings.looks_at(product) {
            write_product(
                json,
                &findings.layout,
                product,
                findings.by_product.of(product),
            )?;
        }
    }
    json.end_list()
}

fn write_product<F: Frame>(
    json: &mut JsonText,
    layout: &F,
    product: SetProduct,
    faults: &ProductFaults,
) -> Result<(), AllocError>
    ensures { json.new ≡ json.old }
{
    json.begin_object_item()?;
    json.member("product", product)?;
    json.begin_object("at_voids")?;
    end_with_faults(json, layout, &faults.at_voids)?;
    json.begin_object("at_data")?;
    end_with_faults(json, layout, &faults.at_data)?;
    json.end_object()
}

/// How many cells, and the first, at the end of an object.
fn end_with_faults<F: Frame>(
    json: &mut JsonText,
    layout: &F,
    faults: &RuleFaults,
) -> Result<(), AllocError>
    ensures { json.new ≡ json.old }
{
    json.member("cells", faults.cells)?;
    match faults.first {
        Some(cell) => json.member("first", placed(layout, cell))?,
        None => json.null("first")?,
    }
    json.end_object()
}

/// A product, by its name.
impl JsonValue for SetProduct {
    fn append(self, json: &mut JsonText) -> Result<(), AllocError> {
        self.product().name().append(json)
    }
}

/// A cell, and where it lies.
#[derive(Clone, Copy)]
pub(crate) struct PlacedCell {
    cell: Cell,
    east: Coordinate,
    north: Coordinate,
    words: Words,
}

/// The cell, with where it lies in this frame.
pub(crate) fn placed<F: Frame>(layout: &F, cell: Cell) -> PlacedCell {
    PlacedCell {
        cell,
        east: layout.east(cell.col),
        north: layout.north(cell.row),
        words: F::words(),
    }
}

impl JsonValue for PlacedCell {
    fn append(self, json: &mut JsonText) -> Result<(), AllocError> {
        json.begin_object_item()?;
        json.member("row", self.cell.row)?;
        json.member("col", self.cell.col)?;
        json.member(self.words.east, self.east)?;
        json.member(self.words.north, self.north)?;
        json.end_object()
    }
}
