//! The first cell at which a rule fails, with its values and its neighbours', as JSON.

ghost use Rattle.std.specs.Prelude.{◌≡◌};

use crate::frame::Frame;
use crate::json_text::{JsonText, JsonValue};
use crate::numerals::{Numeral, kind_of, numeral_if_any};
use crate::patch_text::rows_of;
use crate::rules::placed;
use drain_faults::product_faults::{nodata_of, number_at};
use drain_findings::Findings;
use drain_grid::{CellValues, HeightKind, SetProduct};
use std::alloc::AllocError;

/// The cell, and three rows of three cells with it in the middle; null if there is none.
pub(crate) fn write_patch<F: Frame>(
    json: &mut JsonText,
    findings: &Findings<F>,
) -> Result<(), AllocError>
    ensures { json.new ≡ json.old }
{
    let Some(first) = &findings.first else {
        return json.null("patch");
    };
    json.begin_object("patch")?;
    json.member("cell", placed(&findings.layout, first.cell))?;
    json.begin_list("values")?;
    for row in &rows_of(&first.patch) {
        write_row(json, findings, first.patch.spacing.kind, row)?;
    }
    json.end_list()?;
    json.end_object()
}

/// The values of three cells, on heights of this kind; null outside the grid.
fn write_row<F>(
    json: &mut JsonText,
    findings: &Findings<F>,
    kind: HeightKind,
    row: &[Option<CellValues>],
) -> Result<(), AllocError>
    ensures { json.new ≡ json.old }
{
    json.begin_list_item()?;
    for cell in row {
        match cell {
            Some(values) => write_values(json, kind, values, findings)?,
            None => None::<bool>.append(json)?,
        }
    }
    json.end_list()
}

/// The ground, null at a void, and the products' numbers.
fn write_values<F>(
    json: &mut JsonText,
    kind: HeightKind,
    values: &CellValues,
    findings: &Findings<F>,
) -> Result<(), AllocError>
    ensures { json.new ≡ json.old }
{
    json.begin_object_item()?;
    json.member("ground", numeral_if_any(kind, values.z))?;
    json.member("sink", values.sink)?;
    for product in SetProduct::ALL {
        let number = shown_number(kind, values, findings, product);
        json.member(product.product().name(), number)?;
    }
    json.end_object()
}

/// A product's number; none if it is the no-data number, or the product wasn't looked at.
fn shown_number<F>(
    heights: HeightKind,
    values: &CellValues,
    findings: &Findings<F>,
    product: SetProduct,
) -> Option<Numeral> {
    let number = number_at(values, product);
    if findings.looks_at(product) && number != nodata_of(&findings.rules.nodata, product) {
        Some(Numeral::new(kind_of(heights, product), number))
    } else {
        None
    }
}
