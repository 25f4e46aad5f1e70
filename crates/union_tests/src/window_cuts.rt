//! Two windows of changed products beside an audit of the whole: the same answer.

use crate::agree::same;
use crate::window_inputs::{Inputs, Slope, right_slope};
use crate::window_places::{Window, answer};
use drain_answer::AuditVerdict;
use drain_union::{Outlet, first_shared, sort_by_label};
use drain_verdict::audit;
use std::alloc::Global;
use std::test::Fail;

/// Whether an audit accepts the whole.
fn audited(alloc: Global, inputs: &Inputs) -> Result<bool, Fail> {
    let mut tiles = inputs.tiles(alloc)?;
    let mut products = inputs.products(alloc)?;
    match audit(alloc, inputs.side, &mut tiles, b"", &mut products)? {
        AuditVerdict::Accepted(_) => Ok(true),
        _ => Ok(false),
    }
}

/// Whether the rules hold in this window; its outlets are put to the others.
fn holds(
    alloc: Global,
    inputs: &Inputs,
    window: Window,
    outlets: &mut Vec<Outlet>,
) -> Result<bool, Fail> {
    let window = answer(alloc, inputs, window)??;
    outlets.extend_from_slice(&window.report.outlets)?;
    Ok(window.report.holds)
}

/// Whether the upper three rows and the lower three are accepted, and no label is shared.
fn merged(alloc: Global, inputs: &Inputs) -> Result<bool, Fail> {
    let mut outlets = Vec::new(alloc);
    let upper = holds(alloc, inputs, (0, 0, 3, 4, "s"), &mut outlets)?;
    let lower = holds(alloc, inputs, (1, 0, 3, 4, "n"), &mut outlets)?;
    sort_by_label(outlets.as_mut_slice());
    Ok(upper && lower && first_shared(outlets.as_slice()).is_none())
}

/// Puts a number in a place, if there is one.
fn put(numbers: &mut [u8], place: usize, number: u8) {
    if let Some(found) = numbers.get_mut(place) {
        *found = number;
    }
}

/// The slope with one number of a product changed.
fn changed(product: u32, cell: usize, number: u8) -> Slope {
    let mut slope = right_slope();
    match product {
        0 => put(&mut slope.con, cell.saturating_mul(2), number),
        1 => put(&mut slope.dir, cell, number),
        2 => put(&mut slope.acc, cell, number),
        _ => put(&mut slope.bas, cell, number),
    }
    slope
}

#[test]
fn two_windows_accept_what_an_audit_accepts(rt: HostRuntime) -> Result<(), Fail> {
    for product in 0..4 {
        for cell in 0..16 {
            for number in [0, 1, 2, 4, 9, 255] {
                let slope = changed(product, cell, number);
                let inputs = slope.listing("");
                let given = merged(rt.alloc(), &inputs)?;
                same(&rt, "two windows", given, audited(rt.alloc(), &inputs)?);
            }
        }
    }
    Ok(())
}
